// The lines, of words and numbers of at most 20 digits. The first line of an accepted book has at most 5 + 3 * 21 = 68 bytes and is lent 72, any other
// has at most 64.
ghost use Rattle.std.specs.Prelude.{◌+◌, ◌≤◌, length};
ghost use Rattle.transcript_lines.specs.Lines.{first_line};
ghost use Rattle.transcript_lines.specs.Block.{ending};
ghost use Rattle.line_writer.specs.Puts.{Puts, PutsPair};
ghost use Rattle.line_writer.specs.Said.{book_says, build_says, HasRoom, PutsAnswer, WritesLines};

use crate::question::is_whole;
use crate::text::{put, put_number};
use refusals::{BuildRefusal, Refusal};
use table_limits::Counts;

// Puts the first line at the front of the buffer, and returns its length: of an accepted book the numbers of states and transitions and the depth, else
// the number and the second value of the refusal, where the third number is not read.
pub fn first_line(accepted: bool, first: u64, second: u64, third: u64, line: &mut [u8; 72]) -> usize
    ensures { Puts line.old 0 (first_line (book_says accepted first second third)) line.new result }
{
    if accepted {
        let end = put_pair(line, b"book ", first, second, b" ");
        return put_number(line, end, third, b"\n");
    }
    put_pair(line, b"book refused ", first, second, b"\n")
}

// The same for what a build gives: its counts, or its refusal by number and value.
pub fn build_line(build: Result<Counts, BuildRefusal>, line: &mut [u8; 72]) -> usize
    ensures { Puts line.old 0 (first_line (build_says build)) line.new result }
{
    match build {
        Ok(counts) => first_line(
            true,
            counts.states as u64,
            counts.transitions as u64,
            counts.depth as u64,
            line,
        ),
        Err(refusal) => first_line(
            false,
            refusal.cause() as u64,
            refusal.value() as u64,
            0,
            line,
        ),
    }
}

// Puts a word, a number, a space, a number and a last word at the front of the buffer; returns the place after them.
fn put_pair(line: &mut [u8], word: &[u8], first: u64, second: u64, last: &[u8]) -> usize
    requires { length word.now + 41 + length last.now ≤ length line.old }
    ensures { PutsPair line.old word.now first second last.now line.new result }
{
    let start = put(line, 0, word);
    let middle = put_number(line, start, first, b" ");
    put_number(line, middle, second, last)
}

// Puts the lines of questions that are answered by these bytes, numbered from `number` on, at a place, and returns the place after them. Without 64
// bytes and a number for each nothing is put.
pub fn answer_lines(out: &mut [u8], at: usize, number: u64, answers: &[u8]) -> usize
    ensures { WritesLines out.old at number answers.now out.new result }
{
    if !has_room(out.len(), at, number, answers.len()) {
        return at;
    }
    let mut end = at;
    for (i, answer) in answers.iter().enumerate() {
        end = put_answer(out, end, number + i as u64, *answer);
    }
    end
}

// Whether a buffer of this size has room for so many lines from a place on, and there are numbers for them from `number` on.
fn has_room(size: usize, at: usize, number: u64, count: usize) -> bool
    ensures { HasRoom size at number count result }
{
    at <= size && count <= (size - at) / 64 && count as u64 <= u64::MAX - number
}

// Puts the line of a question that is answered by this byte at a place; returns the place after it.
fn put_answer(out: &mut [u8], at: usize, number: u64, answer: u8) -> usize
    requires { at + 64 ≤ length out.old }
    ensures { PutsAnswer out.old at number answer out.new result }
{
    match answer {
        0 => put_number(out, at, number, b" no\n"),
        1 => put_number(out, at, number, b" yes\n"),
        _ => {
            let end = put_number(out, at, number, b" refused ");
            put_number(out, end, answer as u64, b"\n")
        }
    }
}

// Puts the line of the input's end at the front of the buffer: where it is a part of a question, that this is cut; else nothing. Returns its length.
pub fn last_line(number: u64, input: &[u8], line: &mut [u8; 64]) -> usize
    ensures { Puts line.old 0 (ending number input.now) line.new result }
{
    if input.is_empty() || is_whole(input) {
        return 0;
    }
    put_number(line, 0, number, b" cut\n")
}
