// Blocks of input: the whole questions of one are answered, and what is left is kept for the next.
ghost use Rattle.std.specs.Prelude.{◌≤◌, length};
ghost use Rattle.std.proofs.Math.Seq.{slice};
ghost use Rattle.line_writer.specs.Puts.{Puts};
ghost use Rattle.query_correctness.specs.TrailQuery.{AnsweredByTrails};
ghost use Rattle.transcript_writer.specs.Opened.{heads_in, moves_in};
ghost use Rattle.transcript_writer.specs.Advances.{AnswersBlock, Advances, LinesIn};

use crate::opening::Tables;
use line_writer::{answer_lines, is_whole};
use query_binder::bind_all;

// How far a block is answered: the number of the next question, how many bytes are kept for it at the front of the input, how many are written, and
// whether a whole question is left, for which there is no room.
#[derive(Clone, Copy)]
pub struct Progress {
    pub number: u64,
    pub kept: usize,
    pub written: usize,
    pub left: bool,
}

// Answers the whole questions at the front of the input's first `end` bytes, a line each, numbered from `number` on, while 64 bytes are left for a line.
// What is not answered is moved to the front of the input; what is not written keeps its value.
pub fn answer_block(
    tables: Tables,
    number: u64,
    input: &mut [u8],
    end: usize,
    out: &mut [u8],
) -> Progress
    ensures { AnswersBlock (AnsweredByTrails (heads_in tables) (moves_in tables)) number input.old end out.old input.new out.new result }
{
    let size = end.min(input.len());
    let reached = answer_each(tables, number, &input[..size], out);
    let kept = keep(input, reached.read, size);
    Progress {
        number: reached.number,
        kept,
        written: reached.written,
        left: is_whole(&input[..kept]),
    }
}

// How far the questions are answered: the number of the next one, and how many bytes are read and written.
#[derive(Clone, Copy)]
struct Reached {
    number: u64,
    read: usize,
    written: usize,
}

// Answers the whole questions at the front of the input by the numbers of the tables that count, as many at a time as surely have room for their lines.
fn answer_each(tables: Tables, number: u64, input: &[u8], out: &mut [u8]) -> Reached
    ensures { Advances (AnsweredByTrails (heads_in tables) (moves_in tables)) number input.now out.old out.new result }
{
    let heads = tables.heads;
    let moves = tables.moves;
    let names = tables.names.min(64);
    let numbers = 3 * tables.transitions.min(5120);
    let mut next = number;
    let mut read = 0;
    let mut written = 0;
    let mut most = lines_in(true, out.len(), number);
    while 0 < most {
        let mut answers = [0u8; 1024];
        let batch = bind_all(
            &heads[..names],
            &moves[..numbers],
            &input[read..],
            &mut answers[..most],
        );
        let answered = batch.answered;
        written = answer_lines(out, written, next, &answers[..answered]);
        next += answered as u64;
        read += batch.read;
        most = lines_in(answered == most, out.len() - written, next);
    }
    Reached {
        number: next,
        read,
        written,
    }
}

// How many questions to answer at a time where there is so much room for lines and this is the number of the next: at most 1,024, and none where no
// whole question is left.
fn lines_in(more: bool, room: usize, number: u64) -> usize
    ensures { LinesIn more room number result }
{
    if more {
        (room / 64).min(1024).min((u64::MAX - number) as usize)
    } else {
        0
    }
}

// Moves the bytes from one place up to another to the front of the buffer, and returns how many there are.
fn keep(buffer: &mut [u8], from: usize, end: usize) -> usize
    requires { (from ≤ end) × (end ≤ length buffer.old) }
    ensures { Puts buffer.old 0 (slice from end buffer.old) buffer.new result }
{
    buffer.copy_within(from..end, 0);
    end - from
}
