// What the program does: reads a book's file (a missing one counts as empty) and then questions from standard input, and writes the book's first line
// and a line for each question. What it says is decided by `transcript_writer`; here are opening, reading, writing and the loop.
#![tactic(auto)]

ghost use Rattle.std.specs.Prelude.{◌⊎◌, ◌≡◌, ◌<◌, ◌≤◌, length, take};
ghost use Rattle.io.specs.Counts.{IsPrefixLen};
ghost use Rattle.query_causes.specs.Input.{is_whole};
ghost use Rattle.query_correctness.specs.TrailQuery.{AnsweredByTrails};
ghost use Rattle.transcript_writer.specs.Opened.{heads_in, moves_in};
ghost use Rattle.program.specs.Ran.{Ran, Served, Reads, Ends};

use std::fs::File;
use std::io::Read;
use std::rt::Files;
use transcript_writer::Tables;

const LONGEST: usize = 65538;

// Why the program stops.
#[derive(Clone, Copy)]
pub enum Stop {
    // The book is refused, and its line is written.
    Refused,
    // The input has ended, and every line is written.
    Ended,
    // A line cannot be written.
    Unwritten,
    // 2^64 - 1 bytes are read and questions answered.
    Exhausted,
}

// Reads the book of that name and answers the questions about it. No promise can say what system calls read and write; this one says that what was read
// as a book was refused or accepted, and that the blocks of input that were read were answered as documents 01 and 02 lay down.
pub fn run<R: Files + Input + Print>(rt: &R, path: &[u8]) -> Stop
    ensures { Ran result }
{
    // Longer than any book, so that a file that is too long is seen to be.
    let mut book = [0u8; 4096];
    let mut line = [0u8; 72];
    let size = read_book(rt, path, &mut book);
    let opening = transcript_writer::open(&book[..size], &mut line);
    if rt.write_all(&line[..opening.written]).is_err() {
        return Stop::Unwritten;
    }
    match opening.tables {
        Some(tables) => serve(rt, tables),
        None => Stop::Refused,
    }
}

// Reads the book's file to the front of the buffer; answers its length, or 0 where it cannot be opened, as where its name is no text. No book fills the
// buffer, so one that does is seen to be too long.
fn read_book<R: Files>(rt: &R, path: &[u8], book: &mut [u8]) -> usize
    requires { 2568 < length book.old }
    ensures prefix_len { IsPrefixLen result book.new }
    ensures upper_bound { result ≤ 2568 → result < length book.new }
{
    let Ok(name) = str::from_utf8(path) else {
        return 0;
    };
    let Ok(mut file) = File::open(rt, name) else {
        return 0;
    };
    read_full(&mut file, book)
}

// Reads to the front of a buffer until it is full or nothing more is read; answers how many bytes.
fn read_full<R: Read>(reader: &mut R, buffer: &mut [u8]) -> usize
    ensures { IsPrefixLen result buffer.new }
{
    let mut done = 0;
    while done < buffer.len() {
        let got = read_once(reader, &mut buffer[done..]);
        if got == 0 {
            break;
        }
        done += got;
    }
    done
}

// Answers questions until the input ends. A proved loop has to end, so this one has a number of turns that no run uses up.
fn serve<R: Input + Print>(rt: &R, tables: Tables) -> Stop
    ensures { Served (AnsweredByTrails (heads_in tables) (moves_in tables)) result }
{
    let mut reader = rt.reader();
    let mut input = question_buffer();
    let mut out = [0u8; 65536];
    let mut number = 0u64;
    let mut kept = 0;
    let mut left = false;
    for _ in 0..u64::MAX {
        if number >= u64::MAX {
            break;
        }
        let end = read_more(&mut reader, &mut input, kept, left);
        if ended(kept, end, left) {
            return finish(rt, number, kept, &input);
        }
        let progress = transcript_writer::answer_block(tables, number, &mut input, end, &mut out);
        number = progress.number;
        kept = progress.kept;
        left = progress.left;
        let written = progress.written;
        if rt.write_all(&out[..written]).is_err() {
            return Stop::Unwritten;
        }
    }
    Stop::Exhausted
}

// Room for the longest question, of 65,535 links, so that what is kept of one leaves room to read.
fn question_buffer() -> [u8; LONGEST]
    ensures { 65538 ≡ length result }
{
    [0; LONGEST]
}

// Reads once, after the bytes that are kept, which stay; answers where the bytes in the buffer end. Where a whole question is left nothing is read, since
// whoever asked it may wait for its answer. What is no whole question leaves room to read.
fn read_more<R: Read>(reader: &mut R, input: &mut [u8], kept: usize, left: bool) -> usize
    requires { (65538 ≤ length input.old) × (kept ≤ length input.old) × (left ≡ is_whole (take kept input.old)) }
    ensures { Reads left kept input.old input.new result }
{
    if left {
        return kept;
    }
    kept + read_once(reader, &mut input[kept..])
}

// Whether the input has ended: no whole question was left, and nothing was read.
fn ended(kept: usize, end: usize, left: bool) -> bool
    ensures { Ends kept end left result }
{
    if left {
        return false;
    }
    end <= kept
}

// Reads once to the front of a buffer, as much as is there; answers how many bytes, or 0 where the input has ended or the read fails.
fn read_once<R: Read>(reader: &mut R, buffer: &mut [u8]) -> usize
    requires { 0 < length buffer.old }
    ensures { result ≤ length buffer.new }
{
    reader.read(buffer).unwrap_or(0)
}

// Writes the last line, of the bytes that are kept when the input has ended.
fn finish<R: Print>(rt: &R, number: u64, kept: usize, input: &[u8]) -> Stop
    requires { kept ≤ length input.now }
    ensures { (result ≡ Stop.Ended) ⊎ (result ≡ Stop.Unwritten) }
{
    let mut line = [0u8; 64];
    let size = transcript_writer::last_line(number, &input[..kept], &mut line);
    if rt.write_all(&line[..size]).is_err() {
        return Stop::Unwritten;
    }
    Stop::Ended
}
