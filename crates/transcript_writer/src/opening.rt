// Opens a book: its tables and its first line.
ghost use Rattle.std.specs.Prelude.{replicate};
ghost use Rattle.transcript_writer.specs.Opened.{Opens};

use line_writer::build_line;
use table_builder::build;

// The tables of a book as one build has written them, with how many of their numbers count.
#[derive(Clone, Copy)]
pub struct Tables {
    pub heads: [u16; 64],
    pub moves: [u16; 15360],
    pub names: usize,
    pub transitions: usize,
}

// How many bytes the first line has, and the tables of the book, where it is accepted.
#[derive(Clone, Copy)]
pub struct Opening {
    pub written: usize,
    pub tables: Option<Tables>,
}

// Builds the tables of a book and puts its first line at the front of the buffer.
pub fn open(book: &[u8], line: &mut [u8; 72]) -> Opening
    ensures { Opens book.now (replicate 64 0) (replicate 15360 0) line.old line.new result }
{
    let mut heads = [0u16; 64];
    let mut moves = [0u16; 15360];
    let built = build(book, &mut heads, &mut moves);
    let written = build_line(built, line);
    let tables = built.ok().map(|counts| Tables {
        heads,
        moves,
        names: counts.names,
        transitions: counts.transitions,
    });
    Opening { written, tables }
}
