// What the program writes.
use refusals::{BuildRefusal, Refusal};
use table_builder::Counts;

pub(crate) fn line(text: &[u8]) {
    io::write_all(1, text);
    io::write_all(1, b"\n");
}

fn label(text: &[u8], n: usize) {
    io::write_all(1, text);
    io::print_decimal(1, n as u64);
}

// What the builder answers for the book in lent tables, in document 01's numbers.
pub(crate) fn built(text: &[u8], book: &[u8], heads: &mut [u16], moves: &mut [u16]) {
    io::write_all(1, text);
    outcome(table_builder::build(book, heads, moves));
    line(b"");
}

fn outcome(outcome: Result<Counts, BuildRefusal>) {
    match outcome {
        Ok(counts) => {
            label(b": states ", counts.states);
            label(b", transitions ", counts.transitions);
            label(b", depth ", counts.depth);
        }
        Err(refusal) => {
            label(b": refused ", refusal.cause());
            label(b" ", refusal.value());
        }
    }
}

// The numbers of a table; nothing where it is empty.
pub(crate) fn numbers(text: &[u8], table: &[u16]) {
    if table.is_empty() {
        return;
    }
    io::write_all(1, text);
    io::write_all(1, b":");
    for number in table {
        label(b" ", usize::from(*number));
    }
    line(b"");
}
