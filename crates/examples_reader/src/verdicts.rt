// What the program writes.
use book_decoder::Header;
use refusals::{BookRefusal, Refusal};

pub(crate) fn line(text: &[u8]) {
    io::write_all(1, text);
    io::write_all(1, b"\n");
}

pub(crate) fn label(text: &[u8], n: usize) {
    io::write_all(1, text);
    io::print_decimal(1, n as u64);
}

// What the reader answers for the book, in document 01's numbers.
pub(crate) fn verdict(text: &[u8], bytes: &[u8]) {
    io::write_all(1, text);
    said(book_reader::read(bytes));
    io::write_all(1, b"\n");
}

// The same with each search for repeats.
pub(crate) fn verdicts(text: &[u8], bytes: &[u8]) {
    io::write_all(1, text);
    said(book_reader::read(bytes));
    io::write_all(1, b"; rule by rule");
    said(book_reader::read_by_rule(bytes));
    io::write_all(1, b"\n");
}

fn said(verdict: Result<Header, BookRefusal>) {
    match verdict {
        Ok(header) => {
            label(b": well-formed, names ", header.names);
            label(b", rules ", header.rules);
        }
        Err(refusal) => {
            label(b": refused ", refusal.cause());
            label(b" ", refusal.value());
        }
    }
}

// The left side of a rule, as the reader hands it out.
pub(crate) fn left(text: &[u8], rule: usize, bytes: &[u8]) {
    io::write_all(1, text);
    label(b" ", rule);
    io::write_all(1, b":");
    for role in book_left_sides::left_side(bytes, rule) {
        label(b" ", usize::from(*role));
    }
    io::write_all(1, b"\n");
}
