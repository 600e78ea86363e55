// Books to try the reader on.
use book_writer::{put_header, put_rule};

// The hall book of document 01: part part to part; part sits to sits; sits let to due.
pub(crate) const HALL: [u8; 20] = *b"RLB\x01\0\x04\x03\0\0\x02\0\0\x02\x02\0\x02\x06\x02\x02\x04";

// The book with one byte changed.
pub(crate) fn edited(mut book: [u8; 20], at: usize, byte: u8) -> [u8; 20] {
    if let Some(old) = book.get_mut(at) {
        *old = byte;
    }
    book
}

// The first n bytes; none where there are fewer.
pub(crate) fn front(s: &[u8], n: usize) -> &[u8] {
    s.get(..n).unwrap_or(&[])
}

// Writes a book with `rules` rules of name 63, rule i from role i alone, and one more for its inverse, from the role `last`.
pub(crate) fn pile(s: &mut [u8], rules: u8, last: u8) {
    let mut at = 8;
    for i in 0..rules {
        at = put_rule(s, at, 126, &[i]);
    }
    put_rule(s, at, 127, &[last]);
    put_header(s, 64, u16::from(rules) + 1);
}

// Writes a book with `rules` rules of length `size`, at most 9, no two alike: rule i has the right role 2 (i % 64) and the first left role 2 (i / 64).
pub(crate) fn grid(s: &mut [u8], names: u8, rules: u16, size: usize) {
    let mut at = 8;
    for i in 0..rules {
        let left = [(i / 64 * 2 % 256) as u8, 0, 0, 0, 0, 0, 0, 0, 0];
        at = put_rule(s, at, (i % 64 * 2) as u8, front(&left, size));
    }
    put_header(s, names, rules);
}
