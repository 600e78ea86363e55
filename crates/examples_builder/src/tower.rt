// Towers: rule i makes `size` links of name i into one of name i + 1.
use book_writer::{put_header, put_rule};
use byte_parts::part;

// The bytes of a tower of at most 63 rules; `size` is at most 8.
pub(crate) fn tower(names: u8, rules: u8, size: u8) -> [u8; 1024] {
    let mut book = [0u8; 1024];
    let mut at = 8;
    for i in 0..rules.min(63) {
        let below = 2 * i;
        at = put_rule(
            &mut book,
            at,
            below + 2,
            part(&[below; 8], 0, usize::from(size)),
        );
    }
    put_header(&mut book, names, u16::from(rules));
    book
}
