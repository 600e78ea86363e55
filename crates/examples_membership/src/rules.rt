// The rules of a well-formed book of up to 8 rules over roles below 16, read from its bytes. A rule is a number of 4-bit digits like its bytes: the
// right role, then the left side as a chain.
use crate::chain::size;
use byte_parts::byte;

// The rules, each followed by its mirror, over and over.
pub(crate) fn rules_of(book: &[u8]) -> [u64; 192] {
    let mut rules = [0; 192];
    let mut at = 8;
    for i in 0..96 {
        let rule = rule_at(book, at);
        rules[i * 2] = rule;
        rules[i * 2 + 1] = mirror(rule);
        at = next_rule(book.len(), at, rule);
    }
    rules
}

// The place of the rule after the one at a place; after the last one that of the first.
fn next_rule(end: usize, at: usize, rule: u64) -> usize {
    let next = at.saturating_add(size(rule >> 4) + 2);
    if next < end { next } else { 8 }
}

fn rule_at(book: &[u8], at: usize) -> u64 {
    let bytes = book.get(at..).unwrap_or(&[]);
    let mut rule = 0;
    for i in 0..u64::from(byte(bytes, 1)) + 2 {
        rule |= u64::from(byte(bytes, i as usize)) << i % 16 * 4;
    }
    rule
}

// The rule with both sides read backwards and each role inverted.
fn mirror(rule: u64) -> u64 {
    let mut turned = 0;
    let mut links = rule >> 8;
    for _ in 0..rule >> 4 & 15 {
        turned = turned << 4 | links & 15 ^ 1;
        links >>= 4;
    }
    turned << 8 | rule & 255 ^ 1
}
