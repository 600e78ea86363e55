// Tries the book reader on the hall book of document 01 and on every edge of causes 1 to 7. Each line names the bytes and
// says what the reader answers; `stdout` holds what it must write.
#![tactic(auto)]

mod books;
mod verdicts;

use books::{HALL, edited, front, grid, pile};
use verdicts::{label, left, line, verdict, verdicts};

fn main() {
    line(b"The hall book");
    hall_book();
    line(b"Cause 1: the number of bytes");
    sizes();
    line(b"Causes 2, 3 and 4: the header");
    marks();
    versions();
    counts();
    line(b"Cause 5: the form of each rule");
    cuts();
    lengths();
    trailing();
    line(b"Cause 6: declared names");
    roles();
    line(b"Cause 7: repeated rules");
    repeats();
    mirrors();
    line(b"The first refusal met");
    header_first();
    rule_by_rule();
}

fn hall_book() {
    verdict(b"hall", &HALL);
    for rule in 0..4 {
        left(b"left side of rule", rule, &HALL);
    }
}

fn sizes() {
    grid_of(b"no byte", 64, 0, 8, 0);
    grid_of(b"7 bytes", 64, 0, 8, 7);
    grid_of(b"8 bytes, no rule", 64, 0, 8, 8);
    grid_of(b"2,568 bytes, 256 rules of length 8", 64, 256, 8, 2568);
    grid_of(b"2,569 bytes", 64, 256, 8, 2569);
}

fn marks() {
    verdict(b"mark, byte 0", &edited(HALL, 0, 0x53));
    verdict(b"mark, byte 1", &edited(HALL, 1, 0x4D));
    verdict(b"mark, byte 2", &edited(HALL, 2, 0x43));
}

fn versions() {
    verdict(b"version 0", &edited(HALL, 3, 0));
    verdict(b"version 2", &edited(HALL, 3, 2));
    verdict(b"version 257", &edited(HALL, 4, 1));
}

fn counts() {
    grid_of(b"0 names, no rule", 0, 0, 1, 8);
    grid_of(b"1 name, no rule", 1, 0, 1, 8);
    grid_of(b"64 names, no rule", 64, 0, 1, 8);
    grid_of(b"65 names, no rule", 65, 0, 1, 8);
    grid_of(b"256 rules", 64, 256, 1, 776);
    grid_of(b"257 rules", 64, 257, 1, 779);
}

// What the reader answers for a grid of rules, cut to a number of bytes.
fn grid_of(text: &[u8], names: u8, rules: u16, size: usize, bytes: usize) {
    let mut space = [0u8; 2600];
    grid(&mut space, names, rules, size);
    verdict(text, front(&space, bytes));
}

fn lengths() {
    verdict(b"rule 0 of length 0", &edited(HALL, 9, 0));
    verdict(b"rule 1 of length 0", &edited(HALL, 13, 0));
    grid_of(b"length 8", 64, 1, 8, 18);
    grid_of(b"length 9", 64, 1, 9, 19);
}

fn trailing() {
    verdict(b"bytes after the last rule, count 2", &edited(HALL, 6, 2));
    verdict(b"bytes after the last rule, count 0", &edited(HALL, 6, 0));
    verdict(b"a rule too few, count 4", &edited(HALL, 6, 4));
}

// The hall book cut short at each place.
fn cuts() {
    for n in 8..=20 {
        label(b"hall, bytes kept: ", n);
        verdict(b"", &HALL[..n]);
    }
}

fn roles() {
    verdict(b"right role 7 of 4 names", &edited(HALL, 8, 7));
    verdict(b"right role 8 of 4 names, rule 0", &edited(HALL, 8, 8));
    verdict(b"last left role 7 of 4 names", &edited(HALL, 19, 7));
    verdict(b"last left role 8 of 4 names, rule 2", &edited(HALL, 19, 8));
    verdict(b"left role 255, rule 1", &edited(HALL, 14, 255));
}

fn repeats() {
    // part part to part; part part to part; sits sits to sits.
    let same = b"RLB\x01\x00\x04\x03\x00\x00\x02\x00\x00\x00\x02\x00\x00\x02\x02\x02\x02";
    verdicts(b"rule 1 equals rule 0", same);
    // A B to C; C to D; inv(B) inv(A) to inv(C); C to D.
    let lowest = b"RLB\x01\x00\x04\x04\x00\x04\x02\x00\x02\x06\x01\x04\x05\x02\x03\x01\x06\x01\x04";
    verdicts(b"rule 2 mirrors rule 0, rule 3 equals rule 1", lowest);
    // B to D; B to A; B to D; B to A.
    let names = b"RLB\x01\x00\x04\x04\x00\x06\x01\x02\x00\x01\x02\x06\x01\x02\x00\x01\x02";
    verdicts(
        b"rule 2 of name 3 equals rule 0, rule 3 of name 0 equals rule 1",
        names,
    );
    pile_of(b"15 rules of one name, then another", 15, 41);
    pile_of(b"15 rules of one name, then a mirror", 15, 7);
    pile_of(b"40 rules of one name, then another", 40, 41);
    pile_of(b"40 rules of one name, then a mirror", 40, 7);
}

fn pile_of(text: &[u8], rules: u8, last: u8) {
    let mut space = [0u8; 400];
    pile(&mut space, rules, last);
    verdicts(text, front(&space, 11 + 3 * usize::from(rules)));
}

fn mirrors() {
    // inv(R) to R, then R to inv(R): each the other's inverse.
    let mirror = b"RLB\x01\x00\x01\x02\x00\x00\x01\x01\x01\x01\x00";
    verdicts(b"inv(R) to R, R to inv(R)", mirror);
    left(b"left side of rule", 0, mirror);
    left(b"left side of rule", 1, mirror);
    // A B to C; inv(A) inv(B) to inv(C): the order of the links is not reversed, so it is no mirror.
    let unturned = b"RLB\x01\x00\x04\x02\x00\x04\x02\x00\x02\x05\x02\x01\x03";
    verdicts(b"inverse links in the same order", unturned);
}

// Two causes at once, or a later cause in an earlier rule: the first in document 01's order is the answer.
fn header_first() {
    verdict(
        b"wrong mark and version 2",
        &edited(edited(HALL, 0, 0), 3, 2),
    );
    verdict(b"version 2 and 0 names", &edited(edited(HALL, 3, 2), 5, 0));
    verdict(
        b"0 names and a malformed rule 0",
        &edited(edited(HALL, 5, 0), 9, 0),
    );
}

fn rule_by_rule() {
    verdict(
        b"rule 0 malformed and undeclared",
        &edited(edited(HALL, 8, 99), 9, 9),
    );
    verdict(
        b"rule 0 undeclared, rule 1 malformed",
        &edited(edited(HALL, 8, 99), 13, 0),
    );
    verdict(
        b"rule 1 undeclared, bytes after it",
        &edited(edited(HALL, 12, 99), 6, 2),
    );
    let both = b"RLB\x01\x00\x01\x02\x00\x00\x01\x01\x00\x01\x01\x00";
    verdict(b"rule 1 repeats rule 0, a byte after it", both);
    left(
        b"left side of an undeclared book's rule",
        0,
        &edited(HALL, 19, 8),
    );
}
