// Tries what the program runs: on a missing, an overlong and a refused book; on blocks whose border falls at every place, and input that ends at every
// place; on chains that bind and are not derived; and, last, on standard input, which holds the longest question, chains on either side of 16 links and
// of 1,024, and refused chains that are read past. `stdout` holds what it must write.
#![tactic(auto)]

mod blocks;

use blocks::try_blocks;
use program::Stop;

const STDOUT: i32 = 1;

const HALL: [u8; 20] = *b"RLB\x01\0\x04\x03\0\0\x02\0\0\x02\x02\0\x02\x06\x02\x02\x04";

// Five questions about the hall book.
const QUESTIONS: [u8; 26] =
    *b"\x06\x04\0\0\0\x02\x04\x06\x03\0\x02\0\x04\x07\x03\0\x05\x03\x01\x06\0\0\x06\x01\0\x08";

// serves, inv(serves), serves to covers.
const SERVES: [u8; 13] = *b"RLB\x01\0\x02\x01\0\x02\x03\0\x01\0";

// serves binds covers, though it is not derived from it, and so with both inverse; covers does not bind serves, nor serves serves covers.
const BINDING: [u8; 17] = *b"\x02\x01\0\0\x03\x01\0\x01\0\x01\0\x02\x02\x02\0\0\0";

fn main(rt: HostRuntime) {
    try_book(&rt, b"missing file: ", b"missing.rlb");
    try_book(&rt, b"overlong file: ", b"overlong.rlb");
    try_book(&rt, b"no order: ", b"cycle.rlb");
    try_places();
    try_binding();
    try_book(&rt, b"standard input: ", b"hall.rlb");
}

// Runs the program on a file, and says why it stopped.
fn try_book(rt: &HostRuntime, text: &[u8], path: &[u8]) {
    say(text);
    match program::run(rt, path) {
        Stop::Refused => say(b"stopped, refused\n"),
        Stop::Ended => say(b"stopped, ended\n"),
        Stop::Unwritten => say(b"stopped, unwritten\n"),
        Stop::Exhausted => say(b"stopped, exhausted\n"),
    }
}

fn say(text: &[u8]) {
    io::write_all(STDOUT, text);
}

// For every place of the questions: input that ends there, and two blocks whose border falls there.
fn try_places() {
    for place in 0..=26 {
        try_place(
            b"ends after ",
            place,
            &QUESTIONS[..place / 2],
            &QUESTIONS[place / 2..place],
        );
        try_place(
            b"border at ",
            place,
            &QUESTIONS[..place],
            &QUESTIONS[place..],
        );
    }
}

// Says which place is tried, and tries questions in two blocks.
fn try_place(text: &[u8], place: usize, first: &[u8], second: &[u8]) {
    say(text);
    io::print_decimal(STDOUT, place as u64);
    say(b": ");
    try_blocks(&HALL, first, second);
}

// What binds without being derived.
fn try_binding() {
    say(b"out and back: ");
    try_blocks(&SERVES, &BINDING[..8], &BINDING[8..]);
}
