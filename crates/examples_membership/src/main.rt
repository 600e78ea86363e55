// Tries the answerer on document 01's questions, on tables that no book gave and on every edge of causes 12 to 14; then compares it with a
// second method, which decides derivation from the rules alone, and shows differences that it must find. Tries the writer and the checker of
// derivations on every edge of their causes, the writer beside the answerer, and the checker beside a second reading.
// `stdin` holds what is tried, a line each; `stdout` holds what the program must write.
#![tactic(auto)]

mod chain;
mod compare;
mod counts;
mod damage;
mod derivations;
mod draw;
mod lent_tables;
mod make;
mod questions;
mod rules;
mod script;
mod script_derivations;
mod script_numbers;
mod second;
mod slow_reading;
mod trial;
mod written;

use script::try_line;

fn main() {
    let mut space = io::large_buffer();
    let size = io::read_full(0, &mut space);
    try_lines(&space[..size]);
}

// Tries up to a thousand lines.
fn try_lines(script: &[u8]) {
    for line in script.split(|byte| *byte == b'\n').take(1000) {
        try_line(line);
    }
}
