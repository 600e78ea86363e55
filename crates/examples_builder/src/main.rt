// Tries the builder on the hall book of document 01, on books without an order and on every edge of causes 9 to 11. Each line names the book
// and says what the builder answers; `stdout` holds what it must write.
#![tactic(auto)]

mod outcomes;
mod tower;

use byte_parts::part;
use outcomes::{built, line, numbers};
use tower::tower;

// A title, or after its text how many heads and moves are lent, 255 for 15,360 moves, and the book: its bytes, or T for a tower with its numbers of
// names, rules, links and, in two bytes, bytes.
fn main() {
    try_lines(
        b"The hall book;\
          hall=\x06\x48RLB\x01\x00\x04\x03\x00\x00\x02\x00\x00\x02\x02\x00\x02\x06\x02\x02\x04;\
          Cause 8: no regular order;\
          R to R=\x06\x48RLB\x01\x00\x01\x01\x00\x00\x01\x00;\
          S to R, R to S=\x06\x48RLB\x01\x00\x02\x02\x00\x00\x01\x02\x02\x01\x00;\
          R S R to R=\x06\x48RLB\x01\x00\x02\x01\x00\x00\x03\x00\x02\x00;\
          R inv(R) to R=\x06\x48RLB\x01\x00\x01\x01\x00\x00\x02\x00\x01;\
          R S to S, R T to R, V T to T, V S to V=\x06\x48RLB\x01\x00\x04\x04\x00\x02\x02\x00\x02\x00\x02\x00\x04\x04\x02\x06\x04\x06\x02\x06\x02;\
          Each form, and inverses on the right;\
          no rule=\x06\x48RLB\x01\x00\x01\x00\x00;\
          S T to R=\x06\x48RLB\x01\x00\x03\x01\x00\x00\x02\x02\x04;\
          R S to R=\x06\x48RLB\x01\x00\x02\x01\x00\x00\x02\x00\x02;\
          S R to R=\x06\x48RLB\x01\x00\x02\x01\x00\x00\x02\x02\x00;\
          R R to R=\x06\x48RLB\x01\x00\x01\x01\x00\x00\x02\x00\x00;\
          inv(R) to R=\x06\x48RLB\x01\x00\x01\x01\x00\x00\x01\x01;\
          S T to inv(R)=\x06\x48RLB\x01\x00\x03\x01\x00\x01\x02\x02\x04;\
          inv(R) S to inv(R)=\x06\x48RLB\x01\x00\x02\x01\x00\x01\x02\x01\x02;\
          S inv(R) to inv(R)=\x06\x48RLB\x01\x00\x02\x01\x00\x01\x02\x02\x01;\
          inv(R) inv(R) to inv(R)=\x06\x48RLB\x01\x00\x01\x01\x00\x01\x02\x01\x01;\
          R to inv(R)=\x06\x48RLB\x01\x00\x01\x01\x00\x01\x01\x00;\
          symmetric and transitive, S to R=\x06\x48RLB\x01\x00\x02\x03\x00\x00\x01\x01\x00\x02\x00\x00\x00\x01\x02;\
          all forms on inv(R)=\x06\x48RLB\x01\x00\x02\x05\x00\x01\x01\x02\x01\x02\x01\x02\x01\x02\x02\x01\x01\x02\x01\x01\x01\x01\x00;\
          Cause 9: the number of states;\
          2,048 states=\x40\xFFT\x14\x08\x02\x00\x28;\
          2,050 states=\x40\xFFT\x15\x08\x02\x00\x28;\
          8 to the power 63 states and more=\x40\xFFT\x40\x3F\x08\x02\x7E;\
          Cause 11: tables lent too short;\
          heads one short=\x03\x36RLB\x01\x00\x04\x03\x00\x00\x02\x00\x00\x02\x02\x00\x02\x06\x02\x02\x04;\
          moves one short=\x04\x35RLB\x01\x00\x04\x03\x00\x00\x02\x00\x00\x02\x02\x00\x02\x06\x02\x02\x04;\
          just enough=\x04\x36RLB\x01\x00\x04\x03\x00\x00\x02\x00\x00\x02\x02\x00\x02\x06\x02\x02\x04;\
          The first refusal met;\
          R to R, no table lent=\x00\x00RLB\x01\x00\x01\x01\x00\x00\x01\x00;\
          2,050 states, no table lent=\x00\x00T\x15\x08\x02\x00\x28;\
          2,048 states, no table lent=\x00\x00T\x14\x08\x02\x00\x28;\
          no byte, no table lent=\x00\x00",
    );
}

fn try_lines(lines: &[u8]) {
    for line in lines.split(|byte| *byte == b';') {
        try_line(line);
    }
}

fn try_line(s: &[u8]) {
    let middle = s.iter().position(|byte| *byte == b'=').unwrap_or(s.len());
    let text = &s[..middle];
    match &s[middle..] {
        [b'=', heads, moves, b'T', names, rules, size, high, low] => {
            let bytes = u16::from_be_bytes([*high, *low]);
            let book = tower(*names, *rules, *size);
            try_book(text, *heads, *moves, part(&book, 0, usize::from(bytes)));
        }
        [b'=', heads, moves, book @ ..] => try_book(text, *heads, *moves, book),
        _ => line(text),
    }
}

// What is built of a book in lent tables, and what they hold after it, but for 15,360 moves.
fn try_book(text: &[u8], names: u8, transitions: u8, book: &[u8]) {
    let mut heads = [9999u16; 64];
    let mut moves = [9999u16; 15360];
    let heads = &mut heads[..usize::from(names).min(64)];
    if transitions == 255 {
        built(text, book, heads, &mut moves);
        numbers(b"heads", heads);
        return;
    }
    let moves = &mut moves[..usize::from(transitions)];
    built(text, book, heads, moves);
    numbers(b"heads", heads);
    numbers(b"moves", moves);
}
