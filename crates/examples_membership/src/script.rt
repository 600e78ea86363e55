// What a line of the script asks for. It begins with a letter; then come a text, a bar and lists of numbers, each with its length first.
use crate::compare::said;
use crate::counts::Counts;
use crate::derivations::try_derivations;
use crate::draw::Seed;
use crate::lent_tables::build;
use crate::script_derivations::{ask_checker, ask_short, ask_writer};
use crate::script_numbers::Numbers;
use crate::trial::{try_book, try_made};

pub(crate) fn try_line(line: &[u8]) {
    let bar = line
        .iter()
        .position(|byte| *byte == b'|')
        .unwrap_or(line.len());
    let (front, rest) = line.split_at(bar);
    let Some((letter, text)) = front.split_first() else {
        return;
    };
    io::write_all(1, text);
    let mut numbers = Numbers::new(rest.get(1..).unwrap_or(&[]));
    match *letter {
        b'a' => ask_tables(&mut numbers),
        b'e' => ask_every(&mut numbers),
        b's' => try_made(),
        b'w' => ask_writer(&mut numbers),
        b'b' => ask_short(&mut numbers),
        b'c' => ask_checker(&mut numbers),
        b'd' => try_derivations(),
        b'#' => {
            io::write_all(1, b"\n");
        }
        _ => {}
    }
}

// A question to tables: a book, heads and moves, the role and the chain. The book is built in the heads and moves, in more memory than the question is
// lent; where it is no book they stay as they are.
fn ask_tables(numbers: &mut Numbers) {
    let book = numbers.list();
    let mut heads = numbers.list();
    let mut moves = numbers.list();
    let _ = build(book.bytes(), &mut heads.numbers, &mut moves.numbers);
    let role = (numbers.number() % 256) as u8;
    let chain = numbers.list();
    let answer = query_answerer::ask(heads.numbers(), moves.numbers(), role, chain.bytes());
    tell_answer(said(answer));
}

// What a question is answered with, in document 01's words and numbers.
fn tell_answer(answer: Result<bool, usize>) {
    match answer {
        Ok(false) => {
            io::write_all(1, b": no\n");
        }
        Ok(true) => {
            io::write_all(1, b": yes\n");
        }
        Err(cause) => {
            io::write_all(1, b": refused ");
            io::print_decimal(1, cause as u64);
            io::write_all(1, b"\n");
        }
    }
}

// Every chain of up to some length, put to a book's tables and to a book's rules: both books, and how many questions there are.
fn ask_every(numbers: &mut Numbers) {
    let book = numbers.list();
    let ruled = numbers.list();
    let questions = numbers.number() as u64;
    let mut counts = Counts::new();
    try_book(
        book.bytes(),
        ruled.bytes(),
        &[],
        Some(questions),
        &mut Seed(0),
        &mut counts,
    );
    counts.tell(b": asked \x89, agreed \x8A, yes \x8B\n");
}
