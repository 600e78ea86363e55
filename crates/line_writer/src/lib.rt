// Writes the lines of the program into lent bytes: the first line of a book, the lines of answered questions, and the last line.
#![tactic(auto)]

mod line;
mod question;
mod text;

pub use line::{answer_lines, build_line, first_line, last_line};
pub use question::is_whole;
