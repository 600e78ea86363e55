// Writes what the program says: the first line of a book, and a line for each question. The input may come in any blocks: what is left of one goes
// before the next.
#![tactic(auto)]

mod block;
mod opening;

pub use block::{Progress, answer_block};
pub use line_writer::last_line;
pub use opening::{Opening, Tables, open};
