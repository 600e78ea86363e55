// Answers questions put to tables by trails to and fro along the chain: whether hops lead from the initial state of a name to its final one, or the first
// cause, 12 to 15, that refuses the question.
#![tactic(auto)]

mod hops;
mod pairs;
mod reaching;
mod small_tables;
mod trail_batch;
mod trail_index;

pub use query_answerer::Batch;
pub use trail_batch::bind_all;
