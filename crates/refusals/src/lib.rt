// Why a call refuses what it is given, an enum for each kind of call, with document 01's number and value; and what a check finds.
#![tactic(auto)]

mod book;
mod book_query;
mod build;
mod check;
mod query;
mod refusal;

pub use book::BookRefusal;
pub use book_query::BookQueryRefusal;
pub use build::BuildRefusal;
pub use check::Check;
pub use query::QueryRefusal;
pub use refusal::Refusal;
