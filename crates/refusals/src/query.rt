// Why a question put to tables is refused, causes 12 to 14. The value beside each of them is 0.
ghost use Rattle.refusals.specs.QueryRefusals.{query_cause, query_value};

use crate::refusal::Refusal;

#[derive(Clone, Copy)]
pub enum QueryRefusal {
    // Heads or moves that are no tables: too few or too many, or a number out of range.
    Tables,
    // An empty chain, or one of more than 1,024 links.
    Chain,
    // The role, or a link of the chain, has a name that the tables do not know.
    Role,
}

impl Refusal for QueryRefusal {
    ghost cause_of = { query_cause };

    ghost value_of = { query_value };

    fn cause(self) -> usize {
        match self {
            QueryRefusal::Tables => 12,
            QueryRefusal::Chain => 13,
            QueryRefusal::Role => 14,
        }
    }

    fn value(self) -> usize {
        0
    }
}
