// Why a question about a book, put to its tables as soon as these are built, is refused: by the build or by the question.
ghost use Rattle.std.specs.Prelude.{◌≡◌};
ghost use Rattle.query_deriver.specs.declared.refusal.DerivedRefusal.TheVariants.{Book, Question};
ghost use Rattle.query_deriver.specs.DerivedRefusals.{derived_cause, derived_value};

use refusals::{BuildRefusal, QueryRefusal, Refusal};

#[derive(Clone, Copy)]
pub enum DerivedRefusal {
    // The book is refused, or the tables are lent too short: causes 1 to 11.
    Book(BuildRefusal),
    // Causes 13 and 14.
    Question(QueryRefusal),
}

impl From<BuildRefusal> for DerivedRefusal {
    ghost from_gives = { λ build refusal. refusal ≡ Book build };

    fn from(build: BuildRefusal) -> DerivedRefusal {
        DerivedRefusal::Book(build)
    }
}

impl From<QueryRefusal> for DerivedRefusal {
    ghost from_gives = { λ question refusal. refusal ≡ Question question };

    fn from(question: QueryRefusal) -> DerivedRefusal {
        DerivedRefusal::Question(question)
    }
}

impl Refusal for DerivedRefusal {
    ghost cause_of = { derived_cause };

    ghost value_of = { derived_value };

    fn cause(self) -> usize {
        match self {
            DerivedRefusal::Book(build) => build.cause(),
            DerivedRefusal::Question(question) => question.cause(),
        }
    }

    fn value(self) -> usize {
        match self {
            DerivedRefusal::Book(build) => build.value(),
            DerivedRefusal::Question(question) => question.value(),
        }
    }
}
