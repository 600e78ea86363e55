// Why a build is refused: by the book, or by its tables, causes 9 to 11.
ghost use Rattle.std.specs.Prelude.{◌≡◌};
ghost use Rattle.refusals.specs.declared.build.BuildRefusal.TheVariants.{Book};
ghost use Rattle.refusals.specs.BuildRefusals.{build_cause, build_value};

use crate::book::BookRefusal;
use crate::refusal::Refusal;

#[derive(Clone, Copy)]
pub enum BuildRefusal {
    // Causes 1 to 8.
    Book(BookRefusal),
    // More than 2,048 states.
    States,
    // More than 5,120 transitions.
    Transitions,
    // Heads or moves lent too short.
    Short,
}

impl From<BookRefusal> for BuildRefusal {
    ghost from_gives = { λ book refusal. refusal ≡ Book book };

    fn from(book: BookRefusal) -> BuildRefusal {
        BuildRefusal::Book(book)
    }
}

impl Refusal for BuildRefusal {
    ghost cause_of = { build_cause };

    ghost value_of = { build_value };

    fn cause(self) -> usize {
        match self {
            BuildRefusal::Book(book) => book.cause(),
            BuildRefusal::States => 9,
            BuildRefusal::Transitions => 10,
            BuildRefusal::Short => 11,
        }
    }

    fn value(self) -> usize {
        match self {
            BuildRefusal::Book(book) => book.value(),
            BuildRefusal::States => 0,
            BuildRefusal::Transitions => 0,
            BuildRefusal::Short => 0,
        }
    }
}
