// Why a book is refused by causes 1 to 8, which every call that takes a book judges first.
ghost use Rattle.refusals.specs.BookRefusals.{book_cause, book_value};

use crate::refusal::Refusal;

#[derive(Clone, Copy)]
pub enum BookRefusal {
    // Fewer than 8 bytes or more than 2,568.
    Size,
    // The mark is not RLB.
    Mark,
    // The version is not 1.
    Version,
    // Names or rule count out of range.
    Range,
    // A rule of length 0 or over 8 or cut short, by its number; or bytes after the last rule, by the rule count.
    Malformed(usize),
    // A role whose name the book does not declare, by the number of its rule.
    Undeclared(usize),
    // A rule that equals an earlier rule or the inverse of one, by its number.
    Repeated(usize),
    // No regular order, by the last rule of the shortest front part without one.
    NoOrder(usize),
}

impl Refusal for BookRefusal {
    ghost cause_of = { book_cause };

    ghost value_of = { book_value };

    fn cause(self) -> usize {
        match self {
            BookRefusal::Size => 1,
            BookRefusal::Mark => 2,
            BookRefusal::Version => 3,
            BookRefusal::Range => 4,
            BookRefusal::Malformed(_) => 5,
            BookRefusal::Undeclared(_) => 6,
            BookRefusal::Repeated(_) => 7,
            BookRefusal::NoOrder(_) => 8,
        }
    }

    fn value(self) -> usize {
        match self {
            BookRefusal::Size => 0,
            BookRefusal::Mark => 0,
            BookRefusal::Version => 0,
            BookRefusal::Range => 0,
            BookRefusal::Malformed(rule) => rule,
            BookRefusal::Undeclared(rule) => rule,
            BookRefusal::Repeated(rule) => rule,
            BookRefusal::NoOrder(rule) => rule,
        }
    }
}
