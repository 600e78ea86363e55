// Why a question put to a book is refused: by the book, by the question, or by what is lent with it, causes 15 to 17.
ghost use Rattle.std.specs.Prelude.{◌≡◌};
ghost use Rattle.refusals.specs.declared.book_query.BookQueryRefusal.TheVariants.{Book, Question};
ghost use Rattle.refusals.specs.BookQueryRefusals.{book_query_cause, book_query_value};

use crate::book::BookRefusal;
use crate::query::QueryRefusal;
use crate::refusal::Refusal;

#[derive(Clone, Copy)]
pub enum BookQueryRefusal {
    // Causes 1 to 8.
    Book(BookRefusal),
    // Causes 13 and 14.
    Question(QueryRefusal),
    // More than 16 links.
    Long,
    // A buffer lent too short.
    Buffer,
    // Written steps whose bytes are not in fours.
    Uneven,
    // An impossible step, by its number.
    Impossible(usize),
}

impl From<BookRefusal> for BookQueryRefusal {
    ghost from_gives = { λ book refusal. refusal ≡ Book book };

    fn from(book: BookRefusal) -> BookQueryRefusal {
        BookQueryRefusal::Book(book)
    }
}

impl From<QueryRefusal> for BookQueryRefusal {
    ghost from_gives = { λ question refusal. refusal ≡ Question question };

    fn from(question: QueryRefusal) -> BookQueryRefusal {
        BookQueryRefusal::Question(question)
    }
}

impl Refusal for BookQueryRefusal {
    ghost cause_of = { book_query_cause };

    ghost value_of = { book_query_value };

    fn cause(self) -> usize {
        match self {
            BookQueryRefusal::Book(book) => book.cause(),
            BookQueryRefusal::Question(question) => question.cause(),
            BookQueryRefusal::Long => 15,
            BookQueryRefusal::Buffer => 16,
            BookQueryRefusal::Uneven => 17,
            BookQueryRefusal::Impossible(_) => 17,
        }
    }

    fn value(self) -> usize {
        match self {
            BookQueryRefusal::Book(book) => book.value(),
            BookQueryRefusal::Question(_) => 0,
            BookQueryRefusal::Long => 0,
            BookQueryRefusal::Buffer => 0,
            BookQueryRefusal::Uneven => 0,
            BookQueryRefusal::Impossible(step) => step,
        }
    }
}
