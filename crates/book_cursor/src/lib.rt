// A place in a book's bytes, by value, that hands out one rule after another.
#![tactic(auto)]

ghost use Rattle.std.specs.Prelude.{◌≡◌};
ghost use Rattle.book_cursor.specs.Cursor.{step_at};

#[derive(Clone, Copy)]
pub struct Cursor {
    pub at: usize,
}

// Where a rule lies: its right role, and the part of the book that holds its left roles.
#[derive(Clone, Copy)]
pub struct Entry {
    pub right: u8,
    pub start: usize,
    pub size: usize,
}

impl Cursor {
    // The place of rule 0.
    pub fn first() -> Self
        ensures { result.at ≡ 8 }
    {
        Cursor { at: 8 }
    }

    // The rule at this place, with the next cursor; none where its length is 0 or over 8, or it is cut short.
    pub fn step(self, book: &[u8]) -> Option<(Entry, Cursor)>
        ensures { result ≡ step_at book.now self.at }
    {
        let at = self.at;
        if book.len() < 2 {
            return None;
        }
        if book.len() - 2 < at {
            return None;
        }
        let size = book[at + 1] as usize;
        let start = at + 2;
        if size < 1 {
            return None;
        }
        if 8 < size {
            return None;
        }
        if book.len() - start < size {
            return None;
        }
        let entry = Entry {
            right: book[at],
            start,
            size,
        };
        Some((entry, Cursor { at: start + size }))
    }
}
