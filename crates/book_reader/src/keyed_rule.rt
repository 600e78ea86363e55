// A rule of the book and its key.
ghost use Rattle.std.specs.Prelude.{true, ◌≡◌};
ghost use Rattle.book_format.specs.Place.{rule_at, whole_at};
ghost use Rattle.rule_keys.specs.Key.{Short};
ghost use Rattle.book_reader.specs.KeyedAt.{keyed_at};

use book_cursor::Cursor;
use rule_keys::key;

// The key and the right role of a rule, and the cursor past it.
#[derive(Clone, Copy)]
pub(crate) struct KeyedRule {
    pub(crate) key: u64,
    pub(crate) right: u8,
    pub(crate) next: Cursor,
}

// The rule at the cursor, which causes 1 to 6 have let pass.
pub(crate) fn keyed_rule(book: &[u8], cursor: Cursor) -> KeyedRule
    requires at_value { whole_at book.now cursor.at ≡ true }
    requires short { Short (rule_at book.now cursor.at) }
    ensures { result ≡ keyed_at book.now cursor.at }
{
    let Some((entry, next)) = cursor.step(book) else {
        return KeyedRule {
            key: 0,
            right: 0,
            next: cursor,
        }; // not reached: the rule is whole
    };
    let left = &book[entry.start..entry.start + entry.size];
    KeyedRule {
        key: key(left, entry.right),
        right: entry.right,
        next,
    }
}
