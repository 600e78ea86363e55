// The left sides of a book's rules, as parts of its bytes.
#![tactic(auto)]

ghost use Rattle.std.specs.Prelude.{true, ◌≡◌};
ghost use Rattle.book_format.specs.Format.{decode as decode_of};
ghost use Rattle.book_format.specs.Place.{rule_place, has_rule, left_part};
ghost use Rattle.book_format.specs.Place.{left_side as left_side_of};

use book_cursor::Cursor;
use book_decoder::decode;

// The left side of a rule, as that part of the book; the empty part where the book is refused by causes 1 to 6 or has no such rule.
pub fn left_side(book: &[u8], rule: usize) -> &[u8]
    ensures part { result.now ≡ left_part book.now rule }
    ensures left { result.now ≡ left_side_of (decode_of book.now) rule }
{
    let Ok(header) = decode(book) else {
        return &book[..0];
    };
    if header.rules <= rule {
        return &book[..0];
    }
    let Some((entry, _)) = seek(book, rule).step(book) else {
        return &book[..0];
    };
    &book[entry.start..entry.start + entry.size]
}

// The cursor at rule `rule`.
fn seek(book: &[u8], rule: usize) -> Cursor
    requires { has_rule (decode_of book.now) rule ≡ true }
    ensures { result.at ≡ rule_place book.now rule }
{
    let mut cursor = Cursor::first();
    for _ in 0..rule {
        let Some((_, next)) = cursor.step(book) else {
            return cursor;
        };
        cursor = next;
    }
    cursor
}
