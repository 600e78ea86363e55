// Which rules a byte string holds, or the first cause of document 01, 1 to 6, that refuses it, in one pass over the bytes.
#![tactic(auto)]

ghost use Rattle.std.specs.Prelude.{[], ◌∷◌, ◌≡◌, ◌+◌, ◌<◌, ◌≤◌, leb, length, drop};
ghost use Rattle.std.specs.Prelude.{nat_lt};
ghost use Rattle.std.specs.List.{list_all};
ghost use Rattle.base.specs.Result.{map_result};
ghost use Rattle.book_format.specs.Format.{rules_from, named};
ghost use Rattle.book_format.specs.Format.{decode as decode_of};
ghost use Rattle.book_decoder.specs.Verdict.{header_of, says};
ghost use Rattle.book_cursor.specs.Cursor.{entry_rule};
ghost use Rattle.refusals.specs.Check.{check};

use book_cursor::{Cursor, Entry};
pub use book_header::Header;
use book_header::{marked, ranged, sized, versioned};
use refusals::{BookRefusal, Check};

// Causes 1 to 6, in one pass.
pub fn decode(book: &[u8]) -> Result<Header, BookRefusal>
    ensures { says result ≡ map_result header_of (decode_of book.now) }
{
    let Check::Passed = sized(book, 2568) else {
        return Err(BookRefusal::Size);
    };
    let Check::Passed = marked(book) else {
        return Err(BookRefusal::Mark);
    };
    let Check::Passed = versioned(book, 1) else {
        return Err(BookRefusal::Version);
    };
    let header = book_header::declared(book);
    let Check::Passed = ranged(header) else {
        return Err(BookRefusal::Range);
    };
    decode_rules(book, header)
}

// Causes 5 and 6, rule by rule, then the bytes after the last rule.
fn decode_rules(book: &[u8], header: Header) -> Result<Header, BookRefusal>
    requires { header.names ≤ 64 }
    ensures { says result ≡ map_result header_of (rules_from header.names [] header.rules (drop 8 book.now)) }
{
    let mut cursor = Cursor::first();
    for number in 0..header.rules {
        let Some((entry, next)) = cursor.step(book) else {
            return Err(BookRefusal::Malformed(number));
        };
        let Check::Passed = declared(book, entry, header.names) else {
            return Err(BookRefusal::Undeclared(number));
        };
        cursor = next;
    }
    let Check::Passed = ended(book, cursor) else {
        return Err(BookRefusal::Malformed(header.rules));
    };
    Ok(header)
}

// Passed where the book declares the names of all of the rule's roles.
fn declared(book: &[u8], rule: Entry, names: usize) -> Check
    requires names_bound { names ≤ 64 }
    requires size_in_bounds { rule.start + rule.size ≤ length book.now }
    ensures { result ≡ check (named names (rule.right ∷ (entry_rule book.now rule).left)) }
{
    if 2 * names <= rule.right as usize {
        return Check::Failed;
    }
    let left = &book[rule.start..rule.start + rule.size];
    Check::from(all_below(left, 2 * names))
}

// Passed where no bytes stand after the last rule, which ends at the cursor.
fn ended(book: &[u8], cursor: Cursor) -> Check
    ensures { result ≡ check (leb (length book.now) cursor.at) }
{
    Check::from(book.len() <= cursor.at)
}

// Whether all of some bytes are below a number.
fn all_below(bytes: &[u8], end: usize) -> bool
    ensures { result ≡ list_all (λ byte. nat_lt byte end) bytes.now }
{
    bytes.iter().all(|byte| (*byte as usize) < end)
}
