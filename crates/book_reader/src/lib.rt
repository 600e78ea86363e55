// Reads a book of rules: which book a byte string is, or the first cause of document 01, 1 to 7, that refuses it.
#![tactic(auto)]

ghost use Rattle.std.specs.Prelude.{◌≡◌};
ghost use Rattle.base.specs.Result.{map_result};
ghost use Rattle.book_format.specs.Format.{read as read_of};
ghost use Rattle.book_decoder.specs.Verdict.{header_of, says};

mod by_rule;
mod by_target;
mod key_lists;
mod keyed_rule;
mod relation;

use book_decoder::{Header, decode};
use refusals::BookRefusal;

// Reads the whole book: causes 1 to 7. Repeats are looked for relation by relation.
pub fn read(book: &[u8]) -> Result<Header, BookRefusal>
    ensures { says result ≡ map_result header_of (read_of book.now) }
{
    let header = decode(book)?;
    by_target::distinct(book, header)?;
    Ok(header)
}

// The same, where repeats are looked for rule by rule: the search that benchmarks hold beside the other.
pub fn read_by_rule(book: &[u8]) -> Result<Header, BookRefusal>
    ensures { says result ≡ map_result header_of (read_of book.now) }
{
    let header = decode(book)?;
    by_rule::distinct(book, header)?;
    Ok(header)
}
