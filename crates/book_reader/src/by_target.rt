// Cause 7 of document 01, relation by relation: only rules whose right roles share a name are compared. The rules of each name are in a list,
// since the remainder of a rule's key by 64 is the name of its right role.
ghost use Rattle.refusals.specs.Check.{check};
ghost use Rattle.std.specs.Prelude.{not, ltb, ◌≡◌, ◌≤◌};
ghost use Rattle.base.specs.Result.{map_result};
ghost use Rattle.base.specs.Result.Result.{ok};
ghost use Rattle.book_format.specs.Format.{decode as decode_of, read as read_of};
ghost use Rattle.book_decoder.specs.Verdict.{header_of};
ghost use Rattle.book_reader.specs.Judged.{judged};
ghost use Rattle.book_reader.specs.Entered.{Entered};
ghost use Rattle.book_reader.specs.Lowest.{Lowest, Sized};

use crate::key_lists::enter;
use crate::keyed_rule::keyed_rule;
use crate::relation::narrowed;
use book_cursor::Cursor;
use book_decoder::Header;
use refusals::{BookRefusal, Check};
use role_bytes::name;

// Refuses a book, of those that pass causes 1 to 6, by the lowest rule that repeats one before it.
pub(crate) fn distinct(book: &[u8], header: Header) -> Result<(), BookRefusal>
    requires { map_result header_of (decode_of book.now) ≡ ok header }
    ensures { judged header result ≡ map_result header_of (read_of book.now) }
{
    let mut keys = [0u64; 256];
    let mut targets = [0u16; 320];
    let mut sizes = [0u16; 64];
    let mut cursor = Cursor::first();
    for rule in 0..header.rules {
        let keyed = keyed_rule(book, cursor);
        let right = keyed.right;
        let target = name(right) as usize;
        enter(&mut keys, &mut targets, 64, target, keyed.key, rule);
        sizes[target] += 1;
        cursor = keyed.next;
    }
    let lowest = over_names(&keys, &targets, &sizes, header);
    let Check::Passed = no_rule(header, lowest) else {
        return Err(BookRefusal::Repeated(lowest));
    };
    Ok(())
}

// Passed where the number is that of no rule.
fn no_rule(header: Header, number: usize) -> Check
    ensures { result ≡ check (not (ltb number header.rules)) }
{
    Check::from(header.rules <= number)
}

// The lowest rule that repeats one before it, or the number of rules where none does, from the keys in lists by name: the least over all relations.
fn over_names(keys: &[u64], targets: &[u16], sizes: &[u16], header: Header) -> usize
    requires entered { Entered 64 keys.now targets.now header.rules }
    requires names_bound { header.names ≤ 64 }
    requires sized { Sized sizes.now header.rules }
    ensures { Lowest keys.now header.names header.rules result }
{
    let mut lowest = header.rules;
    for name in 0..header.names {
        let own = narrowed(keys, targets, name, sizes[name], header.rules);
        lowest = lowest.min(own);
    }
    lowest
}
