// Cause 7 of document 01, rule by rule: each rule is looked for among all before it, by keys in lists by their remainders by 251.
ghost use Rattle.std.specs.Prelude.{◌≡◌};
ghost use Rattle.base.specs.Result.{map_result};
ghost use Rattle.base.specs.Result.Result.{ok};
ghost use Rattle.book_format.specs.Format.{decode as decode_of, read as read_of};
ghost use Rattle.book_decoder.specs.Verdict.{header_of};
ghost use Rattle.book_reader.specs.Judged.{judged};

use crate::key_lists::{enter, fresh};
use crate::keyed_rule::keyed_rule;
use book_cursor::Cursor;
use book_decoder::Header;
use refusals::{BookRefusal, Check};

// Refuses a book, of those that pass causes 1 to 6, by the lowest rule that repeats one before it.
pub(crate) fn distinct(book: &[u8], header: Header) -> Result<(), BookRefusal>
    requires { map_result header_of (decode_of book.now) ≡ ok header }
    ensures { judged header result ≡ map_result header_of (read_of book.now) }
{
    let mut keys = [0u64; 256];
    let mut index = [0u16; 507];
    let mut cursor = Cursor::first();
    for later in 0..header.rules {
        let keyed = keyed_rule(book, cursor);
        let own = keyed.key;
        let list = (own % 251) as usize;
        let last = index[list] as usize;
        let Check::Passed = fresh(&keys, &index, 251, last, own) else {
            return Err(BookRefusal::Repeated(later));
        };
        enter(&mut keys, &mut index, 251, list, own, later);
        cursor = keyed.next;
    }
    Ok(())
}
