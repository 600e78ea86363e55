// The order check: whether a book has a regular order, cause 8 of document 01, and the levels of its names.
#![tactic(auto)]

ghost use Rattle.std.specs.Prelude.{true, ◌∷◌, ◌≡◌, ◌≤◌, length};
ghost use Rattle.order.specs.Closure.{no_order};
ghost use Rattle.name_sets.specs.Mask.{Holds};
ghost use Rattle.base.specs.Result.{map_result};
ghost use Rattle.base.specs.Result.Result.{ok};
ghost use Rattle.book_format.specs.Format.{named};
ghost use Rattle.book_format.specs.Format.{read as read_of};
ghost use Rattle.book_causes.specs.Ordered.{ordered};
ghost use Rattle.book_decoder.specs.Verdict.{header_of, says};
ghost use Rattle.order_checker.specs.Gather.{Added, Ordered, GatheredOrder};

mod masks;

use book_cursor::Cursor;
use book_decoder::Header;
use masks::{absorb, reached};
use name_sets::has;
use order_levels::{Levels, levels_of};
use refusals::{BookRefusal, Check};
use rule_shapes::{Shape, shape_of};

// What the order check finds of a book that passes causes 1 to 8: its header, the level of each name and the highest of them. The levels of names
// that the book does not have are 0.
#[derive(Drop)]
pub struct Ordering {
    pub header: Header,
    pub levels: [u8; 64],
    pub depth: usize,
}

// Checks the order of a book: causes 1 to 8.
pub fn order(book: &[u8]) -> Result<Ordering, BookRefusal>
    ensures { Ordered book.now result }
{
    let header = book_reader::read(book)?;
    let mut masks = [0u64; 64];
    let masks = &mut masks[..header.names];
    gather(book, header, masks)?;
    let Levels { levels, depth } = levels_of(masks);
    Ok(Ordering {
        header,
        levels,
        depth,
    })
}

// Gathers the order that the rules force on the names: mask x holds the names lower than x, with a mask for each name of the book. Refused at the
// first rule that would put its right name below itself.
fn gather(book: &[u8], header: Header, masks: &mut [u64]) -> Result<Header, BookRefusal>
    requires book_value { map_result header_of (read_of book.now) ≡ ok header }
    requires masks_len { length masks.old ≡ header.names }
    requires holds { Holds masks.old no_order }
    ensures result_value { says result ≡ map_result header_of (ordered book.now) }
    ensures gathered_order { GatheredOrder book.now (says result) masks.new }
{
    let mut cursor = Cursor::first();
    for number in 0..header.rules {
        let Some((entry, next)) = cursor.step(book) else {
            return Ok(header); // not reached: the book is well-formed
        };
        let left = &book[entry.start..entry.start + entry.size];
        let Check::Passed = add_rule(left, entry.right, masks) else {
            return Err(BookRefusal::NoOrder(number));
        };
        cursor = next;
    }
    Ok(header)
}

// Adds what a rule forces: passed where the order goes on, failed where the rule would put its right name below itself.
fn add_rule(left: &[u8], right: u8, masks: &mut [u64]) -> Check
    requires left_value { named (length masks.old) (right ∷ left.now) ≡ true }
    requires masks_len_bound { length masks.old ≤ 64 }
    ensures { Added (record { left = left.entry.now; right = right }) masks.old result masks.new }
{
    let Shape::Row(row) = shape_of(left, right) else {
        return Check::Passed;
    };
    let inner = &left[row.start..row.start + row.size];
    let lower = reached(inner, masks);
    let over = role_bytes::name(right) as usize;
    if has(lower, over) {
        return Check::Failed;
    }
    let below = masks[over];
    if lower | below == below {
        return Check::Passed; // nothing new: what is below the right name is below all names above it
    }
    absorb(masks, over, lower);
    Check::Passed
}
