// An index of a book's rules by right name, 3,904 numbers: 14 for each rule, which say its right role, its shape and the next rule of the same
// right name, then the first rule of each name, then the level of each name, counted from 0, then for each of the three kinds of rules which
// names have one. 256 stands for no rule.
#![tactic(auto)]

ghost use Rattle.std.specs.Prelude.{cond, List, ◌≡◌, ◌-◌, ◌<◌, ◌≤◌, length};
ghost use Rattle.roles.specs.Rule.{Rule};
ghost use Rattle.rule_index.specs.Filling.{Ruled, Entered, Entering, Started, Linkable, Linking};
ghost use Rattle.rule_index.specs.Indexes.{Indexes};

use book_cursor::Cursor;
use book_decoder::Header;
use order_checker::{Ordering, order};
use refusals::BookRefusal;
use role_bytes::name;
use rule_shapes::{numbers_of, shape_of};

// A book that passes causes 1 to 8, by its header and its depth.
#[derive(Clone, Copy)]
pub struct Indexing {
    pub header: Header,
    pub depth: usize,
}

// Checks the order of a book by causes 1 to 8 and, where it has one and 3,904 numbers are lent, fills the index of its rules; else the numbers
// keep their values.
pub fn index(book: &[u8], index: &mut [u16]) -> Result<Indexing, BookRefusal>
    ensures { Indexes book.now index.old index.new result }
{
    let Ordering {
        header,
        levels,
        depth,
    } = order(book)?;
    if index.len() == 3904 {
        enter(book, header.rules, index);
        start(&levels, index);
        link(header.rules, index);
    }
    Ok(Indexing { header, depth })
}

// Enters the rules, one after another.
fn enter(book: &[u8], rules: usize, index: &mut [u16])
    requires { Ruled book.now rules × (length index.old ≡ 3904) }
    ensures { Entering book.now rules index.new }
{
    let mut cursor = Cursor::first();
    for k in 0..rules {
        let Some((entry, next)) = cursor.step(book) else {
            return; // not reached: the book is well-formed
        };
        let left = &book[entry.start..entry.start + entry.size];
        enter_rule(left, entry.right, k, index);
        cursor = next;
    }
}

// Enters rule k, its right role and its shape.
fn enter_rule(left: &[u8], right: u8, k: usize, index: &mut [u16])
    requires { (length left.now ≤ 8) × (k < 256) × (length index.old ≡ 3904) }
    ensures { Entered (record { left = left.entry.now; right = right }) k index.old index.new }
{
    let numbers = numbers_of(shape_of(left, right));
    let start = numbers.start;
    let size = numbers.size;
    let at = 14 * k;
    index[at] = right as u16;
    index[at + 1] = numbers.kind;
    index[at + 2] = numbers.from;
    index[at + 3] = numbers.to;
    index[at + 4] = size as u16;
    let inner = &left[start..start + size];
    for (i, role) in inner.iter().enumerate() {
        index[at + 6 + i] = *role as u16;
    }
}

// No rule of any name or kind yet, and the levels, counted from 0; no level is 0 too.
fn start(levels: &[u8; 64], index: &mut [u16])
    requires { length index.old ≡ 3904 }
    ensures { Started levels.now 64 index.old index.new }
{
    index[3584..3648].fill(256);
    for (x, level) in levels.iter().enumerate() {
        index[3648 + x] = level.saturating_sub(1) as u16;
    }
    index[3712..3840].fill(0);
}

// From the last rule to the first, each goes in front of the rules of its right name, which has a rule of its kind then.
fn link(rules: usize, index: &mut [u16])
    requires { (ρs : List Rule) × Linkable ρs rules index.old }
    ensures { (ρs : List Rule) → Linkable ρs rules index.old → Linking ρs 0 index.old index.new }
{
    for k in (0..rules).rev() {
        let at = 14 * k;
        let x = name(index[at] as u8) as usize;
        let kind = index[at + 1] as usize;
        index[at + 5] = index[3584 + x];
        index[3584 + x] = k as u16;
        index[3712 + (64 * kind + x)] = 1;
    }
}

// The first rule whose mirror a fragment has: the first of its name if it is symmetric, else none.
pub fn mirror_of(first: usize, symmetric: bool) -> usize
    ensures { result ≡ cond symmetric first 256 }
{
    if symmetric { first } else { 256 }
}
