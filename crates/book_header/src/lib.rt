// The header of a book, its first eight bytes, and the tests of causes 1 to 4, each alone.
#![tactic(auto)]

ghost use Rattle.std.specs.Prelude.{◌&&◌, ◌≡◌, leb, eqb, length, get_or};
ghost use Rattle.words.specs.Word.{word as word_of};
ghost use Rattle.book_format.specs.Format.{mark_fits, counts_fit};
ghost use Rattle.refusals.specs.Check.{check};

use byte_parts::byte;
use refusals::Check;
use words::word;

// How many names and rules a book declares.
#[derive(Clone, Copy)]
pub struct Header {
    pub names: usize,
    pub rules: usize,
}

// What a book's sixth to eighth byte declare; a byte that is missing counts as 0.
pub fn declared(book: &[u8]) -> Header
    ensures { result ≡ record { names = get_or book.now 5 0; rules = word_of book.now 6 } }
{
    Header {
        names: byte(book, 5) as usize,
        rules: word(book, 6),
    }
}

// Cause 1: the bytes of the header, and no more than the most.
pub fn sized(book: &[u8], most: usize) -> Check
    ensures { result ≡ check (leb 8 (length book.now) && leb (length book.now) most) }
{
    Check::from(8 <= book.len() && book.len() <= most)
}

// Cause 2: the mark RLB.
pub fn marked(book: &[u8]) -> Check
    ensures { result ≡ check (mark_fits book.now) }
{
    Check::from(book.starts_with(b"RLB"))
}

// Cause 3: the version.
pub fn versioned(book: &[u8], version: usize) -> Check
    ensures { result ≡ check (eqb (word_of book.now 3) version) }
{
    Check::from(word(book, 3) == version)
}

// Cause 4: 1 to 64 names and at most 256 rules.
pub fn ranged(header: Header) -> Check
    ensures { result ≡ check (counts_fit header.names header.rules) }
{
    Check::from((1..=64).contains(&header.names) && header.rules <= 256)
}
