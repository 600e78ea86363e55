// Writes a book into lent bytes: its rules one after another from byte 8 on, and the eight bytes in front of them last, when the rules are counted.
#![tactic(auto)]

ghost use Rattle.std.specs.Prelude.{◌≡◌, ◌+◌, ◌≤◌, length};
ghost use Rattle.std.proofs.lemmas.List.Edits.{sets};
ghost use Rattle.book_writer.specs.BookStores.{RulePut, put_header};

// Puts a rule at a place and gives the place after it. Where there is no room, or the length is over 255, nothing is written and the place comes back.
pub fn put_rule(book: &mut [u8], at: usize, right: u8, left: &[u8]) -> usize
    ensures { RulePut book.old at (record { left = left.entry.now; right = right }) book.new result }
{
    let size = left.len();
    if 255 < size || book.len() < size + 2 || book.len() - (size + 2) < at {
        return at;
    }
    book[at] = right;
    book[at + 1] = size as u8;
    copy(book, at + 2, left);
    at + 2 + size
}

// Puts the mark, version 1, the names and the rule count into the first eight bytes. Where there are fewer, nothing is written.
pub fn put_header(book: &mut [u8], names: u8, rules: u16)
    ensures { book.new ≡ put_header book.old names rules }
{
    if book.len() < 8 {
        return;
    }
    let header = [
        0x52u8,
        0x4C,
        0x42,
        1,
        0,
        names,
        (rules % 256) as u8,
        (rules / 256) as u8,
    ];
    book[..8].copy_from_slice(&header);
}

// Copies a part to a place, byte by byte.
fn copy(book: &mut [u8], at: usize, part: &[u8])
    requires { at + length part.now ≤ length book.old }
    ensures { book.new ≡ sets book.old at part.now }
{
    for i in 0..part.len() {
        book[at + i] = part[i];
    }
}
