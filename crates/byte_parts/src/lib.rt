// Parts of some bytes, of a text or of a book, and how many of them count. Every place is safe.
#![tactic(auto)]

ghost use Rattle.std.specs.Prelude.{◌≡◌, ◌+◌, get_or, drop};
ghost use Rattle.byte_parts.specs.Bytes.{ahead, between, copied};
ghost use Rattle.byte_parts.specs.Least.{Least};

// The byte at a place; 0 past the end.
pub fn byte(bytes: &[u8], at: usize) -> u8
    ensures { result ≡ get_or bytes.now at 0 }
{
    bytes.get(at).copied().unwrap_or(0)
}

// The bytes from a place to an end; none where there are no such places.
pub fn part(bytes: &[u8], from: usize, end: usize) -> &[u8]
    ensures { result.now ≡ between from end bytes.now }
{
    bytes.get(from..end).unwrap_or(&[])
}

// The first place of a byte from a place on; where it does not stand there, the end of the bytes, or the place itself if that is past the end.
pub fn find(bytes: &[u8], from: usize, wanted: u8) -> usize
    ensures { result ≡ from + ahead wanted (drop from bytes.now) }
{
    for i in from..bytes.len() {
        if bytes[i] == wanted {
            return i;
        }
    }
    from.max(bytes.len())
}

// The lesser of two numbers.
pub fn least(a: usize, b: usize) -> usize
    ensures { Least a b result }
{
    a.min(b)
}

// Copies the first `count` bytes over the front of others, as far as both go; the bytes after them stay.
pub fn copy(from: &[u8], count: usize, to: &mut [u8])
    ensures { to.new ≡ copied from.now count to.old }
{
    let end = count.min(from.len()).min(to.len());
    to[..end].copy_from_slice(&from[..end]);
}
