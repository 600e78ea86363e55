// Bytes and decimal numbers put into a buffer.
ghost use Rattle.std.specs.Prelude.{◌+◌, ◌≤◌, length};
ghost use Rattle.line_writer.specs.Puts.{Puts, PutsNumber};

// Puts the bytes of the text at a place; returns the place after them.
pub(crate) fn put(out: &mut [u8], at: usize, text: &[u8]) -> usize
    requires { at + length text.now ≤ length out.old }
    ensures { Puts out.old at text.now out.new result }
{
    let end = at + text.len();
    out[at..end].copy_from_slice(text);
    end
}

// Puts the decimal digits of a number, at most 20, and a word after them at a place; returns the place after both.
pub(crate) fn put_number(out: &mut [u8], at: usize, n: u64, word: &[u8]) -> usize
    requires { at + 20 + length word.now ≤ length out.old }
    ensures { PutsNumber out.old at n word.now out.new result }
{
    let mut digits = [0u8; 20];
    let size = io::decimal(n, &mut digits);
    let end = put(out, at, &digits[..size]);
    put(out, end, word)
}
