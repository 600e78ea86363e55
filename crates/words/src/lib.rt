// 16-bit numbers in bytes, low byte first. Every place is safe.
#![tactic(auto)]

ghost use Rattle.std.specs.Prelude.{◌≡◌};
ghost use Rattle.words.specs.Word.{word as word_of};

// The number at a place; a byte that is missing counts as 0.
pub fn word(bytes: &[u8], at: usize) -> usize
    ensures { result ≡ word_of bytes.now at }
{
    match bytes.get(at..) {
        Some([low, high, ..]) => *low as usize + 256 * *high as usize,
        Some([low]) => *low as usize,
        _ => 0,
    }
}
