// Counts, and the lines that tell them. Questions of each kind have three: asked, agreed on, and answered by yes. The kinds are derived, nearly
// derived and random chains, and every chain in turn. Derivations have counts of their own, as in `derivations`.

// Books made.
pub(crate) const MADE: usize = 12;

// Books refused by cause n are counted at REFUSED + n.
pub(crate) const REFUSED: usize = 12;

// Books accepted.
pub(crate) const ACCEPTED: usize = 24;

// Accepted books with mark n are counted at MARKED + n.
pub(crate) const MARKED: usize = 25;

// The most: states of an accepted book, or steps of a derivation.
const MOST: usize = 63;

#[derive(Clone, Copy)]
pub(crate) struct Counts([u64; 64]);

impl Counts {
    pub(crate) fn new() -> Counts {
        Counts([0; 64])
    }

    // Counts whether each of some facts holds, in the counts from a place on.
    pub(crate) fn count(&mut self, from: usize, facts: &[bool]) {
        for (count, holds) in self.0.iter_mut().skip(from).zip(facts) {
            *count = count.wrapping_add(u64::from(*holds));
        }
    }

    // Keeps the most.
    pub(crate) fn keep_most(&mut self, n: usize) {
        self.0[MOST] = self.0[MOST].max(n as u64);
    }

    // Writes a text in which the byte 128 + i stands for count i.
    pub(crate) fn tell(&self, text: &[u8]) {
        for byte in text {
            if byte.is_ascii() {
                io::write_all(1, &[*byte]);
            } else {
                io::print_decimal(1, self.0[usize::from(*byte % 64)]);
            }
        }
    }
}
