// Damage to a written derivation, whose steps have four bytes.
ghost use Rattle.std.specs.Prelude.{◌<◌};

// A way to damage a derivation.
#[derive(Clone, Copy)]
pub(crate) enum Damage {
    // The byte at a place has a bit flipped.
    Flipped(usize, u8),
    // So many bytes are cut off.
    Cut(usize),
    // The step at a place stands there twice.
    Twice(usize),
    // The step at a place is left out.
    Missing(usize),
    // The step at a place is swapped with the next.
    Swapped(usize),
}

// A damaged derivation.
#[derive(Clone, Copy)]
pub(crate) struct Damaged {
    bytes: [u8; 256],
    size: usize,
}

impl Damaged {
    fn new() -> Damaged {
        Damaged {
            bytes: [0; 256],
            size: 0,
        }
    }

    pub(crate) fn steps(&self) -> &[u8] {
        self.bytes.get(..self.size).unwrap_or(&[])
    }

    // Puts bytes behind the others, as far as there is room.
    fn put(&mut self, bytes: &[u8]) {
        for (place, byte) in self.bytes.iter_mut().skip(self.size).zip(bytes) {
            *place = *byte;
        }
        self.size = self.size.saturating_add(bytes.len()).min(256);
    }
}

// The kind of a way: the byte of a step that has the bit, or 4 to 7 for the others.
pub(crate) fn kind_of(damage: Damage) -> usize
    ensures { result < 8 }
{
    match damage {
        Damage::Flipped(place, _) => place % 4,
        Damage::Cut(_) => 4,
        Damage::Twice(_) => 5,
        Damage::Missing(_) => 6,
        Damage::Swapped(_) => 7,
    }
}

// A derivation of up to 63 steps damaged so, where it can be.
pub(crate) fn apply(steps: &[u8], damage: Damage) -> Option<Damaged> {
    let mut after = Damaged::new();
    match damage {
        Damage::Flipped(place, bit) => {
            let (front, rest) = steps.split_at_checked(place)?;
            let (byte, back) = rest.split_first()?;
            after.put(front);
            after.put(&[*byte ^ bit]);
            after.put(back);
        }
        Damage::Cut(count) => {
            let (front, _) = steps.split_at_checked(steps.len().checked_sub(count)?)?;
            after.put(front);
        }
        Damage::Twice(place) => {
            let (front, rest) = steps.split_at_checked(place)?;
            let (step, back) = rest.split_at_checked(4)?;
            after.put(front);
            after.put(step);
            after.put(step);
            after.put(back);
        }
        Damage::Missing(place) => {
            let (front, rest) = steps.split_at_checked(place)?;
            let (_, back) = rest.split_at_checked(4)?;
            after.put(front);
            after.put(back);
        }
        Damage::Swapped(place) => {
            let (front, rest) = steps.split_at_checked(place)?;
            let (step, rest) = rest.split_at_checked(4)?;
            let (next, back) = rest.split_at_checked(4)?;
            after.put(front);
            after.put(next);
            after.put(step);
            after.put(back);
        }
    }
    Some(after)
}
