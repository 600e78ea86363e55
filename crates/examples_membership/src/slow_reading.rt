// A second reading of written derivations, straight from their definition: a chain of up to 16 links, and one step after another.
use crate::chain::{size, spelled};

// What some bytes are as a derivation of a chain: their steps lead to the chain or elsewhere, they are not in fours, or a step is the first impossible
// one.
#[derive(Clone, Copy, PartialEq)]
pub(crate) enum Reading {
    Yes,
    No,
    Uneven,
    Impossible(usize),
}

// A chain: its links, and how many they are.
#[derive(Clone, Copy)]
struct Links {
    roles: [u8; 16],
    size: usize,
}

impl Links {
    // The chain of a role.
    fn alone(role: u8) -> Links {
        let mut roles = [0; 16];
        roles[0] = role;
        Links { roles, size: 1 }
    }

    fn roles(&self) -> &[u8] {
        self.roles.get(..self.size).unwrap_or(&[])
    }

    // The chain with a rule's left side in the place of a link, where that is the rule's right role and there are at most 16 links then.
    fn replaced(&self, place: usize, rule: u64) -> Option<Links> {
        let (front, rest) = self.roles().split_at_checked(place)?;
        let (role, back) = rest.split_first()?;
        let left = spelled(rule >> 4);
        let left = &left[..size(rule >> 4)];
        let size = self.size.saturating_add(left.len()).saturating_sub(1);
        if u64::from(*role) != rule % 16 || 16 < size {
            return None;
        }
        let mut roles = [0; 16];
        for (role, from) in roles.iter_mut().zip(front.iter().chain(left).chain(back)) {
            *role = *from;
        }
        Some(Links { roles, size })
    }
}

// What some bytes are as a derivation of a chain from a role by so many rules.
pub(crate) fn read(
    rules: &[u64; 192],
    count: usize,
    role: u8,
    chain: &[u8],
    bytes: &[u8],
) -> Reading {
    let (steps, rest) = bytes.as_chunks::<4>();
    if !rest.is_empty() {
        return Reading::Uneven;
    }
    let mut links = Links::alone(role);
    for (i, step) in steps.iter().enumerate() {
        match after_step(rules, count, &links, *step) {
            Some(next) => links = next,
            None => return Reading::Impossible(i),
        }
    }
    if links.roles() == chain {
        Reading::Yes
    } else {
        Reading::No
    }
}

// The chain after a step: the place of a link in 16 bits, low byte first, the number of a rule, and 0 for the rule or 1 for its mirror. None where the step
// is impossible.
fn after_step(rules: &[u64; 192], count: usize, links: &Links, step: [u8; 4]) -> Option<Links> {
    let [low, high, number, side] = step;
    let number = usize::from(number);
    if count <= number || 1 < side {
        return None;
    }
    let rule = *rules.get(2 * number + usize::from(side))?;
    links.replaced(usize::from(u16::from_le_bytes([low, high])), rule)
}
