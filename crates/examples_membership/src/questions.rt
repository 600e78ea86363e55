// Questions about a book: every chain in turn, or chains of up to 12 links made from a seed: derived from a role, nearly derived, or random.
ghost use Rattle.std.specs.Prelude.{◌≤◌};

use crate::chain::{below, push, splice};
use crate::draw::Seed;

// A question: its kind, its role and its chain.
#[derive(Clone, Copy)]
pub(crate) struct Question {
    pub(crate) kind: Kind,
    pub(crate) role: u64,
    pub(crate) chain: u64,
}

// How the chain of a question is made.
#[derive(Clone, Copy)]
pub(crate) enum Kind {
    Derived,
    Nearly,
    Random,
    Every,
}

// Question i of every chain in turn about each of some roles.
pub(crate) fn nth_question(i: u64, roles: u64) -> Question
    requires { 1 ≤ roles }
{
    let mut chain = 0;
    let mut rest = i / roles % 65536 + 1;
    while 0 < rest {
        rest -= 1;
        chain = push(chain, rest % roles);
        rest /= roles;
    }
    Question {
        kind: Kind::Every,
        role: i % roles,
        chain,
    }
}

// Question i from a seed, about the right role of each rule in turn or about its inverse, twenty of each kind.
pub(crate) fn draw_question(i: u64, seed: &mut Seed, rules: &[u64; 192], roles: u64) -> Question {
    let role = draw_rule(seed, rules, i) % 16;
    match i / 20 {
        0 => Question {
            kind: Kind::Derived,
            role,
            chain: derived(seed, rules, role),
        },
        1 => Question {
            kind: Kind::Nearly,
            role,
            chain: nearly(seed, rules, role, roles),
        },
        _ => Question {
            kind: Kind::Random,
            role,
            chain: random(seed, roles),
        },
    }
}

// Rule i, counted round and round, or its mirror.
fn draw_rule(seed: &mut Seed, rules: &[u64; 192], i: u64) -> u64 {
    rules[(i % 96 * 2 + seed.draw(2)) as usize]
}

// A chain of up to 12 links of a book that has `roles` roles.
fn random(seed: &mut Seed, roles: u64) -> u64 {
    let size = seed.draw_small(12) + 1;
    seed.draw_links(size, 0, roles)
}

// A chain that is derived from a role by up to 96 replacements, by one rule after another.
fn derived(seed: &mut Seed, rules: &[u64; 192], role: u64) -> u64 {
    let turns = seed.draw(96);
    let mut chain = role << 4 | 1;
    for i in 0..=turns {
        let rule = draw_rule(seed, rules, i);
        let place = seed.draw(chain % 16);
        chain = replaced(chain, place, rule);
    }
    chain
}

// The chain with the left side of a rule in place of link i, where that is its right role and there is room.
fn replaced(chain: u64, i: u64, rule: u64) -> u64 {
    let left = rule >> 4;
    if (chain >> below(i)) % 16 != rule % 16 || 13 < chain % 16 + left % 16 {
        return chain;
    }
    splice(chain, i, left)
}

// A derived chain of which a link is changed or dropped, or two neighbours are swapped.
fn nearly(seed: &mut Seed, rules: &[u64; 192], role: u64, roles: u64) -> u64 {
    let chain = derived(seed, rules, role);
    let place = seed.draw(chain % 16);
    match seed.draw(3) {
        0 if 2 <= chain % 16 => splice(chain, place, 0),
        1 if 2 <= chain % 16 => swapped(chain, place),
        _ => splice(chain, place, seed.draw(roles) << 4 | 1),
    }
}

// Link i is swapped with the one before it; the first with the second.
fn swapped(chain: u64, i: u64) -> u64 {
    let low = below(i.saturating_sub(1));
    let links = chain >> low;
    let changed = (links ^ links >> 4) % 16;
    chain ^ changed * 17 << low
}
