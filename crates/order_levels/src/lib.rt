// Levels of names by the longest way down, from masks: mask x is the set of the names below name x.
#![tactic(auto)]

ghost use Rattle.std.specs.Prelude.{◌≡◌, ℕ, ◌<◌, ◌≤◌, length, get_or, replicate};
ghost use Rattle.std.specs.Int.Bits.{bit_or};
ghost use Rattle.name_sets.specs.Mask.{has};
ghost use Rattle.order_levels.specs.Levels.{LeveledBy, Climbs};
ghost use Rattle.order_levels.specs.Climbing.{Ranked, Ready, Meets, Climbed};

use name_sets::single;

// The level of each name, 0 for numbers that are no names, and the highest level.
#[derive(Drop)]
pub struct Levels {
    pub levels: [u8; 64],
    pub depth: usize,
}

// The levels of the names that have a mask, of 64 at most. One walk over the names, in rising order of how many are below them, puts each one
// level above the highest name below it.
pub fn levels_of(masks: &[u64]) -> Levels
    ensures { Climbs masks.now result }
{
    let named = &masks[..masks.len().min(64)];
    let mut ranks = [0u64; 65];
    let top = rank(named, &mut ranks);
    let mut tiers = [0u64; 65];
    let mut levels = [0u8; 64];
    let depth = climb(named, &ranks, top, &mut tiers, &mut levels);
    Levels { levels, depth }
}

// Sorts names by their rank, how many names are in their mask: set c has the names of rank c. Returns a number over all ranks.
fn rank(masks: &[u64], ranks: &mut [u64]) -> usize
    requires { (length masks.now ≤ 64) × (ranks.old ≡ replicate 65 0) }
    ensures { Ranked masks.now (length masks.now) ranks.new result }
{
    let mut top: usize = 0;
    for (x, mask) in masks.iter().enumerate() {
        let c = mask.count_ones() as usize;
        ranks[c] |= single(x);
        top = top.max(c + 1);
    }
    top
}

// Walks over the names, rank by rank, and puts each in its tier: tier k has the names of level k + 1. Returns the highest level.
fn climb(masks: &[u64], ranks: &[u64], top: usize, tiers: &mut [u64], levels: &mut [u8]) -> usize
    requires masks_len_bound { (length masks.now ≤ 64) × Ranked masks.now (length masks.now) ranks.now top }
    requires tiers_value { (tiers.old ≡ replicate 65 0) × (levels.old ≡ replicate 64 0) }
    ensures { LeveledBy masks.now levels.new result }
{
    let mut depth = 0;
    let mut walked = 0;
    for c in 0..top {
        depth = climb_rank(masks, ranks, c, walked, tiers, levels, depth);
        walked |= ranks[c];
    }
    depth
}

// Puts the names of rank c in their tiers, where those of lower ranks, which are walked, stand. Returns the highest level.
fn climb_rank(
    masks: &[u64],
    ranks: &[u64],
    c: usize,
    walked: u64,
    tiers: &mut [u64],
    levels: &mut [u8],
    depth: usize,
) -> usize
    requires masks_len_bound { (length masks.now ≤ 64) × (c < 65) }
    requires by_index { ((top : ℕ) × Ranked masks.now (length masks.now) ranks.now top) × Ready masks.now walked c }
    requires climbed { Climbed masks.now (has walked) tiers.old levels.old depth }
    ensures { Climbed masks.now (has (bit_or walked (get_or ranks.now c 0))) tiers.new levels.new result }
{
    let mut deepest = depth;
    let mut rest = ranks[c];
    while rest != 0 {
        let x = rest.trailing_zeros() as usize;
        let below = highest(masks[x] & walked, tiers, deepest);
        tiers[below] |= single(x);
        levels[x] = (below + 1) as u8;
        deepest = deepest.max(below + 1);
        rest ^= single(x);
    }
    deepest
}

// The highest level that a name of the set has; 0 where none has one.
fn highest(set: u64, tiers: &[u64], depth: usize) -> usize
    requires { depth ≤ length tiers.now }
    ensures { Meets set tiers.now depth result }
{
    for k in (0..depth).rev() {
        if set & tiers[k] != 0 {
            return k + 1;
        }
    }
    0
}
