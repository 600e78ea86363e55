// The hops of a pair: by silent transitions at its place, by letters along the next link and along the link before, backwards.
ghost use Rattle.std.specs.Prelude.{◌*◌, ◌<◌};
ghost use Rattle.query_simulation.specs.Transitions.{transition_count, Fit};
ghost use Rattle.query_binder.specs.Hops.{Meets, By, Ahead, Back, Hops, Ground};
ghost use Rattle.query_binder.specs.PairSets.{PairSet, Gains};
ghost use Rattle.query_binder.specs.TrailIndex.{Indexed};

use crate::pairs::put;
use role_bytes::inverse;

// Adds to the newest set the pairs to which the hops of one pair lead; returns its count.
pub(crate) fn visit(
    moves: &[u16],
    room: usize,
    index: &[u16],
    chain: &[u8],
    pair: usize,
    pairs: &mut [u16],
    stamp: u16,
    count: usize,
) -> usize
    requires grounded { Ground room moves.now index.now chain.now }
    requires pair_bound { pair < 32 * room }
    requires pair_set { PairSet room stamp pairs.old count }
    ensures { Gains room stamp (Hops moves.now chain.now pair) pairs.old count pairs.new result }
{
    let from = pair / 32;
    let place = pair % 32;
    let silent = spread(moves, room, index, from, 128, place, pairs, stamp, count);
    let forth = ahead(moves, room, index, chain, from, place, pairs, stamp, silent);
    back(moves, room, index, chain, from, place, pairs, stamp, forth)
}

// Adds those along the next link.
fn ahead(
    moves: &[u16],
    room: usize,
    index: &[u16],
    chain: &[u8],
    from: usize,
    place: usize,
    pairs: &mut [u16],
    stamp: u16,
    count: usize,
) -> usize
    requires grounded { Ground room moves.now index.now chain.now }
    requires from_lt_room { from < room }
    requires pair_set { PairSet room stamp pairs.old count }
    ensures { Gains room stamp (Ahead moves.now chain.now from place) pairs.old count pairs.new result }
{
    if place < chain.len() {
        spread(
            moves,
            room,
            index,
            from,
            chain[place],
            place + 1,
            pairs,
            stamp,
            count,
        )
    } else {
        count
    }
}

// Adds those along the link before, backwards.
fn back(
    moves: &[u16],
    room: usize,
    index: &[u16],
    chain: &[u8],
    from: usize,
    place: usize,
    pairs: &mut [u16],
    stamp: u16,
    count: usize,
) -> usize
    requires grounded { Ground room moves.now index.now chain.now }
    requires from_lt_room { from < room }
    requires pair_set { PairSet room stamp pairs.old count }
    ensures { Gains room stamp (Back moves.now chain.now from place) pairs.old count pairs.new result }
{
    if 0 < place && place <= chain.len() {
        spread(
            moves,
            room,
            index,
            from,
            inverse(chain[place - 1]),
            place - 1,
            pairs,
            stamp,
            count,
        )
    } else {
        count
    }
}

// Adds, at one place, the states to which transitions with the label lead from one state; returns the count.
fn spread(
    moves: &[u16],
    room: usize,
    index: &[u16],
    from: usize,
    label: u8,
    place: usize,
    pairs: &mut [u16],
    stamp: u16,
    count: usize,
) -> usize
    requires indexed { Indexed room moves.now index.now (transition_count moves.now) }
    requires from_lt_room { (from < room) × (place < 32) }
    requires pair_set { PairSet room stamp pairs.old count }
    ensures { Gains room stamp (By moves.now from label place) pairs.old count pairs.new result }
{
    let mut all = count;
    let mut at = index[2 * from + label as usize / 128] as usize;
    while 0 < at {
        let k = at - 1;
        all = meet(moves, room, k, label, place, pairs, stamp, all);
        at = index[2 * room + k] as usize;
    }
    all
}

// Adds, at one place, the state to which transition k leads if it has the label; returns the count.
fn meet(
    moves: &[u16],
    room: usize,
    k: usize,
    label: u8,
    place: usize,
    pairs: &mut [u16],
    stamp: u16,
    count: usize,
) -> usize
    requires fit { Fit room moves.now }
    requires k_bound { (k < transition_count moves.now) × (place < 32) }
    requires pair_set { PairSet room stamp pairs.old count }
    ensures { Gains room stamp (Meets moves.now k label place) pairs.old count pairs.new result }
{
    if moves[3 * k + 1] == label as u16 {
        let to = moves[3 * k + 2] as usize;
        put(pairs, room, stamp, count, 32 * to + place)
    } else {
        count
    }
}
