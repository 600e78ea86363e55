// Whether hops lead from one pair to another, by a walk along a set of pairs that grows while it is walked.
ghost use Rattle.std.specs.Prelude.{◌+◌, ◌<◌, ◌≤◌};
ghost use Rattle.base.specs.Reflects.{Reflects};
ghost use Rattle.networks.specs.LaidChain.{laid};
ghost use Rattle.table_trails.specs.TableTrails.{Leads, begin, end};
ghost use Rattle.query_causes.specs.Query.{transitions_in};
ghost use Rattle.query_binder.specs.Hops.{Ground};
ghost use Rattle.query_binder.specs.PairSets.{Unused};

use crate::hops::visit;
use crate::pairs::put;
use role_bytes::is_inverse;

// Whether hops lead from the state `head` at one place to the next state at another. The set has the given stamp.
pub(crate) fn weave(
    moves: &[u16],
    room: usize,
    index: &[u16],
    chain: &[u8],
    head: usize,
    begin: usize,
    end: usize,
    stamp: u16,
    pairs: &mut [u16],
) -> bool
    requires grounded { Ground room moves.now index.now chain.now }
    requires head_bound { (head + 1 < room) × (begin ≤ 16) × (end ≤ 16) }
    requires unused { Unused room stamp pairs.old }
    ensures reflects { Reflects result (Leads (transitions_in moves.now) (laid chain.now) (head + 1) end head begin) }
    ensures unused_2 { Unused room (stamp + 1) pairs.new }
{
    let mark = 32 * room + (32 * (head + 1) + end);
    let mut count = put(pairs, room, stamp, 0, 32 * head + begin);
    let mut i = 0;
    while i < count {
        if pairs[mark] == stamp {
            return true;
        }
        let pair = pairs[i] as usize;
        count = visit(moves, room, index, chain, pair, pairs, stamp, count);
        i += 1;
    }
    pairs[mark] == stamp
}

// Whether hops lead from the state `head` where the chain is asked from to the next state where it is asked to: from its first place to its last for a name, the
// other way for the inverse of a name.
pub(crate) fn binds(
    moves: &[u16],
    room: usize,
    index: &[u16],
    role: u8,
    chain: &[u8],
    head: usize,
    stamp: u16,
    pairs: &mut [u16],
) -> bool
    requires grounded { Ground room moves.now index.now chain.now }
    requires head_bound { head + 1 < room }
    requires unused { Unused room stamp pairs.old }
    ensures reflects { Reflects result (Leads (transitions_in moves.now) (laid chain.now) (head + 1) (end role chain.now) head (begin role chain.now)) }
    ensures unused_2 { Unused room (stamp + 1) pairs.new }
{
    let last = chain.len();
    if is_inverse(role) {
        weave(moves, room, index, chain, head, last, 0, stamp, pairs)
    } else {
        weave(moves, room, index, chain, head, 0, last, stamp, pairs)
    }
}
