// Reads a chain link by link with sets of states: only the active states and their transitions are visited.
ghost use Rattle.std.specs.Prelude.{◌+◌, ◌*◌, ◌<◌, length};
ghost use Rattle.query_causes.specs.Query.{asked};
ghost use Rattle.base.specs.Reflects.{Reflects};
ghost use Rattle.query_simulation.specs.Transitions.{transition_count};
ghost use Rattle.query_simulation.specs.TransitionIndex.{Prepared, Active, Met, Spread};
ghost use Rattle.query_simulation.specs.Reading.{Readable, Leads, Closing, Steps, Stepped};

use crate::states::put;
use query_parts::link;

// Whether a path from the state `head` to the next one spells the chain, or its inverse if the role is the inverse of a name. The set after
// i links has the i-th stamp after the given one; the links go to and fro between the two lists. Once no state is left no link is read.
pub(crate) fn run(
    moves: &[u16],
    room: usize,
    role: u8,
    chain: &[u8],
    head: usize,
    mut stamp: u16,
    space: &mut [u16],
) -> bool
    requires { Readable moves.now room stamp head chain.now space.old }
    ensures reflects { Reflects result (Leads moves.now head (asked role chain.now) (head + 1)) }
    ensures prepared { Prepared room (stamp + length chain.now + 1) moves.now (transition_count moves.now) space.new }
{
    let mut count = put(space, room, 0, stamp, 0, head);
    count = close(moves, room, space, 0, stamp, count);
    let mut list = 0;
    for i in 0..chain.len() {
        if count == 0 {
            return false;
        }
        stamp += 1;
        let label = link(role, chain, i) as u16;
        count = step(moves, room, label, space, list, count, stamp);
        list = room - list;
    }
    space[2 * room + (head + 1)] == stamp
}

// Reads one link: fills the other list with what the states of this one reach by the label and then silently; returns its count.
fn step(
    moves: &[u16],
    room: usize,
    label: u16,
    space: &mut [u16],
    list: usize,
    count: usize,
    stamp: u16,
) -> usize
    requires { Steps moves.now room stamp list label space.old count }
    ensures { Stepped moves.now room stamp list label space.old count space.new result }
{
    let next = room - list;
    let mut found = 0;
    for i in 0..count {
        let slot = 2 * space[list + i] as usize;
        found = spread(moves, room, slot, label, space, next, stamp, found);
    }
    close(moves, room, space, next, stamp, found)
}

// Adds to the newest set what its members reach silently, walking along them while they grow; returns its count.
fn close(
    moves: &[u16],
    room: usize,
    space: &mut [u16],
    list: usize,
    stamp: u16,
    mut count: usize,
) -> usize
    requires { Active room stamp list moves.now space.old count }
    ensures { Closing moves.now room stamp list result space.old count space.new result }
{
    let mut i = 0;
    while i < count {
        let slot = 2 * space[list + i] as usize + 1;
        count = spread(moves, room, slot, 128, space, list, stamp, count);
        i += 1;
    }
    count
}

// Adds to the newest set the states to which transitions of one list with the label lead; returns its count.
fn spread(
    moves: &[u16],
    room: usize,
    slot: usize,
    label: u16,
    space: &mut [u16],
    list: usize,
    stamp: u16,
    mut count: usize,
) -> usize
    requires active { Active room stamp list moves.now space.old count }
    requires slot_bound { slot < 2 * room }
    ensures { Spread room stamp list moves.now slot label 0 space.old count space.new result }
{
    let mut at = space[3 * room + slot] as usize;
    while 0 < at {
        let next = space[5 * room + at - 1] as usize;
        count = meet(moves, room, at - 1, label, space, list, stamp, count);
        at = next;
    }
    count
}

// Adds to the newest set the state to which transition k leads if it has the label; returns the set's count.
fn meet(
    moves: &[u16],
    room: usize,
    k: usize,
    label: u16,
    space: &mut [u16],
    list: usize,
    stamp: u16,
    count: usize,
) -> usize
    requires active { Active room stamp list moves.now space.old count }
    requires k_bound { k < transition_count moves.now }
    ensures { Met room stamp list moves.now k label space.old count space.new result }
{
    let place = 3 * k;
    if moves[place + 1] != label {
        return count;
    }
    put(space, room, list, stamp, count, moves[place + 2] as usize)
}
