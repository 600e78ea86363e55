// Sets of states below some room, two at a time, in lent space: a list of members at 0 and one at room, and at 2 room + q the stamp of the
// last set that the state q was put into. A new stamp makes an empty set, whatever stands in the space.
ghost use Rattle.std.specs.Prelude.{◌<◌};
ghost use Rattle.query_simulation.specs.States.{States, Put, Unused, Renewed};

// Puts a state into the newest set if it is not in; returns the count.
pub(crate) fn put(
    space: &mut [u16],
    room: usize,
    list: usize,
    stamp: u16,
    count: usize,
    state: usize,
) -> usize
    requires states { States room stamp space.old list count }
    requires state_lt_room { state < room }
    ensures { Put room stamp list state space.old count space.new result }
{
    let mark = 2 * room + state;
    if space[mark] == stamp {
        return count;
    }
    space[list + count] = state as u16;
    space[mark] = stamp;
    count + 1
}

// A stamp with many more after it, newer than all that stands in sets of the largest room: the given one, or 1 after the stamps are cleared.
pub(crate) fn renew(space: &mut [u16], stamp: usize) -> u16
    requires { Unused 2048 stamp space.old }
    ensures { Renewed 2048 space.old space.new result }
{
    if stamp <= 64000 {
        return stamp as u16;
    }
    space[4096..6144].fill(0);
    1
}
