// An index of transitions by their from state, letters apart from silent ones: lists that run through lent space behind the sets of states. An
// entry is one more than a transition's number, or 0 for none: at 3 room + 2 p the last letter from the state p, after it the last silent
// transition, and at 5 room + k the last one before transition k in its list.
ghost use Rattle.query_simulation.specs.Transitions.{Fit};
ghost use Rattle.query_simulation.specs.TransitionIndex.{Prepared, Filled};

use query_index::list_of;

// Enters every transition, in one pass, into an index whose lists are empty, up to one with a state that is not below the room; whether none is so.
pub(crate) fn fill(moves: &[u16], room: u16, space: &mut [u16]) -> bool
    requires fit { Fit 2048 moves.now }
    requires prepared { Prepared room 1 moves.now 0 space.old }
    ensures { Filled room moves.now space.new result }
{
    let chained = 5 * room as usize;
    for k in 0..moves.len() / 3 {
        let Some(list) = list_of(moves, room, k) else {
            return false;
        };
        space[chained + k] = space[list];
        space[list] = (k + 1) as u16;
    }
    true
}
