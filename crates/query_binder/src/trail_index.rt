// An index of transitions by their from state, below some room, letters apart from silent ones. An entry is one more than a transition's number,
// or 0 for none: at 2 p the last letter from the state p, after it the last silent transition, and at 2 room + k the last one before transition k
// in its list.
ghost use Rattle.std.specs.Prelude.{◌≡◌, ◌<◌};
ghost use Rattle.query_simulation.specs.TransitionIndex.{slot_at};
ghost use Rattle.query_simulation.specs.Transitions.{transition_count};
ghost use Rattle.query_binder.specs.TrailIndex.{Indexed};

// Enters every transition into an index that has none.
pub(crate) fn fill(moves: &[u16], room: usize, index: &mut [u16])
    requires { Indexed room moves.now index.old 0 }
    ensures { Indexed room moves.now index.new (transition_count moves.now) }
{
    let count = moves.len() / 3;
    let chained = 2 * room;
    for k in 0..count {
        let list = list_at(moves, k);
        index[chained + k] = index[list];
        index[list] = (k + 1) as u16;
    }
}

// The list of transition k.
fn list_at(moves: &[u16], k: usize) -> usize
    requires { k < transition_count moves.now }
    ensures { result ≡ slot_at moves.now k }
{
    let from = moves[3 * k] as usize;
    let silent = moves[3 * k + 1] / 128;
    2 * from + silent as usize
}
