// Which list of an index by from state, letters apart from silent ones, a transition goes into.
#![tactic(auto)]

ghost use Rattle.std.specs.Prelude.{◌≡◌, ◌<◌, MatchOption};
ghost use Rattle.query_simulation.specs.TransitionIndex.{list_of};

// Where the list of transition k begins behind sets of states below some room; none where there is no such transition, or one of its states is not
// below the room.
pub fn list_of(moves: &[u16], room: u16, k: usize) -> Option<usize>
    ensures { MatchOption result (list_of room moves.now k ≡ 0) (λ list. (list ≡ list_of room moves.now k) × (0 < list)) }
{
    if moves.len() / 3 <= k {
        return None;
    }
    let place = 3 * k;
    let from = moves[place];
    let to = moves[place + 2];
    if (room <= from) | (room <= to) {
        return None;
    }
    let silent = moves[place + 1] / 128;
    Some(3 * room as usize + (2 * from as usize + silent as usize))
}
