// Whether tables have few states and few transitions.
ghost use Rattle.std.specs.Prelude.{true, ◌≡◌, length};
ghost use Rattle.query_simulation.specs.Transitions.{transition_count};
ghost use Rattle.query_binder.specs.SmallTables.{LowHeads, LowStates, Small};

// Whether there are at most 192 transitions, and every state of theirs, every initial state and the one after it are below 64.
pub(crate) fn is_small(heads: &[u16], moves: &[u16]) -> bool
    ensures { result ≡ true → Small heads.now moves.now }
{
    moves.len() <= 576 && heads_low(heads) && states_low(moves)
}

// Whether each initial state is below 63.
fn heads_low(heads: &[u16]) -> bool
    ensures { result ≡ true → LowHeads heads.now (length heads.now) }
{
    heads.iter().all(|head| *head < 63)
}

// Whether the transitions are between states below 64.
fn states_low(moves: &[u16]) -> bool
    ensures { result ≡ true → LowStates moves.now (transition_count moves.now) }
{
    for k in 0..moves.len() / 3 {
        if 64 <= moves[3 * k] || 64 <= moves[3 * k + 2] {
            return false;
        }
    }
    true
}
