// Causes 9 to 11: whether the tables of a book are small enough, and the memory for them is lent long enough.
#![tactic(auto)]

ghost use Rattle.std.specs.Prelude.{◌&&◌, ◌≡◌, ◌*◌, leb};
ghost use Rattle.refusals.specs.Check.{check};
ghost use Rattle.table_limits.specs.Limits.{limited};

use book_decoder::Header;
use refusals::{BuildRefusal, Check};

// How many names, states and transitions the tables have, and the depth of the book: the numbers of the tables are the first `names` heads and
// the first 3 `transitions` moves.
#[derive(Clone, Copy)]
pub struct Counts {
    pub names: usize,
    pub states: usize,
    pub transitions: usize,
    pub depth: usize,
}

// Causes 9 to 11, in this order, of a book with so many states and transitions and of this depth, where so many heads and moves are lent: its
// counts, or why it is refused.
pub fn limit(
    header: Header,
    states: usize,
    transitions: usize,
    depth: usize,
    heads: usize,
    moves: usize,
) -> Result<Counts, BuildRefusal>
    ensures { result ≡ limited header.names states transitions depth heads moves }
{
    let Check::Passed = few_states(states) else {
        return Err(BuildRefusal::States);
    };
    let Check::Passed = few_transitions(transitions) else {
        return Err(BuildRefusal::Transitions);
    };
    let Check::Passed = long_enough(header.names, transitions, heads, moves) else {
        return Err(BuildRefusal::Short);
    };
    Ok(Counts {
        names: header.names,
        states,
        transitions,
        depth,
    })
}

// Cause 9: at most 2,048 states.
fn few_states(states: usize) -> Check
    ensures { result ≡ check (leb states 2048) }
{
    Check::from(states <= 2048)
}

// Cause 10: at most 5,120 transitions.
fn few_transitions(transitions: usize) -> Check
    ensures { result ≡ check (leb transitions 5120) }
{
    Check::from(transitions <= 5120)
}

// Cause 11: so many heads and moves are lent as the names and transitions need, three moves for each transition.
fn long_enough(names: usize, transitions: usize, heads: usize, moves: usize) -> Check
    ensures { result ≡ check (leb names heads && leb (3 * transitions) moves) }
{
    Check::from(names <= heads && transitions <= moves / 3)
}
