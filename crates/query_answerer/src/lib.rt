// Answers a question put to tables: whether they accept a chain for a role, or the first cause of document 01, 12 to 14, that refuses
// the question.
#![tactic(auto)]

ghost use Rattle.std.specs.Prelude.{◌+◌, ◌*◌, ◌<◌, ◌≤◌, MatchOption};
ghost use Rattle.query_causes.specs.Query.{asked, Answered};
ghost use Rattle.base.specs.Reflects.{Reflects};
ghost use Rattle.query_simulation.specs.Transitions.{transition_count, Fit};
ghost use Rattle.query_simulation.specs.Reading.{Leads, Askable};
ghost use Rattle.query_parts.specs.Answer.{says};

mod batch;
mod index;
mod reading;
mod states;

pub use batch::{Batch, ask_all};
use index::fill;
use query_checker::check;
use query_parts::head;
use reading::run;
use refusals::QueryRefusal;

// Whether tables accept a chain for a role: the first refusal of causes 12, 13 and 14; else yes or no.
pub fn ask(heads: &[u16], moves: &[u16], role: u8, chain: &[u8]) -> Result<bool, QueryRefusal>
    ensures { Answered heads.now moves.now role chain.now (says result) }
{
    check(heads, moves, role, chain)?;
    let accepted = accepts(moves, role, chain, head(heads, role));
    Ok(accepted)
}

// Whether a path from the state `head` to the next one spells the chain, or its inverse for the inverse of a name. Small tables are read in a
// small array, which takes less time to clear.
fn accepts(moves: &[u16], role: u8, chain: &[u8], head: usize) -> bool
    requires { Askable moves.now head chain.now }
    ensures { Reflects result (Leads moves.now head (asked role chain.now) (head + 1)) }
{
    if head < 63
        && moves.len() <= 576
        && let Some(accepted) = accepts_in::<64, 512>(moves, role, chain, head)
    {
        return accepted;
    }
    accepts_in::<2048, 15360>(moves, role, chain, head) == Some(true)
}

// The same in a fresh array with room for so many states; nothing where a transition has a state that is not below the room.
fn accepts_in<const ROOM: u16, const SPACE: usize>(
    moves: &[u16],
    role: u8,
    chain: &[u8],
    head: usize,
) -> Option<bool>
    requires askable { Askable moves.now head chain.now }
    requires sizes { (ROOM ≤ 2048) × (SPACE ≤ 15360) × (5 * ROOM + transition_count moves.now ≤ SPACE) }
    requires inside { head + 1 < ROOM }
    ensures { MatchOption result (Fit ROOM moves.now → ⊥)
        (λ accepted. Reflects accepted (Leads moves.now head (asked role chain.now) (head + 1))) }
{
    let mut space = [0u16; SPACE];
    if !fill(moves, ROOM, &mut space) {
        return None;
    }
    Some(run(moves, ROOM as usize, role, chain, head, 1, &mut space))
}
