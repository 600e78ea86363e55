// A memo of the fragments laid, 512 numbers: at r how many states a fragment of role r takes, or 0 where none is laid yet; at 128 + r the
// number of its first transition; at 256 + r how many transitions it has; at 384 + r its first state. All fragments of a role are the same
// up to where their states begin, so that a second one is copied from the first.
ghost use Rattle.std.specs.Prelude.{List, ◌⊎◌, ◌≡◌, ℕ, ◌+◌, ◌*◌, ◌<◌, ◌≤◌, length, get_or};
ghost use Rattle.std.proofs.lemmas.List.Edits.{sets};
ghost use Rattle.tables.specs.Tables.{Transition};
ghost use Rattle.table_writer.specs.Adding.{Small, Lays};
ghost use Rattle.table_builder.specs.Memo.{Sound, Held, stored, Copied};

use table_writer::Place;

// A number of a table.
pub(crate) fn number(table: &[u16], at: usize) -> usize
    requires { at < length table.now }
    ensures { (result ≡ get_or table.now at 0) × (result < 65536) }
{
    table[at] as usize
}

// Puts down the fragment of role r that was laid between two places, unless the tables are too large.
pub(crate) fn keep(r: usize, place: Place, after: Place, memo: &mut [u16])
    requires r_bound { (r < 128) × (length memo.old ≡ 512) }
    requires state_le_state { Sound after → (place.state ≤ after.state) × (place.count ≤ after.count) }
    ensures { (memo.new ≡ memo.old) ⊎ (Sound after × (memo.new ≡ stored memo.old r place after)) }
{
    let state = after.state;
    let count = after.count;
    if 2048 < state || 60000 <= count {
        return;
    }
    let initial = place.state;
    let start = place.count;
    memo[r] = (state - initial) as u16;
    memo[128 + r] = start as u16;
    memo[256 + r] = (count - start) as u16;
    memo[384 + r] = initial as u16;
}

// Lays a fragment of role r again, as the memo has it: counted, and copied where there is room.
pub(crate) fn again(r: usize, place: Place, memo: &[u16], moves: &mut [u16]) -> Place
    requires r_bound { (r < 128) × (length memo.now ≡ 512) }
    requires small_2 { Small place × (place.state ≤ 2048) }
    requires by_index { (z : ℕ) × (at : ℕ → List Transition) × Held memo.now r place moves.old z at }
    ensures small { Small result }
    ensures laid { (z : ℕ) (at : ℕ → List Transition) → Held memo.now r place moves.old z at
        → Lays z (at place.state) place moves.old result moves.new }
{
    let state = place.state;
    let count = place.count;
    let size = number(memo, 256 + r);
    let next = state + number(memo, r);
    let end = count + size;
    if 2048 < next {
        return Place { state: 2049, count };
    }
    if 60000 <= end {
        return Place {
            state: next,
            count: 60000,
        };
    }
    if 3 * end <= moves.len() {
        let by = state - number(memo, 384 + r);
        shift(number(memo, 128 + r), size, count, by, moves);
    }
    Place {
        state: next,
        count: end,
    }
}

// Copies transitions to a place after them, with a number added to their states.
fn shift(start: usize, size: usize, count: usize, by: usize, moves: &mut [u16])
    requires size_bound { (start + size ≤ count) × (3 * (count + size) ≤ length moves.old) }
    requires by_index { (j : ℕ) → j < size → (get_or moves.old (3 * (start + j)) 0 + by < 65536) × (get_or moves.old (3 * (start + j) + 2) 0 + by < 65536) }
    ensures { (vs : List ℕ) → Copied start size by moves.old vs
        → moves.new ≡ sets moves.old (3 * count) vs }
{
    for j in 0..size {
        let from = 3 * (start + j);
        let to = 3 * (count + j);
        let begins = number(moves, from) + by;
        let label = moves[from + 1];
        let ends = number(moves, from + 2) + by;
        moves[to] = begins as u16;
        moves[to + 1] = label;
        moves[to + 2] = ends as u16;
    }
}
