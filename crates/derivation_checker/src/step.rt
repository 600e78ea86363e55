// One step of a written derivation, taken on a chain in place.
ghost use Rattle.std.specs.Prelude.{◌+◌, ◌<◌, ◌≤◌, length, take};
ghost use Rattle.book_questions.specs.RuleTable.{rule_in};
ghost use Rattle.derivation_checker.specs.Applied.{Inserted, Ready, Applied};

use derivation_steps::WrittenStep;

// Takes a step on the chain that is the first `size` links: the new size, or none where the step is impossible. The table has so many rules.
pub(crate) fn apply(
    table: &[u8],
    rules: usize,
    step: WrittenStep,
    links: &mut [u8],
    size: usize,
) -> Option<usize>
    requires { Ready table.now rules links.old size }
    ensures { Applied rules (rule_in table.now) step (take size links.old) links.new result }
{
    let WrittenStep {
        place,
        number,
        side,
    } = step;
    if size <= place || rules <= number || 1 < side {
        return None;
    }
    let at = 32 * number + 16 * side;
    if links[place] != table[at] {
        return None;
    }
    let count = table[at + 1] as usize;
    if count == 1 {
        links[place] = table[at + 2];
        return Some(size);
    }
    if 17 < size + count {
        return None;
    }
    let start = at + 2;
    insert(links, size, place, &table[start..start + count]);
    Some(size + count - 1)
}

// Puts a left side in the place of one link of the chain that is the first `size` links.
fn insert(links: &mut [u8], size: usize, place: usize, left: &[u8])
    requires place_lt_size { place < size }
    requires in_bounds { 1 ≤ length left.now }
    requires left_in_bounds { size + length left.now ≤ length links.old + 1 }
    ensures { Inserted links.old size place left.now links.new }
{
    let end = place + left.len();
    links.copy_within(place + 1..size, end);
    links[place..end].copy_from_slice(left);
}
