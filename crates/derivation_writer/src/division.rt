// A role gives way to the left side of its rule: the rule, and the parts of the left roles.
ghost use Rattle.std.specs.Prelude.{◌≡◌, ℕ, ◌+◌, ◌*◌, ◌/◌, ◌%◌, ◌<◌, ◌≤◌, length, get_or, drop};
ghost use Rattle.base.specs.Reflects.{Reflects};
ghost use Rattle.derivation_charts.specs.Chart.{Found, Splits, by};
ghost use Rattle.book_questions.specs.RuleTable.{rule_in};
ghost use Rattle.derivation_writer.specs.Division.{CutAt, Divided};

use derivation_charts::{derives, reach};
use name_sets::{has, single};

// Whether the part from link i to `end` is one link, and that link the role.
pub(crate) fn stands(chain: &[u8], i: usize, end: usize, role: u8) -> bool
    requires { (i < end) × (end ≤ length chain.now) }
    ensures { Reflects result ((end ≡ i + 1) × (get_or chain.now i 0 ≡ role)) }
{
    end - i == 1 && chain[i] == role
}

// The completed rule that a role was found by for a part.
pub(crate) fn rule_by(chart: &[u16], i: usize, end: usize, role: u8) -> usize
    requires { (274 * role + 274 ≤ length chart.now) × (i < end) × (end ≤ 16) }
    ensures { result ≡ by chart.now i end role }
{
    chart[274 * role as usize + 2 + (16 * (end - i) + i)] as usize
}

// The left side of the completed rule q.
pub(crate) fn left_of(table: &[u8], q: usize) -> &[u8]
    requires { (q < 512) × (16 * q + 16 ≤ length table.now) × (get_or table.now (16 * q + 1) 0 ≤ 8) }
    ensures { result.now ≡ (rule_in table.now (q / 2) (q % 2)).left }
{
    let start = 16 * q + 2;
    let end = start + table[16 * q + 1] as usize;
    &table[start..end]
}

// A role still to derive, with the end of its part.
pub(crate) fn pair(role: u8, end: usize) -> u16
    requires { end < 64 }
    ensures { result ≡ 128 * end + role }
{
    (128 * end + role as usize) as u16
}

// Puts the roles of a left side that spells the part from a link to `end`, each with its end, in the place of the pending role at the top. Returns the
// new top.
pub(crate) fn divide(
    chart: &[u16],
    left: &[u8],
    from: usize,
    end: usize,
    pending: &mut [u16],
    top: usize,
) -> usize
    requires left_len_bound { (length left.now ≤ top + 1) × (top < length pending.old) × (end < 64) }
    requires by_index { (k : ℕ) → k < length left.now → get_or left.now k 0 < 128 }
    requires splits { Splits (Found chart.now) left.now from end }
    ensures { Divided chart.now left.now from end pending.old top pending.new result }
{
    if left.len() == 1 {
        pending[top] = pair(left[0], end);
        return top;
    }
    let first = top + 1 - left.len();
    let mut i = from;
    for (t, role) in left.iter().enumerate() {
        i = cut(chart, left, t, i, end);
        pending[first + t] = pair(*role, i);
    }
    first
}

// Where the t-th role of a left side can end, of the part from link i to `end` that it spells with those behind it.
fn cut(chart: &[u16], left: &[u8], t: usize, i: usize, end: usize) -> usize
    requires t_in_bounds { (t < length left.now) × (end < 64) }
    requires splits { Splits (Found chart.now) (drop t left.now) i end }
    ensures { CutAt chart.now left.now t i end result }
{
    if t + 1 == left.len() {
        return end;
    }
    for m in i + 1..end {
        if divides(chart, left, t, i, m, end) {
            return m;
        }
    }
    end
}

// Whether the t-th role of a left side derives the part from link i to m, and those behind it go on from there to `end`.
fn divides(chart: &[u16], left: &[u8], t: usize, i: usize, m: usize, end: usize) -> bool
    requires { (t < length left.now) × (m < 64) }
    ensures { Reflects result (Found chart.now i m (get_or left.now t 0) × Splits (Found chart.now) (drop (t + 1) left.now) m end) }
{
    if !derives(chart, i, m, left[t]) {
        return false;
    }
    match &left[t + 1..] {
        [last] => derives(chart, m, end, *last),
        behind => has(reach(chart, behind, single(m)), end),
    }
}
