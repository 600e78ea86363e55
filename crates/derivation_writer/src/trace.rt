// Writes the steps from a role to a chain, leftmost role first.
ghost use Rattle.std.specs.Prelude.{◌≡◌, ◌<◌, ◌≤◌, length};
ghost use Rattle.derivation_charts.specs.Chart.{Found};
ghost use Rattle.derivation_writer.specs.Tracing.{Ready, Pends, Traced, Turned};

use crate::division::{divide, left_of, pair, rule_by, stands};
use derivation_steps::{WrittenStep, put_step};

// How far the writing is: the top of the pending roles, how many links stand, how many steps are written.
#[derive(Clone, Copy)]
struct Place {
    top: usize,
    link: usize,
    step: usize,
}

// Writes the steps from the role to the chain, and returns how many.
pub(crate) fn trace(table: &[u8], chain: &[u8], chart: &[u16], role: u8, steps: &mut [u8]) -> usize
    requires role_lt_roles { (ready : Ready table.now chain.now chart.now) × (role < ready.roles) }
    requires found { Found chart.now 0 (length chain.now) role × (16384 ≤ length steps.old) }
    ensures { (ready : Ready table.now chain.now chart.now) → role < ready.roles
        → Traced ready role steps.old steps.new result }
{
    let mut pending = [0u16; 16];
    walk(table, chain, chart, role, &mut pending, steps)
}

// The same, with room for the pending roles: at first the role itself, for the whole chain.
fn walk(
    table: &[u8],
    chain: &[u8],
    chart: &[u16],
    role: u8,
    pending: &mut [u16],
    steps: &mut [u8],
) -> usize
    requires role_lt_roles { (ready : Ready table.now chain.now chart.now) × (role < ready.roles) }
    requires found { Found chart.now 0 (length chain.now) role × (16384 ≤ length steps.old) × (length pending.old ≡ 16) }
    ensures { (ready : Ready table.now chain.now chart.now) → role < ready.roles
        → Traced ready role steps.old steps.new result }
{
    pending[15] = pair(role, chain.len());
    let mut place = Place {
        top: 15,
        link: 0,
        step: 0,
    };
    while place.top < 16 {
        place = turn(table, chain, chart, place, pending, steps);
    }
    place.step
}

// Passes over the first pending role, where that is the next link, or puts the left side of its rule in its place, by a step more.
fn turn(
    table: &[u8],
    chain: &[u8],
    chart: &[u16],
    place: Place,
    pending: &mut [u16],
    steps: &mut [u8],
) -> Place
    requires pends { (ready : Ready table.now chain.now chart.now) × Pends ready.roles chain.now chart.now pending.old place }
    requires top_bound { (place.top < 16) × (place.step < 4096) × (16384 ≤ length steps.old) }
    ensures { Turned table.now chain.now chart.now steps.old pending.old place
        steps.new pending.new result }
{
    let Place { top, link, step } = place;
    let first = pending[top];
    let end = (first / 128) as usize;
    let role = (first % 128) as u8;
    if stands(chain, link, end, role) {
        return Place {
            top: top + 1,
            link: link + 1,
            step,
        };
    }
    let q = rule_by(chart, link, end, role);
    let written = WrittenStep {
        place: link,
        number: q / 2,
        side: q % 2,
    };
    put_step(steps, step, written);
    let top = divide(chart, left_of(table, q), link, end, pending, top);
    Place {
        top,
        link,
        step: step + 1,
    }
}
