// Writes a derivation out: the steps from a role to a chain, from a chart of the roles that derive its parts.
#![tactic(auto)]

ghost use Rattle.std.specs.Prelude.{◌≤◌, length};
ghost use Rattle.roles.specs.Rule.{Book};
ghost use Rattle.derivation_writer.specs.WritesDerivation.{writable, Writes};
ghost use Rattle.derivation_writer.specs.WritingStages.{Roomy, SearchedFor, Gives};

mod division;
mod trace;

use byte_parts::byte;
use derivation_charts::derives;
use derivation_search::find;
use refusals::BookQueryRefusal;
use trace::trace;
use words::word;

// Writes the steps of a derivation of the chain from the role by the rules of a book, four bytes each: the place in 16 bits, low byte first, the rule's
// number, 0 for the rule itself or 1 for its inverse. So many steps are written; none where the chain is not derived. 16,384 bytes are lent at least. The bytes
// behind the steps stay as they were, and all of them where no steps are written. Books of few names and rules are searched in small arrays, which take less
// time to clear.
pub fn write(
    book: &[u8],
    role: u8,
    chain: &[u8],
    steps: &mut [u8],
) -> Result<Option<usize>, BookQueryRefusal>
    ensures { Writes (writable (length steps.old) book.now role chain.now) role chain.now
        steps.old steps.new result }
{
    let names = byte(book, 5);
    let rules = word(book, 6);
    if names <= 4 && rules <= 8 {
        write_in::<256, 2328>(book, role, chain, steps)
    } else if names <= 8 && rules <= 16 {
        write_in::<512, 4656>(book, role, chain, steps)
    } else {
        write_in::<8192, 37248>(book, role, chain, steps)
    }
}

// The same, with so much room for the rules and the chart.
fn write_in<const TABLE: usize, const CHART: usize>(
    book: &[u8],
    role: u8,
    chain: &[u8],
    steps: &mut [u8],
) -> Result<Option<usize>, BookQueryRefusal>
    requires room { Roomy book.now TABLE CHART }
    requires most { (TABLE ≤ 8192) × (CHART ≤ 37248) }
    ensures { Writes (writable (length steps.old) book.now role chain.now) role chain.now
        steps.old steps.new result }
{
    let mut table = [0u8; TABLE];
    let mut chart = [0u16; CHART];
    find(book, role, chain, &mut table, &mut chart)?;
    give(&table, chain, &chart, role, steps)
}

// The same for a chain of which is found which roles derive its parts.
fn give(
    table: &[u8],
    chain: &[u8],
    chart: &[u16],
    role: u8,
    steps: &mut [u8],
) -> Result<Option<usize>, BookQueryRefusal>
    requires { (b : Book) × SearchedFor b role chain.now table.now chart.now }
    ensures { (b : Book) → SearchedFor b role chain.now table.now chart.now
        → Gives b role chain.now steps.old steps.new result }
{
    if steps.len() < 16384 {
        return Err(BookQueryRefusal::Buffer);
    }
    if !derives(chart, 0, chain.len(), role) {
        return Ok(None);
    }
    Ok(Some(trace(table, chain, chart, role, steps)))
}
