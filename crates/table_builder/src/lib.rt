// The table builder: causes 1 to 11, and the tables of an accepted book in lent memory.
#![tactic(auto)]

ghost use Rattle.table_builder.specs.Builds.{Builds};

mod lay;
mod memo;

use lay::{count, roots};
use refusals::BuildRefusal;
use rule_index::Indexing;
pub use table_limits::Counts;
use table_limits::limit;

// Builds the tables of a book: the first numbers of heads and moves are written, all others kept; a refusal changes neither. The tables are
// counted first, to learn their sizes, and then laid in the lent memory.
pub fn build(book: &[u8], heads: &mut [u16], moves: &mut [u16]) -> Result<Counts, BuildRefusal>
    ensures { Builds book.now heads.old moves.old heads.new moves.new result }
{
    let mut index = [0u16; 3904];
    let Indexing { header, depth } = rule_index::index(book, &mut index)?;
    let end = count(&index, header.names);
    let counts = limit(
        header,
        end.state,
        end.count,
        depth,
        heads.len(),
        moves.len(),
    )?;
    roots(&index, counts.names, heads, moves);
    Ok(counts)
}
