// Tables that are lent to the builder.
use refusals::Refusal;

// How many heads and moves a table can have.
pub(crate) const ROOM: usize = 15363;

// How many numbers are heads and moves, and how many states there are.
#[derive(Clone, Copy)]
pub(crate) struct Sizes {
    pub(crate) heads: usize,
    pub(crate) moves: usize,
    pub(crate) states: usize,
}

// Builds a book in tables, or gives the cause of the refusal; then they stay as they are.
pub(crate) fn build(book: &[u8], heads: &mut [u16], moves: &mut [u16]) -> Result<Sizes, usize> {
    match table_builder::build(book, heads, moves) {
        Ok(built) => Ok(Sizes {
            heads: built.names,
            moves: built.transitions.saturating_mul(3),
            states: built.states,
        }),
        Err(refusal) => Err(refusal.cause()),
    }
}

// The first n numbers of a table; none where there are fewer.
pub(crate) fn front(table: &[u16], n: usize) -> &[u16] {
    table.get(..n).unwrap_or(&[])
}
