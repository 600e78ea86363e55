// Builds and asks in one call: whether a chain is derived from a role by the rules of a book. Its promise is demand 3 of document 01, whole.
#![tactic(auto)]

ghost use Rattle.std.specs.Prelude.{Err, ◌≡◌, ◌≤◌, length, get_or, take};
ghost use Rattle.base.specs.Result.{and_then};
ghost use Rattle.base.specs.Result.Result.{refused, ok};
ghost use Rattle.book_causes.specs.Accepted.{built};
ghost use Rattle.query_causes.specs.Query.{question, Answered};
ghost use Rattle.refusals.specs.QueryRefusals.{query_cause};
ghost use Rattle.query_deriver.specs.Replies.{says, Replies};

mod refusal;

use byte_parts::byte;
use query_answerer::ask;
use query_checker::check_for;
pub use refusal::DerivedRefusal;
use refusals::QueryRefusal;
use table_builder::build;

// Whether the chain is derived from the role. The tables of the book are built in the lent heads and moves, whatever these held, and stay there;
// where the book or the question is refused, the lent tables are left as they were.
pub fn derived(
    book: &[u8],
    heads: &mut [u16],
    moves: &mut [u16],
    role: u8,
    chain: &[u8],
) -> Result<bool, DerivedRefusal>
    ensures { Replies book.now heads.old moves.old role chain.now heads.new moves.new result }
{
    // The names that the book says it has; 0 where it is too short to say.
    let names = byte(book, 5);
    match check_for(names, role, chain) {
        Ok(()) => decide(book, heads, moves, role, chain),
        Err(refusal) => Err(refuse(book, heads.len(), moves.len(), refusal)),
    }
}

// Why a refused question is refused: causes 1 to 11 come first. They are judged on tables aside, as long as those lent or as any book needs.
fn refuse(book: &[u8], heads: usize, moves: usize, refusal: QueryRefusal) -> DerivedRefusal
    ensures { says (Err result) ≡ and_then (built book.now heads moves) (λ _. refused (query_cause refusal) 0) }
{
    let mut own_heads = [0u16; 64];
    let mut own_moves = [0u16; 15360];
    let few_heads = heads.min(64);
    let few_moves = moves.min(15360);
    match build(
        book,
        &mut own_heads[..few_heads],
        &mut own_moves[..few_moves],
    ) {
        Ok(_) => DerivedRefusal::Question(refusal),
        Err(cause) => DerivedRefusal::Book(cause),
    }
}

// The answer to a question that is not refused, by the tables of the book, built in the lent ones.
fn decide(
    book: &[u8],
    heads: &mut [u16],
    moves: &mut [u16],
    role: u8,
    chain: &[u8],
) -> Result<bool, DerivedRefusal>
    requires { question (get_or book.now 5 0) role chain.now ≡ ok tt }
    ensures { Replies book.now heads.old moves.old role chain.now heads.new moves.new result }
{
    let counts = build(book, heads, moves)?;
    put(
        heads,
        moves,
        counts.names,
        3 * counts.transitions,
        role,
        chain,
    )
}

// The answer of tables to a question: they are the first `names` heads and the first `numbers` moves.
fn put(
    heads: &[u16],
    moves: &[u16],
    names: usize,
    numbers: usize,
    role: u8,
    chain: &[u8],
) -> Result<bool, DerivedRefusal>
    requires names_in_bounds { names ≤ length heads.now }
    requires numbers_in_bounds { numbers ≤ length moves.now }
    ensures { Answered (take names heads.now) (take numbers moves.now) role chain.now (says result) }
{
    let found = ask(&heads[..names], &moves[..numbers], role, chain)?;
    Ok(found)
}
