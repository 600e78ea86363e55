// Causes 12 to 14 of document 01: what a question must be.
ghost use Rattle.std.specs.Prelude.{◌∷◌, ◌≡◌, ◌≤◌, ◌*◌, ◌&&◌, length};
ghost use Rattle.book_format.specs.Format.{named};
ghost use Rattle.query_causes.specs.Query.{transitions_in, heads_fit, transitions_fit, tables_fit, chain_fits};
ghost use Rattle.refusals.specs.Check.{check};
ghost use Rattle.query_simulation.specs.TablesLaws.{fit_from};

use refusals::Check;

// Cause 12: the tables.
pub(crate) fn tables_fit(heads: &[u16], moves: &[u16]) -> Check
    ensures { result ≡ check (tables_fit heads.now moves.now) }
{
    Check::from(
        (1..=64).contains(&heads.len())
            && heads_fit(heads)
            && moves.len() % 3 == 0
            && moves.len() <= 15360
            && transitions_fit(moves),
    )
}

// Whether each initial state is at most 2,046.
fn heads_fit(heads: &[u16]) -> bool
    ensures { result ≡ heads_fit heads.now }
{
    heads.iter().all(|head| *head <= 2046)
}

// Whether each transition has states of at most 2,047 and a label of at most 128, 64 transitions at a time.
fn transitions_fit(moves: &[u16]) -> bool
    ensures { result ≡ transitions_fit (transitions_in moves.now) }
{
    let count = moves.len() / 3;
    for block in 0..count / 64 + 1 {
        let from = (64 * block).min(count);
        if !span_fits(moves, from, (from + 64).min(count)) {
            return false;
        }
    }
    true
}

// The same of those from one number to another, without a branch but the loop's: three in a row take up to four times as long where one comes to lie
// across 32 bytes of code.
fn span_fits(moves: &[u16], from: usize, end: usize) -> bool
    requires from_le_end { from ≤ end }
    requires end_in_bounds { 3 * end ≤ length moves.now }
    ensures { (result && fit_from moves.now (3 * end)) ≡ fit_from moves.now (3 * from) }
{
    let mut fit = true;
    for k in from..end {
        fit = fit & (moves[3 * k] <= 2047) & (moves[3 * k + 1] <= 128) & (moves[3 * k + 2] <= 2047);
    }
    fit
}

// Cause 13: 1 to 1,024 links.
pub(crate) fn chain_fits(chain: &[u8]) -> Check
    ensures { result ≡ check (chain_fits chain.now) }
{
    Check::from((1..=1024).contains(&chain.len()))
}

// Cause 14: the role and each link of the chain have a name below `names`.
pub(crate) fn roles_fit(names: u8, role: u8, chain: &[u8]) -> Check
    ensures { result ≡ check (named names (role ∷ chain.now)) }
{
    let end = 2 * names as usize;
    Check::from((role as usize) < end && chain.iter().all(|link| (*link as usize) < end))
}
