// Checks a question, put to tables or for so many names: the first cause of document 01, 12 to 14, that refuses it.
#![tactic(auto)]

ghost use Rattle.std.specs.Prelude.{◌≡◌, ◌<◌, MatchOption};
ghost use Rattle.query_causes.specs.Query.{question, query};
ghost use Rattle.query_causes.specs.ManyQueries.{names_in, query_for};
ghost use Rattle.query_checker.specs.QueryVerdict.{says};

mod checks;

use checks::{chain_fits, roles_fit, tables_fit};
use refusals::{Check, QueryRefusal};

// Causes 12, 13 and 14, in this order. The value beside each of these causes is 0.
pub fn check(heads: &[u16], moves: &[u16], role: u8, chain: &[u8]) -> Result<(), QueryRefusal>
    ensures { says result ≡ query heads.now moves.now role chain.now }
{
    let count = names_in(heads, moves).ok_or(QueryRefusal::Tables)?;
    check_for(count, role, chain)
}

// Causes 13 and 14, in this order, for so many names.
pub fn check_for(names: u8, role: u8, chain: &[u8]) -> Result<(), QueryRefusal>
    ensures { says result ≡ question names role chain.now }
{
    let Check::Passed = chain_fits(chain) else {
        return Err(QueryRefusal::Chain);
    };
    let Check::Passed = roles_fit(names, role, chain) else {
        return Err(QueryRefusal::Role);
    };
    Ok(())
}

// How many names tables have; none where they do not fit.
pub fn names_in(heads: &[u16], moves: &[u16]) -> Option<u8>
    ensures { MatchOption result (names_in heads.now moves.now ≡ 0) (λ names. (names ≡ names_in heads.now moves.now) × (0 < names)) }
{
    let Check::Passed = tables_fit(heads, moves) else {
        return None;
    };
    Some(heads.len() as u8)
}

// Causes 12, 13 and 14, in this order, for so many names, of which tables that do not fit have none: 0.
pub fn check_named(names: u8, role: u8, chain: &[u8]) -> Result<(), QueryRefusal>
    ensures { says result ≡ query_for names role chain.now }
{
    let Check::Passed = Check::from(0 < names) else {
        return Err(QueryRefusal::Tables);
    };
    check_for(names, role, chain)
}
