// Checks a written derivation: whether its steps lead from a role to a chain by the rules of a book.
#![tactic(auto)]

ghost use Rattle.std.specs.Prelude.{◌≡◌, ◌*◌, ◌≤◌};
ghost use Rattle.derivation_steps.specs.WrittenSteps.{checked};
ghost use Rattle.book_questions.specs.RuleTable.{Rules, rule_in};
ghost use Rattle.book_questions.specs.Admission.{answers};
ghost use Rattle.derivation_checker.specs.CheckedDerivation.{checked_derivation};
ghost use Rattle.derivation_checker.specs.CheckingRoom.{Roomy};

mod step;

use book_decoder::Header;
use book_questions::admit;
use derivation_steps::step_of;
use refusals::BookQueryRefusal;
use step::apply;
use words::word;

// Whether some bytes, four for each step, are a derivation of a chain from a role by the rules of a book: the first refusal of causes 1 to 8,
// 13, 14, 15 and 17; else yes or no.
pub fn check(book: &[u8], role: u8, chain: &[u8], steps: &[u8]) -> Result<bool, BookQueryRefusal>
    ensures { answers result ≡ checked_derivation book.now role chain.now steps.now }
{
    if word(book, 6) <= 16 {
        check_in::<512>(book, role, chain, steps) // less to clear
    } else {
        check_in::<8192>(book, role, chain, steps)
    }
}

// The same with so much room for the completed rules of the book.
fn check_in<const TABLE: usize>(
    book: &[u8],
    role: u8,
    chain: &[u8],
    steps: &[u8],
) -> Result<bool, BookQueryRefusal>
    requires room { Roomy book.now role chain.now TABLE }
    requires most { TABLE ≤ 8192 }
    ensures { answers result ≡ checked_derivation book.now role chain.now steps.now }
{
    let mut table = [0u8; TABLE];
    let header = admit(book, role, chain, &mut table)?;
    follow(&table, header, role, chain, steps)
}

// Whether the steps lead from the role to the chain by the rules of a table, of a book with such a header.
fn follow(
    table: &[u8],
    header: Header,
    role: u8,
    chain: &[u8],
    steps: &[u8],
) -> Result<bool, BookQueryRefusal>
    requires { Rules table.now header.rules (2 * header.names) }
    ensures { answers result ≡ checked header.rules (rule_in table.now) role chain.now steps.now }
{
    if steps.len() % 4 != 0 {
        return Err(BookQueryRefusal::Uneven);
    }
    let count = steps.len() / 4;
    let mut links = [0u8; 16];
    links[0] = role;
    let mut size = 1;
    for k in 0..count {
        let Some(next) = apply(table, header.rules, step_of(steps, k), &mut links, size) else {
            return Err(BookQueryRefusal::Impossible(k));
        };
        size = next;
    }
    Ok(&links[..size] == chain)
}
