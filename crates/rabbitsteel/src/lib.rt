// The calls for programs in C and Rust, which `rabbitsteel_c` exports. Each returns the number of the cause that refuses its input, or 0, and stores
// in the numbers lent to it what it tells: counts or an answer, or what document 01 gives beside the cause.
#![tactic(auto)]

ghost use Rattle.book_format.specs.Format.{read};
ghost use Rattle.base.specs.Result.{map_result};
ghost use Rattle.call_numbers.specs.Tells.{Tells, bit};
ghost use Rattle.derivation_checker.specs.CheckedDerivation.{checked_derivation};
ghost use Rattle.rabbitsteel.specs.Calls.{TellsOrder, TellsBuild, TellsAnswer, TellsDerived, TellsDerivation, TellsBinding, book_counts};

use byte_parts::copy;
use call_numbers::tell;

// Causes 1 to 7. Passed: how many names and how many rules the book has. Refused: the value beside the cause, and 0.
pub fn rabbitsteel_read(book: &[u8], first: &mut u64, second: &mut u64) -> u64
    ensures { Tells (map_result book_counts (read book.now)) result first.new second.new 0 }
{
    let told = tell(&book_reader::read(book));
    *first = told.first;
    *second = told.second;
    told.cause
}

// Causes 1 to 8. Passed: how many names and how many rules the book has, and its depth; the first levels, one to a name, are written, as many as
// are lent. Refused: the value beside the cause, and 0 twice; the levels are left as they were.
pub fn rabbitsteel_order(
    book: &[u8],
    levels: &mut [u8],
    first: &mut u64,
    second: &mut u64,
    third: &mut u64,
) -> u64
    ensures { TellsOrder book.now levels.old levels.new result first.new second.new
        third.new }
{
    let ordering = order_checker::order(book);
    if let Ok(found) = &ordering {
        copy(&found.levels, found.header.names, levels);
    }
    let told = tell(&ordering);
    *first = told.first;
    *second = told.second;
    *third = told.third;
    told.cause
}

// Causes 1 to 11, and the tables. Built: how many states and how many transitions they have, and the depth of the book. Refused: the value beside
// the cause, 0 and 0; heads and moves are left as they were.
pub fn rabbitsteel_build(
    book: &[u8],
    heads: &mut [u16],
    moves: &mut [u16],
    first: &mut u64,
    second: &mut u64,
    third: &mut u64,
) -> u64
    ensures { TellsBuild book.now heads.old moves.old heads.new moves.new result
        first.new second.new third.new }
{
    let told = tell(&table_builder::build(book, heads, moves));
    *first = told.first;
    *second = told.second;
    *third = told.third;
    told.cause
}

// Causes 12 to 14, and the answer of any tables: 1 for yes, 0 for no. Refused: 0.
pub fn rabbitsteel_ask(
    heads: &[u16],
    moves: &[u16],
    role: u8,
    chain: &[u8],
    answer: &mut u64,
) -> u64
    ensures { TellsAnswer heads.now moves.now role chain.now result answer.new }
{
    let told = tell(&query_answerer::ask(heads, moves, role, chain));
    *answer = told.first;
    told.cause
}

// Builds and asks: causes 1 to 14, and the answer by derivation, 1 for yes, 0 for no. Refused: the value beside the cause, and the tables keep
// what they held.
pub fn rabbitsteel_derived(
    book: &[u8],
    heads: &mut [u16],
    moves: &mut [u16],
    role: u8,
    chain: &[u8],
    answer: &mut u64,
) -> u64
    ensures { TellsDerived book.now heads.old moves.old role chain.now heads.new
        moves.new result answer.new }
{
    let told = tell(&query_deriver::derived(book, heads, moves, role, chain));
    *answer = told.first;
    told.cause
}

// Writes a derivation of the chain from the role by the rules of the book: steps of four bytes. Causes 1 to 8 and 13 to 16. Derived: 1, and how many steps are
// written. Not derived: 0 and 0. Refused: the value beside the cause, and 0. The bytes behind the steps are left as they were, and all of them where no
// steps are written.
pub fn rabbitsteel_write_derivation(
    book: &[u8],
    role: u8,
    chain: &[u8],
    steps: &mut [u8],
    first: &mut u64,
    second: &mut u64,
) -> u64
    ensures { TellsDerivation book.now role chain.now steps.old steps.new result first.new
        second.new }
{
    let told = tell(&derivation_writer::write(book, role, chain, steps));
    *first = told.first;
    *second = told.second;
    told.cause
}

// Whether the steps are a derivation of the chain from the role by the rules of the book: 1 for yes, 0 for no. Causes 1 to 8, 13 to 15 and 17. Refused: the value
// beside the cause.
pub fn rabbitsteel_check_derivation(
    book: &[u8],
    role: u8,
    chain: &[u8],
    steps: &[u8],
    answer: &mut u64,
) -> u64
    ensures { Tells (map_result bit (checked_derivation book.now role chain.now steps.now)) result answer.new 0 0 }
{
    let told = tell(&derivation_checker::check(book, role, chain, steps));
    *answer = told.first;
    told.cause
}

// Whether the chain binds the role by the rules of the book: 1 for yes, 0 for no. Causes 1 to 8 and 13 to 16. Refused: the value beside the cause. No: the network
// of the links that the rules force on the chain is written, a byte for each name, from-place and to-place in this order. The bytes behind it are left as
// they were, and all of them where none is written.
pub fn rabbitsteel_binds(
    book: &[u8],
    role: u8,
    chain: &[u8],
    network: &mut [u8],
    answer: &mut u64,
) -> u64
    ensures { TellsBinding book.now role chain.now network.old network.new result answer.new }
{
    let told = tell(&network_writer::bind(book, role, chain, network));
    *answer = told.first;
    told.cause
}
