// The reader with the search for repeats that goes rule by rule, as a static library: what the benchmark holds beside `rabbitsteel_read`, whose search
// goes relation by relation.
#![tactic(auto)]

ghost use Rattle.base.specs.Result.{map_result};
ghost use Rattle.book_format.specs.Format.{read};
ghost use Rattle.call_numbers.specs.Tells.{Tells};
ghost use Rattle.rabbitsteel.specs.Calls.{book_counts};

use call_numbers::tell;

// What `rabbitsteel_read` promises.
#[unsafe(no_mangle)]
pub extern "C" fn rabbitsteel_read_by_rule(book: &[u8], first: &mut u64, second: &mut u64) -> u64
    ensures { Tells (map_result book_counts (read book.now)) result first.new second.new 0 }
{
    let told = tell(&book_reader::read_by_rule(book));
    *first = told.first;
    *second = told.second;
    told.cause
}
