// The repeats among the rules of one relation, which are in a list, the last first.
ghost use Rattle.std.specs.Prelude.{◌<◌, ◌≤◌, length};
ghost use Rattle.book_reader.specs.Lowest.{Gathered, Narrowed, Lowered};

use crate::key_lists::{enter, find, fresh};
use refusals::Check;

// The least of `lowest` and the relation's rules that repeat one before them. A long list is split by the remainders of the keys.
pub(crate) fn narrowed(
    keys: &[u64],
    targets: &[u16],
    name: usize,
    size: u16,
    lowest: usize,
) -> usize
    requires gathered { Gathered keys.now targets.now lowest }
    requires name_bound { name < 64 }
    ensures { Narrowed keys.now name lowest result }
{
    if size <= 16 {
        few(keys, targets, name, lowest)
    } else {
        many(keys, targets, name, lowest)
    }
}

// For any number of rules, and fast for few: each rule is compared with all before it in the list.
fn few(keys: &[u64], targets: &[u16], name: usize, lowest: usize) -> usize
    requires gathered { Gathered keys.now targets.now lowest }
    requires name_bound { name < 64 }
    ensures { Narrowed keys.now name lowest result }
{
    let mut least = lowest;
    let mut at = targets[name] as usize;
    while 0 < at {
        let rule = at - 1;
        at = targets[64 + rule] as usize;
        if rule < least {
            if let Check::Failed = fresh(keys, targets, 64, at, keys[rule]) {
                least = rule;
            }
        }
    }
    least
}

// For any number of rules, and fast for many: the keys met, with the numbers of their rules, go into lists by their remainders by 251, and only keys of
// one list are compared. The rules met are later ones, so that the one whose key is met again is the repeat.
fn many(keys: &[u64], targets: &[u16], name: usize, lowest: usize) -> usize
    requires gathered { Gathered keys.now targets.now lowest }
    requires name_bound { name < 64 }
    ensures { Narrowed keys.now name lowest result }
{
    let mut met = [0u64; 256];
    let mut numbers = [0u16; 256];
    let mut index = [0u16; 507];
    let mut count = 0;
    let mut least = lowest;
    let mut at = targets[name] as usize;
    while 0 < at {
        let rule = at - 1;
        let own = keys[rule];
        let list = (own % 251) as usize;
        let last = index[list] as usize;
        least = lower(&numbers, find(&met, &index, 251, last, own), least);
        enter(&mut met, &mut index, 251, list, own, count);
        numbers[count] = rule as u16;
        count += 1;
        at = targets[64 + rule] as usize;
    }
    least
}

// The least of a number and the one that stands before an entry, if it is not 0.
fn lower(numbers: &[u16], entry: usize, lowest: usize) -> usize
    requires { entry ≤ length numbers.now }
    ensures { Lowered numbers.now entry lowest result }
{
    if 0 < entry {
        lowest.min(numbers[entry - 1] as usize)
    } else {
        lowest
    }
}
