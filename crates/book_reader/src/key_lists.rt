// Keys in lists by their remainders. The keys stand in one array, by their places, and the lists run through another: an entry is one more than a
// key's place, or 0 for none; at x stands the last key with the remainder x, and behind these, for each key, the last one before it with the same remainder.
ghost use Rattle.std.specs.Prelude.{not, ◌≡◌, ◌+◌, ◌%◌, ◌<◌, get_or, set};
ghost use Rattle.linked_lists.specs.LinkedLists.{Latest};
ghost use Rattle.refusals.specs.Check.{check};
ghost use Rattle.book_reader.specs.Entered.{Entered, Listed, among};

use refusals::Check;

// Passed where the key is none of those before the entry `last` of its list.
pub(crate) fn fresh(keys: &[u64], index: &[u16], lists: usize, last: usize, key: u64) -> Check
    requires { Listed lists keys.now index.now last key }
    ensures { result ≡ check (not (among keys.now last key)) }
{
    Check::from(find(keys, index, lists, last, key) == 0)
}

// The entry for the last key before `last` that is this one, or 0.
pub(crate) fn find(keys: &[u64], index: &[u16], lists: usize, last: usize, key: u64) -> usize
    requires { Listed lists keys.now index.now last key }
    ensures { Latest (λ k. get_or keys.now k 0) key last result }
{
    let mut at = last;
    while 0 < at {
        let k = at - 1;
        if keys[k] == key {
            return at;
        }
        at = index[lists + k] as usize;
    }
    0
}

// Enters one more key into its list, after the first `count`.
pub(crate) fn enter(
    keys: &mut [u64],
    index: &mut [u16],
    lists: usize,
    list: usize,
    key: u64,
    count: usize,
)
    requires entered { Entered lists keys.old index.old count }
    requires list_value { list ≡ key % lists }
    requires list_lt_lists { list < lists }
    requires count_bound { count < 256 }
    ensures keys { keys.new ≡ set keys.old count key }
    ensures lists { Entered lists keys.new index.new (count + 1) }
{
    keys[count] = key;
    index[lists + count] = index[list];
    index[list] = (count + 1) as u16;
}
