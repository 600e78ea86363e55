// Sets of pairs of a state below some room and a place from 0 to 16, in a lent array: the pair of state q and place k is 32 q + k. The members
// stand in front, in the order in which they came, and at 32 room + x stands the stamp of the last set that the pair x was put into. A new stamp
// makes an empty set.
ghost use Rattle.std.specs.Prelude.{◌≡◌, ◌*◌, ◌<◌};
ghost use Rattle.query_binder.specs.PairSets.{PairSet, Unused, Gains, Renewed};

// Puts a pair into the newest set if it is not in; returns the count.
pub(crate) fn put(pairs: &mut [u16], room: usize, stamp: u16, count: usize, pair: usize) -> usize
    requires pair_set { PairSet room stamp pairs.old count }
    requires pair_bound { pair < 32 * room }
    ensures { Gains room stamp (λ y. y ≡ pair) pairs.old count pairs.new result }
{
    let mark = 32 * room + pair;
    if pairs[mark] == stamp {
        return count;
    }
    pairs[count] = pair as u16;
    pairs[mark] = stamp;
    count + 1
}

// A stamp with more after it, newer than all that stands: the given one, or 1 after the stamps are cleared.
pub(crate) fn renew(pairs: &mut [u16], room: usize, stamp: u16) -> u16
    requires { Unused room stamp pairs.old }
    ensures { Renewed room pairs.new result }
{
    if stamp <= 64000 {
        return stamp;
    }
    pairs[32 * room..].fill(0);
    1
}
