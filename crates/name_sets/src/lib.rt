// Sets of names as masks of 64 bits: name x is in the set where bit x is set.
#![tactic(auto)]

ghost use Rattle.std.specs.Prelude.{◌≡◌};
ghost use Rattle.std.specs.Int.Bits.{bit_xor};
ghost use Rattle.std.specs.Int.Count.{count_trailing_zeros};
ghost use Rattle.name_sets.specs.Mask.{only};
ghost use Rattle.name_sets.specs.Mask.{has as has_of};

// Whether name x is in the set.
pub fn has(set: u64, x: usize) -> bool
    ensures { result ≡ has_of set x }
{
    x < 64 && (set >> x) & 1 == 1
}

// The set of name x alone; of a number that is no name, none.
pub fn single(x: usize) -> u64
    ensures { result ≡ only x }
{
    if x < 64 { 1 << x } else { 0 }
}

// The set without its lowest name.
pub fn without_lowest(set: u64) -> u64
    ensures { result ≡ bit_xor set (only (count_trailing_zeros 64 set)) }
{
    if set == 0 { 0 } else { set & (set - 1) }
}
