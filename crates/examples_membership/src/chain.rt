// Chains of up to 15 links over roles below 16, each in one number: 4 bits that say how many links it has, then 4 bits a link, the first lowest.
ghost use Rattle.std.specs.Prelude.{◌<◌};

// How many links a chain has.
pub(crate) fn size(chain: u64) -> usize
    ensures { result < 16 }
{
    (chain % 16) as usize
}

// The number of bits below link i.
pub(crate) fn below(i: u64) -> u64
    ensures { result < 64 }
{
    i % 15 * 4 + 4
}

// The chain with one more link at its end.
pub(crate) fn push(chain: u64, role: u64) -> u64 {
    chain.wrapping_add(1) | role << below(chain % 16)
}

// The chain with a part in place of link i.
pub(crate) fn splice(chain: u64, i: u64, part: u64) -> u64 {
    let low = below(i);
    let rest = chain >> low;
    let size = part % 16;
    let links = chain ^ (rest ^ (rest >> 4 << size * 4 | part >> 4)) << low;
    links.wrapping_add(size).wrapping_sub(1)
}

// The links as bytes, and zeros behind them.
pub(crate) fn spelled(chain: u64) -> [u8; 16] {
    let mut bytes = [0; 16];
    let mut links = chain >> 4;
    for byte in &mut bytes {
        *byte = (links % 16) as u8;
        links >>= 4;
    }
    bytes
}
