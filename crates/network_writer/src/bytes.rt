// Writes links as bytes, 1 for a link and 0 for none: for each name, from-place and to-place in this order.
ghost use Rattle.std.specs.Prelude.{true, ◌≡◌, ◌+◌, ◌*◌, ◌≤◌, length};
ghost use Rattle.network_writer.specs.RowBytes.{row_bytes, name_bytes, rows_bytes, NoLinks, Puts};

use network_rows::row;

// The links of the first names between the first places, from the front on. Returns where the bytes end.
pub(crate) fn put_network(rows: &[u32], names: usize, places: usize, network: &mut [u8]) -> usize
    requires { (names * (places * places) ≤ length network.old) × (names ≤ 64) × (places ≤ 17) }
    ensures { Puts network.old 0 (rows_bytes rows.now names places) network.new result }
{
    let mut at = 0;
    for x in 0..names {
        at = put_name(rows, 64 * x, places, at, network);
    }
    at
}

// The links of one name, whose rows are those from `front` on. Returns where its bytes end. Most names have none.
fn put_name(rows: &[u32], front: usize, places: usize, start: usize, network: &mut [u8]) -> usize
    requires { (start + places * places ≤ length network.old) × (front ≤ 4096) × (places ≤ 17) }
    ensures { Puts network.old start (name_bytes rows.now front places) network.new result }
{
    if is_empty(rows, front, places) {
        put_zeros(places * places, start, network)
    } else {
        put_rows(rows, front, places, start, network)
    }
}

// Whether there is no link in so many rows from `front` on.
fn is_empty(rows: &[u32], front: usize, places: usize) -> bool
    requires { (front ≤ 4096) × (places ≤ 17) }
    ensures { result ≡ true → NoLinks rows.now front places }
{
    (0..places).all(|from| row(rows, front + from) == 0)
}

// Row by row.
fn put_rows(rows: &[u32], front: usize, places: usize, start: usize, network: &mut [u8]) -> usize
    requires { (start + places * places ≤ length network.old) × (front ≤ 4096) × (places ≤ 17) }
    ensures { Puts network.old start (name_bytes rows.now front places) network.new result }
{
    let mut at = start;
    for from in 0..places {
        at = put_row(row(rows, front + from), places, at, network);
    }
    at
}

// The links of one name from one place, as a set. Returns where its bytes end. Most sets are empty.
fn put_row(set: u64, places: usize, start: usize, network: &mut [u8]) -> usize
    requires { (start + places ≤ length network.old) × (places ≤ 17) }
    ensures { Puts network.old start (row_bytes set places) network.new result }
{
    if set == 0 {
        return put_zeros(places, start, network);
    }
    let mut rest = set;
    for to in 0..places {
        network[start + to] = (rest & 1) as u8;
        rest /= 2;
    }
    start + places
}

// So many zeros. Returns where they end.
fn put_zeros(size: usize, start: usize, network: &mut [u8]) -> usize
    requires { start + size ≤ length network.old }
    ensures { Puts network.old start (row_bytes 0 size) network.new result }
{
    let end = start + size;
    network[start..end].fill(0);
    end
}
