// Writes transitions into lent numbers, one after another, as far as there is room, and counts them where there is none.
#![tactic(auto)]

ghost use Rattle.std.specs.Prelude.{◌≡◌};
ghost use Rattle.table_writer.specs.Adding.{one, adds_place, adds_moves, letters_place, letters_moves};

use role_bytes::inverse;

// The next free state and the number of transitions so far. A state above 2,048 says that the tables are too large; nothing more is laid
// then. Transitions are counted up to 60,000, far more than tables of 2,048 states have.
#[derive(Clone, Copy)]
pub struct Place {
    pub state: usize,
    pub count: usize,
}

// Counts one transition if there is to be one, unless the tables are too large already, and writes it where there is room. Its numbers are
// written by their low 16 bits.
pub fn add(
    place: Place,
    present: bool,
    from: usize,
    label: usize,
    to: usize,
    moves: &mut [u16],
) -> Place
    ensures { (result ≡ adds_place (one present from label to) place)
        × (moves.new ≡ adds_moves (one present from label to) place moves.old) }
{
    let state = place.state;
    let count = place.count;
    if !present || 2048 < state || 60000 <= count {
        return place;
    }
    if moves.len() < 3 * count + 3 {
        return Place {
            state,
            count: count + 1,
        };
    }
    moves[3 * count] = (from % 65536) as u16;
    moves[3 * count + 1] = (label % 65536) as u16;
    moves[3 * count + 2] = (to % 65536) as u16;
    Place {
        state,
        count: count + 1,
    }
}

// The two states of a fragment of a role, its letters and its transition back; a state of 2,049 where there is no room for two more.
pub fn letters(
    place: Place,
    role: u8,
    symmetric: bool,
    transitive: bool,
    moves: &mut [u16],
) -> Place
    ensures { (result ≡ letters_place symmetric transitive role place)
        × (moves.new ≡ letters_moves symmetric transitive role place moves.old) }
{
    let initial = place.state;
    if 2046 < initial {
        return Place {
            state: 2049,
            count: place.count,
        };
    }
    let begun = Place {
        state: initial + 2,
        count: place.count,
    };
    let last = initial + 1;
    let first = add(begun, true, initial, role as usize, last, moves);
    let label = inverse(role) as usize;
    let both = add(first, symmetric, initial, label, last, moves);
    add(both, transitive, last, 128, initial, moves)
}
