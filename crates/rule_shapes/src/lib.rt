// The shape of a rule, by its letters: which of document 01's five forms it can have, and where its inner roles lie in its left side;
// and a shape in numbers.
#![tactic(auto)]

ghost use Rattle.std.specs.Prelude.{true, false, ◌≡◌};
ghost use Rattle.rule_shapes.specs.FoundShape.{shape_found};

mod numbers;

pub use numbers::{Numbers, numbers_of};
use role_bytes::inverse;

#[derive(Clone, Copy)]
pub enum Shape {
    // Form 4, R R to R.
    Transitive,
    // Form 5, inv(R) to R.
    Symmetric,
    // Forms 1, 2 and 3.
    Row(Row),
}

// The inner roles of a rule, a part of its left side, and the states that they stand between: true for final, false for initial.
#[derive(Clone, Copy)]
pub struct Row {
    pub from: bool,
    pub to: bool,
    pub start: usize,
    pub size: usize,
}

// The shape of a rule with a left side and a right role. Inner roles begin after the first left role in form 2, and with it in forms 1 and 3. The row
// of a rule without a left role is empty.
pub fn shape_of(left: &[u8], right: u8) -> Shape
    ensures { result ≡ shape_found left.now right }
{
    let size = left.len();
    match left {
        [] => plain(size),
        [only] => {
            if *only == inverse(right) {
                Shape::Symmetric
            } else {
                plain(size)
            }
        }
        [first, .., last] => {
            if *first == right && *last == right && size == 2 {
                Shape::Transitive
            } else if *first == right {
                Shape::Row(Row {
                    from: true,
                    to: true,
                    start: 1,
                    size: size - 1,
                })
            } else if *last == right {
                Shape::Row(Row {
                    from: false,
                    to: false,
                    start: 0,
                    size: size - 1,
                })
            } else {
                plain(size)
            }
        }
    }
}

// Form 1: the whole left side, from initial to final.
fn plain(size: usize) -> Shape
    ensures { result ≡ Shape.Row (record { from = false; to = true; start = 0; size = size }) }
{
    Shape::Row(Row {
        from: false,
        to: true,
        start: 0,
        size,
    })
}
