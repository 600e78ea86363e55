// A shape in numbers, for an index of rules.
ghost use Rattle.std.specs.Prelude.{◌≡◌};
ghost use Rattle.rule_shapes.specs.ShapeNumbers.{numbers};

use crate::Shape;

// The kind, 0 for form 4, 1 for form 5 and 2 for a row; 1 where the row begins, and where it ends, at the final state; and the part of the left
// side that the inner roles are.
#[derive(Clone, Copy)]
pub struct Numbers {
    pub kind: u16,
    pub from: u16,
    pub to: u16,
    pub start: usize,
    pub size: usize,
}

// The numbers of a shape.
pub fn numbers_of(shape: Shape) -> Numbers
    ensures { result ≡ numbers shape }
{
    match shape {
        Shape::Transitive => bare(0),
        Shape::Symmetric => bare(1),
        Shape::Row(row) => Numbers {
            kind: 2,
            from: row.from as u16,
            to: row.to as u16,
            start: row.start,
            size: row.size,
        },
    }
}

// No inner roles.
fn bare(kind: u16) -> Numbers
    ensures { result ≡ record { kind = kind; from = 0; to = 0; start = 0; size = 0 } }
{
    Numbers {
        kind,
        from: 0,
        to: 0,
        start: 0,
        size: 0,
    }
}
