// A shape whose numbers are small: what every function works on that reads or writes blocks. In clauses a `Cut` is its Shape.
ghost use Rattle.std.specs.Prelude.{◌≡◌};
ghost use Rattle.layout.specs.declared.Shape.{Shape};
ghost use Rattle.blocks.specs.Narrow.{Narrow};

use layout::Shape;
use std::marker::Model;

#[derive(Clone, Copy)]
pub struct Cut {
    pub base: usize,
    pub size: usize,
    pub count: usize,
    pub first: usize,
    pub table: usize,
    pub filing: usize,
}

impl Model for Cut {
    ghost use Rattle.layout.specs.declared.Shape.{Shape};
    ghost use Rattle.blocks.specs.Narrow.{Narrow};

    ghost Value = { Shape };

    ghost view = { λ s. record { base = s.base; size = s.size; count = s.count; first = s.first; table = s.table; filing = s.filing } };

    ghost invariant = { λ s. Narrow record { base = s.base; size = s.size; count = s.count; first = s.first; table = s.table; filing = s.filing } };

    ghost inverse = { λ s. record { base = s.base; size = s.size; count = s.count; first = s.first; table = s.table; filing = s.filing } };
}

impl Cut {
    // Of a shape whose numbers were tested.
    pub fn of(s: Shape) -> Cut
        requires { Narrow s }
        ensures { result ≡ s }
    {
        Cut {
            base: s.base,
            size: s.size,
            count: s.count,
            first: s.first,
            table: s.table,
            filing: s.filing,
        }
    }

    // The shape that it is, whose numbers are small.
    pub fn shape(self) -> Shape
        ensures { (result ≡ self) × Narrow result }
    {
        Shape {
            base: self.base,
            size: self.size,
            count: self.count,
            first: self.first,
            table: self.table,
            filing: self.filing,
        }
    }
}
