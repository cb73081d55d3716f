// What the kinds are: block sizes and the numbers of streams, spares and free blocks (G3).
ghost use Rattle.std.specs.Prelude.{◌+◌, ◌<◌, ◌≤◌};

use crate::draws::Span;

#[derive(Clone, Copy, Debug, PartialEq, Eq)]
pub enum Kind {
    Rich,
    Common,
    Full,
    NearlyFull,
    Tall,
    Taller,
    ManyStreams,
    MostBlocks,
    Bare,
    InOrder,
    LongNames,
}

impl Kind {
    // s.
    pub fn shifts(self) -> Span
        ensures some { 0 < result.1 }
        ensures range { (6 ≤ result.0) × (result.0 + result.1 ≤ 13) }
    {
        match self {
            Kind::Tall | Kind::Taller | Kind::MostBlocks => Span(6, 1),
            Kind::LongNames => Span(6, 3),
            _ => Span(6, 7),
        }
    }

    // Named streams.
    pub fn named(self) -> Span
        ensures { 0 < result.1 }
    {
        match self {
            Kind::Rich => Span(4, 3),
            Kind::Common | Kind::InOrder => Span(0, 7),
            Kind::Full | Kind::NearlyFull | Kind::MostBlocks => Span(1, 6),
            Kind::Tall | Kind::Taller => Span(1, 4),
            Kind::ManyStreams => Span(250, 6),
            Kind::Bare => Span(0, 1),
            Kind::LongNames => Span(20, 20),
        }
    }

    // Spares; a card of many streams has as many as there is room for.
    pub fn spares(self) -> Span
        ensures { 0 < result.1 }
    {
        match self {
            Kind::Rich => Span(3, 2),
            Kind::Tall | Kind::Taller => Span(0, 3),
            Kind::ManyStreams | Kind::Bare | Kind::LongNames => Span(0, 1),
            _ => Span(0, 5),
        }
    }

    // Free blocks; a card of most blocks has as many as there is room for.
    pub fn free(self) -> Span
        ensures { 0 < result.1 }
    {
        match self {
            Kind::Rich => Span(3, 6),
            Kind::Full | Kind::MostBlocks | Kind::Bare => Span(0, 1),
            Kind::NearlyFull => Span(1, 1),
            _ => Span(0, 9),
        }
    }
}
