// Cards of which nothing is broken.
use crate::damage::Damage;
use samples::card::Card;
use samples::draws::Draws;
use samples::kinds::Kind;

pub const KINDS: [(&str, Kind); 11] = [
    ("rich", Kind::Rich),
    ("common", Kind::Common),
    ("full", Kind::Full),
    ("nearly-full", Kind::NearlyFull),
    ("tall", Kind::Tall),
    ("taller", Kind::Taller),
    ("many-streams", Kind::ManyStreams),
    ("most-blocks", Kind::MostBlocks),
    ("bare", Kind::Bare),
    ("in-order", Kind::InOrder),
    ("long-names", Kind::LongNames),
];

impl Damage for Kind {
    fn kind(&self, _draws: &Draws) -> Option<Kind> {
        Some(*self)
    }

    fn damage(&self, _card: &mut Card) -> Option<()> {
        Some(())
    }
}
