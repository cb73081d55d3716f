// Rule 2 broken: a fixed value of the header.
use crate::damage::Damage;
use samples::card::Card;
use samples::draws::Value;

// A field of the header: where it stands, and how many bytes it has.
pub struct Fixed {
    at: usize,
    width: usize,
}

pub const FIXED: [(&str, Fixed); 18] = [
    ("magic", Fixed { at: 0, width: 4 }),
    ("layout-version", Fixed { at: 4, width: 1 }),
    ("header-length", Fixed { at: 5, width: 2 }),
    ("memory-length", Fixed { at: 7, width: 2 }),
    ("memory-name", Fixed { at: 9, width: 6 }),
    ("memory-version", Fixed { at: 15, width: 1 }),
    ("blocks-length", Fixed { at: 16, width: 2 }),
    ("blocks-name", Fixed { at: 18, width: 6 }),
    ("blocks-version", Fixed { at: 24, width: 1 }),
    ("index-width", Fixed { at: 26, width: 1 }),
    ("encryption", Fixed { at: 35, width: 1 }),
    ("stream-length", Fixed { at: 36, width: 2 }),
    ("stream-name", Fixed { at: 38, width: 6 }),
    ("stream-version", Fixed { at: 44, width: 1 }),
    ("filing-length", Fixed { at: 70, width: 2 }),
    ("filing-name", Fixed { at: 72, width: 6 }),
    ("filing-version", Fixed { at: 78, width: 1 }),
    ("root-index", Fixed { at: 79, width: 8 }),
];

// What is added to a byte.
const ADDED: [Value; 4] = [
    Value::Is(1),
    Value::Is(255),
    Value::Is(128),
    Value::Drawn(1, 255),
];

impl Damage for Fixed {
    // The turn goes through the bytes of the field, and then through what is added.
    fn damage(&self, card: &mut Card) -> Option<()> {
        let turn = card.plan.draws.turn;
        let at = self.at.checked_add(turn.checked_rem(self.width)?)?;
        let added = card
            .plan
            .draws
            .value_at(turn.checked_div(self.width)?, &ADDED)?;
        card.image.add(at, u8::try_from(added).ok()?)
    }
}
