// What the ten calls begin with: the check, how the card is cut, and where the name is. A call looks for what it must refuse, in
// the order of the list, and then does its act. None asks anything of its caller.
#![tactic(auto)]

ghost use Rattle.std.specs.Prelude.{◌≡◌};
ghost use Rattle.front.specs.Fronts.{examined_of, sought_of};

use blocks::cut::Cut;
use filing::entries::{Found, look_up};
use filing::names::good_name;
use heading::header::shape;
use layout::answers::Refusal;

// L69: the index of the root's stream.
pub const ROOT: usize = 0;

// A card that passed the check: how it is cut, and how many blocks are free.
#[derive(Clone, Copy)]
pub struct Examined {
    pub shape: Cut,
    pub free: usize,
}

// A name sought on such a card: how the card is cut, and where in the root the name is, if it is known.
#[derive(Clone, Copy)]
pub struct Sought {
    pub shape: Cut,
    pub found: Option<Found>,
}

// Any bytes, checked.
pub fn examine(card: &[u8]) -> Result<Examined, Refusal>
    ensures { result ≡ examined_of card.now }
{
    let free = sound::check::check(card)?;
    Ok(Examined {
        shape: Cut::of(shape(card)),
        free,
    })
}

// Any bytes checked, the name judged, and then sought in the root.
pub fn seek(card: &[u8], name: &[u8]) -> Result<Sought, Refusal>
    ensures { result ≡ sought_of card.now name.now }
{
    let shape = examine(card)?.shape;
    if !good_name(name) {
        return Err(Refusal::BadName);
    }
    let found = look_up(card, shape, ROOT, name).ok();
    Ok(Sought { shape, found })
}
