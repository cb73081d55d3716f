// Rule 8 broken: the root's entries, their names and what they lead to.
use crate::damage::Damage;
use crate::indices::Index;
use samples::card::Card;
use samples::draws::{Span, Value};
use samples::entries::Entry;
use samples::image::Field;
use samples::kinds::Kind;
use samples::owners::Owner;
use samples::parts::Part;
use samples::plan::Plan;

pub enum Root {
    // The last name is longer than the root has bytes for.
    LastLonger,
    LastLongest,
    // Bytes are left behind the last name.
    LastShorter,
    // The root's size, less or more.
    Cut,
    TooLong,
    // A name of so many bytes.
    Length(&'static [Value]),
    Slash,
    // Two names are the same.
    Equal,
    // One entry more, or another index in an entry.
    Extra(Index),
    Another(Index),
    // Not all named streams have an entry: all but one, or none.
    OneNotNamed,
    NoneNamed,
}

pub const ROOT: [(&str, Root); 20] = [
    ("last-name-cut", Root::LastLonger),
    ("last-name-far-too-long", Root::LastLongest),
    ("bytes-left", Root::LastShorter),
    ("root-cut", Root::Cut),
    ("root-too-long", Root::TooLong),
    ("name-of-none", Root::Length(&[Value::Is(0)])),
    ("name-of-65", Root::Length(&[Value::Is(65)])),
    (
        "name-of-more",
        Root::Length(&[
            Value::Is(66),
            Value::Is(128),
            Value::Is(255),
            Value::Is(256),
            Value::Drawn(257, 64),
        ]),
    ),
    ("name-with-slash", Root::Slash),
    ("equal-names", Root::Equal),
    ("index-twice", Root::Extra(Index::Twice)),
    ("index-of-free", Root::Extra(Index::OfFree)),
    ("index-beyond", Root::Extra(Index::Beyond)),
    ("index-zero", Root::Extra(Index::Zero)),
    ("index-twice-for-another", Root::Another(Index::Twice)),
    ("index-of-free-for-another", Root::Another(Index::OfFree)),
    ("index-beyond-for-another", Root::Another(Index::Beyond)),
    ("index-zero-for-another", Root::Another(Index::Zero)),
    ("one-not-named", Root::OneNotNamed),
    ("none-named", Root::NoneNamed),
];

// A few bytes.
const FEW: Span = Span(1, 5);

// The entry of the last named stream.
fn last_entry(plan: &Plan) -> Option<Entry> {
    let last = plan.streams.named.len().checked_sub(1)?;
    plan.entries.get(last).copied()
}

// The length of the last name, on the card alone.
fn put_last_length(card: &mut Card, entry: Entry, v: u64) -> Option<()> {
    card.put_in_root(entry.length_field()?, v)
}

// The last name's length is more by a few bytes, more by many, or less.
fn last_longer(card: &mut Card) -> Option<()> {
    let entry = last_entry(&card.plan)?;
    let n = u64::from(entry.length) + u64::from(card.plan.draws.one_in(FEW));
    put_last_length(card, entry, n)
}

fn last_longest(card: &mut Card) -> Option<()> {
    let entry = last_entry(&card.plan)?;
    let n = u64::from(entry.length);
    let v = card.plan.draws.turn_of(&[65535, n + 256, n + 32768])?;
    put_last_length(card, entry, v)
}

fn last_shorter(card: &mut Card) -> Option<()> {
    let entry = last_entry(&card.plan)?;
    let by = card.plan.draws.one_in(FEW);
    let n = u32::from(entry.length).checked_sub(by)?;
    put_last_length(card, entry, u64::from(n))
}

// The root's size on the card.
fn put_root_size(card: &mut Card, size: u32) -> Option<()> {
    card.put_part(Owner::Root, Part::Size, u64::from(size))
}

// A barred byte in a name: its first one, its last one or any.
fn slash(card: &mut Card) -> Option<()> {
    let x = card.plan.any_entry();
    let entry = *card.plan.entries.get(x)?;
    let n = entry.length;
    let p = card.plan.draws.value_of(&[
        Value::Is(0),
        Value::Is(u64::from(n.checked_sub(1)?)),
        Value::Drawn(0, n),
    ])?;
    let at = entry.name_place(u16::try_from(p).ok()?)?;
    card.put_in_root(Field { at, width: 1 }, u64::from(b'/'))
}

// The one name goes into the other.
fn same_name(card: &mut Card) -> Option<()> {
    let (from, to) = card.plan.twins?;
    let from = *card.plan.entries.get(from)?;
    let to = *card.plan.entries.get(to)?;
    let root = &card.plan.streams.root;
    for p in 0..from.length {
        let byte = card.image.byte_in(root, from.name_place(p)?)?;
        card.image.put_byte_in(root, to.name_place(p)?, byte)?;
    }
    Some(())
}

// A name of another length.
fn change_length(plan: &mut Plan, values: &[Value]) -> Option<()> {
    let x = plan.any_entry();
    let v = plan.draws.value_of(values)?;
    plan.entries.get_mut(x)?.length = u16::try_from(v).ok()?;
    Some(())
}

// Two names of one length, which are to be the same.
fn change_to_equal(plan: &mut Plan) -> Option<()> {
    let m = plan.streams.named.len();
    let x = plan.any_entry();
    let step = plan.draws.below(m.checked_sub(1)?) as usize;
    let y = x.checked_add(1 + step)?.checked_rem(m)?;
    let n = plan.entries.get(x)?.length;
    let v = plan.draws.turn_of(&[n, 1, 64])?;
    plan.entries.get_mut(x)?.length = v;
    plan.entries.get_mut(y)?.length = v;
    plan.twins = Some((x, y));
    Some(())
}

impl Damage for Root {
    fn shifts(&self, kind: Kind) -> Span {
        match self {
            Root::Cut | Root::TooLong => Span(9, 4),
            _ => kind.shifts(),
        }
    }

    fn change(&self, plan: &mut Plan) -> Option<()> {
        match self {
            Root::Length(values) => change_length(plan, values),
            Root::Equal => change_to_equal(plan),
            Root::Extra(index) => index.add(plan),
            Root::Another(index) => index.change(plan),
            Root::OneNotNamed => {
                plan.listed = plan.listed.checked_sub(1)?;
                Some(())
            }
            Root::NoneNamed => {
                plan.listed = 0;
                Some(())
            }
            _ => Some(()),
        }
    }

    fn damage(&self, card: &mut Card) -> Option<()> {
        match self {
            Root::LastLonger => last_longer(card),
            Root::LastLongest => last_longest(card),
            Root::LastShorter => last_shorter(card),
            Root::Cut => {
                let by = card.plan.draws.one_in(FEW);
                let size = card.plan.streams.root.size.checked_sub(by)?;
                put_root_size(card, size)
            }
            Root::TooLong => {
                let by = card.plan.draws.one_in(FEW);
                let size = card.plan.streams.root.size.checked_add(by)?;
                put_root_size(card, size)
            }
            Root::Slash => slash(card),
            Root::Equal => same_name(card),
            _ => Some(()),
        }
    }
}
