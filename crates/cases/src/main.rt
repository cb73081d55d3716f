// Damaged and scrambled cards, made as docs/CASES.md describes, each put to the check. For each card a line: the clause that it
// breaks, its number, the rule that the check gives, and the sum of its bytes. What it must write is made by second/.
#![tactic(auto)]

mod chain;
mod damage;
mod descriptors;
mod fixed;
mod forms;
mod indices;
mod lengths;
mod own;
mod root;
mod slots;
mod stream_pyramids;
mod undamaged;

ghost use Rattle.std.specs.Prelude.{◌<◌, ◌≤◌, length};

use damage::Damage;
use dice::sums::sum;
use layout::answers::Rule;
use samples::card::Card;
use samples::draft::Draft;
use samples::draws::Draws;
use samples::fault::Fault;
use samples::kinds::Kind;
use samples::sizes::BlockSize;
use sound::check::check;
use std::alloc::Global;
use std::io;

// How many cards are made of a kind, and how many of a clause.
const OF_KIND: usize = 70;

const OF_CLAUSE: usize = 21;

// What stands for a sound card in place of a rule's number.
const SOUND: usize = 0;

// The number of the lowest rule that a card breaks.
fn broken(card: &[u8]) -> usize {
    match check(card) {
        Ok(_) => SOUND,
        Err(rule) => rule.number(),
    }
}

// The block size of a card.
fn block_of<D: Damage>(damage: &D, kind: Kind, draws: &Draws) -> Option<BlockSize> {
    BlockSize::new(draws.turn_in(damage.shifts(kind))?)
}

// Makes the card of a clause that has these draws.
fn damaged<D: Damage>(alloc: Global, damage: &D, draws: Draws) -> Result<Card, Fault> {
    let kind = damage.kind(&draws).ok_or(Fault::NoSuchPart)?;
    let block = block_of(damage, kind, &draws).ok_or(Fault::NoSuchPart)?;
    let mut plan = Draft { draws, kind, block }.plan(alloc)?;
    damage.change(&mut plan).ok_or(Fault::NoSuchPart)?;
    let mut card = Card::new(alloc, plan)?;
    damage.damage(&mut card).ok_or(Fault::NoSuchPart)?;
    Ok(card)
}

// A fault as the system would tell it.
fn told(fault: Fault) -> io::Error {
    match fault {
        Fault::OutOfMemory => io::Error::from(io::ErrorKind::OutOfMemory),
        Fault::NoSuchPart => io::Error::other("the card has no such part"),
    }
}

// Makes a card, and writes its line.
fn write_card<D: Damage>(
    rt: &impl Print,
    alloc: Global,
    (name, damage): &(&str, D),
    state: usize,
    i: usize,
) -> io::Result<()> {
    let card = damaged(alloc, damage, Draws::new(state, i)).map_err(|fault| told(fault))?;
    let shown = card.image.shown().ok_or_else(|| told(Fault::NoSuchPart))?;
    println!(rt; "{name} {i} {} {}", broken(shown), sum(0, 256, shown))?;
    Ok(())
}

// Makes the cards of a rule's clauses, or those of all kinds; each card has a state of its own (G2).
fn write_cards<D: Damage>(
    rt: &impl Print,
    alloc: Global,
    rule: usize,
    clauses: &[(&str, D)],
    cards: usize,
) -> io::Result<()>
    requires { (rule ≤ 8) × (length clauses.now ≤ 100) × (cards ≤ 100) }
{
    for (k, clause) in clauses.iter().enumerate() {
        for i in 0..cards {
            let state = 1 + 1000 * (100 * rule + k) + i;
            write_card(rt, alloc, clause, state, i)?;
        }
    }
    Ok(())
}

// Makes the cards that break a rule.
fn write_rule<D: Damage>(
    rt: &impl Print,
    alloc: Global,
    rule: Rule,
    clauses: &[(&str, D)],
) -> io::Result<()>
    requires { length clauses.now ≤ 100 }
{
    write_cards(rt, alloc, rule.number(), clauses, OF_CLAUSE)
}

fn main(rt: HostRuntime) -> io::Result<()> {
    let alloc = rt.alloc();
    write_cards(&rt, alloc, SOUND, &undamaged::KINDS, OF_KIND)?;
    write_rule(&rt, alloc, Rule::Length, &lengths::SHORT)?;
    write_rule(&rt, alloc, Rule::FixedValues, &fixed::FIXED)?;
    write_rule(&rt, alloc, Rule::Blocks, &lengths::MISFITS)?;
    write_rule(&rt, alloc, Rule::Table, &own::OWN)?;
    write_rule(&rt, alloc, Rule::Descriptors, &descriptors::DESCRIPTORS)?;
    write_rule(&rt, alloc, Rule::Pyramids, &stream_pyramids::PYRAMIDS)?;
    write_rule(&rt, alloc, Rule::FreeChain, &chain::CHAIN)?;
    write_rule(&rt, alloc, Rule::Root, &root::ROOT)
}
