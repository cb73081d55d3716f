// The check: the lowest broken rule of any bytes, or how many blocks are free where there is none.
ghost use Rattle.std.specs.Prelude.{◌≡◌, ◌≤◌, length, replicate};
ghost use Rattle.layout.specs.Limits.{most_blocks};
ghost use Rattle.layout.specs.Sound.{broken};
ghost use Rattle.sound.specs.Lowest.{verdict_in, rule_in, free_in, free_of};

use blocks::cut::Cut;
use heading::header::{rule1, rule2, rule3, shape};
use layout::answers::Rule;
use layout::limits::MOST_BLOCKS;
use naming::root::rule8;
use tables::spare::rule5;
use tables::table::{LONGEST, rule4};
use usage::free::rule7;
use usage::used::rule6;

// Rules 4 to 8. The page and the marks are lent for the work.
fn check_shaped(card: &[u8], s: Cut, tab: &mut [u8], marks: &mut [u8]) -> Result<usize, Rule>
    requires { (tab.old ≡ replicate 6408 0) × (most_blocks ≤ length marks.old) }
    ensures { result ≡ verdict_in card.now s }
{
    if !rule4(&*card, s, marks) {
        return Err(Rule::Table);
    }
    if !rule5(&*card, s, tab, marks) {
        return Err(Rule::Descriptors);
    }
    if !rule6(&*card, s, &*tab, marks) {
        return Err(Rule::Pyramids);
    }
    let free = rule7(&*card, s, marks).ok_or(Rule::FreeChain)?;
    if !rule8(&*card, s, &*tab, marks) {
        return Err(Rule::Root);
    }
    Ok(free)
}

// Any bytes, rule by rule: how many blocks are free, or the lowest broken rule. The page and the marks are lent for the work.
#[tactic(auto, using(crate::proofs::Lowest::shift_low), unfolding(layout::specs::Sound::broken, crate::specs::Lowest::free_of))]
pub fn check_on(card: &[u8], tab: &mut [u8], marks: &mut [u8]) -> Result<usize, Rule>
    requires { (tab.old ≡ replicate 6408 0) × (most_blocks ≤ length marks.old) }
    ensures { (rule_in result ≡ broken card.now) × (free_in result ≡ free_of card.now) }
{
    if !rule1(&*card) {
        return Err(Rule::Length);
    }
    if !rule2(&*card) {
        return Err(Rule::FixedValues);
    }
    if !rule3(&*card) {
        return Err(Rule::Blocks);
    }
    check_shaped(&*card, Cut::of(shape(&*card)), tab, marks)
}

// Any bytes, rule by rule.
pub fn check(card: &[u8]) -> Result<usize, Rule>
    ensures { (rule_in result ≡ broken card.now) × (free_in result ≡ free_of card.now) }
{
    let mut tab = [0; LONGEST];
    let mut marks = [0; MOST_BLOCKS];
    check_on(card, &mut tab, &mut marks)
}
