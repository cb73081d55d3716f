// Rule 6: the blocks in use, marked stream by stream.
ghost use Rattle.std.specs.Prelude.{◌≡◌, true, ◌++◌, ◌≤◌, length, replicate};
ghost use Rattle.layout.specs.Bytes.{over};
ghost use Rattle.layout.specs.Streams.{table_blocks, table_bytes};
ghost use Rattle.layout.specs.Marks.{mark_ok, mark_set};
ghost use Rattle.layout.specs.Sound.{rule4, rule6};
ghost use Rattle.tables.specs.OnPage.{Reads};
ghost use Rattle.usage.specs.Used.{blocks_of, used_from, InUse};

use blocks::chain::END8;
use blocks::cut::Cut;
use layout::Desc;
use marking::marks::mark_surplus;
use memory::runs::clear;
use stream::descs::{descriptors, table};
use tables::forms::descriptor_at;

// Marks a stream's blocks, by its descriptor; a free one has none.
#[tactic(auto, unfolding(crate::specs::Used::blocks_of, layout::specs::Marks::mark_ok, layout::specs::Marks::mark_set))]
fn mark_one(card: &[u8], s: Cut, t: Desc, marks: &mut [u8]) -> bool
    ensures { (result ≡ mark_ok s.count marks.old (blocks_of card.now s t)) × (marks.new ≡ mark_set s.count marks.old (blocks_of card.now s t)) }
{
    t.top == END8 || mark_surplus(card, s, t.top, t.reserved / s.size, 0, marks)
}

// Marks the blocks of the first `n` streams, by the table's bytes.
fn mark_streams(card: &[u8], s: Cut, tab: &[u8], n: usize, marks: &mut [u8]) -> bool
    requires { n ≤ 65536 }
    ensures { (result ≡ mark_ok s.count marks.old (used_from card.now s tab.now 0 n)) × (marks.new ≡ mark_set s.count marks.old (used_from card.now s tab.now 0 n)) }
{
    for k in 0..n {
        if !mark_one(card, s, descriptor_at(tab, k), marks) {
            return false;
        }
    }
    true
}

// Clears the marks and marks all blocks in use: the table's, and those of its first `n` streams.
fn mark_used(card: &[u8], s: Cut, tab: &[u8], n: usize, marks: &mut [u8]) -> bool
    requires { n ≤ 65536 }
    ensures { (result ≡ mark_ok s.count (over marks.old 0 (replicate s.count 0)) (table_blocks card.now s ++ used_from card.now s tab.now 0 n)) × (marks.new ≡ mark_set s.count (over marks.old 0 (replicate s.count 0)) (table_blocks card.now s ++ used_from card.now s tab.now 0 n)) }
{
    clear(marks, 0, s.count);
    let t = table(card, s);
    mark_surplus(card, s, t.top, t.reserved / s.size, 0, marks)
        && mark_streams(card, s, tab, n, marks)
}

// Rule 6: no block is in two places, and none is out of range. Then the marks hold the blocks in use, for rule 7.
pub fn rule6(card: &[u8], s: Cut, tab: &[u8], marks: &mut [u8]) -> bool
    requires { (rule4 card.now s ≡ true) × Reads tab.now (table_bytes card.now s) × (s.count ≤ length marks.old) }
    ensures { (result ≡ rule6 card.now s) × (result ≡ true → InUse card.now s marks.new) }
{
    mark_used(card, s, tab, descriptors(card, s), marks)
}
