// Rule 5: the descriptors, and the chain of the free ones; it ends on any bytes.
ghost use Rattle.std.specs.Prelude.{◌≡◌, true, ◌≤◌, length, replicate, MatchOption};
ghost use Rattle.layout.specs.Limits.{most_streams};
ghost use Rattle.layout.specs.Bytes.{end8, run, all_b};
ghost use Rattle.layout.specs.Marks.{mark_ok, mark_set};
ghost use Rattle.layout.specs.Streams.{dead, table_bytes};
ghost use Rattle.layout.specs.Sound.{rule4, rule5};
ghost use Rattle.tables.specs.Compared.{right_mark, asked, number_at, spares};
ghost use Rattle.tables.specs.OnPage.{Reads};

use crate::forms::{LENGTH, START, good_forms};
use blocks::chain::END8;
use blocks::cut::Cut;
use laying::gather::gather_stream;
use marking::marks::mark;
use memory::bytes::{byte, number};
use memory::runs::clear;
use stream::descs::{descriptors, table};

// Where a descriptor's top stands in it.
const TOP: usize = 8;

// The bytes of a top, and of an offset.
const WIDTH: usize = 8;

// The number of the descriptor that stands at `x` in the table, where one does.
#[tactic(auto, unfolding(crate::specs::Compared::number_at))]
fn number_at(x: usize) -> Option<usize>
    ensures { MatchOption result (number_at x ≡ end8) (λ k. number_at x ≡ k) }
{
    let p = x.checked_sub(START)?;
    if p % LENGTH != 0 {
        return None;
    }
    Some(p / LENGTH)
}

// Marks the free descriptors along their chain, or finds one that it can't mark.
fn mark_spares(tab: &[u8], n: usize, marks: &mut [u8]) -> bool
    requires { n ≤ 65536 }
    ensures { (result ≡ mark_ok n marks.old (spares tab.now n)) × (marks.new ≡ mark_set n marks.old (spares tab.now n)) }
{
    let mut x = number(tab, 0, WIDTH);
    for _ in 0..n + 1 {
        if x == END8 {
            return true;
        }
        let Some(k) = number_at(x) else {
            return false;
        };
        if !mark(marks, n, k) {
            return false;
        }
        x = number(tab, x, WIDTH);
    }
    true
}

// Whether descriptor `k` is free: by its top alone.
#[tactic(auto, unfolding(layout::specs::Streams::dead, layout::specs::Streams::desc_of, layout::specs::Streams::desc_in))]
fn is_free(tab: &[u8], k: usize) -> bool
    requires { k ≤ 65536 }
    ensures { result ≡ dead tab.now k }
{
    number(tab, START + LENGTH * k + TOP, WIDTH) == END8
}

// Whether descriptor `k` is live, or, if the free ones are asked for, free. `alive` is a bool as in the clause of `right_marks`.
#[tactic(auto, unfolding(layout::specs::Streams::live))]
fn is_asked(tab: &[u8], alive: bool, k: usize) -> bool
    requires { k ≤ 65536 }
    ensures { result ≡ asked tab.now alive k }
{
    is_free(tab, k) != alive
}

// Whether descriptor `k` is marked exactly where it is asked for.
#[tactic(auto, unfolding(crate::specs::Compared::right_mark))]
fn right_mark(tab: &[u8], alive: bool, k: usize, marks: &[u8]) -> bool
    requires { k ≤ 65536 }
    ensures { result ≡ right_mark marks.now (asked tab.now alive) k }
{
    (byte(marks, k) != 0) == is_asked(tab, alive, k)
}

// Whether all of the first `n` descriptors are.
pub fn right_marks(tab: &[u8], alive: bool, n: usize, marks: &[u8]) -> bool
    requires { n ≤ 65536 }
    ensures { result ≡ all_b (right_mark marks.now (asked tab.now alive)) (run 0 n) }
{
    (0..n).all(|k| right_mark(tab, alive, k, marks))
}

// Rule 5: every descriptor is well formed, the chain has the free ones, each once, and descriptor 0 is not one of them. The
// table is read onto a page, where the later rules find it; the marks are lent for the work.
pub fn rule5(card: &[u8], s: Cut, tab: &mut [u8], marks: &mut [u8]) -> bool
    requires { (rule4 card.now s ≡ true) × (tab.old ≡ replicate 6408 0) × (most_streams ≤ length marks.old) }
    ensures { (result ≡ rule5 card.now s) × Reads tab.new (table_bytes card.now s) }
{
    let n = descriptors(card, s);
    gather_stream(card, s, table(card, s), 0, tab);
    if !good_forms(s.shape(), tab, n) {
        return false;
    }
    clear(marks, 0, n);
    mark_spares(tab, n, marks) && right_marks(tab, false, n, marks) && !is_free(tab, 0)
}
