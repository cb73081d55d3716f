// What a descriptor must look like, by itself.
ghost use Rattle.std.specs.Prelude.{◌≡◌, not, ◌≤◌, eqb};
ghost use Rattle.layout.specs.Bytes.{pick, end8, run, all_b};
ghost use Rattle.layout.specs.Streams.{desc_of};
ghost use Rattle.layout.specs.Sound.{right_desc, live_form, free_form, good_form};

use blocks::chain::END8;
use layout::{Desc, Shape};
use pyramids::pyramid::up;
use stream::descs::descriptor;

// Where the table's descriptors start.
pub const START: usize = 8;

// The bytes of a descriptor.
pub const LENGTH: usize = 25;

// Descriptor `k`, by the table's bytes.
#[tactic(auto, unfolding(layout::specs::Streams::desc_of))]
pub fn descriptor_at(tab: &[u8], k: usize) -> Desc
    requires { k ≤ 65536 }
    ensures { result ≡ desc_of tab.now k }
{
    descriptor(tab, START + LENGTH * k)
}

// These promise on any shape with blocks of 64 bytes at least, as they ever did, and so take no Cut.

// Flags and reserved are right, and there are no more data blocks than the card has blocks. What is reserved is compared by
// blocks and by rest, so that no product can be too large.
#[tactic(auto, using(crate::proofs::Shaped::reserve_is), unfolding(layout::specs::Sound::right_desc))]
pub fn right_desc(s: Shape, t: Desc) -> bool
    requires { 64 ≤ s.size }
    ensures { result ≡ right_desc s t }
{
    let d = t.reserved / s.size;
    t.flags == 0 && d <= s.count && up(s.size, t.size) == d && t.reserved % s.size == 0
}

// The descriptor of a stream: a stream of no blocks has top 0.
#[tactic(auto, unfolding(layout::specs::Sound::live_form))]
pub fn live_form(s: Shape, t: Desc) -> bool
    requires { 64 ≤ s.size }
    ensures { result ≡ live_form s t }
{
    right_desc(s, t) && (t.reserved / s.size != 0 || t.top == 0)
}

// A free descriptor: its size is the chain's to judge.
#[tactic(auto, unfolding(layout::specs::Sound::free_form))]
pub fn free_form(t: Desc) -> bool
    ensures { result ≡ free_form t }
{
    t.reserved == 0 && t.flags == 0
}

// Any descriptor: one with all bits of its top set is free.
pub fn good_form(s: Shape, t: Desc) -> bool
    requires { 64 ≤ s.size }
    ensures { result ≡ pick (not (eqb t.top end8)) (live_form s t) (free_form t) }
{
    if t.top == END8 {
        free_form(t)
    } else {
        live_form(s, t)
    }
}

// The first `n` descriptors in the table's bytes are well formed.
pub fn good_forms(s: Shape, tab: &[u8], n: usize) -> bool
    requires { (64 ≤ s.size) × (n ≤ 65536) }
    ensures { result ≡ all_b (good_form s tab.now) (run 0 n) }
{
    (0..n).all(|k| good_form(s, descriptor_at(tab, k)))
}
