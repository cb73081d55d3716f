// What the benchmark in bench/ calls: functions of the layers from memory to sound, each under a name of its own and with its
// own promise. Where one has a `requires`, the benchmark meets it: its cards are whole, and it made every number itself.
#![tactic(auto)]

ghost use Rattle.std.specs.Prelude.{◌≡◌, ◌+◌, ◌/◌, ◌^◌, ◌<◌, ◌≤◌, length, take, drop, replicate};
ghost use Rattle.layout.specs.Bytes.{over, matches};
ghost use Rattle.layout.specs.Blocks.{node, first_free, enough, taken, grown, surplus, released};
ghost use Rattle.layout.specs.Streams.{contents, laid};
ghost use Rattle.layout.specs.Sound.{broken};
ghost use Rattle.layout.specs.Ranges.{Small};
ghost use Rattle.blocks.specs.Narrow.{Narrow};
ghost use Rattle.blocks.specs.Plain.{plain_shape};
ghost use Rattle.sound.specs.Lowest.{rule_in};
ghost use Rattle.bench.specs.Cuts.{cut};

use blocks::chain::{enough, take_block};
use blocks::cut::Cut;
use blocks::growth::grow;
use blocks::reader::{node, reader};
use laying::gather::gather_part;
use laying::lay::lay;
use layout::Desc;
use layout::answers::Rule;
use marking::marks::release;
use memory::runs::{clear, copy, matches};
use sound::check::{check, check_on};

// The bytes of a table of 256 descriptors.
const LONGEST_TABLE: usize = 6408;

// Sixteen times the marks that a card can need.
const WIDE_MARKS: usize = 65536;

// A card's shape, as far as these layers go by it.
fn cut_of(base: usize, size: usize, count: usize, first: usize) -> Cut
    requires { Narrow (cut base size count first) }
    ensures { result ≡ cut base size count first }
{
    Cut {
        base,
        size,
        count,
        first,
        table: 0,
        filing: 0,
    }
}

// The number of the lowest broken rule, 0 where there is none.
fn rule_told(verdict: Result<usize, Rule>) -> usize
    ensures { result ≡ rule_in verdict }
{
    match verdict {
        Ok(_) => 0,
        Err(rule) => rule.number(),
    }
}

#[unsafe(no_mangle)]
pub extern "C" fn bench_clear(card: &mut [u8], at: usize, n: usize)
    ensures { card.new ≡ over card.old at (replicate n 0) }
{
    clear(card, at, n);
}

#[unsafe(no_mangle)]
pub extern "C" fn bench_copy(dst: &mut [u8], at: usize, src: &[u8], from: usize, n: usize)
    ensures { dst.new ≡ over dst.old at (take n (drop from src.now)) }
{
    copy(dst, at, src, from, n);
}

#[unsafe(no_mangle)]
pub extern "C" fn bench_matches(card: &[u8], at: usize, run: &[u8]) -> bool
    requires { (at < 4294967296) × (length run.now < 4294967296) }
    ensures { result ≡ matches card.now at run.now }
{
    matches(card, at, run)
}

#[unsafe(no_mangle)]
pub extern "C" fn bench_reader(
    card: &[u8],
    base: usize,
    size: usize,
    b: usize,
    h: usize,
    j: usize,
) -> usize
    requires { (base ≤ 1024) × (64 ≤ size) × (size ≤ 4096) × (length card.now ≤ 4294967296) }
    ensures { result ≡ node card.now (plain_shape base size) b h j }
{
    reader(card, base, size, b, h, j)
}

#[unsafe(no_mangle)]
pub extern "C" fn bench_node(
    card: &[u8],
    base: usize,
    size: usize,
    count: usize,
    first: usize,
    top: usize,
    e: usize,
    j: usize,
) -> usize
    requires { Small card.now (cut base size count first) }
    ensures { result ≡ node card.now (cut base size count first) top e j }
{
    let s = cut_of(base, size, count, first);
    node(card, s, top, e, j)
}

#[unsafe(no_mangle)]
pub extern "C" fn bench_enough(
    card: &[u8],
    base: usize,
    size: usize,
    count: usize,
    first: usize,
    n: usize,
) -> bool
    requires { Small card.now (cut base size count first) }
    ensures { result ≡ enough card.now (cut base size count first) n }
{
    let s = cut_of(base, size, count, first);
    enough(card, s, n)
}

#[unsafe(no_mangle)]
pub extern "C" fn bench_take_block(
    card: &mut [u8],
    base: usize,
    size: usize,
    count: usize,
    first: usize,
) -> usize
    requires { Small card.old (cut base size count first) }
    ensures { (result ≡ first_free card.old (cut base size count first)) × (card.new ≡ taken card.old (cut base size count first)) }
{
    let s = cut_of(base, size, count, first);
    take_block(card, s)
}

#[unsafe(no_mangle)]
pub extern "C" fn bench_grow(
    card: &mut [u8],
    base: usize,
    size: usize,
    count: usize,
    first: usize,
    top: usize,
    d: usize,
    m: usize,
) -> usize
    requires { Small card.old (cut base size count first) × (d < 2 ^ 61) × (m < 2 ^ 61) }
    ensures { (result ≡ (grown card.old (cut base size count first) top d m).top) × (card.new ≡ (grown card.old (cut base size count first) top d m).card) }
{
    let s = cut_of(base, size, count, first);
    grow(card, s, top, d, m)
}

#[unsafe(no_mangle)]
pub extern "C" fn bench_release(
    card: &mut [u8],
    base: usize,
    size: usize,
    count: usize,
    first: usize,
    top: usize,
    d: usize,
    d2: usize,
    marks: &mut [u8],
)
    requires { Small card.old (cut base size count first) × (d < 2 ^ 62) × (d2 < 2 ^ 62) × (count ≤ length marks.old) }
    ensures { card.new ≡ released card.old (cut base size count first) (surplus card.old (cut base size count first) top d d2) }
{
    let s = cut_of(base, size, count, first);
    release(card, s, top, d, d2, marks);
}

#[unsafe(no_mangle)]
pub extern "C" fn bench_gather(
    card: &[u8],
    base: usize,
    size: usize,
    count: usize,
    first: usize,
    top: usize,
    bytes: usize,
    reserved: usize,
    p: usize,
    tray: &mut [u8],
    n: usize,
)
    requires { Small card.now (cut base size count first) }
    ensures { tray.new ≡ over tray.old 0 (take n (drop p (contents card.now (cut base size count first) top (reserved / size) bytes))) }
{
    let s = cut_of(base, size, count, first);
    let t = Desc {
        size: bytes,
        top,
        reserved,
        flags: 0,
    };
    gather_part(&*card, s, t, p, tray, 0, n);
}

#[unsafe(no_mangle)]
pub extern "C" fn bench_lay(
    card: &mut [u8],
    base: usize,
    size: usize,
    count: usize,
    first: usize,
    top: usize,
    h: usize,
    p: usize,
    given: &[u8],
    n: usize,
)
    requires { Small card.old (cut base size count first) × (p < 2 ^ 62) × (n < 2 ^ 62) × (n ≤ length given.now) }
    ensures { card.new ≡ laid card.old (cut base size count first) top h p (take n (drop 0 given.now)) }
{
    let s = cut_of(base, size, count, first);
    lay(card, s, top, h, p, &given[..n]);
}

#[unsafe(no_mangle)]
pub extern "C" fn bench_check(card: &[u8]) -> usize
    ensures { result ≡ broken card.now }
{
    rule_told(check(card))
}

// The same with 65,536 marks, for the test of the stack.
#[unsafe(no_mangle)]
pub extern "C" fn bench_check_wide(card: &[u8]) -> usize
    ensures { result ≡ broken card.now }
{
    let mut tab = [0; LONGEST_TABLE];
    let mut marks = [0; WIDE_MARKS];
    rule_told(check_on(card, &mut tab, &mut marks))
}
