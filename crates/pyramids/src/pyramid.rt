// How many blocks a pyramid has, level by level, where a redirector holds `f` indices.
ghost use Rattle.std.specs.Prelude.{◌≡◌, ◌+◌, ◌-◌, ◌*◌, ◌%◌, ◌^◌, ◌<◌, ◌≤◌};
ghost use Rattle.layout.specs.Pyramid.{up, level, above, height, P, missing};

// `n / f`, rounded up.
pub fn up(f: usize, n: usize) -> usize
    requires { 0 < f }
    ensures { (result ≡ up f n) × (result ≤ n) }
{
    n.div_ceil(f)
}

// The blocks of level `k` over `d` data blocks.
pub fn level(f: usize, k: usize, d: usize) -> usize
    requires { 0 < f }
    ensures { (result ≡ level f k d) × (result ≤ d) }
{
    let mut n = d;
    for _ in 0..k {
        n = up(f, n);
    }
    n
}

// The number that the block above data block `j` has in level `k`.
pub fn above(f: usize, k: usize, j: usize) -> usize
    requires { 0 < f }
    ensures { (result ≡ above f k j) × (result ≤ j) }
{
    let mut n = j;
    for _ in 0..k {
        n /= f;
    }
    n
}

// The levels above `d` data blocks. No `for`: the level that has one block ends it, and no number is counted to.
pub fn height(f: usize, d: usize) -> usize
    requires { 2 ≤ f }
    ensures { (result ≡ height f d) × (result ≤ d) }
{
    let mut n = d;
    let mut h = 0;
    while 1 < n {
        n = up(f, n);
        h += 1;
    }
    h
}

// P(d): all blocks of a pyramid over `d` data blocks, level by level as in `height`.
pub fn needed(f: usize, d: usize) -> usize
    requires { (4 ≤ f) × (d < 2 ^ 62) }
    ensures { (result ≡ P f d) × (result ≤ 2 * d) }
{
    let mut n = d;
    let mut sum = 0;
    while 1 < n {
        sum += n;
        n = up(f, n);
    }
    sum + n
}

// The lowest block above data block `d` that there is, in a pyramid of height `h` over the first `d`: `m` levels above the
// data, number `q` of its level, with slot `i` for the first of the `m` blocks that are missing below it.
#[derive(Clone, Copy)]
pub struct Stem {
    pub m: usize,
    pub q: usize,
    pub i: usize,
}

pub fn find_stem(f: usize, h: usize, d: usize) -> Stem
    requires { (0 < f) × (0 < h) }
    ensures { (result.m ≡ missing f h d) × (result.q ≡ above f (missing f h d) d) × (result.i ≡ above f (missing f h d - 1) d % f) }
{
    let mut i = d % f;
    let mut q = d / f;
    for m in 1..h {
        if i != 0 {
            return Stem { m, q, i };
        }
        i = q % f;
        q /= f;
    }
    Stem { m: h, q, i }
}
