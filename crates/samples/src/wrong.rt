// Wrong values, the nearest ones and those that a short look takes for right (G9); `x` is the right one.
ghost use Rattle.std.specs.Prelude.{◌≢◌, ◌<◌, ◌≤◌, IfSome, All};

use crate::draws::{Draws, Value};

pub const FF4: u64 = 0xffff_ffff;

pub const FF8: u64 = 0xffff_ffff_ffff_ffff;

pub const TWO_16: u64 = 1 << 16;

pub const TWO_24: u64 = 1 << 24;

pub const TWO_31: u64 = 1 << 31;

pub const TWO_32: u64 = 1 << 32;

pub const TWO_63: u64 = 1 << 63;

impl Draws {
    // Flags.
    pub fn wrong_flags(&mut self) -> Option<u64> {
        self.value_of(&[
            Value::Is(1),
            Value::Is(128),
            Value::Is(255),
            Value::Drawn(1, 255),
        ])
    }

    // Reserved, with blocks of `z` bytes.
    pub fn wrong_reserved(&self, x: u32, z: u16) -> Option<u64>
        ensures { 0 < x → 0 < z → IfSome result (λ v. v ≢ x) }
    {
        let x = u64::from(x);
        let z = u64::from(z);
        self.turn_of(&[
            x + 1,
            x.saturating_sub(1),
            x + z,
            x.saturating_sub(z),
            x + TWO_32,
            x + TWO_63,
        ])
    }

    // What is not 0, with blocks of `z` bytes.
    pub fn not_zero(&self, z: u16) -> Option<u64>
        ensures { 0 < z → IfSome result (λ v. v ≢ 0) }
    {
        self.turn_of(&[1, u64::from(z), TWO_32, TWO_63, FF8])
    }

    // A block in 8 bytes, on a card of `count` blocks.
    pub fn wrong_block(&self, x: u16, count: u16) -> Option<u64>
        ensures { IfSome result (λ v. count ≤ v) }
    {
        let values = wrong_blocks(x, count);
        let (_, others) = values.split_last()?;
        self.turn_of(others)
    }

    // The same, or what ends a chain.
    pub fn wrong_block_or_none(&self, x: u16, count: u16) -> Option<u64>
        ensures { IfSome result (λ v. count ≤ v) }
    {
        self.turn_of(&wrong_blocks(x, count))
    }

    // A block in a slot.
    pub fn wrong_slot(&self, x: u16, count: u16) -> Option<u64>
        ensures { IfSome result (λ v. count ≤ v) }
    {
        let x = u64::from(x);
        let count = u64::from(count);
        self.turn_of(&[count, count + 1, x + TWO_31, FF4, x + TWO_16])
    }

    // A block in a link.
    pub fn wrong_link(&mut self, x: u16, count: u16) -> Option<u64> {
        self.beyond(u32::from(x), count, FF4 - 1)
    }

    // An index in an entry, where the table has `n` descriptors.
    pub fn wrong_index(&mut self, x: u32, n: u16) -> Option<u32> {
        let v = self.beyond(x, n, FF4)?;
        u32::try_from(v).ok()
    }

    // A number beyond the `n` that there are.
    fn beyond(&mut self, x: u32, n: u16, high: u64) -> Option<u64> {
        let x = u64::from(x);
        self.value_of(&[
            Value::Is(u64::from(n)),
            Value::Drawn(u32::from(n) + 1, 1000),
            Value::Is(x + TWO_31),
            Value::Is(high),
            Value::Is(x + TWO_16),
        ])
    }

    // An offset in the table, which ends at `end`.
    pub fn wrong_offset(&self, x: u32, end: u32) -> Option<u64>
        ensures { 0 < x → x < end → IfSome result (λ v. v ≢ x) }
    {
        self.turn_of(&wrong_offsets(x, end))
    }
}

// Blocks that are wrong in 8 bytes, and what ends a chain.
fn wrong_blocks(x: u16, count: u16) -> [u64; 9]
    ensures { All (λ v. count ≤ v) result }
{
    let x = u64::from(x);
    let count = u64::from(count);
    [
        count,
        count + 1,
        x + TWO_32,
        x + TWO_63,
        FF4,
        FF8 - 1,
        x + TWO_16,
        x + TWO_24,
        FF8,
    ]
}

// Offsets that are wrong in a table that ends at `end`.
fn wrong_offsets(x: u32, end: u32) -> [u64; 8]
    ensures { 0 < x → x < end → All (λ v. v ≢ x) result }
{
    let x = u64::from(x);
    [
        x + 1,
        x.saturating_sub(1),
        0,
        u64::from(end),
        x + TWO_32,
        FF4,
        x + TWO_63,
        FF8 - 1,
    ]
}
