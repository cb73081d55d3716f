// The size of a card's blocks, and what follows from it: where blocks start, and how many a stream has.
ghost use Rattle.std.specs.Prelude.{◌≡◌, ◌+◌, ◌*◌, ◌/◌, ◌^◌, ◌<◌, ◌≤◌, ◌↔◌, IsSome, IfSome};

// The bytes before the first block.
pub const HEADER: u32 = 87;

// The most rows of a pyramid.
pub const ROWS: usize = 4;

#[derive(Clone, Copy)]
pub struct BlockSize {
    pub shift: u8,
    ghost in_range: { (6 ≤ shift) × (shift ≤ 12) },
}

impl BlockSize {
    // None but for an s from 6 to 12.
    pub fn new(shift: usize) -> Option<BlockSize>
        ensures some { IsSome result ↔ ((6 ≤ shift) × (shift ≤ 12)) }
        ensures shift { IfSome result (λ b. b.shift ≡ shift) }
    {
        match u8::try_from(shift) {
            Ok(shift) if 6 <= shift && shift <= 12 => Some(BlockSize { shift }),
            _ => None,
        }
    }

    // z.
    pub fn bytes(self) -> u16
        ensures bytes { result ≡ 2 ^ self.shift }
        ensures low { 64 ≤ result }
        ensures high { result ≤ 4096 }
    {
        1 << self.shift
    }

    // The slots of a block.
    pub fn slots(self) -> u16
        ensures slots { result ≡ 2 ^ self.shift / 4 }
        ensures low { 16 ≤ result }
        ensures high { result ≤ 1024 }
    {
        self.bytes() / 4
    }

    // Where a block starts on the card.
    pub fn start(self, block: u16) -> u32
        ensures start { result ≡ HEADER + block * 2 ^ self.shift }
        ensures high { result < 2 ^ 31 }
    {
        HEADER + u32::from(block) * u32::from(self.bytes())
    }

    // The data blocks of so many bytes; none where they are too many for a card.
    pub fn data_blocks(self, size: u32) -> Option<u16>
        ensures { IfSome result (λ d. size ≤ d * 2 ^ self.shift) }
    {
        u16::try_from(size.div_ceil(u32::from(self.bytes()))).ok()
    }

    // The blocks of the row above one of `width`; none above the top.
    fn above(self, width: u16) -> u16 {
        if width <= 1 {
            0
        } else {
            width.div_ceil(self.slots())
        }
    }

    // The blocks of each row over so many data blocks, which are the lowest row.
    pub fn rows(self, data: u16) -> [u16; ROWS] {
        let low = self.above(data);
        let high = self.above(low);
        [data, low, high, self.above(high)]
    }
}
