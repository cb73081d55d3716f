// The bytes of a card, with one block more, and how many of them are shown.
ghost use Rattle.std.specs.Prelude.{◌≡◌, ◌+◌, ◌*◌, ◌^◌, ◌<◌, vec_len, take, IfOk, IfSome};

use crate::draws::Draws;
use crate::owners::Stream;
use crate::sizes::{BlockSize, HEADER};
use std::alloc::{AllocError, Global};

// A number on a card or in a stream's contents: where it stands, and in how many bytes, 8 at most.
#[derive(Clone, Copy)]
pub struct Field {
    pub at: u32,
    pub width: usize,
}

#[derive(Drop)]
pub struct Image {
    pub bytes: Vec<u8>,
    // How many of the bytes are the card.
    pub length: usize,
    pub block: BlockSize,
}

impl Image {
    // Noise for a card of so many blocks (G6).
    pub fn noise(
        alloc: Global,
        draws: &mut Draws,
        block: BlockSize,
        count: u16,
    ) -> Result<Image, AllocError>
        ensures length { IfOk result (λ i. i.length ≡ HEADER + count * 2 ^ block.shift) }
        ensures bytes { IfOk result (λ i. vec_len i.bytes ≡ i.length + 2 ^ block.shift) }
    {
        let length = block.start(count) as usize;
        let mut bytes = vec![in alloc; 0; length + usize::from(block.bytes())]?;
        draws.noise(&mut bytes);
        Ok(Image {
            bytes,
            length,
            block,
        })
    }

    // The card itself.
    pub fn shown(&self) -> Option<&[u8]>
        ensures { IfSome result (λ s. s.now ≡ take self.now.length self.now.bytes.items) }
    {
        self.bytes.get(..self.length)
    }

    // Bytes from `at` on.
    pub fn put_bytes(&mut self, at: u32, bytes: &[u8]) -> Option<()>
        ensures { vec_len self.new.bytes ≡ vec_len self.old.bytes }
    {
        let image = self.bytes.as_mut_slice();
        let place = image.get_mut(at as usize..)?.get_mut(..bytes.len())?;
        place.copy_from_slice(bytes);
        Some(())
    }

    // The low bytes of a number, as many as the field has.
    pub fn put(&mut self, field: Field, v: u64) -> Option<()>
        ensures { vec_len self.new.bytes ≡ vec_len self.old.bytes }
    {
        self.put_bytes(field.at, v.to_le_bytes().get(..field.width)?)
    }

    // Adds to a byte, mod 256.
    pub fn add(&mut self, at: usize, more: u8) -> Option<()>
        ensures { vec_len self.new.bytes ≡ vec_len self.old.bytes }
    {
        let byte = self.bytes.get_mut(at)?;
        *byte = byte.wrapping_add(more);
        Some(())
    }

    // Where a byte of a stream's contents stands.
    fn spot(&self, stream: &Stream, at: u32) -> Option<usize>
        ensures { IfSome result (λ p. p < 2 ^ 32) }
    {
        let z = u32::from(self.block.bytes());
        let block = *stream.blocks.get((at / z) as usize)?;
        Some(self.block.start(block) as usize + (at % z) as usize)
    }

    // A byte of a stream's contents.
    pub fn byte_in(&self, stream: &Stream, at: u32) -> Option<u8> {
        self.bytes.get(self.spot(stream, at)?).copied()
    }

    pub fn put_byte_in(&mut self, stream: &Stream, at: u32, v: u8) -> Option<()>
        ensures { vec_len self.new.bytes ≡ vec_len self.old.bytes }
    {
        let spot = self.spot(stream, at)?;
        *self.bytes.get_mut(spot)? = v;
        Some(())
    }

    // The same in a stream's contents, where the bytes may stand in two blocks.
    pub fn put_in(&mut self, stream: &Stream, field: Field, v: u64) -> Option<()>
        ensures { vec_len self.new.bytes ≡ vec_len self.old.bytes }
    {
        let mut at = field.at;
        for &byte in v.to_le_bytes().get(..field.width)? {
            self.put_byte_in(stream, at, byte)?;
            at = at.checked_add(1)?;
        }
        Some(())
    }

    // The slot that names block `j` of row `t` of a stream.
    pub fn slot(&self, stream: &Stream, t: usize, j: usize) -> Option<Field>
        ensures { IfSome result (λ f. f.width ≡ 4) }
    {
        let f = usize::from(self.block.slots());
        let block = *stream.row(t.checked_add(1)?)?.get(j / f)?;
        let slot = (j % f) as u32;
        Some(Field {
            at: self.block.start(block) + 4 * slot,
            width: 4,
        })
    }
}
