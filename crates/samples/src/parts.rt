// The named fields of a card: those of the header, of descriptors, of the table, of free blocks.
ghost use Rattle.std.specs.Prelude.{◌≡◌, vec_len};

use crate::image::{Field, Image};
use crate::owners::{Desc, Stream};
use crate::plan::offset;

// What ends the chain of free blocks, and what ends that of free descriptors.
pub const NO_BLOCK: u64 = 0xffff_ffff;

pub const NO_OFFSET: u64 = 0xffff_ffff_ffff_ffff;

// The header's fields that are not fixed.
pub const SHIFT: Field = Field { at: 25, width: 1 };

pub const FIRST_FREE: Field = Field { at: 27, width: 8 };

// The table's first bytes: where the first free descriptor is.
pub const FIRST_OFFSET: Field = Field { at: 0, width: 8 };

// Where the table's own descriptor stands.
const OWN: u32 = 45;

// The fields of a descriptor.
#[derive(Clone, Copy)]
pub enum Part {
    Size,
    Top,
    Reserved,
    Flags,
}

impl Part {
    // The field in a descriptor that starts at `at`.
    fn field(self, at: u32) -> Option<Field> {
        let (from, width) = match self {
            Part::Size => (0, 8),
            Part::Top => (8, 8),
            Part::Reserved => (16, 8),
            Part::Flags => (24, 1),
        };
        let at = at.checked_add(from)?;
        Some(Field { at, width })
    }
}

impl Image {
    // A field of a descriptor, which may stand in the table's contents.
    pub fn put_part(&mut self, table: &Stream, desc: Desc, part: Part, v: u64) -> Option<()>
        ensures { vec_len self.new.bytes ≡ vec_len self.old.bytes }
    {
        match desc {
            Desc::Header => self.put(part.field(OWN)?, v),
            Desc::Table(k) => self.put_in(table, part.field(offset(k))?, v),
        }
    }

    // A descriptor but for its flags.
    pub fn put_desc(
        &mut self,
        table: &Stream,
        desc: Desc,
        size: u64,
        top: u64,
        reserved: u64,
    ) -> Option<()>
        ensures { vec_len self.new.bytes ≡ vec_len self.old.bytes }
    {
        self.put_part(table, desc, Part::Size, size)?;
        self.put_part(table, desc, Part::Top, top)?;
        self.put_part(table, desc, Part::Reserved, reserved)
    }

    // The link of a block.
    pub fn put_link(&mut self, block: u16, v: u64) -> Option<()>
        ensures { vec_len self.new.bytes ≡ vec_len self.old.bytes }
    {
        let at = self.block.start(block);
        self.put(Field { at, width: 4 }, v)
    }
}
