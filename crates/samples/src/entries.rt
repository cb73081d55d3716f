// The root's entries: which stream each leads to, and how its name is made.
ghost use Rattle.std.specs.Prelude.{◌≡◌, ◌+◌, IfSome};

use crate::image::Field;

#[derive(Clone, Copy)]
pub struct Entry {
    pub index: u32,
    // The bytes of the name.
    pub length: u16,
    // Where it stands in the root.
    pub place: u32,
}

// The bytes of an entry before its name: index and length.
pub const BEFORE_NAME: u16 = 6;

impl Entry {
    // Where the index stands in the root.
    pub fn index_field(self) -> Field
        ensures { (result.at ≡ self.place) × (result.width ≡ 4) }
    {
        Field {
            at: self.place,
            width: 4,
        }
    }

    // Where the name's length stands in the root.
    pub fn length_field(self) -> Option<Field>
        ensures { IfSome result (λ f. (f.at ≡ self.place + 4) × (f.width ≡ 2)) }
    {
        let at = self.place.checked_add(4)?;
        Some(Field { at, width: 2 })
    }

    // Where byte `p` of the name stands in the root.
    pub fn name_place(self, p: u16) -> Option<u32>
        ensures { IfSome result (λ at. at ≡ self.place + BEFORE_NAME + p) }
    {
        self.place
            .checked_add(u32::from(BEFORE_NAME) + u32::from(p))
    }

    // Where the next entry stands.
    pub fn end(self) -> Option<u32>
        ensures { IfSome result (λ at. at ≡ self.place + BEFORE_NAME + self.length) }
    {
        self.name_place(self.length)
    }
}

// How names are made (G7): of noise, or of one letter.
#[derive(Clone, Copy)]
pub enum Style {
    Noise,
    Letter,
}
