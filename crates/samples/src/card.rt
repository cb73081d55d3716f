// A card: the plan with its blocks given out (G5), and its bytes, where its parts are put.
ghost use Rattle.std.specs.Prelude.{◌≡◌, vec_len};

use crate::fault::Fault;
use crate::image::{Field, Image};
use crate::kinds::Kind;
use crate::lay::lay;
use crate::owners::{Desc, Owner};
use crate::parts::{FIRST_FREE, FIRST_OFFSET, Part};
use crate::plan::Plan;
use std::alloc::Global;

#[derive(Drop)]
pub struct Card {
    pub plan: Plan,
    // How many blocks there are.
    pub count: u16,
    // The free blocks, in the order of their chain.
    pub chain: Vec<u16>,
    pub image: Image,
}

// Settles where the entries stand and how many blocks the streams have: how many the card has.
fn count_of(plan: &mut Plan) -> Option<u16> {
    plan.place()?;
    let used = plan.streams.shape(plan.block)?;
    u16::try_from(plan.free.count(used)?).ok()
}

// The blocks of a card, in the order in which they are given out.
fn draw_blocks(alloc: Global, plan: &mut Plan, count: u16) -> Result<Vec<u16>, Fault> {
    let mut blocks: Vec<u16> = (0..count).collect(alloc)?;
    if plan.kind != Kind::InOrder {
        plan.draws.shuffle(&mut blocks);
    }
    Ok(blocks)
}

impl Card {
    // The card of a plan.
    pub fn new(alloc: Global, mut plan: Plan) -> Result<Card, Fault> {
        let count = count_of(&mut plan).ok_or(Fault::NoSuchPart)?;
        let blocks = draw_blocks(alloc, &mut plan, count)?;
        let chain = Vec::from_slice(alloc, plan.streams.give(&blocks)?)?;
        let mut image = Image::noise(alloc, &mut plan.draws, plan.block, count)?;
        lay(&mut image, &plan, &chain).ok_or(Fault::NoSuchPart)?;
        Ok(Card {
            plan,
            count,
            chain,
            image,
        })
    }

    // The descriptor of an owner.
    pub fn desc(&self, owner: Owner) -> Option<Desc> {
        Some(self.plan.streams.of(owner)?.desc)
    }

    // A field of an owner's descriptor.
    pub fn put_part(&mut self, owner: Owner, part: Part, v: u64) -> Option<()>
        ensures { vec_len self.new.image.bytes ≡ vec_len self.old.image.bytes }
    {
        let desc = self.desc(owner)?;
        self.image.put_part(&self.plan.streams.table, desc, part, v)
    }

    // An owner's descriptor but for its flags.
    pub fn put_desc(&mut self, owner: Owner, size: u64, top: u64, reserved: u64) -> Option<()>
        ensures { vec_len self.new.image.bytes ≡ vec_len self.old.image.bytes }
    {
        let desc = self.desc(owner)?;
        self.image
            .put_desc(&self.plan.streams.table, desc, size, top, reserved)
    }

    // A field of the free descriptor `k`.
    pub fn put_spare(&mut self, k: u16, part: Part, v: u64) -> Option<()>
        ensures { vec_len self.new.image.bytes ≡ vec_len self.old.image.bytes }
    {
        let desc = Desc::Table(k);
        self.image.put_part(&self.plan.streams.table, desc, part, v)
    }

    // The table's first bytes.
    pub fn put_first_offset(&mut self, v: u64) -> Option<()>
        ensures { vec_len self.new.image.bytes ≡ vec_len self.old.image.bytes }
    {
        self.image.put_in(&self.plan.streams.table, FIRST_OFFSET, v)
    }

    // A number in the root.
    pub fn put_in_root(&mut self, field: Field, v: u64) -> Option<()>
        ensures { vec_len self.new.image.bytes ≡ vec_len self.old.image.bytes }
    {
        self.image.put_in(&self.plan.streams.root, field, v)
    }

    // The first-free field.
    pub fn put_first_free(&mut self, v: u64) -> Option<()>
        ensures { vec_len self.new.image.bytes ≡ vec_len self.old.image.bytes }
    {
        self.image.put(FIRST_FREE, v)
    }
}

#[cfg(test)]
mod tests {
    use super::*;
    use crate::draft::Draft;
    use crate::draws::Draws;
    use crate::sizes::BlockSize;
    use std::test::Fail;

    // A bare card has one block, that of the table.
    #[test]
    fn bare_card(rt: HostRuntime) -> Result<(), Fail> {
        let alloc = rt.alloc();
        let draws = Draws::new(1, 0);
        let block = BlockSize::new(6).ok_or(Fault::NoSuchPart)?;
        let kind = Kind::Bare;
        let plan = Draft { draws, kind, block }.plan(alloc)?;
        let card = Card::new(alloc, plan)?;
        let shown = card.image.shown().ok_or(Fault::NoSuchPart)?;
        assert_eq!(rt; shown.len(), 87 + 64);
        assert_eq!(rt; shown.get(..4), Some(b"YAK1".as_slice()));
        Ok(())
    }
}
