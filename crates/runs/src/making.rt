// How a card is made: formatted, with its first names, and one byte for some of them.
use crate::calls::{Call, Op};
use crate::stage::Stage;
use std::io;

impl<'a, R: Print> Stage<'a, R> {
    // A new card with names 0 to `made` - 1.
    pub fn begin(&mut self, card: &mut [u8], shift: usize, made: usize) -> io::Result<()> {
        self.show(card, Call::plain(Op::Format, 0, shift))?;
        for name in 0..made {
            self.show(card, Call::plain(Op::Create, name, 0))?;
        }
        Ok(())
    }

    // One byte for each of the first names.
    pub fn write_ones(&mut self, card: &mut [u8], ones: usize) -> io::Result<()> {
        for name in 0..ones {
            let call = Call {
                op: Op::Write,
                name,
                place: 0,
                length: 1,
                from: 0,
            };
            self.show(card, call)?;
        }
        Ok(())
    }
}
