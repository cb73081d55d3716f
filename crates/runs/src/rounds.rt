// Rounds of damage (R7).
use crate::calls::{Call, Op};
use crate::course::Course;
use crate::damage::Damage;
use crate::draws::draw_name;
use std::io;

impl<'a, 'b, R: Print> Course<'a, 'b, R> {
    // All ten calls on the damaged card, of which `lent` bytes are lent.
    fn spoilt_calls(&mut self, lent: usize) -> io::Result<()> {
        for op in Op::ALL {
            let call = Call {
                op,
                name: draw_name(&mut self.dice, self.run.kind.pool()),
                place: self.dice.below(5),
                length: self.dice.below(700),
                from: self.dice.below(1000),
            };
            self.stage.show_on(&mut *self.card, lent, call)?;
        }
        Ok(())
    }

    // The card is made anew where it is not sound.
    fn renew(&mut self) -> io::Result<()> {
        let answer = self.show(Call::plain(Op::Check, 0, 0))?;
        if answer.number != 0 {
            self.show(Call::plain(Op::Format, 0, self.run.shift))?;
        }
        Ok(())
    }

    // A round of damage: the ten calls on the card with a number added to one byte, which is then taken away again.
    pub fn round(&mut self) -> io::Result<()> {
        let len = self.card.len();
        let damage = Damage::ALL[1 + self.dice.below(9)];
        let back = self.dice.below(damage.span(len));
        let n = (1 + self.dice.below(255)) as u8;
        let spoilt = damage.at(len, self.run.block(), back);
        spoilt.add(&mut *self.card, n);
        self.spoilt_calls(spoilt.lent)?;
        spoilt.mend(&mut *self.card, n);
        self.renew()
    }
}
