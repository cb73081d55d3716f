// The runs and their steps (R5, R6).
use crate::calls::{Call, Op};
use crate::course::Course;
use crate::draws::draw_name;
use crate::kinds::{Kind, Run};
use crate::stage::Stage;
use dice::Dice;
use std::io;

// How many names go before a scrambled run takes its steps.
const DELETES: usize = 60;

// Which call a step makes; none for a round of damage. The numbers are the dice's own: how many of 20 each call has.
fn choice(a: usize) -> Option<Op> {
    match a {
        0..=3 => Some(Op::Create),
        4..=8 => Some(Op::Write),
        9 | 10 => Some(Op::Read),
        11 | 12 => Some(Op::Truncate),
        13 | 14 => Some(Op::Delete),
        15 => Some(Op::Size),
        16 => Some(Op::List),
        17 => Some(Op::Room),
        18 => Some(Op::Check),
        _ => None,
    }
}

impl<'a, 'b, R: Print> Course<'a, 'b, R> {
    // A call as it is drawn, or a round of damage.
    fn step(&mut self) -> io::Result<()> {
        let Some(op) = choice(self.dice.below(20)) else {
            return self.round();
        };
        let name = draw_name(&mut self.dice, self.run.kind.pool());
        let place = self.draw_place(op, name)?;
        let length = self.draw_length(op)?;
        let from = self.dice.below(1000);
        let call = Call {
            op,
            name,
            place,
            length,
            from,
        };
        self.show(call)?;
        Ok(())
    }

    // In a scrambled run each name gets a block, and most of them go: their blocks are then free in a drawn order.
    fn scramble(&mut self) -> io::Result<()> {
        let made = self.run.kind.made();
        self.stage.write_ones(&mut *self.card, made)?;
        for _ in 0..DELETES {
            let name = self.dice.below(made);
            self.show(Call::plain(Op::Delete, name, 0))?;
        }
        Ok(())
    }

    // The whole run.
    fn take(&mut self) -> io::Result<()> {
        let kind = self.run.kind;
        self.stage
            .begin(&mut *self.card, self.run.shift, kind.made())?;
        if kind == Kind::Scrambled {
            self.scramble()?;
        }
        for _ in 0..kind.steps() {
            self.step()?;
        }
        Ok(())
    }
}

// All runs of all kinds, on the first bytes of the row.
pub fn runs<R: Print>(stage: &mut Stage<R>, row: &mut [u8]) -> io::Result<()> {
    for kind in Kind::ALL {
        for i in 0..kind.runs() {
            let mut dice = Dice::started(1 + 1000 * (kind as usize) + i);
            let run = Run::drawn(&mut dice, kind, i);
            let len = run.len.min(row.len());
            let mut course = Course {
                stage: &mut *stage,
                card: &mut row[..len],
                dice,
                run,
            };
            course.take()?;
        }
    }
    Ok(())
}
