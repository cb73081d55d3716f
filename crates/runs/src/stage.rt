// What all runs share: where lines are printed, what allocates, the tray and the data (R1).
use crate::answers::Answer;
use crate::calls::Call;
use crate::spelling::spell;
use dice::sums::sum;
use dice::{Dice, FACTOR};
use std::alloc::Global;
use std::io;

// How long the tray is, and how long the data.
const TRAY: usize = 600;

const DATA: usize = 131072;

// What the tray holds at first.
const UNUSED: u8 = 238;

#[derive(Drop)]
pub struct Stage<'a, R: Print> {
    rt: &'a R,
    pub alloc: Global,
    tray: Vec<u8>,
    text: Vec<u8>,
}

impl<'a, R: Print> Stage<'a, R> {
    pub fn new(rt: &'a R, alloc: Global) -> io::Result<Stage<'a, R>> {
        let mut dice = Dice::new(1);
        let mut text = vec![in alloc; 0u8; DATA]?;
        dice.noise(&mut text);
        let tray = vec![in alloc; UNUSED; TRAY]?;
        Ok(Stage {
            rt,
            alloc,
            tray,
            text,
        })
    }

    // Makes a call, prints its line and gives its answer back.
    pub fn show(&mut self, card: &mut [u8], call: Call) -> io::Result<Answer> {
        let name = spell(self.alloc, call.name)?;
        let from = call.from.min(self.text.len());
        let given = call.length.min(self.text.len() - from);
        let lent = call.length.min(self.tray.len());
        let answer = call.make(
            card,
            &name,
            &self.text[from..from + given],
            &mut self.tray[..lent],
        );
        let total = sum(sum(1, FACTOR, &*card), FACTOR, &self.tray);
        println!(self.rt; "{} {answer} {total}", call.op)?;
        Ok(answer)
    }

    // The same on the card's first `lent` bytes.
    pub fn show_on(&mut self, card: &mut [u8], lent: usize, call: Call) -> io::Result<Answer> {
        let n = lent.min(card.len());
        self.show(&mut card[..n], call)
    }
}
