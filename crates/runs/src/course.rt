// A run under way (R5): what it shares, its card, its dice, and what it is.
use crate::answers::Answer;
use crate::calls::Call;
use crate::kinds::Run;
use crate::stage::Stage;
use dice::Dice;
use std::io;

#[derive(Drop)]
pub struct Course<'a, 'b, R: Print> {
    pub stage: &'a mut Stage<'b, R>,
    pub card: &'a mut [u8],
    pub dice: Dice,
    pub run: Run,
}

impl<'a, 'b, R: Print> Course<'a, 'b, R> {
    // A call on the card.
    pub fn show(&mut self, call: Call) -> io::Result<Answer> {
        self.stage.show(&mut *self.card, call)
    }
}
