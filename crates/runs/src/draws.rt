// What is drawn for a call (R6): its name, its place, its length.
ghost use Rattle.std.specs.Prelude.{◌≤◌};

use crate::calls::{Call, Op};
use crate::course::Course;
use crate::kinds::{Kind, MOST_BLOCKS};
use dice::Dice;
use dice::sums::times;
use std::io;

// No stream is longer.
const MOST_BYTES: usize = 16777216;

// Where the bad names begin.
const FIRST_BAD: usize = 255;

// The name of a call.
pub fn draw_name(dice: &mut Dice, pool: usize) -> usize {
    if dice.below(16) == 0 {
        FIRST_BAD + dice.below(10)
    } else {
        dice.below(pool)
    }
}

// A place in or just past a stream of `v` bytes.
fn near(dice: &mut Dice, v: usize, z: usize) -> usize
    requires size { v ≤ MOST_BYTES }
    requires block { 1 ≤ z }
{
    // The numbers are the dice's own, by how often each is wanted; a name for each would say no more than its arm.
    match dice.below(9) {
        0..=2 => v,
        3 => 0,
        4 | 5 => dice.below(v + 1),
        6 => times(z, dice.below(v / z + 1)),
        7 => v + 1 + dice.below(3),
        _ => usize::MAX - dice.below(3),
    }
}

// How much of the tray is lent.
fn tray_length(dice: &mut Dice) -> usize {
    match dice.below(4) {
        0 => dice.below(64),
        1 => 64,
        2 => dice.below(601),
        _ => 600,
    }
}

impl<'a, 'b, R: Print> Course<'a, 'b, R> {
    // The place of a call; the stream's size is asked first where it matters.
    pub fn draw_place(&mut self, op: Op, name: usize) -> io::Result<usize> {
        match op {
            Op::Write | Op::Read | Op::Truncate => {
                let size = self.show(Call::plain(Op::Size, name, 0))?.large;
                let z = self.run.block();
                Ok(near(&mut self.dice, size.min(MOST_BYTES), z))
            }
            Op::List => Ok(self.dice.below(self.run.kind.pool() + 2)),
            _ => Ok(0),
        }
    }

    // How much is written: by the kind, and at the edge by what is free.
    fn write_length(&mut self) -> io::Result<usize> {
        let z = self.run.block();
        if self.run.kind == Kind::Edge {
            let room = self.show(Call::plain(Op::Room, 0, 0))?.large;
            let blocks = self.dice.below(room.min(MOST_BLOCKS) + 3);
            let more = self.dice.below(4);
            return Ok((times(z, blocks) + more).saturating_sub(2));
        }
        if self.dice.below(8) == 0 {
            return Ok(0);
        }
        Ok(self.dice.below(self.run.kind.longest(z) + 1))
    }

    // How long a call's data or tray is.
    pub fn draw_length(&mut self, op: Op) -> io::Result<usize> {
        match op {
            Op::Write => self.write_length(),
            Op::Read | Op::List => Ok(tray_length(&mut self.dice)),
            _ => Ok(0),
        }
    }
}
