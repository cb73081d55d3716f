// A call by its numbers (R3).
use crate::answers::Answer;
use contents::{read, size, truncate, write};
use names::{create, delete, list};
use std::fmt;
use whole::{check, format, room};

// The ten calls, in the order of their numbers.
#[derive(Clone, Copy, PartialEq, Eq)]
pub enum Op {
    Format,
    Check,
    Room,
    Create,
    Write,
    Read,
    Truncate,
    Delete,
    Size,
    List,
}

impl Op {
    pub const ALL: [Op; 10] = [
        Op::Format,
        Op::Check,
        Op::Room,
        Op::Create,
        Op::Write,
        Op::Read,
        Op::Truncate,
        Op::Delete,
        Op::Size,
        Op::List,
    ];
}

// Its number.
impl fmt::Display for Op {
    fn fmt<W: fmt::Write>(&self, f: &mut fmt::Formatter<W>) -> fmt::Result {
        write!(f, "{}", *self as usize)
    }
}

// Which call it is, its name's number, its place, how long its data or its tray is, and where its data begins.
#[derive(Clone, Copy)]
pub struct Call {
    pub op: Op,
    pub name: usize,
    pub place: usize,
    pub length: usize,
    pub from: usize,
}

impl Call {
    // A call whose length and whose from are 0.
    pub fn plain(op: Op, name: usize, place: usize) -> Call {
        Call {
            op,
            name,
            place,
            length: 0,
            from: 0,
        }
    }

    // Makes the call: its name is spelt by then, its data and its tray are cut to length.
    pub fn make(self, card: &mut [u8], name: &[u8], given: &[u8], tray: &mut [u8]) -> Answer {
        match self.op {
            Op::Format => format(card, self.place).into(),
            Op::Check => check(&*card).into(),
            Op::Room => room(&*card).into(),
            Op::Create => create(card, name).into(),
            Op::Write => write(card, name, self.place, given).into(),
            Op::Read => read(&*card, name, self.place, tray).into(),
            Op::Truncate => truncate(card, name, self.place).into(),
            Op::Delete => delete(card, name).into(),
            Op::Size => size(&*card, name).into(),
            Op::List => list(&*card, self.place, tray).into(),
        }
    }
}
