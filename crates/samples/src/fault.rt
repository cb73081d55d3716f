// Why a card can't be made.
use std::alloc::{AllocError, AllocFailed};
use std::error::Error;
use std::fmt;

#[derive(Clone, Copy, Debug)]
pub enum Fault {
    OutOfMemory,
    // A plan or a clause speaks of a part that the card doesn't have.
    NoSuchPart,
}

impl fmt::Display for Fault {
    fn fmt<W: fmt::Write>(&self, f: &mut fmt::Formatter<W>) -> fmt::Result {
        f.write_str(match self {
            Fault::OutOfMemory => "out of memory",
            Fault::NoSuchPart => "the card has no such part",
        })
    }
}

impl Error for Fault {}

impl From<AllocError> for Fault {
    fn from(_e: AllocError) -> Fault {
        Fault::OutOfMemory
    }
}

impl<T: Drop> From<AllocFailed<T>> for Fault {
    fn from(_e: AllocFailed<T>) -> Fault {
        Fault::OutOfMemory
    }
}
