// Runs of calls, made as docs/CASES.md describes, on cards of many shapes, sound and damaged. For each call a line: which it is,
// its answer's numbers, and the sum of card and tray. What it must write is made by second/.
#![tactic(auto)]

mod answers;
mod calls;
mod course;
mod damage;
mod draws;
mod kinds;
mod making;
mod rounds;
mod situations;
mod spelling;
mod stage;
mod steps;

use crate::situations::situations;
use crate::stage::Stage;
use crate::steps::runs;
use std::io;

// The longest card.
const ROW: usize = 1048663;

// All runs, then all situations.
fn main(rt: HostRuntime) -> io::Result<()> {
    let alloc = rt.alloc();
    let mut row = vec![in alloc; 0u8; ROW]?;
    let mut stage = Stage::new(&rt, alloc)?;
    runs(&mut stage, &mut row)?;
    situations(&mut stage, &mut row)
}
