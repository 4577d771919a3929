//! Runs calls over columns, indices, pieces, steps and lists that rows of JSON name, and judges
//! what each gives by the lines below it.
#![tactic(auto)]

use called::Calls;
use rows_common::Reading;
use std::test::Fail;

mod arguments;
mod called;
mod kept;
mod lines;
mod lists;
mod memory;
mod pieces;
mod plans;
mod readers;
mod sources;
mod steps;

fn main(rt: HostRuntime) -> Result<(), Fail> {
    let mut reading = Reading::new(rt.alloc());
    for line in rt.lines(rt.alloc()) {
        reading.take_line::<Calls>(&rt, rt.alloc(), line?)?;
    }
    reading.end::<Calls>(&rt, rt.alloc())
}
