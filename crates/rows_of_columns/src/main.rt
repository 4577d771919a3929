//! Runs calls that rows of JSON name, over the columns and arguments that they spell, and judges
//! what each gives by the lines below it.
#![tactic(auto)]

use called::Calls;
use rows_common::Reading;
use std::test::Fail;

mod arguments;
mod called;
mod constructors;
mod filters;
mod lines;
mod offsets;
mod parts;
mod slices;
mod takes;
mod texts;
mod whole;

fn main(rt: HostRuntime) -> Result<(), Fail> {
    let mut reading = Reading::new(rt.alloc());
    for line in rt.lines(rt.alloc()) {
        reading.take_line::<Calls>(&rt, rt.alloc(), line?)?;
    }
    reading.end::<Calls>(&rt, rt.alloc())
}
