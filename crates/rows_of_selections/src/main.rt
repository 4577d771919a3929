//! Runs calls that select rows of columns, of parts of one, of values behind a decoder, of files,
//! of tables and of joins, as rows of JSON name them, and judges what each gives by the lines below
//! it.
#![tactic(auto)]

use called::Calls;
use rows_common::Reading;
use std::test::Fail;

mod arguments;
mod called;
mod chunked;
mod files;
mod flaky;
mod joins;
mod lines;
mod numbers;
mod parted;
mod parts;
mod selecting;

fn main(rt: HostRuntime) -> Result<(), Fail> {
    let mut reading = Reading::new(rt.alloc());
    for line in rt.lines(rt.alloc()) {
        reading.take_line::<Calls>(&rt, rt.alloc(), line?)?;
    }
    reading.end::<Calls>(&rt, rt.alloc())
}
