//! Runs rows of words and documents through [`run`](vx_rows::run), over memory, and judges what
//! each gives by what stands below it.
//!
//! A row of the input has five fields between `|`: the program's words, how many bytes a read or a
//! write takes at most, the numbers of the reads that fail, the numbers of the writes and finishes
//! that fail, and the document, which may hold a `|` itself. Below it stand the lines that tell
//! what it must give, each of which begins with `=`. A line that begins with `#` is the heading of
//! a family of rows. For each family its heading is printed, each row that gives other lines than
//! those below it, and how many rows give just these. Behind the families stand those that no row
//! can say.
#![tactic(auto)]

use rows_common::Reading;
use running::Runs;
use std::test::Fail;

mod answer;
mod row;
mod running;
mod unlisted;

fn main(rt: HostRuntime) -> Result<(), Fail> {
    let mut reading = Reading::new(rt.alloc());
    for line in rt.lines(rt.alloc()) {
        reading.take_line::<Runs>(&rt, rt.alloc(), line?)?;
    }
    reading.end::<Runs>(&rt, rt.alloc())?;
    unlisted::print_families(&rt, rt.alloc())
}
