//! Calls the sources and sinks, the packed chunks and the plans of chunks as their users do, works
//! out the lines of the command `made`, and prints what each gives.
#![tactic(auto)]

mod chunked;
mod made;
mod outside;
mod packed;

use std::test::Fail;

fn main(rt: HostRuntime) -> Result<(), Fail> {
    rt.println("# vx_io")?;
    outside::print_rows(&rt, rt.alloc())?;
    rt.println("# vx_packed")?;
    packed::print_rows(&rt, rt.alloc())?;
    made::print_lines(&rt, rt.alloc())?;
    rt.println("# vx_chunk_plan")?;
    chunked::print_rows(&rt, rt.alloc())
}
