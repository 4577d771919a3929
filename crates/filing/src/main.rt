//! Writes a document of a file to standard output. On standard input stands the name of a type,
//! `u8`, `u16`, `u32` or `u64`, and behind it numbers of that type, between blanks or line ends.
//! The program's first word, if it has one, is the list of the document's steps; else there are
//! none.
#![tactic(auto)]

use anyhow::bail;
use input::TypedNumbers;
use std::alloc::Global;
use std::io::{BufRead, BufReader, BufWriter, Write};
use std::{env, io};

mod input;
mod numbers;
mod output;

/// The list of steps where no word says another.
const NO_STEPS: &str = "[]";

// What standard input holds.
fn read_input(rt: &(impl Input + Print), alloc: Global) -> anyhow::Result<TypedNumbers> {
    let mut input = TypedNumbers::new(alloc);
    for line in BufReader::new(alloc, rt.reader())?.lines(alloc) {
        input.take_line(alloc, line?.as_str())?;
    }
    Ok(input)
}

fn main(rt: HostRuntime) -> anyhow::Result<()> {
    let alloc = rt.alloc();
    let words = env::args(&rt)?.collect::<Vec<String>>(alloc)?;
    let steps = match words.as_slice() {
        [] | [_] => NO_STEPS,
        [_, steps] => steps.as_str(),
        _ => bail!("one word at most, the list of steps"),
    };
    let input = read_input(&rt, alloc)?;
    let mut out = BufWriter::new(alloc, io::writer(&rt))?;
    output::write_document(alloc, &mut out, input.file(alloc)?, steps)?;
    out.flush()?;
    Ok(())
}
