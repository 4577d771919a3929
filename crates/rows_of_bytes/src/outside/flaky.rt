//! A std reader and writer that fails on purpose: which of its errors are tried again.
ghost use Rattle.std.specs.Prelude.{◌≤◌, IfOk};

use std::io::{self, ErrorKind, Read, Write};
use std::test::Fail;
use vx_bits::Failed;
use vx_io::{Sink, Source, StdSink, StdSource};

/// Some calls are interrupted, then some fail otherwise, then some give and take nothing, and from
/// then on each gives and takes three bytes.
#[derive(Clone, Copy, Debug, Drop)]
struct Flaky {
    interrupted: usize,
    broken: usize,
    idle: usize,
}

impl Flaky {
    fn answer(&mut self, len: usize) -> io::Result<usize>
        ensures { IfOk result (λ n. n ≤ len) }
    {
        if self.interrupted > 0 {
            self.interrupted -= 1;
            return Err(ErrorKind::Interrupted.into());
        }
        if self.broken > 0 {
            self.broken -= 1;
            return Err(ErrorKind::BrokenPipe.into());
        }
        if self.idle > 0 {
            self.idle -= 1;
            return Ok(0);
        }
        Ok(len.min(3))
    }
}

impl Read for Flaky {
    fn read(&mut self, buf: &mut [u8]) -> io::Result<usize> {
        self.answer(buf.len())
    }
}

impl Write for Flaky {
    fn write(&mut self, buf: &[u8]) -> io::Result<usize> {
        self.answer(buf.len())
    }

    fn flush(&mut self) -> io::Result<()> {
        self.answer(0)?;
        Ok(())
    }
}

fn read_of(flaky: Flaky) -> Result<usize, Failed> {
    StdSource::new(flaky).read(&mut [0; 4])
}

fn write_of(flaky: Flaky, bytes: &[u8]) -> Result<usize, Failed> {
    StdSink::new(flaky).write(bytes)
}

fn finish_of(flaky: Flaky) -> Result<(), Failed> {
    StdSink::new(flaky).finish()
}

/// One call of each kind.
fn print_calls(rt: &impl Print, flaky: Flaky) -> Result<(), Fail> {
    let read = read_of(flaky);
    let written = write_of(flaky, b"abcde");
    let finished = finish_of(flaky);
    let Flaky {
        interrupted,
        broken,
        idle,
    } = flaky;
    println!(rt;
        "interrupted {interrupted}, broken {broken}, idle {idle}: \
         read {read:?}, write {written:?}, finish {finished:?}"
    )?;
    Ok(())
}

/// Calls that are interrupted, fail, or give and take nothing.
pub(crate) fn print_retries(rt: &impl Print) -> Result<(), Fail> {
    for (interrupted, broken, idle) in [
        (0, 0, 0),
        (1024, 0, 0),
        (1025, 0, 0),
        (0, 1, 0),
        (1, 1, 0),
        (0, 0, 1),
    ] {
        print_calls(
            rt,
            Flaky {
                interrupted,
                broken,
                idle,
            },
        )?;
    }
    let idle = Flaky {
        interrupted: 0,
        broken: 0,
        idle: 1,
    };
    println!(rt; "nothing: write {:?}", write_of(idle, b""))?;
    Ok(())
}
