//! The lines of the command `made`, by a plain loop: what the program must print for these numbers.

use std::alloc::Global;
use std::test::Fail;
use vx_bits::NoMemory;

/// The generator of the command.
#[derive(Drop)]
struct Generator {
    state: u64,
}

impl Generator {
    fn draw(&mut self) -> u64 {
        self.state = self
            .state
            .wrapping_mul(6_364_136_223_846_793_005)
            .wrapping_add(1_442_695_040_888_963_407);
        self.state >> 33
    }
}

/// So many rows.
fn rows_of(alloc: Global, generator: &mut Generator, len: usize) -> Result<Vec<u64>, NoMemory> {
    let mut rows = Vec::new(alloc);
    for _ in 0..len {
        rows.push(generator.draw())?;
    }
    Ok(rows)
}

/// The rows that the slice and the filter leave.
fn kept(alloc: Global, generator: &mut Generator, rows: &[u64]) -> Result<Vec<u64>, NoMemory> {
    let mut kept = Vec::new(alloc);
    for i in 10..rows.len().saturating_sub(10) {
        let draw = generator.draw();
        if i == 10 || draw % 4 != 0 {
            kept.push(rows.get(i).copied().unwrap_or(0))?;
        }
    }
    Ok(kept)
}

/// The nulls of the take, and the sum of the other rows.
fn taken(generator: &mut Generator, kept: &[u64]) -> (u32, u64) {
    let (mut nulls, mut sum) = (0_u32, 0_u64);
    for _ in 0..500 {
        let draw = generator.draw();
        if draw % 10 == 0 {
            nulls = nulls.saturating_add(1);
        } else {
            let index = (draw / 10).checked_rem(kept.len() as u64).unwrap_or(0);
            sum = sum.saturating_add(kept.get(index as usize).copied().unwrap_or(0));
        }
    }
    (nulls, sum)
}

/// The line of a number.
fn print_line(rt: &impl Print, alloc: Global, seed: u32) -> Result<(), Fail> {
    let mut generator = Generator {
        state: u64::from(seed),
    };
    let rows = rows_of(alloc, &mut generator, 1000 + seed as usize % 999_001)?;
    let kept = kept(alloc, &mut generator, &rows)?;
    let (nulls, sum) = taken(&mut generator, &kept);
    println!(rt; "made {seed} rows 500 nulls {nulls} sum {sum}")?;
    Ok(())
}

/// The lines of a few numbers.
pub(crate) fn print_lines(rt: &impl Print, alloc: Global) -> Result<(), Fail> {
    println!(rt; "# lines of `made`")?;
    for seed in [7, 0, 1, 999_000, 999_001, 4_294_967_295] {
        print_line(rt, alloc, seed)?;
    }
    Ok(())
}
