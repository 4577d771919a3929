//! Rows of values behind a decoder, and what it is asked for them.
ghost use Rattle.std.specs.Prelude.{◌≡◌, ◌+◌, ◌*◌, ◌≤◌, IfOk, Some, map};
ghost use Rattle.vortex_select.specs.TypeTree.{type_width};
ghost use Rattle.vortex_select.specs.Policy.{sparse_limit_of};
ghost use Rattle.vortex_select.specs.Asked.{chunks_touched};
ghost use Rattle.vortex_select.specs.Step.{step_value};
ghost use Rattle.vortex_select.specs.Walk.{walk};
ghost use Rattle.vortex_select.specs.Chunks.{asked_by_walk};

use crate::policies::with_sparse_limit;
use crate::printing::{print_calls, print_fault, print_numbers};
use crate::squares::Squares;
use std::alloc::Global;
use std::test::Fail;
use vortex_select::build::{slice, take};
use vortex_select::{
    Array, Call, CallLog, ChunkShape, ColumnError, DType, Logged, Nullability, PType, Policy,
    SelectError, Step, Validity, select_chunked,
};

/// The squares at the picks, out of three chunks, and the calls that they asked for: `told` says
/// which these are.
#[tactic(auto, using(crate::proofs::SquareLists::squares))]
pub(crate) fn squares_and_calls(
    alloc: Global,
    shape: &ChunkShape,
    steps: &[Step],
    policy: &Policy,
) -> Result<(Array, CallLog), SelectError>
    requires width { type_width shape.now.dtype ≡ Some 8 }
    requires within { shape.now.offset + shape.now.len ≤ 3072 }
    ensures { IfOk result (λ given. given.1 ≡ asked_by_walk shape.now
        (sparse_limit_of policy.now 8) (walk shape.now.len (map step_value steps.now))) }
{
    let mut decoder = Logged::new(alloc, Squares::new(3), 3)?;
    let answer = select_chunked(alloc, &mut decoder, shape, steps, policy)?;
    Ok((answer, decoder.into_log()))
}

/// The squares at the picks. The decoder is asked at most once for each chunk that the shape
/// touches, by `cost`.
#[tactic(auto, using(crate::proofs::SquareLists::squares))]
pub(crate) fn squares_at(
    alloc: Global,
    decoder: &mut Squares,
    shape: &ChunkShape,
    steps: &[Step],
    policy: &Policy,
) -> Result<Array, SelectError>
    requires width { type_width shape.now.dtype ≡ Some 8 }
    requires within { shape.now.offset + shape.now.len ≤ 1024 * decoder.old.chunks }
    requires new { decoder.old.asked ≡ 0 }
    ensures { decoder.new.asked ≤ chunks_touched shape.now.offset shape.now.len }
{
    select_chunked(alloc, decoder, shape, steps, policy)
}

/// The squares of the numbers from 24 up to 3024.
fn shape() -> Result<ChunkShape, ColumnError>
    ensures width { IfOk result (λ s. type_width s.dtype ≡ Some 8) }
    ensures offset { IfOk result (λ s. s.offset ≡ 24) }
    ensures len { IfOk result (λ s. s.len ≡ 3000) }
{
    let dtype = DType::Primitive(PType::U64, Nullability::NonNullable);
    ChunkShape::try_new(dtype, 24, 3000, Validity::NonNullable)
}

/// The squares and the calls, or the rule that a step breaks.
fn print_squares_at(
    rt: &impl Print,
    alloc: Global,
    steps: &[Step],
    policy: &Policy,
) -> Result<(), Fail> {
    let shape = shape()?;
    match squares_and_calls(alloc, &shape, steps, policy) {
        Ok((answer, log)) => print_given(rt, &answer, log.calls()),
        Err(SelectError::Broken { step, cause }) => print_fault(rt, step, cause),
        Err(SelectError::NoMemory) => Err(Fail::from(SelectError::NoMemory)),
    }
}

fn print_given(rt: &impl Print, answer: &Array, calls: &[Call]) -> Result<(), Fail> {
    print_numbers(rt, answer)?;
    print!(rt; "  asked:")?;
    print_calls(rt, calls)
}

/// Squares by one step, behind its name.
fn print_by(
    rt: &impl Print,
    alloc: Global,
    name: &str,
    step: Step,
    policy: &Policy,
) -> Result<(), Fail> {
    print!(rt; "{name}")?;
    print_squares_at(rt, alloc, &[step], policy)
}

/// Squares by a slice, under two policies, by a take, and by a slice that ends past the rows.
fn print_by_step(rt: &impl Print, alloc: Global, n: usize) -> Result<(), Fail> {
    let vortex = Policy::vortex();
    match n {
        0 => print_by(rt, alloc, "1000..1003:", slice(1000, 1003), &vortex),
        1 => {
            let policy = with_sparse_limit(0)?;
            print_by(
                rt,
                alloc,
                "the same, never sparse:",
                slice(1000, 1003),
                &policy,
            )
        }
        2 => {
            let taken = take(alloc, &[Some(2999), None, Some(0)])?;
            print_by(rt, alloc, "take 2999 null 0:", taken, &vortex)
        }
        _ => print_by(rt, alloc, "0..3001: ", slice(0, 3001), &vortex),
    }
}

/// Squares by several steps.
pub(crate) fn print_squares(rt: &impl Print, alloc: Global) -> Result<(), Fail> {
    for n in 0..4 {
        print_by_step(rt, alloc, n)?;
    }
    let [len, asked] = counted(alloc)?;
    println!(rt; "1000..2500: {len} rows, asked {asked} times")?;
    Ok(())
}

/// How many squares a slice leaves, and how often the decoder was asked for them.
fn counted(alloc: Global) -> Result<[usize; 2], Fail> {
    let mut squares = Squares::new(3);
    let steps = [slice(1000, 2500)];
    let answer = squares_at(alloc, &mut squares, &shape()?, &steps, &Policy::vortex())?;
    Ok([answer.len(), squares.asked()])
}
