//! The rows and the steps that a number makes, and the line of their answer.
ghost use Rattle.std.specs.Prelude.{◌≡◌, ◌⊎◌, ◌<◌, ◌≤◌, ◌+◌, ◌-◌, ◌/◌, ◌%◌, ◌==◌, IfOk, count_by};
ghost use Rattle.std.specs.Prelude.{length, map, not, sum};
ghost use Rattle.std.specs.Int.{to_le_bytes, w32, w64};
ghost use Rattle.vx_types.specs.RowValue.{is_null};
ghost use Rattle.vx_types.specs.TypeTree.{primitive_type};
ghost use Rattle.vx_types.specs.declared.nullability.Nullability.TheVariants.{NonNullable};
ghost use Rattle.vx_types.specs.declared.nullability.Nullability.TheVariants.{Nullable};
ghost use Rattle.vx_types.specs.declared.ptype.PType.TheVariants.{U32};
ghost use Rattle.vx_model.specs.Records.{records_column};
ghost use Rattle.vx_pieces.specs.Indices.{by_column, index_value};
ghost use Rattle.vx_steps.specs.Step.{step_value};
ghost use Rattle.vx_column.specs.Cell.{IsOfType, row_of};
ghost use Rattle.vx_steps.specs.Answer.{answer_rows};
ghost use Rattle.vx_rows.specs.Made.{next_state, draws, drawn_rows, drawn_bits, drawn_indices};
ghost use Rattle.vx_rows.specs.Made.{drawn_answer, drawn_steps, made_answer, made_text};
ghost use Rattle.vx_rows.specs.Made.{number_or_zero};
ghost use Rattle.vx_rows.specs.Program.{Done, made};
ghost use Rattle.vx_rows.specs.declared.asked.Asked.TheVariants.{Nothing};
ghost use Rattle.vx_rows.specs.Reply.{Replies, status_of_reply};

use crate::asked::Asked;
use crate::reply::Reply;
use std::alloc::Global;
use vx_bits::{BitBuffer, BitBuilder, Buffer, NoMemory, Records};
use vx_column::{Array, ArrayRef, Cell, PType, PrimitiveArray, Validity, number_column};
use vx_mask::{Mask, Policy};
use vx_pieces::Indices;
use vx_plain::FlatRef;
use vx_select::{SelectError, Step, select};

/// What a draw multiplies the generator's state by.
const MULTIPLIER: u128 = 6_364_136_223_846_793_005;

/// What it then adds.
const INCREMENT: u128 = 1_442_695_040_888_963_407;

/// How many indices the take has.
const INDICES: usize = 500;

// The generator's state after one draw more.
fn next_state(state: u64) -> u64
    ensures { result ≡ next_state state }
{
    ((u128::from(state) * MULTIPLIER + INCREMENT) % (1 << 64)) as u64
}

// So many draws from a state on.
fn draws(alloc: Global, count: usize, seed: u64) -> Result<Vec<u32>, NoMemory>
    ensures { IfOk result (λ d. d.items ≡ draws count seed) }
{
    let mut state = seed;
    let mut draws = Vec::with_capacity(alloc, count)?;
    for i in 0..count {
        state = next_state(state);
        draws.push_reserved((state >> 33) as u32);
    }
    Ok(draws)
}

// A record for each draw.
fn row_records(alloc: Global, draws: &[u32]) -> Result<Buffer<[u8; 4]>, NoMemory>
    ensures { IfOk result (λ r. r ≡ map (to_le_bytes w32) draws.now) }
{
    let mut records = Vec::with_capacity(alloc, draws.len())?;
    for draw in draws {
        records.push_reserved(draw.to_le_bytes());
    }
    Buffer::from_vec(alloc, records)
}

// The column of the rows: one draw each.
fn drawn_rows(alloc: Global, draws: &[u32]) -> Result<Array, NoMemory>
    ensures dtype { IfOk result (λ c. c.dtype ≡ primitive_type U32 NonNullable) }
    ensures rows { IfOk result (λ c. c.rows ≡ drawn_rows draws.now) }
{
    let records = Records::W4(row_records(alloc, draws)?);
    Ok(number_column(PType::U32, records).into_array())
}

// The bits of the filter.
fn drawn_bits(alloc: Global, draws: &[u32]) -> Result<BitBuffer, NoMemory>
    requires { 0 < length draws.now }
    ensures { IfOk result (λ b. b.bits ≡ drawn_bits draws.now) }
{
    let mut bits = BitBuilder::with_capacity(alloc, draws.len())?;
    for draw in draws {
        bits.append(draw % 4 != 0)?;
    }
    bits.set(0);
    bits.finish()
}

// Whether each index is valid.
fn presence(alloc: Global, draws: &[u32]) -> Result<BitBuffer, NoMemory>
    ensures { IfOk result
        (λ b. b ≡ record { bits = map (λ d. not (d % 10 == 0)) draws.now; offset = 0 }) }
{
    let mut bits = BitBuilder::with_capacity(alloc, draws.len())?;
    for draw in draws {
        bits.append(draw % 10 != 0)?;
    }
    bits.finish()
}

// A record for each index: one of the rows that are kept.
fn index_records(alloc: Global, kept: usize, draws: &[u32]) -> Result<Buffer<[u8; 8]>, NoMemory>
    requires { 0 < kept }
    ensures { IfOk result (λ r. r ≡ map (λ d. to_le_bytes w64 (d / 10 % kept)) draws.now) }
{
    let mut records = Vec::with_capacity(alloc, draws.len())?;
    for draw in draws {
        records.push_reserved((u64::from(draw / 10) % kept as u64).to_le_bytes());
    }
    Buffer::from_vec(alloc, records)
}

// The column of the indices.
fn index_column(alloc: Global, kept: usize, draws: &[u32]) -> Result<ArrayRef, NoMemory>
    requires { 0 < kept }
    ensures { IfOk result (λ c. c ≡ records_column (drawn_indices kept draws.now)) }
{
    let records = Records::W8(index_records(alloc, kept, draws)?);
    let validity = Validity::from_bits(alloc, presence(alloc, draws)?)?;
    match PrimitiveArray::try_new(PType::I64, records, validity) {
        Ok(column) => column.into_array().into_ref(alloc),
        Err(_) => unreachable!(),
    }
}

// The indices of the take.
fn drawn_indices(alloc: Global, kept: usize, draws: &[u32]) -> Result<Indices, NoMemory>
    requires { 0 < kept }
    ensures { IfOk result (λ i. index_value i
        ≡ by_column (records_column (drawn_indices kept draws.now))) }
{
    Ok(Indices::Array(FlatRef::of(index_column(alloc, kept, draws)?)))
}

// The three steps: a slice that leaves out ten rows at each end, a filter, and a take.
fn drawn_steps(
    alloc: Global,
    len: usize,
    bits: &[u32],
    indices: &[u32],
) -> Result<[Step; 3], NoMemory>
    requires rows { 10 ≤ len }
    requires some { 0 < length bits.now }
    ensures { IfOk result (λ s. map step_value s
        ≡ drawn_steps len (drawn_bits bits.now) indices.now) }
{
    let mask = Mask::from_buffer(drawn_bits(alloc, bits)?);
    let indices = drawn_indices(alloc, mask.true_count(), indices)?;
    Ok([
        Step::Slice {
            start: 10,
            end: len - 10,
        },
        Step::Filter(mask),
        Step::Take(indices),
    ])
}

// The answer to what these draws make. No step is broken.
fn answer_of_draws(alloc: Global, len: usize, draws: &[u32]) -> Result<Array, NoMemory>
    requires rows { 20 < len }
    requires few { len ≤ 1000000 }
    requires long { length draws.now ≡ len + (len - 20) + 500 }
    ensures answer { IfOk result (λ c. drawn_answer len draws.now ≡ answer_rows c.dtype c.rows) }
    ensures dtype { IfOk result (λ c. c.dtype ≡ primitive_type U32 Nullable) }
{
    let bits_end = len + (len - 20);
    let rows = drawn_rows(alloc, &draws[..len])?;
    let steps = drawn_steps(alloc, len, &draws[len..bits_end], &draws[bits_end..])?;
    match select(alloc, &rows, &steps, &Policy::vortex()) {
        Ok(rows) => Ok(rows),
        Err(SelectError::Broken { .. }) => unreachable!(),
        Err(SelectError::NoMemory) => Err(NoMemory),
    }
}

// The answer to what a number makes.
#[tactic(auto, unfolding(crate::specs::Made::made_answer))]
fn made_rows(alloc: Global, seed: u32) -> Result<Array, NoMemory>
    ensures answer { IfOk result (λ c. made_answer seed ≡ answer_rows c.dtype c.rows) }
    ensures dtype { IfOk result (λ c. c.dtype ≡ primitive_type U32 Nullable) }
{
    let len = 1000 + seed as usize % 999_001;
    let draws = draws(alloc, len + (len - 20) + INDICES, u64::from(seed))?;
    answer_of_draws(alloc, len, &draws)
}

// How many rows are null.
fn nulls_in(rows: &Array) -> usize
    ensures { result ≡ count_by is_null rows.now.rows }
{
    let mut nulls = 0;
    for i in 0..rows.len() {
        if !rows.is_valid_at(i) {
            nulls += 1;
        }
    }
    nulls
}

// The number in a row of type `U32`, 0 at a null.
fn number_or_zero(cell: Cell<'_>) -> u32
    requires { IsOfType cell (primitive_type U32 Nullable) }
    ensures { result ≡ number_or_zero (row_of cell.entry) }
{
    match cell {
        Cell::Bytes(bytes) => {
            let mut record = [0; 4];
            record.copy_from_slice(bytes);
            u32::from_le_bytes(record)
        }
        _ => 0,
    }
}

// The sum of the rows of a column of type `U32` that aren't null.
fn sum_of(rows: &Array) -> u128
    requires { rows.now.dtype ≡ primitive_type U32 Nullable }
    ensures { result ≡ sum (map number_or_zero rows.now.rows) }
{
    let mut sum = 0;
    for i in 0..rows.len() {
        sum += u128::from(number_or_zero(rows.cell_at(i)));
    }
    sum
}

// The line of the rows that a number makes.
fn made_line(alloc: Global, seed: u32, rows: &Array) -> Result<Vec<u8>, NoMemory>
    requires { rows.now.dtype ≡ primitive_type U32 Nullable }
    ensures { IfOk result (λ line. line.items ≡ made_text seed rows.now.rows) }
{
    let nulls = nulls_in(rows);
    let sum = sum_of(rows);
    let len = rows.len();
    let line = format!(in alloc; "made {seed} rows {len} nulls {nulls} sum {sum}\n")?;
    Ok(line.into_bytes())
}

// The line of the rows that a number makes.
#[tactic(auto, unfolding(crate::specs::Program::made))]
fn line_of(alloc: Global, seed: u32) -> Result<Vec<u8>, NoMemory>
    ensures { IfOk result (λ line. made seed ≡ Done line.items Nothing) }
{
    let rows = made_rows(alloc, seed)?;
    made_line(alloc, seed, &rows)
}

/// The line of the rows that a number makes.
pub(crate) fn reply_to_made(alloc: Global, seed: u32) -> Reply
    ensures reply { Replies result (made seed) }
    ensures unbroken { (status_of_reply result ≡ 0) ⊎ (status_of_reply result ≡ 6) }
{
    match line_of(alloc, seed) {
        Ok(text) => Reply::Done {
            text,
            asked: Asked::Nothing,
        },
        Err(_) => Reply::NoMemory,
    }
}
