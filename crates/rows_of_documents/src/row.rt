//! One row of the input.
ghost use Rattle.std.specs.Prelude.{◌<◌, IfOk};

use std::alloc::Global;
use std::test::Fail;
use vx_bits::Buffer;

/// The calls that fail, by their numbers from 0.
#[derive(Drop)]
pub(crate) struct Failing {
    /// The reads.
    pub(crate) reads: Buffer<usize>,
    /// The writes and finishes.
    pub(crate) writes: Buffer<usize>,
}

/// A run of the program: what it is given, and what of it fails.
#[derive(Drop)]
pub(crate) struct Row {
    /// The program's words.
    pub(crate) words: Vec<String>,
    /// How many bytes a read or a write takes at most, one at least.
    pub(crate) piece: usize,
    /// The calls that fail.
    pub(crate) failing: Failing,
    /// The document.
    pub(crate) document: String,
    ghost some: { 0 < piece },
}

/// The words of a field, between blanks.
fn words_of(alloc: Global, field: &str) -> Result<Vec<String>, Fail> {
    let mut words = Vec::new(alloc);
    for word in field.split_whitespace() {
        words.push(String::from_str(alloc, word)?)?;
    }
    Ok(words)
}

/// The numbers of a field, between blanks.
fn numbers_of(alloc: Global, field: &str) -> Result<Buffer<usize>, Fail> {
    let mut numbers = Vec::new(alloc);
    for word in field.split_whitespace() {
        numbers.push(word.parse::<usize>()?)?;
    }
    Ok(Buffer::from_vec(alloc, numbers)?)
}

/// How many bytes a call takes at most.
fn piece_of(field: &str) -> Result<usize, Fail>
    ensures { IfOk result (λ piece. 0 < piece) }
{
    let piece = field.trim().parse::<usize>()?;
    if piece == 0 {
        return Err("a piece has no byte".into());
    }
    Ok(piece)
}

/// The field up to the next `|`, and what is behind it.
fn field_of(line: &str) -> Result<(&str, &str), Fail> {
    Ok(line.split_once('|').ok_or("a row has five fields")?)
}

/// The calls that two fields name.
fn failing_of(alloc: Global, reads: &str, writes: &str) -> Result<Failing, Fail> {
    let reads = numbers_of(alloc, reads)?;
    let writes = numbers_of(alloc, writes)?;
    Ok(Failing { reads, writes })
}

/// The row that a line spells.
pub(crate) fn row_of(alloc: Global, line: &str) -> Result<Row, Fail> {
    let (words, line) = field_of(line)?;
    let (piece, line) = field_of(line)?;
    let (reads, line) = field_of(line)?;
    let (writes, document) = field_of(line)?;
    let piece = piece_of(piece)?;
    Ok(Row {
        piece,
        words: words_of(alloc, words)?,
        failing: failing_of(alloc, reads, writes)?,
        document: String::from_str(alloc, document)?,
    })
}
