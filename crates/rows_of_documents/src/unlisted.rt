//! What no row can say: as many bytes as may be, bytes that are no text, and the longest lines of
//! a broken step. Each is judged as a row is.

use crate::answer::{answer_of, push_text};
use rows_common::Family;
use std::alloc::Global;
use std::test::Fail;
use vx_bits::Buffer;
use vx_rows::{CountingSink, MemorySink, Sink, SteadySource, Trace, run};
use vx_steps::{Cause, FAULT_ROOM, fault_line};

/// A document of two rows and no steps.
const TWO_ROWS: &str =
    r#"{"column":{"layout":"Primitive","type":"u8","values":[10,20]},"steps":[]}"#;

/// A document of as many rows as may be. Of 256 rows 10 take 2 bytes, 90 take 3 and 156 take 4:
/// 914 bytes. The type's line takes 3.
const LONG_RAMP: &str = r#"{"column":{"layout":"Primitive","type":"u8","ramp":16777216},
    "steps":[{"filter":{"len":16777216,"every":true}}]}"#;

/// The families of what no row can say.
pub(crate) fn print_families(rt: &impl Print, alloc: Global) -> Result<(), Fail> {
    print_bounds(rt, alloc)?;
    print_bytes(rt, alloc)?;
    print_blanks(rt, alloc)?;
    print_longest_lines(rt, alloc)
}

/// What the word `rows` gives over this source.
fn status_of<K: Sink>(alloc: Global, mut source: SteadySource, sink: &mut K) -> Result<u8, Fail> {
    let words = [String::from_str(alloc, "rows")?];
    Ok(run(alloc, &words, &mut source, sink, &mut Trace::new()))
}

/// A document and blanks, so many bytes in all.
fn padded(alloc: Global, document: &str, len: usize) -> Result<SteadySource, Fail> {
    let mut bytes = document.as_bytes().to_vec(alloc)?;
    bytes.resize(len, b' ')?;
    Ok(SteadySource::new(Buffer::from_vec(alloc, bytes)?, 1_000_000))
}

/// The status of a document and blanks, so many bytes in all, and how many bytes were written.
fn count_of(alloc: Global, document: &str, len: usize) -> Result<String, Fail> {
    let mut sink = CountingSink::new();
    let status = status_of(alloc, padded(alloc, document, len)?, &mut sink)?;
    let written = sink.taken();
    Ok(format!(in alloc; "= {status}\n= {written} bytes\n")?)
}

/// Documents and ramps up to the bound.
fn print_bounds(rt: &impl Print, alloc: Global) -> Result<(), Fail> {
    println!(rt; "# documents and ramps up to the bound")?;
    let mut family = Family::new();
    for (name, document, len, told) in [
        (
            "the longest document",
            TWO_ROWS,
            16_777_216,
            "= 0\n= 9 bytes\n",
        ),
        ("a longer one", TWO_ROWS, 16_777_217, "= 7\n= 0 bytes\n"),
        (
            "the longest ramp",
            LONG_RAMP,
            200,
            "= 0\n= 59899907 bytes\n",
        ),
    ] {
        family.judge(rt, name, told, count_of(alloc, document, len)?.as_str())?;
    }
    family.print_count(rt)
}

/// These bytes, 16 a read.
fn source_of(alloc: Global, bytes: &[u8]) -> Result<SteadySource, Fail> {
    let bytes = Buffer::from_vec(alloc, bytes.to_vec(alloc)?)?;
    Ok(SteadySource::new(bytes, 16))
}

/// A sink that takes 16 bytes a write.
fn sink_of(alloc: Global) -> Result<MemorySink, Fail> {
    let failing = Buffer::from_vec(alloc, Vec::new(alloc))?;
    Ok(MemorySink::new(alloc, 16, failing, 4096)?)
}

/// The lines that tell what these bytes give.
fn given_by(alloc: Global, bytes: &[u8]) -> Result<String, Fail> {
    let mut sink = sink_of(alloc)?;
    let status = status_of(alloc, source_of(alloc, bytes)?, &mut sink)?;
    answer_of(alloc, status, sink.bytes())
}

/// Bytes that no line can say.
fn print_bytes(rt: &impl Print, alloc: Global) -> Result<(), Fail> {
    println!(rt; "# bytes that are no text")?;
    let mut family = Family::new();
    for (name, bytes) in [
        ("a byte that no text has", b"\"\xff\"".as_slice()),
        (
            "a character that is cut off",
            b"{\"column\":\"\xc3\"}".as_slice(),
        ),
        ("half of a pair of UTF-16", b"\"\xed\xa0\x80\"".as_slice()),
        ("a zero byte", b"\0".as_slice()),
        (
            "a mark of the byte order",
            b"\xef\xbb\xbf{\"column\":1,\"steps\":[]}".as_slice(),
        ),
    ] {
        family.judge(rt, name, "= 2\n", given_by(alloc, bytes)?.as_str())?;
    }
    family.print_count(rt)
}

/// A document with every blank that JSON has.
fn print_blanks(rt: &impl Print, alloc: Global) -> Result<(), Fail> {
    println!(rt; "# blanks of each kind")?;
    let mut family = Family::new();
    let blanks = b" {\"steps\":[ ] ,\n\t\"column\":{\"values\":[7] ,\"type\":\"u8\",
        \"layout\":\"Primitive\"}}\r\n";
    let given = given_by(alloc, blanks)?;
    family.judge(rt, "each blank", "= 0\n= u8\n= 7\n", given.as_str())?;
    family.print_count(rt)
}

/// The greatest number that a line of a broken step may hold.
const ALL: usize = 18446744073709551615;

/// The line of a broken step whose number is the greatest.
fn line_of(alloc: Global, cause: &Cause) -> Result<String, Fail> {
    let mut line = [0; FAULT_ROOM];
    let len = fault_line(ALL, cause, &mut line);
    let mut lines = String::new(alloc);
    push_text(&mut lines, std::str::from_utf8(&line[..len])?)?;
    Ok(lines)
}

const LONGEST_RANGE: &str = "= step 18446744073709551615: BadRange \
    18446744073709551615..18446744073709551615 of 18446744073709551615\n";

const LONGEST_MASK: &str = "= step 18446744073709551615: BadMask \
    18446744073709551615 of 18446744073709551615\n";

const LONGEST_INDICES: &str = "= step 18446744073709551615: InvalidIndices\n";

const LONGEST_PIECES: &str = "= step 18446744073709551615: BadPieces\n";

const LONGEST_BOUNDS: &str = "= step 18446744073709551615: OutOfBounds \
    -170141183460469231731687303715884105728 of 18446744073709551615\n";

/// The lines of a broken step with the longest numbers.
fn print_longest_lines(rt: &impl Print, alloc: Global) -> Result<(), Fail> {
    println!(rt; "# the longest lines of a broken step")?;
    let mut family = Family::new();
    let (start, end, len, index) = (ALL, ALL, ALL, i128::MIN);
    let mask_len = ALL;
    for (name, cause, told) in [
        (
            "BadRange",
            Cause::BadRange { start, end, len },
            LONGEST_RANGE,
        ),
        ("BadMask", Cause::BadMask { mask_len, len }, LONGEST_MASK),
        ("InvalidIndices", Cause::InvalidIndices, LONGEST_INDICES),
        ("BadPieces", Cause::BadPieces, LONGEST_PIECES),
        (
            "OutOfBounds",
            Cause::OutOfBounds { index, len },
            LONGEST_BOUNDS,
        ),
    ] {
        family.judge(rt, name, told, line_of(alloc, &cause)?.as_str())?;
    }
    family.print_count(rt)
}
