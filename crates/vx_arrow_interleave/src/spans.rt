//! Rows of one table that follow one another.
ghost use Rattle.std.specs.Prelude.{◌≡◌, ◌++◌, ◌<◌, ◌^◌, IfSome, OnOk, length};
ghost use Rattle.vx_arrow_interleave.specs.Spots.{span_spots, spots};

use crate::faults::Fault;

/// Rows of one table that follow one another. It crosses a border to C as it stands.
#[repr(C)]
#[derive(Clone, Copy)]
pub struct Span {
    /// The table's number.
    pub source: u64,
    /// The first row.
    pub start: u64,
    /// How many rows they are.
    pub len: u64,
}

// The rows of both spans, where the second one follows the first.
#[inline(always)]
fn merged(first: Span, second: Span) -> Option<Span>
    ensures { IfSome result (λ span. span_spots span ≡ span_spots first ++ span_spots second) }
{
    if first.source != second.source {
        return None;
    }
    if first.start.checked_add(first.len)? != second.start {
        return None;
    }
    Some(Span {
        source: first.source,
        start: first.start,
        len: first.len.checked_add(second.len)?,
    })
}

/// Appends the rows of a span, to the last span where they follow its own.
pub(crate) fn push_span(spans: &mut Vec<Span>, span: Span) -> Result<(), Fault>
    ensures { OnOk result
        (spots spans.new.items ≡ spots spans.old.items ++ span_spots span) }
{
    if span.len == 0 {
        return Ok(());
    }
    let last = spans.len();
    if last > 0 {
        if let Some(both) = merged(spans[last - 1], span) {
            spans[last - 1] = both;
            return Ok(());
        }
    }
    spans.push(span)?;
    Ok(())
}

/// How many rows spans have; none past 2^60.
pub(crate) fn rows_of(spans: &[Span]) -> Option<u64>
    ensures len { IfSome result (λ n. n ≡ length (spots spans.now)) }
    ensures few { IfSome result (λ n. n < 2 ^ 60) }
{
    let mut rows = 0u64;
    for k in 0..spans.len() {
        rows = rows.checked_add(spans[k].len)?;
        if rows >= 1 << 60 {
            return None;
        }
    }
    Some(rows)
}
