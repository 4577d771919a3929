//! A run of the texts that offsets of a known type cut.
ghost use Rattle.std.specs.Prelude.{◌≡◌, ◌+◌, ◌-◌, ◌<◌, ◌≤◌, length, slice_index, slice_range, true};
ghost use Rattle.vx_types.specs.PType.{is_int, width};
ghost use Rattle.vx_offsets.specs.Offsets.{are_offsets, record_numbers};
ghost use Rattle.vx_text.specs.OffsetList.{offsets_by};

use vx_column::PType;
use vx_offsets::offset_at;

/// A run of rows, from its start up to its end, of the texts that records of an integer type cut.
#[derive(Clone, Copy)]
pub(crate) struct TextRun<'a, const W: usize> {
    pub(crate) ptype: PType,
    pub(crate) records: &'a [[u8; W]],
    pub(crate) bytes: &'a [u8],
    pub(crate) rows: (usize, usize),
    ghost int: { is_int ptype ≡ true },
    ghost width: { W ≡ width ptype },
    ghost offsets: { are_offsets (record_numbers ptype records.now) (length bytes.now) ≡ true },
    ghost ordered: { rows.0 ≤ rows.1 },
    ghost within: { rows.1 < length records.now },
}

impl<'a, const W: usize> TextRun<'a, W> {
    // Offset `i` of the records.
    #[inline(always)]
    fn offset(self, i: usize) -> usize
        requires { i < length self.records.now }
        ensures value { result
            ≡ slice_index (offsets_by self.entry.ptype self.entry.records.now) i }
        ensures within { result ≤ length self.entry.bytes.now }
    {
        offset_at(self.ptype, self.records, i, self.bytes.len())
    }

    /// Where its bytes begin and end.
    #[inline(always)]
    pub(crate) fn bounds(self) -> (usize, usize)
        ensures start { result.0
            ≡ slice_index (offsets_by self.entry.ptype self.entry.records.now) self.entry.rows.0 }
        ensures end { result.1
            ≡ slice_index (offsets_by self.entry.ptype self.entry.records.now) self.entry.rows.1 }
        ensures ordered { result.0 ≤ result.1 }
        ensures within { result.1 ≤ length self.entry.bytes.now }
    {
        let start = self.offset(self.rows.0);
        let end = self.offset(self.rows.1);
        (start, end)
    }

    /// The run's bytes.
    #[inline(always)]
    pub(crate) fn bytes(self) -> &'a [u8]
        ensures value { result.now ≡ slice_range self.entry.bytes.now
            (slice_index (offsets_by self.entry.ptype self.entry.records.now) self.entry.rows.0)
            (slice_index (offsets_by self.entry.ptype self.entry.records.now) self.entry.rows.1) }
        ensures len { length result.now
            ≡ slice_index (offsets_by self.entry.ptype self.entry.records.now) self.entry.rows.1
            - slice_index (offsets_by self.entry.ptype self.entry.records.now) self.entry.rows.0 }
    {
        let (start, end) = self.bounds();
        &self.bytes[start..end]
    }

    /// How far behind `first`, where its bytes begin, a row of it ends.
    #[inline(always)]
    pub(crate) fn end_behind(self, first: usize, row: usize) -> usize
        requires first { first ≡ slice_index (offsets_by self.ptype self.records.now) self.rows.0 }
        requires from { self.rows.0 ≤ row }
        requires to { row < self.rows.1 }
        ensures value { result
            ≡ slice_index (offsets_by self.entry.ptype self.entry.records.now) (row + 1)
            - slice_index (offsets_by self.entry.ptype self.entry.records.now) self.entry.rows.0 }
        ensures within { result
            ≤ slice_index (offsets_by self.entry.ptype self.entry.records.now) self.entry.rows.1
            - slice_index (offsets_by self.entry.ptype self.entry.records.now) self.entry.rows.0 }
    {
        self.offset(row + 1) - first
    }
}
