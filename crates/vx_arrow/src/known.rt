//! The picks of a step that is alone, known without being listed: those of a slice, of a filter, or
//! of a take by integers, if none of these has nulls.
ghost use Rattle.std.specs.Prelude.{◌≡◌, ◌+◌, ◌≤◌, ◌<◌, ◌^◌, ◌++◌, ◌*◌, None, Some, drop, length, map, take, true, ℕ, false, IfNone, IfOk, IfSome, OnErr};
ghost use Rattle.std.specs.List.{list_all, range_with_len};
ghost use Rattle.vx_types.specs.PType.{is_int, number, width};
ghost use Rattle.vx_positions.specs.Positions.{is_position, position_of};
ghost use Rattle.vx_arrow.specs.Known.{AreNumbers, AreOfImage, IsAlone, IsHeld, IsSound, IsUnknown, Leaves, are_positions, is_known, number_bytes, numbers_at, places_of};
ghost use Rattle.std.specs.Int.RustNames.{count_ones};
ghost use Rattle.vx_bits.specs.BitBuffer.{true_count_of};
ghost use Rattle.vx_bits.specs.Words.{word_bits};
ghost use Rattle.vx_mask.specs.Positions.{positions, set_of};
ghost use Rattle.vx_arrow.specs.Answer.{AreMeant};
ghost use Rattle.vx_arrow.specs.Image.{filter_lack, kind_in, ptype_in, step_in, step_lack, step_parts, typed_lack};

use crate::copies::{bits_in, records_at};
use crate::image::{StepImage, StepKind, kind_of, ptype_of};
use crate::lacks::first_lack;
use std::alloc::Global;
use vx_bits::{BitBuffer, NoMemory};
use vx_positions::{is_position, position};
use vx_types::PType;

/// The integers of a take, none of them null: `len` records from record `offset` of the bytes on.
#[derive(Clone, Copy)]
pub struct Numbers<'a> {
    /// Their type.
    pub ptype: PType,
    bytes: &'a [u8],
    offset: usize,
    len: usize,
}

/// The picks of a step that is alone.
#[derive(Drop)]
pub enum KnownPicks<'a> {
    /// `len` rows from row `start` on.
    Range {
        /// The first row.
        start: usize,
        /// How many rows.
        len: usize,
    },
    /// Integers, each of which is one of the rows.
    Numbers(Numbers<'a>),
    /// The rows at the set bits, which are as many as the rows.
    Mask(BitBuffer),
}

// A method of numbers for the width of their type, which is one of integers: so each width has a
// loop of its own.
macro_rules! by_integer {
    ($numbers:expr, $with:ident $(, $arg:expr)*) => {
        match $numbers.ptype {
            PType::U8 => $numbers.$with::<1>(PType::U8 $(, $arg)*),
            PType::U16 => $numbers.$with::<2>(PType::U16 $(, $arg)*),
            PType::U32 => $numbers.$with::<4>(PType::U32 $(, $arg)*),
            PType::U64 => $numbers.$with::<8>(PType::U64 $(, $arg)*),
            PType::I8 => $numbers.$with::<1>(PType::I8 $(, $arg)*),
            PType::I16 => $numbers.$with::<2>(PType::I16 $(, $arg)*),
            PType::I32 => $numbers.$with::<4>(PType::I32 $(, $arg)*),
            PType::I64 => $numbers.$with::<8>(PType::I64 $(, $arg)*),
            PType::F16 | PType::F32 | PType::F64 => unreachable!(),
        }
    };
}

// Whether a number is one of `rows` positions.
#[inline(always)]
fn is_there<const W: usize>(ptype: PType, bytes: &[u8; W], rows: usize) -> bool
    requires int { is_int ptype ≡ true }
    requires width { W ≡ width ptype }
    ensures { result ≡ is_position rows (number ptype bytes.now) }
{
    is_position(ptype.number(bytes), rows)
}

// The position that it names.
#[inline(always)]
fn place_of<const W: usize>(ptype: PType, bytes: &[u8; W], rows: usize) -> u64
    requires int { is_int ptype ≡ true }
    requires width { W ≡ width ptype }
    requires there { is_position rows (number ptype bytes.now) ≡ true }
    ensures { result ≡ position_of (number ptype bytes.now) }
{
    position(ptype.number(bytes), rows) as u64
}

// Whether each record is one of `rows` positions. All are looked at, so that no branch waits for
// one.
fn are_below<const W: usize>(ptype: PType, records: &[[u8; W]], rows: usize) -> bool
    requires int { is_int ptype ≡ true }
    requires width { W ≡ width ptype }
    ensures { result ≡ list_all (λ r. is_position rows (number ptype r)) records.now }
{
    let mut are_below = true;
    for record in records {
        are_below = are_below & is_there(ptype, record, rows);
    }
    are_below
}

// Writes the position of each record.
fn write_positions<const W: usize>(
    ptype: PType,
    records: &[[u8; W]],
    rows: usize,
    places: &mut [u64],
)
    requires int { is_int ptype ≡ true }
    requires width { W ≡ width ptype }
    requires below { list_all (λ r. is_position rows (number ptype r)) records.now ≡ true }
    requires room { length records.now ≤ length places.old }
    ensures { places.new ≡ map (λ r. position_of (number ptype r)) records.now
        ++ drop (length records.now) places.old }
{
    for k in 0..records.len() {
        places[k] = place_of(ptype, &records[k], rows);
    }
}

impl Numbers<'_> {
    /// Returns the little-endian bytes of each number, W of them.
    #[inline(always)]
    pub fn records<const W: usize>(&self) -> &[[u8; W]]
        requires held { IsHeld self.now }
        requires width { W ≡ width self.now.ptype }
        ensures { result.now ≡ number_bytes self.now }
    {
        records_at(self.bytes, self.offset, self.len)
    }

    // Whether each number, of this type, is one of `rows` positions.
    fn are_below<const W: usize>(&self, ptype: PType, rows: usize) -> bool
        requires held { IsHeld self.now }
        requires ptype { ptype ≡ self.now.ptype }
        requires width { W ≡ width self.now.ptype }
        ensures { result ≡ are_positions rows self.now }
    {
        are_below(ptype, self.records::<W>(), rows)
    }

    // Writes the numbers, of this type.
    fn write_as<const W: usize>(&self, ptype: PType, rows: usize, places: &mut [u64])
        requires held { IsHeld self.now }
        requires ptype { ptype ≡ self.now.ptype }
        requires width { W ≡ width self.now.ptype }
        requires below { are_positions rows self.now ≡ true }
        requires room { self.now.len ≤ length places.old }
        ensures { places.new ≡ numbers_at self.now ++ drop self.now.len places.old }
    {
        write_positions(ptype, self.records::<W>(), rows, places);
    }

    // Whether each number is one of `rows` positions.
    fn are_positions(&self, rows: usize) -> bool
        requires { IsHeld self.now }
        ensures { result ≡ are_positions rows self.now }
    {
        by_integer!(self, are_below, rows)
    }

    // Writes the numbers, each of which is one of `rows` positions.
    fn write(&self, rows: usize, places: &mut [u64])
        requires held { IsHeld self.now }
        requires below { are_positions rows self.now ≡ true }
        requires room { self.now.len ≤ length places.old }
        ensures { places.new ≡ numbers_at self.now ++ drop self.now.len places.old }
    {
        by_integer!(self, write_as, rows, places)
    }
}

// Writes the numbers from `start` on.
fn write_range(start: usize, len: usize, places: &mut [u64])
    requires small { start + len < 2 ^ 64 }
    requires room { len ≤ length places.old }
    ensures { places.new ≡ range_with_len start len ++ drop len places.old }
{
    for k in 0..len {
        places[k] = (start + k) as u64;
    }
}

// Writes the set positions of a word, whose first bit has position `base`, behind the `kept` that
// are written, and returns how many are written then.
#[inline(always)]
fn put_word(places: &mut [u64], kept: usize, base: u64, word: u64) -> usize
    requires counted { base + 64 ≤ 2 ^ 64 }
    requires room { kept + count_ones word ≤ length places.old }
    ensures count { result ≡ kept + count_ones word }
    ensures front { take result places.new
        ≡ take kept places.old ++ positions base (word_bits word 64) }
    ensures rest { drop result places.new ≡ drop result places.old }
{
    let mut next = kept;
    let mut left = word;
    for k in 0..word.count_ones() {
        // Only the loop's invariant speaks of it.
        let _ = k;
        places[next] = base + u64::from(left.trailing_zeros());
        next += 1;
        left &= left - 1;
    }
    next
}

// Writes the positions of the set bits.
fn write_set(bits: &BitBuffer, places: &mut [u64])
    requires { true_count_of bits.now.bits ≤ length places.old }
    ensures { places.new
        ≡ set_of bits.now.bits ++ drop (true_count_of bits.now.bits) places.old }
{
    let words = bits.words();
    let mut kept = 0;
    for w in 0..bits.len().div_ceil(64) {
        kept = put_word(places, kept, 64 * w as u64, words.word(w));
    }
}

impl KnownPicks<'_> {
    /// Returns how many picks there are.
    pub fn len(&self) -> usize
        ensures { result ≡ length (places_of self.now) }
    {
        match self {
            KnownPicks::Range { len, .. } => *len,
            KnownPicks::Numbers(numbers) => numbers.len,
            KnownPicks::Mask(bits) => bits.true_count(),
        }
    }

    /// Writes the picks, each of which is one of `rows` rows.
    pub(crate) fn write(&self, rows: usize, places: &mut [u64])
        requires sound { IsSound rows self.now }
        requires room { length (places_of self.now) ≤ length places.old }
        ensures { places.new ≡ places_of self.now
            ++ drop (length (places_of self.now)) places.old }
    {
        match self {
            KnownPicks::Range { start, len } => write_range(*start, *len, places),
            KnownPicks::Numbers(numbers) => numbers.write(rows, places),
            KnownPicks::Mask(bits) => write_set(bits, places),
        }
    }
}

// The numbers of a take that lacks nothing, where they are integers and none is null.
fn numbers_of<'a>(image: &StepImage<'a>) -> Option<Numbers<'a>>
    requires kind { kind_in image.now.kind ≡ Some StepKind.Take }
    requires lack { typed_lack (ptype_in image.now.ptype) (step_parts image.now) ≡ None }
    ensures numbers { IfSome result (AreNumbers (step_parts image.now)) }
    ensures image { IfSome result (AreOfImage (step_parts image.now)) }
    ensures none { IfNone result ((rows : ℕ) → is_known rows (step_parts image.now) ≡ false) }
{
    let Some(ptype) = ptype_of(image.ptype) else {
        return None;
    };
    if !ptype.is_int() || !image.valid.is_empty() {
        return None;
    }
    Some(Numbers {
        ptype,
        bytes: image.values,
        offset: image.offset as usize,
        len: image.len as usize,
    })
}

// The picks of a slice, unless it breaks a rule.
fn slice_picks<'a>(image: &StepImage<'a>, rows: usize) -> Option<KnownPicks<'a>>
    requires { kind_in image.now.kind ≡ Some StepKind.Slice }
    ensures picks { IfSome result (Leaves rows (step_in (step_parts image.now))) }
    ensures none { IfNone result (is_known rows (step_parts image.now) ≡ false) }
{
    if image.start > image.end || image.end > rows as u64 {
        return None;
    }
    Some(KnownPicks::Range {
        start: image.start as usize,
        len: (image.end - image.start) as usize,
    })
}

// The picks of a take, unless it breaks a rule or has nulls.
fn take_picks<'a>(image: &StepImage<'a>, rows: usize) -> Option<KnownPicks<'a>>
    requires kind { kind_in image.now.kind ≡ Some StepKind.Take }
    requires lack { typed_lack (ptype_in image.now.ptype) (step_parts image.now) ≡ None }
    ensures picks { IfSome result (Leaves rows (step_in (step_parts image.now))) }
    ensures none { IfNone result (is_known rows (step_parts image.now) ≡ false) }
{
    let numbers = numbers_of(image)?;
    if !numbers.are_positions(rows) {
        return None;
    }
    Some(KnownPicks::Numbers(numbers))
}

// The picks of a filter, unless it breaks a rule or has nulls. Fails only with `NoMemory`.
fn filter_picks<'a>(
    alloc: Global,
    image: &StepImage<'a>,
    rows: usize,
) -> Result<Option<KnownPicks<'a>>, NoMemory>
    requires kind { kind_in image.now.kind ≡ Some StepKind.Filter }
    requires lack { filter_lack (step_parts image.now) ≡ None }
    ensures picks { IfOk result (λ found.
        IfSome found (Leaves rows (step_in (step_parts image.now)))) }
    ensures none { IfOk result (λ found.
        IfNone found (is_known rows (step_parts image.now) ≡ false)) }
{
    if !image.valid.is_empty() || image.len != rows as u64 {
        return Ok(None);
    }
    let bits = bits_in(alloc, image.values, image.offset as usize, rows)?;
    Ok(Some(KnownPicks::Mask(bits)))
}

// The picks of an image that lacks nothing, over so many rows. Fails only with `NoMemory`.
fn picks_of<'a>(
    alloc: Global,
    image: &StepImage<'a>,
    rows: usize,
) -> Result<Option<KnownPicks<'a>>, NoMemory>
    requires { step_lack (step_parts image.now) ≡ None }
    ensures picks { IfOk result (λ found.
        IfSome found (Leaves rows (step_in (step_parts image.now)))) }
    ensures none { IfOk result (λ found.
        IfNone found (is_known rows (step_parts image.now) ≡ false)) }
{
    match kind_of(image.kind) {
        Some(StepKind::Slice) => Ok(slice_picks(image, rows)),
        Some(StepKind::Filter) => filter_picks(alloc, image, rows),
        Some(StepKind::Take) => Ok(take_picks(image, rows)),
        _ => Ok(None),
    }
}

/// Returns the picks that the only step leaves of `rows` rows. `None` exactly if there are other
/// steps, if the step is malformed or invalid, or if it has a validity or ranges. Fails only with
/// `NoMemory`, and then the steps are well-formed.
pub fn known_picks<'a>(
    alloc: Global,
    images: &[StepImage<'a>],
    rows: usize,
) -> Result<Option<KnownPicks<'a>>, NoMemory>
    ensures alone { IfOk result (λ found. IfSome found (IsAlone rows (map step_parts images.now))) }
    ensures unknown { IfOk result (λ found.
        IfNone found (IsUnknown rows (map step_parts images.now))) }
    ensures meant { OnErr result (AreMeant (map step_parts images.now)) }
{
    if images.len() != 1 || first_lack(images).is_some() {
        return Ok(None);
    }
    picks_of(alloc, &images[0], rows)
}
