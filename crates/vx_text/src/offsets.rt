//! Offsets in a list that widens.
ghost use Rattle.std.specs.Prelude.{◌≡◌, ◌+◌, ◌-◌, ◌++◌, ◌<◌, ◌≤◌, ◌^◌, [], ◌∷◌, false, length, map, pos, slice_index, true, IfOk, OnErr, OnOk};
ghost use Rattle.std.specs.Int.{w32, w64, from_le_bytes};
ghost use Rattle.vx_bits.specs.Records.{records_of, width_of};
ghost use Rattle.vx_types.specs.PType.{is_int, width};
ghost use Rattle.vx_types.specs.TypeTree.{is_int_kind, primitive_kind};
ghost use Rattle.vx_model.specs.Numbers.{integers_of};
ghost use Rattle.vx_model.specs.Valid.{non_nullable};
ghost use Rattle.vx_text.specs.OffsetList.{first_type, greatest_offset, is_wide, numbers_of, offsets_by, run_ends, stored_records, stored_width, type_by, with_offset};

use crate::ends::push_ends;
use crate::text_run::TextRun;
use std::alloc::Global;
use std::marker::Model;
use vx_bits::{Buffer, NoMemory, Records};
use vx_column::{PType, PrimitiveArray, number_column};

// The records of offsets, of 32 bits or of 64.
#[derive(Drop)]
enum OffsetRecords {
    Narrow(Vec<[u8; 4]>),
    Wide(Vec<[u8; 8]>),
}

impl OffsetRecords {
    // How many there are.
    fn len(&self) -> usize
        ensures { result ≡ length (numbers_of self.now) }
    {
        match self {
            OffsetRecords::Narrow(records) => records.len(),
            OffsetRecords::Wide(records) => records.len(),
        }
    }

    // Offset `i`.
    fn get(&self, i: usize) -> usize
        requires { i < length (numbers_of self.now) }
        ensures { result ≡ slice_index (numbers_of self.now) i }
    {
        match self {
            OffsetRecords::Narrow(records) => u32::from_le_bytes(records[i]) as usize,
            OffsetRecords::Wide(records) => u64::from_le_bytes(records[i]) as usize,
        }
    }

    // The offsets' type.
    fn ptype(&self, signed: bool) -> PType
        ensures { result ≡ type_by signed self.now }
    {
        match self {
            OffsetRecords::Narrow(_) => { if signed { PType::I32 } else { PType::U32 } }
            OffsetRecords::Wide(_) => { if signed { PType::I64 } else { PType::U64 } }
        }
    }

    // Appends an offset that fits. Fails only with `NoMemory`, and then they are as before.
    fn push(&mut self, signed: bool, offset: usize) -> Result<(), NoMemory>
        requires { offset ≤ greatest_offset (type_by signed self.old) }
        ensures numbers { OnOk result
            (numbers_of self.new ≡ numbers_of self.old ++ offset ∷ []) }
        ensures err { OnErr result (numbers_of self.new ≡ numbers_of self.old) }
        ensures kept { type_by signed self.new ≡ type_by signed self.old }
    {
        match self {
            OffsetRecords::Narrow(records) => records.push((offset as u32).to_le_bytes())?,
            OffsetRecords::Wide(records) => records.push((offset as u64).to_le_bytes())?,
        }
        Ok(())
    }

    // Appends where each row of a run ends, if its bytes stand behind `base` others and the last
    // end fits. Fails only with `NoMemory`, and then they are as before.
    #[inline(always)]
    fn push_run<const W: usize>(
        &mut self,
        signed: bool,
        base: usize,
        run: TextRun<'_, W>,
    ) -> Result<(), NoMemory>
        requires fits { base + (slice_index (offsets_by run.ptype run.records.now) run.rows.1
            - slice_index (offsets_by run.ptype run.records.now) run.rows.0)
            ≤ greatest_offset (type_by signed self.old) }
        ensures numbers { OnOk result (numbers_of self.new ≡ numbers_of self.old
            ++ run_ends (offsets_by run.entry.ptype run.entry.records.now) base
            run.entry.rows.0 run.entry.rows.1) }
        ensures err { OnErr result (numbers_of self.new ≡ numbers_of self.old) }
        ensures kept { type_by signed self.new ≡ type_by signed self.old }
    {
        match self {
            OffsetRecords::Narrow(ends) => push_ends(ends, base, run),
            OffsetRecords::Wide(ends) => push_ends(ends, base, run),
        }
    }

    // These offsets of 32 bits in 64, and one more. Fails only with `NoMemory`.
    fn widened_by(&self, alloc: Global, offset: usize) -> Result<OffsetRecords, NoMemory>
        requires { is_wide self.now ≡ false }
        ensures numbers { IfOk result
            (λ wide. numbers_of wide ≡ numbers_of self.now ++ offset ∷ []) }
        ensures wide { IfOk result (λ wide. is_wide wide ≡ true) }
    {
        let mut wide = match self {
            OffsetRecords::Narrow(records) => {
                let room = records.capacity().max(records.len() + 1);
                widened(alloc, records, room)?
            }
            OffsetRecords::Wide(_) => unreachable!(),
        };
        wide.push((offset as u64).to_le_bytes())?;
        Ok(OffsetRecords::Wide(wide))
    }

    // The records as those of a column. Fails only with `NoMemory`.
    fn into_values(self, alloc: Global) -> Result<Records, NoMemory>
        ensures records { IfOk result (λ values. records_of values ≡ stored_records self) }
        ensures width { IfOk result (λ values. width_of values ≡ stored_width self) }
    {
        match self {
            OffsetRecords::Narrow(records) => Ok(Records::W4(Buffer::from_vec(alloc, records)?)),
            OffsetRecords::Wide(records) => Ok(Records::W8(Buffer::from_vec(alloc, records)?)),
        }
    }
}

// The numbers of records of 32 bits in 64, with room for `room` of them.
fn widened(alloc: Global, records: &[[u8; 4]], room: usize) -> Result<Vec<[u8; 8]>, NoMemory>
    requires { length records.now < room }
    ensures { IfOk result (λ wide. map (from_le_bytes w64) wide.items
        ≡ map (from_le_bytes w32) records.now) }
{
    let mut wide = Vec::with_capacity(alloc, room)?;
    for record in records {
        let number = u32::from_le_bytes(*record);
        wide.push_reserved(u64::from(number).to_le_bytes());
    }
    Ok(wide)
}

/// A list of offsets that widens: of 32 bits until an offset passes these, and of 64 from then on.
///
/// Clauses see the type and the numbers.
#[derive(Drop)]
pub struct Offsets {
    signed: bool,
    records: OffsetRecords,
    alloc: Global,
}

impl Model for Offsets {
    ghost use Rattle.std.specs.Prelude.{◌≤◌};
    ghost use Rattle.std.specs.List.{All};
    ghost use Rattle.vx_text.specs.OffsetList.{OffsetList, greatest_offset, numbers_of, offset_list, type_by};

    ghost Value = { OffsetList };

    ghost view = { λ o. offset_list o.signed o.records };

    ghost invariant = { λ o.
        All (λ n. n ≤ greatest_offset (type_by o.signed o.records)) (numbers_of o.records) };
}

impl Offsets {
    /// An empty list of offsets: 64 bits wide for `U64` and `I64`, else 32. Allocates nothing.
    pub fn new(alloc: Global, ptype: PType) -> Offsets
        requires { is_int ptype ≡ true }
        ensures { result ≡ record { ptype = first_type ptype; numbers = [] } }
    {
        let records = match ptype {
            PType::U64 | PType::I64 => OffsetRecords::Wide(Vec::new(alloc)),
            _ => OffsetRecords::Narrow(Vec::new(alloc)),
        };
        Offsets {
            signed: ptype.is_signed(),
            records,
            alloc,
        }
    }

    /// No offset yet, with room for so many. Fails only with `NoMemory`.
    pub(crate) fn with_room(alloc: Global, ptype: PType, room: usize) -> Result<Offsets, NoMemory>
        requires { is_int ptype ≡ true }
        ensures { IfOk result
            (λ offsets. offsets ≡ record { ptype = first_type ptype; numbers = [] }) }
    {
        let signed = ptype.is_signed();
        let records = match ptype {
            PType::U64 | PType::I64 => OffsetRecords::Wide(Vec::with_capacity(alloc, room)?),
            _ => OffsetRecords::Narrow(Vec::with_capacity(alloc, room)?),
        };
        Ok(Offsets {
            signed,
            records,
            alloc,
        })
    }

    /// The offsets' type.
    pub fn ptype(&self) -> PType
        ensures { result ≡ self.now.ptype }
    {
        self.records.ptype(self.signed)
    }

    /// How many there are.
    pub fn len(&self) -> usize
        ensures { result ≡ length self.now.numbers }
    {
        self.records.len()
    }

    /// Offset `i`.
    pub fn get(&self, i: usize) -> usize
        requires { i < length self.now.numbers }
        ensures { result ≡ slice_index self.now.numbers i }
    {
        self.records.get(i)
    }

    /// The greatest offset of their type.
    pub(crate) fn greatest(&self) -> usize
        ensures { result ≡ greatest_offset self.now.ptype }
    {
        match self.ptype() {
            PType::I32 => 2_147_483_647,
            PType::U32 => 4_294_967_295,
            _ => 9_223_372_036_854_775_807,
        }
    }

    /// Appends an offset; the first that passes 32 bits widens all to 64. Fails only with
    /// `NoMemory`, and then they are as before.
    pub fn push(&mut self, offset: usize) -> Result<(), NoMemory>
        requires { offset < 2 ^ 63 }
        ensures ok { OnOk result (self.new ≡ with_offset self.old offset) }
        ensures err { OnErr result (self.new ≡ self.old) }
    {
        if offset <= self.greatest() {
            return self.records.push(self.signed, offset);
        }
        self.records = self.records.widened_by(self.alloc, offset)?;
        Ok(())
    }

    /// Appends where each row of a run ends, if its bytes stand behind `base` others and the last
    /// end fits their type. Fails only with `NoMemory`.
    #[inline(always)]
    pub(crate) fn push_run<const W: usize>(
        &mut self,
        base: usize,
        run: TextRun<'_, W>,
    ) -> Result<(), NoMemory>
        requires fits { base + (slice_index (offsets_by run.ptype run.records.now) run.rows.1
            - slice_index (offsets_by run.ptype run.records.now) run.rows.0)
            ≤ greatest_offset self.old.ptype }
        ensures { OnOk result (self.new ≡ record self.old {
          numbers = self.old.numbers
              ++ run_ends (offsets_by run.entry.ptype run.entry.records.now) base
              run.entry.rows.0 run.entry.rows.1;
        }) }
    {
        self.records.push_run(self.signed, base, run)
    }

    /// The column of these offsets. Fails only with `NoMemory`.
    pub fn into_primitive(self) -> Result<PrimitiveArray, NoMemory>
        ensures kind { IfOk result (λ a. a.kind ≡ primitive_kind self.ptype) }
        ensures int { IfOk result (λ a. is_int_kind a.kind ≡ true) }
        ensures numbers { IfOk result (λ a. integers_of a ≡ map pos self.numbers) }
        ensures valid { IfOk result (λ a. a.valid ≡ non_nullable) }
    {
        let ptype = self.ptype();
        let Offsets {
            signed: _,
            records,
            alloc,
        } = self;
        let values = records.into_values(alloc)?;
        Ok(number_column(ptype, values))
    }
}
