//! A table of what each byte packs of each byte.
ghost use Rattle.std.specs.Prelude.{◌≡◌, ◌+◌, ◌*◌, ◌<◌, ◌≤◌, if◌then◌else◌, IfOk, vec_len, vec_capacity};
ghost use Rattle.vx_bitfilter.specs.Pext.{pext};
ghost use Rattle.vx_bitfilter.specs.Table.{first_entries, pext_entries};

use std::alloc::Global;
use std::marker::Model;
use vx_bits::NoMemory;

/// What each byte packs of each byte.
///
/// Clauses see the entries: entry `m * 256 + s` has the bits of s at the set positions of m,
/// packed from bit 0.
#[derive(Drop)]
pub struct PextTable {
    entries: Vec<u8>,
}

impl Model for PextTable {
    ghost use Rattle.std.specs.Prelude.{◌≡◌, ℕ, List};
    ghost use Rattle.vx_bitfilter.specs.Table.{pext_entries};

    ghost Value = { List ℕ };

    ghost view = { λ t. t.entries.items };

    ghost invariant = { λ t. t.entries.items ≡ pext_entries };
}

impl PextTable {
    /// The table of 65,536 entries. Fails only with `NoMemory`.
    pub fn new(alloc: Global) -> Result<PextTable, NoMemory>
        ensures { IfOk result (λ t. t ≡ pext_entries) }
    {
        let mut entries = Vec::with_capacity(alloc, 65_536)?;
        entries.resize(256, 0)?;
        for mask in 1..256 {
            push_row(&mut entries, mask);
        }
        Ok(PextTable { entries })
    }

    /// The bits of `src` at the set positions of `mask`, packed from bit 0, and zero above them:
    /// as `pext_fallback`, a byte at a time.
    #[inline]
    pub fn pext(&self, src: u64, mask: u64) -> u64
        ensures { result ≡ pext src mask }
    {
        let mut packed: u64 = 0;
        let mut held: u32 = 0;
        for k in 0..8 {
            let at: u32 = 8 * k;
            let picks = (mask >> at) & 0xff;
            packed |= self.entry((src >> at) & 0xff, picks) << held;
            held += picks.count_ones();
        }
        packed
    }

    // What a byte packs of a byte.
    #[inline(always)]
    fn entry(&self, src: u64, mask: u64) -> u64
        requires src_byte { src < 256 }
        requires mask_byte { mask < 256 }
        ensures { result ≡ pext src mask }
    {
        u64::from(self.entries[(256 * mask + src) as usize])
    }
}

// Appends the entries of a mask above 0: each pair from the entry of the upper bits of both.
fn push_row(entries: &mut Vec<u8>, mask: usize)
    requires some { 0 < mask }
    requires small { mask < 256 }
    requires before { entries.old.items ≡ first_entries (256 * mask) }
    requires len { vec_len entries.old ≡ 256 * mask }
    requires room { 256 * mask + 256 ≤ vec_capacity entries.old }
    ensures items { entries.new.items ≡ first_entries (256 * (mask + 1)) }
    ensures len { vec_len entries.new ≡ 256 * (mask + 1) }
    ensures capacity { vec_capacity entries.new ≡ vec_capacity entries.old }
{
    let wanted = mask % 2 == 1;
    for upper in 0..128 {
        let packed = entries[256 * (mask / 2) + upper];
        entries.push_reserved(below(packed, wanted, 0));
        entries.push_reserved(below(packed, wanted, 1));
    }
}

// What is packed, with one more bit below it where that is wanted.
#[inline(always)]
fn below(packed: u8, wanted: bool, bit: u8) -> u8
    requires small { packed < 128 }
    requires digit { bit < 2 }
    ensures { result ≡ (if wanted then bit + 2 * packed else packed) }
{
    if wanted { 2 * packed + bit } else { packed }
}
