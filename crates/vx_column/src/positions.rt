//! The numbers of a column as positions, read by its records where it stores some, else from row to
//! row.
ghost use Rattle.std.specs.Prelude.{◌≡◌, None, Some, true, IfOk, IfSome};
ghost use Rattle.vx_types.specs.TypeTree.{int_type_of, is_int_type};
ghost use Rattle.vx_types.specs.declared.nullability.Nullability.TheVariants.{NonNullable};
ghost use Rattle.vx_positions.specs.Positions.{AllThere, first_bad, positions_of};
ghost use Rattle.vx_model.specs.Numbers.{numbers_of};

use crate::array::{Array, Layout};
use std::alloc::Global;
use vx_bits::NoMemory;
use vx_positions::{
    Numbers, first_bad, first_bad_present, first_bad_shown, picks_of, picks_present, picks_shown,
};
use vx_take::Picks;
use vx_types::PType;

// The rows of a column of integer type, of any layout.
#[derive(Clone, Copy)]
struct Rows<'a> {
    array: &'a Array,
    ghost int: { is_int_type array.now.dtype ≡ true },
}

impl Numbers for Rows<'_> {
    ghost use Rattle.vx_types.specs.Nullability.{is_nullable};
    ghost use Rattle.vx_model.specs.Numbers.{numbers_of};

    ghost numbers = { λ r. numbers_of r.array.now };

    ghost nullable = { λ r. is_nullable r.array.now.dtype.nullability };

    #[tactic(auto, using(crate::proofs::NumberLists::numbers))]
    fn len(&self) -> usize {
        self.array.len()
    }

    #[tactic(auto, using(crate::proofs::NumberLists::numbers))]
    fn number(&self, i: usize) -> Option<i128> {
        self.array.number_at(i)
    }
}

impl Array {
    // The first number that is none of `len` positions, by the records that it stores; none where
    // it stores none.
    fn bad_record(&self, ptype: PType, len: usize) -> Option<Option<i128>>
        requires { int_type_of self.now.dtype ≡ Some ptype }
        ensures { IfSome result (λ bad. bad ≡ first_bad len (numbers_of self.now)) }
    {
        if let Some(values) = self.plain_records() {
            return Some(first_bad_present(ptype, values, len));
        }
        match self.shown_records() {
            Some((values, bits)) => Some(first_bad_shown(ptype, values, bits, len)),
            None => None,
        }
    }

    // Whether each number is one of `len` positions, as far as stored records tell it: those of the
    // column, or those that its rows are of. So no row of a lazy column is looked up by its rank
    // where all rows that it is made of are positions.
    fn tells_positions(&self, ptype: PType, len: usize) -> bool
        requires { int_type_of self.now.dtype ≡ Some ptype }
        ensures { result ≡ true → first_bad len (numbers_of self.now) ≡ None }
    {
        match self.layout() {
            Layout::Dict(a) => a.values().tells_positions(ptype, len),
            Layout::Filter(a) => a.child().tells_positions(ptype, len),
            _ => match self.bad_record(ptype, len) {
                Some(bad) => bad.is_none(),
                None => false,
            },
        }
    }

    /// The first number, of those that aren't null, that is none of `len` positions. `ptype` is the
    /// type's.
    pub fn first_bad(&self, ptype: PType, len: usize) -> Option<i128>
        requires { int_type_of self.now.dtype ≡ Some ptype }
        ensures { result ≡ first_bad len (numbers_of self.now) }
    {
        if let Some(bad) = self.bad_record(ptype, len) {
            return bad;
        }
        if self.tells_positions(ptype, len) {
            return None;
        }
        first_bad(&Rows { array: self }, len)
    }

    /// The positions that its numbers name, of which there are `len`; none at a null. `ptype` is
    /// the type's. Fails only with `NoMemory`.
    #[tactic(auto, using(crate::proofs::NumberLists::stored))]
    pub fn positions(&self, alloc: Global, ptype: PType, len: usize) -> Result<Picks, NoMemory>
        requires int { int_type_of self.now.dtype ≡ Some ptype }
        requires sound { first_bad len (numbers_of self.now) ≡ None }
        ensures picks { IfOk result
            (λ p. p ≡ record { picks = positions_of (numbers_of self.now); bound = len }) }
        ensures there { IfOk result
            (λ p. self.now.dtype.nullability ≡ NonNullable → AllThere p.picks) }
    {
        if let Some(values) = self.plain_records() {
            return picks_present(alloc, ptype, values, len);
        }
        match self.shown_records() {
            Some((values, bits)) => picks_shown(alloc, ptype, values, bits, len),
            None => picks_of(alloc, &Rows { array: self }, len),
        }
    }
}
