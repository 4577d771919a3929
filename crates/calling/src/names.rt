//! A table of names: a dictionary of texts, and the rows of it that a mask keeps.
ghost use Rattle.std.specs.Prelude.{◌≡◌, IfOk, length, map};
ghost use Rattle.std.specs.List.{items_where_true};
ghost use Rattle.vortex_select.specs.RowValue.{bytes, null};
ghost use Rattle.vortex_select.specs.Picks.{at};

use crate::columns::dictionary;
use crate::error::BuildError;
use crate::printing::print_text;
use std::alloc::Global;
use std::test::Fail;
use vortex_select::build::{mask, nullable_numbers, texts};
use vortex_select::{Array, NoMemory, Policy, SelectError, Step, select};

/// For each code the name that it names, and null where no code is.
pub(crate) fn table(
    alloc: Global,
    names: &[&str],
    codes: &[Option<u32>],
) -> Result<Array, BuildError>
    ensures { IfOk result
        (λ c. c.rows ≡ at null (map (λ name. bytes name.now) names.now) codes.now) }
{
    dictionary(alloc, nullable_numbers(alloc, codes)?, texts(alloc, names)?)
}

/// The rows at the set bits: no step is broken, so there is no error but for `NoMemory`.
pub(crate) fn kept(alloc: Global, table: &Array, bits: &[bool]) -> Result<Array, NoMemory>
    requires { length bits.now ≡ length table.now.rows }
    ensures { IfOk result (λ c. c.rows ≡ items_where_true bits.now table.now.rows) }
{
    let steps = [Step::Filter(mask(alloc, bits)?)];
    match select(alloc, table, &steps, &Policy::vortex()) {
        Ok(answer) => Ok(answer),
        Err(SelectError::NoMemory) => Err(NoMemory),
        Err(SelectError::Broken { .. }) => unreachable!(),
    }
}

/// Prints the names that a table has, and those that are left at the set bits.
pub(crate) fn print_names(rt: &impl Print, alloc: Global) -> Result<(), Fail> {
    let codes = [Some(1), None, Some(0), Some(1), Some(2)];
    let table = table(alloc, &["Ann", "Bo", "Christopher Robin"], &codes)?;
    print!(rt; "names:")?;
    print_text(rt, alloc, &table)?;
    let bits = [true, true, false, false, true];
    if bits.len() == table.len() {
        print!(rt; "kept:")?;
        print_text(rt, alloc, &kept(alloc, &table, &bits)?)?;
    }
    Ok(())
}
