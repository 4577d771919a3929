//! Offsets in a list that widens.
ghost use Rattle.std.specs.Prelude.{◌≡◌, true};
ghost use Rattle.vx_types.specs.PType.{is_int};

use crate::arguments::text_at;
use serde_json::Value;
use std::alloc::Global;
use std::test::Fail;
use vx_column::PType;
use vx_json::{list_member, ptype_named, wholes_in};
use vx_text::Offsets;

/// The offsets that these numbers of 32 bits make, one after another.
fn pushed(alloc: Global, ptype: PType, numbers: &[usize]) -> Result<Offsets, Fail>
    requires { is_int ptype ≡ true }
{
    let mut offsets = Offsets::new(alloc, ptype);
    for number in numbers {
        offsets.push(u32::try_from(*number)? as usize)?;
    }
    Ok(offsets)
}

/// Appends the offsets and their type, and that of the column that they make.
fn push_list(lines: &mut String, offsets: Offsets) -> Result<(), Fail> {
    write!(lines, "= {:?}", offsets.ptype())?;
    for i in 0..offsets.len() {
        write!(lines, " {}", offsets.get(i))?;
    }
    let column = offsets.into_primitive()?;
    writeln!(lines, ", a column of {:?}", column.ptype())?;
    Ok(())
}

/// Appends what becomes of `numbers` as offsets, which begin as numbers of the type `type`.
pub(crate) fn push_offsets(lines: &mut String, alloc: Global, row: &Value) -> Result<(), Fail> {
    let ptype = ptype_named(text_at(row, "type"))?;
    if !ptype.is_int() {
        return Err("no type of integers".into());
    }
    let numbers = wholes_in(alloc, list_member(row, "numbers")?)?;
    push_list(lines, pushed(alloc, ptype, numbers.as_slice())?)
}
