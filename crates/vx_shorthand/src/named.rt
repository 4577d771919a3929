//! Fields by their names.
ghost use Rattle.std.specs.Prelude.{◌≡◌};
ghost use Rattle.std.specs.Option.{option_copied};
ghost use Rattle.vx_shorthand.specs.Named.{first_named};

use vx_column::{ArrayRef, StructArray};

/// The first field of this name, or none where no field has it.
pub fn field<'a>(structs: &'a StructArray, name: &str) -> Option<&'a ArrayRef>
    ensures { option_copied result
        ≡ first_named name.now structs.now.types.names structs.now.columns }
{
    let names = structs.struct_fields().as_ref().names();
    let columns = structs.fields().as_slice();
    for i in 0..columns.len().min(names.len()) {
        if names[i].as_str() == name {
            return Some(&columns[i]);
        }
    }
    None
}
