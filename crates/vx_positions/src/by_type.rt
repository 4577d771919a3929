//! One arm for each type of records of integers.

/// Writes one arm for each integer type: `by_type!(ptype, records, with, args)` is
/// `with(ptype, records, args)`, with the type and the width of the records known. So each arm is
/// a loop of its own. The records are known to be of the type, and the type to be one of integers.
#[macro_export]
macro_rules! by_type {
    ($ptype:expr, $values:expr, $with:ident $(, $arg:expr)*) => {
        match $ptype {
            vx_types::PType::U8 => $crate::by_width!(U8, W1, $values, $with $(, $arg)*),
            vx_types::PType::U16 => $crate::by_width!(U16, W2, $values, $with $(, $arg)*),
            vx_types::PType::U32 => $crate::by_width!(U32, W4, $values, $with $(, $arg)*),
            vx_types::PType::U64 => $crate::by_width!(U64, W8, $values, $with $(, $arg)*),
            vx_types::PType::I8 => $crate::by_width!(I8, W1, $values, $with $(, $arg)*),
            vx_types::PType::I16 => $crate::by_width!(I16, W2, $values, $with $(, $arg)*),
            vx_types::PType::I32 => $crate::by_width!(I32, W4, $values, $with $(, $arg)*),
            vx_types::PType::I64 => $crate::by_width!(I64, W8, $values, $with $(, $arg)*),
            vx_types::PType::F16 | vx_types::PType::F32 | vx_types::PType::F64 => unreachable!(),
        }
    };
}

/// The arm of [`by_type`] for one type and the width of its records.
#[macro_export]
macro_rules! by_width {
    ($ptype:ident, $width:ident, $values:expr, $with:ident $(, $arg:expr)*) => {
        match $values {
            vx_bits::Records::$width(records) => {
                $with(vx_types::PType::$ptype, records.as_slice() $(, $arg)*)
            }
            _ => unreachable!(),
        }
    };
}
