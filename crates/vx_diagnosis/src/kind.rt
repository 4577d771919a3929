//! What a value of a document must be.

use vx_column::{PType, TextKind};

/// What a value must be.
#[derive(Clone, Copy, Debug, PartialEq, Eq)]
pub(crate) enum Kind {
    /// A document of a column or of chunks.
    Document,
    /// A document of a file.
    File,
    /// A column of any layout.
    Column,
    /// A column behind a decoder.
    Chunks,
    /// A list of columns.
    Columns,
    /// Which rows are valid.
    Validity,
    /// A list of steps.
    Steps,
    /// A step.
    Step,
    /// A mask, in any of its forms.
    Mask,
    /// The indices of a take, in any of their forms.
    Indices,
    /// Strided ranges.
    Pieces,
    /// A list of numbers of a type and nulls, or a column.
    Numbers(PType),
    /// A policy.
    Policy,
    /// The values of a column of bools.
    Bools,
    /// A list of values of a type, and of nulls.
    Values(PType),
    /// A value of a type, or null.
    Value(PType),
    /// A list of records of so many bytes as hexadecimal digits, and of nulls.
    Records(usize),
    /// Such a record, or null.
    Record(usize),
    /// A list of strings of a kind, and of nulls.
    Texts(TextKind),
    /// A string of a kind, or null.
    Text(TextKind),
    /// A list of whole numbers.
    Wholes,
    /// A whole number up to a bound.
    Whole(usize),
    /// A list of pairs of whole numbers.
    Pairs,
    /// A pair of whole numbers.
    Pair,
    /// A list of strings.
    Names,
    /// A string.
    Name,
    /// A list of variants of a union.
    Variants,
    /// A variant of a union.
    Variant,
    /// A list of views.
    Views,
    /// A view.
    View,
    /// A list of bytes as hexadecimal digits.
    ByteLists,
    /// Bytes as hexadecimal digits.
    Bytes,
    /// A string of the digits 0 and 1.
    Digits,
    /// A bool.
    Bool,
    /// A bool, or null.
    Flag,
    /// The name of a number type.
    NumberType,
    /// The name of a type of strings.
    TextType,
    /// The name of a type of a constant.
    ConstantType,
    /// The name of a type of chunks.
    ChunkType,
    /// A number that is tested with those beside it.
    Number,
    /// Anything.
    Any,
}

/// Returns the kind of the items of a list of one kind.
pub(crate) fn item_kind(kind: Kind) -> Option<Kind> {
    match kind {
        Kind::Columns => Some(Kind::Column),
        Kind::Values(ptype) => Some(Kind::Value(ptype)),
        Kind::Records(width) => Some(Kind::Record(width)),
        Kind::Texts(text) => Some(Kind::Text(text)),
        Kind::Wholes => Some(Kind::Whole(usize::MAX)),
        Kind::Pairs => Some(Kind::Pair),
        Kind::Names => Some(Kind::Name),
        Kind::Variants => Some(Kind::Variant),
        Kind::ByteLists => Some(Kind::Bytes),
        _ => None,
    }
}

/// Returns what a value of a kind is called.
pub(crate) fn name_of(kind: Kind) -> &'static str {
    match kind {
        Kind::Document | Kind::File | Kind::Chunks | Kind::Column | Kind::Step => "an object",
        Kind::Pieces | Kind::Variant | Kind::View => "an object",
        Kind::Columns => "a list of columns",
        Kind::Validity => "a list of bools",
        Kind::Steps => "a list of steps",
        Kind::Mask => "a string of 0 and 1, or an object",
        Kind::Indices => "a list of whole numbers and nulls, or an object",
        Kind::Numbers(_) => "a list of numbers, or a column",
        Kind::Policy => "\"vortex\", or an object",
        Kind::Bools => "a string of 0 and 1, or a list of bools and nulls",
        _ => name_of_item(kind),
    }
}

fn name_of_item(kind: Kind) -> &'static str {
    match kind {
        Kind::Values(_) => "a list of numbers and nulls",
        Kind::Value(ptype) => name_of_value(ptype),
        Kind::Records(_) => "a list of hexadecimal strings and nulls",
        Kind::Record(_) => "a hexadecimal string of the type's width, or null",
        Kind::Texts(_) => "a list of strings and nulls",
        Kind::Text(TextKind::Utf8) => "a string, or null",
        Kind::Text(TextKind::Binary) => "a hexadecimal string, or null",
        Kind::Wholes => "a list of whole numbers",
        Kind::Whole(bound) => name_of_whole(bound),
        Kind::Pairs => "a list of pairs of whole numbers",
        Kind::Pair => "a list of two whole numbers",
        Kind::Names => "a list of strings",
        Kind::Name => "a string",
        Kind::Variants => "a list of variants",
        Kind::Views => "a list of views",
        Kind::ByteLists => "a list of hexadecimal strings",
        Kind::Bytes => "a hexadecimal string",
        Kind::Digits => "a string of 0 and 1",
        Kind::Bool => "a bool",
        Kind::Flag => "a bool, or null",
        Kind::NumberType => "a number type such as \"u8\"",
        Kind::TextType => "\"utf8\" or \"binary\"",
        Kind::ConstantType => "the name of a type such as \"u8\", \"utf8\" or \"bool\"",
        Kind::ChunkType => "a number type such as \"u8\", or \"decimal\"",
        _ => "a number",
    }
}

fn name_of_value(ptype: PType) -> &'static str {
    match ptype {
        PType::U8 => "a whole number of type u8, or null",
        PType::U16 => "a whole number of type u16, or null",
        PType::U32 => "a whole number of type u32, or null",
        PType::U64 => "a whole number of type u64, or null",
        PType::I8 => "a whole number of type i8, or null",
        PType::I16 => "a whole number of type i16, or null",
        PType::I32 => "a whole number of type i32, or null",
        PType::I64 => "a whole number of type i64, or null",
        PType::F16 => "a hexadecimal string of 2 bytes, or null",
        PType::F32 => "a hexadecimal string of 4 bytes, or null",
        PType::F64 => "a hexadecimal string of 8 bytes, or null",
    }
}

fn name_of_whole(bound: usize) -> &'static str {
    match bound {
        7 => "a whole number up to 7",
        255 => "a whole number up to 255",
        1023 => "a whole number up to 1023",
        16_777_216 => "a whole number up to 16777216",
        _ => "a whole number",
    }
}
