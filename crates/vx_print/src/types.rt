//! The text of a type.
ghost use Rattle.std.specs.Prelude.{◌≡◌, ◌++◌, ◌∷◌, [], codes, decimal, map, slice_index_or, IsOk};
ghost use Rattle.vx_types.specs.DType.{type_of};
ghost use Rattle.vx_types.specs.Fields.{names_of};
ghost use Rattle.vx_types.specs.TypeTree.{types_of};
ghost use Rattle.vx_print.specs.Text.{ptype_text, decimal_text, mark_of, kind_text};
ghost use Rattle.vx_print.specs.Text.{type_text, type_texts, comma_list, with_labels, name_label};
ghost use Rattle.vx_print.specs.Text.{id_label};
ghost use Rattle.vx_quote.specs.Quoted.{quoted_text};

use crate::joined::push_gap;
use crate::text::push_number;
use std::rc::RcStr;
use vx_bits::NoMemory;
use vx_column::{DType, DecimalDType, ElementType, ExtDType, PType, StructFields, UnionVariants};
use vx_quote::push_quoted;

fn ptype_text(ptype: PType) -> &'static str
    ensures { result.now ≡ ptype_text ptype }
{
    match ptype {
        PType::U8 => "u8",
        PType::U16 => "u16",
        PType::U32 => "u32",
        PType::U64 => "u64",
        PType::I8 => "i8",
        PType::I16 => "i16",
        PType::I32 => "i32",
        PType::I64 => "i64",
        PType::F16 => "f16",
        PType::F32 => "f32",
        PType::F64 => "f64",
    }
}

// Appends precision, scale and width of a decimal type.
fn push_decimal(text: &mut Vec<u8>, decimal: DecimalDType) -> Result<(), NoMemory>
    ensures { IsOk result → text.new.items ≡ text.old.items
        ++ decimal_text decimal.precision decimal.scale decimal.width }
{
    push_number(text, b"decimal(", decimal.precision())?;
    push_number(text, b",", decimal.scale())?;
    push_number(text, b",", decimal.width())?;
    text.push(b')')?;
    Ok(())
}

/// Appends a word. Fails only with `NoMemory`.
pub(crate) fn push_word(text: &mut Vec<u8>, word: &[u8]) -> Result<(), NoMemory>
    ensures { IsOk result → text.new.items ≡ text.old.items ++ word.now }
{
    text.extend_from_slice(word)?;
    Ok(())
}

// Appends the mark of a nullable type, which null has none of.
fn push_mark(text: &mut Vec<u8>, dtype: &DType) -> Result<(), NoMemory>
    ensures { IsOk result → text.new.items ≡ text.old.items
        ++ mark_of (type_of dtype.now).kind (type_of dtype.now).nullability }
{
    match dtype {
        DType::Null => Ok(()),
        _ if dtype.is_nullable() => push_word(text, b"?"),
        _ => Ok(()),
    }
}

// Appends the label of id `i`, where there is one.
#[tactic(auto, using(crate::proofs::Labels::label_here))]
fn push_id(text: &mut Vec<u8>, ids: &[u8], i: usize) -> Result<(), NoMemory>
    ensures { IsOk result → text.new.items
        ≡ text.old.items ++ slice_index_or (map id_label ids.now) i [] }
{
    match ids.get(i) {
        None => Ok(()),
        Some(id) => {
            push_number(text, b"", *id)?;
            push_word(text, b" ")
        }
    }
}

/// Appends the label of name `i`, where there is one. Fails only with `NoMemory`.
#[tactic(auto, using(crate::proofs::Labels::label_here))]
pub(crate) fn push_name(text: &mut Vec<u8>, names: &[RcStr], i: usize) -> Result<(), NoMemory>
    ensures { IsOk result → text.new.items
        ≡ text.old.items ++ slice_index_or (map name_label (names_of names.now)) i [] }
{
    match names.get(i) {
        None => Ok(()),
        Some(name) => {
            push_quoted(text, name.as_str().as_bytes())?;
            push_word(text, b": ")
        }
    }
}

// Appends types, each behind its id and its name where it has them.
#[cycle(types)]
fn push_types(
    text: &mut Vec<u8>,
    ids: &[u8],
    names: &[RcStr],
    types: &[DType],
) -> Result<(), NoMemory>
    ensures { IsOk result → text.new.items ≡ text.old.items ++ comma_list (with_labels
        (map id_label ids.now) (with_labels (map name_label (names_of names.now))
        (type_texts (types_of (map type_of types.now))))) }
{
    for i in 0..types.len() {
        push_gap(text, i == 0)?;
        push_id(text, ids, i)?;
        push_name(text, names, i)?;
        push_type(text, &types[i])?;
    }
    Ok(())
}

// Appends a word, and the type of a list's elements behind it.
#[cycle(types)]
fn push_element(text: &mut Vec<u8>, word: &[u8], element: &ElementType) -> Result<(), NoMemory>
    ensures { IsOk result → text.new.items ≡ text.old.items ++ (word.now ++ type_text element.now) }
{
    push_word(text, word)?;
    push_type(text, element.dtype())
}

// Appends the type of a list.
#[cycle(types)]
fn push_list(text: &mut Vec<u8>, element: &ElementType) -> Result<(), NoMemory>
    ensures { IsOk result → text.new.items
        ≡ text.old.items ++ (codes "list(" ++ type_text element.now ++ codes ")") }
{
    push_element(text, b"list(", element)?;
    push_word(text, b")")
}

// Appends the type of a list of so many elements.
#[cycle(types)]
fn push_fixed(text: &mut Vec<u8>, element: &ElementType, size: u32) -> Result<(), NoMemory>
    ensures { IsOk result → text.new.items ≡ text.old.items ++ (codes "fixed("
        ++ type_text element.now ++ (codes ", " ++ decimal size) ++ codes ")") }
{
    push_element(text, b"fixed(", element)?;
    push_number(text, b", ", size)?;
    push_word(text, b")")
}

// Appends the type of a struct.
#[cycle(types)]
fn push_struct(text: &mut Vec<u8>, fields: &StructFields) -> Result<(), NoMemory>
    ensures { IsOk result → text.new.items ≡ text.old.items ++ (codes "struct{" ++ comma_list
        (with_labels (map name_label fields.now.names) (type_texts (types_of fields.now.types)))
        ++ codes "}") }
{
    push_word(text, b"struct{")?;
    push_types(text, &[], fields.names(), fields.types())?;
    push_word(text, b"}")
}

// Appends the type of a map.
#[cycle(types)]
fn push_map(text: &mut Vec<u8>, fields: &StructFields) -> Result<(), NoMemory>
    ensures { IsOk result → text.new.items ≡ text.old.items
        ++ (codes "map(" ++ comma_list (type_texts (types_of fields.now.types)) ++ codes ")") }
{
    push_word(text, b"map(")?;
    push_types(text, &[], &[], fields.types())?;
    push_word(text, b")")
}

// Appends the type of a union.
#[cycle(types)]
fn push_union(text: &mut Vec<u8>, variants: &UnionVariants) -> Result<(), NoMemory>
    ensures { IsOk result → text.new.items ≡ text.old.items ++ (codes "union{" ++ comma_list
        (with_labels (map id_label variants.now.ids)
        (with_labels (map name_label variants.now.names)
        (type_texts (types_of variants.now.types)))) ++ codes "}") }
{
    push_word(text, b"union{")?;
    push_types(text, variants.ids(), variants.names(), variants.types())?;
    push_word(text, b"}")
}

// Appends the type of an extension, whose storage has no mark.
#[cycle(types)]
fn push_extension(text: &mut Vec<u8>, ext: &ExtDType) -> Result<(), NoMemory>
    ensures { IsOk result → text.new.items ≡ text.old.items ++ (codes "ext("
        ++ quoted_text ext.now.name ++ codes ", " ++ kind_text ext.now.storage.kind ++ codes ")") }
{
    push_word(text, b"ext(")?;
    push_quoted(text, ext.name().as_str().as_bytes())?;
    push_word(text, b", ")?;
    push_kind(text, ext.storage())?;
    push_word(text, b")")
}

// Appends a type without its mark.
#[cycle(types)]
fn push_kind(text: &mut Vec<u8>, dtype: &DType) -> Result<(), NoMemory>
    ensures { IsOk result → text.new.items
        ≡ text.old.items ++ kind_text (type_of dtype.now).kind }
{
    match dtype {
        DType::Null => push_word(text, b"null"),
        DType::Bool(_) => push_word(text, b"bool"),
        DType::Primitive(ptype, _) => push_word(text, ptype_text(*ptype).as_bytes()),
        DType::Decimal(decimal, _) => push_decimal(text, *decimal),
        DType::Utf8(_) => push_word(text, b"utf8"),
        DType::Binary(_) => push_word(text, b"binary"),
        DType::List(element, _) => push_list(text, element),
        DType::FixedSizeList(element, size, _) => push_fixed(text, element, *size),
        DType::Map(fields, _) => push_map(text, fields),
        DType::Struct(fields, _) => push_struct(text, fields),
        DType::Union(variants, _) => push_union(text, variants),
        DType::Extension(ext, _) => push_extension(text, ext),
    }
}

/// Appends a type, marked where it is nullable. Fails only with `NoMemory`.
#[cycle(types)]
pub(crate) fn push_type(text: &mut Vec<u8>, dtype: &DType) -> Result<(), NoMemory>
    ensures { IsOk result → text.new.items ≡ text.old.items ++ type_text (type_of dtype.now) }
{
    push_kind(text, dtype)?;
    push_mark(text, dtype)
}
