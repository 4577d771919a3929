//! Columns, by their layouts.

use crate::kind::Kind;
use crate::look::{Look, Place};
use crate::members::{Rule, look_at_members, needed, optional};
use serde_json::Value;
use std::alloc::Global;
use vx_bits::NoMemory;
use vx_column::{PType, TextKind};
use vx_json::{GREATEST_LEN, decimal_of, ptype_named, text_kind_named};

// A length that every layout may state.
const LEN: Kind = Kind::Whole(GREATEST_LEN);

// The members that say what a decimal is, which are tested together.
const DECIMAL: [&str; 4] = ["layout", "precision", "scale", "width"];

// The name that a member states.
fn text_at<'v>(value: &'v Value, name: &str) -> Option<&'v str> {
    value.get(name)?.as_str()
}

// The number type that the member `type` names.
fn ptype_in(value: &Value) -> Option<PType> {
    ptype_named(text_at(value, "type")?).ok()
}

// The type of strings that the member `type` names.
fn text_kind_in(value: &Value) -> Option<TextKind> {
    text_kind_named(text_at(value, "type")?).ok()
}

// The width of the decimals of a value.
fn width_in(value: &Value) -> Option<usize> {
    Some(decimal_of(value).ok()?.width() as usize)
}

// The members of a decimal type, of a value that has no such type.
fn decimal_rules() -> [Rule; 3] {
    [
        needed("precision", Kind::Whole(255)),
        needed("scale", Kind::Number),
        needed("width", Kind::Whole(255)),
    ]
}

fn look_at_primitive<'v>(
    alloc: Global,
    place: &mut Place,
    value: &'v Value,
) -> Result<Look<'v>, NoMemory> {
    let (validity, others) = (optional("validity", Kind::Validity), ["layout", "type"]);
    let Some(ptype) = ptype_in(value) else {
        let rule = needed("type", Kind::NumberType);
        return look_at_members(
            alloc,
            place,
            value,
            &[rule],
            &["layout", "values", "ramp", "validity"],
        );
    };
    if value.get("ramp").is_some() {
        return look_at_members(
            alloc,
            place,
            value,
            &[needed("ramp", LEN), validity],
            &others,
        );
    }
    let values = needed("values", Kind::Values(ptype));
    look_at_members(alloc, place, value, &[values, validity], &others)
}

fn look_at_decimal<'v>(
    alloc: Global,
    place: &mut Place,
    value: &'v Value,
) -> Result<Look<'v>, NoMemory> {
    let Some(width) = width_in(value) else {
        let others = ["layout", "values", "validity"];
        return look_at_members(alloc, place, value, &decimal_rules(), &others);
    };
    let rules = [
        needed("values", Kind::Records(width)),
        optional("validity", Kind::Validity),
    ];
    look_at_members(alloc, place, value, &rules, &DECIMAL)
}

// Looks at a column of strings that names no type of strings.
fn look_at_text_type<'v>(
    alloc: Global,
    place: &mut Place,
    value: &'v Value,
) -> Result<Look<'v>, NoMemory> {
    let others = [
        "layout",
        "values",
        "validity",
        "offsets",
        "offset_type",
        "bytes",
        "views",
        "buffers",
    ];
    let rule = needed("type", Kind::TextType);
    look_at_members(alloc, place, value, &[rule], &others)
}

fn look_at_texts<'v>(
    alloc: Global,
    place: &mut Place,
    value: &'v Value,
    view_layout: bool,
) -> Result<Look<'v>, NoMemory> {
    let Some(kind) = text_kind_in(value) else {
        return look_at_text_type(alloc, place, value);
    };
    let (validity, others) = (optional("validity", Kind::Validity), ["layout", "type"]);
    if view_layout && value.get("views").is_some() {
        let rules = [
            needed("views", Kind::Views),
            needed("buffers", Kind::ByteLists),
            validity,
        ];
        return look_at_members(alloc, place, value, &rules, &others);
    }
    if !view_layout && value.get("offsets").is_some() {
        let rules = [
            needed("offsets", Kind::Wholes),
            optional("offset_type", Kind::NumberType),
            needed("bytes", Kind::Bytes),
            validity,
        ];
        return look_at_members(alloc, place, value, &rules, &others);
    }
    let values = needed("values", Kind::Texts(kind));
    look_at_members(alloc, place, value, &[values, validity], &others)
}

// What the value of a constant of a named type must be.
fn constant_kind(value: &Value, name: &str) -> Option<Kind> {
    match name {
        "null" => Some(Kind::Any),
        "bool" => Some(Kind::Flag),
        "decimal" => Some(Kind::Record(width_in(value)?)),
        _ => match text_kind_named(name) {
            Ok(kind) => Some(Kind::Text(kind)),
            Err(_) => Some(Kind::Value(ptype_named(name).ok()?)),
        },
    }
}

fn look_at_constant<'v>(
    alloc: Global,
    place: &mut Place,
    value: &'v Value,
) -> Result<Look<'v>, NoMemory> {
    let (len, nullable) = (needed("len", LEN), optional("nullable", Kind::Bool));
    let Some(name) = text_at(value, "type") else {
        let others = [
            "layout",
            "value",
            "len",
            "nullable",
            "precision",
            "scale",
            "width",
        ];
        return look_at_members(alloc, place, value, &[needed("type", Kind::Name)], &others);
    };
    let is_decimal = name == "decimal";
    let Some(kind) = constant_kind(value, name) else {
        let others = ["layout", "type", "value", "len", "nullable"];
        if is_decimal {
            return look_at_members(alloc, place, value, &decimal_rules(), &others);
        }
        let rule = needed("type", Kind::ConstantType);
        return look_at_members(alloc, place, value, &[rule], &others);
    };
    let rules = [len, nullable, needed("value", kind)];
    if is_decimal {
        let others = ["layout", "type", "precision", "scale", "width"];
        return look_at_members(alloc, place, value, &rules, &others);
    }
    look_at_members(alloc, place, value, &rules, &["layout", "type"])
}

fn look_at_struct<'v>(
    alloc: Global,
    place: &mut Place,
    value: &'v Value,
) -> Result<Look<'v>, NoMemory> {
    let rules = [
        needed("len", LEN),
        needed("names", Kind::Names),
        needed("fields", Kind::Columns),
        optional("validity", Kind::Validity),
    ];
    look_at_members(alloc, place, value, &rules, &["layout"])
}

fn look_at_union<'v>(
    alloc: Global,
    place: &mut Place,
    value: &'v Value,
) -> Result<Look<'v>, NoMemory> {
    let rules = [
        needed("type_ids", Kind::Column),
        needed("variants", Kind::Variants),
        needed("children", Kind::Columns),
        optional("offsets", Kind::Wholes),
        optional("offset_type", Kind::NumberType),
    ];
    look_at_members(alloc, place, value, &rules, &["layout"])
}

// Looks at a column of no known layout.
fn look_at_unknown<'v>(place: &mut Place, value: &'v Value) -> Result<Look<'v>, NoMemory> {
    match value.get("layout") {
        Some(named) => {
            place.member("layout")?;
            Ok(Look::Expected("the name of a layout", named))
        }
        None => Ok(Look::Missing("layout")),
    }
}

fn look_at_lists<'v>(
    alloc: Global,
    place: &mut Place,
    value: &'v Value,
    layout: &str,
) -> Result<Look<'v>, NoMemory> {
    let (elements, validity) = (
        needed("elements", Kind::Column),
        optional("validity", Kind::Validity),
    );
    let (offsets, offset_type) = (
        needed("offsets", Kind::Wholes),
        optional("offset_type", Kind::NumberType),
    );
    if layout == "List" {
        let rules = [elements, validity, offsets, offset_type];
        return look_at_members(alloc, place, value, &rules, &["layout"]);
    }
    if layout == "ListView" {
        let rules = [
            elements,
            validity,
            offsets,
            offset_type,
            needed("sizes", Kind::Wholes),
        ];
        return look_at_members(alloc, place, value, &rules, &["layout"]);
    }
    if layout == "FixedSizeList" {
        let size = needed("size", Kind::Whole(4_294_967_295));
        let rules = [elements, validity, size, needed("len", LEN)];
        return look_at_members(alloc, place, value, &rules, &["layout"]);
    }
    look_at_unknown(place, value)
}

// Looks at a column that has others in it.
fn look_at_nested<'v>(
    alloc: Global,
    place: &mut Place,
    value: &'v Value,
    layout: &str,
) -> Result<Look<'v>, NoMemory> {
    let others = ["layout"];
    match layout {
        "Dict" => {
            let rules = [
                needed("values", Kind::Column),
                needed("codes", Kind::Column),
            ];
            look_at_members(alloc, place, value, &rules, &others)
        }
        "Filter" => {
            let rules = [needed("child", Kind::Column), needed("mask", Kind::Mask)];
            look_at_members(alloc, place, value, &rules, &others)
        }
        "Map" => look_at_members(
            alloc,
            place,
            value,
            &[needed("entries", Kind::Column)],
            &others,
        ),
        "Struct" => look_at_struct(alloc, place, value),
        "Union" => look_at_union(alloc, place, value),
        "Extension" => {
            let rules = [needed("name", Kind::Name), needed("storage", Kind::Column)];
            look_at_members(alloc, place, value, &rules, &others)
        }
        _ => look_at_lists(alloc, place, value, layout),
    }
}

/// Looks at a column.
pub(crate) fn look_at_column<'v>(
    alloc: Global,
    place: &mut Place,
    value: &'v Value,
) -> Result<Look<'v>, NoMemory> {
    let Some(layout) = text_at(value, "layout") else {
        let rule = needed("layout", Kind::Name);
        return look_at_members(alloc, place, value, &[rule], &[]);
    };
    match layout {
        "Null" => look_at_members(alloc, place, value, &[needed("len", LEN)], &["layout"]),
        "Bool" => {
            let rules = [
                needed("values", Kind::Bools),
                optional("offset", Kind::Whole(7)),
                optional("validity", Kind::Validity),
            ];
            look_at_members(alloc, place, value, &rules, &["layout"])
        }
        "Primitive" => look_at_primitive(alloc, place, value),
        "Decimal" => look_at_decimal(alloc, place, value),
        "VarBin" => look_at_texts(alloc, place, value, false),
        "VarBinView" => look_at_texts(alloc, place, value, true),
        "Constant" => look_at_constant(alloc, place, value),
        _ => look_at_nested(alloc, place, value, layout),
    }
}

// Looks at a column behind a decoder whose type is named. `values` says what stands for its values.
fn look_at_typed_chunks<'v>(
    alloc: Global,
    place: &mut Place,
    value: &'v Value,
    values: Rule,
    others: &[&str],
) -> Result<Look<'v>, NoMemory> {
    let rules = [
        optional("validity", Kind::Validity),
        needed("offset", Kind::Whole(1023)),
        needed("len", LEN),
        values,
    ];
    look_at_members(alloc, place, value, &rules, others)
}

// Looks at decimals behind a decoder.
fn look_at_decimal_chunks<'v>(
    alloc: Global,
    place: &mut Place,
    value: &'v Value,
) -> Result<Look<'v>, NoMemory> {
    let Some(width) = width_in(value) else {
        let others = ["type", "offset", "len", "values", "validity"];
        return look_at_members(alloc, place, value, &decimal_rules(), &others);
    };
    let values = needed("values", Kind::Records(width));
    let others = ["type", "precision", "scale", "width"];
    look_at_typed_chunks(alloc, place, value, values, &others)
}

// Looks at a column behind a decoder that names no type of chunks.
fn look_at_chunk_type<'v>(
    alloc: Global,
    place: &mut Place,
    value: &'v Value,
) -> Result<Look<'v>, NoMemory> {
    let others = [
        "offset",
        "len",
        "values",
        "ramp",
        "validity",
        "precision",
        "scale",
        "width",
    ];
    let rule = needed("type", Kind::ChunkType);
    look_at_members(alloc, place, value, &[rule], &others)
}

/// Looks at a column behind a decoder.
pub(crate) fn look_at_chunks<'v>(
    alloc: Global,
    place: &mut Place,
    value: &'v Value,
) -> Result<Look<'v>, NoMemory> {
    if let Some(ptype) = ptype_in(value) {
        let values = if value.get("ramp").is_some() {
            needed("ramp", LEN)
        } else {
            needed("values", Kind::Values(ptype))
        };
        return look_at_typed_chunks(alloc, place, value, values, &["type"]);
    }
    match text_at(value, "type") {
        Some("decimal") => look_at_decimal_chunks(alloc, place, value),
        _ => look_at_chunk_type(alloc, place, value),
    }
}
