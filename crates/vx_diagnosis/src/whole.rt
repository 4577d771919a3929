//! What a value's parts must be together.

use crate::kind::Kind;
use serde_json::Value;
use vx_json::decimal_of;

/// Which document is read.
#[derive(Clone, Copy, Debug, PartialEq, Eq)]
pub enum Form {
    /// A document of rows.
    Rows,
    /// A document of rows of which a page is printed.
    Page,
    /// A document of a file.
    File,
}

// What the parts of a column of lists must be together.
fn whole_lists(layout: &str) -> &'static str {
    match layout {
        "List" => "offsets that ascend within the elements, and a validity as long as the lists",
        "ListView" => "views within the elements, and a validity as long as the lists",
        "FixedSizeList" => "len times size elements, and a validity as long as the lists",
        _ => "parts that fit one another",
    }
}

// What the parts of a column that has others in it must be together.
fn whole_nested(layout: &str) -> &'static str {
    match layout {
        "Dict" => "codes of an integer type, each below the number of values",
        "Filter" => "a mask as long as the child",
        "Map" => "entries that are lists of structs of two fields, with keys that aren't null",
        "Struct" => "a name and a field of len rows each, and a validity as long as that",
        "Union" => "type ids of the variants, and a child of enough rows for each variant",
        _ => whole_lists(layout),
    }
}

// What the parts of a column must be together.
fn whole_column(value: &Value) -> &'static str {
    let layout = match value.get("layout") {
        Some(layout) => layout.as_str(),
        None => None,
    };
    match layout {
        Some("Bool" | "Primitive" | "Decimal") => {
            "a validity as long as the values, and no null among values that have one"
        }
        Some("VarBin") => "strings within the bytes, and a validity as long as the strings",
        Some("VarBinView") => "views within the buffers, and a validity as long as the views",
        Some("Constant") => "a value of the type, and null only if it is nullable",
        Some(layout) => whole_nested(layout),
        None => "parts that fit one another",
    }
}

// Whether the precision, the scale and the width of a value are of no decimal type.
fn has_no_decimal(value: &Value) -> bool {
    value.get("precision").is_some() && decimal_of(value).is_err()
}

// What the parts of a document must be together.
fn whole_document(form: Form) -> &'static str {
    match form {
        Form::Rows => "parts that fit one another",
        Form::Page => "a column of layout Struct whose type has no null",
        Form::File => "the blocks of a column file",
    }
}

/// Returns what the parts of a value of a kind must be together.
pub(crate) fn whole_of(kind: Kind, value: &Value, form: Form) -> &'static str {
    if has_no_decimal(value) {
        return "a precision and a scale that the width holds";
    }
    match kind {
        Kind::Document | Kind::File => whole_document(form),
        Kind::Column => whole_column(value),
        Kind::Chunks => "at least offset + len values, and a validity of len rows",
        Kind::Step => "a column of a flat type",
        Kind::Pieces => "three lists of one length",
        Kind::Policy => "fields of a policy, each a number or a ratio in its bounds",
        Kind::Mask => "positions or runs that ascend below len",
        Kind::Texts(_) => "less than 2^31 bytes",
        _ => "parts that fit one another",
    }
}
