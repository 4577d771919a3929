//! Which buffers and children an array has.
ghost use Rattle.std.specs.Prelude.{◌≡◌};
ghost use Rattle.vx_arrow_formats.specs.Layouts.{bare, kind_in, layout_in, layout_of_kind, list_layout, list_view_layout, text_layout, values_layout};

use crate::kind::Kind;
use crate::parameters::sized;
use crate::words::word;
use vx_arrow_image::Offsets;

/// Which buffers and children an array of a format has. It crosses a border to C as it stands.
///
/// A buffer is named by its number in Arrow's order, from 1; 0 says that there is none.
#[repr(C)]
#[derive(Clone, Copy)]
pub struct Layout {
    /// The number of the format, as `Node` of `vx_arrow_image` has it.
    pub format: u64,
    /// Of values of a fixed width: how many bytes one has. Of lists of a fixed size: how many
    /// items.
    pub width: u64,
    /// How many buffers. Of views: how many at least; its data buffers and their lengths follow
    /// the first two.
    pub buffers: u64,
    /// The buffer of validity.
    pub valid: u64,
    /// The buffer of offsets.
    pub offsets: u64,
    /// The buffer of values, bits, bytes, views or type ids.
    pub values: u64,
    /// The buffer of sizes.
    pub sizes: u64,
    /// How many children; 2^64 - 1 where the schema says.
    pub children: u64,
    /// 1 for a map.
    pub is_map: u64,
    /// Whether the values may be the codes of a dictionary: 0 no, 1 without a sign, 2 with a sign.
    pub codes: u64,
}

const BARE: Layout = Layout {
    format: 0,
    width: 0,
    buffers: 0,
    valid: 0,
    offsets: 0,
    values: 0,
    sizes: 0,
    children: 0,
    is_map: 0,
    codes: 0,
};

// Values of so many bytes.
fn values_layout(width: u64, codes: u64) -> Layout
    ensures { result ≡ values_layout width codes }
{
    Layout {
        format: 2,
        width,
        buffers: 2,
        valid: 1,
        values: 2,
        codes,
        ..BARE
    }
}

// Strings.
fn text_layout(size: Offsets) -> Layout
    ensures { result ≡ text_layout size }
{
    let format = match size {
        Offsets::Short => 3,
        Offsets::Long => 4,
    };
    Layout {
        format,
        buffers: 3,
        valid: 1,
        offsets: 2,
        values: 3,
        ..BARE
    }
}

// Lists.
fn list_layout(size: Offsets, is_map: u64) -> Layout
    ensures { result ≡ list_layout size is_map }
{
    let format = match size {
        Offsets::Short => 6,
        Offsets::Long => 7,
    };
    Layout {
        format,
        buffers: 2,
        valid: 1,
        offsets: 2,
        children: 1,
        is_map,
        ..BARE
    }
}

// Views of lists.
fn list_view_layout(size: Offsets) -> Layout
    ensures { result ≡ list_view_layout size }
{
    let format = match size {
        Offsets::Short => 10,
        Offsets::Long => 11,
    };
    Layout {
        format,
        buffers: 3,
        valid: 1,
        offsets: 2,
        sizes: 3,
        children: 1,
        ..BARE
    }
}

// Views of strings.
fn text_view_layout() -> Layout
    ensures { result ≡ layout_of_kind Kind.TextView }
{
    Layout {
        format: 9,
        buffers: 3,
        ..values_layout(0, 0)
    }
}

// Structs.
fn struct_layout() -> Layout
    ensures { result ≡ layout_of_kind Kind.Struct }
{
    Layout {
        format: 5,
        buffers: 1,
        valid: 1,
        children: u64::MAX,
        ..BARE
    }
}

// Lists of a fixed size.
fn fixed_list_layout(width: u64) -> Layout
    ensures { result ≡ layout_of_kind (Kind.FixedList width) }
{
    Layout {
        format: 8,
        width,
        buffers: 1,
        valid: 1,
        children: 1,
        ..BARE
    }
}

// Sparse unions.
fn sparse_union_layout(children: u64) -> Layout
    ensures { result ≡ layout_of_kind (Kind.SparseUnion children) }
{
    Layout {
        format: 12,
        buffers: 1,
        values: 1,
        children,
        ..BARE
    }
}

// Dense unions.
fn dense_union_layout(children: u64) -> Layout
    ensures { result ≡ layout_of_kind (Kind.DenseUnion children) }
{
    Layout {
        format: 13,
        buffers: 2,
        values: 1,
        offsets: 2,
        children,
        ..BARE
    }
}

impl Kind {
    /// How an array of the kind is stored.
    pub fn layout(self) -> Layout
        ensures { result ≡ layout_of_kind self }
    {
        match self {
            Kind::Nulls => BARE,
            Kind::Bits => Layout {
                format: 1,
                ..values_layout(0, 0)
            },
            Kind::Unsigned(width) => values_layout(width, 1),
            Kind::Signed(width) => values_layout(width, 2),
            Kind::Fixed(width) => values_layout(width, 0),
            Kind::Text(size) => text_layout(size),
            Kind::TextView => text_view_layout(),
            Kind::Struct => struct_layout(),
            Kind::Map => list_layout(Offsets::Short, 1),
            Kind::List(size) => list_layout(size, 0),
            Kind::FixedList(width) => fixed_list_layout(width),
            Kind::ListView(size) => list_view_layout(size),
            Kind::SparseUnion(children) => sparse_union_layout(children),
            Kind::DenseUnion(children) => dense_union_layout(children),
        }
    }
}

// The kind that a format string names.
fn kind_of(text: &[u8]) -> Option<Kind>
    ensures { result ≡ kind_in text.now }
{
    match word(text) {
        Some(kind) => Some(kind),
        None => sized(text),
    }
}

/// Returns how an array of a format is stored; `None` where the text is no format string.
///
/// A number is one or more digits, zeros before it among them, of at most 2^31 - 1.
pub fn layout_of(text: &[u8]) -> Option<Layout>
    ensures { result ≡ layout_in text.now }
{
    match kind_of(text) {
        Some(kind) => Some(kind.layout()),
        None => None,
    }
}
