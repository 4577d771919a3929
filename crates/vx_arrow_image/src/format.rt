//! The formats that numbers name.
ghost use Rattle.std.specs.Prelude.{◌≡◌};
ghost use Rattle.vx_arrow_image.specs.Image.{format_in, limit_of, size_of};

/// How many bytes an offset has.
#[derive(Clone, Copy)]
pub enum Offsets {
    Short,
    Long,
}

/// What a node's rows are, and how they are stored.
#[derive(Clone, Copy)]
pub enum Format {
    Nulls,
    Bits,
    Fixed,
    Text(Offsets),
    Struct,
    List(Offsets),
    FixedList,
    TextView,
    ListView(Offsets),
    Union,
    DenseUnion,
}

impl Offsets {
    /// How many bytes an offset has.
    pub fn size(self) -> u64
        ensures { result ≡ size_of self }
    {
        match self {
            Offsets::Short => 4,
            Offsets::Long => 8,
        }
    }

    /// Offsets are below it.
    pub fn limit(self) -> u64
        ensures { result ≡ limit_of self }
    {
        match self {
            Offsets::Short => 1 << 31,
            Offsets::Long => 1 << 60,
        }
    }
}

/// The format that a number names.
pub fn format_of(code: u64) -> Option<Format>
    ensures { result ≡ format_in code }
{
    match code {
        0 => Some(Format::Nulls),
        1 => Some(Format::Bits),
        2 => Some(Format::Fixed),
        3 => Some(Format::Text(Offsets::Short)),
        4 => Some(Format::Text(Offsets::Long)),
        5 => Some(Format::Struct),
        6 => Some(Format::List(Offsets::Short)),
        7 => Some(Format::List(Offsets::Long)),
        8 => Some(Format::FixedList),
        9 => Some(Format::TextView),
        10 => Some(Format::ListView(Offsets::Short)),
        11 => Some(Format::ListView(Offsets::Long)),
        12 => Some(Format::Union),
        13 => Some(Format::DenseUnion),
        _ => None,
    }
}
