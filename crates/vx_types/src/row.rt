//! A row of a column, with all that is in it.
ghost use Rattle.std.specs.Prelude.{◌≡◌, map};
ghost use Rattle.vx_types.specs.Row.{row_value, rows_in};

use std::marker::Model;

/// The bytes of a row.
#[derive(Drop)]
pub struct ByteList {
    bytes: Vec<u8>,
}

impl Model for ByteList {
    ghost use Rattle.std.specs.Prelude.{ℕ, List};

    ghost Value = { List ℕ };

    ghost view = { λ b. b.bytes.items };
}

impl ByteList {
    /// The list of these bytes.
    pub fn from_vec(values: Vec<u8>) -> ByteList
        ensures { result ≡ values.items }
    {
        ByteList { bytes: values }
    }

    /// The bytes, in order.
    pub fn as_slice(&self) -> &[u8]
        ensures { result.now ≡ self.now }
    {
        self.bytes.as_slice()
    }
}

/// A row of a column, with all that is in it.
#[cycle(row)]
#[derive(Drop)]
pub enum Row {
    /// A null row.
    Null,
    /// A row of a column of bools.
    Bit(bool),
    /// A row's record or text.
    Bytes(ByteList),
    /// A list's elements, in order.
    List(RowList),
    /// A struct's fields, in order.
    Fields(RowList),
    /// A union's type id, and the row of that variant.
    Tagged(u8, Box<Row>),
}

/// A list of rows.
#[cycle(row)]
#[derive(Drop)]
pub struct RowList {
    rows: Vec<Row>,
}

impl RowList {
    /// The list of these rows.
    pub fn from_vec(values: Vec<Row>) -> RowList
        ensures { rows_in result ≡ map row_value values.items }
    {
        RowList { rows: values }
    }

    /// The rows, in order.
    pub fn as_slice(&self) -> &[Row]
        ensures { map row_value result.now ≡ rows_in self.now }
    {
        &self.rows
    }
}
