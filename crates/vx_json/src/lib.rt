//! Reading what a document says in JSON without a column: members, lists, whole numbers, bits,
//! masks, policies, decimal types, and values.
#![tactic(auto)]

mod bit_text;
mod bools;
mod decimals;
mod error;
mod items;
mod letting_go;
mod masks;
mod members;
mod offsets;
mod texts;
mod values;
mod views;
mod wholes;

pub use bit_text::bits_in;
pub use bools::{bools_of, bools_or_nulls_of, has_null, presence_of};
pub use decimals::decimal_of;
pub use error::DocError;
pub use items::{ReadItem, read_each};
pub use letting_go::let_go;
pub use masks::mask_of;
pub use members::{
    bool_in, if_closed, is_among, is_closed, items_in, list_member, member, text_in, text_member,
};
pub use texts::{
    StrungTexts, byte_lists_in, bytes_of, names_of, strung_texts, text_kind_named, text_of,
};
pub use values::{hex_value_of, hex_values_of, ptype_named, ramp_of, value_of, values_of};
pub use views::{PlacedTexts, placed_texts, views_in};
pub use wholes::{GREATEST_LEN, at_most, number_member, pair_of, pairs_in, whole_of, wholes_in};
