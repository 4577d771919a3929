//! What comes of looking at a value.

use crate::kind::Kind;
use serde_json::Value;
use std::alloc::AllocError;

/// What comes of looking at a value that is invalid.
#[derive(Drop)]
pub(crate) enum Look<'v> {
    /// This was expected, and the value was got.
    Expected(&'static str, &'v Value),
    /// A member is missing.
    Missing(&'static str),
    /// Another member than these was got.
    Extra(String),
    /// A value inside is invalid, and must be of this kind.
    Inside(Kind, &'v Value),
    /// Each part is valid, but they don't fit one another.
    Disagreeing,
}

/// A place in a document, as the names and numbers that lead there.
#[derive(Drop)]
pub(crate) struct Place {
    path: String,
}

impl Place {
    /// Returns the place of the document itself.
    pub(crate) fn new(path: String) -> Place {
        Place { path }
    }

    /// Goes to a member.
    pub(crate) fn member(&mut self, name: &str) -> Result<(), AllocError> {
        if !self.path.is_empty() {
            self.path.push_str(".")?;
        }
        self.path.push_str(name)
    }

    /// Goes to an item.
    pub(crate) fn item(&mut self, number: usize) -> Result<(), AllocError> {
        let mut digits = itoa::Buffer::new();
        self.path.push_str("[")?;
        self.path.push_str(digits.format(number))?;
        self.path.push_str("]")
    }

    /// Returns the names and numbers, or how the document itself is called.
    pub(crate) fn as_str(&self) -> &str {
        if self.path.is_empty() {
            "the document"
        } else {
            self.path.as_str()
        }
    }
}
