//! What stands on standard input.
ghost use Rattle.std.specs.Prelude.{◌≡◌, true, IfOk};
ghost use Rattle.vx_file.specs.Shape.{is_unsigned};

use crate::numbers::file_of;
use crate::output::File;
use anyhow::bail;
use std::alloc::Global;
use vx_types::PType;

/// A type's name, and numbers.
#[derive(Drop)]
pub(crate) struct TypedNumbers {
    name: Option<String>,
    numbers: Vec<u64>,
}

impl TypedNumbers {
    /// Nothing read yet.
    pub(crate) fn new(alloc: Global) -> TypedNumbers {
        TypedNumbers {
            name: None,
            numbers: Vec::new(alloc),
        }
    }

    /// Takes the words of a line.
    pub(crate) fn take_line(&mut self, alloc: Global, line: &str) -> anyhow::Result<()> {
        for word in line.split_whitespace() {
            self.take_word(alloc, word)?;
        }
        Ok(())
    }

    fn take_word(&mut self, alloc: Global, word: &str) -> anyhow::Result<()> {
        if self.name.is_none() {
            self.name = Some(String::from_str(alloc, word)?);
            return Ok(());
        }
        self.numbers.push(word.parse::<u64>()?)?;
        Ok(())
    }

    /// The file of the numbers.
    pub(crate) fn file(self, alloc: Global) -> anyhow::Result<File> {
        let TypedNumbers { name, numbers } = self;
        let Some(name) = name else {
            bail!("no type is named");
        };
        file_of(alloc, ptype_named(name.as_str())?, &numbers)
    }
}

// The type of this name.
fn ptype_named(name: &str) -> anyhow::Result<PType>
    ensures { IfOk result (λ ptype. is_unsigned ptype ≡ true) }
{
    match name {
        "u8" => Ok(PType::U8),
        "u16" => Ok(PType::U16),
        "u32" => Ok(PType::U32),
        "u64" => Ok(PType::U64),
        _ => bail!("the type is none of u8, u16, u32 and u64"),
    }
}
