//! What the words ask for.
ghost use Rattle.std.specs.Prelude.{◌≡◌, map, string_bytes};
ghost use Rattle.std.specs.Str.{all_ascii_digits};
ghost use Rattle.vx_rows.specs.Commands.{command_named, command_of, command_with, command_with_two};
ghost use Rattle.vx_rows.specs.Commands.{number_named, page_named};

/// What form of document a command reads.
#[derive(Clone, Copy, Debug, PartialEq, Eq)]
pub(crate) enum Form {
    /// Rows in a column or behind a decoder.
    Rows,
    /// A file of blocks.
    File,
    /// Rows in a column of structs, whose fields are a table, of which one page is printed.
    Page {
        /// The page's number, from 0.
        number: u32,
        /// How many rows a page has, one at least.
        len: u32,
    },
}

/// A command that words may name.
#[derive(Clone, Copy, Debug, PartialEq, Eq)]
pub(crate) enum Command {
    /// Reads a document of this form, and prints the rows that its steps pick.
    Read(Form),
    /// Makes rows and steps from a number, and prints a line of their answer.
    Made(u32),
}

// Whether each byte is a digit.
fn are_digits(word: &[u8]) -> bool
    ensures { result ≡ all_ascii_digits word.now }
{
    for byte in word {
        if !byte.is_ascii_digit() {
            return false;
        }
    }
    true
}

// The number that one to ten digits write, where it is below 2^32.
#[tactic(auto, unfolding(crate::specs::Commands::number_named))]
fn number_named(word: &str) -> Option<u32>
    ensures { result ≡ number_named word.now }
{
    if word.len() > 10 || !are_digits(word.as_bytes()) {
        return None;
    }
    match word.parse::<u32>() {
        Ok(number) => Some(number),
        Err(_) => None,
    }
}

fn command_named(word: &str) -> Option<Command>
    ensures { result ≡ command_named word.now }
{
    match word {
        "rows" => Some(Command::Read(Form::Rows)),
        "file" => Some(Command::Read(Form::File)),
        _ => None,
    }
}

fn command_with(word: &str, number: &str) -> Option<Command>
    ensures { result ≡ command_with word.now number.now }
{
    match word {
        "made" => match number_named(number) {
            Some(seed) => Some(Command::Made(seed)),
            None => None,
        },
        _ => None,
    }
}

// The page that two numbers name: its own, and how many rows a page has.
fn page_named(number: &str, len: &str) -> Option<Command>
    ensures { result ≡ page_named number.now len.now }
{
    let number = number_named(number)?;
    let len = number_named(len)?;
    if len > 0 {
        Some(Command::Read(Form::Page { number, len }))
    } else {
        None
    }
}

fn command_with_two(word: &str, number: &str, len: &str) -> Option<Command>
    ensures { result ≡ command_with_two word.now number.now len.now }
{
    match word {
        "page" => page_named(number, len),
        _ => None,
    }
}

/// The command that the words name.
pub(crate) fn command_of(words: &[String]) -> Option<Command>
    ensures { result ≡ command_of (map string_bytes words.now) }
{
    match words {
        [word] => command_named(word.as_str()),
        [word, number] => command_with(word.as_str(), number.as_str()),
        [word, number, len] => command_with_two(word.as_str(), number.as_str(), len.as_str()),
        _ => None,
    }
}
