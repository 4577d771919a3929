//! What the program says of its arguments.

use std::alloc::{AllocError, Global};

/// The usage, a line for each subcommand.
pub(crate) const USAGE: &str = "\
usage: rows SUBCOMMAND [ARGUMENTS] < DOCUMENT

subcommands:
  rows                      print the rows that a document asks for
  page PAGE ROWS_PER_PAGE   print one page of these rows; pages count from 0
  file                      print the rows that a document asks for of a column file in it
  made SEED                 print a line about rows made from a number; no document is read
  help                      print this text

status: 0 done, 1 invalid step, 2 invalid document, 3 unknown arguments, 4 reading failed,
  5 writing failed, 6 out of memory, 7 document too long, 9 arguments unreadable
";

/// Whether the arguments ask for the usage.
pub(crate) fn asks_for_usage(words: &[String]) -> bool {
    match words {
        [word] => match word.as_str() {
            "help" | "--help" => true,
            _ => false,
        },
        _ => false,
    }
}

// What arguments a subcommand has.
fn arguments_of(word: &str) -> Option<&'static str> {
    match word {
        "rows" | "file" | "help" => Some("no arguments"),
        "page" => Some("PAGE and ROWS_PER_PAGE, numbers below 2^32"),
        "made" => Some("SEED, a number below 2^32"),
        _ => None,
    }
}

/// Returns what is wrong with arguments that name no command.
pub(crate) fn cause_of_words(alloc: Global, words: &[String]) -> Result<String, AllocError> {
    let Some(word) = words.first() else {
        return String::from_str(alloc, "expected a subcommand, got none");
    };
    match arguments_of(word.as_str()) {
        Some(expected) => format!(in alloc; "{word}: expected {expected}, got others"),
        None => format!(in alloc; "expected a subcommand, got {word}"),
    }
}
