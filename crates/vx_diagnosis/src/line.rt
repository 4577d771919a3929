//! The line of an invalid step, in more words.

use std::alloc::Global;

// Returns a noun behind a number.
fn rows(number: &str) -> &'static str {
    if number == "1" { "row" } else { "rows" }
}

// The words of a slice: its range, and how many rows there are.
fn words_of_range(alloc: Global, detail: &str) -> Option<String> {
    let (range, len) = detail.split_once(" of ")?;
    let (start, end) = range.split_once("..")?;
    let (start, end, most) = (
        start.parse::<usize>().ok()?,
        end.parse::<usize>().ok()?,
        len.parse::<usize>().ok()?,
    );
    if end > most {
        let noun = rows(len);
        return format!(in alloc; "slice {start}..{end}, but {len} {noun}").ok();
    }
    format!(in alloc; "slice {start}..{end} starts after its end").ok()
}

// The words of a number that is wrong, and of how many rows there are.
fn words_of_number(alloc: Global, what: &str, detail: &str) -> Option<String> {
    let (number, len) = detail.split_once(" of ")?;
    let noun = rows(len);
    format!(in alloc; "{what} {number}, but {len} {noun}").ok()
}

// The words of a cause, given its name and what follows it.
fn words_of(alloc: Global, cause: &str, detail: &str) -> Option<String> {
    match cause {
        "BadRange" => words_of_range(alloc, detail),
        "BadMask" => words_of_number(alloc, "mask of length", detail),
        "OutOfBounds" => words_of_number(alloc, "index", detail),
        _ => None,
    }
}

// The words of a cause that has no numbers.
fn plain_words(cause: &str) -> Option<&'static str> {
    match cause {
        "NotBool" => Some("expected a filter of bools, got another type"),
        "InvalidIndices" => Some("expected integers as indices, got another type"),
        "BadPieces" => Some("expected as many indices as declared, and each below 2^64"),
        _ => None,
    }
}

/// Returns the line of an invalid step in more words, such as `step 1: OutOfBounds: index 9, but 8
/// rows`. `None` where the bytes are no such line, or there is no memory.
pub fn cause_of_line(alloc: Global, line: &[u8]) -> Option<String> {
    let text = std::str::from_utf8(line).ok()?;
    let (step, rest) = text.strip_suffix("\n")?.split_once(": ")?;
    if let Some(words) = plain_words(rest) {
        return format!(in alloc; "{step}: {rest}: {words}").ok();
    }
    let (cause, detail) = rest.split_once(" ")?;
    let words = words_of(alloc, cause, detail)?;
    format!(in alloc; "{step}: {cause}: {words}").ok()
}
