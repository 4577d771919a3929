//! The program's words, in bytes.
ghost use Rattle.std.specs.Prelude.{◌≡◌, ◌++◌, [], ◌∷◌, true, false, map, string_bytes, IfOk, OnOk, IsErrOf};
ghost use Rattle.std.specs.Str.{is_utf8};
ghost use Rattle.vortex_rows_c.specs.Running.{AreTexts, words_in};

use std::alloc::Global;

/// Why there are no words.
#[derive(Clone, Copy, Debug, PartialEq, Eq)]
pub(crate) enum WordsFault {
    /// A word isn't UTF-8.
    NotText,
    /// Out of memory.
    NoMemory,
}

// Puts a word behind the others.
fn end_word(words: &mut Vec<String>, word: Vec<u8>) -> Result<(), WordsFault>
    ensures put { OnOk result (map string_bytes words.new.items
        ≡ map string_bytes words.old.items ++ word.items ∷ []) }
    ensures text { IsErrOf result WordsFault.NotText → is_utf8 word.items ≡ false }
{
    let Ok(text) = String::from_utf8(word) else {
        return Err(WordsFault::NotText);
    };
    match words.push(text) {
        Ok(()) => Ok(()),
        Err(_) => Err(WordsFault::NoMemory),
    }
}

/// The words, of which each is ended by a byte 0, but for the last one, which may end with the
/// bytes.
pub(crate) fn words_of(alloc: Global, bytes: &[u8]) -> Result<Vec<String>, WordsFault>
    ensures words { IfOk result (λ words. map string_bytes words.items ≡ words_in bytes.now) }
    ensures text { IsErrOf result WordsFault.NotText → AreTexts (words_in bytes.now) → ⊥ }
{
    let mut words = Vec::new(alloc);
    let mut word = Vec::new(alloc);
    for byte in bytes {
        if *byte == 0 {
            end_word(&mut words, word)?;
            word = Vec::new(alloc);
        } else if word.push(*byte).is_err() {
            return Err(WordsFault::NoMemory);
        }
    }
    if !word.is_empty() {
        end_word(&mut words, word)?;
    }
    Ok(words)
}
