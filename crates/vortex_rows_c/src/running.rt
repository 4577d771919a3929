//! A run of the program over memory.
ghost use Rattle.std.specs.Prelude.{◌≡◌, map, string_bytes};
ghost use Rattle.vortex_rows_c.specs.Running.{IsRun, words_in};

use crate::answer::{Answer, answer_to};
use crate::sink::TextSink;
use crate::source::SliceSource;
use crate::words::{WordsFault, words_of};
use std::alloc::Global;
use vx_rows::{Trace, run};

// What the program does by these words.
fn run_words(alloc: Global, words: &[String], document: &[u8], dst: &mut [u8]) -> Answer
    ensures { IsRun (map string_bytes words.now) document.now dst.old dst.new result.status
        result.value }
{
    let mut source = SliceSource::new(document);
    let mut sink = TextSink::new(alloc);
    let mut trace = Trace::new();
    let status = run(alloc, words, &mut source, &mut sink, &mut trace);
    answer_to(status, sink.text(), dst)
}

/// Does what the words ask, with the document in place of standard input, and writes the text to
/// the front of `dst`. Each word is ended by a byte 0; the last one may end with the bytes. The
/// answer is the program's status and how many bytes the text has.
///
/// | status | stands for |
/// |---|---|
/// | 0 | no step is broken; `dst` has the text |
/// | 1 | a step is broken; `dst` has the fault's line |
/// | 2 | the document spells no JSON value, or it has no meaning as a document |
/// | 3 | the words are others |
/// | 6 | memory runs out, or the text would be too long |
/// | 7 | the document has more than 16,777,216 bytes |
/// | 9 | a word isn't UTF-8 |
/// | 16 | the status would be 0 or 1, but `dst` is too small; the number is what it must hold |
///
/// From 2 on nothing is written.
#[unsafe(no_mangle)]
pub extern "C" fn vortex_program(
    alloc: Global,
    words: &[u8],
    document: &[u8],
    dst: &mut [u8],
) -> Answer
    ensures { IsRun (words_in words.now) document.now dst.old dst.new result.status result.value }
{
    match words_of(alloc, words) {
        Ok(words) => run_words(alloc, &words, document, dst),
        Err(WordsFault::NotText) => Answer::no_words(),
        Err(WordsFault::NoMemory) => Answer::no_memory(),
    }
}
