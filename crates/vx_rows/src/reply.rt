//! What is answered to the bytes of a document.
ghost use Rattle.std.specs.Prelude.{◌≡◌, ◌<◌, IfOk, Some, drop};
ghost use Rattle.serde_json.specs.View.{view};
ghost use Rattle.vx_json.specs.Meaning.{Gives};
ghost use Rattle.vx_document.specs.Documents.{IsWhole, document_value};
ghost use Rattle.vx_rows.specs.Commands.{HasRows};
ghost use Rattle.vx_rows.specs.Program.{Done, value_of, outcome_of, answer_to, of_document};
ghost use Rattle.vx_rows.specs.Program.{of_form, text_with};
ghost use Rattle.vx_rows.specs.Reply.{Replies, IsHonest};
ghost use Rattle.vx_rows.specs.declared.command.Form.TheVariants as forms;

use crate::answering::{Answered, answer_to};
use crate::asked::Asked;
use crate::command::Form;
use crate::file_document::file_document;
use crate::file_reply::reply_to_file;
use crate::pages::reply_of_page;
use serde_json::Value;
use std::alloc::Global;
use vx_bits::NoMemory;
use vx_column::Array;
use vx_document::{DocError, Document, document};
use vx_file::ReadLog;
use vx_json::let_go;
use vx_print::{calls_line, reads_line, text_of};
use vx_select::{Cause, SelectError};

/// What comes of bytes that aren't too many.
#[derive(Drop)]
pub(crate) enum Reply {
    /// The text of the rows, and of what was asked for them.
    Done {
        /// The text.
        text: Vec<u8>,
        /// What was asked.
        asked: Asked,
    },
    /// The first broken step, and its cause.
    Broken {
        /// The step's number, from 0.
        step: usize,
        /// The rule that it breaks.
        cause: Cause,
    },
    /// The bytes have no meaning.
    Malformed,
    /// Out of memory.
    NoMemory,
}

#[tactic(auto, unfolding(crate::specs::Program::value_of))]
fn value_of(alloc: Global, bytes: &[u8]) -> Result<Value, DocError>
    ensures { Gives view result (value_of bytes.now) }
{
    match Value::from_slice(alloc, bytes) {
        Ok(value) => Ok(value),
        Err(e) => {
            if e.is_memory() {
                Err(DocError::NoMemory)
            } else {
                Err(DocError::Malformed)
            }
        }
    }
}

/// What comes of these bytes, as a document of this form. They are let go before the document is
/// made, and the JSON value before the rows are.
#[tactic(auto, unfolding(crate::specs::Program::outcome_of))]
pub(crate) fn reply_to(alloc: Global, form: Form, bytes: Vec<u8>) -> Reply
    requires { HasRows form }
    ensures { Replies result (outcome_of form bytes.items) }
{
    let value = match value_of(alloc, &bytes) {
        Ok(value) => value,
        Err(DocError::Malformed) => return Reply::Malformed,
        Err(DocError::NoMemory) => return Reply::NoMemory,
    };
    drop(bytes);
    match form {
        Form::Rows => reply_to_rows(alloc, value),
        Form::File => reply_to_blocks(alloc, value),
        Form::Page { number, len } => reply_to_page(alloc, value, number as usize, len as usize),
    }
}

// What comes of a value as a document of rows.
fn reply_to_rows(alloc: Global, value: Value) -> Reply
    ensures { Replies result (of_form forms.Rows (view value)) }
{
    let document = document(alloc, &value);
    let_go(value);
    match document {
        Ok(document) => reply_of(alloc, &document),
        Err(DocError::Malformed) => Reply::Malformed,
        Err(DocError::NoMemory) => Reply::NoMemory,
    }
}

// What comes of a value as a document of rows of which one page is printed.
fn reply_to_page(alloc: Global, value: Value, number: usize, len: usize) -> Reply
    requires { 0 < len }
    ensures { Replies result (of_form (forms.Page number len) (view value)) }
{
    let document = document(alloc, &value);
    let_go(value);
    match document {
        Ok(document) => reply_of_page(alloc, &document, number, len),
        Err(DocError::Malformed) => Reply::Malformed,
        Err(DocError::NoMemory) => Reply::NoMemory,
    }
}

// What comes of a value as a document of a file.
fn reply_to_blocks(alloc: Global, value: Value) -> Reply
    ensures { Replies result (of_form forms.File (view value)) }
{
    let document = file_document(alloc, &value);
    let_go(value);
    match document {
        Ok(document) => reply_to_file(alloc, document),
        Err(DocError::Malformed) => Reply::Malformed,
        Err(DocError::NoMemory) => Reply::NoMemory,
    }
}

// The blocks that were read behind the header.
fn blocks_read(log: &ReadLog) -> &[usize]
    ensures { result.now ≡ drop 1 log.now }
{
    match log.reads().split_first() {
        Some((_header, blocks)) => blocks,
        None => &[],
    }
}

// The text of the rows, and behind it the line of the calls of a decoder or of the reads of a file.
fn text_with(alloc: Global, rows: &Array, asked: &Asked) -> Result<Vec<u8>, NoMemory>
    ensures { IfOk result (λ text. text.items ≡ text_with rows.now.dtype rows.now.rows asked.now) }
{
    let mut text = text_of(alloc, rows)?;
    match asked {
        Asked::Nothing => {}
        Asked::Calls(log) => {
            text.extend_from_slice(calls_line(alloc, log.calls())?.as_slice())?;
        }
        Asked::Reads(log) => {
            text.extend_from_slice(reads_line(alloc, blocks_read(log))?.as_slice())?;
        }
    }
    Ok(text)
}

/// The text of the rows and of what was asked for them, or `NoMemory`.
pub(crate) fn reply_with(alloc: Global, rows: &Array, asked: Asked) -> Reply
    ensures { Replies result (Done (text_with rows.now.dtype rows.now.rows asked) asked) }
{
    match text_with(alloc, rows, &asked) {
        Ok(text) => Reply::Done { text, asked },
        Err(_) => Reply::NoMemory,
    }
}

// What comes of a document. Memory isn't wanting where a step is broken.
fn reply_of(alloc: Global, document: &Document) -> Reply
    requires { IsWhole document.now.source }
    ensures reply { Replies result (of_document (Some (document_value document.now))) }
    ensures honest { IsHonest result
        (answer_to (document_value document.now).source (document_value document.now)) }
{
    match answer_to(alloc, document) {
        Ok(Answered { rows, asked }) => reply_with(alloc, &rows, asked),
        Err(SelectError::Broken { step, cause }) => Reply::Broken { step, cause },
        Err(SelectError::NoMemory) => Reply::NoMemory,
    }
}
