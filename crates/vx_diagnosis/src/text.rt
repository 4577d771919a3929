//! The reason in words.

use crate::document::look_at;
use crate::kind::Kind;
use crate::look::{Look, Place};
use crate::whole::{Form, whole_of};
use crate::words::kind_name;
use serde_json::{Error, Value};
use std::alloc::Global;
use vx_bits::NoMemory;
use vx_json::let_go;

// How deep values are looked into: more than JSON is read.
const LEVELS: usize = 256;

// What was got, in words: a number as it is, and of all else its kind.
fn got(alloc: Global, value: &Value) -> Result<String, NoMemory> {
    match value {
        Value::Number(_) => Ok(value.to_string(alloc)?),
        _ => Ok(String::from_str(alloc, kind_name(value))?),
    }
}

// The reason that a look gives, and none where the value inside is to be looked at.
fn reason_of(
    alloc: Global,
    place: &Place,
    look: &Look,
    whole: &str,
) -> Result<Option<String>, NoMemory> {
    let at = place.as_str();
    Ok(match look {
        Look::Expected(expected, value) => {
            let got = got(alloc, value)?;
            Some(format!(in alloc; "{at}: expected {expected}, got {got}")?)
        }
        Look::Missing(name) => Some(format!(in alloc; "{at}: expected a member {name}, got none")?),
        Look::Extra(name) => Some(format!(in alloc; "{at}: expected no member {name}, got one")?),
        Look::Disagreeing => Some(format!(in alloc; "{at}: expected {whole}, got others")?),
        Look::Inside(..) => None,
    })
}

// The reason why a value isn't of a kind.
fn cause_of(alloc: Global, kind: Kind, value: &Value, form: Form) -> Result<String, NoMemory> {
    let mut place = Place::new(String::new(alloc));
    let (mut kind, mut value) = (kind, value);
    for _ in 0..LEVELS {
        let look = look_at(alloc, &mut place, kind, value)?;
        if let Some(reason) = reason_of(alloc, &place, &look, whole_of(kind, value, form))? {
            return Ok(reason);
        }
        if let Look::Inside(inner_kind, inner) = look {
            kind = inner_kind;
            value = inner;
        }
    }
    Ok(String::from_str(alloc, "the document: expected fewer levels, got more")?)
}

// The reason why bytes aren't JSON.
fn cause_of_syntax(alloc: Global, error: &Error) -> Result<String, NoMemory> {
    let (line, column) = (error.line(), error.column());
    let got = if error.is_eof() {
        "the end"
    } else {
        "other bytes"
    };
    Ok(format!(in alloc; "line {line}, column {column}: expected JSON, got {got}")?)
}

/// Returns the reason why bytes aren't a document of a form.
pub fn cause_of_bytes(alloc: Global, bytes: &[u8], form: Form) -> Result<String, NoMemory> {
    let value = match Value::from_slice(alloc, bytes) {
        Ok(value) => value,
        Err(error) => return cause_of_syntax(alloc, &error),
    };
    let kind = match form {
        Form::Rows | Form::Page => Kind::Document,
        Form::File => Kind::File,
    };
    let reason = cause_of(alloc, kind, &value, form);
    let_go(value);
    reason
}
