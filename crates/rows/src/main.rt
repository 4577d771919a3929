//! The program: it hands its arguments, standard input and standard output to [`run`], and ends
//! with the status. From 1 on a line on standard error says what is wrong.
#![tactic(auto)]

ghost use Rattle.std.specs.Prelude.{◌≤◌, ◌↔◌, IsSome};

mod kept;
mod usage;

use kept::{KeptSink, KeptSource};
use std::alloc::{AllocError, Global};
use std::env;
use std::process::ExitCode;
use usage::{USAGE, asks_for_usage, cause_of_words};
use vx_diagnosis::{Form, cause_of_bytes, cause_of_line};
use vx_rows::status::{
    BROKEN, DONE, MALFORMED, NO_MEMORY, SINK_FAULT, SOURCE_FAULT, TOO_LONG, WRONG_WORDS,
};
use vx_rows::{StdSink, StdSource, Trace, run};

/// The status if the arguments can't be read.
const NO_WORDS: u8 = 9;

/// What a status stands for; [`DONE`] and [`BROKEN`] are said on standard output.
fn meaning(status: u8) -> Option<&'static str>
    ensures { IsSome result ↔ 2 ≤ status }
{
    match status {
        DONE | BROKEN => None,
        MALFORMED => Some("invalid document"),
        WRONG_WORDS => Some("unknown arguments"),
        SOURCE_FAULT => Some("reading failed"),
        SINK_FAULT => Some("writing failed"),
        NO_MEMORY => Some("out of memory, or the text would be too long"),
        TOO_LONG => Some("more than 16,777,216 bytes"),
        _ => Some("the arguments can't be read"),
    }
}

/// How the program ends: the status, and what is wrong if more is known than the status.
#[derive(Drop)]
struct Outcome {
    status: u8,
    cause: Option<String>,
}

impl Outcome {
    /// An outcome of which no more is known.
    fn of(status: u8) -> Outcome {
        Outcome {
            status,
            cause: None,
        }
    }
}

// Which document a subcommand reads.
fn form_of(word: &str) -> Form {
    match word {
        "file" => Form::File,
        "page" => Form::Page,
        _ => Form::Rows,
    }
}

// What is wrong with the bytes of an invalid document, if they were kept.
fn cause_of_document(alloc: Global, words: &[String], bytes: Option<&[u8]>) -> Option<String> {
    let form = form_of(words.first()?.as_str());
    let reason = cause_of_bytes(alloc, bytes?, form).ok()?;
    format!(in alloc; "invalid document: {reason}").ok()
}

// What is wrong, by what was read and written; none where there is no memory to say it.
fn cause_of(
    alloc: Global,
    status: u8,
    words: &[String],
    bytes: Option<&[u8]>,
    front: &[u8],
) -> Option<String> {
    match status {
        BROKEN => cause_of_line(alloc, front),
        MALFORMED => cause_of_document(alloc, words, bytes),
        WRONG_WORDS => cause_of_words(alloc, words).ok(),
        _ => None,
    }
}

/// Does what the arguments ask.
fn outcome_of(rt: &HostRuntime, words: &[String]) -> Outcome {
    let alloc = rt.alloc();
    let mut source = KeptSource::new(alloc, StdSource::new(rt.stdin()));
    let mut sink = KeptSink::new(alloc, StdSink::new(rt.stdout()));
    let mut trace = Trace::new();
    let status = run(alloc, words, &mut source, &mut sink, &mut trace);
    Outcome {
        status,
        cause: cause_of(alloc, status, words, source.bytes(), sink.front()),
    }
}

/// The arguments, without the program's own name. `None` where they can't be read.
fn words_of(rt: &HostRuntime) -> Option<Vec<String>> {
    let args = env::args(rt).ok()?;
    args.skip(1).collect::<Vec<String>>(rt.alloc()).ok()
}

/// Prints the usage on standard output.
fn print_usage(rt: &HostRuntime) -> Outcome {
    Outcome::of(match print!(rt; "{USAGE}") {
        Ok(()) => DONE,
        Err(_) => SINK_FAULT,
    })
}

/// Writes what is wrong to standard error. If that fails, the status is the same.
fn report(rt: &HostRuntime, outcome: &Outcome) {
    let status = outcome.status;
    if let Some(cause) = &outcome.cause {
        let _ = eprintln!(rt; "rows: {cause} (status {status})");
    } else if let Some(text) = meaning(status) {
        let _ = eprintln!(rt; "rows: {text} (status {status})");
    }
    if status == WRONG_WORDS {
        let _ = eprint!(rt; "{USAGE}");
    }
}

fn main(rt: HostRuntime) -> ExitCode {
    let outcome = match words_of(&rt) {
        None => Outcome::of(NO_WORDS),
        Some(words) => if asks_for_usage(&words) {
            print_usage(&rt)
        } else {
            outcome_of(&rt, &words)
        },
    };
    report(&rt, &outcome);
    ExitCode::from(outcome.status)
}
