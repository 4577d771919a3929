//! What each call answers.
ghost use Rattle.std.specs.Prelude.{◌≡◌};
ghost use Rattle.vortex_arrow_c.specs.Answer.{answer, column_answer, lack_answer, lack_code, refusal_answer};
ghost use Rattle.vortex_arrow_c.specs.Interleaved.{interleaving_answer, unjoined_answer};
ghost use Rattle.vortex_arrow_c.specs.Selected.{fault_answer, selection_answer};
ghost use Rattle.vortex_arrow_c.specs.Steps.{cause_code, step_answer, step_lack_code};
ghost use Rattle.vortex_arrow_c.specs.Strict.{flaw_answer, rule_code};

use vx_arrow::Cause;
use vx_arrow_columns::{Lack, Refusal};
use vx_arrow_interleave::Refused;
use vx_arrow_strict::{Flaw, Rule};

/// The call was done.
pub(crate) const DONE: u64 = 0;

/// A node has no meaning: its number, and what it lacks.
pub(crate) const NO_MEANING: u64 = 1;

/// A pick that isn't null is past the rows.
pub(crate) const BEYOND: u64 = 2;

/// A room is smaller than its need: the node's number.
pub(crate) const ROOM: u64 = 3;

/// Rows or items are too many to be counted: the node's number.
pub(crate) const OVERFLOW: u64 = 4;

/// Out of memory.
pub(crate) const NO_MEMORY: u64 = 5;

/// A step breaks a rule: its number, and the rule.
pub(crate) const BROKEN: u64 = 6;

/// A step's image has no meaning: its number, and what it lacks.
pub(crate) const LACKING: u64 = 7;

/// A number names no format: the node's number.
pub(crate) const FORMAT: u64 = 8;

/// A pick of a union is null.
pub(crate) const NULL_PICK: u64 = 9;

/// The nodes at one place of several tables differ: their number.
pub(crate) const UNLIKE: u64 = 10;

// What a node lacks that has other codes than those of its dictionary.
const CODES: u64 = 16;

/// A status, which is 0 where the call was done, and where and what the fault is.
#[repr(C)]
#[derive(Clone, Copy)]
pub struct Answer {
    pub status: u64,
    pub node_or_step: u64,
    pub what: u64,
}

// The number of what a node lacks.
fn code_of(lack: Lack) -> u64
    ensures { result ≡ lack_code lack }
{
    match lack {
        Lack::Format => 0,
        Lack::Tree => 1,
        Lack::Rows => 2,
        Lack::Valid => 3,
        Lack::Children => 4,
        Lack::Values => 5,
        Lack::Offsets => 6,
        Lack::Items => 7,
        Lack::Length => 8,
        Lack::Sizes => 9,
        Lack::Id => 10,
    }
}

/// The number of what a step's image lacks.
pub(crate) fn step_code_of(lack: vx_arrow::Lack) -> u64
    ensures { result ≡ step_lack_code lack }
{
    match lack {
        vx_arrow::Lack::Kind => 0,
        vx_arrow::Lack::Type => 1,
        vx_arrow::Lack::Counted => 2,
        vx_arrow::Lack::Values => 3,
        vx_arrow::Lack::Valid => 4,
        vx_arrow::Lack::Lengths => 5,
        vx_arrow::Lack::Multipliers => 6,
    }
}

/// The number of the rule that a step breaks.
pub(crate) fn cause_code_of(cause: Cause) -> u64
    ensures { result ≡ cause_code cause }
{
    match cause {
        Cause::BadRange { .. } => 0,
        Cause::BadMask { .. } => 1,
        Cause::NotBool => 2,
        Cause::InvalidIndices => 3,
        Cause::BadPieces => 4,
        Cause::OutOfBounds { .. } => 5,
    }
}

// The number of the rule that a node breaks.
fn rule_code_of(rule: Rule) -> u64
    ensures { result ≡ rule_code rule }
{
    match rule {
        Rule::Codes => CODES,
        Rule::NullCount => 17,
        Rule::Map => 18,
        Rule::Views => 19,
        Rule::ListViews => 20,
        Rule::Dense => 21,
    }
}

impl Answer {
    // A status alone.
    fn plain(status: u64) -> Answer
        ensures { result ≡ record { status = status; node_or_step = 0; what = 0 } }
    {
        Answer {
            status,
            node_or_step: 0,
            what: 0,
        }
    }

    // That a node has no meaning.
    fn without(node: usize, lack: Lack) -> Answer
        ensures { result ≡ lack_answer node lack }
    {
        let node_or_step = node as u64;
        match lack {
            Lack::Format => Answer {
                status: FORMAT,
                node_or_step,
                what: 0,
            },
            _ => Answer {
                status: NO_MEANING,
                node_or_step,
                what: code_of(lack),
            },
        }
    }

    // Why a call over columns is refused.
    fn refused(refusal: Refusal) -> Answer
        ensures { result ≡ refusal_answer refusal }
    {
        match refusal {
            Refusal::NoMeaning { node, lack } => Answer::without(node, lack),
            Refusal::Beyond => Answer::plain(BEYOND),
            Refusal::NullPick => Answer::plain(NULL_PICK),
            Refusal::Room { node } => Answer {
                status: ROOM,
                node_or_step: node as u64,
                what: 0,
            },
            Refusal::Overflow { node } => Answer {
                status: OVERFLOW,
                node_or_step: node as u64,
                what: 0,
            },
            Refusal::NoMemory => Answer::plain(NO_MEMORY),
        }
    }

    /// What a call over columns answers.
    pub(crate) fn of(outcome: Result<(), Refusal>) -> Answer
        ensures { result ≡ column_answer outcome }
    {
        match outcome {
            Ok(()) => Answer::plain(DONE),
            Err(refusal) => Answer::refused(refusal),
        }
    }

    /// What a call over steps that is done answers.
    pub(crate) fn done() -> Answer
        ensures { result ≡ record { status = 0; node_or_step = 0; what = 0 } }
    {
        Answer::plain(DONE)
    }

    /// Why a call over steps is refused.
    pub(crate) fn of_steps(refusal: vx_arrow::Refusal) -> Answer
        ensures { result ≡ step_answer refusal }
    {
        match refusal {
            vx_arrow::Refusal::Lacking(lacking) => Answer {
                status: LACKING,
                node_or_step: lacking.step as u64,
                what: step_code_of(lacking.lack),
            },
            vx_arrow::Refusal::Broken { step, cause } => Answer {
                status: BROKEN,
                node_or_step: step as u64,
                what: cause_code_of(cause),
            },
            vx_arrow::Refusal::Room(_) => Answer::plain(ROOM),
            vx_arrow::Refusal::NoMemory => Answer::plain(NO_MEMORY),
        }
    }

    // Why nothing is selected.
    fn unselected(refusal: vx_arrow_select::Refusal) -> Answer
        ensures { result ≡ fault_answer refusal }
    {
        match refusal {
            vx_arrow_select::Refusal::Steps(refusal) => Answer::of_steps(refusal),
            vx_arrow_select::Refusal::Column(refusal) => Answer::refused(refusal),
        }
    }

    /// What a call over a column and steps answers.
    pub(crate) fn of_selection(outcome: Result<(), vx_arrow_select::Refusal>) -> Answer
        ensures { result ≡ selection_answer outcome }
    {
        match outcome {
            Ok(()) => Answer::plain(DONE),
            Err(refusal) => Answer::unselected(refusal),
        }
    }

    // Why rows of several columns aren't joined.
    fn unjoined(refused: Refused) -> Answer
        ensures { result ≡ unjoined_answer refused }
    {
        match refused {
            Refused::NoMeaning { node, lack } => Answer::without(node, lack),
            Refused::Unlike { node } => Answer {
                status: UNLIKE,
                node_or_step: node as u64,
                what: 0,
            },
            Refused::Beyond => Answer::plain(BEYOND),
            Refused::Room { node } => Answer {
                status: ROOM,
                node_or_step: node as u64,
                what: 0,
            },
            Refused::Overflow { node } => Answer {
                status: OVERFLOW,
                node_or_step: node as u64,
                what: 0,
            },
            Refused::NoMemory => Answer::plain(NO_MEMORY),
        }
    }

    /// What a call over several columns answers.
    pub(crate) fn of_interleaving(outcome: Result<(), Refused>) -> Answer
        ensures { result ≡ interleaving_answer outcome }
    {
        match outcome {
            Ok(()) => Answer::plain(DONE),
            Err(refused) => Answer::unjoined(refused),
        }
    }

    /// What a test of the rules of a strict table answers.
    pub(crate) fn of_flaw(flaw: Option<Flaw>) -> Answer
        ensures { result ≡ flaw_answer flaw }
    {
        match flaw {
            None => Answer::done(),
            Some(flaw) => Answer {
                status: NO_MEANING,
                node_or_step: flaw.node as u64,
                what: rule_code_of(flaw.rule),
            },
        }
    }

    /// That the codes of a node are other than those of its dictionary.
    pub(crate) fn without_codes() -> Answer
        ensures { result ≡ answer 1 0 16 }
    {
        Answer {
            status: NO_MEANING,
            node_or_step: 0,
            what: CODES,
        }
    }
}
