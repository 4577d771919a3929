//! What constructors answer.
ghost use Rattle.std.specs.Prelude.{◌≡◌};
ghost use Rattle.std.specs.Result.{result_ok};
ghost use Rattle.vx_json.specs.Meaning.{Gives};
ghost use Rattle.vx_column_json.specs.Made.{refusal};

use vx_column::ColumnError;
use vx_json::DocError;

/// What a constructor's refusal says of the document: `NoMemory` stays that, and all else is
/// `Malformed`.
pub(crate) fn refusal(fault: ColumnError) -> DocError
    ensures { result ≡ refusal fault }
{
    match fault {
        ColumnError::NoMemory => DocError::NoMemory,
        _ => DocError::Malformed,
    }
}

/// What a constructor made of parts that the document states.
pub(crate) fn made<T>(answer: Result<T, ColumnError>) -> Result<T, DocError>
    ensures { Gives (λ x. x) result (result_ok answer) }
{
    match answer {
        Ok(made) => Ok(made),
        Err(fault) => Err(refusal(fault)),
    }
}
