//! Letting a JSON value go.

use serde_json::Value;

/// Lets a value go, and with it all that it holds. A list's numbers, bools and nulls have nothing
/// to free, so they are passed over here, without a call of the type's own drop for each.
pub fn let_go(value: Value) {
    match value {
        Value::Array(items) => for item in items {
            match item {
                Value::Number(_) | Value::Bool(_) | Value::Null => {}
                other => let_go(other),
            }
        },
        Value::Object(members) => for (_, member) in members {
            let_go(member);
        },
        other => drop(other),
    }
}
