//! Documents: a column, the steps over it and the policy, read from a JSON value.
#![tactic(auto)]

mod chunks;
mod columns;
mod documents;
mod indices;
mod numbers;
mod pieces;
mod policies;
mod reading;
mod steps;

pub use columns::{column_member, column_of, columns_member, validity_stated};
pub use documents::{Document, DocumentSource, StepList};
pub use indices::indices_of;
pub use policies::policy_found;
pub use reading::document;
pub use steps::steps_of;
pub use vx_json::DocError;
