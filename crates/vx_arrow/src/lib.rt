//! Columns and steps in the caller's memory, in Arrow's format: nothing is handed over, and nothing
//! of the caller's is kept.
#![tactic(auto)]

mod composing;
mod copies;
mod image;
mod known;
mod lacks;
mod need;
mod reading;
mod refusal;
mod written;

pub use composing::{compose, count};
pub use image::StepImage;
pub use known::{KnownPicks, Numbers, known_picks};
pub use lacks::{Lack, Lacking};
pub use need::Need;
pub use refusal::Refusal;
pub use vx_steps::Cause;
