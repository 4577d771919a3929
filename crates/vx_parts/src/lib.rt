//! A column that is cut into parts, each of which answers alone: what each part is asked, and how
//! the answers are put together.
#![tactic(auto)]

mod arriving;
mod cut;
mod error;
mod own;
mod plan;
mod planning;
mod putting;
mod selecting;

pub use arriving::{ArrivalError, arrange};
pub use error::PutError;
pub use own::{OwnPicks, cut_picks};
pub use plan::{PartPlan, Plan};
pub use planning::plan_steps;
pub use putting::put_together;
pub use selecting::select_parts;
pub use vx_cuts::{Piece, bounds_of, cut_runs, part_of, total_len};
pub use vx_interleave::Place;
