//! What holds of the calls that selected values ask for.
ghost use Rattle.std.specs.Prelude.{ℕ, List};
ghost use Rattle.vx_chunked.specs.Asked.{AskAlike};

/// Set positions ask for the same calls as they do where they are handed in as picks, which may be
/// null, stand in any order and be repeated.
#[tactic(auto, using(crate::proofs::PickedOnce::asked_is))]
pub fn asked_law()
    ensures { (offset len : ℕ) (set : List ℕ) (limit n : ℕ)
        → AskAlike offset len set limit n }
{}
