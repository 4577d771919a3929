//! A policy of the caller's own.
ghost use Rattle.std.specs.Prelude.{◌≡◌, IfOk};
ghost use Rattle.vortex_select.specs.Policy.{sparse_limit_of};

use vortex_select::{Policy, PolicyError, PolicyFields};

/// Vortex's policy with other sparse limits: `limit` for records of every width.
pub(crate) fn with_sparse_limit(limit: usize) -> Result<Policy, PolicyError>
    ensures { IfOk result (λ policy. sparse_limit_of policy 8 ≡ limit) }
{
    Policy::try_new(PolicyFields {
        sparse_w1: limit,
        sparse_w2: limit,
        sparse_w4: limit,
        sparse_other: limit,
        ..*Policy::vortex().fields()
    })
}
