//! Calls that test what Arrow's full validators test.
ghost use Rattle.std.specs.Prelude.{◌≡◌, ◌≢◌, if◌then◌else◌};
ghost use Rattle.vortex_arrow_c.specs.Answer.{answer};
ghost use Rattle.vortex_arrow_c.specs.Strict.{IsTold};
ghost use Rattle.vx_arrow_image.specs.Image.{part_of, parts_of};
ghost use Rattle.vx_arrow_strict.specs.Codes.{has_codes};
ghost use Rattle.vx_arrow_strict.specs.Strict.{IsStrict};

use crate::answer::Answer;
use vx_arrow_strict::{Extra, Node, first_flaw, has_codes};

/// Tests the rules that are stricter than what a table means, which `vortex_arrow_check` tests.
/// `extras` has an item for each node.
///
/// The status is 0 exactly where no node breaks a rule. Else it is 1, with the first node that
/// breaks one, and `what` is the first rule that it breaks, in this order: 17 the number of nulls,
/// 16 the codes of a dictionary, 18 the entries of a map, 19 string views, 20 list views, 21 the
/// offsets of a dense union. It doesn't allocate.
#[unsafe(no_mangle)]
pub extern "C" fn vortex_arrow_check_strict(nodes: &[Node], extras: &[Extra]) -> Answer
    ensures strict { result.status ≡ 0 → IsStrict (parts_of nodes.now) extras.now }
    ensures flaw { result.status ≢ 0 → IsTold (parts_of nodes.now) extras.now result }
{
    Answer::of_flaw(first_flaw(nodes, extras))
}

/// Tests the codes of one node: the status is 0 where each row that isn't null has the code of a
/// value of the dictionary, or where there is none, and else 1, and `what` is 16.
#[unsafe(no_mangle)]
pub extern "C" fn vortex_arrow_check_codes(node: &Node, extra: &Extra) -> Answer
    ensures { result ≡ (if has_codes (part_of node.now) extra.now then answer 0 0 0
        else answer 1 0 16) }
{
    if has_codes(node, extra) {
        Answer::done()
    } else {
        Answer::without_codes()
    }
}
