//! The picks that images of steps leave.
ghost use Rattle.std.specs.Prelude.{◌≡◌, length, map, IfErr, IfOk, OnErr, OnOk};
ghost use Rattle.vx_positions.specs.Positions.{AllThere};
ghost use Rattle.vx_steps.specs.Compose.{IsUnbroken, takes_nullability};
ghost use Rattle.vx_steps.specs.Step.{step_value};
ghost use Rattle.vx_steps.specs.Walk.{walk, walk_picks};
ghost use Rattle.vx_types.specs.declared.nullability.Nullability.TheVariants.{NonNullable};
ghost use Rattle.vx_arrow.specs.Answer.{AreMeant, HasNeed, IfPicks, IsFault, IsRefusal, IsShort, IsUnread, walk_in};
ghost use Rattle.vx_arrow.specs.Image.{first_lack, step_parts, steps_in};
ghost use Rattle.vx_arrow.specs.Written.{ArePlaced, AreShown, need_of};

use crate::image::StepImage;
use crate::known::known_picks;
use crate::lacks::first_lack;
use crate::need::Need;
use crate::reading::steps_of;
use crate::refusal::Refusal;
use crate::written::{write_places, write_valid};
use std::alloc::Global;
use vx_bits::NoMemory;
use vx_steps::{SelectError, Step, check_steps, takes_nullability};
use vx_take::Picks;
use vx_types::Nullability;

// The steps that the images mean.
fn read(alloc: Global, images: &[StepImage]) -> Result<Vec<Step>, Refusal>
    ensures steps { IfOk result
        (λ v. map step_value v.items ≡ steps_in (map step_parts images.now)) }
    ensures meant { OnOk result (AreMeant (map step_parts images.now)) }
    ensures fault { IfErr result (IsUnread (map step_parts images.now)) }
{
    if let Some(lacking) = first_lack(images) {
        return Err(Refusal::Lacking(lacking));
    }
    Ok(steps_of(alloc, images)?)
}

// What the picks need that the steps leave of `len` rows, or the step that is broken.
fn need_of(len: usize, steps: &[Step]) -> Result<Need, Refusal>
    ensures need { IfOk result (λ need. IfPicks (walk len (map step_value steps.now))
        (λ picks. need ≡ need_of (length picks) (takes_nullability (map step_value steps.now)))) }
    ensures broken { IfErr result (IsFault (walk len (map step_value steps.now))) }
{
    match check_steps(len, steps) {
        Ok(places) => Ok(Need::of(places, takes_nullability(steps))),
        Err(SelectError::Broken { step, cause }) => Err(Refusal::Broken { step, cause }),
        Err(SelectError::NoMemory) => unreachable!(),
    }
}

// The picks that the steps leave of `len` rows, where none is broken. Fails only with `NoMemory`.
fn picks_of(alloc: Global, len: usize, steps: &[Step]) -> Result<Picks, NoMemory>
    requires { IsUnbroken (walk len (map step_value steps.now)) }
    ensures picks { IfOk result (λ p. walk len (map step_value steps.now) ≡ walk_picks p.picks) }
    ensures there { IfOk result (λ p. takes_nullability (map step_value steps.now) ≡ NonNullable
        → AllThere p.picks) }
{
    match vx_steps::compose(alloc, len, steps) {
        Ok(picks) => Ok(picks),
        Err(SelectError::NoMemory) => Err(NoMemory),
        Err(SelectError::Broken { .. }) => unreachable!(),
    }
}

/// How much room the picks need that the steps leave of `len` rows: what [`compose`] writes.
///
/// `Lacking` exactly where an image has no meaning, with the first one. Else `Broken` with the
/// first step that breaks a rule, or `NoMemory`; never `Room`. `NoMemory` may come in place of
/// `Broken`.
pub fn count(alloc: Global, len: usize, steps: &[StepImage]) -> Result<Need, Refusal>
    ensures meant { OnOk result (AreMeant (map step_parts steps.now)) }
    ensures need { IfOk result (HasNeed len (map step_parts steps.now)) }
    ensures fault { IfErr result (IsRefusal len (map step_parts steps.now) (λ _. ⊥)) }
{
    if let Some(picks) = known_picks(alloc, steps, len)? {
        return Ok(Need::of(picks.len(), Nullability::NonNullable));
    }
    let steps = read(alloc, steps)?;
    need_of(len, &steps)
}

/// Writes for each row that the steps leave of `len` rows its position among these to `places`, 0
/// at a null, and to `valid` a bit that is clear at a null, where a take may leave nulls. What is
/// written is what [`count`] answers.
///
/// `Lacking` exactly where an image has no meaning, with the first one. Else `Broken` with the
/// first step that breaks a rule, `Room` where `places` or `valid` is too short, or `NoMemory`,
/// which may come in place of these two. Nothing is written then.
pub fn compose(
    alloc: Global,
    len: usize,
    steps: &[StepImage],
    places: &mut [u64],
    valid: &mut [u8],
) -> Result<Need, Refusal>
    ensures meant { OnOk result (AreMeant (map step_parts steps.now)) }
    ensures need { IfOk result (HasNeed len (map step_parts steps.now)) }
    ensures places { OnOk result (IfPicks (walk_in len (map step_parts steps.now))
        (λ picks. ArePlaced picks places.old places.new)) }
    ensures valid { IfOk result (λ need. IfPicks (walk_in len (map step_parts steps.now))
        (λ picks. AreShown need.valid picks valid.old valid.new)) }
    ensures fault { IfErr result (IsRefusal len (map step_parts steps.now)
        (IsShort len (map step_parts steps.now) (length places.old) (length valid.old))) }
    ensures kept_places { OnErr result (places.new ≡ places.old) }
    ensures kept_valid { OnErr result (valid.new ≡ valid.old) }
{
    if let Some(picks) = known_picks(alloc, steps, len)? {
        let need = Need::of(picks.len(), Nullability::NonNullable);
        if !need.has_room(places.len(), valid.len()) {
            return Err(Refusal::Room(need));
        }
        picks.write(len, places);
        return Ok(need);
    }
    let steps = read(alloc, steps)?;
    let need = need_of(len, &steps)?;
    if !need.has_room(places.len(), valid.len()) {
        return Err(Refusal::Room(need));
    }
    let picks = picks_of(alloc, len, &steps)?;
    write_places(&picks, places);
    if need.valid != 0 {
        write_valid(&picks, valid);
    }
    Ok(need)
}
