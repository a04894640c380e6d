// A list of steps on any stage.
ghost use Rattle.std.specs.Prelude.{◌≡◌, ◌≤◌, [], ◌∷◌, ◌++◌, length, drop};
ghost use Rattle.model.specs.declared.refusals.Refusal.TheVariants.{ShortList};
ghost use Rattle.model.specs.Causes.{first};
ghost use Rattle.model.specs.Stages.{stage_of};
ghost use Rattle.steps.specs.Requests.{actions};
ghost use Rattle.steps.specs.Runs.{run, replies, SameWorlds, no_room, stage_after, answers_after};

use crate::requests::{Step, take_step};
use model::questions::Model;
use model::refusals::Refusal;
use model::stages::Stage;

// Takes the steps one after another, and writes what each answered into the front of the list.
// By places, since of a list that a `zip` of its `iter_mut` wrote the check knows the length alone.
fn take_all<S: Stage>(stage: &mut S, steps: &[Step<'_>], answers: &mut [Result<(), Refusal>])
    requires has_room { length steps.now ≤ length answers.old }
    ensures takes_each_step { stage_of S.Model.meaning S.Stage.takes stage.new ≡ run (actions steps.now) (stage_of S.Model.meaning S.Stage.takes stage.old) }
    ensures writes_the_answers { answers.new ≡ replies (actions steps.now) (stage_of S.Model.meaning S.Stage.takes stage.old) ++ drop (length steps.now) answers.old }
{
    for (place, step) in steps.iter().enumerate() {
        answers[place] = take_step(stage, *step);
    }
}

// Takes the steps one after another, accepted or refused, and writes what each answered into the front of a list
// that is lent. It is refused where that list is shorter than the list of steps; then nothing is altered.
pub fn take_steps<S: Stage>(
    stage: &mut S,
    steps: &[Step<'_>],
    answers: &mut [Result<(), Refusal>],
) -> Result<(), Refusal>
    ensures refuses_a_short_list { result ≡ first ((no_room steps.now answers.old, ShortList) ∷ []) tt }
    ensures takes_each_step { stage_of S.Model.meaning S.Stage.takes stage.new ≡ stage_after steps.now answers.old (stage_of S.Model.meaning S.Stage.takes stage.old) }
    ensures writes_the_answers { answers.new ≡ answers_after steps.now answers.old (stage_of S.Model.meaning S.Stage.takes stage.old) }
    ensures keeps_the_worlds { SameWorlds (stage_of S.Model.meaning S.Stage.takes stage.old) (stage_of S.Model.meaning S.Stage.takes stage.new) }
{
    if answers.len() < steps.len() {
        return Err(Refusal::ShortList);
    }
    take_all(stage, steps, answers);
    Ok(())
}
