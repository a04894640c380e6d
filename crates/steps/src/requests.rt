// One step on any stage.
ghost use Rattle.model.specs.Stages.{Steps, stage_of};
ghost use Rattle.steps.specs.Requests.{action_of};
ghost use Rattle.steps.specs.Rows.{ReadsSurvivorsAlone};

use model::questions::Model;
use model::refusals::Refusal;
use model::stages::Stage;

// A step that a stage is asked to take, with its row: a value and no closure, since lists of steps are what theorems speak of.
#[derive(Clone, Copy, Debug, PartialEq, Eq)]
pub enum Step<'a> {
    Hear(&'a [u64]),
    // By that agent.
    Look(u16, &'a [u64]),
    // On that fact.
    Put(u16, &'a [u64]),
}

// Asks the stage to take the step.
pub fn take_step<S: Stage>(stage: &mut S, step: Step<'_>) -> Result<(), Refusal>
    ensures takes_the_step { Steps (action_of step.entry) (stage_of S.Model.meaning S.Stage.takes stage.old) result (stage_of S.Model.meaning S.Stage.takes stage.new) }
    ensures reads_the_row_at_survivors_alone { ReadsSurvivorsAlone (action_of step.entry) (stage_of S.Model.meaning S.Stage.takes stage.old) result (stage_of S.Model.meaning S.Stage.takes stage.new) }
{
    dispatch(stage, step)
}

// Makes the call that the step stands for. It stands apart from `take_step` so as to have no proof file, for its edits.
fn dispatch<S: Stage>(stage: &mut S, step: Step<'_>) -> Result<(), Refusal>
    ensures takes_the_step { Steps (action_of step.entry) (stage_of S.Model.meaning S.Stage.takes stage.old) result (stage_of S.Model.meaning S.Stage.takes stage.new) }
{
    match step {
        Step::Hear(row) => stage.hear(row),
        Step::Look(agent, row) => stage.look(agent, row),
        Step::Put(fact, row) => stage.put(fact, row),
    }
}
