// The same steps on two stages.
ghost use Rattle.std.specs.Prelude.{◌≡◌};
ghost use Rattle.model.specs.Stages.{stage_of};
ghost use Rattle.steps.specs.Requests.{actions};
ghost use Rattle.steps.specs.Runs.{run};
ghost use Rattle.steps.specs.Pairs.{same_result, answer_alike, StayEqual};

use crate::requests::{Step, take_step};
use model::questions::Model;
use model::refusals::Refusal;
use model::stages::Stage;

// Whether two answers are the same. It stands apart from `take_on_both` so as to have no proof file, for its edit.
fn same_answer(first: Result<(), Refusal>, second: Result<(), Refusal>) -> bool
    ensures compares { result ≡ same_result first second }
{
    first == second
}

// Takes each step on both stages, and says whether they answered every step alike.
pub fn take_on_both<S: Stage, T: Stage>(left: &mut S, right: &mut T, steps: &[Step<'_>]) -> bool
    ensures takes_each_step_on_the_left { stage_of S.Model.meaning S.Stage.takes left.new ≡ run (actions steps.now) (stage_of S.Model.meaning S.Stage.takes left.old) }
    ensures takes_each_step_on_the_right { stage_of T.Model.meaning T.Stage.takes right.new ≡ run (actions steps.now) (stage_of T.Model.meaning T.Stage.takes right.old) }
    ensures compares_the_answers { result ≡ answer_alike (actions steps.now) (stage_of S.Model.meaning S.Stage.takes left.old) (stage_of T.Model.meaning T.Stage.takes right.old) }
    ensures equal_stages_stay_equal { StayEqual (stage_of S.Model.meaning S.Stage.takes left.old) (stage_of T.Model.meaning T.Stage.takes right.old) result (stage_of S.Model.meaning S.Stage.takes left.new) (stage_of T.Model.meaning T.Stage.takes right.new) }
{
    let mut same = true;
    for step in steps {
        let first = take_step(left, *step);
        let second = take_step(right, *step);
        same &= same_answer(first, second);
    }
    same
}
