// The same steps on piles of different orders over a circle.
use crate::playing::{
    play_hearing_first, play_looking_first, play_looking_twice, play_putting_first,
};
use looking::layer::LookingLayer;
use model::questions::Model;
use model::refusals::Refusal;
use model::stages::Stage;
use model::verdict::Verdict;
use putting::layer::PuttingLayer;
use settings::hats::Hats;
use settings::sight::Sight;
use stages::floor::Floor;
use stages::hearing::HearingLayer;
use std::test::Fail;
use steps::pairs::take_on_both;
use steps::requests::Step;

// How many steps are played.
const STEPS: usize = 8;

// A circle of three: at least one fact is true; agent 1 looks whether fact 1 is; fact 0 is put to what fact 2 is;
// three steps are refused; agent 1 looks once more; just one fact was true.
const SOME: [u64; 1] = [0b1111_1110];

const SECOND: [u64; 1] = [0b1100_1100];

const THIRD: [u64; 1] = [0b1111_0000];

const NOTHING: [u64; 0] = [];

const ONE: [u64; 1] = [0b0001_0110];

fn script() -> [Step<'static>; STEPS] {
    [
        Step::Hear(&SOME),
        Step::Look(1, &SECOND),
        Step::Put(0, &THIRD),
        Step::Hear(&NOTHING),
        Step::Look(3, &SECOND),
        Step::Put(3, &THIRD),
        Step::Look(1, &THIRD),
        Step::Hear(&ONE),
    ]
}

// The number that is reported of an answer.
fn number(answer: Result<(), Refusal>) -> u16 {
    match answer {
        Ok(()) => 0,
        Err(refusal) => refusal.number(),
    }
}

// Whether a way to play plays the script as it should: the worlds 1, 2 and 4 are left, and its fourth, fifth and sixth
// steps are refused.
fn is_due<F>(play: F, circle: Hats) -> bool
where
    F: FnOnce(Hats, &[Step<'_>], &mut [Result<(), Refusal>]) -> Result<Verdict, Refusal>,
    requires { F.IsAlwaysCallable play }
{
    let mut answers = [Ok(()); STEPS];
    let verdict = play(circle, &script(), &mut answers);
    let left = Verdict::Rivals {
        count: 3,
        lowest: 1,
        second: 2,
    };
    verdict == Ok(left) && answers.map(number) == [0, 0, 0, 7, 4, 4, 0, 0]
}

// Whether the two models answer every question about the agent at the world alike.
fn same_for<L: Model, R: Model>(left: &L, right: &R, agent: u16, world: u16) -> bool {
    let told_alike = |other| left.distinguishes(agent, world, other)
        == right.distinguishes(agent, world, other);
    left.fact(agent, world) == right.fact(agent, world) && (0..left.width()).all(told_alike)
}

// Whether the two models answer every question about their worlds alike.
fn same_worlds<L: Model, R: Model>(left: &L, right: &R) -> bool {
    let same_at = |world| {
        left.survives(world) == right.survives(world)
            && (0..left.agents()).all(|agent| same_for(left, right, agent, world))
    };
    left.width() == right.width() && (0..left.width()).all(same_at)
}

// Whether two stages are alike, answer the script alike, and stay alike.
fn stay_alike<L: Stage, R: Stage>(left: &mut L, right: &mut R) -> bool {
    let before = same_worlds(left, right);
    let answers = take_on_both(left, right, &script());
    before & answers & same_worlds(left, right)
}

// The last of 40 looks that a stage takes, counted from 1.
fn last_look<S: Stage>(stage: &mut S) -> u16 {
    (1..41)
        .filter(|_| stage.look(2, &SECOND).is_ok())
        .last()
        .unwrap_or(0)
}

#[test]
fn four_piles_answer_alike(rt: HostRuntime) -> Result<(), Fail> {
    let circle = Hats::new(Sight::Circle, 3)?;
    assert!(rt; is_due(play_hearing_first, circle) && is_due(play_putting_first, circle));
    assert!(rt; is_due(play_looking_first, circle) && is_due(play_looking_twice, circle));
    Ok(())
}

#[test]
fn two_piles_stay_alike(rt: HostRuntime) -> Result<(), Fail> {
    let circle = Hats::new(Sight::Circle, 3)?;
    let mut left = HearingLayer::new(PuttingLayer::new(LookingLayer::new(Floor::new(circle))));
    let mut right = PuttingLayer::new(LookingLayer::new(HearingLayer::new(Floor::new(circle))));
    assert!(rt; stay_alike(&mut left, &mut right));
    assert!(rt; !same_worlds(&left, &circle));
    Ok(())
}

#[test]
fn two_looking_layers_take_32_looks(rt: HostRuntime) -> Result<(), Fail> {
    let circle = Hats::new(Sight::Circle, 3)?;
    let mut pile = LookingLayer::new(HearingLayer::new(LookingLayer::new(Floor::new(circle))));
    assert!(rt; last_look(&mut pile) == 32);
    Ok(())
}
