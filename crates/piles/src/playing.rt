// Steps on piles of layers over any model.
ghost use Rattle.std.specs.Prelude.{◌≡◌, ℕ};
ghost use Rattle.model.specs.Stages.{stage_of};
ghost use Rattle.piles.specs.Playing.{full_stage, Played};

use looking::layer::LookingLayer;
use model::questions::Model;
use model::refusals::Refusal;
use model::stages::Stage;
use model::verdict::{Verdict, verdict_on};
use putting::layer::PuttingLayer;
use stages::floor::Floor;
use stages::hearing::HearingLayer;
use steps::lists::take_steps;
use steps::requests::Step;

// Takes the steps on the stage, writes what each answered into a list that is lent, and judges what is left.
pub fn play<S: Stage + Drop>(
    mut stage: S,
    steps: &[Step<'_>],
    answers: &mut [Result<(), Refusal>],
) -> Result<Verdict, Refusal>
    ensures plays_the_steps { Played (stage_of S.Model.meaning S.Stage.takes stage) steps.now answers.old result answers.new }
{
    take_steps(&mut stage, steps, answers)?;
    Ok(verdict_on(&stage))
}

// Layers piled over any model: a stage that means the model, hears, takes so many looks and puts.
pub trait Pile<M: Model>: Stage {
    ghost looks: { ℕ };

    // The pile over the model, with nothing kept.
    fn over(model: M) -> Self
        ensures is_the_full_stage { stage_of Self.Model.meaning Self.Stage.takes result ≡ full_stage looks (M.meaning model) };
}

// Hearing over looking over putting.
pub type HearingFirst<M> = HearingLayer<LookingLayer<PuttingLayer<Floor<M>>>>;

impl<M: Model> Pile<M> for HearingLayer<LookingLayer<PuttingLayer<Floor<M>>>> {
    ghost looks = { 16 };

    fn over(model: M) -> Self {
        HearingLayer::new(LookingLayer::new(PuttingLayer::new(Floor::new(model))))
    }
}

// Putting over looking over hearing.
pub type PuttingFirst<M> = PuttingLayer<LookingLayer<HearingLayer<Floor<M>>>>;

impl<M: Model> Pile<M> for PuttingLayer<LookingLayer<HearingLayer<Floor<M>>>> {
    ghost looks = { 16 };

    fn over(model: M) -> Self {
        PuttingLayer::new(LookingLayer::new(HearingLayer::new(Floor::new(model))))
    }
}

// Looking over hearing over putting.
pub type LookingFirst<M> = LookingLayer<HearingLayer<PuttingLayer<Floor<M>>>>;

impl<M: Model> Pile<M> for LookingLayer<HearingLayer<PuttingLayer<Floor<M>>>> {
    ghost looks = { 16 };

    fn over(model: M) -> Self {
        LookingLayer::new(HearingLayer::new(PuttingLayer::new(Floor::new(model))))
    }
}

// Looking over hearing over looking over putting, which takes 32 looks.
pub type LookingTwice<M> = LookingLayer<HearingLayer<LookingLayer<PuttingLayer<Floor<M>>>>>;

impl<M: Model> Pile<M> for LookingLayer<HearingLayer<LookingLayer<PuttingLayer<Floor<M>>>>> {
    ghost looks = { 32 };

    fn over(model: M) -> Self {
        let lower = LookingLayer::new(PuttingLayer::new(Floor::new(model)));
        LookingLayer::new(HearingLayer::new(lower))
    }
}

// Takes the steps on the pile over the model, and judges what is left. Model, steps and answers are lent apart, each by whom it belongs to.
pub fn play_over<M: Model, P: Pile<M> + Drop>(
    model: M,
    steps: &[Step<'_>],
    answers: &mut [Result<(), Refusal>],
) -> Result<Verdict, Refusal>
    ensures plays_on_the_full_stage { Played (full_stage P.Pile.looks (M.meaning model)) steps.now answers.old result answers.new }
{
    play(P::over(model), steps, answers)
}

// The same on hearing over looking over putting.
pub fn play_hearing_first<M: Model + Drop>(
    model: M,
    steps: &[Step<'_>],
    answers: &mut [Result<(), Refusal>],
) -> Result<Verdict, Refusal>
    ensures plays_on_16_looks { Played (full_stage 16 (M.Model.meaning model)) steps.now answers.old result answers.new }
{
    play_over::<M, HearingFirst<M>>(model, steps, answers)
}

// The same on putting over looking over hearing.
pub fn play_putting_first<M: Model + Drop>(
    model: M,
    steps: &[Step<'_>],
    answers: &mut [Result<(), Refusal>],
) -> Result<Verdict, Refusal>
    ensures plays_on_16_looks { Played (full_stage 16 (M.Model.meaning model)) steps.now answers.old result answers.new }
{
    play_over::<M, PuttingFirst<M>>(model, steps, answers)
}

// The same on looking over hearing over putting.
pub fn play_looking_first<M: Model + Drop>(
    model: M,
    steps: &[Step<'_>],
    answers: &mut [Result<(), Refusal>],
) -> Result<Verdict, Refusal>
    ensures plays_on_16_looks { Played (full_stage 16 (M.Model.meaning model)) steps.now answers.old result answers.new }
{
    play_over::<M, LookingFirst<M>>(model, steps, answers)
}

// The same on looking over hearing over looking over putting, which takes 32 looks.
pub fn play_looking_twice<M: Model + Drop>(
    model: M,
    steps: &[Step<'_>],
    answers: &mut [Result<(), Refusal>],
) -> Result<Verdict, Refusal>
    ensures plays_on_32_looks { Played (full_stage 32 (M.Model.meaning model)) steps.now answers.old result answers.new }
{
    play_over::<M, LookingTwice<M>>(model, steps, answers)
}
