// What holds of truth in every model.
ghost use Rattle.theory.specs.Truth.{TruthDecided};

// The test of a formula at a world finds exactly its truth.
pub fn truth_is_decided()
    ensures truth_is_decided { TruthDecided }
{}
