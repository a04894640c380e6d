// What holds of every meaning.
ghost use Rattle.model.specs.Meaning.{GoneBitsIdle, LawKept};

// A step keeps the law of models, and does not read a row at worlds that do not survive.
pub fn steps_keep_the_law()
    ensures steps_keep_the_law { LawKept }
    ensures gone_bits_are_idle { GoneBitsIdle }
{}
