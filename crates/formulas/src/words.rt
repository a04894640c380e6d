// The words that a formula knows.
ghost use Rattle.std.specs.Prelude.{◌≡◌};
ghost use Rattle.formulas.specs.Readers.{keyword};

#[derive(Clone, Copy, Debug, PartialEq, Eq)]
pub enum Keyword {
    True,
    Fact,
    Quantity,
}

// The word of a formula, if it is one. Each has a grammar of its own, so a `match` picks it.
#[tactic(auto, unfolding(crate::specs::Readers::keyword))]
pub fn keyword_of(word: &[u8]) -> Option<Keyword>
    ensures { result ≡ keyword word.now }
{
    match word {
        b"true" => Some(Keyword::True),
        b"f" => Some(Keyword::Fact),
        b"q" => Some(Keyword::Quantity),
        _ => None,
    }
}
