// Why a call is refused.
ghost use Rattle.std.specs.Prelude.{◌≡◌};
ghost use Rattle.std.specs.Option.{option_to_list};
ghost use Rattle.model.specs.Refusals.{number_of, values_of};

#[derive(Clone, Copy, Debug, PartialEq, Eq)]
pub enum Refusal {
    // No node is used, more than the list has or more than 4,096, or the root is not one of them.
    NodeCount,
    // The lowest used node of no kind, or with an agent, fact, quantity or earlier node that is not there.
    BadNode(u16),
    // The work area is too short.
    ShortWork,
    // There is no such agent or fact.
    NoSuch,
    // The stage does not hear, has no look left, or does not put.
    NotTaken,
    // The row has too few words.
    ShortRow,
    // The bounds of a list of pairs leave none, or a number that does not fit.
    PairBounds,
    // A list of no case, or of more than 4,096.
    CaseCount,
    // The list that is lent is too short.
    ShortList,
    // A month outside 1 to 12, or a day outside 1 to 31.
    BadDate,
    // A circle or a queue of no agent, or of more than 12.
    AgentCount,
}

impl Refusal {
    // The number under which the refusal is reported.
    pub fn number(self) -> u16
        ensures is_its_number { result ≡ number_of self }
    {
        match self {
            Refusal::NodeCount => 1,
            Refusal::BadNode(_) => 2,
            Refusal::ShortWork => 3,
            Refusal::NoSuch => 4,
            Refusal::NotTaken => 5,
            Refusal::ShortRow => 7,
            Refusal::PairBounds => 19,
            Refusal::CaseCount => 20,
            Refusal::ShortList => 21,
            Refusal::BadDate => 22,
            Refusal::AgentCount => 23,
        }
    }

    // The node that the refusal names, if it names one.
    pub fn node(self) -> Option<u16>
        ensures is_its_value { option_to_list result ≡ values_of self }
    {
        match self {
            Refusal::BadNode(node) => Some(node),
            Refusal::NodeCount
            | Refusal::ShortWork
            | Refusal::NoSuch
            | Refusal::NotTaken
            | Refusal::ShortRow
            | Refusal::PairBounds
            | Refusal::CaseCount
            | Refusal::ShortList
            | Refusal::BadDate
            | Refusal::AgentCount => None,
        }
    }
}
