// What the listing says of a line, and how it is written.
ghost use Rattle.std.specs.Prelude.{◌≡◌, Some};
ghost use Rattle.lines.specs.Faults.{of_line};
ghost use Rattle.model.specs.Refusals.{number_of};
ghost use Rattle.listing.specs.declared.outcomes.Refused.TheVariants.{Line, Setting};
ghost use Rattle.listing.specs.Outcomes.{refusal};
ghost use Rattle.listing.specs.Texts.{fields, placed, said, numbered, headed};
ghost use Rattle.listing.specs.Readings.{refused_in, quantities_in, outcome_in, entry_in};

use lines::faults::LineFault;
use model::refusals::Refusal;
use std::fmt;

// Why a line, or a whole text, is refused.
#[derive(Clone, Copy, Debug, PartialEq, Eq)]
pub enum Refused {
    // A text of too many bytes.
    LongText,
    // A text with no line but blank ones.
    NoSetting,
    Line(LineFault),
    Setting(Refusal),
}

// The most quantities that a model has.
pub const MAX_QUANTITIES: usize = 8;

// The values of a world's quantities, in places for eight, and how many of them there are. Plain numbers, which are copied as they are
// and take 18 bytes: each entry has room for them.
#[derive(Clone, Copy, Debug, PartialEq, Eq)]
pub struct Quantities {
    pub values: [u16; MAX_QUANTITIES],
    pub count: u16,
}

// A refusal is kept by its number and its column, as it is listed: its cause, an enum in which others lie, takes 40 bytes, more than any
// other outcome.
#[derive(Clone, Copy, Debug, PartialEq, Eq)]
pub enum Outcome {
    Contradiction,
    Unique {
        world: u16,
        quantities: Quantities,
    },
    Rivals {
        count: u16,
        lowest: u16,
        second: u16,
    },
    Refusal {
        number: u16,
        column: usize,
    },
}

// A line of the listing.
#[derive(Clone, Copy, Debug, PartialEq, Eq)]
pub struct Entry {
    pub number: u32,
    pub outcome: Outcome,
}

// The first line of a listing: how many worlds, agents, facts and quantities there are.
#[derive(Clone, Copy, Debug, PartialEq, Eq)]
pub struct Header {
    pub worlds: u16,
    pub agents: u16,
    pub facts: u16,
    pub quantities: u16,
}

// All by hand: clauses name what `?` makes, and a derived `From` has no clause.
impl From<LineFault> for Refused {
    ghost from_gives = { λ e r. r ≡ Line e };

    fn from(fault: LineFault) -> Refused {
        Refused::Line(fault)
    }
}

impl From<Refusal> for Refused {
    ghost from_gives = { λ e r. r ≡ Setting e };

    fn from(refusal: Refusal) -> Refused {
        Refused::Setting(refusal)
    }
}

impl From<Refused> for Outcome {
    ghost from_gives = { λ r o. outcome_in o ≡ refusal (refused_in r) };

    fn from(refused: Refused) -> Outcome {
        Outcome::Refusal {
            number: refused.number(),
            column: refused.column(),
        }
    }
}

impl Refused {
    // The number under which it is listed.
    pub fn number(self) -> u16
        ensures is_its_number { result ≡ (refused_in self).number }
    {
        match self {
            Refused::LongText => 10,
            Refused::NoSetting => 17,
            Refused::Line(fault) => fault.number(),
            Refused::Setting(refusal) => refusal.number(),
        }
    }

    // Its column from 1, or 0 where it has none, as it is listed.
    pub fn column(self) -> usize
        ensures is_its_column { result ≡ (refused_in self).column }
    {
        match self {
            Refused::Line(fault) => fault.column(),
            Refused::LongText | Refused::NoSetting | Refused::Setting(_) => 0,
        }
    }
}

impl fmt::Display for Refused {
    ghost output = { λ r. Some (placed (refused_in r)) };

    fn fmt<W: fmt::Write>(&self, f: &mut fmt::Formatter<W>) -> fmt::Result {
        write!(f, "{} {}", self.number(), self.column())
    }
}

impl Quantities {
    // The values that there are.
    pub fn as_slice(&self) -> &[u16]
        ensures has_as_many_as_there_are { result.now ≡ quantities_in self.now }
    {
        let count = (self.count as usize).min(MAX_QUANTITIES);
        &self.values[..count]
    }
}

// Numbers, each after a space.
impl fmt::Display for Quantities {
    ghost output = { λ q. Some (fields (quantities_in q)) };

    fn fmt<W: fmt::Write>(&self, f: &mut fmt::Formatter<W>) -> fmt::Result {
        for value in self.as_slice() {
            write!(f, " {value}")?;
        }
        Ok(())
    }
}

impl fmt::Display for Outcome {
    ghost output = { λ o. Some (said (outcome_in o)) };

    fn fmt<W: fmt::Write>(&self, f: &mut fmt::Formatter<W>) -> fmt::Result {
        match self {
            Outcome::Contradiction => write!(f, "none"),
            Outcome::Unique { world, quantities } => write!(f, "unique {world}{quantities}"),
            Outcome::Rivals {
                count,
                lowest,
                second,
            } => write!(f, "rivals {count} {lowest} {second}"),
            Outcome::Refusal { number, column } => write!(f, "refused {number} {column}"),
        }
    }
}

impl fmt::Display for Entry {
    ghost output = { λ e. Some (numbered (entry_in e)) };

    fn fmt<W: fmt::Write>(&self, f: &mut fmt::Formatter<W>) -> fmt::Result {
        let Entry { number, outcome } = self;
        write!(f, "{number} {outcome}")
    }
}

impl fmt::Display for Header {
    ghost output = { λ h. Some (headed h) };

    fn fmt<W: fmt::Write>(&self, f: &mut fmt::Formatter<W>) -> fmt::Result {
        let Header {
            worlds,
            agents,
            facts,
            quantities,
        } = *self;
        write!(
            f,
            "worlds {worlds} agents {agents} facts {facts} quantities {quantities}"
        )
    }
}
