// What can be wrong with a whole line. It holds the fault of a formula whole, and that holds the token's.
ghost use Rattle.std.specs.Prelude.{◌≡◌};
ghost use Rattle.formulas.specs.declared.faults.FormulaFault.TheVariants.{Token};
ghost use Rattle.lines.specs.Faults.{of_line};
ghost use Rattle.lines.specs.declared.faults.LineFault.TheVariants.{Formula};

use formulas::faults::FormulaFault;
use lexer::tokens::TokenFault;

#[derive(Clone, Copy, Debug, PartialEq, Eq)]
pub enum LineFault {
    // More than 200 bytes.
    Long,
    Formula(FormulaFault),
    // The node list is full.
    Full,
    // A first token that is no known word of the kind that is due, by its column.
    Word(usize),
}

// Both by hand: clauses name the fault that `?` makes, and a derived `From` has no clause.
impl From<FormulaFault> for LineFault {
    ghost from_gives = { λ x y. y ≡ Formula x };

    fn from(value: FormulaFault) -> LineFault {
        LineFault::Formula(value)
    }
}

impl From<TokenFault> for LineFault {
    ghost from_gives = { λ x y. y ≡ Formula (Token x) };

    fn from(value: TokenFault) -> LineFault {
        LineFault::Formula(FormulaFault::Token(value))
    }
}

impl LineFault {
    pub fn number(self) -> u16
        ensures is_its_number { result ≡ (of_line self).number }
    {
        match self {
            LineFault::Long => 11,
            LineFault::Formula(fault) => fault.number(),
            LineFault::Full => 16,
            LineFault::Word(_) => 17,
        }
    }

    // 0 where there is none, as it is listed.
    pub fn column(self) -> usize
        ensures is_its_column { result ≡ (of_line self).column }
    {
        match self {
            LineFault::Long | LineFault::Full => 0,
            LineFault::Formula(fault) => fault.column(),
            LineFault::Word(column) => column,
        }
    }
}
