// What can be wrong with a formula, and with any part of a line past its first word.
ghost use Rattle.std.specs.Prelude.{◌≡◌};
ghost use Rattle.formulas.specs.Faults.{of_formula};
ghost use Rattle.formulas.specs.declared.faults.FormulaFault.TheVariants.{Token};

use lexer::tokens::TokenFault;

// It holds the fault of a token whole.
#[derive(Clone, Copy, Debug, PartialEq, Eq)]
pub enum FormulaFault {
    Token(TokenFault),
    // A token out of place, by its column; one after the end where the line ends too soon.
    Place(usize),
    // A level too many, by the column of the token that opens it.
    Level(usize),
}

// By hand: clauses name the fault that `?` makes, and a derived `From` has no clause.
impl From<TokenFault> for FormulaFault {
    ghost from_gives = { λ x y. y ≡ Token x };

    fn from(value: TokenFault) -> FormulaFault {
        FormulaFault::Token(value)
    }
}

impl FormulaFault {
    pub fn number(self) -> u16
        ensures is_its_number { result ≡ (of_formula self).number }
    {
        match self {
            FormulaFault::Token(fault) => fault.number(),
            FormulaFault::Place(_) => 14,
            FormulaFault::Level(_) => 15,
        }
    }

    pub fn column(self) -> usize
        ensures is_its_column { result ≡ (of_formula self).column }
    {
        match self {
            FormulaFault::Token(fault) => fault.column(),
            FormulaFault::Place(column) | FormulaFault::Level(column) => column,
        }
    }
}
