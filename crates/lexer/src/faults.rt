// The number and the column of a token's fault.
ghost use Rattle.std.specs.Prelude.{◌≡◌};
ghost use Rattle.lexer.specs.Faults.{of_token};

use crate::tokens::TokenFault;

impl TokenFault {
    pub fn number(self) -> u16
        ensures is_its_number { result ≡ (of_token self).number }
    {
        match self {
            TokenFault::Byte(_) => 12,
            TokenFault::Number(_) => 13,
        }
    }

    pub fn column(self) -> usize
        ensures is_its_column { result ≡ (of_token self).column }
    {
        match self {
            TokenFault::Byte(column) | TokenFault::Number(column) => column,
        }
    }
}
