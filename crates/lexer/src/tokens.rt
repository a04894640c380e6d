// The tokens of a line. A token borrows its bytes.
ghost use Rattle.std.specs.Prelude.{◌≡◌, ◌≤◌, length, drop, MatchOption, MatchResult};
ghost use Rattle.lexer.specs.declared.tokens.Class.TheVariants.{Space};
ghost use Rattle.std.specs.List.{prefix_len};
ghost use Rattle.lexer.specs.Bytes.{belongs, sign_of, value_of, small};
ghost use Rattle.lexer.specs.Tokens.{number, bad, numeral, scan};
ghost use Rattle.lexer.specs.Faults.{of_token};
ghost use Rattle.lexer.specs.Steps.{size_of, First, Stops};
ghost use Rattle.lexer.specs.Tiles.{TokensTile};

// The most bytes that a line may have.
pub const MAX_LINE: usize = 200;
// The most digits that a number may have.
pub const MAX_DIGITS: usize = 5;

// A token of one byte that is no digit and no small letter.
#[derive(Clone, Copy, Debug, PartialEq, Eq)]
pub enum Sign {
    Not,
    And,
    Or,
    Open,
    Close,
    Dot,
    Slash,
    Equals,
    Minus,
    Knows,
    Value,
}

// A part of a line, or the line's end. A number has its digits beside it.
#[derive(Clone, Copy, Debug, PartialEq, Eq)]
pub enum Token<'a> {
    Number { digits: &'a [u8], value: u16 },
    Word(&'a [u8]),
    Sign(Sign),
    End,
}

// A token with its column, from 1.
#[derive(Clone, Copy, Debug, PartialEq, Eq)]
pub struct Lexeme<'a> {
    pub token: Token<'a>,
    pub column: usize,
}

// What is wrong with the bytes of a line, with its column.
#[derive(Clone, Copy, Debug, PartialEq, Eq)]
pub enum TokenFault {
    // A byte that starts no token.
    Byte(usize),
    // A number of more than five digits, or above 65,535.
    Number(usize),
}

// What a run of bytes is made of: a value and no closure, since the definitions of tokens speak of classes.
#[derive(Clone, Copy, Debug, PartialEq, Eq)]
pub enum Class {
    Space,
    Digit,
    Letter,
}

// Whether the byte is of the class.
fn is(class: Class, byte: u8) -> bool
    ensures { result ≡ belongs class byte }
{
    match class {
        Class::Space => byte == b' ',
        Class::Digit => byte.is_ascii_digit(),
        Class::Letter => byte.is_ascii_lowercase(),
    }
}

// How many bytes at the front are of the class.
pub(crate) fn run(bytes: &[u8], class: Class) -> usize
    ensures is_the_run { result ≡ prefix_len (belongs class) bytes.now }
    ensures within { result ≤ length bytes.now }
{
    bytes.iter().take_while(|b| is(class, **b)).count()
}

// The bytes after the first n.
pub(crate) fn after(bytes: &[u8], n: usize) -> &[u8]
    requires { n ≤ length bytes.now }
    ensures { result.now ≡ drop n bytes.now }
{
    &bytes[n..]
}

// The sign that the byte is, if it is one.
fn sign_of(byte: u8) -> Option<Sign>
    ensures { result ≡ sign_of byte }
{
    match byte {
        b'~' => Some(Sign::Not),
        b'&' => Some(Sign::And),
        b'|' => Some(Sign::Or),
        b'(' => Some(Sign::Open),
        b')' => Some(Sign::Close),
        b'.' => Some(Sign::Dot),
        b'/' => Some(Sign::Slash),
        b'=' => Some(Sign::Equals),
        b'-' => Some(Sign::Minus),
        b'K' => Some(Sign::Knows),
        b'V' => Some(Sign::Value),
        _ => None,
    }
}

// The number that digits write, unless it is above 65,535.
pub fn value_of(digits: &[u8]) -> Option<u16>
    ensures is_the_number_written { result ≡ small (value_of digits.now) }
{
    digits.iter().try_fold(0u16, |value, b| {
        value
            .checked_mul(10)?
            .checked_add(u16::from(b.saturating_sub(b'0')))
    })
}

// The number of at most five digits.
fn number_of(digits: &[u8]) -> Option<u16>
    ensures { MatchOption result (numeral digits.now ≡ bad 13) (λ n. (numeral digits.now ≡ number digits.now) × (n ≡ value_of digits.now)) }
{
    if digits.len() > MAX_DIGITS {
        None
    } else {
        value_of(digits)
    }
}

impl<'a> Token<'a> {
    // How many bytes it has.
    pub(crate) fn size(self) -> usize
        ensures { result ≡ size_of self.entry }
    {
        match self {
            Token::Number { digits, .. } => digits.len(),
            Token::Word(letters) => letters.len(),
            Token::Sign(_) => 1,
            Token::End => 0,
        }
    }
}

// The token at the front of bytes that begin with no space and stand at the column.
#[tactic(auto, using(crate::proofs::Firsts::first_digits, crate::proofs::Firsts::first_letters, crate::proofs::Firsts::first_mark, crate::proofs::Firsts::fits))]
pub(crate) fn first_token(bytes: &[u8], column: usize) -> Result<Token<'_>, TokenFault>
    requires { prefix_len (belongs Space) bytes.now ≡ 0 }
    ensures { MatchResult result (λ t. First bytes.now column t (size_of t)) (λ e. Stops (scan 0 column bytes.now) (of_token e)) }
{
    let Some(first) = bytes.first() else {
        return Ok(Token::End);
    };
    if is(Class::Digit, *first) {
        let digits = &bytes[..run(bytes, Class::Digit)];
        return match number_of(digits) {
            Some(value) => Ok(Token::Number { digits, value }),
            None => Err(TokenFault::Number(column)),
        };
    }
    if is(Class::Letter, *first) {
        return Ok(Token::Word(&bytes[..run(bytes, Class::Letter)]));
    }
    match sign_of(*first) {
        Some(sign) => Ok(Token::Sign(sign)),
        None => Err(TokenFault::Byte(column)),
    }
}

// The tokens of a line without a fault, each at its column with spaces between, are the line.
pub fn tokens_tile_the_line()
    ensures tiles_the_line { TokensTile }
{}
