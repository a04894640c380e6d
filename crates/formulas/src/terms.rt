// The readers of formulas, which call one another. Each opens no more levels than it is given, and appends the nodes of what it reads.
ghost use Rattle.std.specs.Prelude.{◌≡◌, ◌+◌, MatchResult};
ghost use Rattle.lexer.specs.declared.tokens.Sign.TheVariants.{Not, Open, Knows, Value};
ghost use Rattle.lexer.specs.Tokens.{sign};
ghost use Rattle.formulas.specs.Readers.{keyword, disjunction, conjunction, term, term_in, word_in, inner};
ghost use Rattle.formulas.specs.Parsers.{Parsed};

use crate::faults::FormulaFault;
use crate::nodes::NodeList;
use crate::parts::{expect_sign, number, perhaps_sign};
use crate::words::{Keyword, keyword_of};
use lexer::cursor::Cursor;
use lexer::tokens::{Sign, Token};
use theory::node::Shape;

// One level down, if there is one; else the token at the column opens a level too many. Levels and column stay two numbers: the fault
// is at the token that opens the level, which is another at each call.
fn deeper(levels: u8, column: usize) -> Result<u8, FormulaFault>
    ensures { MatchResult result (λ n. levels ≡ n + 1) (λ e. (levels ≡ 0) × (e ≡ FormulaFault.Level column)) }
{
    levels.checked_sub(1).ok_or(FormulaFault::Level(column))
}

// Where a formula is read, and the list that its nodes are appended to.
#[derive(Drop)]
pub(crate) struct Parser<'r, 'a> {
    pub(crate) cursor: &'r mut Cursor<'a>,
    pub(crate) nodes: &'r mut NodeList,
}

impl<'r, 'a> Parser<'r, 'a> {
    // Conjunctions joined by `|`. One function for both kinds of operands was tried: it gets no proof, since its bound names both lifetimes.
    #[cycle(sentence)]
    pub(crate) fn disjunction(&mut self, levels: u8) -> Result<(), FormulaFault>
        ensures { Parsed (disjunction levels) self.old self.new result }
    {
        self.conjunction(levels)?;
        while let Some(_column) = perhaps_sign(self.cursor, Sign::Or)? {
            let a = self.nodes.last();
            self.conjunction(levels)?;
            self.nodes.put_or(a);
        }
        Ok(())
    }

    // Terms joined by `&`.
    #[cycle(sentence)]
    fn conjunction(&mut self, levels: u8) -> Result<(), FormulaFault>
        ensures { Parsed (conjunction levels) self.old self.new result }
    {
        self.term(levels)?;
        while let Some(_column) = perhaps_sign(self.cursor, Sign::And)? {
            let a = self.nodes.last();
            self.term(levels)?;
            let b = self.nodes.last();
            self.nodes.put(Shape::Both(a, b));
        }
        Ok(())
    }

    #[cycle(sentence)]
    #[tactic(auto, using(crate::proofs::Steps::term_is))]
    fn term(&mut self, levels: u8) -> Result<(), FormulaFault>
        ensures { Parsed (term levels) self.old self.new result }
    {
        let x = self.cursor.next_token()?;
        match x.token {
            Token::Sign(sign) => match sign {
                Sign::Not => self.negation(x.column, levels),
                Sign::Knows => self.knowledge(x.column, levels),
                Sign::Value => self.value(x.column, levels),
                Sign::Open => self.group(x.column, levels),
                Sign::And
                | Sign::Or
                | Sign::Close
                | Sign::Dot
                | Sign::Slash
                | Sign::Equals
                | Sign::Minus => Err(FormulaFault::Place(x.column)),
            },
            Token::Word(w) => self.word(x.column, w),
            Token::Number { .. } | Token::End => Err(FormulaFault::Place(x.column)),
        }
    }

    // What follows `~`, which stands at the column.
    #[cycle(sentence)]
    fn negation(&mut self, column: usize, levels: u8) -> Result<(), FormulaFault>
        ensures { Parsed (term_in (inner levels) column (sign Not)) self.old self.new result }
    {
        self.term(deeper(levels, column)?)?;
        let a = self.nodes.last();
        self.nodes.put(Shape::Not(a));
        Ok(())
    }

    // What follows `K`.
    #[cycle(sentence)]
    fn knowledge(&mut self, column: usize, levels: u8) -> Result<(), FormulaFault>
        ensures { Parsed (term_in (inner levels) column (sign Knows)) self.old self.new result }
    {
        let inner = deeper(levels, column)?;
        let agent = number(self.cursor)?;
        self.term(inner)?;
        let b = self.nodes.last();
        self.nodes.put(Shape::Knows(agent, b));
        Ok(())
    }

    // What follows `(`.
    #[cycle(sentence)]
    fn group(&mut self, column: usize, levels: u8) -> Result<(), FormulaFault>
        ensures { Parsed (term_in (inner levels) column (sign Open)) self.old self.new result }
    {
        self.disjunction(deeper(levels, column)?)?;
        expect_sign(self.cursor, Sign::Close)
    }

    // What follows `V`.
    #[cycle(sentence)]
    fn value(&mut self, column: usize, levels: u8) -> Result<(), FormulaFault>
        ensures { Parsed (term_in (inner levels) column (sign Value)) self.old self.new result }
    {
        let agent = number(self.cursor)?;
        expect_sign(self.cursor, Sign::Dot)?;
        let quantity = number(self.cursor)?;
        match perhaps_sign(self.cursor, Sign::Slash)? {
            None => self.nodes.put(Shape::Top),
            Some(slash) => self.term(deeper(levels, slash)?)?,
        }
        self.nodes.put_value(agent, quantity);
        Ok(())
    }

    // What follows a word, which stands at the column.
    fn word(&mut self, column: usize, text: &[u8]) -> Result<(), FormulaFault>
        ensures { Parsed (word_in column (keyword text.now)) self.old self.new result }
    {
        match keyword_of(text) {
            Some(Keyword::True) => {
                self.nodes.put(Shape::Top);
                Ok(())
            }
            Some(Keyword::Fact) => {
                let fact = number(self.cursor)?;
                self.nodes.put(Shape::Fact(fact));
                Ok(())
            }
            Some(Keyword::Quantity) => {
                let quantity = number(self.cursor)?;
                expect_sign(self.cursor, Sign::Equals)?;
                let amount = number(self.cursor)?;
                self.nodes.put(Shape::Equals(quantity, amount));
                Ok(())
            }
            None => Err(FormulaFault::Place(column)),
        }
    }
}
