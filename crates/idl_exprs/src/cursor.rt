//! A place in the tokens.

ghost use Rattle.std.specs.Prelude.{◌≡◌, option_map};
ghost use Rattle.idl_grammar.specs.Outcome as o;
ghost use Rattle.idl_token.specs.Seen.{symbol};
ghost use Rattle.idl_exprs.specs.Gives.{Reads, ahead};

use crate::stop::Stop;
use idl_token::{Reserved, Seen, Sign};

/// What is left of the tokens.
#[derive(Drop)]
pub struct Cursor<'a> {
    pub rest: &'a [Seen<'a>],
}

impl<'a> Cursor<'a> {
    pub fn peek(&self) -> Option<Seen<'a>>
        ensures { option_map symbol result ≡ o.head (ahead self.now) }
    {
        match self.rest {
            [] => None,
            [first, ..] => Some(*first),
        }
    }

    pub fn skip(&mut self)
        ensures { ahead self.new ≡ o.after (ahead self.old) }
    {
        match self.rest {
            [] => {}
            [_, rest @ ..] => self.rest = rest,
        }
    }

    pub fn sees(&self, sign: Sign) -> bool
        ensures { result ≡ o.sees (o.is_sign sign) (ahead self.now) }
    {
        match self.rest {
            [Seen::Sign(first), ..] => *first == sign,
            _ => false,
        }
    }

    pub fn sees_reserved(&self, word: Reserved) -> bool
        ensures { result ≡ o.sees (o.is_reserved word) (ahead self.now) }
    {
        match self.rest {
            [Seen::Reserved(first), ..] => *first == word,
            _ => false,
        }
    }

    fn sees_word(&self, text: &str) -> bool
        ensures { result ≡ o.sees (o.is_word text.now) (ahead self.now) }
    {
        match self.rest {
            [Seen::Word(first), ..] => *first == text,
            _ => false,
        }
    }
}

/// Takes the sign, or stops.
#[tactic(auto, unfolding(idl_grammar::specs::Outcome::want))]
pub fn expect(tokens: &mut Cursor<'_>, sign: Sign) -> Result<(), Stop>
    ensures { Reads (λ _. tt) (o.expect sign) tokens.old result tokens.new }
{
    if tokens.sees(sign) {
        tokens.skip();
        Ok(())
    } else {
        Err(Stop::Fault)
    }
}

/// Takes the word of the language, or stops.
#[tactic(auto, unfolding(idl_grammar::specs::Outcome::want))]
pub fn expect_reserved(tokens: &mut Cursor<'_>, word: Reserved) -> Result<(), Stop>
    ensures { Reads (λ _. tt) (o.want (o.is_reserved word)) tokens.old result tokens.new }
{
    if tokens.sees_reserved(word) {
        tokens.skip();
        Ok(())
    } else {
        Err(Stop::Fault)
    }
}

/// Takes the word that is this text, or stops.
#[tactic(auto, unfolding(idl_grammar::specs::Outcome::want))]
pub fn expect_word(tokens: &mut Cursor<'_>, text: &str) -> Result<(), Stop>
    ensures { Reads (λ _. tt) (o.want (o.is_word text.now)) tokens.old result tokens.new }
{
    if tokens.sees_word(text) {
        tokens.skip();
        Ok(())
    } else {
        Err(Stop::Fault)
    }
}

/// Takes a word, or stops.
#[tactic(auto, unfolding(idl_grammar::specs::Outcome::name))]
pub fn word<'a>(tokens: &mut Cursor<'a>) -> Result<&'a str, Stop>
    ensures { Reads (λ x. x.now) o.name tokens.old result tokens.new }
{
    match tokens.peek() {
        Some(Seen::Word(text)) => {
            tokens.skip();
            Ok(text)
        }
        _ => Err(Stop::Fault),
    }
}
