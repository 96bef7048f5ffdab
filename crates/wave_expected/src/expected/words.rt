//! What may stand at a place of a text, in words for people.
ghost use Rattle.std.specs.Prelude.{◌≡◌, ◌++◌, [], ◌∷◌, IfOk, if◌then◌else◌, codes, string_bytes};
ghost use Rattle.wave_wasm.specs.Borrowed.{texts};
ghost use Rattle.wave_expected.specs.Expected.{class_word, words_among, starts_reported, or_joined, expected_words};

use crate::expected::Expected;
use std::alloc::{AllocError, Global};
use wave_lex::lex::Token;

/// What is reported where a value may stand, of which the first token isn't reported.
static VALUE: [Token; 1] = [Token::BracketOpen];

/// What is reported of a label, of the other keys by one of them, and of a payload, where no value may stand.
static LABEL_AND_KEYS: [Token; 3] = [Token::LabelOrKeyword, Token::Number, Token::ParenOpen];

/// The marks that begin no value.
static MARKS: [Token; 5] = [
    Token::Colon,
    Token::Comma,
    Token::ParenClose,
    Token::BracketClose,
    Token::BraceClose,
];

impl Expected {
    /// What may stand there, for people: `',' or '}'`; `a value or ']'`, where a value may, of which
    /// the first token isn't reported; `a label, another key or '}'`, where a key may; `the end`, where the
    /// text may end; `nothing`, where the tokens before begin no value.
    pub fn words(&self, alloc: Global) -> Result<String, AllocError>
        ensures { IfOk result (λ text. string_bytes text ≡ expected_words self.now.classes.items self.now.may_end) }
    {
        let mut words = Vec::new(alloc);
        self.add_words(&mut words, self.starts_reported())?;
        self.add_words(&mut words, &MARKS)?;
        self.add_end(&mut words)?;
        or_joined(alloc, words.as_slice())
    }

    /// What is reported of the tokens that begin a value or a key.
    fn starts_reported(&self) -> &'static [Token]
        ensures { result.now ≡ starts_reported self.now.classes.items }
    {
        if self.contains(Token::BracketOpen) {
            return &VALUE;
        }
        &LABEL_AND_KEYS
    }

    /// Adds that the text may end there.
    fn add_end(&self, words: &mut Vec<&'static str>) -> Result<(), AllocError>
        ensures { IfOk result (λ _. texts words.new.items ≡ texts words.old.items ++ (if self.now.may_end then codes "the end" ∷ [] else [])) }
    {
        if self.may_end {
            words.push("the end")?;
        }
        Ok(())
    }

    /// Adds the words of those of the classes that may stand there.
    fn add_words(&self, words: &mut Vec<&'static str>, reported: &[Token]) -> Result<(), AllocError>
        ensures { IfOk result (λ _. texts words.new.items ≡ texts words.old.items ++ words_among self.now.classes.items reported.now) }
    {
        for class in reported {
            if self.contains(*class) {
                words.push(class_word(*class))?;
            }
        }
        Ok(())
    }
}

/// How a class is named to people; a value by its `[`.
fn class_word(class: Token) -> &'static str
    ensures { result.now ≡ class_word class }
{
    match class {
        Token::BracketOpen => "a value",
        Token::LabelOrKeyword => "a label",
        Token::Number => "another key",
        Token::ParenOpen => "'('",
        Token::Colon => "':'",
        Token::Comma => "','",
        Token::ParenClose => "')'",
        Token::BracketClose => "']'",
        Token::BraceClose => "'}'",
        _ => "",
    }
}

/// The words, with `or` before the last and a comma before each other one; `nothing` for none.
fn or_joined(alloc: Global, words: &[&str]) -> Result<String, AllocError>
    ensures { IfOk result (λ text. string_bytes text ≡ or_joined (texts words.now)) }
{
    let mut text = String::new(alloc);
    if words.is_empty() {
        text.push_str("nothing")?;
        return Ok(text);
    }
    text.push_str(words[0])?;
    for index in 1..words.len() {
        let separator = if index + 1 == words.len() {
            " or "
        } else {
            ", "
        };
        text.push_str(separator)?;
        text.push_str(words[index])?;
    }
    Ok(text)
}
