//! What a text takes on one line.
ghost use Rattle.std.specs.Prelude.{◌≡◌, ◌||◌, false, true};
ghost use Rattle.wave_format.specs.Private.Brackets.{is_close};
ghost use Rattle.wave_format.specs.Private.Sheets.{is_stop, is_open_end, opens};

use std::alloc::{AllocError, Global};
use wave_lex::lex::{Lexer, Token};

/// What stands before a token of a text, if all of the text stood on one line.
#[derive(Clone, Copy)]
pub struct Measure {
    /// The class of the token.
    pub class: Token,
    /// How many scalars.
    pub column: usize,
    /// How many runs of whitespace with comments, among them the one right before it.
    pub comments: usize,
    /// How many tokens that have a line feed.
    pub tall: usize,
    /// Of an opening bracket, the number of the token that closes it.
    pub close: usize,
}

/// Whether a token of the class opens a bracket.
pub fn is_open(class: Token) -> bool
    ensures { result ≡ opens class }
{
    matches!(
        class,
        Token::BraceOpen | Token::ParenOpen | Token::BracketOpen
    )
}

/// Whether a token of the class closes a bracket.
pub fn is_close(class: Token) -> bool
    ensures { result ≡ is_close class }
{
    matches!(
        class,
        Token::BraceClose | Token::ParenClose | Token::BracketClose
    )
}

/// Whether on one line a blank stands before a token of the class, behind one of the class `last`.
pub fn is_spaced(last: Option<Token>, class: Token) -> bool
    ensures { result ≡ false → (is_stop class || is_open_end last) ≡ true }
{
    let Some(last) = last else {
        return false;
    };
    match class {
        Token::Comma | Token::Colon => false,
        Token::ParenOpen => !is_open(last) && last != Token::LabelOrKeyword,
        _ => !is_open(last) && !is_close(class),
    }
}

/// The measures of the tokens that the lexer gives, up to the end or what is no token.
pub fn measures(alloc: Global, lexer: Lexer) -> Result<Vec<Measure>, AllocError> {
    let mut tokens = lexer;
    let mut measures: Vec<Measure> = Vec::new(alloc);
    let mut open: Vec<usize> = Vec::new(alloc);
    let mut before = Measure {
        class: Token::Comma,
        column: 0,
        comments: 0,
        tall: 0,
        close: 0,
    };
    let mut last = None;
    let mut end = tokens.span().end;
    while let Some(Ok(class)) = tokens.next() {
        let span = tokens.span();
        let gap = tokens.source().get(end..span.start).unwrap_or("");
        let here = before.at(last, class, gap);
        measures.push(here)?;
        match_bracket(&mut measures, &mut open, class)?;
        before = here.behind(tokens.slice());
        last = Some(class);
        end = span.end;
    }
    Ok(measures)
}

/// Where the last token opens a bracket, notes that it is open; where it closes one, notes that there.
fn match_bracket(
    measures: &mut Vec<Measure>,
    open: &mut Vec<usize>,
    class: Token,
) -> Result<(), AllocError> {
    let number = measures.len().saturating_sub(1);
    if is_open(class) {
        open.push(number)?;
    }
    if is_close(class) {
        if let Some(first) = open.pop() {
            if let Some(measure) = measures.get_mut(first) {
                measure.close = number;
            }
        }
    }
    Ok(())
}

impl Measure {
    /// The measure of a token of the class behind this whitespace, where this one is that of the place
    /// behind the token of the class `last`. A comma before a closing bracket isn't counted.
    fn at(self, last: Option<Token>, class: Token, gap: &str) -> Measure {
        let mut column = self.column;
        if is_spaced(last, class) {
            column = column.saturating_add(1);
        }
        if is_close(class) && last == Some(Token::Comma) {
            column = column.saturating_sub(1);
        }
        let mut comments = self.comments;
        if gap.contains("//") {
            comments = comments.saturating_add(1);
        }
        Measure {
            class,
            column,
            comments,
            tall: self.tall,
            close: 0,
        }
    }

    /// The measure of the place behind the token of this text.
    fn behind(self, text: &str) -> Measure {
        let mut tall = self.tall;
        if text.contains('\n') {
            tall = tall.saturating_add(1);
        }
        Measure {
            column: self.column.saturating_add(text.chars().count()),
            tall,
            ..self
        }
    }
}
