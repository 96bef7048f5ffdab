//! Brackets that close others whose lines are indented otherwise, as where one is missing or one too many.
use std::alloc::{AllocError, Global};
use wave_lex::lex::{Lexer, Token};
use wave_place::place::place_of;

/// What is said of the first bracket at the beginning of a line that closes one whose line is indented
/// otherwise; nothing where there is none.
pub(crate) fn misindented(alloc: Global, source: &str) -> Result<String, AllocError> {
    let Some((open, close)) = first_misindented(alloc, source)? else {
        return Ok(String::new(alloc));
    };
    let opens = source.get(open..open.saturating_add(1)).unwrap_or("");
    let closes = source.get(close..close.saturating_add(1)).unwrap_or("");
    let (opening, closing) = (place_of(source, open), place_of(source, close));
    format!(in alloc;
        "the {closes} at line {} closes the {opens} at line {}, which is indented otherwise",
        closing.line, opening.line
    )
}

/// The first such bracket: where the one that it closes stands, and where it stands.
fn first_misindented(alloc: Global, source: &str) -> Result<Option<(usize, usize)>, AllocError> {
    let mut open = Vec::new(alloc);
    let mut indent = 0_usize;
    let mut end = 0_usize;
    let mut lexer = Lexer::new(source);
    while let Some(Ok(token)) = lexer.next() {
        let span = lexer.span();
        let gap = source.get(end..span.start).unwrap_or("");
        let begins_line = gap.contains('\n');
        if begins_line {
            indent = gap.len() - gap.trim_end_matches(BLANKS).len();
        }
        match token {
            Token::BraceOpen | Token::ParenOpen | Token::BracketOpen => {
                open.push((span.start, indent))?;
            }
            Token::BraceClose | Token::ParenClose | Token::BracketClose => {
                if let Some((at, its_indent)) = open.pop()
                    && begins_line
                    && its_indent != indent
                {
                    return Ok(Some((at, span.start)));
                }
            }
            _ => {}
        }
        end = span.end;
    }
    Ok(None)
}

/// What indents a line.
const BLANKS: &[char] = &[' ', '\t'];
