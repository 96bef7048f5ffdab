//! Calls on texts: lexers, keywords, and the parts of strings.
use crate::answer::{Stopped, refused};
use std::ops::Range;
use wave_lex::asked::Asked;
use wave_lex::error::ParserError;
use wave_lex::lex::{FuncNameLexer, Lexer, Token};
use wave_lex::strings::{StringPart, StringPartsIter, unescape};
use wave_wasm::keyword::Keyword;

/// Makes the call of this name on the text, and prints what it finds, or `none`.
pub fn call(rt: HostRuntime, name: &str, text: &str) -> Result<(), Stopped> {
    match name {
        "Lexer" => tokens(rt, Lexer::new(text)),
        "FuncNameLexer" => name_first(rt, text),
        "calls of a lexer" => calls(rt, text),
        "calls of a name's lexer" => name_calls(rt, text),
        "Keyword::decode" => match Keyword::decode(text) {
            Some(keyword) => Ok(print!(rt; "{keyword}")?),
            None => Ok(print!(rt; "none")?),
        },
        "unescape" => match unescape(text) {
            Some((c, length)) => Ok(print!(rt; "{c} {length}")?),
            None => Ok(print!(rt; "none")?),
        },
        _ => strings(rt, name, text),
    }
}

/// Prints a token, or `refused`.
fn item(rt: HostRuntime, item: Result<Token, Range<usize>>) -> Result<(), Stopped> {
    match item {
        Ok(token) => print!(rt; "{token}")?,
        Err(_) => print!(rt; "refused")?,
    }
    Ok(())
}

/// Prints the tokens that the lexer gives from where it stands with their spans, and the span after the last.
fn tokens(rt: HostRuntime, lexer: Lexer<'_>) -> Result<(), Stopped> {
    let mut lexer = lexer;
    while let Some(found) = lexer.next() {
        item(rt, found)?;
        let span = lexer.span();
        print!(rt; " {}..{}, ", span.start, span.end)?;
    }
    let span = lexer.span();
    print!(rt; "{}..{}", span.start, span.end)?;
    Ok(())
}

/// Prints the span and the slice of a lexer, what remains, and the source, in a line.
fn reported(rt: HostRuntime, lexer: &Lexer<'_>) -> Result<(), Stopped> {
    let span = lexer.span();
    let (slice, rest, source) = (lexer.slice(), lexer.remainder(), lexer.source());
    println!(rt;
        "{}..{} <{slice}> <{rest}> of <{source}>",
        span.start, span.end
    )?;
    Ok(())
}

/// Prints what a lexer answers before and behind its first token, what a copy gives that is counted, that
/// the lexer itself stands where it stood, and what it gives in a loop.
fn calls(rt: HostRuntime, text: &str) -> Result<(), Stopped> {
    let mut asked = Asked::new();
    let mut lexer = Lexer::new(text);
    reported(rt, &lexer)?;
    if let Some(first) = lexer.next() {
        item(rt, first)?;
    }
    print!(rt; " ")?;
    reported(rt, &lexer)?;
    let mut copy = lexer.clone();
    if let Some(second) = copy.next_ticked(&mut asked) {
        item(rt, second)?;
    }
    print!(rt; " {} ", copy.next_ticked(&mut asked).is_none())?;
    reported(rt, &copy)?;
    reported(rt, &lexer)?;
    for found in lexer {
        item(rt, found)?;
        print!(rt; ";")?;
    }
    Ok(())
}

/// Prints the first item of a lexer of a name with its span, and the tokens behind it.
fn name_first(rt: HostRuntime, text: &str) -> Result<(), Stopped> {
    let mut names = FuncNameLexer::new(text);
    match names.next() {
        Some(Ok(token)) => print!(rt; "{token}")?,
        Some(Err(_)) => print!(rt; "refused")?,
        None => print!(rt; "none")?,
    }
    let span = names.span();
    print!(rt; " {}..{}, ", span.start, span.end)?;
    tokens(rt, names.into_lexer())
}

/// Prints what a lexer of a name answers behind its first item, the items of a copy in a loop, and where
/// the lexer of tokens stands that it becomes.
fn name_calls(rt: HostRuntime, text: &str) -> Result<(), Stopped> {
    let mut names = FuncNameLexer::new(text);
    let start = names.span();
    let _ = names.next();
    let span = names.span();
    let (slice, rest, length) = (names.slice(), names.remainder(), names.source().len());
    print!(rt; "{}..{} ", start.start, start.end)?;
    println!(rt;
        "{}..{} <{slice}> <{rest}> of {length}",
        span.start, span.end
    )?;
    for found in names.clone() {
        match found {
            Ok(token) => print!(rt; "{token};")?,
            Err(span) => print!(rt; "refused {}..{};", span.start, span.end)?,
        }
    }
    let span = names.into_lexer().span();
    print!(rt; "{}..{}", span.start, span.end)?;
    Ok(())
}

/// Prints the parts of a text between quotes, or between triple quotes, also as the parts of its lines.
fn strings(rt: HostRuntime, name: &str, text: &str) -> Result<(), Stopped> {
    if text.len() > 1_000_000 {
        return Err(Stopped::NoCall);
    }
    match name {
        "StringPartsIter::new" => parts(rt, StringPartsIter::new(text, 1)),
        "StringPartsIter::new_multiline" => match StringPartsIter::new_multiline(text, 3) {
            Ok(found) => parts(rt, found),
            Err(error) => refused(rt, &error),
        },
        "StringPartsIter::Multiline" => match StringPartsIter::new_multiline(text, 3) {
            Ok(found) => lines(rt, found),
            Err(error) => refused(rt, &error),
        },
        _ => Err(Stopped::NoCall),
    }
}

/// Prints the parts, each with a semicolon behind.
pub fn parts(rt: HostRuntime, parts: StringPartsIter<'_>) -> Result<(), Stopped> {
    for found in parts {
        part(rt, found)?;
    }
    Ok(())
}

/// Prints the parts of lines so.
fn lines(rt: HostRuntime, parts: StringPartsIter<'_>) -> Result<(), Stopped> {
    if let StringPartsIter::Multiline(lines) = parts {
        for found in lines {
            part(rt, found)?;
        }
    }
    Ok(())
}

/// Prints a part of a string.
fn part(rt: HostRuntime, part: Result<StringPart<'_>, ParserError>) -> Result<(), Stopped> {
    match part {
        Ok(StringPart::Run(run)) => print!(rt; "run {run};")?,
        Ok(StringPart::Char(c)) => print!(rt; "char {c};")?,
        Err(error) => print!(rt; "{error};")?,
    }
    Ok(())
}
