//! What one parser answers of one value after the other.
use wasm_wave::lex::{Lexer, Token};
use wasm_wave::parser::{MAX_LEVELS, Parser, ParserError};
use wasm_wave::value::{Type, Value};
use wave_test_values::answer::{Stopped, refused, shown, valued, word};
use wave_test_values::types::type_of;

/// Prints what a parser of the first word answers to the others, in a line each; to `limit N` nothing, but it reads
/// on by that limit. It may begin behind the first token, a number.
pub fn in_turn(rt: HostRuntime, name: &str, words: &[String]) -> Result<(), Stopped> {
    let mut lexer = Lexer::new(word(words, 0));
    let mut parser = match name {
        "Parser::new" => Parser::new(word(words, 0)),
        _ if lexer.next() == Some(Ok(Token::Number)) => Parser::with_lexer(lexer),
        _ => return Err(Stopped::NoCall),
    };
    for at in 1..words.len() {
        let asked = word(words, at);
        match asked.strip_prefix("limit ") {
            Some(limit) => match limit.parse::<u32>() {
                Ok(limit) if 1 <= limit && limit <= MAX_LEVELS => {
                    parser = parser.with_limit(limit);
                }
                _ => return Err(Stopped::NoCall),
            },
            None => {
                next(rt, &mut parser, asked)?;
                println!(rt; "")?;
            }
        }
    }
    Ok(())
}

/// Prints what the parser answers to `finish`, `limit`, `value` or a type.
fn next(rt: HostRuntime, parser: &mut Parser<'_>, asked: &str) -> Result<(), Stopped> {
    match asked {
        "finish" => match parser.finish() {
            Ok(()) => Ok(print!(rt; "done")?),
            Err(error) => Ok(print!(rt; "{error}")?),
        },
        "limit" => Ok(print!(rt; "{}", parser.limit())?),
        "value" => read(rt, None, parser),
        _ => {
            let ty = type_of(rt.alloc(), asked)?;
            read(rt, Some(&ty), parser)
        }
    }
}

/// Prints what the parser reads next, asked again where it is out of memory.
fn read(rt: HostRuntime, ty: Option<&Type>, parser: &mut Parser<'_>) -> Result<(), Stopped> {
    match read_once(rt, ty, parser) {
        Err(Stopped::OutOfMemory) => read_once(rt, ty, parser),
        answer => answer,
    }
}

/// Prints what the parser reads next, at the type or without one. Where there is no memory to print a value
/// that was read, no call is judged.
fn read_once(rt: HostRuntime, ty: Option<&Type>, parser: &mut Parser<'_>) -> Result<(), Stopped> {
    let Some(ty) = ty else {
        return shown(rt, parser.parse_raw_value(rt.alloc()));
    };
    match parser.parse_value::<Value>(rt.alloc(), ty) {
        Ok(val) => match valued::<ParserError>(rt, Ok(val)) {
            Ok(()) => Ok(()),
            Err(_) => Err(Stopped::NotCalled),
        },
        Err(error) => refused(rt, &error),
    }
}
