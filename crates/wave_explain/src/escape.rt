//! The escape that there isn't, in what is meant for a string or a char.
ghost use Rattle.std.specs.Prelude.{ℕ, ◌≡◌, ◌⊎◌, List, ◌∷◌, ◌++◌, None, drop, take, encode_utf8, IfSome};
ghost use Rattle.wave_lex.specs.Tokens.{backslash, single_quote, double_quote};
ghost use Rattle.wave_lex.specs.Strings.{UnescapesTo};
ghost use Rattle.wave_explain.specs.EscapeMarks.{IsRun, IsEscapeMark, IsSyntaxMark};

use wave_hints::word::wrong_word;
use wave_lex::error::{ParserError, ParserErrorKind};
use wave_lex::lex::Span;
use wave_lex::strings::unescape;

/// What is marked of a refusal of syntax: its span; or, where no token begins at a quote, the first escape
/// after it that there isn't; or the whole word that holds the span, where that is wrong.
pub(crate) fn syntax_mark(error: &ParserError, source: &str) -> Span
    ensures { IsSyntaxMark source.now error.now result }
{
    let span = error.span();
    if error.kind() == ParserErrorKind::InvalidToken {
        if let Some(mark) = unknown_escape(source, span.start) {
            return mark;
        }
    }
    match wrong_word(source, &span) {
        Some(mark) => mark,
        None => span,
    }
}

/// Where the first escape stands that there isn't, in the string or the char that begins at the place:
/// its `\` and the scalar behind it, which is on the same line.
#[tactic(auto, using(crate::proofs::Escapes::marked))]
pub(crate) fn unknown_escape(source: &str, place: usize) -> Option<Span>
    ensures { IfSome result (IsEscapeMark source.now place) }
{
    let (quote, text) = behind_quote(source, place)?;
    let at = fault_at(text, quote)?;
    let scalar = scalar_at(text, at.checked_add(1)?)?;
    let start = place.checked_add(1)?.checked_add(at)?;
    let end = start.checked_add(1)?.checked_add(scalar.len_utf8())?;
    if scalar == '\n' {
        None
    } else {
        Some(start..end)
    }
}

/// The quote at the place, and what stands behind it.
fn behind_quote(source: &str, place: usize) -> Option<(u8, &str)>
    ensures quote { IfSome result (λ q. (q.0 ≡ double_quote) ⊎ (q.0 ≡ single_quote)) }
    ensures stands { IfSome result (λ q. drop place source.now ≡ q.0 ∷ q.1.now) }
{
    let from = source.split_at_checked(place)?.1;
    let quote = *from.as_bytes().first()?;
    let text = from.split_at_checked(1)?.1;
    if quote == b'"' || quote == b'\'' {
        Some((quote, text))
    } else {
        None
    }
}

/// The scalar at the place of the text.
fn scalar_at(text: &str, at: usize) -> Option<char>
    ensures { IfSome result (λ c. (rest : List ℕ) × (drop at text.now ≡ encode_utf8 c ++ rest)) }
{
    text.split_at_checked(at)?.1.chars().next()
}

/// Where in the text behind an opening quote the first `\` stands that begins no escape.
#[tactic(auto, using(crate::proofs::Escapes::run_start, crate::proofs::Escapes::first_byte))]
pub(crate) fn fault_at(text: &str, quote: u8) -> Option<usize>
    ensures run { IfSome result (λ at. IsRun quote (take at text.now)) }
    ensures escape { IfSome result (λ at. UnescapesTo (drop at text.now) None) }
    ensures backslash { IfSome result (λ at. (more : List ℕ) × (drop at text.now ≡ backslash ∷ more)) }
{
    let mut at = 0;
    'pieces: while at < text.len() {
        let byte = *text.as_bytes().get(at)?;
        if byte == b'\\' {
            let rest = text.split_at_checked(at)?.1;
            match unescape(rest) {
                Some((_, count)) => at += count,
                None => return Some(at),
            }
        } else if byte == quote {
            return None;
        } else if byte == b'\n' {
            return None;
        } else {
            at += 1;
        }
    }
    None
}
