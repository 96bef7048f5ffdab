//! Types from their texts.
ghost use Rattle.std.specs.Prelude.{◌≡◌, ◌≤◌, ◌-◌, IfOk, IfErr, [], drop, length};
ghost use Rattle.wave_lex.specs.Errors.{LiesInText};
ghost use Rattle.wave_lex.specs.Labels.{HasDistinctLabels};
ghost use Rattle.wave_type.specs.Private.TypeTokens.{IsRefusal, IsRefusalAt, items_of};
ghost use Rattle.wave_type.specs.TypeFaults.{expected_of_type};
ghost use Rattle.wave_type.specs.TypeItems.{AreItems, IsTypeFault, IsTypeFaultWithin, kind_at};
ghost use Rattle.wave_type.specs.TypeSpelling.{Spells, IsTypeOf, IsNoType, IsNoTypeWithin, levels_of};

use super::Type;
use crate::error::{TypeError, TypeErrorKind};
use crate::reader::Reader;
use crate::tokens::{Token, tokens_of};
use std::alloc::Global;

/// How many types may stand one inside another where no other number is handed in.
pub(crate) const DEFAULT_LEVELS: u32 = 100;

impl Type {
    /// The type that the text spells, in the form in which types are displayed: as in WIT, with
    /// blanks, line ends and `//` comments between the tokens, perhaps a comma after the last part,
    /// and perhaps a `%` before a name. At most a hundred types may stand one inside another.
    ///
    /// A refusal stands at the first token with which no type begins any more, or at the empty end of
    /// the text, where it is `UnexpectedEnd`; one for memory at 0..0.
    pub fn parse(alloc: Global, text: &str) -> Result<Type, TypeError>
        ensures spelled { IfOk result (λ ty. IsTypeOf text.now ty) }
        ensures levels { IfOk result (λ ty. levels_of ty ≤ 100) }
        ensures labels { IfOk result (λ ty. HasDistinctLabels ty) }
        ensures refused { IfErr result (λ e. IsNoType text.now e.kind) }
        ensures fault { IfErr result (λ e. IsTypeFault text.now e) }
        ensures within { IfErr result (λ e. LiesInText text.now e.span) }
    {
        Type::parse_within(alloc, text, DEFAULT_LEVELS)
    }

    /// As `parse`, but at most `levels` types may stand one inside another: `list<u8>` has two levels,
    /// and a type without parts one. A type that is one too many is refused as `NestingTooDeep` at its
    /// word, so at 0 levels each type is refused at its first token. Each level takes some stack, so a
    /// caller with little of it hands in fewer than the hundred of `parse`.
    pub fn parse_within(alloc: Global, text: &str, levels: u32) -> Result<Type, TypeError>
        ensures spelled { IfOk result (λ ty. IsTypeOf text.now ty) }
        ensures levels { IfOk result (λ ty. levels_of ty ≤ levels) }
        ensures labels { IfOk result (λ ty. HasDistinctLabels ty) }
        ensures refused { IfErr result (λ e. IsNoTypeWithin levels text.now e.kind) }
        ensures fault { IfErr result (λ e. IsTypeFaultWithin levels text.now e) }
        ensures within { IfErr result (λ e. LiesInText text.now e.span) }
    {
        let tokens = match tokens_of(alloc, text) {
            Ok(tokens) => tokens,
            Err(_) => return Err(TypeError::new(TypeErrorKind::OutOfMemory, 0..0)),
        };
        let mut reader = Reader::new(tokens.as_slice());
        match whole_type(alloc, &mut reader, levels as usize) {
            Ok(ty) => Ok(ty),
            Err(kind) => Err(refusal(text, &tokens, reader.count(), kind)),
        }
    }
}

/// Takes a type within `levels` levels, after which nothing stands.
fn whole_type(
    alloc: Global,
    reader: &mut Reader<'_, '_>,
    levels: usize,
) -> Result<Type, TypeErrorKind>
    ensures spelled { IfOk result (λ ty. Spells ty reader.old []) }
    ensures levels { IfOk result (λ ty. levels_of ty ≤ levels) }
    ensures labels { IfOk result (λ ty. HasDistinctLabels ty) }
    ensures refused { IfErr result (λ kind. IsRefusal (expected_of_type levels) reader.old kind reader.new) }
{
    let ty = reader.ty(alloc, levels)?;
    if reader.count() > 0 {
        return Err(TypeErrorKind::UnexpectedToken);
    }
    Ok(ty)
}

/// The refusal of this kind at the first of the last `left` tokens, or at the end of the text where there
/// is none. A refusal for memory stands at 0..0.
pub(crate) fn refusal(
    text: &str,
    tokens: &Vec<Token<'_>>,
    left: usize,
    kind: TypeErrorKind,
) -> TypeError
    requires { AreItems text.now 0 (items_of tokens.now.items) }
    ensures stands { IsRefusalAt text.now (drop (length tokens.now.items - left) (items_of tokens.now.items)) kind result }
    ensures within { LiesInText text.now result.span }
{
    if let TypeErrorKind::OutOfMemory = kind {
        return TypeError::new(kind, 0..0);
    }
    match tokens.get(tokens.len().saturating_sub(left)) {
        None => TypeError::new(kind, text.len()..text.len()),
        Some(token) => TypeError::new(
            kind_at(token, kind),
            token.start..token.start + token.text.len(),
        ),
    }
}

/// The kind of the refusal where the token stands that is refused so.
fn kind_at(token: &Token<'_>, kind: TypeErrorKind) -> TypeErrorKind
    ensures { result ≡ kind_at token.now.known kind }
{
    if token.known {
        kind
    } else {
        TypeErrorKind::InvalidToken
    }
}
