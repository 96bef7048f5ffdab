// The numbers of kinds. None is ever given to another kind.
ghost use Rattle.std.specs.Prelude.{◌≡◌};
ghost use Rattle.wave_c.specs.Kinds.{argument_number, type_kind_number, kind_number, tape_kind_number};

use crate::ended::Argument;
use wave_lex::error::ParserErrorKind;
use wave_tape::error::TapeErrorKind;
use wave_type::error::TypeErrorKind;

/// The number of an argument.
pub(crate) fn argument_number(argument: Argument) -> u32
    ensures { result ≡ argument_number argument }
{
    match argument {
        Argument::TypeText => 1,
        Argument::ValueText => 2,
    }
}

/// The number of a kind of refusals of types' texts.
pub(crate) fn type_kind_number(kind: TypeErrorKind) -> u32
    ensures { result ≡ type_kind_number kind }
{
    match kind {
        TypeErrorKind::UnexpectedToken => 101,
        TypeErrorKind::UnexpectedEnd => 102,
        TypeErrorKind::InvalidToken => 103,
        TypeErrorKind::DuplicateName => 104,
        TypeErrorKind::InvalidKeyType => 105,
        TypeErrorKind::InvalidCount => 106,
        TypeErrorKind::NestingTooDeep => 107,
        TypeErrorKind::OutOfMemory => 108,
    }
}

/// The number of a kind of refusals of texts.
pub(crate) fn kind_number(kind: ParserErrorKind) -> u32
    ensures { result ≡ kind_number kind }
{
    match kind {
        ParserErrorKind::EmptyTuple => 1,
        ParserErrorKind::MultipleChars => 2,
        ParserErrorKind::InvalidEscape => 3,
        ParserErrorKind::InvalidMultilineString => 4,
        ParserErrorKind::InvalidParams => 5,
        ParserErrorKind::InvalidToken => 6,
        ParserErrorKind::InvalidType => 7,
        ParserErrorKind::InvalidValue => 8,
        ParserErrorKind::TrailingCharacters => 9,
        ParserErrorKind::UnexpectedEnd => 10,
        ParserErrorKind::UnexpectedToken => 11,
        ParserErrorKind::DuplicateField => 12,
        ParserErrorKind::DuplicateFlag => 13,
        ParserErrorKind::WasmValueError => 14,
        ParserErrorKind::NestingTooDeep => 15,
        ParserErrorKind::OutOfMemory => 16,
    }
}

/// The number of a kind of refusals of tapes.
pub(crate) fn tape_kind_number(kind: TapeErrorKind) -> u32
    ensures { result ≡ tape_kind_number kind }
{
    match kind {
        TapeErrorKind::Version => 201,
        TapeErrorKind::End => 202,
        TapeErrorKind::Trailing => 203,
        TapeErrorKind::Byte => 204,
        TapeErrorKind::Char => 205,
        TapeErrorKind::Utf8 => 206,
        TapeErrorKind::Name => 207,
        TapeErrorKind::Unsupported => 208,
        TapeErrorKind::Value => 209,
        TapeErrorKind::OutOfMemory => 210,
    }
}
