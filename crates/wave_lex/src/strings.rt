//! What the escapes of a string stand for, and the parts of a string, one by one.
ghost use Rattle.std.specs.Prelude.{◌≡◌, ℕ, ◌+◌, ◌<◌, ◌≤◌, ◌^◌, ◌≢◌, nat_lt, [], Some, None, length, slice_index, IsTrue, MatchBool, MatchResult, MatchOption};
ghost use Rattle.std.specs.Iterator.{at_most};
ghost use Rattle.std.specs.Char.{digit_value};
ghost use Rattle.std.specs.Str.{IsUtf8};
ghost use Rattle.wave_lex.specs.Strings.{UnescapesTo, short_escape};
ghost use Rattle.wave_lex.specs.Multiline.{pieces, closing_piece, DropsReturn};
ghost use Rattle.wave_lex.specs.declared.strings.StringPartsIter.TheVariants.{Normal};
ghost use Rattle.wave_lex.specs.Remaining.{ended_lines, size_of};
ghost use Rattle.wave_lex.specs.Parts.{PartIs, LinePartIs, LinesRunTo, TakesPart, NoPartNext, left_of};
ghost use Rattle.wave_lex.specs.Parts.{OpensTo, OpeningRefused, EntersLine, ReportsBadEscape, ReportsBadLine};
ghost use Rattle.wave_lex.specs.Private.Runs.{IsRun};
ghost use Rattle.wave_lex.specs.Private.Lines.{IsNumberAt, PartTaken, EndIs, LinesEndIs, NoLineEntered, SplitsLine, OpeningIs, BehindLastFeed};

use crate::error::{ParserError, ParserErrorKind};
use crate::lex::sets::NoBackslashes;
use memchr::{memchr, memchr2};
use std::marker::Model;
use wave_wasm::byte_runs::run_of;

/// How many digits an escape has at most.
const MOST_DIGITS: usize = 6;

/// A run of the source without escapes, or a decoded escape, or the line feed between two lines.
#[derive(Clone, Copy, Debug)]
pub enum StringPart<'a> {
    /// Bytes of the source that stand for themselves; at least one.
    Run(&'a str),
    /// The scalar of an escape, or a line feed.
    Char(char),
}

/// The parts of a string: of what stands between its quotes.
#[derive(Drop)]
pub struct StringParts<'a> {
    src: &'a str,
    pos: usize,
    /// How many bytes stand before the first backslash.
    run: usize,
}

impl<'a> Model for StringParts<'a> {
    ghost use Rattle.std.specs.Prelude.{◌+◌, ◌<◌, ◌^◌, length};
    ghost use Rattle.wave_lex.specs.Remaining.{Undecoded};
    ghost use Rattle.wave_lex.specs.Private.Runs.{IsRun};

    ghost Value = { Undecoded };

    ghost view = { λ p. record { rest = p.src.now; pos = p.pos } };

    ghost invariant = { λ p. (p.pos + length p.src.now + 3 < 2 ^ 64) × IsRun p.src.now p.run };
}

impl<'a> StringParts<'a> {
    /// The parts of `src`, which stands at the byte `pos` of the source.
    fn new(src: &'a str, pos: usize) -> StringParts<'a>
        requires { pos + length src.now + 3 < 2 ^ 64 }
        ensures { result ≡ record { rest = src.now; pos = pos } }
    {
        let run = run_length(src);
        StringParts { src, pos, run }
    }

    /// The same; where `is_plain` says that `src` has no backslash none is searched.
    #[inline(always)]
    fn of_line(src: &'a str, pos: usize, is_plain: bool) -> StringParts<'a>
        requires fits { pos + length src.now + 3 < 2 ^ 64 }
        requires plain { IsTrue is_plain → IsRun src.now (length src.now) }
        ensures { result ≡ record { rest = src.now; pos = pos } }
    {
        if is_plain {
            let run = src.len();
            return StringParts { src, pos, run };
        }
        StringParts::new(src, pos)
    }

    /// The next run or escape. None where there is none, at the end and at a backslash that begins
    /// no escape: nothing is taken there.
    #[inline(always)]
    fn part(&mut self) -> Option<StringPart<'a>>
        ensures { PartTaken self.old result self.new }
    {
        if self.run > 0 {
            let (part, rest) = self.src.split_at(self.run);
            self.src = rest;
            self.pos += self.run;
            self.run = 0;
            return Some(StringPart::Run(part));
        }
        if self.src.as_bytes().is_empty() {
            return None;
        }
        let (c, count) = unescape(self.src)?;
        self.src = &self.src[count..];
        self.pos += count;
        self.run = run_length(self.src);
        Some(StringPart::Char(c))
    }

    /// How many bytes are left.
    #[inline(always)]
    fn bytes_left(&self) -> usize
        ensures left { result ≡ length self.now.rest }
        ensures fits { result < 2 ^ 63 }
    {
        self.src.len()
    }

    /// What stands where `part` answers None: the end, or a backslash that is refused.
    #[inline(always)]
    fn end(&self) -> Result<(), ParserError>
        ensures { EndIs self.now result }
    {
        if self.src.is_empty() {
            return Ok(());
        }
        Err(invalid_escape(self.pos))
    }
}

impl<'a> Iterator for StringParts<'a> {
    type Item = Result<StringPart<'a>, ParserError>;

    ghost remaining = { λ p. at_most (length p.rest) };

    ghost next_gives = { λ old r new. PartIs old r new };

    /// The next run or escape. An escape that is none is refused at its backslash, and nothing
    /// comes after it.
    #[inline(always)]
    fn next(&mut self) -> Option<Result<StringPart<'a>, ParserError>> {
        if let Some(part) = self.part() {
            return Some(Ok(part));
        }
        match self.end() {
            Ok(()) => None,
            Err(error) => {
                self.src = "";
                self.run = 0;
                Some(Err(error))
            }
        }
    }
}

/// The parts of a multiline string: of what stands between its quotes.
#[derive(Drop)]
pub struct MultilineStringParts<'a> {
    line: StringParts<'a>,
    rest: &'a str,
    next: usize,
    indent: usize,
}

impl<'a> Model for MultilineStringParts<'a> {
    ghost use Rattle.std.specs.Prelude.{◌+◌, ◌<◌, ◌^◌, length};
    ghost use Rattle.wave_lex.specs.Remaining.{LinesLeft, ended_lines};
    ghost use Rattle.wave_lex.specs.Private.Runs.{HasWholeLines};

    ghost Value = { LinesLeft };

    ghost view = { λ p. record { line = p.line; later = ended_lines p.rest.now; next = p.next; indent = p.indent } };

    ghost invariant = { λ p. (p.next + length p.rest.now + 3 < 2 ^ 64) × HasWholeLines p.rest.now };
}

impl<'a> MultilineStringParts<'a> {
    /// The parts of `src`, which stands at the byte `pos` of the source, before the first
    /// one. What stands before the first and after the last line feed is refused here; a first
    /// line with too few spaces by the first `next`.
    fn new(src: &'a str, pos: usize) -> Result<MultilineStringParts<'a>, ParserError>
        requires { pos + length src.now + 3 < 2 ^ 64 }
        ensures { MatchResult result (OpensTo src.now pos) (OpeningRefused src.now pos) }
    {
        let end = pos + src.len();
        let start = last_line_start(src);
        let closing = closing_piece(src, start);
        if length_of_spaces(closing.as_bytes()) < closing.len() {
            return Err(ParserError::with_static(
                ParserErrorKind::InvalidMultilineString,
                end..end + 3,
                "closing \"\"\" must be on a line preceded only by spaces",
            ));
        }
        let Some(first) = opening_length(src) else {
            return Err(ParserError::with_static(
                ParserErrorKind::InvalidMultilineString,
                pos..pos + 1,
                "opening \"\"\" must be followed immediately by newline",
            ));
        };
        let mut parts = MultilineStringParts {
            line: StringParts::new("", pos),
            rest: &src[first + 1..start],
            next: pos + first + 1,
            indent: closing.len(),
        };
        // A line with too few spaces stays, for the first `next` to refuse.
        parts.next_line();
        Ok(parts)
    }

    /// Reads the next line, where there is one with enough spaces; else nothing changes.
    #[inline(always)]
    fn next_line(&mut self) -> bool
        ensures { MatchBool result (EntersLine self.old self.new) (NoLineEntered self.old self.new) }
    {
        let Some((line, is_plain, behind)) = split_line(self.rest) else {
            return false;
        };
        if length_of_spaces(line.as_bytes()) < self.indent {
            return false;
        }
        let text = without_final_return(&line[self.indent..]);
        self.line = StringParts::of_line(text, self.next + self.indent, is_plain);
        self.rest = behind;
        self.next += line.len() + 1;
        true
    }

    /// The next part of the line, or the line feed between it and the next one. None where there is
    /// none, at the end and where a refusal is next: nothing is taken there.
    #[inline(always)]
    fn part(&mut self) -> Option<StringPart<'a>>
        ensures { TakesPart self.old result self.new }
    {
        if let Some(part) = self.line.part() {
            return Some(part);
        }
        if self.line.src.is_empty() && self.next_line() {
            return Some(StringPart::Char('\n'));
        }
        None
    }

    /// How many bytes are left.
    #[inline(always)]
    fn bytes_left(&self) -> usize
        ensures { result ≡ size_of self.now }
    {
        self.line.bytes_left() + self.rest.len()
    }

    /// What stands where `part` answers None: the end, or a backslash or a line that is refused.
    #[inline(always)]
    fn end(&self) -> Result<(), ParserError>
        ensures { LinesEndIs self.now result }
    {
        self.line.end()?;
        if split_line(self.rest).is_none() {
            return Ok(());
        }
        Err(badly_indented(self.next))
    }
}

impl<'a> Iterator for MultilineStringParts<'a> {
    type Item = Result<StringPart<'a>, ParserError>;

    ghost remaining = { λ p. at_most (size_of p) };

    ghost next_gives = { λ old r new. LinePartIs old r new };

    /// The next part of the line, or the line feed between it and the next one. After a refusal
    /// nothing comes.
    fn next(&mut self) -> Option<Result<StringPart<'a>, ParserError>> {
        if let Some(part) = self.part() {
            return Some(Ok(part));
        }
        match self.end() {
            Ok(()) => None,
            Err(error) => {
                self.line = StringParts::new("", self.line.pos);
                self.rest = "";
                Some(Err(error))
            }
        }
    }
}

/// The parts of a string of either kind.
#[derive(Drop)]
pub enum StringPartsIter<'a> {
    /// Those of a string in one line.
    Normal(StringParts<'a>),
    /// Those of a multiline string.
    Multiline(MultilineStringParts<'a>),
}

impl<'a> StringPartsIter<'a> {
    /// The parts of `src`, which stands between the quotes of a string, at the byte `pos` of the
    /// source.
    pub fn new(src: &'a str, pos: usize) -> StringPartsIter<'a>
        requires { pos + length src.now + 3 < 2 ^ 64 }
        ensures { result ≡ Normal (record { rest = src.now; pos = pos }) }
    {
        StringPartsIter::Normal(StringParts::new(src, pos))
    }

    /// The parts of `src`, which stands between the quotes of a multiline string, at the byte
    /// `pos` of the source. What stands before the first and after the last line feed is refused
    /// here, any other fault as an item.
    pub fn new_multiline(src: &'a str, pos: usize) -> Result<StringPartsIter<'a>, ParserError>
        requires { pos + length src.now + 3 < 2 ^ 64 }
        ensures { MatchResult result (λ parts. OpensTo src.now pos (left_of parts)) (OpeningRefused src.now pos) }
    {
        let parts = MultilineStringParts::new(src, pos)?;
        Ok(StringPartsIter::Multiline(parts))
    }

    /// How many bytes of the source are left, which is as many as the text of the parts can take: of
    /// the line that is read, and of the lines after it with their line feeds.
    #[inline(always)]
    pub fn bytes_left(&self) -> usize
        ensures { result ≡ size_of (left_of self.now) }
    {
        match self {
            StringPartsIter::Normal(parts) => parts.bytes_left(),
            StringPartsIter::Multiline(parts) => parts.bytes_left(),
        }
    }

    /// The next part; None where `next` gives none, which is at the end and where a refusal is next.
    /// Nothing is taken there, and `end` tells which it is.
    #[inline(always)]
    pub fn part(&mut self) -> Option<StringPart<'a>>
        ensures { TakesPart (left_of self.old) result (left_of self.new) }
    {
        match self {
            StringPartsIter::Normal(parts) => parts.part(),
            StringPartsIter::Multiline(parts) => parts.part(),
        }
    }

    /// What stands where `part` answers None: the end, or else a refusal.
    #[inline(always)]
    pub fn end(&self) -> Result<(), ParserError>
        requires { NoPartNext (left_of self.now) }
        ensures { MatchResult result (λ _. LinesRunTo (left_of self.now) [] None) (λ e. LinesRunTo (left_of self.now) [] (Some e)) }
    {
        match self {
            StringPartsIter::Normal(parts) => parts.end(),
            StringPartsIter::Multiline(parts) => parts.end(),
        }
    }
}

impl<'a> Iterator for StringPartsIter<'a> {
    type Item = Result<StringPart<'a>, ParserError>;

    ghost remaining = { λ p. at_most (size_of (left_of p)) };

    ghost next_gives = { λ old r new. LinePartIs (left_of old) r (left_of new) };

    /// The next part; after a refusal nothing comes.
    #[inline(always)]
    fn next(&mut self) -> Option<Result<StringPart<'a>, ParserError>> {
        match self {
            StringPartsIter::Normal(parts) => parts.next(),
            StringPartsIter::Multiline(parts) => parts.next(),
        }
    }
}

/// The refusal of the backslash at this place.
#[cold]
#[inline(never)]
fn invalid_escape(pos: usize) -> ParserError
    requires { pos + 1 < 2 ^ 64 }
    ensures { ReportsBadEscape result pos }
{
    ParserError::new(ParserErrorKind::InvalidEscape, pos..pos + 1)
}

/// The refusal of a line with too few spaces, at its first byte.
#[cold]
#[inline(never)]
fn badly_indented(pos: usize) -> ParserError
    requires { pos + 1 < 2 ^ 64 }
    ensures { ReportsBadLine result pos }
{
    ParserError::with_static(
        ParserErrorKind::InvalidMultilineString,
        pos..pos + 1,
        "lines must be indented at least as much as closing \"\"\"",
    )
}

/// The escape at the start of `src`: its scalar, and how many bytes it takes. None where no escape
/// of a scalar stands there.
pub fn unescape(src: &str) -> Option<(char, usize)>
    ensures { UnescapesTo src.now result }
{
    let bytes = src.as_bytes();
    if bytes.len() < 2 || bytes[0] != b'\\' {
        return None;
    }
    if bytes[1] != b'u' {
        let short = short_escape(char::from(bytes[1]))?;
        return Some((short, 2));
    }
    if bytes.len() < 3 || bytes[2] != b'{' {
        return None;
    }
    let digits = &bytes[3..];
    let (count, value) = hexadecimal(&digits[..digits.len().min(MOST_DIGITS)]);
    if count == 0 || count >= digits.len() || digits[count] != b'}' {
        return None;
    }
    let scalar = char::from_u32(value)?;
    Some((scalar, count + 4))
}

/// What a backslash and this scalar stand for.
fn short_escape(c: char) -> Option<char>
    ensures { result ≡ short_escape c }
{
    match c {
        '\\' => Some('\\'),
        '\'' => Some('\''),
        '"' => Some('"'),
        't' => Some('\t'),
        'n' => Some('\n'),
        'r' => Some('\r'),
        _ => None,
    }
}

/// How many hexadecimal digits stand at the start, and the number that they are.
#[inline(always)]
fn hexadecimal(bytes: &[u8]) -> (usize, u32)
    requires { length bytes.now ≤ 6 }
    ensures { IsNumberAt bytes.now result.0 result.1 }
{
    let mut value = 0;
    for (i, byte) in bytes.iter().enumerate() {
        let Some(digit) = char::from(*byte).to_digit(16) else {
            return (i, value);
        };
        value = value * 16 + digit;
    }
    (bytes.len(), value)
}

/// Each hexadecimal digit at its own place, and a comma at every other.
static HEXADECIMALS: [u8; 256] = *b"\
    ,,,,,,,,,,,,,,,,,,,,,,,,,,,,,,,,\
    ,,,,,,,,,,,,,,,,0123456789,,,,,,\
    ,ABCDEF,,,,,,,,,,,,,,,,,,,,,,,,,\
    ,abcdef,,,,,,,,,,,,,,,,,,,,,,,,,\
    ,,,,,,,,,,,,,,,,,,,,,,,,,,,,,,,,\
    ,,,,,,,,,,,,,,,,,,,,,,,,,,,,,,,,\
    ,,,,,,,,,,,,,,,,,,,,,,,,,,,,,,,,\
    ,,,,,,,,,,,,,,,,,,,,,,,,,,,,,,,,";

/// The byte is a hexadecimal digit.
fn is_hexadecimal(byte: u8) -> bool
    ensures { result ≡ nat_lt (digit_value byte) 16 }
{
    HEXADECIMALS[byte as usize] != b','
}

/// How many hexadecimal digits stand at the start.
pub(crate) fn hex_length(bytes: &[u8]) -> usize
    ensures within { result ≤ length bytes.now }
    ensures digits { (i : ℕ) → i < result → digit_value (slice_index bytes.now i) < 16 }
    ensures stops { result < length bytes.now → 16 ≤ digit_value (slice_index bytes.now result) }
{
    for i in 0..bytes.len() {
        if !is_hexadecimal(bytes[i]) {
            return i;
        }
    }
    bytes.len()
}

/// How many bytes stand before the first backslash.
#[inline(always)]
fn run_length(text: &str) -> usize
    ensures run { IsRun text.now result }
    ensures utf8 { IsUtf8 text.now }
{
    run_of::<NoBackslashes>(text.as_bytes())
}

/// How many spaces stand at the start.
fn length_of_spaces(bytes: &[u8]) -> usize
    ensures within { result ≤ length bytes.now }
    ensures spaces { (i : ℕ) → i < result → slice_index bytes.now i ≡ 32 }
    ensures stops { result < length bytes.now → slice_index bytes.now result ≢ 32 }
{
    for (i, byte) in bytes.iter().enumerate() {
        if *byte != b' ' {
            return i;
        }
    }
    bytes.len()
}

/// Where the text after the last line feed begins; 0 where there is none.
fn last_line_start(src: &str) -> usize
    ensures { BehindLastFeed src.now result }
{
    match src.rfind('\n') {
        Some(feed) => feed + 1,
        None => 0,
    }
}

/// What must be spaces: the text after the last line feed, which begins at `start`; where there is
/// none, all but one carriage return at its beginning.
fn closing_piece(src: &str, start: usize) -> &str
    requires { BehindLastFeed src.now start }
    ensures { result.now ≡ closing_piece (pieces src.now) }
{
    let bytes = src.as_bytes();
    if start == 0 && bytes.len() > 0 && bytes[0] == b'\r' {
        return &src[1..];
    }
    &src[start..]
}

/// How long the text before the first line feed is, where it is empty or one carriage return.
fn opening_length(src: &str) -> Option<usize>
    ensures { OpeningIs src.now result }
{
    let first = src.find('\n')?;
    if first > 1 {
        return None;
    }
    if first == 1 && src.as_bytes()[0] != b'\r' {
        return None;
    }
    Some(first)
}

/// The first line, whether it has no backslash, and what stands after its line feed; None where there
/// is no line feed.
#[inline(always)]
fn split_line(text: &str) -> Option<(&str, bool, &str)>
    ensures { MatchOption result (ended_lines text.now ≡ [])
        (λ cut. SplitsLine text.now cut.0.now cut.2.now × (IsTrue cut.1 → IsRun cut.0.now (length cut.0.now))) }
{
    let bytes = text.as_bytes();
    let stop = memchr2(b'\n', b'\\', bytes)?;
    if bytes[stop] == b'\n' {
        return Some((&text[..stop], true, &text[stop + 1..]));
    }
    let end = memchr(b'\n', bytes)?;
    Some((&text[..end], false, &text[end + 1..]))
}

/// The line without one carriage return at its end.
fn without_final_return(line: &str) -> &str
    ensures { DropsReturn line.now result.now }
{
    let end = line.len();
    if end > 0 && line.as_bytes()[end - 1] == b'\r' {
        return &line[..end - 1];
    }
    line
}
