//! How many bytes whitespace or a token takes at the start of a text. Runs of bytes that leave a machine
//! in its state are counted sixteen at a time; the machine reads what stands after them. The ends of a
//! comment and of a multiline string are searched, and a char of one scalar that stands for itself is found
//! at once.
ghost use Rattle.std.specs.Prelude.{◌≡◌, ℕ, ◌+◌, ◌<◌, ◌≤◌, true, false, Some, IfSome, is_some, length, drop, slice_index, codes};
ghost use Rattle.wave_lex.specs.Derive.{derivative, derivative_by};
ghost use Rattle.wave_lex.specs.LongestMatch.{Greatest, IsPrefixOf};
ghost use Rattle.wave_lex.specs.Strings.{short_escape};
ghost use Rattle.wave_lex.specs.Private.Machines.{after_sign, begins_number, ends_whole, is_blank};
ghost use Rattle.wave_lex.specs.Machines.{is_digit, rest};
ghost use Rattle.wave_lex.specs.Private.Reading.{LeadsTo, EndsWord, IsStep, IsWordStep};
ghost use Rattle.wave_lex.specs.declared.machine.Start.TheVariants.{InString};
ghost use Rattle.wave_lex.specs.Tokenization.{IsWhitespace};
ghost use Rattle.wave_lex.specs.Tokens.{character, label_or_keyword, multiline_string, number, one, string, whitespace};

use crate::lex::sets::{Blanks, Digits, Lowers, Plains};
use crate::machine::{Start, longest_prefix};
use crate::strings::hex_length;
use memchr::{memchr, memmem};
use wave_wasm::byte_runs::run_of;

/// How many bytes the whitespace at the start takes.
pub fn whitespace_at(text: &str) -> usize
    ensures { IsWhitespace text.now result }
{
    let bytes = text.as_bytes();
    if bytes.len() > 1 && bytes[0] == b' ' && bytes[1] > b' ' && bytes[1] != b'/' {
        return 1;
    }
    if bytes.len() > 0 && bytes[0] > b' ' && bytes[0] != b'/' {
        return 0;
    }
    let run = run_of::<Blanks>(bytes);
    if run == bytes.len() {
        return run;
    }
    if bytes[run] != b'/' {
        return run;
    }
    run + commented_at(&text[run..])
}

/// How many bytes the whitespace at the start takes, which may begin with comments.
#[inline(never)]
fn commented_at(text: &str) -> usize
    ensures { IsWhitespace text.now result }
{
    let bytes = text.as_bytes();
    let end = comments_end(text);
    if end == bytes.len() {
        return end;
    }
    if bytes[end] != b'/' {
        return end;
    }
    let Some(more) = longest_prefix(Start::Whitespace, &text[end..]) else {
        return end;
    };
    end + more
}

/// Where the blanks at the start end, and the comments with a line feed and the blanks after them.
fn comments_end(text: &str) -> usize
    ensures leads { LeadsTo whitespace whitespace text.now result }
    ensures stops { result < length text.now → is_blank (slice_index text.now result) ≡ false }
{
    let mut place = run_of::<Blanks>(text.as_bytes());
    while let Some(count) = comment_at(text, place) {
        place += count;
    }
    place
}

/// How many bytes the comment takes that stands at this place, its line feed and the blanks after it.
fn comment_at(text: &str, place: usize) -> Option<usize>
    requires { LeadsTo whitespace whitespace text.now place }
    ensures step { IsStep whitespace (drop place text.now) result }
    ensures stops { IfSome result (λ k. place + k < length text.now → is_blank (slice_index text.now (place + k)) ≡ false) }
{
    let rest = &text.as_bytes()[place..];
    if rest.len() < 2 || rest[0] != b'/' || rest[1] != b'/' {
        return None;
    }
    let line = memchr(b'\n', &rest[2..])? + 3;
    Some(line + run_of::<Blanks>(&rest[line..]))
}

/// How many bytes the mark takes, where it stands at the start.
pub fn mark_at(mark: u8, text: &str) -> Option<usize>
    requires { mark < 128 }
    ensures { Greatest (IsPrefixOf (one mark) text.now) result }
{
    let bytes = text.as_bytes();
    if bytes.len() == 0 {
        return None;
    }
    if bytes[0] != mark {
        return None;
    }
    Some(1)
}

/// How many bytes the longest number at the start takes.
pub fn number_at(text: &str) -> Option<usize>
    ensures { Greatest (IsPrefixOf number text.now) result }
{
    let sign = sign_at(text);
    let whole = &text.as_bytes()[sign..];
    let run = run_of::<Digits>(whole);
    if run == 0 {
        return longest_prefix(Start::Number, text);
    }
    if whole[0] == b'0' {
        if whole.len() == 1 {
            return Some(sign + 1);
        }
        if ends_whole(whole[1]) {
            return Some(sign + 1);
        }
        let Some(more) = behind_whole(Start::Zero, &text[sign + 1..]) else {
            return None;
        };
        return Some(sign + 1 + more);
    }
    let end = sign + run;
    if run == whole.len() {
        return Some(end);
    }
    if ends_whole(whole[run]) {
        return Some(end);
    }
    let Some(more) = behind_whole(Start::WholePart, &text[end..]) else {
        return None;
    };
    Some(end + more)
}

/// How many bytes the longest rest of a number takes behind its whole part. The digits of a fraction are
/// counted at once.
fn behind_whole(start: Start, text: &str) -> Option<usize>
    requires { derivative 46 (rest start) ≡ derivative_by (codes "0.") number }
    ensures { Greatest (IsPrefixOf (rest start) text.now) result }
{
    let bytes = text.as_bytes();
    if bytes.len() == 0 {
        return longest_prefix(start, text);
    }
    if bytes[0] != b'.' {
        return longest_prefix(start, text);
    }
    let digits = &bytes[1..];
    let run = run_of::<Digits>(digits);
    if run == 0 {
        return longest_prefix(start, text);
    }
    if run == digits.len() {
        return Some(run + 1);
    }
    if ends_whole(digits[run]) {
        return Some(run + 1);
    }
    let Some(more) = longest_prefix(Start::Fraction, &text[run + 1..]) else {
        return None;
    };
    Some(run + 1 + more)
}

/// How many bytes the longest label or keyword at the start takes.
pub fn label_at(text: &str) -> Option<usize>
    ensures { Greatest (IsPrefixOf label_or_keyword text.now) result }
{
    let bytes = text.as_bytes();
    let run = run_of::<Lowers>(bytes);
    if run == 0 {
        return longest_prefix(Start::LabelOrKeyword, text);
    }
    if is_digit(bytes[0]) {
        return longest_prefix(Start::LabelOrKeyword, text);
    }
    if run < bytes.len() && bytes[run] != b'-' {
        return Some(run);
    }
    let place = words_end(text, run);
    if place >= bytes.len() {
        return Some(place);
    }
    if bytes[place] != b'-' {
        return Some(place);
    }
    let Some(more) = longest_prefix(Start::LowerWord, &text[place..]) else {
        return None;
    };
    Some(place + more)
}

/// How many bytes the char at the start takes.
pub fn char_at(text: &str) -> Option<usize>
    ensures { Greatest (IsPrefixOf character text.now) result }
{
    if let Some(count) = plain_char_at(text) {
        return Some(count);
    }
    longest_prefix(Start::Character, text)
}

/// How many bytes the string in one line at the start takes.
pub fn string_at(text: &str) -> Option<usize>
    ensures { Greatest (IsPrefixOf string text.now) result }
{
    let bytes = text.as_bytes();
    if bytes.len() == 0 {
        return None;
    }
    if bytes[0] != b'"' {
        return longest_prefix(Start::String, text);
    }
    let plain = run_of::<Plains>(text[1..].as_bytes()) + 1;
    if plain < bytes.len() && bytes[plain] == b'"' {
        return Some(plain + 1);
    }
    let inside = inside_end(text, plain);
    if inside < bytes.len() && bytes[inside] == b'"' {
        return Some(inside + 1);
    }
    let Some(more) = longest_prefix(Start::InString, &text[inside..]) else {
        return None;
    };
    Some(inside + more)
}

/// How many bytes the multiline string at the start takes.
pub fn multiline_at(text: &str) -> Option<usize>
    ensures { Greatest (IsPrefixOf multiline_string text.now) result }
{
    let inside = text.strip_prefix("\"\"\"")?;
    let count = memmem::find(inside.as_bytes(), b"\"\"\"")?;
    Some(count + 6)
}

/// How many bytes the sign at the start takes: one, or none where no sign stands there.
fn sign_at(text: &str) -> usize
    ensures within { result ≤ length text.now }
    ensures leads { LeadsTo number (after_sign result) text.now result }
{
    let bytes = text.as_bytes();
    if bytes.len() == 0 {
        return 0;
    }
    if bytes[0] != b'-' {
        return 0;
    }
    1
}

/// How many bytes the char at the start takes, where it is one scalar that stands for itself between its
/// quotes.
fn plain_char_at(text: &str) -> Option<usize>
    ensures { IfSome result (λ count. Greatest (IsPrefixOf character text.now) (Some count)) }
{
    let mut scalars = text.chars();
    if scalars.next()? != '\'' {
        return None;
    }
    let scalar = scalars.next()?;
    if scalar == '\\' || scalar == '\'' || scalar == '\n' {
        return None;
    }
    if scalars.next()? != '\'' {
        return None;
    }
    Some(scalar.len_utf8() + 2)
}

/// Where the lower-case words end that stand from this place on, each after a hyphen.
fn words_end(text: &str, from: usize) -> usize
    requires { EndsWord label_or_keyword text.now from }
    ensures { EndsWord label_or_keyword text.now result }
{
    let _length = text.len();
    let mut place = from;
    while let Some(count) = word_at(&text[place..]) {
        place += count;
    }
    place
}

/// How many bytes the hyphen and the word take that stand at the start, where the word begins with a
/// lower-case letter.
fn word_at(text: &str) -> Option<usize>
    ensures { IsWordStep text.now result }
{
    let bytes = text.as_bytes();
    if bytes.len() < 2 || bytes[0] != b'-' || is_digit(bytes[1]) {
        return None;
    }
    let run = run_of::<Lowers>(&bytes[1..]);
    if run == 0 {
        return None;
    }
    Some(run + 1)
}

/// Where the plain bytes and the escapes end that stand from this place on.
fn inside_end(text: &str, from: usize) -> usize
    requires { LeadsTo string (rest InString) text.now from }
    ensures { LeadsTo string (rest InString) text.now result }
{
    let _length = text.len();
    let mut place = from;
    while let Some(count) = piece_at(text, place) {
        place += count;
    }
    place
}

/// How many bytes the plain bytes or the escape take that stand at this place.
fn piece_at(text: &str, place: usize) -> Option<usize>
    requires { LeadsTo string (rest InString) text.now place }
    ensures { IsStep (rest InString) (drop place text.now) result }
{
    let rest = &text.as_bytes()[place..];
    if let Some(count) = escape_at(rest) {
        return Some(count);
    }
    let run = run_of::<Plains>(rest);
    if run == 0 {
        return None;
    }
    Some(run)
}

/// How many bytes the escape takes that stands at the start; its number need be no scalar.
fn escape_at(bytes: &[u8]) -> Option<usize>
    ensures { IsStep (rest InString) bytes.now result }
{
    if bytes.len() < 2 || bytes[0] != b'\\' {
        return None;
    }
    if ends_short(bytes[1]) {
        return Some(2);
    }
    if bytes[1] != b'u' || bytes.len() < 3 || bytes[2] != b'{' {
        return None;
    }
    let digits = &bytes[3..];
    let count = hex_length(digits);
    if count == 0 || count > 6 || count >= digits.len() || digits[count] != b'}' {
        return None;
    }
    Some(count + 4)
}

/// A point at the place of each byte that ends a short escape, and a comma at every other.
static SHORTS: [u8; 256] = *b"\
    ,,,,,,,,,,,,,,,,,,,,,,,,,,,,,,,,\
    ,,.,,,,.,,,,,,,,,,,,,,,,,,,,,,,,\
    ,,,,,,,,,,,,,,,,,,,,,,,,,,,,.,,,\
    ,,,,,,,,,,,,,,.,,,.,.,,,,,,,,,,,\
    ,,,,,,,,,,,,,,,,,,,,,,,,,,,,,,,,\
    ,,,,,,,,,,,,,,,,,,,,,,,,,,,,,,,,\
    ,,,,,,,,,,,,,,,,,,,,,,,,,,,,,,,,\
    ,,,,,,,,,,,,,,,,,,,,,,,,,,,,,,,,";

/// A backslash and the byte are an escape.
fn ends_short(byte: u8) -> bool
    ensures { result ≡ is_some (short_escape byte) }
{
    SHORTS[byte as usize] == b'.'
}

/// The byte is a minus or a digit.
pub fn begins_number(byte: u8) -> bool
    ensures { result ≡ begins_number byte }
{
    matches!(byte, b'-' | b'0'..=b'9')
}

/// The byte is a digit.
fn is_digit(byte: u8) -> bool
    ensures { result ≡ is_digit byte }
{
    matches!(byte, b'0'..=b'9')
}

/// The byte is neither a point nor the letter of an exponent.
fn ends_whole(byte: u8) -> bool
    ensures { result ≡ ends_whole byte }
{
    !matches!(byte, b'.' | b'e' | b'E')
}
