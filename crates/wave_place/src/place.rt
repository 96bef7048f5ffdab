//! Where a byte of a text stands: in which line, and at which of its scalars.
ghost use Rattle.std.specs.Prelude.{ℕ, List, [], ◌∷◌, ◌≡◌, ◌≤◌, ◌⊎◌, ◌++◌, chars, length, ◌↔◌, IsTrue};
ghost use Rattle.wave_place.specs.Places.{line_feeds, IsInOneLine, AreWholeLines, EndsWithReturn, IsBehindLine};
ghost use Rattle.wave_place.specs.Places.{PartsLineEnd, IsPlaceIn, IsGreatest, IsPlaceNear};

/// Where a byte of a text stands. Lines and columns are counted from 1, columns in scalars.
#[derive(Clone, Copy, Debug)]
pub struct Place<'source> {
    /// The bytes of the text before the place.
    pub at: usize,
    /// The line.
    pub line: usize,
    /// The scalar of the line.
    pub column: usize,
    /// The line's text up to the place.
    pub prefix: &'source str,
    /// The line's text from the place on, without its line end, LF or CR LF.
    pub rest: &'source str,
}

/// The place of the source's byte at `at`: within a scalar that of its first byte, at the LF of a CR LF
/// that of the CR, and past the end that of the end.
pub fn place_of(source: &str, at: usize) -> Place<'_>
    ensures { IsPlaceNear source.now at result.at result.line result.column result.prefix.now result.rest.now }
{
    let there = last_place(source, at);
    let (before, from) = source.split_at(there);
    let (lines, prefix) = last_line(before);
    Place {
        at: there,
        line: line_feeds(lines) + 1,
        column: scalars(prefix) + 1,
        prefix,
        rest: first_line(from),
    }
}

/// The last place of the text up to `at`.
fn last_place(text: &str, at: usize) -> usize
    ensures { IsGreatest (IsPlaceIn text.now) at result }
{
    let there = text.floor_char_boundary(at);
    if parts_line_end(text, there) {
        there - 1
    } else {
        there
    }
}

/// Whether the place stands between the two bytes of a CR LF.
fn parts_line_end(text: &str, at: usize) -> bool
    ensures { IsTrue result ↔ PartsLineEnd text.now at }
{
    let bytes = text.as_bytes();
    0 < at && at < bytes.len() && bytes[at - 1] == b'\r' && bytes[at] == b'\n'
}

/// How many scalars the text has.
pub fn scalars(text: &str) -> usize
    ensures count { result ≡ length (chars text.now) }
    ensures bound { result ≤ length text.now }
{
    text.chars().count()
}

/// The text before the last line, and the last line.
fn last_line(text: &str) -> (&str, &str)
    ensures split { text.now ≡ result.0.now ++ result.1.now }
    ensures lines { AreWholeLines result.0.now }
    ensures line { IsInOneLine result.1.now }
{
    match text.rfind('\n') {
        Some(at) => text.split_at(at + 1),
        None => ("", text),
    }
}

/// The first line, without its line end.
fn first_line(text: &str) -> &str
    ensures line { IsInOneLine result.now }
    ensures split { (behind : List ℕ) × (text.now ≡ result.now ++ behind) × IsBehindLine result.now behind }
{
    match text.find('\n') {
        Some(at) => without_return(text.split_at(at).0),
        None => text,
    }
}

/// The line without a CR at its end.
fn without_return(line: &str) -> &str
    ensures { (line.now ≡ result.now ++ 13 ∷ [])
        ⊎ (line.now ≡ result.now) × (EndsWithReturn line.now → ⊥) }
{
    match line.strip_suffix('\r') {
        Some(shorter) => shorter,
        None => line,
    }
}

/// How many line feeds the text has.
fn line_feeds(text: &str) -> usize
    ensures count { result ≡ line_feeds text.now }
    ensures bound { result ≤ length text.now }
{
    let mut count = 0;
    for byte in text.bytes() {
        if byte == b'\n' {
            count += 1;
        }
    }
    count
}
