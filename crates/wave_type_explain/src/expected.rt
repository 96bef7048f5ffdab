//! What may stand at a place of a text that is to spell a type, or the type of a function.
ghost use Rattle.std.specs.Prelude.{◌≡◌, ◌++◌, ◌∷◌, [], IfOk, if◌then◌else◌, map, codes, string_bytes};
ghost use Rattle.std.specs.List.{list_any};
ghost use Rattle.wave_wasm.specs.Borrowed.{texts};
ghost use Rattle.wave_expected.specs.Expected.{or_joined};
ghost use Rattle.wave_type_explain.specs.Expected.{sample, followed, class_word, is_general, is_reported, reported, expected_words, IsSpelled, MayFollow, Tells, IsExpected, IsExpectedAt};
ghost use Rattle.wave_type_explain.specs.declared.expected.Reading.TheVariants.{ValueType, FunctionType};
ghost use Rattle.wave_type_explain.specs.Private.Refusals.{IsRefusedBy};

use std::alloc::{AllocError, Global};
use wave_place::explain::marked_of;
use wave_type::error::TypeErrorKind;
use wave_type::func::FuncType;
use wave_type::ty::Type;

/// What a text is to spell.
#[derive(Clone, Copy, Debug, PartialEq, Eq, Drop)]
pub enum Reading {
    /// A type.
    ValueType,
    /// The type of a function.
    FunctionType,
}

/// What may stand at a place.
#[derive(Clone, Copy, Debug, PartialEq, Eq, Drop)]
pub enum Class {
    /// Any type.
    AnyType,
    /// A name that doesn't stand before.
    Name,
    /// The type of a map's keys, or a word of such a type as a name.
    KeyType,
    /// The count of items of a list.
    Count,
    /// The word `func`, also as a name.
    Func,
    /// `_`, for a payload of a result.
    Blank,
    /// `{`
    BraceOpen,
    /// `(`
    ParenOpen,
    /// `<`
    AngleOpen,
    /// `->`
    Arrow,
    /// `:`
    Colon,
    /// `,`
    Comma,
    /// `)`
    ParenClose,
    /// `>`
    AngleClose,
    /// `}`
    BraceClose,
}

/// All classes.
const CLASSES: [Class; 15] = [
    Class::AnyType,
    Class::Name,
    Class::KeyType,
    Class::Count,
    Class::Func,
    Class::Blank,
    Class::BraceOpen,
    Class::ParenOpen,
    Class::AngleOpen,
    Class::Arrow,
    Class::Colon,
    Class::Comma,
    Class::ParenClose,
    Class::AngleClose,
    Class::BraceClose,
];

/// How many types may stand one inside another where a class is tried.
const LEVELS: u32 = 1000;

/// What may stand at a place of a text.
#[derive(Drop)]
pub struct Expected {
    /// The classes that may stand there, in the order of their variants.
    pub classes: Vec<Class>,
    /// Whether the text may end there: what stands before is whole.
    pub may_end: bool,
}

impl Expected {
    /// Whether one of these classes is reported.
    pub(crate) fn reports_one(&self, classes: &[Class]) -> bool {
        let general = has_general(&self.classes);
        for class in classes {
            if self.classes.contains(class) && is_reported(general, *class) {
                return true;
            }
        }
        false
    }

    /// What may stand there, for people: `',' or '>'`; `a name or '}'`, where a name may, of which no word
    /// is reported; `the end`, where the text may end; `nothing`, where the text before begins no type.
    pub fn words(&self, alloc: Global) -> Result<String, AllocError>
        ensures { IfOk result (λ text. string_bytes text ≡ expected_words self.now.classes.items self.now.may_end) }
    {
        let mut words = reported_words(alloc, &self.classes)?;
        add_end(&mut words, self.may_end)?;
        or_joined(alloc, words.as_slice())
    }
}

/// The words of the classes that are reported.
fn reported_words(alloc: Global, classes: &[Class]) -> Result<Vec<&'static str>, AllocError>
    ensures { IfOk result (λ words. texts words.items ≡ map class_word (reported classes.now)) }
{
    let general = has_general(classes);
    let mut words = Vec::new(alloc);
    for class in classes {
        if is_reported(general, *class) {
            words.push(class_word(*class))?;
        }
    }
    Ok(words)
}

/// Adds that the text may end there.
fn add_end(words: &mut Vec<&'static str>, may_end: bool) -> Result<(), AllocError>
    ensures { IfOk result (λ _. texts words.new.items ≡ texts words.old.items ++ (if may_end then codes "the end" ∷ [] else [])) }
{
    if may_end {
        words.push("the end")?;
    }
    Ok(())
}

/// The words, with `or` before the last and a comma before each other one; `nothing` for none.
fn or_joined(alloc: Global, words: &[&str]) -> Result<String, AllocError>
    ensures { IfOk result (λ text. string_bytes text ≡ or_joined (texts words.now)) }
{
    let mut text = String::new(alloc);
    if words.is_empty() {
        text.push_str("nothing")?;
        return Ok(text);
    }
    text.push_str(words[0])?;
    for index in 1..words.len() {
        let separator = if index + 1 == words.len() {
            " or "
        } else {
            ", "
        };
        text.push_str(separator)?;
        text.push_str(words[index])?;
    }
    Ok(text)
}

/// Whether any type or any name is among the classes.
fn has_general(classes: &[Class]) -> bool
    ensures { result ≡ list_any is_general classes.now }
{
    for class in classes {
        if is_general(*class) {
            return true;
        }
    }
    false
}

/// Whether the class is any type or any name.
fn is_general(class: Class) -> bool
    ensures { result ≡ is_general class }
{
    matches!(class, Class::AnyType | Class::Name)
}

/// Whether the class is reported: words are not beside any type or any name.
fn is_reported(general: bool, class: Class) -> bool
    ensures { result ≡ is_reported general class }
{
    match class {
        Class::KeyType | Class::Func => !general,
        _ => true,
    }
}

/// How a class is named to people.
fn class_word(class: Class) -> &'static str
    ensures { result.now ≡ class_word class }
{
    match class {
        Class::AnyType => "a type",
        Class::Name => "a name",
        Class::KeyType => "bool, char, string, s8 to s64 or u8 to u64",
        Class::Count => "a count",
        Class::Func => "'func'",
        Class::Blank => "'_'",
        Class::BraceOpen => "'{'",
        Class::ParenOpen => "'('",
        Class::AngleOpen => "'<'",
        Class::Arrow => "'->'",
        Class::Colon => "':'",
        Class::Comma => "','",
        Class::ParenClose => "')'",
        Class::AngleClose => "'>'",
        Class::BraceClose => "'}'",
    }
}

/// The text by which a class is tried, but for names.
fn sample(class: Class) -> &'static str
    ensures { result.now ≡ sample class }
{
    match class {
        Class::AnyType => "list<",
        Class::Name => "",
        Class::KeyType => "bool",
        Class::Count => "0",
        Class::Func => "func",
        Class::Blank => "_",
        Class::BraceOpen => "{",
        Class::ParenOpen => "(",
        Class::AngleOpen => "<",
        Class::Arrow => "->",
        Class::Colon => ":",
        Class::Comma => ",",
        Class::ParenClose => ")",
        Class::AngleClose => ">",
        Class::BraceClose => "}",
    }
}

/// The text, and on the next line one of the class; as a name one that is longer than the text, which so
/// doesn't have it.
fn followed(alloc: Global, before: &str, class: Class) -> Result<String, AllocError>
    ensures { IfOk result (λ text. string_bytes text ≡ followed before.now class) }
{
    let mut text = String::from_str(alloc, before)?;
    text.push_str("\n")?;
    if let Class::Name = class {
        let name = "a".repeat(alloc, text.len())?;
        text.push_str(name.as_str())?;
        return Ok(text);
    }
    text.push_str(sample(class))?;
    Ok(text)
}

/// Why the text is refused as no type; none where it spells one.
fn type_refusal(alloc: Global, text: &str) -> Option<TypeErrorKind>
    ensures { IsRefusedBy ValueType 1000 text.now result }
{
    match Type::parse_within(alloc, text, LEVELS) {
        Ok(_) => None,
        Err(error) => Some(error.kind()),
    }
}

/// Why the text is refused as no type of a function; none where it spells one.
fn function_refusal(alloc: Global, text: &str) -> Option<TypeErrorKind>
    ensures { IsRefusedBy FunctionType 1000 text.now result }
{
    match FuncType::parse_within(alloc, text, LEVELS) {
        Ok(_) => None,
        Err(error) => Some(error.kind()),
    }
}

/// Why the text is refused that is to spell this; none where it does.
fn refusal(alloc: Global, text: &str, reading: Reading) -> Option<TypeErrorKind>
    ensures { IsRefusedBy reading 1000 text.now result }
{
    match reading {
        Reading::ValueType => type_refusal(alloc, text),
        Reading::FunctionType => function_refusal(alloc, text),
    }
}

/// Whether one of the class may stand after the text.
fn may_follow(
    alloc: Global,
    before: &str,
    class: Class,
    reading: Reading,
) -> Result<bool, AllocError>
    ensures { IfOk result (λ may. Tells may (λ n. MayFollow reading n before.now class)) }
{
    let text = followed(alloc, before, class)?;
    match refusal(alloc, text.as_str(), reading) {
        None => Ok(true),
        Some(kind) => match kind {
            TypeErrorKind::UnexpectedEnd => Ok(true),
            TypeErrorKind::OutOfMemory => Err(AllocError),
            _ => Ok(false),
        },
    }
}

/// Whether the text is whole.
fn may_end(alloc: Global, before: &str, reading: Reading) -> Result<bool, AllocError>
    ensures { IfOk result (λ may. Tells may (λ n. IsSpelled reading n before.now)) }
{
    match refusal(alloc, before, reading) {
        None => Ok(true),
        Some(TypeErrorKind::OutOfMemory) => Err(AllocError),
        Some(_) => Ok(false),
    }
}

/// What may stand after the text.
fn expected_after(alloc: Global, before: &str, reading: Reading) -> Result<Expected, AllocError>
    ensures { IfOk result (IsExpected reading before.now) }
{
    let mut classes = Vec::new(alloc);
    for class in CLASSES {
        let may = may_follow(alloc, before, class, reading)?;
        if may {
            classes.push(class)?;
        }
    }
    let may_end = may_end(alloc, before, reading)?;
    Ok(Expected { classes, may_end })
}

/// What may stand at the byte place `at` of the text: after the tokens before it. Each class is tried by one text,
/// in place of what stands there: any type by the beginning of a list, a name by one that stands nowhere
/// before, the type of keys by `bool`, and a count by `0`. Each that is answered begins a type there; of at
/// most a thousand levels, none is left out.
pub fn expected_at(
    alloc: Global,
    text: &str,
    at: usize,
    reading: Reading,
) -> Result<Expected, AllocError>
    ensures { IfOk result (IsExpectedAt reading text.now at) }
{
    expected_after(alloc, marked_of(text, at), reading)
}
