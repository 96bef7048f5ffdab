//! The cases of the input: each is a `#`, a name, a space, the type or types, the end of the line, and
//! the text, which has no `#`.
use std::alloc::Global;
use wasm_wave::value::Type;

/// A text and what it is read at.
#[derive(Clone, Copy)]
pub(crate) struct Case<'a> {
    /// Its name.
    pub(crate) name: &'a str,
    /// The type of a value, or those of a call's parameters, with `;` between them.
    pub(crate) types: &'a str,
    /// The text.
    pub(crate) text: &'a str,
}

/// The case that stands after a `#`.
pub(crate) fn case_of(block: &str) -> Option<Case<'_>> {
    let (head, text) = block.split_once('\n')?;
    let (name, types) = head.split_once(' ')?;
    Some(Case { name, types, text })
}

/// The types of a call's parameters.
pub(crate) fn types_of(alloc: Global, texts: &str) -> anyhow::Result<Vec<Type>> {
    let mut types = Vec::new(alloc);
    for text in texts.split(';') {
        types.push(Type::parse(alloc, text)?)?;
    }
    Ok(types)
}
