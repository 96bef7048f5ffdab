//! The forms of nodes.

/// What a node spells.
#[derive(Clone, Copy, Debug, PartialEq, Eq)]
pub enum NodeType {
    /// `true`. No children.
    BoolTrue,
    /// `false`. No children.
    BoolFalse,
    /// A number, as `-1.5e3`, and `inf` and `nan` but as keys. No children.
    Number,
    /// A char, as `'a'`. No children.
    Char,
    /// A string on one line, as `"text"`. No children.
    String,
    /// A multiline string: `"""`, the lines of the text and `"""`. No children.
    MultilineString,
    /// A tuple, as `(a, b)`, and the parameters of a call. The children are its items, in the order
    /// of the source.
    Tuple,
    /// A list, as `[a, b]`. The children are its items, in the order of the source.
    List,
    /// The fields of a record or the entries of a map, as `{a: 1, b: 2}`, and `{:}`. The children
    /// are the first key, its value, the second key, its value and so on, in the order of the
    /// source. A key is a `Label`, `Number`, `Char`, `String` or `MultilineString`.
    TupleSet,
    /// `{}`: no flags, or a map without entries. No children.
    EmptySet,
    /// A name alone, as `name` or `%name`: a case, a key or a flag, and the name of a case with a
    /// payload. No children. `true` and the other keywords are labels only after a `%` and as keys
    /// and flags.
    Label,
    /// A case with a payload, as `name(value)`. The children are the name, a `Label`, and the
    /// payload.
    VariantWithPayload,
    /// `some(value)`. The only child is the payload.
    OptionSome,
    /// `none`. No children.
    OptionNone,
    /// `ok` or `ok(value)`. The only child is the payload, where there is one.
    ResultOk,
    /// `err` or `err(value)`. The only child is the payload, where there is one.
    ResultErr,
    /// Flags, as `{a, b}`; none are `{}`. The children are their names, each a `Label`, in the byte
    /// order of the names without their `%`.
    Flags,
}
