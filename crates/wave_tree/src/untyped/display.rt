//! The text of what was read without a type.
ghost use Rattle.std.specs.Prelude.{◌≡◌, ◌++◌, All, Some, map, codes};
ghost use Rattle.std.specs.Fmt.{WritesOnOk, DisplaysOnOk};
ghost use Rattle.wave_wasm.specs.Commas.{joined, behind_name, in_parens, in_braces, enclosed};
ghost use Rattle.wave_wasm.specs.Keywords.{case_label};
ghost use Rattle.wave_grammar.specs.NodeTree.{type_of};
ghost use Rattle.wave_grammar.specs.Nodes.{IsParsedFrom};
ghost use Rattle.wave_grammar.specs.TypedReading.{IsValueOf};
ghost use Rattle.wave_grammar.specs.NodeAccessors.{node_text};
ghost use Rattle.wave_tree.specs.DisplayKeeps.{IsKeptByDisplay};
ghost use Rattle.wave_tree.specs.NodeDisplay.{display_at};
ghost use Rattle.wave_tree.specs.Private.NodeDisplay.{name_at, entries_at, braces_at, payload_at, AreEntriesOf};

use crate::untyped::UntypedValue;
use std::fmt;
use wave_grammar::label::label_name;
use wave_node::ast::{Node, NodeType, make};
use wave_wasm::keyword::Keyword;

impl fmt::Display for UntypedValue<'_> {
    ghost use Rattle.std.specs.Prelude.{Some};
    ghost use Rattle.wave_tree.specs.NodeDisplay.{display_at};

    ghost output = { λ u. Some (display_at u.source u.node) };

    fn fmt<W: fmt::Write>(&self, f: &mut fmt::Formatter<W>) -> fmt::Result
        ensures writes { DisplaysOnOk W.write_str_gives f.old result (Some (display_at self.now.source self.now.node)) f.new }
        ensures kept { IsKeptByDisplay self.now.source self.now.node (display_at self.now.source self.now.node) }
    {
        let node = self.node();
        write_node(f, node, self.source())
    }
}

/// Writes a value.
#[cycle(display)]
pub(crate) fn write_node<W: fmt::Write>(
    f: &mut fmt::Formatter<W>,
    node: &Node,
    src: &str,
) -> fmt::Result
    requires { IsValueOf src.now node.now }
    ensures { WritesOnOk W.write_str_gives f.old result (display_at src.now node.now) f.new }
{
    match node.ty() {
        NodeType::BoolTrue => f.write_str("true"),
        NodeType::BoolFalse => f.write_str("false"),
        NodeType::Number
        | NodeType::Char
        | NodeType::String
        | NodeType::MultilineString
        | NodeType::Label => f.write_str(make::slice(node, src)),
        NodeType::Tuple => write_listed(f, "(", make::nodes(node), ")", src),
        NodeType::List => write_listed(f, "[", make::nodes(node), "]", src),
        NodeType::TupleSet => write_fields(f, make::nodes(node), src),
        NodeType::EmptySet => f.write_str("{}"),
        NodeType::VariantWithPayload => write_case(f, node, src),
        NodeType::OptionSome => write_payload(f, "some", make::nodes(node), src),
        NodeType::OptionNone => f.write_str("none"),
        NodeType::ResultOk => write_payload(f, "ok", make::nodes(node), src),
        NodeType::ResultErr => write_payload(f, "err", make::nodes(node), src),
        NodeType::Flags => write_flags(f, make::nodes(node), src),
    }
}

/// Writes the values with commas between, from a start to an end.
#[cycle(display)]
fn write_listed<W: fmt::Write>(
    f: &mut fmt::Formatter<W>,
    start: &str,
    nodes: &[Node],
    end: &str,
    src: &str,
) -> fmt::Result
    requires { All (IsValueOf src.now) nodes.now }
    ensures { WritesOnOk W.write_str_gives f.old result (enclosed start.now (map (display_at src.now) nodes.now) end.now) f.new }
{
    f.write_str(start)?;
    write_items(f, nodes, src)?;
    f.write_str(end)
}

/// Writes the values with commas between.
#[cycle(display)]
fn write_items<W: fmt::Write>(f: &mut fmt::Formatter<W>, nodes: &[Node], src: &str) -> fmt::Result
    requires { All (IsValueOf src.now) nodes.now }
    ensures { WritesOnOk W.write_str_gives f.old result (joined (map (display_at src.now) nodes.now)) f.new }
{
    let mut separator = "";
    for node in nodes {
        f.write_str(separator)?;
        write_node(f, node, src)?;
        separator = ", ";
    }
    Ok(())
}

/// Writes the keys and their values in braces, or `{:}`.
#[cycle(display)]
fn write_fields<W: fmt::Write>(f: &mut fmt::Formatter<W>, nodes: &[Node], src: &str) -> fmt::Result
    requires { AreEntriesOf src.now nodes.now }
    ensures { WritesOnOk W.write_str_gives f.old result (braces_at src.now nodes.now) f.new }
{
    if nodes.is_empty() {
        return f.write_str("{:}");
    }
    f.write_str("{")?;
    write_entries(f, nodes, src)?;
    f.write_str("}")
}

/// Writes the keys and their values with commas between.
#[cycle(display)]
fn write_entries<W: fmt::Write>(f: &mut fmt::Formatter<W>, nodes: &[Node], src: &str) -> fmt::Result
    requires { AreEntriesOf src.now nodes.now }
    ensures { WritesOnOk W.write_str_gives f.old result (joined (entries_at src.now nodes.now)) f.new }
{
    let mut separator = "";
    let mut i = 0;
    while i < nodes.len() {
        f.write_str(separator)?;
        write_entry(f, &nodes[i], &nodes[i + 1], src)?;
        separator = ", ";
        i += 2;
    }
    Ok(())
}

/// Writes a key and its value.
#[cycle(display)]
fn write_entry<W: fmt::Write>(
    f: &mut fmt::Formatter<W>,
    key: &Node,
    value: &Node,
    src: &str,
) -> fmt::Result
    requires key { IsParsedFrom src.now key.now }
    requires value { IsValueOf src.now value.now }
    ensures { WritesOnOk W.write_str_gives f.old result (behind_name (node_text src.now key.now) (display_at src.now value.now)) f.new }
{
    f.write_str(make::slice(key, src))?;
    f.write_str(": ")?;
    write_node(f, value, src)
}

/// Writes the word, and the payload in parentheses where there is one.
#[cycle(display)]
fn write_payload<W: fmt::Write>(
    f: &mut fmt::Formatter<W>,
    word: &str,
    nodes: &[Node],
    src: &str,
) -> fmt::Result
    requires { All (IsValueOf src.now) nodes.now }
    ensures { WritesOnOk W.write_str_gives f.old result (word.now ++ payload_at src.now nodes.now) f.new }
{
    f.write_str(word)?;
    if nodes.is_empty() {
        return Ok(());
    }
    f.write_str("(")?;
    write_node(f, &nodes[0], src)?;
    f.write_str(")")
}

/// Writes a case with its payload.
#[cycle(display)]
fn write_case<W: fmt::Write>(f: &mut fmt::Formatter<W>, node: &Node, src: &str) -> fmt::Result
    requires value { IsValueOf src.now node.now }
    requires ty { type_of node.now ≡ NodeType.VariantWithPayload }
    ensures { WritesOnOk W.write_str_gives f.old result (display_at src.now node.now) f.new }
{
    let nodes = make::nodes(node);
    let label = &nodes[0];
    let payload = &nodes[1];
    write_label(f, label_name(make::slice(label, src)))?;
    f.write_str("(")?;
    write_node(f, payload, src)?;
    f.write_str(")")
}

/// Writes the name of a case, after a `%` where it is a keyword.
fn write_label<W: fmt::Write>(f: &mut fmt::Formatter<W>, name: &str) -> fmt::Result
    ensures { WritesOnOk W.write_str_gives f.old result (case_label name.now) f.new }
{
    match Keyword::decode(name) {
        Some(_) => {
            f.write_str("%")?;
            f.write_str(name)
        }
        None => f.write_str(name),
    }
}

/// Writes the names of flags in braces.
fn write_flags<W: fmt::Write>(f: &mut fmt::Formatter<W>, nodes: &[Node], src: &str) -> fmt::Result
    requires { All (IsParsedFrom src.now) nodes.now }
    ensures { WritesOnOk W.write_str_gives f.old result (in_braces (joined (map (name_at src.now) nodes.now))) f.new }
{
    f.write_str("{")?;
    write_names(f, nodes, src)?;
    f.write_str("}")
}

/// Writes the names of flags with commas between.
fn write_names<W: fmt::Write>(f: &mut fmt::Formatter<W>, nodes: &[Node], src: &str) -> fmt::Result
    requires { All (IsParsedFrom src.now) nodes.now }
    ensures { WritesOnOk W.write_str_gives f.old result (joined (map (name_at src.now) nodes.now)) f.new }
{
    let mut separator = "";
    for node in nodes {
        f.write_str(separator)?;
        f.write_str(label_name(make::slice(node, src)))?;
        separator = ", ";
    }
    Ok(())
}
