//! Calls on an untyped value, and the accessors of its node.
use wasm_wave::ast::{CowStr, Node, NodeType};
use wasm_wave::parser::ParserError;
use wasm_wave::untyped::UntypedValue;
use wave_test_values::answer::{Stopped, refused};
use wave_test_values::lexing::parts;

/// A call on the untyped value of the text.
pub fn on_untyped(rt: HostRuntime, name: &str, text: &str) -> Result<(), Stopped> {
    let value = UntypedValue::parse(rt.alloc(), text)?;
    let answer = match name {
        "as_str" => return text_of(rt, &value),
        "as_record" => return record(rt, &value),
        "iter_str" => parts(rt, value.node().iter_str(value.source())?),
        "lengths" => lengths(rt, &value),
        _ => accessed(rt, &value),
    };
    match answer {
        Err(Stopped::NotCalled) => Err(Stopped::OutOfMemory),
        answer => answer,
    }
}

/// Prints whether the text of `as_str` is borrowed or owned, and what it is.
fn text_of(rt: HostRuntime, value: &UntypedValue<'_>) -> Result<(), Stopped> {
    match value.node().as_str(rt.alloc(), value.source()) {
        Ok(CowStr::Borrowed(text)) => print!(rt; "borrowed {text}")?,
        Ok(CowStr::Owned(text)) => print!(rt; "owned {text}")?,
        Err(error) => refused(rt, &error)?,
    }
    Ok(())
}

/// Prints the names of `as_record`.
fn record(rt: HostRuntime, value: &UntypedValue<'_>) -> Result<(), Stopped> {
    match value.node().as_record(rt.alloc(), value.source()) {
        Ok(fields) => {
            for (name, _) in fields {
                print!(rt; "{name};")?;
            }
            Ok(())
        }
        Err(error) => refused(rt, &error),
    }
}

/// Prints the bounds of a `size_hint`, and the length after the first item.
fn counted(rt: HostRuntime, bounds: (usize, Option<usize>), further: usize) -> Result<(), Stopped> {
    match bounds {
        (least, Some(most)) => print!(rt; "{least} {most} {further}")?,
        _ => return Err(Stopped::NoCall),
    }
    Ok(())
}

/// Prints the bounds of how many names of flags the node iterates, how many are left behind the first, and the
/// first; or the same of fields, without the first, and in the next line of entries.
fn lengths(rt: HostRuntime, value: &UntypedValue<'_>) -> Result<(), Stopped> {
    let node = value.node();
    if node.ty() == NodeType::Flags {
        let mut names = node.as_flags(value.source())?;
        let bounds = names.size_hint();
        let first = names.next().unwrap_or("");
        counted(rt, bounds, names.len())?;
        print!(rt; " {first}")?;
        return Ok(());
    }
    let mut fields = node.as_record(rt.alloc(), value.source())?;
    let mut entries = node.as_map()?;
    let (of_fields, of_entries) = (fields.size_hint(), entries.size_hint());
    if fields.next().is_none() || entries.next().is_none() {
        return Err(Stopped::NoCall);
    }
    counted(rt, of_fields, fields.len())?;
    println!(rt; "")?;
    counted(rt, of_entries, entries.len())
}

/// Prints the word, and the span of the payload where there is one.
fn payload(rt: HostRuntime, name: &str, node: Option<&Node>) -> Result<(), Stopped> {
    print!(rt; "{name}")?;
    if let Some(node) = node {
        let span = node.span();
        print!(rt; " of {}..{}", span.start, span.end)?;
    }
    Ok(())
}

/// Prints the answer of the accessor of the node's form that takes no memory.
fn accessed(rt: HostRuntime, value: &UntypedValue<'_>) -> Result<(), Stopped> {
    let node = value.node();
    match node.ty() {
        NodeType::Label => Ok(print!(rt; "{}", node.as_enum(value.source())?)?),
        NodeType::VariantWithPayload => {
            let (name, val) = node.as_variant(value.source())?;
            payload(rt, name, val)
        }
        NodeType::OptionSome => payload(rt, "some", node.as_option()?),
        NodeType::OptionNone => payload(rt, "none", node.as_option()?),
        NodeType::ResultOk | NodeType::ResultErr => match node.as_result()? {
            Ok(val) => payload(rt, "ok", val),
            Err(val) => payload(rt, "err", val),
        },
        NodeType::Flags | NodeType::EmptySet => {
            for name in node.as_flags(value.source())? {
                print!(rt; "{name};")?;
            }
            Ok(())
        }
        _ => scalar(rt, value),
    }
}

/// Prints the answer of the accessor of a scalar's node, or the length of a list's.
fn scalar(rt: HostRuntime, value: &UntypedValue<'_>) -> Result<(), Stopped> {
    let node = value.node();
    match node.ty() {
        NodeType::BoolTrue | NodeType::BoolFalse => print!(rt; "{}", node.as_bool()?)?,
        NodeType::Number => print!(rt; "{}", node.as_number::<i64>(value.source())?)?,
        NodeType::Char => print!(rt; "{}", node.as_char(value.source())?)?,
        NodeType::Tuple => print!(rt; "{}", node.as_tuple()?.len())?,
        NodeType::List => print!(rt; "{}", node.as_list()?.len())?,
        NodeType::TupleSet => print!(rt; "{}", node.as_map()?.len())?,
        _ => return Err(Stopped::NoCall),
    }
    Ok(())
}
