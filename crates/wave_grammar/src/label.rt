//! Labels of names.
ghost use Rattle.std.specs.Prelude.{◌≡◌};
ghost use Rattle.wave_grammar.specs.LeafTokens.{name_of};

/// A label without its `%`.
pub fn label_name(text: &str) -> &str
    ensures { result.now ≡ name_of text.now }
{
    let bytes = text.as_bytes();
    if bytes.is_empty() || bytes[0] != b'%' {
        return text;
    }
    &text[1..]
}
