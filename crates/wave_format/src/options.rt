//! What a layout depends on.
ghost use Rattle.std.specs.Prelude.{◌≡◌};

/// How wide lines may be, and how far they are indented. Where a line can't be as narrow, it is wider.
#[derive(Clone, Copy, Debug, PartialEq, Eq)]
pub struct FormatOptions {
    /// How many scalars a line may have.
    pub width: u32,
    /// How many blanks each step is indented by.
    pub indent: u32,
}

impl FormatOptions {
    /// Lines of at most 80 scalars, each step indented by two blanks.
    pub fn new() -> FormatOptions
        ensures width { result.width ≡ 80 }
        ensures indent { result.indent ≡ 2 }
    {
        FormatOptions {
            width: 80,
            indent: 2,
        }
    }
}
