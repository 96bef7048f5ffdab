//! The words that are no names where they stand without `%`.
use std::fmt;

/// A word of the text that is no name unless a `%` stands before it.
#[derive(Clone, Copy, Debug, PartialEq, Eq)]
pub enum Keyword {
    /// `true`
    True,
    /// `false`
    False,
    /// `some`
    Some,
    /// `none`
    None,
    /// `ok`
    Ok,
    /// `err`
    Err,
    /// `inf`
    Inf,
    /// `nan`
    Nan,
}

impl Keyword {
    ghost use Rattle.std.specs.Prelude.{◌≡◌};
    ghost use Rattle.wave_wasm.specs.Keywords.{DecodesTo, keyword_text};

    /// The keyword whose word the label is, if it is one.
    pub fn decode(raw_label: &str) -> Option<Keyword>
        ensures { DecodesTo raw_label.now result }
    {
        match raw_label.len() {
            2 | 4 | 5 => match raw_label {
                "true" => Some(Keyword::True),
                "false" => Some(Keyword::False),
                "some" => Some(Keyword::Some),
                "none" => Some(Keyword::None),
                "ok" => Some(Keyword::Ok),
                _ => None,
            },
            3 => match raw_label {
                "err" => Some(Keyword::Err),
                "inf" => Some(Keyword::Inf),
                "nan" => Some(Keyword::Nan),
                _ => None,
            },
            _ => None,
        }
    }

    fn word(self) -> &'static str
        ensures { result.now ≡ keyword_text self }
    {
        match self {
            Keyword::True => "true",
            Keyword::False => "false",
            Keyword::Some => "some",
            Keyword::None => "none",
            Keyword::Ok => "ok",
            Keyword::Err => "err",
            Keyword::Inf => "inf",
            Keyword::Nan => "nan",
        }
    }
}

impl fmt::Display for Keyword {
    ghost use Rattle.std.specs.Prelude.{Some};
    ghost use Rattle.wave_wasm.specs.Keywords.{keyword_text};

    ghost output = { λ keyword. Some (keyword_text keyword) };

    fn fmt<W: fmt::Write>(&self, f: &mut fmt::Formatter<W>) -> fmt::Result {
        f.write_str(self.word())
    }
}
