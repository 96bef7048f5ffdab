//! Texts of values and calls, and values, laid out over lines.

pub use wave_format::{FormatOptions, format_call, format_text, to_string_pretty};
