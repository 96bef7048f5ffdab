//! A writer whose failures are counted.
ghost use Rattle.std.specs.Prelude.{[], ◌≡◌, ◌≢◌, ◌≤◌, ◌<◌, true, false, length, take};
ghost use Rattle.std.specs.Io.KnownBytes.{Appends};
ghost use Rattle.wave_files.specs.Counts.{CountsOne};
ghost use Rattle.wave_files.specs.Written.{WritesWhole, WritesLess, Prints};

use std::io::Write;

/// A writer, and how often a write to it failed, up to the greatest `u64`.
#[derive(Drop)]
pub struct Output<W> {
    /// The writer.
    pub writer: W,
    /// How often a write to it failed.
    pub failures: u64,
}

impl<W: Write> Output<W> {
    /// To the writer, to which no write has failed.
    pub fn new(writer: W) -> Output<W>
        ensures { result ≡ record { writer = writer; failures = 0 } }
    {
        Output {
            writer,
            failures: 0,
        }
    }

    /// Writes a beginning of the bytes, and answers how many. A write of some bytes that is refused, or
    /// takes none of them, is a failed one, and answers none. Where there are none, nothing is written.
    pub fn write(&mut self, bytes: &[u8]) -> usize
        ensures bound { result ≤ length bytes.now }
        ensures appended { Appends (W.contents self.old.writer) (W.contents self.new.writer) (take result bytes.now) }
        ensures failed { result ≡ 0 → bytes.now ≢ [] → CountsOne self.old.failures self.new.failures }
        ensures went_well { 0 < result → self.new.failures ≡ self.old.failures }
        ensures of_none { bytes.now ≡ [] → self.new ≡ self.old }
    {
        if bytes.is_empty() {
            return 0;
        }
        match self.writer.write(bytes) {
            Ok(count) if count > 0 => count,
            _ => {
                self.failures = self.failures.saturating_add(1);
                0
            }
        }
    }
}

/// Writes all of the bytes, or answers false where a write failed before all were written.
pub fn write_whole<W: Write>(output: &mut Output<W>, bytes: &[u8]) -> bool
    ensures whole { result ≡ true → WritesWhole W.contents output.old output.new bytes.now }
    ensures cut { result ≡ false → WritesLess W.contents output.old output.new bytes.now }
{
    let mut rest = bytes;
    while !rest.is_empty() {
        let count = output.write(rest);
        if count == 0 {
            return false;
        }
        rest = &rest[count..];
    }
    true
}

/// The status, or 3 where a write failed before all of the text was written.
pub fn print<W: Write>(output: &mut Output<W>, line: &str, status: u8) -> u8
    ensures { Prints W.contents output.old output.new line.now status result }
{
    if write_whole(output, line.as_bytes()) {
        status
    } else {
        3
    }
}

/// Writes the text, unless a write to the output failed before. Whether none failed.
pub fn write_unless_failed<W: Write>(output: &mut Output<W>, text: &str, goes_well: bool) -> bool
    ensures whole { goes_well ≡ true → result ≡ true → WritesWhole W.contents output.old output.new text.now }
    ensures cut { goes_well ≡ true → result ≡ false → WritesLess W.contents output.old output.new text.now }
    ensures none { goes_well ≡ false → (output.new ≡ output.old) × (result ≡ false) }
{
    goes_well && write_whole(output, text.as_bytes())
}
