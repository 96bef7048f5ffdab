// The lines of an input, which is read chunk by chunk.
ghost use Rattle.std.specs.Prelude.{◌≡◌, ◌≤◌, length};
ghost use Rattle.std.specs.Str.Lines.{strip_carriage_return};

use crate::input::{Input, RunError};
use memchr::memchr;
use std::alloc::{AllocError, Global};
use std::io::Read;

/// How many bytes are read at most by one call.
pub const CHUNK: usize = 65_536;

/// What was read of an input and not taken yet.
#[derive(Drop)]
pub struct Unread {
    chunk: [u8; CHUNK],
    start: usize,
    end: usize,
    ghost in_order: { start ≤ end },
    ghost in_chunk: { end ≤ 65536 },
    ghost has_room: { length chunk ≡ 65536 },
}

impl Unread {
    ghost use Rattle.std.specs.Prelude.{ℕ, List, [], ◌∷◌, ◌≢◌, ◌++◌, ◌+◌, true, false, take, drop, IfOk, IfErr, OnOk, MatchOption, MatchBool};
    ghost use Rattle.std.specs.Io.KnownBytes.{Consumes, IsAtEnd};
    ghost use Rattle.wave.specs.declared.input.RunError.TheVariants.{InputFailed};
    ghost use Rattle.wave.specs.Lines.{IsInOneLine};
    ghost use Rattle.wave.specs.Private.InputLines.{EndsFirstLine, left, IsCutOff, IsEndKnown, LosesPart, TakesLine, unread_bytes, most_lines};

    /// Nothing was read.
    pub fn new() -> Unread
        ensures { unread_bytes result ≡ [] }
    {
        Unread {
            chunk: [0; CHUNK],
            start: 0,
            end: 0,
        }
    }

    /// What was read and not taken yet.
    fn bytes(&self) -> &[u8]
        ensures { result.now ≡ unread_bytes self.now }
    {
        &self.chunk[self.start..self.end]
    }

    /// Where the first line feed stands in that; none where it has none.
    pub fn line_end(&self) -> Option<usize>
        ensures { MatchOption result (IsInOneLine (unread_bytes self.now)) (EndsFirstLine (unread_bytes self.now)) }
    {
        memchr(b'\n', self.bytes())
    }

    /// The line before this line feed, the first, without its end.
    pub fn line_before(&self, end: usize) -> &[u8]
        requires { end ≤ length (unread_bytes self.now) }
        ensures { result.now ≡ strip_carriage_return (take end (unread_bytes self.now)) }
    {
        let line = &self.bytes()[..end];
        if line.last() == Some(&b'\r') {
            &line[..end - 1]
        } else {
            line
        }
    }

    /// Takes the first bytes.
    pub fn skip(&mut self, count: usize)
        requires { count ≤ length (unread_bytes self.old) }
        ensures { unread_bytes self.new ≡ drop count (unread_bytes self.old) }
    {
        self.start += count;
    }

    /// Reads a chunk where all bytes were taken and the input has not ended. Whether there are bytes
    /// then.
    fn fill<R: Read>(&mut self, input: &mut Input<R>) -> Result<bool, RunError>
        requires { IsEndKnown R.remaining input.old }
        ensures kept { Consumes (left R.remaining input.old self.old) (left R.remaining input.new self.new) [] }
        ensures filled { IfOk result (λ is_filled. is_filled ≡ true → unread_bytes self.new ≢ []) }
        ensures ended { IfOk result (λ is_filled. is_filled ≡ false →
            (unread_bytes self.new ≡ []) × (input.new.has_ended ≡ true)) }
        ensures known { IsEndKnown R.remaining input.new }
        ensures went_well { OnOk result (input.new.failures ≡ input.old.failures) }
        ensures fault { IfErr result (IsCutOff input.old input.new) }
        ensures cut { IfErr result (λ fault. unread_bytes self.new ≡ []) }
        ensures counted { input.new.reads_left ≤ input.old.reads_left }
        ensures fewer { IfOk result (λ _. most_lines input.new self.new ≤ most_lines input.old self.old) }
    {
        if self.start < self.end {
            return Ok(true);
        }
        if input.has_ended() {
            return Ok(false);
        }
        if input.reads_left() == 0 {
            return Err(RunError::InputFailed);
        }
        self.start = 0;
        self.end = 0;
        self.end = input.read(&mut self.chunk)?;
        Ok(self.end > 0)
    }

    /// Moves the bytes up to a line feed to the end of the line and takes them with that; where there
    /// is none, all. Whether there was one.
    fn move_line(&mut self, line: &mut Vec<u8>) -> Result<bool, AllocError>
        ensures { IfOk result (λ is_whole. (part : List ℕ) × IsInOneLine part
            × (line.new.items ≡ line.old.items ++ part)
            × MatchBool is_whole
            (unread_bytes self.old ≡ part ++ 10 ∷ unread_bytes self.new)
            ((unread_bytes self.old ≡ part) × (unread_bytes self.new ≡ []))) }
    {
        let bytes = self.bytes();
        match self.line_end() {
            Some(end) => {
                line.extend_from_slice(&bytes[..end])?;
                self.skip(end + 1);
                Ok(true)
            }
            None => {
                let count = bytes.len();
                line.extend_from_slice(bytes)?;
                self.skip(count);
                Ok(false)
            }
        }
    }

    /// The next line without its end, LF or CR LF; none where the input has no more.
    pub fn next_line<R: Read>(
        &mut self,
        alloc: Global,
        input: &mut Input<R>,
    ) -> Result<Option<Vec<u8>>, RunError>
        requires { IsEndKnown R.remaining input.old }
        ensures line { IfOk result (λ found. MatchOption found
            (IsAtEnd (left R.remaining input.old self.old) × (input.new.has_ended ≡ true))
            (λ line. TakesLine (left R.remaining input.old self.old) (left R.remaining input.new self.new) line.items
            × (most_lines input.new self.new + 1 ≤ most_lines input.old self.old))) }
        ensures known { IsEndKnown R.remaining input.new }
        ensures went_well { OnOk result (input.new.failures ≡ input.old.failures) }
        ensures fault { IfErr result (IsCutOff input.old input.new) }
        ensures read { LosesPart (left R.remaining input.old self.old) (R.remaining input.new.reader) 65536 }
        ensures cut { IfErr result (λ fault. fault ≡ InputFailed →
            LosesPart (left R.remaining input.old self.old) (R.remaining input.new.reader) 0) }
        ensures counted { input.new.reads_left ≤ input.old.reads_left }
    {
        let mut line = Vec::new(alloc);
        'parts: while self.fill(input)? {
            if self.move_line(&mut line)? {
                return Ok(Some(without_return(line)));
            }
        }
        if line.is_empty() {
            Ok(None)
        } else {
            Ok(Some(line))
        }
    }
}

/// The line without a CR at its end.
fn without_return(line: Vec<u8>) -> Vec<u8>
    ensures { result.items ≡ strip_carriage_return line.items }
{
    let mut line = line;
    if line.as_slice().last() == Some(&b'\r') {
        drop(line.pop());
    }
    line
}
