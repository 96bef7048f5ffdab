//! A room on the stack for short texts, so that many are written at once.
ghost use Rattle.std.specs.Prelude.{◌≡◌, ◌≤◌, ◌+◌, ◌-◌, ◌++◌, IfErr, IsUtf8, OnOk, [], codes, drop, length, take, true};
ghost use Rattle.wave_writer.specs.WriterState.{Refused};
ghost use Rattle.wave_wasm.specs.CommaParts.{comma_if};
ghost use Rattle.wave_writer.specs.Private.WriterState.{Gathers};

use crate::writer::{TextWrite, WriterError};
use std::marker::Model;

/// How many bytes a room has.
pub const ROOM: usize = 368;

/// Puts the bytes into the room from `start` on. From 4 to 32 are put as two parts of a fixed length, which
/// may overlap: that takes no call.
#[inline(always)]
pub fn put_bytes(bytes: &[u8], room: &mut [u8; ROOM], start: usize)
    requires { start + length bytes.now ≤ 368 }
    ensures before { take start room.new ≡ take start room.old }
    ensures put { drop start room.new ≡ bytes.now ++ drop (start + length bytes.now) room.old }
{
    let len = bytes.len();
    if len <= 16 {
        if len >= 8 {
            put_ends::<8>(bytes, room, start)
        } else if len >= 4 {
            put_ends::<4>(bytes, room, start)
        } else {
            put_run(bytes, room, start)
        }
    } else if len <= 32 {
        put_ends::<16>(bytes, room, start)
    } else {
        put_run(bytes, room, start)
    }
}

/// So the first `K` of them and the last `K`, which are all. Both are read before, so that nothing asks
/// whether the room lies over them.
#[inline(always)]
fn put_ends<const K: usize>(bytes: &[u8], room: &mut [u8; ROOM], start: usize)
    requires fit { start + length bytes.now ≤ 368 }
    requires all { (K ≤ length bytes.now) × (length bytes.now ≤ K + K) }
    ensures before { take start room.new ≡ take start room.old }
    ensures put { drop start room.new ≡ bytes.now ++ drop (start + length bytes.now) room.old }
{
    let rest = bytes.len() - K;
    let first = part_of::<K>(bytes, 0);
    let last = part_of::<K>(bytes, rest);
    put_run(&first, room, start);
    put_run(&last, room, start + rest);
}

/// The `K` bytes from `start` on.
#[inline(always)]
fn part_of<const K: usize>(bytes: &[u8], start: usize) -> [u8; K]
    requires { start + K ≤ length bytes.now }
    ensures { result ≡ take K (drop start bytes.now) }
{
    let mut part = [0; K];
    part.copy_from_slice(&bytes[start..start + K]);
    part
}

/// So all of them at once.
#[inline(always)]
fn put_run(bytes: &[u8], room: &mut [u8; ROOM], start: usize)
    requires { start + length bytes.now ≤ 368 }
    ensures before { take start room.new ≡ take start room.old }
    ensures put { drop start room.new ≡ bytes.now ++ drop (start + length bytes.now) room.old }
{
    room[start..start + bytes.len()].copy_from_slice(bytes);
}

/// The text in the room from `start` up to `end`.
#[inline(always)]
pub fn text_in(room: &[u8; ROOM], start: usize, end: usize) -> &str
    requires within { (start ≤ end) × (end ≤ 368) }
    requires utf8 { IsUtf8 (take (end - start) (drop start room.now)) }
    ensures { result.now ≡ take (end - start) (drop start room.now) }
{
    unsafe { str::from_utf8_unchecked(&room[start..end]) }
}

/// A text that is gathered before it is written.
#[derive(Drop)]
pub struct Gathered {
    room: [u8; ROOM],
    end: usize,
}

impl Model for Gathered {
    ghost use Rattle.std.specs.Prelude.{◌≤◌, IsUtf8, List, take, ℕ};

    ghost Value = { List ℕ };

    ghost view = { λ g. take g.end g.room };

    ghost invariant = { λ g. (g.end ≤ 368) × ∥ IsUtf8 (take g.end g.room) ∥₁ };
}

impl Gathered {
    pub fn new() -> Gathered
        ensures { result ≡ [] }
    {
        Gathered {
            room: [0; ROOM],
            end: 0,
        }
    }

    /// The text that is gathered.
    pub fn as_str(&self) -> &str
        ensures { result.now ≡ self.now }
    {
        text_in(&self.room, 0, self.end)
    }

    /// Gathers a text behind the others, which are written where there is no room for it.
    #[inline(always)]
    pub fn gather<W: TextWrite>(&mut self, out: &mut W, text: &str) -> Result<(), WriterError>
        ensures ok { OnOk result (Gathers self.old text.now self.new (W.output out.old) (W.output out.new)) }
        ensures err { IfErr result (λ e. Refused (self.old ++ text.now) true e (W.output out.old) (W.output out.new)) }
    {
        if text.len() > ROOM - self.end {
            return self.write_first(out, text);
        }
        self.put(text);
        Ok(())
    }

    /// So an item, behind a comma where it is a later one.
    #[inline(always)]
    pub fn gather_item<W: TextWrite>(
        &mut self,
        out: &mut W,
        later: bool,
        text: &str,
    ) -> Result<(), WriterError>
        ensures ok { OnOk result (Gathers self.old (comma_if later ++ text.now) self.new (W.output out.old) (W.output out.new)) }
        ensures err { IfErr result (λ e. Refused (self.old ++ (comma_if later ++ text.now)) true e (W.output out.old) (W.output out.new)) }
    {
        if !later {
            return self.gather(out, text);
        }
        if text.len() + 2 > ROOM - self.end {
            return self.gather_later(out, text);
        }
        self.put_later(text);
        Ok(())
    }

    /// Gathers a comma and a text, for which there may be no room.
    #[inline(never)]
    fn gather_later<W: TextWrite>(&mut self, out: &mut W, text: &str) -> Result<(), WriterError>
        ensures ok { OnOk result (Gathers self.old (codes ", " ++ text.now) self.new (W.output out.old) (W.output out.new)) }
        ensures err { IfErr result (λ e. Refused (self.old ++ (codes ", " ++ text.now)) true e (W.output out.old) (W.output out.new)) }
    {
        self.gather(out, ", ")?;
        self.gather(out, text)
    }

    /// Writes the texts that are gathered, and then gathers a text, or writes it where it is too long.
    #[inline(never)]
    fn write_first<W: TextWrite>(&mut self, out: &mut W, text: &str) -> Result<(), WriterError>
        ensures ok { OnOk result (Gathers self.old text.now self.new (W.output out.old) (W.output out.new)) }
        ensures err { IfErr result (λ e. Refused (self.old ++ text.now) true e (W.output out.old) (W.output out.new)) }
    {
        out.write_str(self.as_str())?;
        self.end = 0;
        if text.len() > ROOM {
            return out.write_str(text);
        }
        self.put(text);
        Ok(())
    }

    /// Puts a text behind the others, for which there is room.
    #[inline(always)]
    fn put(&mut self, text: &str)
        requires { length self.now + length text.now ≤ 368 }
        ensures { self.new ≡ self.old ++ text.now }
    {
        put_bytes(text.as_bytes(), &mut self.room, self.end);
        self.end += text.len();
    }

    /// So a comma and a text.
    #[inline(always)]
    fn put_later(&mut self, text: &str)
        requires { length self.now + length text.now + 2 ≤ 368 }
        ensures { self.new ≡ self.old ++ (codes ", " ++ text.now) }
    {
        let end = self.end;
        put_bytes(b", ", &mut self.room, end);
        put_bytes(text.as_bytes(), &mut self.room, end + 2);
        self.end = end + 2 + text.len();
    }
}
