//! The sets of bytes that runs of tokens and of whitespace are made of.
use std::simd::prelude::*;
use wave_wasm::byte_runs::ByteSet;

/// Spaces, tabs, line feeds and carriage returns.
pub(crate) struct Blanks;

impl ByteSet for Blanks {
    ghost use Rattle.wave_lex.specs.Private.Machines.{is_blank};

    ghost holds = { is_blank };

    #[inline(always)]
    fn others(bytes: u8x16) -> u64 {
        let spaces = bytes.simd_ne(u8x16::splat(b' ')) & bytes.simd_ne(u8x16::splat(b'\t'));
        let ends = bytes.simd_ne(u8x16::splat(b'\n')) & bytes.simd_ne(u8x16::splat(b'\r'));
        (spaces & ends).to_bitmask()
    }

    #[inline(always)]
    fn has(byte: u8) -> bool {
        matches!(byte, b' ' | b'\t' | b'\n' | b'\r')
    }
}

/// Digits.
pub(crate) struct Digits;

impl ByteSet for Digits {
    ghost use Rattle.wave_lex.specs.Machines.{is_digit};

    ghost holds = { is_digit };

    #[inline(always)]
    fn others(bytes: u8x16) -> u64 {
        (bytes - u8x16::splat(b'0'))
            .simd_gt(u8x16::splat(9))
            .to_bitmask()
    }

    #[inline(always)]
    fn has(byte: u8) -> bool {
        matches!(byte, b'0'..=b'9')
    }
}

/// Lower-case letters and digits.
pub(crate) struct Lowers;

impl ByteSet for Lowers {
    ghost use Rattle.wave_lex.specs.Machines.{is_lower};

    ghost holds = { is_lower };

    #[inline(always)]
    fn others(bytes: u8x16) -> u64 {
        let no_letters = (bytes - u8x16::splat(b'a')).simd_gt(u8x16::splat(25));
        let no_digits = (bytes - u8x16::splat(b'0')).simd_gt(u8x16::splat(9));
        (no_letters & no_digits).to_bitmask()
    }

    #[inline(always)]
    fn has(byte: u8) -> bool {
        matches!(byte, b'a'..=b'z' | b'0'..=b'9')
    }
}

/// Bytes that stand for themselves within a string in one line.
pub(crate) struct Plains;

impl ByteSet for Plains {
    ghost use Rattle.wave_lex.specs.Private.Machines.{is_plain};

    ghost holds = { is_plain };

    #[inline(always)]
    fn others(bytes: u8x16) -> u64 {
        let ends = bytes.simd_eq(u8x16::splat(b'"')) | bytes.simd_eq(u8x16::splat(b'\n'));
        (ends | bytes.simd_eq(u8x16::splat(b'\\'))).to_bitmask()
    }

    #[inline(always)]
    fn has(byte: u8) -> bool {
        !matches!(byte, b'"' | b'\n' | b'\\')
    }
}

/// All bytes but the backslash.
pub(crate) struct NoBackslashes;

impl ByteSet for NoBackslashes {
    ghost use Rattle.wave_lex.specs.Private.Runs.{is_no_backslash};

    ghost holds = { is_no_backslash };

    #[inline(always)]
    fn others(bytes: u8x16) -> u64 {
        bytes.simd_eq(u8x16::splat(b'\\')).to_bitmask()
    }

    #[inline(always)]
    fn has(byte: u8) -> bool {
        byte != b'\\'
    }
}
