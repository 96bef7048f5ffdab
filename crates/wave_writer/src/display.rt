//! Values as text.
ghost use Rattle.std.specs.Prelude.{◌≡◌, List, OnOk, Some, true, map};
ghost use Rattle.std.specs.Fmt.{DisplaysOnOk};
ghost use Rattle.std.specs.List.{list_all};
ghost use Rattle.wave_wasm.specs.Borrowed.{denoted_all};
ghost use Rattle.wave_wasm.specs.Text.{text, has_text, arguments_text, results_text};

use crate::writer::{arguments_to_string, results_to_string, to_string};
use std::alloc::Global;
use std::fmt;
use std::marker::Model;
use wave_wasm::wasm::WasmValue;

/// Shows a value as its canonical text. It fails where the formatter fails, memory is refused or
/// the value has no text.
#[derive(Clone, Drop)]
pub struct DisplayValue<'a, V: WasmValue> {
    alloc: Global,
    val: &'a V,
}

impl<'a, V: WasmValue> Model for DisplayValue<'a, V> {
    ghost Value = { V };

    ghost view = { λ d. d.val.now };
}

impl<'a, V: WasmValue> DisplayValue<'a, V> {
    /// Shows `val`.
    pub fn new(alloc: Global, val: &'a V) -> DisplayValue<'a, V>
        ensures { result ≡ val.entry.now }
    {
        DisplayValue { alloc, val }
    }
}

impl<V: WasmValue> fmt::Display for DisplayValue<'_, V> {
    ghost output = { λ d. Some (text (V.tree d)) };

    fn fmt<W: fmt::Write>(&self, f: &mut fmt::Formatter<W>) -> fmt::Result
        ensures writes { DisplaysOnOk W.write_str_gives f.old result (Some (text (V.tree self.now))) f.new }
        ensures writable { OnOk result (has_text (V.tree self.now) ≡ true) }
    {
        match to_string(self.alloc, self.val) {
            Ok(text) => f.write_str(text.as_str()),
            Err(_) => Err(fmt::Error),
        }
    }
}

/// Shows the arguments of a call: `(v, w)`. It fails where the formatter fails, memory is refused
/// or an argument has no text.
#[derive(Clone, Drop)]
pub struct DisplayFuncArgs<'a, V: WasmValue> {
    alloc: Global,
    vals: &'a [V],
}

impl<'a, V: WasmValue> Model for DisplayFuncArgs<'a, V> {
    ghost Value = { List V };

    ghost view = { λ d. d.vals.now };
}

impl<'a, V: WasmValue> DisplayFuncArgs<'a, V> {
    /// Shows `vals`.
    pub fn new(alloc: Global, vals: &'a [V]) -> DisplayFuncArgs<'a, V>
        ensures { result ≡ vals.entry.now }
    {
        DisplayFuncArgs { alloc, vals }
    }
}

impl<V: WasmValue> fmt::Display for DisplayFuncArgs<'_, V> {
    ghost output = { λ d. Some (arguments_text (map V.tree d)) };

    fn fmt<W: fmt::Write>(&self, f: &mut fmt::Formatter<W>) -> fmt::Result
        ensures writes { DisplaysOnOk W.write_str_gives f.old result (Some (arguments_text (map V.tree self.now))) f.new }
        ensures writable { OnOk result (list_all has_text (map V.tree self.now) ≡ true) }
    {
        match arguments_to_string(self.alloc, self.vals) {
            Ok(text) => f.write_str(text.as_str()),
            Err(_) => Err(fmt::Error),
        }
    }
}

/// Shows the results of a call: one as it is, else `(v, w)`. It fails where the formatter fails,
/// memory is refused or a result has no text.
#[derive(Clone, Drop)]
pub struct DisplayFuncResults<'a, V: WasmValue> {
    alloc: Global,
    vals: &'a [V],
}

impl<'a, V: WasmValue> Model for DisplayFuncResults<'a, V> {
    ghost Value = { List V };

    ghost view = { λ d. d.vals.now };
}

impl<'a, V: WasmValue> DisplayFuncResults<'a, V> {
    /// Shows `vals`.
    pub fn new(alloc: Global, vals: &'a [V]) -> DisplayFuncResults<'a, V>
        ensures { result ≡ vals.entry.now }
    {
        DisplayFuncResults { alloc, vals }
    }
}

impl<V: WasmValue> fmt::Display for DisplayFuncResults<'_, V> {
    ghost output = { λ d. Some (results_text (map V.tree d)) };

    fn fmt<W: fmt::Write>(&self, f: &mut fmt::Formatter<W>) -> fmt::Result
        ensures writes { DisplaysOnOk W.write_str_gives f.old result (Some (results_text (map V.tree self.now))) f.new }
        ensures writable { OnOk result (list_all has_text (map V.tree self.now) ≡ true) }
    {
        match results_to_string(self.alloc, self.vals) {
            Ok(text) => f.write_str(text.as_str()),
            Err(_) => Err(fmt::Error),
        }
    }
}
