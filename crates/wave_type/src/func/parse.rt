//! Types of functions from their texts.
ghost use Rattle.std.specs.Prelude.{◌≡◌, ◌≤◌, IfOk, IfErr, ◌∷◌, ◌++◌, [], map, codes};
ghost use Rattle.wave_lex.specs.Errors.{LiesInText};
ghost use Rattle.wave_wasm.specs.Borrowed.{named};
ghost use Rattle.wave_type.specs.FunctionSpelling.{SpellsFunction, IsFunctionOf, IsNoFunction, IsNoFunctionWithin, levels_of_function};
ghost use Rattle.wave_type.specs.Private.FunctionType.{named_function};
ghost use Rattle.wave_type.specs.DistinctLabels.{FunctionHasDistinctLabels};
ghost use Rattle.wave_type.specs.Private.FunctionReading.{params_read, result_parts_read, results_read, function_read};
ghost use Rattle.wave_type.specs.Private.TypeReading.{after, type_read};
ghost use Rattle.wave_type.specs.Private.TypeTokens.{Answers, IsRefusal};
ghost use Rattle.wave_type.specs.TypeFaults.{expected_of_function, mark_expected, last_expected, results_expected, result_expected, more_fields};
ghost use Rattle.wave_type.specs.TypeItems.{IsFunctionFault, IsFunctionFaultWithin};
ghost use Rattle.wave_type.specs.TypeModel.{by_bytes};

use super::FuncType;
use crate::error::{TypeError, TypeErrorKind};
use crate::reader::Reader;
use crate::tokens::tokens_of;
use crate::ty::Type;
use crate::ty::parse::{DEFAULT_LEVELS, refusal};
use std::alloc::{AllocError, Global};

impl FuncType {
    /// The type of a function that the text spells, in the form in which it is displayed: `func`, the
    /// parameters by their names and types in parentheses, and `->` with the type of the result, or
    /// with named results in parentheses, where there are results. All else is as in `Type::parse`.
    pub fn parse(alloc: Global, text: &str) -> Result<FuncType, TypeError>
        ensures spelled { IfOk result (λ f. IsFunctionOf text.now f) }
        ensures levels { IfOk result (λ f. levels_of_function f ≤ 100) }
        ensures labels { IfOk result (λ f. FunctionHasDistinctLabels f) }
        ensures refused { IfErr result (λ e. IsNoFunction text.now e.kind) }
        ensures fault { IfErr result (λ e. IsFunctionFault text.now e) }
        ensures within { IfErr result (λ e. LiesInText text.now e.span) }
    {
        FuncType::parse_within(alloc, text, DEFAULT_LEVELS)
    }

    /// As `parse`, but at most `levels` types may stand one inside another in a parameter or a result, as
    /// in `Type::parse_within`. At 0 levels only a function without parameters and results is read.
    pub fn parse_within(alloc: Global, text: &str, levels: u32) -> Result<FuncType, TypeError>
        ensures spelled { IfOk result (λ f. IsFunctionOf text.now f) }
        ensures levels { IfOk result (λ f. levels_of_function f ≤ levels) }
        ensures labels { IfOk result (λ f. FunctionHasDistinctLabels f) }
        ensures refused { IfErr result (λ e. IsNoFunctionWithin levels text.now e.kind) }
        ensures fault { IfErr result (λ e. IsFunctionFaultWithin levels text.now e) }
        ensures within { IfErr result (λ e. LiesInText text.now e.span) }
    {
        let tokens = match tokens_of(alloc, text) {
            Ok(tokens) => tokens,
            Err(_) => return Err(TypeError::new(TypeErrorKind::OutOfMemory, 0..0)),
        };
        let mut reader = Reader::new(tokens.as_slice());
        match whole_function(alloc, &mut reader, levels as usize) {
            Ok(function) => Ok(function),
            Err(kind) => Err(refusal(text, &tokens, reader.count(), kind)),
        }
    }
}

/// Names and types, as they stand in the text.
type Parts<'text> = Vec<(&'text str, Type)>;

/// Takes the type of a function, after which nothing stands.
fn whole_function(
    alloc: Global,
    reader: &mut Reader<'_, '_>,
    levels: usize,
) -> Result<FuncType, TypeErrorKind>
    ensures spelled { IfOk result (λ f. SpellsFunction f reader.old) }
    ensures levels { IfOk result (λ f. levels_of_function f ≤ levels) }
    ensures labels { IfOk result (λ f. FunctionHasDistinctLabels f) }
    ensures refused { IfErr result (λ kind. IsRefusal (expected_of_function levels) reader.old kind reader.new) }
{
    let (params, results) = function(alloc, reader, levels)?;
    if reader.count() > 0 {
        return Err(TypeErrorKind::UnexpectedToken);
    }
    let params = owned_parts(alloc, params)?;
    let results = owned_parts(alloc, results)?;
    match FuncType::new(alloc, params, results) {
        Ok(function) => Ok(function),
        Err(_) => Err(TypeErrorKind::OutOfMemory),
    }
}

/// Takes the parameters and the results of a function.
fn function<'text>(
    alloc: Global,
    reader: &mut Reader<'_, 'text>,
    levels: usize,
) -> Result<(Parts<'text>, Parts<'text>), TypeErrorKind>
    ensures { Answers (λ p. named_function p.0.items p.1.items) result reader.old reader.new (function_read (type_read levels) reader.old)
        (λ expectations. expected_of_function levels ++ expectations) }
{
    reader.expect("func")?;
    reader.expect("(")?;
    let params = params(alloc, reader, levels)?;
    let results = results(alloc, reader, levels)?;
    Ok((params, results))
}

/// Takes the parameters through `)`.
fn params<'text>(
    alloc: Global,
    reader: &mut Reader<'_, 'text>,
    levels: usize,
) -> Result<Parts<'text>, TypeErrorKind>
    ensures { Answers (λ v. named v.items) result reader.old reader.new (params_read (type_read levels) reader.old (after (codes ")") reader.old))
        (λ expectations. last_expected (codes ")") (more_fields levels []) ∷ expectations) }
{
    if reader.takes(")") {
        return Ok(Vec::new(alloc));
    }
    reader.fields(alloc, levels, ")")
}

/// Takes the results, where there are any.
fn results<'text>(
    alloc: Global,
    reader: &mut Reader<'_, 'text>,
    levels: usize,
) -> Result<Parts<'text>, TypeErrorKind>
    ensures { Answers (λ v. named v.items) result reader.old reader.new (results_read (type_read levels) reader.old (after (codes "-") reader.old))
        (λ expectations. results_expected levels ∷ expectations) }
{
    if !reader.takes("-") {
        return Ok(Vec::new(alloc));
    }
    reader.expect(">")?;
    result_parts(alloc, reader, levels)
}

/// Takes named results through `)`, or one type.
fn result_parts<'text>(
    alloc: Global,
    reader: &mut Reader<'_, 'text>,
    levels: usize,
) -> Result<Parts<'text>, TypeErrorKind>
    ensures { Answers (λ v. named v.items) result reader.old reader.new (result_parts_read (type_read levels) reader.old (after (codes "(") reader.old))
        (λ expectations. result_expected levels ∷ expectations) }
{
    if reader.takes("(") {
        return reader.fields(alloc, levels, ")");
    }
    let ty = reader.ty(alloc, levels)?;
    let mut results = Vec::new(alloc);
    results.push(("", ty))?;
    Ok(results)
}

/// The names and types, with the names as texts of their own.
fn owned_parts(alloc: Global, parts: Parts<'_>) -> Result<Vec<(String, Type)>, AllocError>
    ensures { IfOk result (λ v. map by_bytes v.items ≡ named parts.entry.items) }
{
    let mut owned = Vec::new(alloc);
    for (name, ty) in parts {
        let name = String::from_str(alloc, name)?;
        owned.push((name, ty))?;
    }
    Ok(owned)
}
