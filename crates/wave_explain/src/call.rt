//! A refusal of a call, as a person is shown it.
ghost use Rattle.std.specs.Prelude.{ℕ, ◌≡◌, ◌⊎◌, ◌<◌, ◌+◌, ◌^◌, ◌++◌, [], false, true, IfOk, IfSome, IfNone};
ghost use Rattle.std.specs.Fmt.{decimal};
ghost use Rattle.std.specs.String.{string_bytes};
ghost use Rattle.wave_wasm.specs.Borrowed.{texts};
ghost use Rattle.wave_lex.specs.Errors.{error_text};
ghost use Rattle.wave_grammar.specs.NodeTree.{NodeTree};
ghost use Rattle.wave_grammar.specs.ErrorSpans.{LiesInNode};
ghost use Rattle.wave_grammar.specs.TypedReading.{IsValueOf};
ghost use Rattle.wave_tree.specs.UntypedCall.{IsCalledWithin, IsNoCallWithin};
ghost use Rattle.wave_explain.specs.EscapeMarks.{IsSyntaxMark};
ghost use Rattle.wave_explain.specs.ValueExplained.{is_of_type, IsPartMark, IsUnexpected, BeginWith};
ghost use Rattle.wave_explain.specs.CallExplained.{Gives, parameter_text, ReportsParameter, HasNoParameter, ReportsExpectedInCall, ExplainsCall, ExplainsUntypedCall, IsCallExplained, IsUntypedCallExplained};

use crate::open::open_line_in_call;
use crate::syntax::Reading;
use crate::value::{
    Explanation, explain_syntax, explained, is_of_type, part_mark, report_part, syntax_explanation,
};
use std::alloc::{AllocError, Global};
use std::fmt::Write;
use wave_hints::params::params_lines;
use wave_lex::error::{ParserError, ParserErrorKind};
use wave_lex::lex::Span;
use wave_node::ast::Node;
use wave_place::path::item_at;
use wave_tree::parser::MAX_LEVELS;
use wave_tree::untyped::UntypedFuncCall;
use wave_wasm::wasm::WasmFunc;

/// The refusal of a whole text as a call of the function, by `UntypedFuncCall::parse` or `parse_within`, or by
/// `to_wasm_params`: what `explain` shows, and beside it the path to the part of a parameter that is
/// wrong, the type that is expected there, and hints how to mend it, on at most three lines that begin with
/// `=`:
///
/// ```text
/// invalid value at 14..19
///  --> line 1, column 15, at parameter b.port
///   | f("a", {port: 80800})
///   |               ^^^^^
///   = expected u16, a whole number from 0 to 65535
/// ```
///
/// A path begins with the parameter's name, or with its number, counted from 1, where the function gives
/// no names, as `parameter 2`; the rest is as that of `explain_value`. Where there are too few values or
/// too many, there is no path, and the lines say which parameter is missing, and which there are. A
/// refusal of syntax is explained as by `explain_untyped_call`, with a line for the path and the type where
/// it is within the value of a parameter.
///
/// The text is read anew, without types, for the explanation, within `MAX_LEVELS`. The error, the text and the function need
/// not belong together: an explanation is always made, and the only error is out of memory.
pub fn explain_call<F: WasmFunc>(
    alloc: Global,
    error: &ParserError,
    source: &str,
    func: &F,
) -> Result<String, AllocError>
    ensures { IfOk result (λ text. IsCallExplained source.now (F.func func.now) error.now (string_bytes text)) }
{
    let parts = call_explanation(alloc, error, source, func)?;
    explained(alloc, error, source, &parts)
}

/// What `explain_call` shows of the refusal, in its parts.
pub fn call_explanation<F: WasmFunc>(
    alloc: Global,
    error: &ParserError,
    source: &str,
    func: &F,
) -> Result<Explanation, AllocError>
    ensures { IfOk result (λ x. ExplainsCall source.now (F.func func.now) error.now x.mark (string_bytes x.path) (string_bytes x.lines)) }
{
    match called(alloc, error.kind(), source)? {
        Some(call) => explain_params(alloc, error, source, &call, func),
        None => explain_call_alone(alloc, error, source, func),
    }
}

/// The refusal of a text that is read as a call without types, by `UntypedFuncCall::parse` or `parse_within`: what
/// `explain` shows, and beside it what might have stood there and hints how to mend it, on at most three
/// lines that begin with `=`:
///
/// ```text
/// unexpected end of input at 4..4
///  --> line 1, column 5
///   | f(1,
///   |     ^
///   = the ( at line 1, column 2 is not closed
/// ```
///
/// The only error is out of memory.
pub fn explain_untyped_call(
    alloc: Global,
    error: &ParserError,
    source: &str,
) -> Result<String, AllocError>
    ensures { IfOk result (λ text. IsUntypedCallExplained source.now error.now (string_bytes text)) }
{
    explain_syntax(alloc, error, source, Reading::Call, "")
}

/// What `explain_untyped_call` shows of the refusal, in its parts.
pub fn untyped_call_explanation(
    alloc: Global,
    error: &ParserError,
    source: &str,
) -> Result<Explanation, AllocError>
    ensures { IfOk result (λ x. ExplainsUntypedCall source.now error.now x.mark (string_bytes x.path) (string_bytes x.lines)) }
{
    syntax_explanation(alloc, error, source, Reading::Call, "")
}

/// The explanation by the call that the source is.
fn explain_params<F: WasmFunc>(
    alloc: Global,
    error: &ParserError,
    source: &str,
    call: &UntypedFuncCall<'_>,
    func: &F,
) -> Result<Explanation, AllocError>
    requires call { IsCalledWithin 1000 source.now call.now }
    requires kind { IsUnexpected error.now.kind → ⊥ }
    ensures { IfOk result (λ x. ExplainsCall source.now (F.func func.now) error.now x.mark (string_bytes x.path) (string_bytes x.lines)) }
{
    let mut path = String::new(alloc);
    let mut lines = String::new(alloc);
    let mark = report_params(alloc, error, source, call, func, &mut path, &mut lines)?;
    Ok(Explanation { mark, path, lines })
}

/// The explanation where no parameter is looked for.
fn explain_call_alone<F: WasmFunc>(
    alloc: Global,
    error: &ParserError,
    source: &str,
    func: &F,
) -> Result<Explanation, AllocError>
    requires { (is_of_type error.now.kind ≡ false) ⊎ IsNoCallWithin 1000 source.now }
    ensures { IfOk result (λ x. ExplainsCall source.now (F.func func.now) error.now x.mark (string_bytes x.path) (string_bytes x.lines)) }
{
    let at = part_mark(source, error.span(), None).start;
    let more = open_line_in_call(alloc, error.kind(), source, at, func)?;
    syntax_explanation(alloc, error, source, Reading::Call, more.as_str())
}

/// The call that the source is, read without types, where the refusal is of a fault of its parameters.
fn called(
    alloc: Global,
    kind: ParserErrorKind,
    source: &str,
) -> Result<Option<UntypedFuncCall<'_>>, AllocError>
    ensures call { IfOk result (λ r. IfSome r (IsCalledWithin 1000 source.now)) }
    ensures kind { IfOk result (λ r. IfSome r (λ _. IsUnexpected kind → ⊥)) }
    ensures none { IfOk result (λ r. IfNone r ((is_of_type kind ≡ false) ⊎ IsNoCallWithin 1000 source.now)) }
{
    if !is_of_params(kind) {
        return Ok(None);
    }
    match UntypedFuncCall::parse_within(alloc, source, MAX_LEVELS) {
        Ok(call) => Ok(Some(call)),
        Err(error) => match error.kind() {
            ParserErrorKind::OutOfMemory => Err(AllocError),
            _ => Ok(None),
        },
    }
}

/// Whether the kind is that of a fault of the parameters of a call.
fn is_of_params(kind: ParserErrorKind) -> bool
    ensures other { result ≡ false → is_of_type kind ≡ false }
    ensures typed { result ≡ true → IsUnexpected kind → ⊥ }
{
    kind == ParserErrorKind::InvalidParams || is_of_type(kind)
}

/// Adds the path to the part of a parameter that is wrong, where there is one, and the lines; what is to
/// be marked.
fn report_params<F: WasmFunc>(
    alloc: Global,
    error: &ParserError,
    source: &str,
    call: &UntypedFuncCall<'_>,
    func: &F,
    path: &mut String,
    lines: &mut String,
) -> Result<Span, AllocError>
    requires path { string_bytes path.old ≡ [] }
    requires lines { string_bytes lines.old ≡ [] }
    requires call { IsCalledWithin 1000 source.now call.now }
    requires kind { IsUnexpected error.now.kind → ⊥ }
    ensures { IfOk result (λ mark. (is_of_type error.now.kind ≡ true) × ReportsParameter source.now (F.func func.now) error.now.span (string_bytes path.new) (string_bytes lines.new) × IsPartMark source.now error.now.span mark
        ⊎ (string_bytes path.new ≡ []) × HasNoParameter error.now.kind source.now (F.func func.now).params error.now.span × IsSyntaxMark source.now error.now mark
        × (IsUnexpected error.now.kind → BeginWith ReportsExpectedInCall source.now error.now.span.start (string_bytes lines.new))) }
{
    let types = func.params(alloc)?;
    let names = func.param_names(alloc)?;
    let span = error.span();
    match value_at(error.kind(), call, types.len(), &span) {
        Some((i, value)) => {
            push_parameter(path, &names, i)?;
            report_part(alloc, error, source, value, types[i], path, lines)
        }
        None => {
            let hints = params_lines(alloc, error, call, &types, &names)?;
            lines.push_str(hints.as_str())?;
            Ok(span)
        }
    }
}

/// The value of one of the first `count` parameters that holds the span, and which it is, where the kind
/// tells a fault of type.
fn value_at<'a>(
    kind: ParserErrorKind,
    call: &'a UntypedFuncCall<'_>,
    count: usize,
    span: &Span,
) -> Option<(usize, &'a Node)>
    ensures none { IfNone result ((is_of_type kind ≡ false)
        ⊎ ((i : ℕ) (n : NodeTree) → Gives call.now i n → i < count → LiesInNode n span.now → ⊥)) }
    ensures some { IfSome result (λ found. (found.0 < count) × Gives call.now found.0 found.1.now × LiesInNode found.1.now span.now) }
    ensures value { IfSome result (λ found. IsValueOf call.now.source found.1.now) }
    ensures kind { IfSome result (λ _. is_of_type kind ≡ true) }
{
    if !is_of_type(kind) {
        return None;
    }
    let Some(params) = call.params_node() else {
        return None;
    };
    let Ok(values) = params.as_tuple() else {
        return None;
    };
    item_at(values, count, span)
}

/// Adds which parameter it is.
pub(crate) fn push_parameter(
    path: &mut String,
    names: &Vec<&str>,
    i: usize,
) -> Result<(), AllocError>
    requires { i + 1 < 2 ^ 64 }
    ensures { IfOk result (λ _. string_bytes path.new ≡ string_bytes path.old ++ parameter_text (texts names.now.items) i) }
{
    path.push_str("parameter ")?;
    if i < names.len() {
        path.push_str(names[i])
    } else {
        push_number(path, i + 1)
    }
}

/// Adds the number.
fn push_number(path: &mut String, number: usize) -> Result<(), AllocError>
    ensures { IfOk result (λ _. string_bytes path.new ≡ string_bytes path.old ++ decimal number) }
{
    match write!(path, "{number}") {
        Ok(()) => Ok(()),
        Err(_) => Err(AllocError),
    }
}
