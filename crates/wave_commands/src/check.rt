//! All faults of a file's text at a type.
ghost use Rattle.std.specs.Prelude.{[], ◌∷◌, ◌≡◌, ◌≢◌, None, IfOk, IfSome, OnOk, string_bytes};
ghost use Rattle.wave_lex.specs.declared.error.ParserErrorKind.TheVariants.{OutOfMemory};
ghost use Rattle.wave_explain.specs.ValueExplained.{ExplainsValue, IsPrefix};
ghost use Rattle.wave_commands.specs.Checked.{AddsBehind, AreFaultsOf, TellsFaults};

use crate::report::{Style, report};
use std::alloc::{AllocError, Global};
use wave_explain::value::{Explanation, fault_explanation, is_of_type, value_explanation};
use wave_faults::faults::faults;
use wave_files::answers::{Answer, FileName, Job};
use wave_lex::error::{ParserError, ParserErrorKind};
use wave_tree::parser::Parser;
use wave_tree::untyped::UntypedValue;
use wave_type::ty::Type;

/// Each file's text is read at the type, and its faults are told in this style: the fault of syntax, or all
/// faults of type, and behind them that something follows the value.
#[derive(Debug, Drop)]
pub struct Check {
    /// The type.
    pub ty: Type,
    /// How faults are told.
    pub style: Style,
}

impl Job for Check {
    ghost use Rattle.wave_commands.specs.Checked.{IsChecked};

    ghost is_ready = { λ _. Unit {0} };

    ghost answers = { λ job name text answer. IsChecked job.ty job.style name text answer };

    fn answer(&self, alloc: Global, name: &FileName, text: &str) -> Result<Answer, AllocError> {
        let found = faults_of(alloc, text, &self.ty)?;
        let faults = found.errors.len() as u64;
        Ok(Answer {
            printed: String::new(alloc),
            shown: reports(alloc, self.style, name, text, &found, &self.ty)?,
            replacement: None,
            faults,
        })
    }
}

/// What is wrong with a text.
#[derive(Drop)]
struct Faults<'source> {
    /// The errors, in order.
    errors: Vec<ParserError>,
    /// The value that begins the text, read without a type, where there is one.
    value: Option<UntypedValue<'source>>,
}

/// The faults of the text at the type; the only error is out of memory.
fn faults_of<'source>(
    alloc: Global,
    text: &'source str,
    ty: &Type,
) -> Result<Faults<'source>, AllocError>
    ensures faults { IfOk result (λ found. AreFaultsOf ty.now text.now found.errors.items) }
    ensures value { IfOk result (λ found. IfSome found.value (IsPrefix text.now)) }
{
    let mut parser = Parser::new(text);
    match parser.parse_raw_value(alloc) {
        Ok(value) => {
            let mut errors = faults(alloc, text, value.node(), ty)?;
            push_trailing(&mut parser, &mut errors)?;
            Ok(Faults {
                errors,
                value: Some(value),
            })
        }
        Err(error) => syntax_fault(alloc, error),
    }
}

/// Adds that something follows the value, where that is so.
fn push_trailing(parser: &mut Parser<'_>, errors: &mut Vec<ParserError>) -> Result<(), AllocError>
    ensures { IfOk result (λ _. AddsBehind parser.old.place errors.old.items errors.new.items) }
{
    match parser.finish() {
        Ok(()) => Ok(()),
        Err(error) => {
            errors.push(error)?;
            Ok(())
        }
    }
}

/// The fault of a text that no value begins; out of memory, for that or as the error itself.
fn syntax_fault<'source>(alloc: Global, error: ParserError) -> Result<Faults<'source>, AllocError>
    ensures error { IfOk result (λ found. found.errors.items ≡ error ∷ []) }
    ensures value { IfOk result (λ found. found.value ≡ None) }
    ensures reported { OnOk result (error.kind ≢ OutOfMemory) }
{
    if error.kind() == ParserErrorKind::OutOfMemory {
        return Err(AllocError);
    }
    let mut errors = Vec::new(alloc);
    errors.push(error)?;
    Ok(Faults {
        errors,
        value: None,
    })
}

/// What is told of the faults, in turn.
fn reports(
    alloc: Global,
    style: Style,
    name: &FileName,
    text: &str,
    found: &Faults<'_>,
    ty: &Type,
) -> Result<String, AllocError>
    requires { IfSome found.now.value (IsPrefix text.now) }
    ensures { IfOk result (λ told. TellsFaults style name.now text.now ty.now found.now.errors.items (string_bytes told)) }
{
    let mut told = String::new(alloc);
    let mut place = 0;
    while place < found.errors.len() {
        let error = &found.errors[place];
        let parts = explanation(alloc, error, text, &found.value, ty)?;
        let one = report(alloc, style, name, text, error, &parts)?;
        told.push_str(one.as_str())?;
        place += 1;
    }
    Ok(told)
}

/// What explains the fault; one of type by the value that begins the text, which isn't read again.
fn explanation(
    alloc: Global,
    error: &ParserError,
    text: &str,
    value: &Option<UntypedValue<'_>>,
    ty: &Type,
) -> Result<Explanation, AllocError>
    requires { IfSome value.now (IsPrefix text.now) }
    ensures { IfOk result (λ x. ExplainsValue text.now ty.now error.now x.mark (string_bytes x.path) (string_bytes x.lines)) }
{
    match value {
        Some(value) if is_of_type(error.kind()) => {
            fault_explanation(alloc, error, text, value.node(), ty)
        }
        _ => value_explanation(alloc, error, text, ty),
    }
}
