//! Calls that were read without types.
ghost use Rattle.std.specs.Prelude.{◌≡◌, ℕ, Some, length, IfOk, IfErr, option_map, map};
ghost use Rattle.std.specs.Fmt.{DisplaysOnOk};
ghost use Rattle.wave_grammar.specs.SpannedTree.{slice};
ghost use Rattle.wave_grammar.specs.ErrorSpans.{HasParamsKind, IsCausedInParams};
ghost use Rattle.wave_lex.specs.declared.error.ParserErrorKind.TheVariants.{OutOfMemory, WasmValueError};
ghost use Rattle.wave_lex.specs.Errors.{LiesInText};
ghost use Rattle.wave_lex.specs.FunctionName.{IsName};
ghost use Rattle.wave_tree.specs.UntypedCall.{IsParamsOf, IsCalledOf, IsCalledWithin, NameFault, RefusesCall, RefusesCallWithin, MemoryAtName, GivesParamsAt, RefusesParamsAt, call_display};
ghost use Rattle.wave_tree.specs.Private.UntypedCall.{CallStandsIn, params_place};
ghost use Rattle.wave_tree.specs.DisplayKeeps.{IsCallKeptByDisplay, AreParamsKeptByDisplay};
ghost use Rattle.wave_tree.specs.ParserState.{IsLimit};

use crate::parser::{DEFAULT_LEVELS, ParserError, ParserErrorKind};
use crate::tokens::Tokens;
use crate::untyped::display::write_node;
use std::alloc::Global;
use std::borrow::CowStr;
use std::fmt;
use std::marker::Model;
use wave_lex::lex::{FuncNameLexer, Span};
use wave_node::ast::Node;
use wave_node::params::{ParamType, omitted_params, read_params};
use wave_wasm::wasm::{WasmFunc, WasmValue};

/// The call that the whole text is: a function name at its start, and parameters in parentheses, each
/// of at most 100 levels. The empty text is `UnexpectedEnd` at 0..0, and one that begins with no name
/// `InvalidToken` at its first scalar; what is no parameters is refused as by
/// `Parser::parse_raw_value`, and what follows them as `TrailingCharacters` at the span of the next
/// token. Spans are byte places of the text; `OutOfMemory` stands at the name.
pub fn parse_raw_func_call<'source>(
    alloc: Global,
    source: &'source str,
) -> Result<UntypedFuncCall<'source>, ParserError>
    ensures value { IfOk result (IsCalledOf source.now) }
    ensures refused { IfErr result (RefusesCall source.now) }
    ensures memory { IfErr result (MemoryAtName source.now) }
    ensures within { IfErr result (λ e. LiesInText source.now e.span) }
{
    UntypedFuncCall::parse_within(alloc, source, DEFAULT_LEVELS)
}

/// The lexer after the function name at the start of the text.
pub fn name_at<'source>(source: &'source str) -> Result<FuncNameLexer<'source>, ParserError>
    ensures named { IfOk result (λ l. (k : ℕ) × IsName source.now k × (l ≡ record { source = source.now; start = 0; end = k })) }
    ensures refused { IfErr result (NameFault source.now) }
{
    let mut names = FuncNameLexer::new(source);
    match names.next() {
        Some(Ok(_)) => Ok(names),
        Some(Err(_)) => Err(ParserError::new(ParserErrorKind::InvalidToken, names.span())),
        None => Err(ParserError::new(ParserErrorKind::UnexpectedEnd, names.span())),
    }
}

/// A call that was parsed without types: its source, its name and the node of its parameters.
#[derive(Drop)]
pub struct UntypedFuncCall<'source> {
    source: CowStr<'source, Global>,
    name: Span,
    params: Option<Node>,
}

impl<'source> Model for UntypedFuncCall<'source> {
    ghost use Rattle.std.specs.Cow.{cow_str_bytes};
    ghost use Rattle.wave_tree.specs.UntypedCall.{Called};
    ghost use Rattle.wave_tree.specs.Private.UntypedCall.{CallStandsIn};
    ghost use Rattle.wave_tree.specs.Private.CallEncoding.{called_code};

    ghost Value = { Called };

    ghost coded = { called_code };

    ghost view = { λ u. record { source = cow_str_bytes u.source; name = u.name; params = u.params } };

    ghost invariant = { λ u. CallStandsIn (cow_str_bytes u.source) u.name u.params };
}

impl<'source> UntypedFuncCall<'source> {
    /// The call of this name, with the node of its parameters.
    fn new(source: &'source str, name: Span, params: Option<Node>) -> UntypedFuncCall<'source>
        requires { CallStandsIn source.now name params }
        ensures { result ≡ record { source = source.now; name = name; params = params } }
    {
        UntypedFuncCall {
            source: CowStr::Borrowed(source),
            name,
            params,
        }
    }

    /// The call that the whole text is, as by `parse_raw_func_call`.
    pub fn parse(
        alloc: Global,
        source: &'source str,
    ) -> Result<UntypedFuncCall<'source>, ParserError>
        ensures value { IfOk result (IsCalledOf source.now) }
        ensures refused { IfErr result (RefusesCall source.now) }
        ensures memory { IfErr result (MemoryAtName source.now) }
        ensures within { IfErr result (λ e. LiesInText source.now e.span) }
    {
        parse_raw_func_call(alloc, source)
    }

    /// As `parse`, but each parameter may have as many levels as handed in, from 1 to `MAX_LEVELS`, as a
    /// value that is read by a `Parser` with this limit. The parentheses of the call are no level.
    pub fn parse_within(
        alloc: Global,
        source: &'source str,
        levels: u32,
    ) -> Result<UntypedFuncCall<'source>, ParserError>
        requires { IsLimit levels }
        ensures value { IfOk result (IsCalledWithin levels source.now) }
        ensures refused { IfErr result (RefusesCallWithin levels source.now) }
        ensures memory { IfErr result (MemoryAtName source.now) }
        ensures within { IfErr result (λ e. LiesInText source.now e.span) }
    {
        let names = name_at(source)?;
        let name = names.span();
        let mut tokens = Tokens::from_lexer(names.into_lexer());
        let params = tokens.parse_params(alloc, levels)?;
        tokens.finish()?;
        Ok(UntypedFuncCall::new(source, name, params))
    }

    /// The same call with a copy of its source, where that is borrowed. Where there is no memory
    /// the call is handed back.
    pub fn into_owned(
        self,
        alloc: Global,
    ) -> Result<UntypedFuncCall<'static>, UntypedFuncCall<'source>>
        ensures owned { IfOk result (λ call. call ≡ self.entry) }
        ensures handed_back { IfErr result (λ call. call ≡ self.entry) }
    {
        let UntypedFuncCall {
            source,
            name,
            params,
        } = self;
        match source {
            CowStr::Owned(text) => Ok(UntypedFuncCall {
                source: CowStr::Owned(text),
                name,
                params,
            }),
            CowStr::Borrowed(text) => match String::from_str(alloc, text) {
                Ok(copy) => Ok(UntypedFuncCall {
                    source: CowStr::Owned(copy),
                    name,
                    params,
                }),
                Err(_) => Err(UntypedFuncCall {
                    source: CowStr::Borrowed(text),
                    name,
                    params,
                }),
            },
        }
    }

    /// The text that the call was parsed from.
    pub fn source(&self) -> &str
        ensures { result.now ≡ self.now.source }
    {
        self.source.as_str()
    }

    /// The node of the parameters, a tuple; None where nothing stands between the parentheses.
    pub fn params_node(&self) -> Option<&Node>
        ensures node { option_map (λ n. n.now) result ≡ self.now.params }
        ensures parsed { IsParamsOf self.now.source (option_map (λ n. n.now) result) }
    {
        self.params.as_ref()
    }

    /// The values of the parameters at the types, as by `Node::to_wasm_params`. Where nothing
    /// stands between the parentheses each type has to be an option and reads as `none`, else the
    /// refusal is `InvalidParams` at the name.
    pub fn to_wasm_params<V: WasmValue>(
        &self,
        alloc: Global,
        types: &[V::Type],
    ) -> Result<Vec<V>, ParserError>
        ensures count { IfOk result (λ vs. length vs.items ≡ length types.now) }
        ensures values { IfOk result (λ vs. GivesParamsAt V.tree V.is_of (map V.Type.tree types.now) self.now.source self.now.params vs.items) }
        ensures refused { IfErr result (RefusesParamsAt V.is_full (map V.Type.tree types.now) self.now.source self.now.name self.now.params) }
        ensures kind { IfErr result HasParamsKind }
        ensures within { IfErr result (λ e. LiesInText self.now.source e.span) }
        ensures caused { IfErr result (λ e. e.kind ≡ WasmValueError → IsCausedInParams self.now.name self.now.params e) }
    {
        self.read_params(alloc, types)
    }

    /// The values of the parameters at the types that the function has for them, as by
    /// `to_wasm_params`. Out of memory for the list of these types stands at the node of the
    /// parameters, or at the name where nothing stands between the parentheses.
    pub fn to_func_params<V: WasmValue, F: WasmFunc<Type = V::Type>>(
        &self,
        alloc: Global,
        func: &F,
    ) -> Result<Vec<V>, ParserError>
        ensures count { IfOk result (λ vs. length vs.items ≡ length (F.func func.now).params) }
        ensures values { IfOk result (λ vs. GivesParamsAt V.tree V.is_of (F.func func.now).params self.now.source self.now.params vs.items) }
        ensures refused { IfErr result (RefusesParamsAt V.is_full (F.func func.now).params self.now.source self.now.name self.now.params) }
        ensures kind { IfErr result HasParamsKind }
        ensures within { IfErr result (λ e. LiesInText self.now.source e.span) }
        ensures caused { IfErr result (λ e. e.kind ≡ WasmValueError → IsCausedInParams self.now.name self.now.params e) }
    {
        match func.params(alloc) {
            Ok(types) => self.read_params(alloc, types.as_slice()),
            Err(_) => Err(self.out_of_memory()),
        }
    }

    /// The same of types that are had as they are or by references.
    fn read_params<V: WasmValue, P: ParamType<V::Type>>(
        &self,
        alloc: Global,
        types: &[P],
    ) -> Result<Vec<V>, ParserError>
        ensures count { IfOk result (λ vs. length vs.items ≡ length types.now) }
        ensures values { IfOk result (λ vs. GivesParamsAt V.tree V.is_of (map P.denoted types.now) self.now.source self.now.params vs.items) }
        ensures refused { IfErr result (RefusesParamsAt V.is_full (map P.denoted types.now) self.now.source self.now.name self.now.params) }
        ensures kind { IfErr result HasParamsKind }
        ensures within { IfErr result (λ e. LiesInText self.now.source e.span) }
        ensures caused { IfErr result (λ e. e.kind ≡ WasmValueError → IsCausedInParams self.now.name self.now.params e) }
    {
        match &self.params {
            Some(params) => read_params(params, alloc, types, self.source.as_str()),
            None => omitted_params(alloc, types, self.name.start..self.name.end),
        }
    }

    /// A refusal for lack of memory, at the parameters or else at the name.
    fn out_of_memory(&self) -> ParserError
        ensures kind { result.kind ≡ OutOfMemory }
        ensures span { result.span ≡ params_place self.now.name self.now.params }
        ensures stands { CallStandsIn self.now.source self.now.name self.now.params }
    {
        match &self.params {
            Some(params) => ParserError::new(ParserErrorKind::OutOfMemory, params.span()),
            None => ParserError::new(ParserErrorKind::OutOfMemory, self.name.start..self.name.end),
        }
    }

    /// The name of the function.
    pub fn name(&self) -> &str
        ensures { result.now ≡ slice self.now.source self.now.name }
    {
        &self.source.as_str()[self.name.start..self.name.end]
    }
}

impl fmt::Display for UntypedFuncCall<'_> {
    ghost use Rattle.std.specs.Prelude.{Some};
    ghost use Rattle.wave_tree.specs.UntypedCall.{call_display};

    ghost output = { λ u. Some (call_display u) };

    fn fmt<W: fmt::Write>(&self, f: &mut fmt::Formatter<W>) -> fmt::Result
        ensures writes { DisplaysOnOk W.write_str_gives f.old result (Some (call_display self.now)) f.new }
        ensures kept { IsCallKeptByDisplay self.now (call_display self.now) }
        ensures params { AreParamsKeptByDisplay self.now }
    {
        let source = self.source.as_str();
        f.write_str(&source[self.name.start..self.name.end])?;
        match &self.params {
            Some(params) => write_node(f, params, source),
            None => f.write_str("()"),
        }
    }
}
