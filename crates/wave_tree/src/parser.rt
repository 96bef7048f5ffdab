//! The parser of values.
ghost use Rattle.std.specs.Prelude.{◌≡◌, ◌≢◌, ◌+◌, IfOk, IfErr, []};
ghost use Rattle.wave_wasm.specs.Types.{IsRepresentable};
ghost use Rattle.wave_lex.specs.declared.error.ParserErrorKind.TheVariants as kind;
ghost use Rattle.wave_lex.specs.Errors.{LiesInText};
ghost use Rattle.wave_lex.specs.Labels.{HasDistinctLabels};
ghost use Rattle.wave_grammar.specs.PrefixAutomaton as expectation;
ghost use Rattle.wave_grammar.specs.SyntaxErrors.{Gives};
ghost use Rattle.wave_leaf.specs.PlainReading.{IsPlain};
ghost use Rattle.wave_tree.specs.ParserState.{BeginsRow, HoldsNoBrace, Parsing, IsLimit, asked, Asks, first_at, limited, Finishes, StaysWithout, start_of};
ghost use Rattle.wave_tree.specs.Untyped.{IsUntypedTaken};
ghost use Rattle.wave_tree.specs.FromStr.{IsValueTaken, RefusesValue, IsCausedBetween, PrintsWithinTwice};

use crate::tokens::Tokens;
use crate::untyped::UntypedValue;
pub use crate::untyped::parse_raw_func_call;
use std::alloc::Global;
use std::marker::Model;
pub use wave_lex::error::{ParserError, ParserErrorKind};
use wave_lex::lex::Lexer;
use wave_wasm::wasm::WasmValue;

/// How many levels a value may have for a parser that was handed no limit.
pub const DEFAULT_LEVELS: u32 = 100;

/// The greatest limit of levels that a parser may be handed.
pub const MAX_LEVELS: u32 = 1000;

/// Reads values from a source, one after the other, and looks at most one item ahead. A value may
/// have as many levels as the parser's limit. The spans of its refusals are byte places of the
/// source.
#[derive(Drop)]
pub struct Parser<'source> {
    tokens: Tokens<'source>,
    limit: u32,
}

impl<'source> Model for Parser<'source> {
    ghost Value = { Parsing };

    ghost view = { λ p. record { place = p.tokens.place; ahead = p.tokens.ahead; limit = p.limit } };

    ghost invariant = { λ p. IsLimit p.limit };
}

impl<'source> Parser<'source> {
    /// A parser before the source, with the limit `DEFAULT_LEVELS`.
    pub fn new(source: &'source str) -> Self
        ensures { result ≡ first_at (start_of source.now).lexer }
    {
        Parser::with_lexer(Lexer::new(source))
    }

    /// A parser that begins where the lexer stands, with the limit `DEFAULT_LEVELS`.
    pub fn with_lexer(lexer: Lexer<'source>) -> Self
        ensures { result ≡ first_at lexer.entry }
    {
        Parser {
            tokens: Tokens::from_lexer(lexer),
            limit: DEFAULT_LEVELS,
        }
    }

    /// The same parser with this limit, from 1 to `MAX_LEVELS`; it stands where it stood, and keeps
    /// the item that it looked at.
    pub fn with_limit(self, levels: u32) -> Self
        requires { IsLimit levels }
        ensures { result ≡ limited self.entry levels }
    {
        Parser {
            tokens: self.tokens,
            limit: levels,
        }
    }

    /// How many levels a value may have.
    pub fn limit(&self) -> u32
        ensures answer { result ≡ self.now.limit }
        ensures bounds { IsLimit result }
    {
        self.limit
    }

    /// Reads a value of at most as many levels as the limit without a type. After a value the parser
    /// stands after it, after a refusal at the end of the refusal's span. What is no token is
    /// `InvalidToken`, a token that may not stand there `UnexpectedToken`, and a flag that was read
    /// before `DuplicateFlag`, each at its span; the end is `UnexpectedEnd` at the empty span there,
    /// `()` is `EmptyTuple` at both parentheses, and a level past the limit `NestingTooDeep` at the
    /// last token that was taken. `OutOfMemory` stands at the last item before the value, and the
    /// parser stands where it stood.
    pub fn parse_raw_value(&mut self, alloc: Global) -> Result<UntypedValue<'source>, ParserError>
        ensures value { Gives result self.old.limit expectation.value [] self.old.place self.new.place [] }
        ensures tree { IfOk result (IsUntypedTaken self.old.limit self.old.place self.new.place) }
        ensures within { IfErr result (λ e. LiesInText self.old.place.lexer.source e.span) }
        ensures memory { IfErr result (λ e. StaysWithout e self.old.place self.new.place) }
        ensures asks { Asks self.old self.new }
        ensures keeps { self.new.limit ≡ self.old.limit }
    {
        let (node, start) = self.tokens.parse_whole(alloc, self.limit)?;
        Ok(UntypedValue::new(start.source(), node))
    }

    /// Reads a value of the type. After a value the parser stands after it, and so it does where
    /// the type gives what was read no value, which is refused at the node that has the fault; all
    /// other refusals are those of `parse_raw_value`. Where the type's names are distinct labels and
    /// its tree is one that `Type` has, the value's canonical text has at most twice as many levels
    /// as the limit. At bool, whole-number types and char a tuple or a list is refused without
    /// memory where no `{` stands from its first mark on.
    pub fn parse_value<V: WasmValue>(
        &mut self,
        alloc: Global,
        ty: &V::Type,
    ) -> Result<V, ParserError>
        ensures value { IfOk result (IsValueTaken V.tree V.is_of (V.Type.tree ty.now) self.old.limit self.old.place self.new.place) }
        ensures refused { IfErr result (λ e. RefusesValue V.is_full (V.Type.tree ty.now) self.old.limit e self.old.place self.new.place) }
        ensures within { IfErr result (λ e. LiesInText self.old.place.lexer.source e.span) }
        ensures caused { IfErr result (IsCausedBetween self.old.limit self.old.place self.new.place) }
        ensures memory { IfErr result (λ e. StaysWithout e self.old.place self.new.place) }
        ensures twice { let T = V.Type.tree ty.now in
            HasDistinctLabels T → IsRepresentable T → IfOk result (λ v. PrintsWithinTwice T self.old.limit (V.tree v)) }
        ensures spares { IsPlain (V.Type.tree ty.now) → BeginsRow self.old.place → HoldsNoBrace self.old.place → IfErr result (λ e. e.kind ≢ kind.OutOfMemory) }
        ensures asks { Asks self.old self.new }
        ensures keeps { self.new.limit ≡ self.old.limit }
    {
        self.tokens.parse_typed(alloc, ty, self.limit)
    }

    /// Whether only whitespace is left. The parser stays where it is; what stands next is refused as
    /// `TrailingCharacters` at its span.
    pub fn finish(&mut self) -> Result<(), ParserError>
        ensures stays { self.new.place ≡ self.old.place }
        ensures answer { Finishes result self.old.place }
        ensures within { IfErr result (λ e. LiesInText self.old.place.lexer.source e.span) }
        ensures asks { asked self.new ≡ self.old.place.taken + 1 }
        ensures keeps { self.new.limit ≡ self.old.limit }
    {
        self.tokens.finish()
    }
}
