//! The tokens of a source, taken one by one, and what is made of them.
ghost use Rattle.std.specs.Prelude.{◌≡◌, ◌≢◌, ◌↔◌, ◌⊎◌, ℕ, ◌+◌, ◌-◌, ◌++◌, ◌≤◌, List, [], ◌∷◌};
ghost use Rattle.std.specs.Prelude.{Some, None, Ok, Err, IfOk, IfErr, IsTrue, false};
ghost use Rattle.wave_lex.specs.declared.error.ParserErrorKind.TheVariants as kind;
ghost use Rattle.std.specs.String.{string_bytes};
ghost use Rattle.wave_lex.specs.Errors.{class_name, repeated_name};
ghost use Rattle.wave_grammar.specs.ParserPosition.{Place, TakesItem, IsSomething, span_at, text_at};
ghost use Rattle.wave_grammar.specs.PrefixAutomaton as expectation;
ghost use Rattle.wave_grammar.specs.SyntaxErrors.{Gives};
ghost use Rattle.wave_lex.specs.Errors.{Says};
ghost use Rattle.wave_lex.specs.Tokenization.{item_of, span};
ghost use Rattle.wave_tree.specs.UntypedCall.{AreParamsTaken, RefusesTuple};
ghost use Rattle.wave_leaf.specs.PlainReading.{IsPlain};
ghost use Rattle.wave_grammar.specs.NodeParts.{ArePartsOfSome, IsOfParts, IsOneToken, TakesKey, TakesPart};
ghost use Rattle.wave_grammar.specs.NodeTree.{NodeTree, node, no_nodes, node_trees};
ghost use Rattle.wave_tree.specs.ParsedNodes.{IsNodeTaken, IsSound};
ghost use Rattle.wave_tree.specs.FromStr.{IsValueTaken, RefusesValue, IsCausedBetween};
ghost use Rattle.wave_tree.specs.ParserState.{BeginsRow, HoldsNoBrace, Finishes, StaysWithout};
ghost use Rattle.wave_tree.specs.Private.ParsedNodes.{TakesNumber, AreNumbersAdded};
ghost use Rattle.wave_tree.specs.Private.ParserState.{Stream, stream_of, asked_of, AsksFor, ahead_count, lexer_of, IsAhead, Advances, Expects, IsRefused};
ghost use Rattle.wave_lex.specs.Errors.{LiesInText};
ghost use Rattle.wave_tree.specs.ParserLaws.{LiesInSource};

use crate::nodes::NodeBuilder;
use std::alloc::Global;
use std::marker::Model;
use wave_grammar::builder::Builder;
use wave_leaf::error::{ReadError, repeated_words};
use wave_lex::asked::Asked;
use wave_lex::error::{ParserError, ParserErrorKind};
use wave_lex::found::Found;
use wave_lex::lex::{Lexer, Span, Token};
use wave_node::ast::{Node, NodeType};
use wave_read::values::ValueBuilder;
use wave_wasm::wasm::WasmValue;

/// The refusal of an item that is no end, at its span.
fn trailing(item: Found, behind: &Lexer) -> Result<(), ParserError>
    ensures end { IfOk result (λ _. item_of item behind.now ≡ None) }
    ensures refused { IfErr result (λ e. Says e kind.TrailingCharacters (span behind.now.start behind.now.end) None × IsSomething (item_of item behind.now)) }
    ensures within { IfErr result (λ e. LiesInText behind.now.source e.span) }
{
    match item {
        Found::End => Ok(()),
        _ => Err(ParserError::new(ParserErrorKind::TrailingCharacters, behind.span())),
    }
}

/// Takes tokens from a source one by one, and looks at most one item ahead. The spans of its
/// refusals are byte places of the source.
#[derive(Drop)]
pub(crate) struct Tokens<'source> {
    /// After the item ahead, where there is one; else after the last item that was taken.
    lexer: Lexer<'source>,
    /// After the last item that was taken, where one is ahead.
    before: Lexer<'source>,
    ahead: Option<Found>,
    asked: Asked,
}

impl<'source> Model for Tokens<'source> {
    ghost Value = { Stream };

    ghost view = { λ t.
        record { place = record { lexer = lexer_of t.lexer t.before t.ahead; taken = t.asked - ahead_count t.ahead }; ahead = ahead_count t.ahead } };

    ghost invariant = { λ t. IsAhead t.before t.lexer t.ahead × (ahead_count t.ahead ≤ t.asked) };
}

/// Where a call began: the lexer as it stood, with its source and the span of its last item.
#[derive(Drop)]
pub(crate) struct Start<'source> {
    lexer: Lexer<'source>,
    source: &'source str,
    span: Span,
}

impl<'source> Model for Start<'source> {
    ghost use Rattle.wave_lex.specs.Tokenization.{Lexed};

    ghost Value = { Lexed };

    ghost use Rattle.wave_tree.specs.Private.ParserState.{IsStart};

    ghost view = { λ s. s.lexer };

    ghost invariant = { λ s. IsStart s.lexer s.source.now s.span };
}

impl<'source> Start<'source> {
    /// The source.
    pub(crate) fn source(&self) -> &'source str
        ensures { result.now ≡ self.now.source }
    {
        self.source
    }
}

impl<'source> Tokens<'source> {
    /// The tokens that the lexer has left.
    pub(crate) fn from_lexer(lexer: Lexer<'source>) -> Self
        ensures { result ≡ stream_of lexer.entry }
    {
        Tokens {
            before: lexer.clone(),
            lexer,
            ahead: None,
            asked: Asked::new(),
        }
    }

    /// The lexer after the last item that was taken.
    #[inline(always)]
    fn here(&self) -> &Lexer<'source>
        ensures { result.now ≡ self.now.place.lexer }
    {
        match self.ahead {
            None => &self.lexer,
            Some(_) => &self.before,
        }
    }

    pub(crate) fn span(&self) -> Span
        ensures { result ≡ span_at self.now.place }
    {
        self.here().span()
    }

    pub(crate) fn slice(&self) -> &'source str
        ensures { result.now ≡ text_at self.now.place }
    {
        self.here().slice()
    }

    /// Takes the next item.
    #[inline(always)]
    pub(crate) fn take(&mut self) -> Found
        ensures takes { TakesItem self.old.place (item_of result self.new.place.lexer) self.new.place }
        ensures asks { asked_of self.new ≡ self.old.place.taken + 1 }
    {
        match self.ahead {
            Some(item) => {
                self.ahead = None;
                item
            }
            None => Found::next_of(&mut self.lexer, &mut self.asked),
        }
    }

    /// Looks at the next item, which stays.
    #[inline(always)]
    fn peek(&mut self)
        ensures stays { self.new.place ≡ self.old.place }
        ensures looks { self.new.ahead ≡ 1 }
    {
        if self.ahead.is_none() {
            self.before = self.lexer.clone();
            let item = Found::next_of(&mut self.lexer, &mut self.asked);
            self.ahead = Some(item);
        }
    }

    /// Takes a comma that stands at once and the number behind it, or nothing; says which.
    #[inline(always)]
    fn take_number(&mut self) -> bool
        ensures taken { IsTrue result → TakesNumber self.old.place self.new.place }
        ensures ahead { IsTrue result → (self.old.ahead ≡ 0) × (self.new.ahead ≡ 0) }
        ensures stays { result ≡ false → self.new ≡ self.old }
    {
        match self.ahead {
            Some(_) => false,
            None => Found::number_in_turn(&mut self.lexer, &mut self.asked),
        }
    }

    /// Whether a token of this class stands next.
    pub(crate) fn next_is(&mut self, class: Token) -> bool
        ensures stays { self.new.place ≡ self.old.place }
        ensures answer { IsTrue result ↔ ((next : Place) × TakesItem self.old.place (Some (Ok class)) next) }
        ensures asks { asked_of self.new ≡ self.old.place.taken + 1 }
    {
        self.peek();
        match self.ahead {
            Some(item) => item.is(class),
            None => false,
        }
    }

    /// Takes the next token.
    #[inline(always)]
    pub(crate) fn advance(&mut self) -> Result<Token, ReadError>
        ensures takes { Advances result self.old.place self.new.place }
        ensures asks { asked_of self.new ≡ self.old.place.taken + 1 }
    {
        match self.take() {
            Found::Token(token) => Ok(token),
            item => self.refuse_item(item),
        }
    }

    /// Takes the next token, which has to be of this class.
    #[inline(always)]
    pub(crate) fn expect(&mut self, class: Token) -> Result<(), ReadError>
        ensures takes { Expects class result self.old.place self.new.place }
        ensures asks { asked_of self.new ≡ self.old.place.taken + 1 }
    {
        match self.take() {
            Found::Token(token) if token == class => Ok(()),
            item => self.refuse_item(item),
        }
    }

    /// Refuses this item, which was taken last.
    #[inline(always)]
    pub(crate) fn refuse_item<T>(&self, item: Found) -> Result<T, ReadError>
        ensures never { IfOk result (λ _. ⊥) }
        ensures refused { IfErr result (λ e. IsRefused e (item_of item self.now.place.lexer) self.now.place) }
    {
        Err(self.refused(item))
    }

    /// The refusal of this item, which was taken last.
    #[cold]
    #[inline(never)]
    fn refused(&self, item: Found) -> ReadError
        ensures { IsRefused result (item_of item self.now.place.lexer) self.now.place }
    {
        match item {
            Found::Token(token) => self.unexpected(token),
            Found::Invalid => ReadError::new(ParserErrorKind::InvalidToken, self.span()),
            Found::End => ReadError::new(ParserErrorKind::UnexpectedEnd, self.span()),
        }
    }

    /// The refusal of the token of this class, which was taken last.
    #[cold]
    #[inline(never)]
    fn unexpected(&self, token: Token) -> ReadError
        ensures { Says result kind.UnexpectedToken (span_at self.now.place) (Some (class_name token)) }
    {
        ReadError::with_class(ParserErrorKind::UnexpectedToken, self.span(), token)
    }

    /// Refuses the token of this class, which was taken last.
    #[inline(always)]
    pub(crate) fn refuse_token<T>(&self, token: Token) -> Result<T, ReadError>
        ensures never { IfOk result (λ _. ⊥) }
        ensures refused { IfErr result (λ e. Says e kind.UnexpectedToken (span_at self.now.place) (Some (class_name token))) }
    {
        Err(self.unexpected(token))
    }

    /// Refuses a value that is too deep, where it is expected.
    #[inline(always)]
    pub(crate) fn refuse_depth<T>(&self) -> Result<T, ReadError>
        ensures never { IfOk result (λ _. ⊥) }
        ensures refused { IfErr result (λ e. Says e kind.NestingTooDeep (span_at self.now.place) None) }
    {
        Err(self.too_deep())
    }

    /// The refusal of a value that is too deep, where it is expected.
    #[cold]
    #[inline(never)]
    fn too_deep(&self) -> ReadError
        ensures { Says result kind.NestingTooDeep (span_at self.now.place) None }
    {
        ReadError::new(ParserErrorKind::NestingTooDeep, self.span())
    }

    /// Refuses an empty tuple, from `start` to the last token.
    #[inline(always)]
    pub(crate) fn refuse_empty<T>(&self, start: usize) -> Result<T, ReadError>
        ensures never { IfOk result (λ _. ⊥) }
        ensures refused { IfErr result (λ e. Says e kind.EmptyTuple (span start self.now.place.lexer.end) None) }
    {
        Err(self.empty_tuple(start))
    }

    /// The refusal of an empty tuple, from `start` to the last token.
    #[cold]
    #[inline(never)]
    fn empty_tuple(&self, start: usize) -> ReadError
        ensures { Says result kind.EmptyTuple (span start self.now.place.lexer.end) None }
    {
        ReadError::new(ParserErrorKind::EmptyTuple, start..self.span().end)
    }

    /// The refusal of the label of this name, which was taken last.
    #[cold]
    #[inline(never)]
    pub(crate) fn repeated(&self, alloc: Global, name: &str) -> ReadError
        ensures { let detail = Some (repeated_name name.now) in
            result.kind ≢ kind.OutOfMemory → Says result kind.DuplicateFlag (span_at self.now.place) detail }
    {
        match repeated_words(alloc, name) {
            Ok(words) => ReadError::with_words(ParserErrorKind::DuplicateFlag, self.span(), words),
            Err(_) => self.out_of_memory(),
        }
    }

    #[cold]
    #[inline(never)]
    pub(crate) fn out_of_memory(&self) -> ReadError
        ensures { Says result kind.OutOfMemory (span_at self.now.place) None }
    {
        ReadError::new(ParserErrorKind::OutOfMemory, self.span())
    }

    /// What is made of the last token.
    #[inline(never)]
    pub(crate) fn leaf<P: Builder>(&self, alloc: Global, builder: P, ty: NodeType) -> P::Built
        requires { IsOneToken ty }
        ensures { P.is_built builder self.now.place.lexer.source (node ty (span_at self.now.place) no_nodes) result }
    {
        builder.leaf(alloc, ty, self.span(), self.slice())
    }

    /// What is made of a node from `start` to the last token, of these parts, which were made of a
    /// node's children.
    pub(crate) fn finish_node<P: Builder>(
        &self,
        alloc: Global,
        builder: P,
        ty: NodeType,
        start: usize,
        parts: P::Parts,
    ) -> P::Built
        requires { ArePartsOfSome (P.are_parts builder) ty parts }
        ensures { (children : List NodeTree) → P.are_parts builder self.now.place.lexer.source ty children parts
            → P.is_built builder self.now.place.lexer.source (node ty (span start self.now.place.lexer.end) (node_trees children)) result }
    {
        builder.finish(alloc, ty, start..self.span().end, parts)
    }

    /// The same of a node that has no parts.
    #[inline(never)]
    pub(crate) fn finish_empty<P: Builder>(
        &self,
        alloc: Global,
        builder: P,
        ty: NodeType,
        start: usize,
    ) -> P::Built
        requires { IsOfParts ty }
        ensures { P.is_built builder self.now.place.lexer.source (node ty (span start self.now.place.lexer.end) no_nodes) result }
    {
        let none = builder.parts(alloc, ty);
        self.finish_node(alloc, builder, ty, start, none)
    }

    /// Adds the last token to the parts: a key, or the label of a case.
    pub(crate) fn push_key<P: Builder>(
        &self,
        alloc: Global,
        builder: P,
        parts: &mut P::Parts,
        ty: NodeType,
    ) -> Result<(), ReadError>
        ensures kept { let source = self.now.place.lexer.source in
            let key = node ty (span_at self.now.place) no_nodes in
            IfOk result (λ _. (of : NodeType) (children : List NodeTree)
            → TakesKey of children → P.are_parts builder source of children parts.old
            → P.are_parts builder source of (children ++ key ∷ []) parts.new) }
        ensures memory { IfErr result (λ e. e.kind ≡ kind.OutOfMemory) }
        ensures takes { IfErr result (λ _. (source : List ℕ) (of : NodeType) (children : List NodeTree)
            → P.are_parts builder source of children parts.old → P.takes_memory builder) }
    {
        match builder.push_key(alloc, parts, ty, self.span(), self.slice()) {
            Ok(()) => Ok(()),
            Err(_) => Err(self.out_of_memory()),
        }
    }

    /// Adds the next part.
    #[inline(always)]
    pub(crate) fn push_part<P: Builder>(
        &self,
        alloc: Global,
        builder: P,
        parts: &mut P::Parts,
        built: P::Built,
    ) -> Result<(), ReadError>
        ensures kept { IfOk result (λ _. (source : List ℕ) (of : NodeType) (children : List NodeTree) (n : NodeTree)
            → TakesPart of children → P.are_parts builder source of children parts.old
            → P.is_built (P.next builder parts.old) source n built
            → P.are_parts builder source of (children ++ n ∷ []) parts.new) }
        ensures memory { IfErr result (λ e. e.kind ≡ kind.OutOfMemory) }
        ensures takes { IfErr result (λ _. (source : List ℕ) (of : NodeType) (children : List NodeTree)
            → P.are_parts builder source of children parts.old → P.takes_memory builder) }
    {
        match builder.push_part(alloc, parts, built) {
            Ok(()) => Ok(()),
            Err(_) => Err(self.out_of_memory()),
        }
    }

    /// Adds the last token as the next part.
    #[inline(always)]
    pub(crate) fn push_leaf<P: Builder>(
        &self,
        alloc: Global,
        builder: P,
        parts: &mut P::Parts,
        ty: NodeType,
    ) -> Result<(), ReadError>
        requires { IsOneToken ty }
        ensures kept { let source = self.now.place.lexer.source in
            let part = node ty (span_at self.now.place) no_nodes in
            IfOk result (λ _. (of : NodeType) (children : List NodeTree)
            → TakesPart of children → P.are_parts builder source of children parts.old
            → P.are_parts builder source of (children ++ part ∷ []) parts.new) }
        ensures memory { IfErr result (λ e. e.kind ≡ kind.OutOfMemory) }
        ensures takes { IfErr result (λ _. (source : List ℕ) (of : NodeType) (children : List NodeTree)
            → P.are_parts builder source of children parts.old → P.takes_memory builder) }
    {
        match builder.push_leaf(alloc, parts, ty, self.span(), self.slice()) {
            Ok(()) => Ok(()),
            Err(_) => Err(self.out_of_memory()),
        }
    }

    /// Where the last token, of this class, is a number in a list, by its close, adds it to the parts, and so
    /// the numbers that stand behind it in turn, each after a comma; all but the last of them, which was taken
    /// last then.
    #[inline(always)]
    pub(crate) fn push_numbers<P: Builder>(
        &mut self,
        alloc: Global,
        builder: P,
        parts: &mut P::Parts,
        close: Token,
        token: Token,
    ) -> Result<(), ReadError>
        ensures kept { IfOk result (λ _. AreNumbersAdded (P.are_parts builder) self.old.place parts.old self.new.place parts.new) }
        ensures only { IfOk result (λ _. (token ≡ Token.Number) ⊎ ((self.new.place ≡ self.old.place) × (parts.new ≡ parts.old))) }
        ensures memory { IfErr result (λ e. e.kind ≡ kind.OutOfMemory) }
        ensures takes { IfErr result (λ _. (of : NodeType) (children : List NodeTree) → ((any : List NodeTree) → TakesPart of any)
            → P.are_parts builder self.old.place.lexer.source of children parts.old → P.takes_memory builder) }
        ensures asks { AsksFor self.old self.new }
    {
        if token != Token::Number {
            return Ok(());
        }
        if close != Token::BracketClose {
            return Ok(());
        }
        self.push_number_run(alloc, builder, parts)
    }

    /// The same where the last token is a number.
    #[inline(never)]
    fn push_number_run<P: Builder>(
        &mut self,
        alloc: Global,
        builder: P,
        parts: &mut P::Parts,
    ) -> Result<(), ReadError>
        ensures kept { IfOk result (λ _. AreNumbersAdded (P.are_parts builder) self.old.place parts.old self.new.place parts.new) }
        ensures memory { IfErr result (λ e. e.kind ≡ kind.OutOfMemory) }
        ensures takes { IfErr result (λ _. (of : NodeType) (children : List NodeTree) → ((any : List NodeTree) → TakesPart of any)
            → P.are_parts builder self.old.place.lexer.source of children parts.old → P.takes_memory builder) }
        ensures asks { AsksFor self.old self.new }
    {
        'numbers: loop {
            let span = self.span();
            let text = self.slice();
            if !self.take_number() {
                return Ok(());
            }
            match builder.push_leaf(alloc, parts, NodeType::Number, span, text) {
                Ok(()) => {}
                Err(_) => return Err(self.out_of_memory()),
            }
        }
    }

    /// The place, before what a call is to read.
    fn start_here(&self) -> Start<'source>
        ensures place { result ≡ self.now.place.lexer }
        ensures inside { LiesInSource self.now.place.lexer }
        ensures sound { IsSound self.now.place }
    {
        let here = self.here();
        Start {
            lexer: here.clone(),
            source: here.source(),
            span: here.span(),
        }
    }

    /// The refusal of what was read from `start` on: for lack of memory the tokens go back to
    /// there, and the refusal stands there; any other error stays, and so does the place.
    fn refuse(&mut self, error: ParserError, start: Start<'source>) -> ParserError
        ensures other { result.kind ≢ kind.OutOfMemory → (result ≡ error) × (self.new ≡ self.old) }
        ensures memory { result.kind ≡ kind.OutOfMemory
            → (self.new.place.lexer ≡ start.entry) × Says result kind.OutOfMemory (span start.entry.start start.entry.end) None }
        ensures kind { result.kind ≡ error.kind }
        ensures within { (error.kind ≢ kind.OutOfMemory → LiesInText start.entry.source error.span) → LiesInText start.entry.source result.span }
        ensures asks { asked_of self.new ≡ asked_of self.old }
    {
        if error.kind() != ParserErrorKind::OutOfMemory {
            return error;
        }
        self.lexer = start.lexer;
        self.ahead = None;
        ParserError::new(ParserErrorKind::OutOfMemory, start.span)
    }

    /// Reads the node of a value of at most `levels` levels, and answers where it began.
    pub(crate) fn parse_whole(
        &mut self,
        alloc: Global,
        levels: u32,
    ) -> Result<(Node, Start<'source>), ParserError>
        ensures value { Gives result levels expectation.value [] self.old.place self.new.place [] }
        ensures tree { IfOk result (λ read. IsNodeTaken levels self.old.place self.new.place read.0) }
        ensures start { IfOk result (λ read. read.1 ≡ self.old.place.lexer) }
        ensures within { IfErr result (λ e. LiesInText self.old.place.lexer.source e.span) }
        ensures memory { IfErr result (λ e. StaysWithout e self.old.place self.new.place) }
        ensures asks { AsksFor self.old self.new }
    {
        let start = self.start_here();
        match self.parse_node(alloc, NodeBuilder, levels) {
            Ok(node) => Ok((node, start)),
            Err(error) => Err(self.refuse(error.into_error(), start)),
        }
    }

    /// Reads a value of the type, of at most `levels` levels.
    pub(crate) fn parse_typed<V: WasmValue>(
        &mut self,
        alloc: Global,
        ty: &V::Type,
        levels: u32,
    ) -> Result<V, ParserError>
        ensures value { IfOk result (IsValueTaken V.tree V.is_of (V.Type.tree ty.now) levels self.old.place self.new.place) }
        ensures refused { IfErr result (λ e. RefusesValue V.is_full (V.Type.tree ty.now) levels e self.old.place self.new.place) }
        ensures within { IfErr result (λ e. LiesInText self.old.place.lexer.source e.span) }
        ensures caused { IfErr result (IsCausedBetween levels self.old.place self.new.place) }
        ensures memory { IfErr result (λ e. StaysWithout e self.old.place self.new.place) }
        ensures spares { IsPlain (V.Type.tree ty.now) → BeginsRow self.old.place → HoldsNoBrace self.old.place
            → IfErr result (λ e. e.kind ≢ kind.OutOfMemory) }
        ensures asks { AsksFor self.old self.new }
    {
        let start = self.start_here();
        let builder: ValueBuilder<V> = ValueBuilder::new(ty);
        match self.parse_node(alloc, builder, levels) {
            Ok(Ok(value)) => Ok(value),
            Ok(Err(error)) => Err(self.refuse(error.into_error(), start)),
            Err(error) => Err(self.refuse(error.into_error(), start)),
        }
    }

    /// Whether only whitespace is left. The place stays; what stands next is refused.
    pub(crate) fn finish(&mut self) -> Result<(), ParserError>
        ensures stays { self.new.place ≡ self.old.place }
        ensures answer { Finishes result self.old.place }
        ensures within { IfErr result (λ e. LiesInText self.old.place.lexer.source e.span) }
        ensures asks { asked_of self.new ≡ self.old.place.taken + 1 }
    {
        self.peek();
        match self.ahead {
            Some(item) => trailing(item, &self.lexer),
            None => Ok(()),
        }
    }

    /// Reads the parameters of a call, each of at most as many levels: None for `()`, else the node of a
    /// tuple. Out of memory is refused where the call began.
    pub(crate) fn parse_params(
        &mut self,
        alloc: Global,
        levels: u32,
    ) -> Result<Option<Node>, ParserError>
        ensures taken { IfOk result (AreParamsTaken levels self.old.place self.new.place) }
        ensures refused { IfErr result (λ e. e.kind ≢ kind.OutOfMemory → RefusesTuple levels e self.old.place self.new.place) }
        ensures memory { IfErr result (λ e. StaysWithout e self.old.place self.new.place) }
        ensures within { IfErr result (λ e. LiesInText self.old.place.lexer.source e.span) }
    {
        let start = self.start_here();
        if let Err(error) = self.expect(Token::ParenOpen) {
            return Err(error.into_error());
        }
        if self.next_is(Token::ParenClose) {
            return match self.expect(Token::ParenClose) {
                Ok(()) => Ok(None),
                Err(error) => Err(error.into_error()),
            };
        }
        match self.parse_items(alloc, NodeBuilder, levels, Token::ParenClose) {
            Ok(tuple) => Ok(Some(tuple)),
            Err(error) => Err(self.refuse(error.into_error(), start)),
        }
    }
}
