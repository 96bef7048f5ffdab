//! Recursive descent: what is made of a value, a call for each of its levels.
ghost use Rattle.std.specs.Prelude.{◌≡◌, ℕ, ◌+◌, ◌-◌, ◌++◌, ◌<◌, Some, Ok, IfOk, IfErr, List, [], ◌∷◌};
ghost use Rattle.wave_lex.specs.declared.lex.Token.TheVariants as lex_class;
ghost use Rattle.wave_lex.specs.declared.error.ParserErrorKind.TheVariants as kind;
ghost use Rattle.wave_grammar.specs.ParserPosition.{Place, TakesItem, span_at, text_at};
ghost use Rattle.wave_grammar.specs.Tree.{word_of, some_word};
ghost use Rattle.wave_grammar.specs.PrefixAutomaton as expectation;
ghost use Rattle.wave_tree.specs.Private.SyntaxErrors.{GivesWithin, GivesAnywhere};
ghost use Rattle.wave_lex.specs.Tokenization.{span};
ghost use Rattle.wave_tree.specs.Private.TokenRoles.{form_of, IsClose};
ghost use Rattle.wave_grammar.specs.FlagParts.{AreFlagsOf, flag_nodes};
ghost use Rattle.wave_grammar.specs.NodeParts.{IsOfParts, IsOneToken};
ghost use Rattle.wave_grammar.specs.NodeTree.{node, no_nodes};
ghost use Rattle.wave_grammar.specs.declared.form.NodeType.TheVariants as node_type;
ghost use Rattle.wave_tree.specs.ParsedNodes.{IsParsed, TakesClass};
ghost use Rattle.wave_tree.specs.Private.ParsedNodes.{IsNodeBuilt, IsParsedBehind, IsOfPayload, IsMaybe, IsInParens, IsOfItems, IsOfEntries, IsOfFlags, HasPartBehind, WithParts, label_children};
ghost use Rattle.wave_tree.specs.Private.ParserState.{AsksFor, OnlyOutOfMemory};
ghost use Rattle.wave_tree.specs.ValueStarts.{IsValueStart};

use crate::role::{ValueStart, key_type, value_start};
use crate::tokens::Tokens;
use std::alloc::Global;
use std::collections::BTreeMap;
use wave_grammar::builder::Builder;
use wave_grammar::label::label_name;
use wave_leaf::error::ReadError;
use wave_lex::found::Found;
use wave_lex::lex::{Span, Token};
use wave_node::ast::NodeType;

/// No parts yet of a node of this type. They are begun in a frame of their own, since each level of a
/// value has one of those below.
#[inline(never)]
fn no_parts<P: Builder>(alloc: Global, builder: P, ty: NodeType) -> P::Parts
    ensures { (source : List ℕ) → IsOfParts ty → P.are_parts builder source ty [] result }
{
    builder.parts(alloc, ty)
}

impl<'source> Tokens<'source> {
    /// Reads a value.
    pub(crate) fn parse_node<P: Builder>(
        &mut self,
        alloc: Global,
        builder: P,
        levels: u32,
    ) -> Result<P::Built, ReadError>
        ensures led { GivesWithin result levels expectation.value [] self.old.place self.new.place }
        ensures tree { IfOk result (IsNodeBuilt (P.is_built builder) self.old.place (IsParsed levels self.old.place self.new.place)) }
        ensures memory { IfErr result (OnlyOutOfMemory (P.takes_memory builder) self.old.place) }
        ensures asks { AsksFor self.old self.new }
    {
        if levels == 0 {
            return self.refuse_depth();
        }
        let token = self.advance()?;
        let start = value_start(token, self.slice());
        self.parse_after_token(alloc, builder, levels, token, start)
    }

    /// Reads a part of a value, and adds it to the parts.
    #[cycle(parser)]
    #[inline(always)]
    fn parse_part<P: Builder>(
        &mut self,
        alloc: Global,
        builder: P,
        parts: &mut P::Parts,
        levels: u32,
    ) -> Result<(), ReadError>
        ensures led { GivesWithin result levels expectation.value [] self.old.place self.new.place }
        ensures kept { IfOk result (λ _. HasPartBehind (P.are_parts builder) levels self.old.place self.new.place parts.old parts.new) }
        ensures memory { IfErr result (WithParts (P.are_parts builder) parts.old (OnlyOutOfMemory (P.takes_memory builder) self.old.place)) }
        ensures asks { AsksFor self.old self.new }
    {
        if levels == 0 {
            return self.refuse_depth();
        }
        let item = self.take();
        let Found::Token(token) = item else {
            return self.refuse_item(item);
        };
        self.parse_part_after_token(alloc, builder, parts, levels, token)
    }

    /// The same after the part's first token, which was taken last. What is made of one token is added
    /// where it was made, and this stands in the loop that asks for parts: an answer of its own would be
    /// copied for each of them.
    #[cycle(parser)]
    #[inline(always)]
    fn parse_part_after_token<P: Builder>(
        &mut self,
        alloc: Global,
        builder: P,
        parts: &mut P::Parts,
        levels: u32,
        token: Token,
    ) -> Result<(), ReadError>
        requires { 0 < levels }
        ensures led { (first : Place) → TakesClass token first self.old.place → GivesWithin result levels expectation.value [] first self.new.place }
        ensures kept { (first : Place) → TakesClass token first self.old.place
            → IfOk result (λ _. HasPartBehind (P.are_parts builder) levels first self.new.place parts.old parts.new) }
        ensures memory { (first : Place) → TakesClass token first self.old.place
            → IfErr result (WithParts (P.are_parts builder) parts.old (OnlyOutOfMemory (P.takes_memory builder) first)) }
        ensures asks { AsksFor self.old self.new }
    {
        let start = value_start(token, self.slice());
        if let ValueStart::Alone(ty) = start {
            return self.push_leaf(alloc, builder, parts, ty);
        }
        self.parse_nested_part(alloc, builder, parts, levels, token, start)
    }

    /// The same of a part that begins so. It stands apart since what it makes is zeroed where it begins,
    /// for which a part of one token needn't wait.
    #[cycle(parser)]
    #[inline(always)]
    fn parse_nested_part<P: Builder>(
        &mut self,
        alloc: Global,
        builder: P,
        parts: &mut P::Parts,
        levels: u32,
        token: Token,
        start: ValueStart,
    ) -> Result<(), ReadError>
        requires levels { 0 < levels }
        requires start { IsValueStart token (text_at self.old.place) start }
        ensures led { (first : Place) → TakesClass token first self.old.place → GivesWithin result levels expectation.value [] first self.new.place }
        ensures kept { (first : Place) → TakesClass token first self.old.place
            → IfOk result (λ _. HasPartBehind (P.are_parts builder) levels first self.new.place parts.old parts.new) }
        ensures memory { (first : Place) → TakesClass token first self.old.place
            → IfErr result (WithParts (P.are_parts builder) parts.old (OnlyOutOfMemory (P.takes_memory builder) first)) }
        ensures asks { AsksFor self.old self.new }
    {
        let part = builder.part(parts);
        let built = self.parse_after_token(alloc, part, levels, token, start)?;
        self.push_part(alloc, builder, parts, built)
    }

    /// Reads what stands after the first token of a value, which is of this class and begins a value so.
    /// Each level of a value takes such a call, so neither it nor what it calls is inlined, and frames
    /// stay small.
    #[cycle(parser)]
    #[inline(never)]
    fn parse_after_token<P: Builder>(
        &mut self,
        alloc: Global,
        builder: P,
        levels: u32,
        token: Token,
        start: ValueStart,
    ) -> Result<P::Built, ReadError>
        requires levels { 0 < levels }
        requires start { IsValueStart token (text_at self.old.place) start }
        ensures led { (first : Place) → TakesClass token first self.old.place → GivesWithin result levels expectation.value [] first self.new.place }
        ensures tree { IfOk result (IsNodeBuilt (P.is_built builder) self.old.place (IsParsedBehind token levels self.old.place self.new.place)) }
        ensures memory { (first : Place) → TakesClass token first self.old.place → IfErr result (OnlyOutOfMemory (P.takes_memory builder) first) }
        ensures asks { AsksFor self.old self.new }
    {
        match start {
            ValueStart::Alone(ty) => Ok(self.leaf(alloc, builder, ty)),
            ValueStart::Some => self.parse_payload(
                alloc,
                builder,
                levels - 1,
                NodeType::OptionSome,
            ),
            ValueStart::Label(alone, with) => {
                self.parse_optional_payload(alloc, builder, levels - 1, alone, with)
            }
            ValueStart::Paren => self.parse_items(alloc, builder, levels - 1, Token::ParenClose),
            ValueStart::Bracket => self.parse_items(
                alloc,
                builder,
                levels - 1,
                Token::BracketClose,
            ),
            ValueStart::Brace => self.parse_braces(alloc, builder, levels - 1),
            ValueStart::Nothing => self.refuse_token(token),
        }
    }

    /// Reads the payload after a label, where an open parenthesis stands there.
    #[cycle(parser)]
    #[inline(always)]
    fn parse_optional_payload<P: Builder>(
        &mut self,
        alloc: Global,
        builder: P,
        levels: u32,
        alone: NodeType,
        with: NodeType,
    ) -> Result<P::Built, ReadError>
        requires { IsOneToken alone × IsOfPayload with }
        ensures led { GivesWithin result (levels + 1) expectation.behind_label [] self.old.place self.new.place }
        ensures tree { IfOk result (IsNodeBuilt (P.is_built builder) self.old.place (IsMaybe levels alone with self.old.place self.new.place)) }
        ensures memory { IfErr result (OnlyOutOfMemory (P.takes_memory builder) self.old.place) }
        ensures asks { AsksFor self.old self.new }
    {
        if !self.next_is(Token::ParenOpen) {
            return Ok(self.leaf(alloc, builder, alone));
        }
        self.parse_payload(alloc, builder, levels, with)
    }

    /// Reads a payload in parentheses after the keyword or the label that was taken last, in a node of
    /// this type.
    #[cycle(parser)]
    #[inline(never)]
    fn parse_payload<P: Builder>(
        &mut self,
        alloc: Global,
        builder: P,
        levels: u32,
        ty: NodeType,
    ) -> Result<P::Built, ReadError>
        requires { IsOfPayload ty }
        ensures led { GivesWithin result (levels + 1) expectation.paren [] self.old.place self.new.place }
        ensures tree { IfOk result (IsNodeBuilt (P.is_built builder) self.old.place (IsInParens levels ty self.old.place self.new.place)) }
        ensures memory { IfErr result (OnlyOutOfMemory (P.takes_memory builder) self.old.place) }
        ensures asks { AsksFor self.old self.new }
    {
        let start = self.span().start;
        let mut parts = no_parts(alloc, builder, ty);
        if let Err(error) = self.push_label(alloc, builder, &mut parts, ty) {
            return Err(error);
        }
        if let Err(error) = self.expect(Token::ParenOpen) {
            return Err(error);
        }
        if let Err(error) = self.parse_part(alloc, builder, &mut parts, levels) {
            return Err(error);
        }
        if let Err(error) = self.expect(Token::ParenClose) {
            return Err(error);
        }
        Ok(self.finish_node(alloc, builder, ty, start, parts))
    }

    /// Adds the label of a case, which was taken last, as the first part of its node; no part of other
    /// nodes.
    #[inline(always)]
    fn push_label<P: Builder>(
        &self,
        alloc: Global,
        builder: P,
        parts: &mut P::Parts,
        ty: NodeType,
    ) -> Result<(), ReadError>
        ensures kept { let source = self.now.place.lexer.source in
            IfOk result (λ _. P.are_parts builder source ty [] parts.old → P.are_parts builder source ty (label_children ty (span_at self.now.place)) parts.new) }
        ensures memory { IfErr result (λ e. e.kind ≡ kind.OutOfMemory) }
        ensures takes { let source = self.now.place.lexer.source in
            IfErr result (λ _. P.are_parts builder source ty [] parts.old → P.takes_memory builder) }
    {
        match ty {
            NodeType::VariantWithPayload => self.push_key(alloc, builder, parts, NodeType::Label),
            _ => Ok(()),
        }
    }

    /// Reads the items of a tuple or a list, and its close.
    #[cycle(parser)]
    #[inline(never)]
    pub(crate) fn parse_items<P: Builder>(
        &mut self,
        alloc: Global,
        builder: P,
        levels: u32,
        close: Token,
    ) -> Result<P::Built, ReadError>
        requires { IsClose close }
        ensures led { GivesWithin result (levels + 1) expectation.first_item (form_of close ∷ []) self.old.place self.new.place }
        ensures tree { IfOk result (IsNodeBuilt (P.is_built builder) self.old.place (IsOfItems levels close self.old.place self.new.place)) }
        ensures memory { IfErr result (OnlyOutOfMemory (P.takes_memory builder) self.old.place) }
        ensures asks { AsksFor self.old self.new }
    {
        let start = self.span().start;
        if self.next_is(close) {
            self.expect(close)?;
            if close == Token::ParenClose {
                return self.refuse_empty(start);
            }
            return Ok(self.finish_empty(alloc, builder, NodeType::List, start));
        }
        if levels == 0 {
            return self.refuse_depth();
        }
        let ty = if close == Token::ParenClose {
            NodeType::Tuple
        } else {
            NodeType::List
        };
        let mut token = self.advance()?;
        let mut parts = no_parts(alloc, builder, ty);
        'items: loop {
            if let Err(error) = self.push_numbers(alloc, builder, &mut parts, close, token) {
                return Err(error);
            }
            if let Err(error) = self.parse_part_after_token(
                alloc, builder, &mut parts, levels, token,
            ) {
                return Err(error);
            }
            let item = self.take();
            let Found::Token(mark) = item else {
                return self.refuse_item(item);
            };
            if mark == close {
                return Ok(self.finish_node(alloc, builder, ty, start, parts));
            }
            if mark != Token::Comma {
                return self.refuse_token(mark);
            }
            let item = self.take();
            let Found::Token(next) = item else {
                return self.refuse_item(item);
            };
            if next == close {
                return Ok(self.finish_node(alloc, builder, ty, start, parts));
            }
            token = next;
        }
    }

    /// Reads what stands after an open brace.
    #[cycle(parser)]
    #[inline(never)]
    fn parse_braces<P: Builder>(
        &mut self,
        alloc: Global,
        builder: P,
        levels: u32,
    ) -> Result<P::Built, ReadError>
        ensures led { GivesWithin result (levels + 1) expectation.in_braces [] self.old.place self.new.place }
        ensures tree { IfOk result (IsNodeBuilt (P.is_built builder) self.old.place
            (IsParsedBehind lex_class.BraceOpen (levels + 1) self.old.place self.new.place)) }
        ensures asks { AsksFor self.old self.new }
    {
        let start = self.span().start;
        let token = self.advance()?;
        if token == Token::BraceClose {
            return Ok(self.finish_empty(alloc, builder, NodeType::EmptySet, start));
        }
        if token == Token::Colon {
            self.expect(Token::BraceClose)?;
            return Ok(self.finish_empty(alloc, builder, NodeType::TupleSet, start));
        }
        if token == Token::LabelOrKeyword {
            if self.next_is(Token::Colon) {
                return self.parse_entries(alloc, builder, levels, start, NodeType::Label);
            }
            return self.parse_flags(alloc, builder, start);
        }
        let Some(ty) = key_type(token) else {
            return self.refuse_token(token);
        };
        self.parse_entries(alloc, builder, levels, start, ty)
    }

    /// Reads the entries whose first key, of a node of this type, was taken last, and the close.
    #[cycle(parser)]
    #[inline(never)]
    fn parse_entries<P: Builder>(
        &mut self,
        alloc: Global,
        builder: P,
        levels: u32,
        start: usize,
        first: NodeType,
    ) -> Result<P::Built, ReadError>
        ensures led { GivesWithin result (levels + 1) expectation.behind_key [] self.old.place self.new.place }
        ensures tree { IfOk result (IsNodeBuilt (P.is_built builder) self.old.place (IsOfEntries levels start first self.old.place self.new.place)) }
        ensures asks { AsksFor self.old self.new }
    {
        let mut parts = no_parts(alloc, builder, NodeType::TupleSet);
        let mut key = first;
        'entries: loop {
            if let Err(error) = self.push_key(alloc, builder, &mut parts, key) {
                return Err(error);
            }
            if let Err(error) = self.expect(Token::Colon) {
                return Err(error);
            }
            if let Err(error) = self.parse_part(alloc, builder, &mut parts, levels) {
                return Err(error);
            }
            let item = self.take();
            let Found::Token(token) = item else {
                return self.refuse_item(item);
            };
            if token == Token::BraceClose {
                return Ok(self.finish_node(alloc, builder, NodeType::TupleSet, start, parts));
            }
            if token != Token::Comma {
                return self.refuse_token(token);
            }
            let item = self.take();
            let Found::Token(next) = item else {
                return self.refuse_item(item);
            };
            if next == Token::BraceClose {
                return Ok(self.finish_node(alloc, builder, NodeType::TupleSet, start, parts));
            }
            let Some(ty) = key_type(next) else {
                return self.refuse_token(next);
            };
            key = ty;
        }
    }

    /// Reads the flags after the first, which was read, and the close.
    #[inline(never)]
    fn parse_flags<P: Builder>(
        &mut self,
        alloc: Global,
        builder: P,
        start: usize,
    ) -> Result<P::Built, ReadError>
        requires { (next : Place) → TakesItem self.old.place (Some (Ok lex_class.Colon)) next → ⊥ }
        ensures led { GivesAnywhere result (expectation.behind_word (text_at self.old.place)) self.old.place self.new.place }
        ensures tree { IfOk result (IsNodeBuilt (P.is_built builder) self.old.place (IsOfFlags start self.old.place self.new.place)) }
        ensures asks { AsksFor self.old self.new }
    {
        let mut flags = BTreeMap::new(alloc);
        if flags.insert(label_name(self.slice()), self.span()).is_err() {
            return Err(self.out_of_memory());
        }
        'flags: loop {
            let token = self.advance()?;
            if token == Token::BraceClose {
                return self.finish_flags(alloc, builder, start, flags);
            }
            if token != Token::Comma {
                return self.refuse_token(token);
            }
            let next = self.advance()?;
            if next == Token::BraceClose {
                return self.finish_flags(alloc, builder, start, flags);
            }
            if next != Token::LabelOrKeyword {
                return self.refuse_token(next);
            }
            let name = label_name(self.slice());
            match flags.insert(name, self.span()) {
                Ok(None) => {}
                Ok(Some(_)) => return Err(self.repeated(alloc, name)),
                Err(_) => return Err(self.out_of_memory()),
            }
        }
    }

    /// What is made of these flags, by their names, up to the last token.
    fn finish_flags<P: Builder>(
        &self,
        alloc: Global,
        builder: P,
        start: usize,
        flags: BTreeMap<&'source str, Span>,
    ) -> Result<P::Built, ReadError>
        ensures built { let source = self.now.place.lexer.source in
            IfOk result (λ built. AreFlagsOf source flags.entry
            → P.is_built builder source (node node_type.Flags (span start self.now.place.lexer.end) (flag_nodes flags.entry)) built) }
        ensures memory { IfErr result (λ e. e.kind ≡ kind.OutOfMemory) }
    {
        match builder.flags(alloc, start..self.span().end, flags) {
            Ok(built) => Ok(built),
            Err(_) => Err(self.out_of_memory()),
        }
    }
}
