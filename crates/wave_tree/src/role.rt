//! What tokens are to the parser.
ghost use Rattle.std.specs.Prelude.{◌≡◌, MatchOption};
ghost use Rattle.wave_lex.specs.declared.lex.Token.TheVariants.{LabelOrKeyword};
ghost use Rattle.wave_tree.specs.Private.TokenRoles.{IsKeyClass};
ghost use Rattle.wave_tree.specs.Private.ParsedNodes.{key_node_type};
ghost use Rattle.wave_tree.specs.ValueStarts.{IsValueStart};

use wave_lex::lex::Token;
use wave_node::ast::NodeType;

/// What a value begins with.
#[derive(Clone, Copy)]
pub enum ValueStart {
    /// A value on its own, whatever stands after it. Its node has this type.
    Alone(NodeType),
    /// `some`
    Some,
    /// `ok`, `err` or the label of a case, on its own or with a payload in parentheses. Its node has the
    /// first type, or the second with a payload.
    Label(NodeType, NodeType),
    /// `(`
    Paren,
    /// `[`
    Bracket,
    /// `{`
    Brace,
    /// No value begins so.
    Nothing,
}

/// What a value begins with whose first token has this class and text.
#[inline(always)]
pub fn value_start(token: Token, text: &str) -> ValueStart
    ensures { IsValueStart token text.now result }
{
    match token {
        Token::Number => ValueStart::Alone(NodeType::Number),
        Token::Char => ValueStart::Alone(NodeType::Char),
        Token::String => ValueStart::Alone(NodeType::String),
        Token::MultilineString => ValueStart::Alone(NodeType::MultilineString),
        Token::LabelOrKeyword => label_start(text),
        Token::ParenOpen => ValueStart::Paren,
        Token::BracketOpen => ValueStart::Bracket,
        Token::BraceOpen => ValueStart::Brace,
        _ => ValueStart::Nothing,
    }
}

/// What a value begins with whose first token is the label of this text.
fn label_start(text: &str) -> ValueStart
    ensures { IsValueStart LabelOrKeyword text.now result }
{
    if text == "true" {
        ValueStart::Alone(NodeType::BoolTrue)
    } else if text == "false" {
        ValueStart::Alone(NodeType::BoolFalse)
    } else if text == "inf" || text == "nan" {
        ValueStart::Alone(NodeType::Number)
    } else if text == "none" {
        ValueStart::Alone(NodeType::OptionNone)
    } else if text == "some" {
        ValueStart::Some
    } else if text == "ok" {
        ValueStart::Label(NodeType::ResultOk, NodeType::ResultOk)
    } else if text == "err" {
        ValueStart::Label(NodeType::ResultErr, NodeType::ResultErr)
    } else {
        ValueStart::Label(NodeType::Label, NodeType::VariantWithPayload)
    }
}

/// The type of a key's node.
pub(crate) fn key_type(token: Token) -> Option<NodeType>
    ensures { MatchOption result (IsKeyClass token → ⊥) (λ ty. IsKeyClass token × (ty ≡ key_node_type token)) }
{
    match token {
        Token::LabelOrKeyword => Some(NodeType::Label),
        Token::Number => Some(NodeType::Number),
        Token::Char => Some(NodeType::Char),
        Token::String => Some(NodeType::String),
        Token::MultilineString => Some(NodeType::MultilineString),
        _ => None,
    }
}
