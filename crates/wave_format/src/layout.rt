//! Texts, laid out.
ghost use Rattle.std.specs.Prelude.{◌≡◌, ℕ, IfOk, take, string_bytes};
ghost use Rattle.wave_lex.specs.Tokenization.{remainder_of};
ghost use Rattle.wave_grammar.specs.Token.{TokenizesTo};
ghost use Rattle.wave_grammar.specs.Tree.{Tree};
ghost use Rattle.wave_grammar.specs.Denotes.{SpellsText};
ghost use Rattle.wave_format.specs.Private.Laying.{no_params, IsLaid, IsEmptyLaid};

use crate::measure::measures;
use crate::options::FormatOptions;
use crate::page::Page;
use std::alloc::{AllocError, Global};
use wave_lex::lex::Lexer;

/// The source of the lexer, with what is behind its last item laid out over lines.
pub fn lay_out(
    alloc: Global,
    mut lexer: Lexer,
    options: FormatOptions,
) -> Result<String, AllocError>
    ensures trees { (n : ℕ) (t : Tree) → SpellsText n (remainder_of lexer.entry) t
        → IfOk result (λ text. IsLaid n t (take lexer.entry.end lexer.entry.source) (remainder_of lexer.entry) (string_bytes text)) }
    ensures none { TokenizesTo (remainder_of lexer.entry) no_params
        → IfOk result (λ text. IsEmptyLaid (take lexer.entry.end lexer.entry.source) (remainder_of lexer.entry) (string_bytes text)) }
{
    let measures = measures(alloc, lexer.clone())?;
    let source = lexer.source();
    let name = &source[..lexer.span().end];
    let mut page = Page::new(alloc, name, measures.as_slice(), options)?;
    let mut number = 0;
    'tokens: loop {
        let end = lexer.span().end;
        match lexer.next() {
            Some(Ok(class)) => {
                let gap = &source[end..lexer.span().start];
                page.put(number, class, gap, lexer.slice())?;
                number = number.saturating_add(1);
            }
            Some(Err(_)) => return page.finish_verbatim(&source[end..]),
            None => return page.finish(&source[end..]),
        }
    }
}
