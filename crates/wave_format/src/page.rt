//! A text, as it is laid out.
ghost use Rattle.std.specs.Prelude.{◌≡◌, ◌++◌, ◌&&◌, [], true, false, None, IsTrue, IfOk, string_bytes, replicate};
ghost use Rattle.wave_lex.specs.Multiline.{pieces};
ghost use Rattle.wave_format.specs.Words.{is_comment, trimmed};
ghost use Rattle.wave_format.specs.Private.Brackets.{ends_item, is_close, is_label, brackets_after, HasItems};
ghost use Rattle.wave_format.specs.Private.Sheets.{Sheet, Writes, BeginsLine, PutsLine, PutsLines, PutsSpace, PutsToken, PutsComma, Puts, is_comma, is_joining, is_paren};

use crate::measure::{Measure, is_close, is_open, is_spaced};
use crate::options::FormatOptions;
use std::alloc::{AllocError, Global};
use std::marker::Model;
use wave_lex::lex::Token;

/// How a bracket and what stands in it are laid out.
#[derive(Clone, Copy, PartialEq, Eq)]
enum Form {
    /// On one line.
    Line,
    /// The bracket of a payload that stands right beside those of its value.
    Hug,
    /// Each item on lines of its own.
    Block,
}

/// A bracket that is open.
#[derive(Clone, Copy)]
struct Bracket {
    form: Form,
    /// Whether a payload stands in it, and no items.
    payload: bool,
    /// The indentation of the line that it is opened in.
    indent: usize,
    /// How many columns what stands right behind its close takes.
    behind: usize,
}

/// A text that is laid out, as far as it is written.
#[derive(Drop)]
pub struct Page<'measures> {
    text: String,
    measures: &'measures [Measure],
    options: FormatOptions,
    brackets: Vec<Bracket>,
    /// The class of the token that was put last; none at the beginning.
    last: Option<Token>,
    /// Whether that token is a comma that isn't written yet.
    held: bool,
    /// How many scalars stand in the line.
    column: usize,
    /// How many blanks the line begins with.
    indent: usize,
    /// Whether the line ends with a comment.
    in_comment: bool,
    /// How many line feeds stand in the source behind what was put last.
    feeds: usize,
}

impl<'measures> Model for Page<'measures> {
    ghost use Rattle.std.specs.Prelude.{map, reverse, string_bytes};
    ghost use Rattle.wave_format.specs.Private.Sheets.{Sheet};

    ghost Value = { Sheet };

    ghost view = { λ p. record { text = string_bytes p.text; payloads = map (λ b. b.payload) (reverse p.brackets.items); last = p.last; held = p.held; in_comment = p.in_comment } };
}

impl<'measures> Page<'measures> {
    /// A page that begins with this name, for tokens of these measures.
    pub fn new(
        alloc: Global,
        name: &str,
        measures: &'measures [Measure],
        options: FormatOptions,
    ) -> Result<Page<'measures>, AllocError>
        ensures { IfOk result (λ p. p ≡ record { text = name.now; payloads = []; last = None; held = false; in_comment = false }) }
    {
        Ok(Page {
            text: String::from_str(alloc, name)?,
            measures,
            options,
            brackets: Vec::new(alloc),
            last: None,
            held: false,
            column: name.chars().count(),
            indent: 0,
            in_comment: false,
            feeds: 0,
        })
    }

    /// Puts the token of this number, class and text, and the comments of the whitespace before it.
    pub fn put(
        &mut self,
        number: usize,
        class: Token,
        gap: &str,
        text: &str,
    ) -> Result<(), AllocError>
        ensures { IfOk result (λ _. Puts class gap.now text.now self.old self.new) }
    {
        self.put_comma(class)?;
        if self.joins(class) {
            self.put_token(number, class, text)?;
            return self.put_comments(gap);
        }
        self.put_comments(gap)?;
        self.put_space(class)?;
        self.put_token(number, class, text)
    }

    /// Puts the comments of the whitespace at the end, and gives the text.
    pub fn finish(mut self, gap: &str) -> Result<String, AllocError>
        ensures { IfOk result (λ text. (end : Sheet) × PutsLines (pieces gap.now) self.entry end × (string_bytes text ≡ end.text)) }
    {
        self.put_comments(gap)?;
        Ok(self.into_text())
    }

    /// Puts what is no token as it stands, and gives the text.
    pub fn finish_verbatim(mut self, rest: &str) -> Result<String, AllocError> {
        self.write(rest)?;
        Ok(self.into_text())
    }

    /// The text.
    fn into_text(self) -> String
        ensures { string_bytes result ≡ self.entry.text }
    {
        let Page { text, .. } = self;
        text
    }

    /// Before a token of the class, writes a comma that isn't written yet, or one behind the last item.
    /// Before a closing bracket on the same line none is written.
    fn put_comma(&mut self, class: Token) -> Result<(), AllocError>
        ensures { IfOk result (λ _. PutsComma class self.old self.new) }
    {
        let held = self.held;
        self.held = false;
        let due = if is_close(class) {
            !held && self.ends_item()
        } else {
            held
        };
        if due {
            self.write(",")?;
            self.last = Some(Token::Comma);
        }
        Ok(())
    }

    /// Whether an item ends here that a comma may follow, on a line of its own.
    fn ends_item(&self) -> bool
        ensures last { IsTrue result → ends_item self.now.last ≡ true }
        ensures items { IsTrue result → HasItems self.now.payloads }
    {
        let Some(last) = self.last else {
            return false;
        };
        match self.brackets.last() {
            Some(bracket) => {
                bracket.form == Form::Block
                    && !bracket.payload
                    && last != Token::Comma
                    && last != Token::Colon
                    && !is_open(last)
            }
            None => false,
        }
    }

    /// Whether a token of the class is written right behind the last one, before any comments between.
    fn joins(&self, class: Token) -> bool
        ensures joins { IsTrue result → is_joining class ≡ true }
        ensures apart { result ≡ false → is_comma class ≡ false }
    {
        match class {
            Token::Comma => true,
            Token::Colon => self.last != Some(Token::BraceOpen),
            Token::ParenOpen => match self.last {
                Some(last) => last == Token::LabelOrKeyword,
                None => !self.text.is_empty() && !self.in_comment,
            },
            _ => false,
        }
    }

    /// Puts the comments of whitespace.
    fn put_comments(&mut self, gap: &str) -> Result<(), AllocError>
        ensures { IfOk result (λ _. PutsLines (pieces gap.now) self.old self.new) }
    {
        let mut rest = gap;
        while let Some((line, behind)) = rest.split_once('\n') {
            self.put_comment(line.trim_ascii())?;
            self.feeds = self.feeds.saturating_add(1);
            rest = behind;
        }
        self.put_comment(rest.trim_ascii())?;
        if self.joined() {
            self.feeds = 0;
        }
        Ok(())
    }

    /// Whether the last token joins what is before it, and no comment was put behind it.
    fn joined(&self) -> bool {
        !self.in_comment
            && matches!(
                self.last,
                Some(Token::Comma | Token::Colon | Token::ParenOpen)
            )
    }

    /// Puts the comment that a line of whitespace is; other lines are left out.
    fn put_comment(&mut self, line: &str) -> Result<(), AllocError>
        requires { is_comment line.now ≡ true → trimmed line.now ≡ line.now }
        ensures { IfOk result (λ _. PutsLine (is_comment line.now) line.now self.old self.new) }
    {
        if !line.starts_with("//") {
            return Ok(());
        }
        if self.in_comment || self.last.is_some() && self.feeds > 0 {
            self.new_line(self.item_indent(), self.keeps_empty_line())?;
        } else if self.last.is_some() {
            self.text.push(' ')?;
        }
        self.text.push_str(line)?;
        self.in_comment = true;
        self.feeds = 0;
        Ok(())
    }

    /// Writes the whitespace before a token of the class.
    fn put_space(&mut self, class: Token) -> Result<(), AllocError>
        ensures { IfOk result (λ _. PutsSpace class self.old self.new) }
    {
        if is_close(class) {
            return self.put_space_before_close(class);
        }
        if self.in_comment || self.begins_item() {
            return self.new_line(self.item_indent(), self.keeps_empty_line());
        }
        if is_spaced(self.last, class) {
            self.text.push(' ')?;
            self.column = self.column.saturating_add(1);
        }
        Ok(())
    }

    /// Writes the whitespace before a closing bracket.
    fn put_space_before_close(&mut self, class: Token) -> Result<(), AllocError>
        requires { is_close class ≡ true }
        ensures { IfOk result (λ _. PutsSpace class self.old self.new) }
    {
        let last_opens = match self.last {
            Some(last) => is_open(last),
            None => true,
        };
        let (indent, over_lines) = match self.brackets.last() {
            Some(bracket) => (bracket.indent, bracket.form == Form::Block && !last_opens),
            None => (0, false),
        };
        if self.in_comment || over_lines {
            self.new_line(indent, false)?;
        }
        Ok(())
    }

    /// Whether the next token begins an item on a line of its own.
    fn begins_item(&self) -> bool {
        let Some(bracket) = self.brackets.last() else {
            return false;
        };
        match self.last {
            Some(last) => bracket.form == Form::Block && (last == Token::Comma || is_open(last)),
            None => false,
        }
    }

    /// Whether an empty line of the source is kept here: it is, but behind a colon or right behind an opening bracket.
    fn keeps_empty_line(&self) -> bool {
        match self.last {
            Some(Token::Colon) => false,
            Some(last) => self.in_comment || !is_open(last),
            None => true,
        }
    }

    /// The indentation of what stands in the innermost bracket; between a key and its value a step more.
    fn item_indent(&self) -> usize {
        let Some(bracket) = self.brackets.last() else {
            return 0;
        };
        let step = self.options.indent as usize;
        let item = bracket.indent.saturating_add(step);
        if self.last == Some(Token::Colon) {
            item.saturating_add(step)
        } else {
            item
        }
    }

    /// Puts the token of this number, class and text.
    fn put_token(&mut self, number: usize, class: Token, text: &str) -> Result<(), AllocError>
        ensures { IfOk result (λ _. PutsToken class text.now self.old self.new) }
    {
        self.track_bracket(number, class)?;
        if class == Token::Comma && self.is_on_line() {
            self.held = true;
        } else {
            self.write(text)?;
        }
        self.last = Some(class);
        self.feeds = 0;
        Ok(())
    }

    /// Opens the bracket that the token of this number and class opens, or closes the one that it closes.
    fn track_bracket(&mut self, number: usize, class: Token) -> Result<(), AllocError>
        ensures { IfOk result (λ _. self.new ≡ record self.old { payloads = brackets_after self.old.last class self.old.payloads }) }
    {
        if is_open(class) {
            let bracket = self.bracket(number, class);
            self.brackets.push(bracket)?;
        } else if is_close(class) {
            self.brackets.pop();
        }
        Ok(())
    }

    /// Whether what stands in the innermost bracket is on one line.
    fn is_on_line(&self) -> bool {
        match self.brackets.last() {
            Some(bracket) => bracket.form == Form::Line,
            None => false,
        }
    }

    /// The bracket that the token of this number and class opens.
    fn bracket(&self, number: usize, class: Token) -> Bracket
        ensures { result.payload ≡ (is_paren class && is_label self.now.last) }
    {
        let payload = class == Token::ParenOpen && self.last == Some(Token::LabelOrKeyword);
        let behind = match self.brackets.last() {
            Some(outer) => outer.columns_behind_item(),
            None => 0,
        };
        let form = if self.is_on_line() {
            Form::Line
        } else {
            self.form(number, class, payload, behind)
        };
        Bracket {
            form,
            payload,
            indent: self.indent,
            behind,
        }
    }

    /// How the bracket that the token of this number opens is laid out.
    fn form(&self, number: usize, class: Token, payload: bool, behind: usize) -> Form {
        let (Some(open), Some(first)) = (
            self.measures.get(number),
            self.measures.get(number.saturating_add(1)),
        ) else {
            return Form::Line;
        };
        let close_number = open.close;
        let Some(close) = self.measures.get(close_number) else {
            return Form::Line;
        };
        let comments = if self.joins(class) {
            match number.checked_sub(1) {
                Some(label) => match self.measures.get(label) {
                    Some(label) => label.comments,
                    None => 0,
                },
                None => 0,
            }
        } else {
            open.comments
        };
        if close.comments == comments && close.tall == open.tall {
            let width = close.column.saturating_sub(open.column).saturating_add(1);
            let end = self.column.saturating_add(width).saturating_add(behind);
            let empty = is_close(first.class) || first.class == Token::Colon;
            if empty || end <= self.options.width as usize {
                return Form::Line;
            }
        }
        if payload && first.comments == comments && self.hugs(number, close_number) {
            return Form::Hug;
        }
        Form::Block
    }

    /// Whether the payload between these two parentheses is in brackets or has several lines, and no
    /// comment is right before the closing one.
    fn hugs(&self, open: usize, close: usize) -> bool {
        let (Some(first), Some(second)) = (
            self.measures.get(open.saturating_add(1)),
            self.measures.get(open.saturating_add(2)),
        ) else {
            return false;
        };
        let Some(last) = close.checked_sub(1) else {
            return false;
        };
        let (Some(last), Some(end)) = (self.measures.get(last), self.measures.get(close)) else {
            return false;
        };
        if last.comments != end.comments {
            return false;
        }
        let has_payload = first.class == Token::LabelOrKeyword && second.class == Token::ParenOpen;
        is_open(first.class) || has_payload || second.tall != first.tall
    }

    /// Writes a text behind what is written; a comment before it ends first.
    fn write(&mut self, text: &str) -> Result<(), AllocError>
        ensures { IfOk result (λ _. Writes text.now self.old self.new) }
    {
        if self.in_comment {
            self.new_line(self.item_indent(), false)?;
        }
        self.text.push_str(text)?;
        match text.rsplit_once('\n') {
            Some((_, line)) => self.column = line.chars().count(),
            None => self.column = self.column.saturating_add(text.chars().count()),
        }
        Ok(())
    }

    /// Begins a line of this indentation, behind an empty one where the source has one that is kept.
    fn new_line(&mut self, indent: usize, keep: bool) -> Result<(), AllocError>
        ensures { IfOk result (λ _. BeginsLine self.old self.new) }
    {
        let feeds = if keep && self.feeds > 1 { "\n\n" } else { "\n" };
        self.text.push_str(feeds)?;
        push_blanks(&mut self.text, indent)?;
        self.column = indent;
        self.indent = indent;
        self.in_comment = false;
        Ok(())
    }
}

/// Adds so many blanks.
fn push_blanks(to: &mut String, count: usize) -> Result<(), AllocError>
    ensures { IfOk result (λ _. string_bytes to.new ≡ string_bytes to.old ++ replicate count 32) }
{
    'times: for _ in 0..count {
        to.push(' ')?;
    }
    Ok(())
}

impl Bracket {
    /// How many columns what stands right behind an item takes: a comma, or this and further closes.
    fn columns_behind_item(&self) -> usize {
        match self.form {
            Form::Hug => self.behind.saturating_add(1),
            Form::Block if !self.payload => 1,
            _ => 0,
        }
    }
}
