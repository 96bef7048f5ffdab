//! Types from their tokens.
ghost use Rattle.std.specs.Prelude.{ℕ, List, [], ◌∷◌, ◌++◌, ◌≡◌, ◌<◌, IfOk, IfErr, MatchBool, option_map, Some, None, drop, length, codes};
ghost use Rattle.wave_wasm.specs.declared.wasm.WasmTypeKind.TheVariants as kinds;
ghost use Rattle.wave_wasm.specs.Borrowed.{texts, named};
ghost use Rattle.wave_type.specs.TypeFaults.{Part, type_expected, key_expected, ok_expected, part_expected, close_expected, payloads_expected, payload_expected, expected_behind};
ghost use Rattle.wave_type.specs.TypeFaults.{no_more, a_length, more_types, more_fields, more_cases, more_names};
ghost use Rattle.wave_type.specs.TypeConstructors.{simple_type};
ghost use Rattle.wave_type.specs.TypeWords.{kind_of_word, key_of_word, without_percent, name_of_token, count_of_token, is_mark};
ghost use Rattle.wave_type.specs.Private.TypeTokens.{Answers, IsRefused, GoesOn, RefusesName, misplaced, texts_of};
ghost use Rattle.wave_type.specs.Private.TypeReading.{first_of, after, closed, kind_at, HasNames, new_name, count_at, key_at};
ghost use Rattle.wave_type.specs.Private.TypeReading.{names_read, types_read, fields_read, cases_read, payload_read, list_read};
ghost use Rattle.wave_type.specs.Private.TypeReading.{option_read, map_read, result_read, payloads_read, err_behind};
ghost use Rattle.wave_type.specs.Private.TypeReading.{kind_read, type_read};

use crate::error::TypeErrorKind;
use crate::tokens::Token;
use crate::ty::Type;
use crate::ty::labels::is_label;
use itoa::Buffer;
use std::alloc::Global;
use std::collections::BTreeSet;
use std::marker::Model;
use wave_wasm::wasm::WasmTypeKind;

/// The tokens that are left to read. After a refusal the next token is the one that is refused.
#[derive(Drop)]
pub(crate) struct Reader<'tokens, 'text> {
    rest: &'tokens [Token<'text>],
}

impl<'tokens, 'text> Model for Reader<'tokens, 'text> {
    ghost use Rattle.wave_type.specs.TypeSpelling.{Tokens};
    ghost use Rattle.wave_type.specs.Private.TypeTokens.{texts_of};

    ghost Value = { Tokens };

    ghost view = { λ r. texts_of r.rest.now };
}

/// The kind whose types begin with this word.
fn kind_of_word(word: &str) -> Option<WasmTypeKind>
    ensures { result ≡ kind_of_word word.now }
{
    match word {
        "bool" => Some(WasmTypeKind::Bool),
        "s8" => Some(WasmTypeKind::S8),
        "s16" => Some(WasmTypeKind::S16),
        "s32" => Some(WasmTypeKind::S32),
        "s64" => Some(WasmTypeKind::S64),
        "u8" => Some(WasmTypeKind::U8),
        "u16" => Some(WasmTypeKind::U16),
        "u32" => Some(WasmTypeKind::U32),
        "u64" => Some(WasmTypeKind::U64),
        "f32" => Some(WasmTypeKind::F32),
        "f64" => Some(WasmTypeKind::F64),
        "char" => Some(WasmTypeKind::Char),
        "string" => Some(WasmTypeKind::String),
        "list" => Some(WasmTypeKind::List),
        "record" => Some(WasmTypeKind::Record),
        "tuple" => Some(WasmTypeKind::Tuple),
        "variant" => Some(WasmTypeKind::Variant),
        "enum" => Some(WasmTypeKind::Enum),
        "option" => Some(WasmTypeKind::Option),
        "result" => Some(WasmTypeKind::Result),
        "flags" => Some(WasmTypeKind::Flags),
        "map" => Some(WasmTypeKind::Map),
        _ => None,
    }
}

/// The simple type of this word.
fn key_of_word(word: &str) -> Option<Type>
    ensures { result ≡ key_of_word word.now }
{
    match kind_of_word(word)? {
        WasmTypeKind::F32 | WasmTypeKind::F64 => None,
        kind => Type::simple(kind),
    }
}

/// The token without a `%` before it.
fn without_percent(token: &str) -> &str
    ensures { result.now ≡ without_percent token.now }
{
    let bytes = token.as_bytes();
    if bytes.is_empty() || bytes[0] != b'%' {
        return token;
    }
    &token[1..]
}

/// The name that the token is, perhaps after a `%`.
fn name_of_token(token: &str) -> Option<&str>
    ensures { option_map (λ name. name.now) result ≡ name_of_token token.now }
{
    let name = without_percent(token);
    if is_label(name) { Some(name) } else { None }
}

/// The count that the token is: decimal digits, without a zero before it.
fn count_of_token(token: &str) -> Option<u32>
    ensures { result ≡ count_of_token token.now }
{
    let Ok(count) = token.parse::<u32>() else {
        return None;
    };
    let mut buffer = Buffer::new();
    if buffer.format(count) == token {
        Some(count)
    } else {
        None
    }
}

/// Whether the token is a mark, and no word, number, char or string.
fn is_mark(token: &str) -> bool
    ensures { result ≡ is_mark token.now }
{
    matches!(
        token,
        "{" | "}" | "(" | ")" | "[" | "]" | ":" | "," | "<" | ">" | "_" | "-"
    )
}

impl<'tokens, 'text> Reader<'tokens, 'text> {
    /// What reads these tokens.
    pub(crate) fn new(tokens: &'tokens [Token<'text>]) -> Self
        ensures { result ≡ texts_of tokens.now }
    {
        Reader { rest: tokens }
    }

    /// How many tokens are left.
    pub(crate) fn count(&self) -> usize
        ensures { result ≡ length self.now }
    {
        self.rest.len()
    }

    /// Why the next token, or the end, is refused where another is expected.
    pub(crate) fn refusal(&self) -> TypeErrorKind
        ensures { result ≡ misplaced self.now }
    {
        match self.rest.is_empty() {
            true => TypeErrorKind::UnexpectedEnd,
            false => TypeErrorKind::UnexpectedToken,
        }
    }

    /// The token that stands next.
    fn next(&self) -> Option<&'text str>
        ensures { option_map (λ token. token.now) result ≡ first_of self.now }
    {
        match self.rest.first() {
            Some(token) => Some(token.text),
            None => None,
        }
    }

    /// Passes the next token.
    fn skip(&mut self)
        ensures { self.new ≡ drop 1 self.old }
    {
        if !self.rest.is_empty() {
            self.rest = &self.rest[1..];
        }
    }

    /// Whether the mark stands next; it is taken then.
    pub(crate) fn takes(&mut self, mark: &str) -> bool
        ensures { MatchBool result (after mark.now self.old ≡ Some self.new) ((after mark.now self.old ≡ None) × (self.new ≡ self.old)) }
    {
        match self.next() {
            Some(token) if token == mark => {
                self.skip();
                true
            }
            _ => false,
        }
    }

    /// Takes the mark, which has to stand next.
    pub(crate) fn expect(&mut self, mark: &str) -> Result<(), TypeErrorKind>
        ensures taken { IfOk result (λ _. after mark.now self.old ≡ Some self.new) }
        ensures refused { IfErr result (λ kind. (after mark.now self.old ≡ None) × (kind ≡ misplaced self.old) × (self.new ≡ self.old)) }
    {
        if !self.takes(mark) {
            return Err(self.refusal());
        }
        Ok(())
    }

    /// Whether parts end here: takes the mark that ends them, perhaps after a comma, or a comma alone.
    pub(crate) fn ends(&mut self, mark: &str) -> Result<bool, TypeErrorKind>
        ensures taken { IfOk result (λ end. MatchBool end (closed mark.now self.old ≡ Some self.new) (GoesOn mark.now self.old self.new)) }
        ensures refused { IfErr result (λ kind. (part : Part) → IsRefused (close_expected mark.now part) self.old kind self.new) }
    {
        if self.takes(mark) {
            return Ok(true);
        }
        self.expect(",")?;
        Ok(self.takes(mark))
    }

    /// Takes the mark, which has to stand next, perhaps after a comma.
    fn close(&mut self, mark: &str) -> Result<(), TypeErrorKind>
        ensures taken { IfOk result (λ _. closed mark.now self.old ≡ Some self.new) }
        ensures refused { IfErr result (λ kind. IsRefused (close_expected mark.now no_more) self.old kind self.new) }
    {
        if !self.ends(mark)? {
            return Err(self.refusal());
        }
        Ok(())
    }

    /// Takes the word of a kind, which has to stand next, where a level is left.
    fn kind(&mut self, levels: usize) -> Result<WasmTypeKind, TypeErrorKind>
        ensures taken { IfOk result (λ kind. (kind_at self.old ≡ Some (kind, self.new)) × (0 < levels)) }
        ensures refused { IfErr result (λ kind. IsRefused (type_expected levels) self.old kind self.new) }
    {
        let Some(word) = self.next() else {
            return Err(TypeErrorKind::UnexpectedEnd);
        };
        let Some(kind) = kind_of_word(word) else {
            return Err(TypeErrorKind::UnexpectedToken);
        };
        if levels == 0 {
            return Err(TypeErrorKind::NestingTooDeep);
        }
        self.skip();
        Ok(kind)
    }

    /// Takes the word of a simple type, which has to stand next.
    fn key(&mut self) -> Result<Type, TypeErrorKind>
        ensures taken { IfOk result (λ key. key_at self.old ≡ Some (key, self.new)) }
        ensures refused { IfErr result (λ kind. IsRefused key_expected self.old kind self.new) }
    {
        let Some(word) = self.next() else {
            return Err(TypeErrorKind::UnexpectedEnd);
        };
        match key_of_word(word) {
            Some(key) => {
                self.skip();
                Ok(key)
            }
            None if is_mark(word) => Err(TypeErrorKind::UnexpectedToken),
            None => Err(TypeErrorKind::InvalidKeyType),
        }
    }

    /// Takes the length of a list, which has to stand next.
    fn length(&mut self) -> Result<u32, TypeErrorKind>
        ensures taken { IfOk result (λ count. count_at self.old ≡ Some (count, self.new)) }
        ensures refused { IfErr result (λ kind. (mark : List ℕ) → IsRefused (part_expected mark a_length) self.old kind self.new) }
    {
        let Some(token) = self.next() else {
            return Err(TypeErrorKind::UnexpectedEnd);
        };
        match count_of_token(token) {
            Some(count) => {
                self.skip();
                Ok(count)
            }
            None if is_mark(token) => Err(TypeErrorKind::UnexpectedToken),
            None => Err(TypeErrorKind::InvalidCount),
        }
    }

    /// Takes a name, which has to stand next and is none of those that were taken; it is one of them
    /// then.
    fn new_name(&mut self, taken: &mut BTreeSet<&'text str>) -> Result<&'text str, TypeErrorKind>
        ensures read { IfOk result (λ name. (names : List (List ℕ)) → HasNames taken.old names → new_name names self.old ≡ Some (name.now, self.new)) }
        ensures added { IfOk result (λ name. (names : List (List ℕ)) → HasNames taken.old names → HasNames taken.new (names ++ name.now ∷ [])) }
        ensures refused { IfErr result (λ kind. (names : List (List ℕ)) → HasNames taken.old names → RefusesName names self.old kind self.new) }
    {
        let Some(token) = self.next() else {
            return Err(TypeErrorKind::UnexpectedEnd);
        };
        let Some(name) = name_of_token(token) else {
            return Err(TypeErrorKind::UnexpectedToken);
        };
        if !taken.insert(name)? {
            return Err(TypeErrorKind::DuplicateName);
        }
        self.skip();
        Ok(name)
    }

    /// Takes names through the mark.
    fn names(&mut self, alloc: Global, mark: &str) -> Result<Vec<&'text str>, TypeErrorKind>
        ensures { Answers (λ names. texts names.items) result self.old self.new (names_read mark.now self.old)
            (λ expectations. part_expected mark.now (more_names []) ∷ expectations) }
    {
        let mut taken = BTreeSet::new(alloc);
        let mut names = Vec::new(alloc);
        for _part in 0..self.rest.len() {
            let name = self.new_name(&mut taken)?;
            names.push(name)?;
            if self.ends(mark)? {
                return Ok(names);
            }
        }
        Err(TypeErrorKind::UnexpectedEnd)
    }

    /// Takes a type, within `levels` levels.
    #[cycle(types)]
    pub(crate) fn ty(&mut self, alloc: Global, levels: usize) -> Result<Type, TypeErrorKind>
        ensures { Answers (λ ty. ty) result self.old self.new (type_read levels self.old) (λ expectations. type_expected levels ∷ expectations) }
    {
        let kind = self.kind(levels)?;
        self.of_kind(alloc, kind, levels - 1)
    }

    /// Takes what stands after the word of a kind, whose parts are within `levels` levels.
    #[cycle(types)]
    fn of_kind(
        &mut self,
        alloc: Global,
        kind: WasmTypeKind,
        levels: usize,
    ) -> Result<Type, TypeErrorKind>
        ensures { Answers (λ ty. ty) result self.old self.new (kind_read (type_read levels) kind self.old) (λ expectations. expected_behind levels kind ++ expectations) }
    {
        match kind {
            WasmTypeKind::List => self.list(alloc, levels),
            WasmTypeKind::Option => self.option(alloc, levels),
            WasmTypeKind::Map => self.map(alloc, levels),
            WasmTypeKind::Result => self.result(alloc, levels),
            WasmTypeKind::Tuple => {
                self.expect("<")?;
                let types = self.types(alloc, levels)?;
                Type::tuple(alloc, types)?.ok_or(TypeErrorKind::UnexpectedEnd)
            }
            WasmTypeKind::Record => {
                self.expect("{")?;
                let fields = self.fields(alloc, levels, "}")?;
                Type::record(alloc, fields)?.ok_or(TypeErrorKind::UnexpectedEnd)
            }
            WasmTypeKind::Variant => {
                self.expect("{")?;
                let cases = self.cases(alloc, levels)?;
                Type::variant(alloc, cases)?.ok_or(TypeErrorKind::UnexpectedEnd)
            }
            WasmTypeKind::Enum => {
                self.expect("{")?;
                let names = self.names(alloc, "}")?;
                Type::enum_ty(alloc, names.as_slice())?.ok_or(TypeErrorKind::UnexpectedEnd)
            }
            WasmTypeKind::Flags => {
                self.expect("{")?;
                let names = self.names(alloc, "}")?;
                Type::flags(alloc, names.as_slice())?.ok_or(TypeErrorKind::UnexpectedEnd)
            }
            _ => self.simple(kind),
        }
    }

    /// The type without parts of this kind.
    fn simple(&self, kind: WasmTypeKind) -> Result<Type, TypeErrorKind>
        ensures taken { IfOk result (λ ty. simple_type kind ≡ Some ty) }
        ensures refused { IfErr result (λ fault. (simple_type kind ≡ None) × IsRefused (part_expected (codes ">") no_more) self.now fault self.now) }
    {
        match Type::simple(kind) {
            Some(ty) => Ok(ty),
            None => Err(self.refusal()),
        }
    }

    #[cycle(types)]
    fn list(&mut self, alloc: Global, levels: usize) -> Result<Type, TypeErrorKind>
        ensures { Answers (λ ty. ty) result self.old self.new (list_read (type_read levels) self.old) (λ expectations. expected_behind levels kinds.List ++ expectations) }
    {
        self.expect("<")?;
        let element = self.ty(alloc, levels)?;
        if self.ends(">")? {
            return Ok(Type::list(alloc, element)?);
        }
        let count = self.length()?;
        self.close(">")?;
        Ok(Type::fixed_length_list(alloc, element, count)?)
    }

    #[cycle(types)]
    fn option(&mut self, alloc: Global, levels: usize) -> Result<Type, TypeErrorKind>
        ensures { Answers (λ ty. ty) result self.old self.new (option_read (type_read levels) self.old) (λ expectations. expected_behind levels kinds.Option ++ expectations) }
    {
        self.expect("<")?;
        let some = self.ty(alloc, levels)?;
        self.close(">")?;
        Ok(Type::option(alloc, some)?)
    }

    #[cycle(types)]
    fn map(&mut self, alloc: Global, levels: usize) -> Result<Type, TypeErrorKind>
        ensures { Answers (λ ty. ty) result self.old self.new (map_read (type_read levels) self.old) (λ expectations. expected_behind levels kinds.Map ++ expectations) }
    {
        self.expect("<")?;
        let key = self.key()?;
        self.expect(",")?;
        let value = self.ty(alloc, levels)?;
        self.close(">")?;
        Type::map(alloc, key, value)?.ok_or(TypeErrorKind::InvalidKeyType)
    }

    #[cycle(types)]
    fn result(&mut self, alloc: Global, levels: usize) -> Result<Type, TypeErrorKind>
        ensures { Answers (λ ty. ty) result self.old self.new (result_read (type_read levels) self.old (after (codes "<") self.old))
            (λ expectations. payloads_expected levels ∷ expectations) }
    {
        match self.takes("<") {
            true => self.payloads(alloc, levels),
            false => Ok(Type::result(alloc, None, None)?),
        }
    }

    /// Takes the types of a result: `_` stands for no type of `ok` before one of `err`.
    #[cycle(types)]
    fn payloads(&mut self, alloc: Global, levels: usize) -> Result<Type, TypeErrorKind>
        ensures { Answers (λ ty. ty) result self.old self.new (payloads_read (type_read levels) self.old (after (codes "_") self.old))
            (λ expectations. ok_expected levels ∷ expectations) }
    {
        if self.takes("_") {
            self.expect(",")?;
            return self.err(alloc, levels, None);
        }
        let ok = self.ty(alloc, levels)?;
        if self.ends(">")? {
            return Ok(Type::result(alloc, Some(ok), None)?);
        }
        self.err(alloc, levels, Some(ok))
    }

    /// Takes the type of `err` after a comma.
    #[cycle(types)]
    fn err(&mut self, alloc: Global, levels: usize, ok: Option<Type>) -> Result<Type, TypeErrorKind>
        ensures { Answers (λ ty. ty) result self.old self.new (err_behind (type_read levels) ok self.old)
            (λ expectations. type_expected levels ∷ close_expected (codes ">") no_more ∷ expectations) }
    {
        let err = self.ty(alloc, levels)?;
        self.close(">")?;
        Ok(Type::result(alloc, ok, Some(err))?)
    }

    /// Takes types through `>`.
    #[cycle(types)]
    fn types(&mut self, alloc: Global, levels: usize) -> Result<Vec<Type>, TypeErrorKind>
        ensures { Answers (λ types. types.items) result self.old self.new (types_read (type_read levels) self.old)
            (λ expectations. part_expected (codes ">") (more_types levels) ∷ expectations) }
    {
        let mut types = Vec::new(alloc);
        for _part in 0..self.rest.len() {
            let ty = self.ty(alloc, levels)?;
            types.push(ty)?;
            if self.ends(">")? {
                return Ok(types);
            }
        }
        Err(TypeErrorKind::UnexpectedEnd)
    }

    /// Takes fields through the mark.
    #[cycle(types)]
    pub(crate) fn fields(
        &mut self,
        alloc: Global,
        levels: usize,
        mark: &str,
    ) -> Result<Vec<(&'text str, Type)>, TypeErrorKind>
        ensures { Answers (λ fields. named fields.items) result self.old self.new (fields_read (type_read levels) mark.now self.old)
            (λ expectations. part_expected mark.now (more_fields levels []) ∷ expectations) }
    {
        let mut taken = BTreeSet::new(alloc);
        let mut fields = Vec::new(alloc);
        for _part in 0..self.rest.len() {
            let name = self.new_name(&mut taken)?;
            self.expect(":")?;
            let ty = self.ty(alloc, levels)?;
            fields.push((name, ty))?;
            if self.ends(mark)? {
                return Ok(fields);
            }
        }
        Err(TypeErrorKind::UnexpectedEnd)
    }

    /// Takes cases through `}`.
    #[cycle(types)]
    fn cases(
        &mut self,
        alloc: Global,
        levels: usize,
    ) -> Result<Vec<(&'text str, Option<Type>)>, TypeErrorKind>
        ensures { Answers (λ cases. named cases.items) result self.old self.new (cases_read (type_read levels) self.old)
            (λ expectations. part_expected (codes "}") (more_cases levels []) ∷ expectations) }
    {
        let mut taken = BTreeSet::new(alloc);
        let mut cases = Vec::new(alloc);
        for _part in 0..self.rest.len() {
            let name = self.new_name(&mut taken)?;
            let payload = self.payload(alloc, levels)?;
            cases.push((name, payload))?;
            if self.ends("}")? {
                return Ok(cases);
            }
        }
        Err(TypeErrorKind::UnexpectedEnd)
    }

    /// Takes the payload of a case, where there is one.
    #[cycle(types)]
    fn payload(&mut self, alloc: Global, levels: usize) -> Result<Option<Type>, TypeErrorKind>
        ensures { Answers (λ p. p) result self.old self.new (payload_read (type_read levels) self.old (after (codes "(") self.old))
            (λ expectations. payload_expected levels ∷ expectations) }
    {
        if !self.takes("(") {
            return Ok(None);
        }
        let ty = self.ty(alloc, levels)?;
        self.expect(")")?;
        Ok(Some(ty))
    }
}
