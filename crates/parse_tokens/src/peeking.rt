//! What the next token begins, by which the parser chooses.

ghost use Rattle.std.specs.Prelude.{◌≡◌, Some};
ghost use Rattle.c_grammar.specs.inner.Readers.{sort_of_kind, too_deep};

use crate::classes::{
    begins_expr, begins_simple, begins_type, begins_type_word, binary_of, prefix_of, step_of,
    storage_of, type_of,
};
use crate::parser::{Parser, Stop};
use c_grammar::terminal::TerminalKind;
use c_lex::{Mark, Word};
use c_tree::syntax::Pointer;

/// What a primary that isn't in brackets begins with.
#[derive(Clone, Copy)]
pub enum OperandStart {
    Name,
    Int,
    Char,
    Text,
    Null,
}

/// What a postfix operator begins with.
#[derive(Clone, Copy)]
pub enum PostStart {
    Bracket,
    Dot,
    Arrow,
}

/// What a unary expression begins with.
#[derive(Clone, Copy)]
pub enum UnaryStart {
    Primary,
    Paren,
    Prefix,
    Sizeof,
}

/// What a specifier begins with.
#[derive(Clone, Copy)]
pub enum SpecStart {
    Word,
    Struct,
    Enum,
}

// The next token, which is left.
impl Parser<'_> {
    ghost use Rattle.parse_tokens.specs.inner.Moves.{Moves, Fails, peek, ahead};
    ghost use Rattle.c_grammar.specs.inner.Tokens.{is_mark, is_word, is_text, is_binary, is_type_name, begins_type, begins_expr, begins_simple, is_storage, is_pointer};
    ghost use Rattle.c_grammar.specs.inner.Reading.{operand_start, post_start, begins_post, unary_start, spec_start, begins_spec, pointer_start, is_name, begins_enumerator, is_step};
    ghost use Rattle.parse_tokens.specs.inner.Starts.{operand_view, post_view, unary_view, spec_view};

    /// The kind of the next token.
    pub fn next(&self) -> Result<TerminalKind, Stop>
        ensures { Moves sort_of_kind (peek Some) self.now self.now result }
    {
        match self.rest {
            [] => Err(self.unexpected()),
            [token, ..] => Ok(token.kind),
        }
    }

    /// Whether the mark is next.
    pub fn is_next(&self, mark: Mark) -> Result<bool, Stop>
        ensures { Moves (λ b. b) (ahead (is_mark mark)) self.now self.now result }
    {
        let kind = self.next()?;
        match kind {
            TerminalKind::Mark(found) => Ok(found == mark),
            _ => Ok(false),
        }
    }

    /// Whether the word is next.
    pub fn is_word_next(&self, word: Word) -> Result<bool, Stop>
        ensures { Moves (λ b. b) (ahead (is_word word)) self.now self.now result }
    {
        let kind = self.next()?;
        match kind {
            TerminalKind::Word(found) => Ok(found == word),
            _ => Ok(false),
        }
    }

    /// Whether a name is next.
    pub fn is_name_next(&self) -> Result<bool, Stop>
        ensures { Moves (λ b. b) (ahead is_name) self.now self.now result }
    {
        let kind = self.next()?;
        Ok(matches!(kind, TerminalKind::Name))
    }

    /// Whether a string literal is next.
    pub fn is_text_next(&self) -> Result<bool, Stop>
        ensures { Moves (λ b. b) (ahead is_text) self.now self.now result }
    {
        let kind = self.next()?;
        Ok(matches!(kind, TerminalKind::Text))
    }

    /// Whether a binary operator of the height is next.
    pub fn is_binary_next(&self, of: u32) -> Result<bool, Stop>
        ensures { Moves (λ b. b) (ahead (is_binary of)) self.now self.now result }
    {
        let kind = self.next()?;
        match kind {
            TerminalKind::Mark(mark) => Ok(binary_of(of, mark).is_some()),
            _ => Ok(false),
        }
    }

    /// Whether an increment or decrement is next.
    pub fn is_step_next(&self) -> Result<bool, Stop>
        ensures { Moves (λ b. b) (ahead is_step) self.now self.now result }
    {
        let kind = self.next()?;
        match kind {
            TerminalKind::Mark(mark) => Ok(step_of(mark).is_some()),
            _ => Ok(false),
        }
    }

    /// Whether `static` or `inline` is next.
    pub fn is_storage_next(&self) -> Result<bool, Stop>
        ensures { Moves (λ b. b) (ahead is_storage) self.now self.now result }
    {
        let kind = self.next()?;
        match kind {
            TerminalKind::Word(word) => Ok(storage_of(word).is_some()),
            _ => Ok(false),
        }
    }

    /// Whether what stands before a declared name is next.
    pub fn is_pointer_next(&self) -> Result<bool, Stop>
        ensures { Moves (λ b. b) (ahead is_pointer) self.now self.now result }
    {
        let kind = self.next()?;
        match kind {
            TerminalKind::Mark(mark) => Ok(mark == Mark::Star),
            TerminalKind::Word(word) => Ok(word == Word::Const || word == Word::Restrict),
            _ => Ok(false),
        }
    }

    /// Whether a type is next.
    pub fn is_type_next(&self) -> Result<bool, Stop>
        ensures { Moves (λ b. b) (ahead begins_type) self.now self.now result }
    {
        let kind = self.next()?;
        Ok(begins_type(kind))
    }

    /// Whether a type's name is next.
    pub fn is_type_name_next(&self) -> Result<bool, Stop>
        ensures { Moves (λ b. b) (ahead is_type_name) self.now self.now result }
    {
        let kind = self.next()?;
        Ok(matches!(kind, TerminalKind::TypeName))
    }

    /// Whether a specifier is next, where a type stands before it or doesn't.
    pub fn is_spec_next(&self, typed: bool) -> Result<bool, Stop>
        ensures { Moves (λ b. b) (ahead (begins_spec typed)) self.now self.now result }
    {
        let kind = self.next()?;
        Ok(if typed {
            begins_type_word(kind)
        } else {
            begins_type(kind)
        })
    }

    /// Whether an enumerator is next, where a comma stands before it or doesn't.
    pub fn is_enumerator_next(&self, comma: bool) -> Result<bool, Stop>
        ensures { Moves (λ b. b) (ahead (begins_enumerator comma)) self.now self.now result }
    {
        let kind = self.next()?;
        Ok(comma && matches!(kind, TerminalKind::Name))
    }

    /// Whether an expression is next.
    pub fn is_expr_next(&self) -> Result<bool, Stop>
        ensures { Moves (λ b. b) (ahead begins_expr) self.now self.now result }
    {
        let kind = self.next()?;
        Ok(begins_expr(kind))
    }

    /// Whether a simple statement is next.
    pub fn is_simple_next(&self) -> Result<bool, Stop>
        ensures { Moves (λ b. b) (ahead begins_simple) self.now self.now result }
    {
        let kind = self.next()?;
        Ok(begins_simple(kind))
    }

    /// Whether a postfix operator is next.
    pub fn is_post_next(&self) -> Result<bool, Stop>
        ensures { Moves (λ b. b) (ahead begins_post) self.now self.now result }
    {
        let kind = self.next()?;
        Ok(matches!(
            kind,
            TerminalKind::Mark(Mark::OpenBracket | Mark::Dot | Mark::Arrow)
        ))
    }

    /// The refusal of an expression where no room is left.
    pub fn no_room_for_expr(&self) -> Stop
        ensures { Fails {A = Unit {0}} result (too_deep begins_expr self.now.count self.now.rest.now) }
    {
        match self.rest {
            [token, ..] if begins_expr(token.kind) => self.too_deep(),
            _ => self.sunk(),
        }
    }

    /// The refusal of a type where no room is left.
    pub fn no_room_for_type(&self) -> Stop
        ensures { Fails {A = Unit {0}} result (too_deep begins_type self.now.count self.now.rest.now) }
    {
        match self.rest {
            [token, ..] if begins_type(token.kind) => self.too_deep(),
            _ => self.sunk(),
        }
    }

    /// What operand is next.
    pub fn operand_start(&self) -> Result<OperandStart, Stop>
        ensures { Moves operand_view (peek operand_start) self.now self.now result }
    {
        match self.next()? {
            TerminalKind::Name => Ok(OperandStart::Name),
            TerminalKind::Int(_) => Ok(OperandStart::Int),
            TerminalKind::Char(_) => Ok(OperandStart::Char),
            TerminalKind::Text => Ok(OperandStart::Text),
            TerminalKind::Word(Word::Null) => Ok(OperandStart::Null),
            _ => Err(self.unexpected()),
        }
    }

    /// Which postfix operator is next.
    pub fn post_start(&self) -> Result<PostStart, Stop>
        ensures { Moves post_view (peek post_start) self.now self.now result }
    {
        match self.next()? {
            TerminalKind::Mark(Mark::OpenBracket) => Ok(PostStart::Bracket),
            TerminalKind::Mark(Mark::Dot) => Ok(PostStart::Dot),
            TerminalKind::Mark(Mark::Arrow) => Ok(PostStart::Arrow),
            _ => Err(self.unexpected()),
        }
    }

    /// What unary expression is next.
    pub fn unary_start(&self) -> Result<UnaryStart, Stop>
        ensures { Moves unary_view (peek unary_start) self.now self.now result }
    {
        match self.next()? {
            TerminalKind::Name
            | TerminalKind::Int(_)
            | TerminalKind::Char(_)
            | TerminalKind::Text => { Ok(UnaryStart::Primary) }
            TerminalKind::Word(Word::Null) => Ok(UnaryStart::Primary),
            TerminalKind::Word(Word::Sizeof) => Ok(UnaryStart::Sizeof),
            TerminalKind::Mark(mark) if prefix_of(mark).is_some() => Ok(UnaryStart::Prefix),
            TerminalKind::Mark(Mark::OpenParen) => Ok(UnaryStart::Paren),
            _ => Err(self.unexpected()),
        }
    }

    /// Which specifier is next.
    pub fn spec_start(&self) -> Result<SpecStart, Stop>
        ensures { Moves spec_view (peek spec_start) self.now self.now result }
    {
        match self.next()? {
            TerminalKind::Word(word) if type_of(word).is_some() => Ok(SpecStart::Word),
            TerminalKind::Word(Word::Struct) => Ok(SpecStart::Struct),
            TerminalKind::Word(Word::Enum) => Ok(SpecStart::Enum),
            _ => Err(self.unexpected()),
        }
    }

    /// What stands next before a declared name.
    pub fn pointer_start(&self) -> Result<Pointer, Stop>
        ensures { Moves (λ a. a) (peek pointer_start) self.now self.now result }
    {
        match self.next()? {
            TerminalKind::Mark(Mark::Star) => Ok(Pointer::Star),
            TerminalKind::Word(Word::Const) => Ok(Pointer::Const),
            TerminalKind::Word(Word::Restrict) => Ok(Pointer::Restrict),
            _ => Err(self.unexpected()),
        }
    }
}
