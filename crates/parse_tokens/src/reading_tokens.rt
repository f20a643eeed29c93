//! The parser's readers of one token, at the level that leaves so much room; 0 is too deep.

ghost use Rattle.std.specs.Prelude.{◌≡◌, ◌+◌, ◌<◌, length, Some, None, Option, IfOk};
ghost use Rattle.c_lex.specs.declared.refusal.Kind.TheVariants.{TooDeep};
ghost use Rattle.c_grammar.specs.Leaves.{operator, derivation, beyond, first_of};
ghost use Rattle.c_grammar.specs.inner.Readers.{deep};

use crate::heads;
use crate::parser::{Parser, Stop};
use ak_words::Num;
use c_lex::{Kind, Mark, Word};
use c_tree::syntax::{AssignOp, BinaryOp, Name, PrefixOp, Span, StepOp, Storage, TypeWord};

// Refusals.
impl Parser<'_> {
    ghost use Rattle.std.specs.Prelude.{Err};
    ghost use Rattle.parse_tokens.specs.inner.Moves.{Fails, Checks};
    ghost use Rattle.c_grammar.specs.inner.Readers.{missed, stop};

    /// The refusal of the next token.
    pub fn unexpected(&self) -> Stop
        ensures { result ≡ Stop.Unexpected (length self.now.rest.now) }
    {
        Stop::Unexpected(self.rest.len())
    }

    /// The refusal of the next token, where any that isn't too deep is refused too.
    pub fn sunk(&self) -> Stop
        ensures { result ≡ Stop.Sunk (length self.now.rest.now) }
    {
        Stop::Sunk(self.rest.len())
    }

    /// The refusal of the next token, which isn't the one wanted here, at the level that leaves so much room.
    pub fn missed(&self, room: u32) -> Stop
        ensures { Fails {A = Unit {0}} result (Err (stop (missed (deep room)) (length self.now.rest.now))) }
    {
        match room {
            0 => self.sunk(),
            _ => self.unexpected(),
        }
    }

    /// The refusal of the next token, which lies too deep.
    pub fn too_deep(&self) -> Stop
        ensures { result ≡ Stop.Over TooDeep (length self.now.rest.now) }
    {
        Stop::Over(Kind::TooDeep, self.rest.len())
    }

    /// That there is room for the next token.
    pub fn within(&self, room: u32) -> Result<(), Stop>
        ensures { Checks (deep room) self.now result }
    {
        if room == 0 {
            return Err(self.too_deep());
        }
        Ok(())
    }

    /// That there is room for the next token, an operator, and that the full expression may have one more.
    pub fn within_operators(&self, room: u32) -> Result<(), Stop>
        ensures { Checks (first_of (deep room) (beyond (operator (self.now.count + 1)))) self.now result }
    {
        self.within(room)?;
        if self.count >= 256 {
            return Err(Stop::Over(Kind::TooMany(8), self.rest.len()));
        }
        Ok(())
    }

    /// That there is room for the next token, a star or a dimension, and that behind so many there may be one more.
    pub fn within_derivations(&self, before: usize, room: u32) -> Result<(), Stop>
        ensures checks { Checks (first_of (deep room) (beyond (derivation (before + 1)))) self.now result }
        ensures few { IfOk result (λ _. before < 64) }
    {
        self.within(room)?;
        if before >= 64 {
            return Err(Stop::Over(Kind::TooMany(14), self.rest.len()));
        }
        Ok(())
    }
}

// One token each.
impl Parser<'_> {
    ghost use Rattle.c_grammar.specs.declared.terminal.Terminal.{Terminal};
    ghost use Rattle.parse_tokens.specs.inner.Moves.{Moves, Takes};
    ghost use Rattle.parse_tokens.specs.inner.Heads.{first_as};
    ghost use Rattle.c_grammar.specs.inner.Tokens.{tok, counted_tok, derived_tok, name_of, type_name_of, tag_of, int_of, char_of, text_of, word_is, mark_is, word_place, mark_place, prefix_of, step_of, assign_of, binary_of, type_word_of, storage_of, end_of};

    /// The next token, found to be in a class, if there is room for it; one that isn't in the class may not stand here.
    fn taken<T: Copy>(&mut self, found: Option<T>, room: u32) -> Result<T, Stop>
        ensures reads { (class : Terminal → Option T) → found ≡ first_as class self.old.rest.now → Moves (λ a. a) (tok room class) self.old self.new result }
        ensures takes { Takes self.old self.new result }
    {
        let Some(value) = found else {
            return Err(self.missed(room));
        };
        let [_, rest @ ..] = self.rest else {
            return Err(self.missed(room));
        };
        self.within(room)?;
        self.rest = rest;
        Ok(value)
    }

    /// The next token, found to be in a class of operators, if there is room for it and the full expression may have one more.
    fn counted<T: Copy>(&mut self, found: Option<T>, room: u32) -> Result<T, Stop>
        ensures reads { (class : Terminal → Option T) → found ≡ first_as class self.old.rest.now → Moves (λ a. a) (counted_tok room class) self.old self.new result }
        ensures takes { Takes self.old self.new result }
    {
        let Some(value) = found else {
            return Err(self.missed(room));
        };
        let [_, rest @ ..] = self.rest else {
            return Err(self.missed(room));
        };
        self.within_operators(room)?;
        self.count += 1;
        self.rest = rest;
        Ok(value)
    }

    /// The next token, found to be in a class of stars and dimensions, if there is room for it and behind so many there may be one more.
    fn derived<T: Copy>(&mut self, found: Option<T>, before: usize, room: u32) -> Result<T, Stop>
        ensures reads { (class : Terminal → Option T) → found ≡ first_as class self.old.rest.now → Moves (λ a. a) (derived_tok room before class) self.old self.new result }
        ensures takes { Takes self.old self.new result }
        ensures few { IfOk result (λ _. before < 64) }
    {
        let Some(value) = found else {
            return Err(self.missed(room));
        };
        let [_, rest @ ..] = self.rest else {
            return Err(self.missed(room));
        };
        self.within_derivations(before, room)?;
        self.rest = rest;
        Ok(value)
    }

    /// A mark.
    pub fn expected(&mut self, mark: Mark, room: u32) -> Result<(), Stop>
        ensures reads { Moves (λ _. tt) (tok room (mark_is mark)) self.old self.new result }
        ensures takes { Takes self.old self.new result }
    {
        let found = heads::mark(self.rest, mark);
        self.taken(found, room)
    }

    /// A word.
    pub fn expected_word(&mut self, word: Word, room: u32) -> Result<(), Stop>
        ensures reads { Moves (λ _. tt) (tok room (word_is word)) self.old self.new result }
        ensures takes { Takes self.old self.new result }
    {
        let found = heads::word(self.rest, word);
        self.taken(found, room)
    }

    /// The place of a mark.
    pub fn place_of(&mut self, mark: Mark, room: u32) -> Result<u32, Stop>
        ensures reads { Moves (λ a. a) (tok room (mark_place mark)) self.old self.new result }
        ensures takes { Takes self.old self.new result }
    {
        let found = heads::mark_place(self.rest, mark);
        self.taken(found, room)
    }

    /// The place of a word.
    pub fn place_of_word(&mut self, word: Word, room: u32) -> Result<u32, Stop>
        ensures reads { Moves (λ a. a) (tok room (word_place word)) self.old self.new result }
        ensures takes { Takes self.old self.new result }
    {
        let found = heads::word_place(self.rest, word);
        self.taken(found, room)
    }

    /// A mark that is a dimension, behind so many stars and dimensions.
    pub fn dimension(&mut self, mark: Mark, before: usize, room: u32) -> Result<(), Stop>
        ensures reads { Moves (λ _. tt) (derived_tok room before (mark_is mark)) self.old self.new result }
        ensures takes { Takes self.old self.new result }
        ensures few { IfOk result (λ _. before < 64) }
    {
        let found = heads::mark(self.rest, mark);
        self.derived(found, before, room)
    }

    /// The place of a mark that is a dimension, behind so many stars and dimensions.
    pub fn place_of_dimension(&mut self, mark: Mark, before: usize, room: u32) -> Result<u32, Stop>
        ensures reads { Moves (λ a. a) (derived_tok room before (mark_place mark)) self.old self.new result }
        ensures takes { Takes self.old self.new result }
        ensures few { IfOk result (λ _. before < 64) }
    {
        let found = heads::mark_place(self.rest, mark);
        self.derived(found, before, room)
    }

    /// The place of a mark that is an operator.
    pub fn place_of_operator(&mut self, mark: Mark, room: u32) -> Result<u32, Stop>
        ensures reads { Moves (λ a. a) (counted_tok room (mark_place mark)) self.old self.new result }
        ensures takes { Takes self.old self.new result }
    {
        let found = heads::mark_place(self.rest, mark);
        self.counted(found, room)
    }

    /// `NAME`
    pub fn name(&mut self, room: u32) -> Result<Name, Stop>
        ensures reads { Moves (λ a. a) (tok room name_of) self.old self.new result }
        ensures takes { Takes self.old self.new result }
    {
        let found = heads::name(self.rest);
        self.taken(found, room)
    }

    /// `TYPENAME`
    pub fn type_name(&mut self, room: u32) -> Result<Name, Stop>
        ensures reads { Moves (λ a. a) (tok room type_name_of) self.old self.new result }
        ensures takes { Takes self.old self.new result }
    {
        let found = heads::type_name(self.rest);
        self.taken(found, room)
    }

    /// `TNAME`: a name, be it a type's or not.
    pub fn tag(&mut self, room: u32) -> Result<Name, Stop>
        ensures reads { Moves (λ a. a) (tok room tag_of) self.old self.new result }
        ensures takes { Takes self.old self.new result }
    {
        let found = heads::tag(self.rest);
        self.taken(found, room)
    }

    /// An integer constant: its place and its value.
    pub fn int(&mut self, room: u32) -> Result<(u32, Num), Stop>
        ensures reads { Moves (λ a. a) (tok room int_of) self.old self.new result }
        ensures takes { Takes self.old self.new result }
    {
        let found = heads::int(self.rest);
        self.taken(found, room)
    }

    /// A character constant: its place and its value.
    pub fn char(&mut self, room: u32) -> Result<(u32, Num), Stop>
        ensures reads { Moves (λ a. a) (tok room char_of) self.old self.new result }
        ensures takes { Takes self.old self.new result }
    {
        let found = heads::char(self.rest);
        self.taken(found, room)
    }

    /// `STRING`
    pub fn text(&mut self, room: u32) -> Result<Span, Stop>
        ensures reads { Moves (λ a. a) (tok room text_of) self.old self.new result }
        ensures takes { Takes self.old self.new result }
    {
        let found = heads::text(self.rest);
        self.taken(found, room)
    }

    /// A prefix operator, and its place.
    pub fn prefix_op(&mut self, room: u32) -> Result<(u32, PrefixOp), Stop>
        ensures reads { Moves (λ a. a) (tok room prefix_of) self.old self.new result }
        ensures takes { Takes self.old self.new result }
    {
        let found = heads::prefix_op(self.rest);
        self.taken(found, room)
    }

    /// An increment or decrement, and its place.
    pub fn step_op(&mut self, room: u32) -> Result<(u32, StepOp), Stop>
        ensures reads { Moves (λ a. a) (tok room step_of) self.old self.new result }
        ensures takes { Takes self.old self.new result }
    {
        let found = heads::step_op(self.rest);
        self.taken(found, room)
    }

    /// An assignment, and its place.
    pub fn assign_op(&mut self, room: u32) -> Result<(u32, AssignOp), Stop>
        ensures reads { Moves (λ a. a) (tok room assign_of) self.old self.new result }
        ensures takes { Takes self.old self.new result }
    {
        let found = heads::assign_op(self.rest);
        self.taken(found, room)
    }

    /// A word of a type, and its place.
    pub fn type_word(&mut self, room: u32) -> Result<(u32, TypeWord), Stop>
        ensures reads { Moves (λ a. a) (tok room type_word_of) self.old self.new result }
        ensures takes { Takes self.old self.new result }
    {
        let found = heads::type_word(self.rest);
        self.taken(found, room)
    }

    /// `"static" | "inline"`
    pub fn storage(&mut self, room: u32) -> Result<Storage, Stop>
        ensures reads { Moves (λ a. a) (tok room storage_of) self.old self.new result }
        ensures takes { Takes self.old self.new result }
    {
        let found = heads::storage(self.rest);
        self.taken(found, room)
    }

    /// The end of the text.
    pub fn end(&mut self, room: u32) -> Result<(), Stop>
        ensures reads { Moves (λ _. tt) (tok room end_of) self.old self.new result }
        ensures takes { Takes self.old self.new result }
    {
        let found = heads::end(self.rest);
        self.taken(found, room)
    }

    /// A binary operator of the height, and its place.
    pub fn binary_op(&mut self, of: u32, room: u32) -> Result<(u32, BinaryOp), Stop>
        ensures reads { Moves (λ a. a) (counted_tok room (binary_of of)) self.old self.new result }
        ensures takes { Takes self.old self.new result }
    {
        let found = heads::binary_op(self.rest, of);
        self.counted(found, room)
    }
}
