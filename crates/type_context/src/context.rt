//! What stands before a node: what names and tags mean there, and what the text has shown (C11 6.2.1, 6.2.3).
ghost use Rattle.std.specs.Prelude.{◌≡◌, ◌∷◌, ◌++◌, [], List, ℕ, ◌+◌, ◌*◌, ◌/◌, length, map, set, None, OnOk, IfOk, IfErr};
ghost use Rattle.std.specs.List.{list_any};
ghost use Rattle.std.specs.Option.{option_map};
ghost use Rattle.std.specs.Map.{lookup};
ghost use Rattle.std.specs.Str.{bytes_eq};
ghost use Rattle.c_lex.specs.declared.refusal.CompileFault.TheVariants.{NoMemory};
ghost use Rattle.c_tree.specs.TypedViews.{type_view};
ghost use Rattle.c_tree.specs.TypedForm as forms;
ghost use Rattle.c_typing.specs.Scope as scopes;
ghost use Rattle.c_typing.specs.Scope.{bytes_of, or_else, found, meaning_of, is_double, fresh, declared, inside, back_to, within, fits_plain, tag_among, tag_number, is_struct_tag, with_new_struct, with_tag, is_begun, with_begun, is_enum_tag, is_listed, with_enum, with_listed, with_enumerator, with_alias, with_struct, member_among, member_of};
ghost use Rattle.c_typing.specs.Constants.{is_constant_name};
ghost use Rattle.c_tree.specs.Typed.{Ty};
ghost use Rattle.c_typing.specs.Judgement.{with_literal, with_addressed, meaning_in};
ghost use Rattle.type_context.specs.inner.Contexts.{local_in};
ghost use Rattle.type_context.specs.Telling.{Says};
ghost use Rattle.c_tree.specs.TypedViews.{layout_view};
ghost use Rattle.c_tree.specs.TypedLayout.{laid_out};
ghost use Rattle.type_context.specs.ContextViews.{context_view, binding_view, frame_view, seen, bytes_view, types_view, members_view, member_view};

use crate::faults::unless;
use crate::layouts::lay_out;
use crate::names::{Binding, Library, copy_meaning, library_name};
use c_lex::{CompileFault, Kind, Refusal};
use c_tree::copies::copy_type;
use c_tree::syntax::Name;
use c_tree::typed::{CType, Layout, Literal};
use indexmap::{IndexMap, IndexSet};
use std::alloc::{AllocError, Global};
use std::mem;

/// The bytes that globals and literals may take.
const MOST_PLAIN: u64 = 1_048_576;

/// One scope: what each name means that it declares.
pub type Frame<'t> = IndexMap<&'t [u8], Binding>;

/// A member of a struct: its name, and its type.
#[derive(Drop)]
pub struct MemberType<'t> {
    pub name: &'t [u8],
    pub ty: CType,
}

/// What stands before a node.
#[derive(Drop)]
pub struct Context<'t> {
    /// Where memory comes from.
    pub alloc: Global,
    /// The text.
    pub text: &'t [u8],
    /// The tags of structs, in the order in which they were first named: no bytes for a struct
    /// without a tag.
    pub tags: Vec<&'t [u8]>,
    /// The struct of each tag; one that isn't declared has no member.
    pub structs: Vec<Layout>,
    /// The names of each struct's members.
    pub members: Vec<Vec<&'t [u8]>>,
    /// The numbers of the structs whose braces were begun.
    pub begun: Vec<u32>,
    /// The tags of the enums whose braces were begun.
    pub enums: Vec<&'t [u8]>,
    /// The tags of the enums whose braces have ended.
    pub listed: Vec<&'t [u8]>,
    /// How many enumerators there are.
    pub enumerators: u32,
    /// How many names of types there are.
    pub aliases: u32,
    /// The literals that make a block.
    pub literals: Vec<Literal>,
    /// The bytes that globals and literals take.
    pub plain: u64,
    /// The types of the globals.
    pub globals: Vec<CType>,
    /// The names of the functions.
    pub functions: IndexSet<&'t [u8]>,
    /// The names of the functions that have a body.
    pub bodies: IndexSet<&'t [u8]>,
    /// The innermost scope.
    pub inner: Frame<'t>,
    /// The scopes around it, from the outermost on.
    pub outer: Vec<Frame<'t>>,
    /// The types of the function's locals.
    pub locals: Vec<CType>,
    /// The numbers of those whose address is taken.
    pub addressed: Vec<u32>,
}

impl<'t> Context<'t> {
    /// Before the first token.
    pub fn at_start(alloc: Global, text: &'t [u8]) -> Context<'t>
        ensures { context_view result ≡ scopes.at_start text.now }
    {
        Context {
            alloc,
            text,
            tags: Vec::new(alloc),
            structs: Vec::new(alloc),
            members: Vec::new(alloc),
            begun: Vec::new(alloc),
            enums: Vec::new(alloc),
            listed: Vec::new(alloc),
            enumerators: 0,
            aliases: 0,
            literals: Vec::new(alloc),
            plain: 0,
            globals: Vec::new(alloc),
            functions: IndexSet::new(alloc),
            bodies: IndexSet::new(alloc),
            inner: IndexMap::new(alloc),
            outer: Vec::new(alloc),
            locals: Vec::new(alloc),
            addressed: Vec::new(alloc),
        }
    }

    // ---- names

    /// The bytes of a name.
    #[tactic(auto, unfolding(c_typing::specs::Scope::bytes_of))]
    pub fn bytes(&self, name: Name) -> &'t [u8]
        ensures { result.now ≡ bytes_of self.now.text.now name }
    {
        let from = name.from as usize;
        let to = name.to as usize;
        if from <= to && to <= self.text.len() {
            &self.text[from..to]
        } else {
            &[]
        }
    }

    // What the innermost scope that declares a name says.
    fn declared_as(&self, bytes: &[u8]) -> Option<&Binding>
        ensures { seen result ≡ or_else (lookup (bytes_eq bytes.now) (context_view self.now).inner) (found (context_view self.now).outer bytes.now) }
    {
        match look_up(&self.inner, bytes) {
            Some(meaning) => Some(meaning),
            None => look_up_all(&self.outer, bytes),
        }
    }

    /// What a name means; the library's names are declared around all else.
    pub fn meaning_of(&self, name: Name) -> Result<Option<Binding>, AllocError>
        ensures { IfOk result (λ m. option_map binding_view m ≡ meaning_of (context_view self.now) name) }
    {
        let bytes = self.bytes(name);
        match self.declared_as(bytes) {
            Some(meaning) => Ok(Some(copy_meaning(self.alloc, meaning)?)),
            None => Ok(library_name(bytes).map(Binding::Library)),
        }
    }

    /// Whether the innermost scope has the name, or the library.
    pub fn is_double(&self, name: Name) -> bool
        ensures { result ≡ is_double (context_view self.now) name }
    {
        let bytes = self.bytes(name);
        look_up(&self.inner, bytes).is_some() || library_name(bytes).is_some()
    }

    /// Whether a name may be declared in the innermost scope.
    pub fn fresh(&self, name: Name) -> Result<(), Refusal>
        ensures { Says (λ _. tt) result (fresh (context_view self.now) name) }
    {
        unless(name.from, Kind::DoubleName, !self.is_double(name))
    }

    /// Declares a name in the innermost scope, unless it has it.
    pub fn declare(&mut self, name: Name, meaning: Binding) -> Result<(), CompileFault>
        ensures after { OnOk result (context_view self.new ≡ declared (context_view self.old) name (binding_view meaning)) }
        ensures memory { IfErr result (λ e. e ≡ NoMemory) }
    {
        if !self.is_double(name) {
            let bytes = self.bytes(name);
            self.inner.insert(bytes, meaning)?;
        }
        Ok(())
    }

    /// Begins an inner scope, which declares this much.
    pub fn enter(&mut self, frame: Frame<'t>) -> Result<(), CompileFault>
        ensures after { OnOk result (context_view self.new ≡ record (inside (context_view self.old)) { inner = frame_view frame.entry.entries }) }
        ensures memory { IfErr result (λ e. e ≡ NoMemory) }
    {
        let around = mem::replace(&mut self.inner, frame);
        self.outer.push(around)?;
        Ok(())
    }

    /// Ends it, and gives back what it declared: what was around is as it was.
    pub fn leave(&mut self) -> Frame<'t>
        ensures around { (around : scopes.Context) → (context_view self.old).outer ≡ around.outer ++ around.inner ∷ [] → context_view self.new ≡ back_to around (context_view self.old) }
        ensures inner { frame_view result.entries ≡ (context_view self.old).inner }
    {
        let around = match self.outer.pop() {
            Some(around) => around,
            None => IndexMap::new(self.alloc),
        };
        mem::replace(&mut self.inner, around)
    }

    // The number of the local that a name is.
    fn local(&self, name: Option<Name>) -> Option<u32>
        ensures { result ≡ local_in (meaning_in (context_view self.now) name) }
    {
        match name {
            Some(name) => match self.declared_as(self.bytes(name)) {
                Some(Binding::Local(n, _)) => Some(*n),
                _ => None,
            },
            None => None,
        }
    }

    /// The local whose address is taken is in memory (C11 6.5.3.2 p1).
    #[tactic(auto, using(crate::proofs::Marking::addressed_some, crate::proofs::Marking::addressed_none))]
    pub fn mark_addressed(&mut self, name: Option<Name>) -> Result<(), CompileFault>
        ensures after { OnOk result (context_view self.new ≡ with_addressed (context_view self.old) (meaning_in (context_view self.old) name)) }
        ensures memory { IfErr result (λ e. e ≡ NoMemory) }
    {
        if let Some(n) = self.local(name) {
            self.addressed.push(n)?;
        }
        Ok(())
    }

    // ---- literals, and the bytes of plain objects

    /// Whether an object of so many bytes more fits.
    pub fn fits_plain(&self, place: u32, size: u32) -> Result<(), Refusal>
        ensures { Says (λ _. tt) result (fits_plain (context_view self.now) place size) }
    {
        let all = self.plain.checked_add(taken(size));
        unless(
            place,
            Kind::TooMany(9),
            all.is_some_and(|all| all <= MOST_PLAIN),
        )
    }

    /// One more object of so many bytes.
    pub fn take_plain(&mut self, size: u32) -> Result<(), CompileFault>
        ensures after { OnOk result (context_view self.new ≡ record (context_view self.old) { plain = (context_view self.old).plain + forms.taken size }) }
        ensures memory { IfErr result (λ e. e ≡ NoMemory) }
    {
        let all = self.plain.checked_add(taken(size));
        self.plain = all.ok_or(CompileFault::NoMemory)?;
        Ok(())
    }

    /// One more literal; its number, and its length.
    pub fn add_literal(&mut self, bytes: Vec<u8>) -> Result<u32, CompileFault>
        ensures after { OnOk result (context_view self.new ≡ with_literal (context_view self.old) bytes.items) }
        ensures number { IfOk result (λ n. n ≡ length (context_view self.old).literals) }
        ensures memory { IfErr result (λ e. e ≡ NoMemory) }
    {
        let number = count(self.literals.len())?;
        self.take_plain(count(bytes.len())?)?;
        self.literals.push(Literal { bytes })?;
        Ok(number)
    }

    // ---- tags

    /// The number of a tag: how many were named before it.
    pub fn tag_number(&self, tag: Name) -> Result<u32, CompileFault>
        ensures number { IfOk result (λ n. n ≡ tag_number (context_view self.now) tag) }
        ensures memory { IfErr result (λ e. e ≡ NoMemory) }
    {
        count(tag_among(&self.tags, self.bytes(tag)))
    }

    /// Whether a tag names a struct.
    pub fn is_struct_tag(&self, tag: Name) -> bool
        ensures { result ≡ is_struct_tag (context_view self.now) tag }
    {
        is_there(&self.tags, self.bytes(tag))
    }

    /// One struct more, which isn't declared: with this tag, or with no bytes where it has none.
    pub fn add_struct(&mut self, tag: &'t [u8]) -> Result<(), CompileFault>
        ensures after { OnOk result (context_view self.new ≡ with_new_struct (context_view self.old) tag.now) }
        ensures memory { IfErr result (λ e. e ≡ NoMemory) }
    {
        self.tags.push(tag)?;
        self.structs.push(empty_layout(self.alloc))?;
        self.members.push(Vec::new(self.alloc))?;
        Ok(())
    }

    /// A tag is named: where it wasn't before, it's a struct that isn't declared.
    pub fn name_tag(&mut self, tag: Name) -> Result<(), CompileFault>
        ensures after { OnOk result (context_view self.new ≡ with_tag (context_view self.old) tag) }
        ensures memory { IfErr result (λ e. e ≡ NoMemory) }
    {
        if self.is_struct_tag(tag) {
            return Ok(());
        }
        self.add_struct(self.bytes(tag))
    }

    /// Whether a struct's braces were begun.
    pub fn is_begun(&self, number: u32) -> bool
        ensures { result ≡ is_begun (context_view self.now) number }
    {
        self.begun.iter().any(|other| *other == number)
    }

    /// A struct's braces are begun.
    pub fn begin(&mut self, number: u32) -> Result<(), CompileFault>
        ensures after { OnOk result (context_view self.new ≡ with_begun (context_view self.old) number) }
        ensures memory { IfErr result (λ e. e ≡ NoMemory) }
    {
        self.begun.push(number)?;
        Ok(())
    }

    // ---- enums, and names of types

    /// Whether a tag names an enum: its braces were begun.
    pub fn is_enum_tag(&self, tag: Name) -> bool
        ensures { result ≡ is_enum_tag (context_view self.now) tag }
    {
        is_there(&self.enums, self.bytes(tag))
    }

    /// Whether the enum of a tag is declared: its braces have ended.
    pub fn is_listed(&self, tag: Name) -> bool
        ensures { result ≡ is_listed (context_view self.now) tag }
    {
        is_there(&self.listed, self.bytes(tag))
    }

    /// An enum's braces are begun.
    pub fn begin_enum(&mut self, tag: Name) -> Result<(), CompileFault>
        ensures after { OnOk result (context_view self.new ≡ with_enum (context_view self.old) tag) }
        ensures memory { IfErr result (λ e. e ≡ NoMemory) }
    {
        let bytes = self.bytes(tag);
        self.enums.push(bytes)?;
        Ok(())
    }

    /// An enum's braces have ended.
    pub fn end_enum(&mut self, tag: Name) -> Result<(), CompileFault>
        ensures after { OnOk result (context_view self.new ≡ with_listed (context_view self.old) tag) }
        ensures memory { IfErr result (λ e. e ≡ NoMemory) }
    {
        let bytes = self.bytes(tag);
        self.listed.push(bytes)?;
        Ok(())
    }

    /// An enumerator is in scope (C11 6.2.1 p7).
    pub fn declare_enumerator(&mut self, name: Name, value: i32) -> Result<(), CompileFault>
        ensures after { OnOk result (context_view self.new ≡ with_enumerator (context_view self.old) name value) }
        ensures memory { IfErr result (λ e. e ≡ NoMemory) }
    {
        self.declare(name, Binding::Enumerator(value))?;
        self.enumerators = one_more(self.enumerators)?;
        Ok(())
    }

    /// The name of a type is in scope; where it was before, nothing is new (C11 6.7 p3).
    pub fn declare_alias(&mut self, name: Name, ty: CType) -> Result<(), CompileFault>
        ensures after { OnOk result (context_view self.new ≡ with_alias (context_view self.old) name (type_view ty)) }
        ensures memory { IfErr result (λ e. e ≡ NoMemory) }
    {
        if self.is_double(name) {
            return Ok(());
        }
        self.declare(name, Binding::Type(ty))?;
        self.aliases = one_more(self.aliases)?;
        Ok(())
    }

    // ---- members

    /// A struct is declared with these members.
    pub fn declare_struct(
        &mut self,
        number: u32,
        all: Vec<MemberType<'t>>,
    ) -> Result<(), CompileFault>
        ensures after { OnOk result (context_view self.new ≡ with_struct (context_view self.old) number (members_view all.entry.items)) }
        ensures memory { IfErr result (λ e. e ≡ NoMemory) }
    {
        let (names, types) = split(self.alloc, all)?;
        let layout = lay_out(self.alloc, &self.structs, types)?;
        put(&mut self.structs, number, layout);
        put(&mut self.members, number, names);
        Ok(())
    }

    /// The member of this name of a struct, if it is declared and has one: its number and its type.
    pub fn member_of(&self, number: u32, name: Name) -> Result<Option<(u32, CType)>, CompileFault>
        ensures member { IfOk result (λ m. option_map member_view m ≡ member_of (context_view self.now) number name) }
        ensures memory { IfErr result (λ e. e ≡ NoMemory) }
    {
        let (Some(layout), Some(names)) = (
            self.structs.get(number as usize),
            self.members.get(number as usize),
        ) else {
            return Ok(None);
        };
        let Some(place) = place_among(names, self.bytes(name)) else {
            return Ok(None);
        };
        match layout.types.get(place) {
            Some(t) => Ok(Some((count(place)?, copy_type(self.alloc, t)?))),
            None => Ok(None),
        }
    }

    /// Whether a name stands for a constant.
    pub fn is_constant_name(&self, name: Name) -> bool
        ensures { result ≡ is_constant_name (meaning_of (context_view self.now) name) }
    {
        let bytes = self.bytes(name);
        match self.declared_as(bytes) {
            Some(meaning) => matches!(
                meaning,
                Binding::Enumerator(_) | Binding::Library(Library::Constant(_))
            ),
            None => matches!(library_name(bytes), Some(Library::Constant(_))),
        }
    }
}

// Puts a thing in the place of the one that has the number, if one has.
fn put<T: Drop>(all: &mut Vec<T>, number: u32, x: T)
    ensures { all.new.items ≡ set all.old.items number x }
{
    if (number as usize) < all.len() {
        all[number as usize] = x;
    }
}

// Whether the bytes are among these.
#[tactic(auto, using(crate::proofs::Tagging::found_there))]
fn is_there(all: &[&[u8]], bytes: &[u8]) -> bool
    ensures { result ≡ list_any (bytes_eq bytes.now) (bytes_view all.now) }
{
    place_among(all, bytes).is_some()
}

// The place of a tag among these, or how many they are where it is none of them.
#[tactic(auto, using(crate::proofs::Tagging::place_found, crate::proofs::Tagging::place_past))]
fn tag_among(tags: &[&[u8]], bytes: &[u8]) -> usize
    ensures { result ≡ tag_among bytes.now (bytes_view tags.now) }
{
    match place_among(tags, bytes) {
        Some(n) => n,
        None => tags.len(),
    }
}

// One more of what there is.
fn one_more(n: u32) -> Result<u32, CompileFault>
    ensures number { IfOk result (λ m. m ≡ n + 1) }
    ensures memory { IfErr result (λ e. e ≡ NoMemory) }
{
    n.checked_add(1).ok_or(CompileFault::NoMemory)
}

// The place of bytes among these: tags, or the names of a struct's members.
fn place_among(names: &[&[u8]], bytes: &[u8]) -> Option<usize>
    ensures { result ≡ member_among 0 bytes.now (bytes_view names.now) }
{
    'names: for (place, name) in names.iter().enumerate() {
        if bytes == *name {
            return Some(place);
        }
    }
    None
}

// The names of members, and their types.
fn split<'t>(
    alloc: Global,
    all: Vec<MemberType<'t>>,
) -> Result<(Vec<&'t [u8]>, Vec<CType>), CompileFault>
    ensures names { IfOk result (λ p. bytes_view p.0.items ≡ map (λ (m : List ℕ × Ty). m.0) (members_view all.entry.items)) }
    ensures types { IfOk result (λ p. types_view p.1.items ≡ map (λ (m : List ℕ × Ty). m.1) (members_view all.entry.items)) }
    ensures memory { IfErr result (λ e. e ≡ NoMemory) }
{
    let mut names = Vec::new(alloc);
    let mut types = Vec::new(alloc);
    'members: for member in all {
        names.push(member.name)?;
        types.push(member.ty)?;
    }
    Ok((names, types))
}

/// A length as a count, which a table that fits in memory has.
pub fn count(length: usize) -> Result<u32, CompileFault>
    ensures number { IfOk result (λ n. n ≡ length) }
    ensures memory { IfErr result (λ e. e ≡ NoMemory) }
{
    u32::try_from(length).map_err(|_| CompileFault::NoMemory)
}

/// Whether fewer than so many were there before.
pub fn within(place: u32, count: u8, most: usize, before: usize) -> Result<(), Refusal>
    ensures { Says (λ _. tt) result (within place count most before) }
{
    unless(place, Kind::TooMany(count), before < most)
}

// The bytes that a plain object takes, with one of padding behind it at least.
fn taken(size: u32) -> u64
    ensures { result ≡ forms.taken size }
{
    16 * (u64::from(size) / 16 + 1)
}

// A struct that isn't declared.
fn empty_layout(alloc: Global) -> Layout
    ensures { layout_view result ≡ laid_out [] [] }
{
    Layout {
        offsets: Vec::new(alloc),
        types: Vec::new(alloc),
        size: 0,
        align: 1,
    }
}

// What one scope says of a name.
fn look_up<'a, 't>(frame: &'a Frame<'t>, bytes: &[u8]) -> Option<&'a Binding>
    ensures { seen result ≡ lookup (bytes_eq bytes.now) (frame_view frame.now.entries) }
{
    frame.get(bytes)
}

// What the innermost of these scopes that declares the name says.
fn look_up_all<'a, 't>(frames: &'a [Frame<'t>], bytes: &[u8]) -> Option<&'a Binding>
    ensures { seen result ≡ found (map (λ f. frame_view f.entries) frames.now) bytes.now }
{
    match frames {
        [] => None,
        [outer, inner @ ..] => match look_up_all(inner, bytes) {
            Some(meaning) => Some(meaning),
            None => look_up(outer, bytes),
        },
    }
}
