//! Types and members (C11 6.7), at the level that leaves so much room; braces of a struct may stand in them or not.

ghost use Rattle.std.specs.Prelude.{◌≡◌, ◌+◌, ◌-◌, ◌<◌, map, [], ◌∷◌, true, false, IfOk};
ghost use Rattle.std.specs.Option.{option_map};
ghost use Rattle.c_lex.specs.declared.token.Mark.TheVariants.{Comma, Assign};
ghost use Rattle.c_grammar.specs.Grammar.{stars, is_of_type, typed_by, has_comma, as_name, as_any, naming_of};
ghost use Rattle.c_tree.specs.SyntaxViews.{expr_view, boxed_expr_view, type_name_view, spec_view, enumerator_view, member_view, declarator_view};
ghost use Rattle.parse_tokens.specs.inner.Moves.{Moves, Takes, Keeps};
ghost use Rattle.c_grammar.specs.inner.Readers.{made, maybe, chain_by, pushed, row_from};
ghost use Rattle.c_grammar.specs.inner.Tokens.{tok, mark_is, is_mark, begins_type};
ghost use Rattle.parse_expressions.specs.inner.Namings.{naming_view};
ghost use Rattle.c_grammar.specs.inner.Reading.{level_at, commas, type_named, value, enumerated, parted, begins_enumerator, enumerators, tagged, struct_by, enum_by, spec, spec_behind, typed, specs, members, membered, dim, dims, declared_name, declarator_behind, declared, bare_declared, any_declared};

use crate::boxes::{one, put, put_inner};
use crate::building::{enumerator_of, member_of, type_name_of};
use crate::expressions::full_expr;
use crate::pointers::{bare_pointers, pointers, stars};
use c_lex::{Mark, Word};
use c_tree::syntax::{
    Declarator, Enumerator, Expr, Member, Name, Pointer, Spec, TypeName, TypeWord,
};
use parse_tokens::parser::{Parser, Stop};
use parse_tokens::peeking::SpecStart;

/// `specs ptr`
#[cycle(expressions)]
#[tactic(auto, using(crate::proofs::CodeLevels::type_name_at, crate::proofs::CodeLevels::no_type_name), unfolding(c_grammar::specs::inner::Reading::type_named))]
pub fn type_name(parser: &mut Parser<'_>, room: u32, braces: bool) -> Result<TypeName, Stop>
    ensures reads { Moves type_name_view (level_at braces room).type_name parser.old parser.new result }
    ensures takes { Takes parser.old parser.new result }
{
    if room == 0 {
        return Err(parser.no_room_for_type());
    }
    let specs = specs(parser, room, braces)?;
    let pointers = bare_pointers(parser, room)?;
    Ok(type_name_of(specs, pointers))
}

/// `spec { spec }`
#[cycle(expressions)]
#[tactic(auto, using(crate::proofs::CodeLoops::chooses, crate::proofs::CodeLoops::choice_fails), unfolding(c_grammar::specs::inner::Reading::specs, c_grammar::specs::inner::Readers::turns))]
pub fn specs(parser: &mut Parser<'_>, room: u32, braces: bool) -> Result<Vec<Spec>, Stop>
    requires { 0 < room }
    ensures reads { Moves (λ all. map spec_view all.items) (specs braces room (room - 1) (level_at braces (room - 1))) parser.old parser.new result }
    ensures takes { Takes parser.old parser.new result }
{
    let first = spec_behind(parser, false, room, braces)?;
    let mut typed = typed_by(false, &first);
    let mut all = one(parser.alloc, first)?;
    'specs: while parser.is_spec_next(typed)? {
        let more = spec_behind(parser, typed, room, braces)?;
        typed = typed_by(typed, &more);
        put(&mut all, more)?;
    }
    Ok(all)
}

/// A word is of a type: `const`, `register`, `auto` and `_Atomic` are not.
fn is_of_type(word: TypeWord) -> bool
    ensures { result ≡ is_of_type word }
{
    !matches!(
        word,
        TypeWord::Const | TypeWord::Register | TypeWord::Auto | TypeWord::Atomic
    )
}

/// Whether a type stands before what is behind the specifier, where one stands before it or doesn't.
fn typed_by(typed: bool, spec: &Spec) -> bool
    ensures { result ≡ typed_by typed (spec_view spec.now) }
{
    match spec {
        Spec::Word { word, .. } => typed || is_of_type(*word),
        _ => true,
    }
}

/// Whether a type stands before what is behind the specifiers.
pub fn are_typed(specs: &[Spec]) -> bool
    ensures { result ≡ typed false (map spec_view specs.now) }
{
    let mut typed = false;
    let mut rest = specs;
    'specs: while let [spec, behind @ ..] = rest {
        typed = typed_by(typed, spec);
        rest = behind;
    }
    typed
}

/// spec, where a type's name may be one: where no type stands before it
#[cycle(expressions)]
#[tactic(auto, using(crate::proofs::CodeLoops::chooses, crate::proofs::CodeLoops::choice_fails))]
fn spec_behind(parser: &mut Parser<'_>, typed: bool, room: u32, braces: bool) -> Result<Spec, Stop>
    requires { 0 < room }
    ensures reads { Moves spec_view (spec_behind braces room (room - 1) (level_at braces (room - 1)) typed) parser.old parser.new result }
    ensures takes { Takes parser.old parser.new result }
{
    if typed {
        return spec(parser, room, braces);
    }
    if !parser.is_type_name_next()? {
        return spec(parser, room, braces);
    }
    let name = parser.type_name(room)?;
    Ok(Spec::Alias(name))
}

/// spec
#[cycle(expressions)]
#[tactic(auto, using(crate::proofs::CodeLoops::chooses, crate::proofs::CodeLoops::choice_fails), unfolding(c_grammar::specs::inner::Reading::spec))]
fn spec(parser: &mut Parser<'_>, room: u32, braces: bool) -> Result<Spec, Stop>
    requires { 0 < room }
    ensures reads { Moves spec_view (spec braces room (room - 1) (level_at braces (room - 1))) parser.old parser.new result }
    ensures takes { Takes parser.old parser.new result }
{
    match parser.spec_start()? {
        SpecStart::Word => {
            let (place, word) = parser.type_word(room)?;
            Ok(Spec::Word { place, word })
        }
        SpecStart::Struct => {
            let place = parser.place_of_word(Word::Struct, room)?;
            struct_behind(parser, place, room, braces)
        }
        SpecStart::Enum => {
            let place = parser.place_of_word(Word::Enum, room)?;
            enum_behind(parser, place, room, braces)
        }
    }
}

/// `TNAME [ "{" member { member } "}" ] | "{" member { member } "}"`, behind `struct` at the place
#[cycle(expressions)]
#[tactic(auto, using(crate::proofs::CodeLoops::chooses, crate::proofs::CodeLoops::choice_fails))]
fn struct_behind(parser: &mut Parser<'_>, place: u32, room: u32, braces: bool) -> Result<Spec, Stop>
    requires { 0 < room }
    ensures reads { Moves spec_view (made (struct_by place) (tagged braces room (members (room - 1) (level_at braces (room - 1))))) parser.old parser.new result }
    ensures takes { Takes parser.old parser.new result }
{
    if !braces {
        let tag = parser.tag(room)?;
        return Ok(Spec::Struct { place, tag });
    }
    if parser.is_next(Mark::OpenBrace)? {
        let members = members(parser, room)?;
        return Ok(Spec::UnnamedStruct { place, members });
    }
    let tag = parser.tag(room)?;
    if !parser.is_next(Mark::OpenBrace)? {
        return Ok(Spec::Struct { place, tag });
    }
    let members = members(parser, room)?;
    Ok(Spec::StructBody {
        place,
        tag,
        members,
    })
}

/// `TNAME [ "{" list "}" ] | "{" list "}"`, behind `enum` at the place
#[cycle(expressions)]
#[tactic(auto, using(crate::proofs::CodeLoops::chooses, crate::proofs::CodeLoops::choice_fails))]
fn enum_behind(parser: &mut Parser<'_>, place: u32, room: u32, braces: bool) -> Result<Spec, Stop>
    requires { 0 < room }
    ensures reads { Moves spec_view (made (enum_by place) (tagged braces room (enumerators (room - 1) (level_at braces (room - 1))))) parser.old parser.new result }
    ensures takes { Takes parser.old parser.new result }
{
    if !braces {
        let tag = parser.tag(room)?;
        return Ok(Spec::Enum { place, tag });
    }
    if parser.is_next(Mark::OpenBrace)? {
        let list = enumerators(parser, room)?;
        return Ok(Spec::UnnamedEnum { place, list });
    }
    let tag = parser.tag(room)?;
    if !parser.is_next(Mark::OpenBrace)? {
        return Ok(Spec::Enum { place, tag });
    }
    let list = enumerators(parser, room)?;
    Ok(Spec::EnumBody { place, tag, list })
}

/// `"{" list "}"`
#[cycle(expressions)]
#[tactic(auto, unfolding(c_grammar::specs::inner::Reading::enumerators))]
fn enumerators(parser: &mut Parser<'_>, room: u32) -> Result<Vec<Enumerator>, Stop>
    requires { 0 < room }
    ensures reads { Moves (λ all. map enumerator_view all.items) (enumerators (room - 1) (level_at true (room - 1))) parser.old parser.new result }
    ensures takes { Takes parser.old parser.new result }
{
    parser.expected(Mark::OpenBrace, room - 1)?;
    let all = enumerator_row(parser, room)?;
    parser.expected(Mark::CloseBrace, room - 1)?;
    Ok(all)
}

/// `list`: a comma behind each enumerator but the last, behind which one may stand.
#[cycle(expressions)]
#[tactic(auto, using(crate::proofs::CodeLoops::chooses, crate::proofs::CodeLoops::choice_fails), unfolding(c_grammar::specs::inner::Readers::turns))]
fn enumerator_row(parser: &mut Parser<'_>, room: u32) -> Result<Vec<Enumerator>, Stop>
    requires { 0 < room }
    ensures reads { Moves (λ all. map enumerator_view all.items) (chain_by (made (λ e. e ∷ []) (enumerated (room - 1) (level_at true (room - 1)))) (λ front. begins_enumerator (parted true front)) (λ front. enumerated (room - 1) (level_at true (room - 1))) pushed) parser.old parser.new result }
    ensures takes { Takes parser.old parser.new result }
{
    let first = enumerator(parser, room)?;
    let mut comma = has_comma(&first);
    let mut all = one(parser.alloc, first)?;
    'enumerators: while parser.is_enumerator_next(comma)? {
        let more = enumerator(parser, room)?;
        comma = has_comma(&more);
        put(&mut all, more)?;
    }
    Ok(all)
}

/// Whether a comma stands behind the enumerator.
fn has_comma(enumerator: &Enumerator) -> bool
    ensures { result ≡ has_comma (enumerator_view enumerator.now) }
{
    enumerator.comma
}

/// `NAME [ "=" expr ] [ "," ]`
#[cycle(expressions)]
#[tactic(auto, unfolding(c_grammar::specs::inner::Reading::enumerated))]
fn enumerator(parser: &mut Parser<'_>, room: u32) -> Result<Enumerator, Stop>
    requires { 0 < room }
    ensures reads { Moves enumerator_view (enumerated (room - 1) (level_at true (room - 1))) parser.old parser.new result }
    ensures takes { Takes parser.old parser.new result }
{
    let name = parser.name(room - 1)?;
    let value = initialiser(parser, room - 1, true)?;
    let comma = maybe_comma(parser, room - 1)?;
    Ok(enumerator_of(name, value, comma.is_some()))
}

/// `[ "," ]`
#[tactic(auto, using(crate::proofs::CodeLoops::chooses, crate::proofs::CodeLoops::choice_fails))]
fn maybe_comma(parser: &mut Parser<'_>, room: u32) -> Result<Option<()>, Stop>
    ensures reads { Moves (option_map (λ _. tt)) (maybe (is_mark Comma) (tok room (mark_is Comma))) parser.old parser.new result }
    ensures keeps { Keeps parser.old parser.new result }
{
    if !parser.is_next(Mark::Comma)? {
        return Ok(None);
    }
    parser.expected(Mark::Comma, room)?;
    Ok(Some(()))
}

/// `"=" expr`
#[cycle(expressions)]
#[tactic(auto, unfolding(c_grammar::specs::inner::Reading::value))]
fn value(parser: &mut Parser<'_>, room: u32, braces: bool) -> Result<Box<Expr>, Stop>
    ensures reads { Moves boxed_expr_view (value room (level_at braces room)) parser.old parser.new result }
    ensures takes { Takes parser.old parser.new result }
{
    parser.expected(Mark::Assign, room)?;
    full_expr(parser, room, braces)
}

/// `[ "=" expr ]`
#[cycle(expressions)]
#[tactic(auto, using(crate::proofs::CodeLoops::chooses, crate::proofs::CodeLoops::choice_fails))]
pub fn initialiser(
    parser: &mut Parser<'_>,
    room: u32,
    braces: bool,
) -> Result<Option<Box<Expr>>, Stop>
    ensures reads { Moves (option_map boxed_expr_view) (maybe (is_mark Assign) (value room (level_at braces room))) parser.old parser.new result }
    ensures keeps { Keeps parser.old parser.new result }
{
    if !parser.is_next(Mark::Assign)? {
        return Ok(None);
    }
    let value = value(parser, room, braces)?;
    Ok(Some(value))
}

/// `"{" member { member } "}"`
#[cycle(expressions)]
#[tactic(auto, using(crate::proofs::CodeLoops::chooses, crate::proofs::CodeLoops::choice_fails), unfolding(c_grammar::specs::inner::Reading::members))]
fn members(parser: &mut Parser<'_>, room: u32) -> Result<Vec<Member>, Stop>
    requires { 0 < room }
    ensures reads { Moves (λ all. map member_view all.items) (members (room - 1) (level_at true (room - 1))) parser.old parser.new result }
    ensures takes { Takes parser.old parser.new result }
{
    parser.expected(Mark::OpenBrace, room - 1)?;
    let all = member_row(parser, room)?;
    parser.expected(Mark::CloseBrace, room - 1)?;
    Ok(all)
}

/// `member { member }`
#[cycle(expressions)]
#[tactic(auto, using(crate::proofs::CodeLoops::chooses, crate::proofs::CodeLoops::choice_fails), unfolding(c_grammar::specs::inner::Readers::turns))]
fn member_row(parser: &mut Parser<'_>, room: u32) -> Result<Vec<Member>, Stop>
    requires { 0 < room }
    ensures reads { Moves (λ all. map member_view all.items) (row_from (level_at true (room - 1)).member begins_type (level_at true (room - 1)).member) parser.old parser.new result }
    ensures takes { Takes parser.old parser.new result }
{
    let first = member(parser, room - 1)?;
    let mut all = one(parser.alloc, first)?;
    'members: while parser.is_type_next()? {
        let more = member(parser, room - 1)?;
        put(&mut all, more)?;
    }
    Ok(all)
}

/// member
#[cycle(expressions)]
#[tactic(auto, using(crate::proofs::CodeLevels::member_at, crate::proofs::CodeLevels::no_member), unfolding(c_grammar::specs::inner::Reading::membered))]
fn member(parser: &mut Parser<'_>, room: u32) -> Result<Member, Stop>
    ensures reads { Moves member_view (level_at true room).member parser.old parser.new result }
    ensures takes { Takes parser.old parser.new result }
{
    if room == 0 {
        return Err(parser.no_room_for_type());
    }
    let specs = specs(parser, room, true)?;
    let typed = are_typed(&specs);
    let declarators = any_declared(parser, typed, room)?;
    Ok(member_of(specs, declarators))
}

/// `ptr TNAME dims { "," ptr TNAME dims } ";"`, behind specifiers with a type among them or none
#[cycle(expressions)]
#[tactic(auto, unfolding(c_grammar::specs::inner::Reading::any_declared))]
pub fn any_declared(
    parser: &mut Parser<'_>,
    typed: bool,
    room: u32,
) -> Result<Vec<Declarator>, Stop>
    requires { 0 < room }
    ensures reads { Moves (λ all. (map declarator_view all.items, tt)) (any_declared room (room - 1) (level_at true (room - 1)) typed) parser.old parser.new result }
    ensures takes { Takes parser.old parser.new result }
{
    let all = declarators(parser, typed, room)?;
    parser.expected(Mark::Semicolon, room)?;
    Ok(all)
}

/// `ptr TNAME dims { "," ptr TNAME dims }`
#[cycle(expressions)]
#[tactic(auto, using(crate::proofs::CodeLoops::chooses, crate::proofs::CodeLoops::choice_fails), unfolding(c_grammar::specs::inner::Reading::declared, c_grammar::specs::inner::Reading::bare_declared, c_grammar::specs::inner::Readers::turns))]
fn declarators(parser: &mut Parser<'_>, typed: bool, room: u32) -> Result<Vec<Declarator>, Stop>
    requires { 0 < room }
    ensures reads { Moves (λ all. map declarator_view all.items) (commas room (bare_declared (naming_of typed) room (room - 1) (level_at true (room - 1))) (declared as_any room (room - 1) (level_at true (room - 1)))) parser.old parser.new result }
    ensures takes { Takes parser.old parser.new result }
{
    let pointers = bare_pointers(parser, room)?;
    let first = declarator_behind(parser, naming_of(typed), pointers, room, true)?;
    let mut all = one(parser.alloc, first)?;
    'declarators: while parser.is_next(Mark::Comma)? {
        parser.expected(Mark::Comma, room)?;
        let pointers = crate::pointers::pointers(parser, room)?;
        let more = declarator_behind(parser, Naming::Any, pointers, room, true)?;
        put(&mut all, more)?;
    }
    Ok(all)
}

/// `ptr NAME dims`
#[tactic(auto, unfolding(c_grammar::specs::inner::Reading::declared))]
pub fn declared(parser: &mut Parser<'_>, room: u32, braces: bool) -> Result<Declarator, Stop>
    requires { 0 < room }
    ensures reads { Moves declarator_view (declared as_name room (room - 1) (level_at braces (room - 1))) parser.old parser.new result }
    ensures takes { Takes parser.old parser.new result }
{
    let pointers = pointers(parser, room)?;
    declarator_behind(parser, Naming::Name, pointers, room, braces)
}

/// The same behind specifiers.
#[tactic(auto, unfolding(c_grammar::specs::inner::Reading::bare_declared))]
pub fn bare_declared(parser: &mut Parser<'_>, room: u32, braces: bool) -> Result<Declarator, Stop>
    requires { 0 < room }
    ensures reads { Moves declarator_view (bare_declared as_name room (room - 1) (level_at braces (room - 1))) parser.old parser.new result }
    ensures takes { Takes parser.old parser.new result }
{
    let pointers = bare_pointers(parser, room)?;
    declarator_behind(parser, Naming::Name, pointers, room, braces)
}

/// How the name in a declarator is told: as no type's; as any, in a typedef or a struct; or as any, but directly behind specifiers
/// with no type among them as no type's.
#[derive(Clone, Copy)]
pub enum Naming {
    Name,
    Any,
    Bare,
}

/// How it is told behind specifiers, with a type among them or none.
fn naming_of(typed: bool) -> Naming
    ensures { naming_view result ≡ naming_of typed }
{
    if typed { Naming::Any } else { Naming::Bare }
}

/// The declared name, behind what stands before it
fn declared_name(
    parser: &mut Parser<'_>,
    naming: Naming,
    pointers: &[Pointer],
    room: u32,
) -> Result<Name, Stop>
    ensures reads { Moves (λ a. a) (tok room (declared_name (naming_view naming) pointers.now)) parser.old parser.new result }
    ensures takes { Takes parser.old parser.new result }
{
    match (naming, pointers) {
        (Naming::Name, _) | (Naming::Bare, []) => parser.name(room),
        _ => parser.tag(room),
    }
}

/// `NAME dims` or `TNAME dims`, behind what stands before the name
#[cycle(expressions)]
#[tactic(auto, unfolding(c_grammar::specs::inner::Reading::declarator_behind))]
fn declarator_behind(
    parser: &mut Parser<'_>,
    naming: Naming,
    pointers: Vec<Pointer>,
    room: u32,
    braces: bool,
) -> Result<Declarator, Stop>
    requires { 0 < room }
    ensures reads { Moves declarator_view (declarator_behind (naming_view naming) room (room - 1) (level_at braces (room - 1)) pointers.items) parser.old parser.new result }
    ensures takes { Takes parser.old parser.new result }
{
    let name = declared_name(parser, naming, &pointers, room)?;
    let before = stars(&pointers);
    let dims = dims(parser, before, room, braces)?;
    Ok(Declarator {
        pointers,
        name,
        dims,
    })
}

/// `{ "[" expr "]" }`, behind so many stars
#[cycle(expressions)]
#[tactic(auto, using(crate::proofs::CodeLoops::chooses, crate::proofs::CodeLoops::choice_fails), unfolding(c_grammar::specs::inner::Reading::dims, c_grammar::specs::inner::Readers::turns))]
pub fn dims(
    parser: &mut Parser<'_>,
    before: usize,
    room: u32,
    braces: bool,
) -> Result<Vec<Expr>, Stop>
    requires { 0 < room }
    ensures reads { Moves (λ all. map expr_view all.items) (dims (room - 1) (level_at braces (room - 1)) before) parser.old parser.new result }
    ensures keeps { Keeps parser.old parser.new result }
{
    let mut all = Vec::new(parser.alloc);
    let mut count = before;
    'dims: while parser.is_next(Mark::OpenBracket)? {
        let dim = dim(parser, count, room, braces)?;
        count += 1;
        put_inner(&mut all, dim)?;
    }
    Ok(all)
}

/// `"[" expr "]"`, behind so many stars and dimensions
#[cycle(expressions)]
#[tactic(auto, unfolding(c_grammar::specs::inner::Reading::dim))]
fn dim(parser: &mut Parser<'_>, before: usize, room: u32, braces: bool) -> Result<Box<Expr>, Stop>
    requires { 0 < room }
    ensures reads { Moves boxed_expr_view (dim (room - 1) (level_at braces (room - 1)) before) parser.old parser.new result }
    ensures takes { Takes parser.old parser.new result }
    ensures few { IfOk result (λ _. before < 64) }
{
    parser.dimension(Mark::OpenBracket, before, room - 1)?;
    let size = full_expr(parser, room - 1, braces)?;
    parser.expected(Mark::CloseBracket, room - 1)?;
    Ok(size)
}
