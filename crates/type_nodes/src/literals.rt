//! The bytes of string literals (C11 6.4.5), and of the formats that they are.
ghost use Rattle.std.specs.Prelude.{◌≡◌, ◌+◌, ◌-◌, ◌++◌, OnOk, IfErr};
ghost use Rattle.std.specs.List.{slice_range};
ghost use Rattle.c_lex.specs.declared.refusal.CompileFault.TheVariants.{NoMemory};
ghost use Rattle.c_typing.specs.Faults.{Gives, typed};
ghost use Rattle.c_typing.specs.Formats as formats;
ghost use Rattle.c_typing.specs.Literals.{between_quotes, joined_bytes};
ghost use Rattle.c_typing.specs.Judgement.{format_by};
ghost use Rattle.type_rules.specs.ListViews.{pieces_view};

use crate::formats::pieces_of;
use c_lex::{CompileFault, string_bytes};
use c_tree::syntax::Span;
use c_tree::typed::Piece;
use std::alloc::Global;

// What stands between the quotes of a literal.
fn quoted<'t>(text: &'t [u8], span: Span) -> &'t [u8]
    ensures { result.now ≡ slice_range text.now (span.from + 1) (span.to - 1) }
{
    let from = (span.from as usize).saturating_add(1).min(text.len());
    let to = (span.to as usize).saturating_sub(1).min(text.len());
    if from <= to { &text[from..to] } else { &[] }
}

// The bytes of a part of a literal, behind others.
fn push_part(
    alloc: Global,
    text: &[u8],
    span: Span,
    bytes: &mut Vec<u8>,
) -> Result<(), CompileFault>
    ensures after { OnOk result (bytes.new.items ≡ bytes.old.items ++ between_quotes text.now span) }
    ensures memory { IfErr result (λ e. e ≡ NoMemory) }
{
    match string_bytes(alloc, quoted(text, span)) {
        Ok(Some(mut part)) => Ok(bytes.append(&mut part)?),
        Ok(None) => Ok(()),
        Err(_) => Err(CompileFault::NoMemory),
    }
}

/// String literals side by side are one, with a zero byte at its end (C11 5.1.1.2 p1, 6.4.5 p6).
pub fn joined(alloc: Global, text: &[u8], parts: &[Span]) -> Result<Vec<u8>, CompileFault>
    ensures { Gives (λ v. v.items) result (typed (joined_bytes text.now parts.now)) }
{
    let mut bytes = Vec::new(alloc);
    'parts: for span in parts {
        push_part(alloc, text, *span, &mut bytes)?;
    }
    bytes.push(0)?;
    Ok(bytes)
}

/// The pieces of a format, which is a string literal and makes no block (C11 7.21.6.1).
pub fn format_of(
    alloc: Global,
    place: u32,
    text: &[u8],
    parts: &[Span],
) -> Result<Vec<Piece>, CompileFault>
    ensures { Gives pieces_view result (format_by place (formats.pieces_of (joined_bytes text.now parts.now))) }
{
    let bytes = joined(alloc, text, parts)?;
    pieces_of(alloc, place, &bytes)
}
