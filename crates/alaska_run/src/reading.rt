ghost use Rattle.std.specs.Prelude.{◌≤◌, length, IfOk};
ghost use Rattle.c_lex.specs.Refusals.{IfRefused};
ghost use Rattle.c_tree.specs.TypedForm.{IsWellFormed};
ghost use Rattle.c_tree.specs.TypedViews.{typed_view};
ghost use Rattle.alaska_run.specs.Reading.{IsRead, Refuses};

use c_lex::{CompileFault, Token, lex};
use c_parse::parse;
use c_tree::typed::Typed;
use c_types::files::check;
use std::alloc::Global;

/// What a text is read to.
#[derive(Drop)]
pub struct Reading {
    /// Its tokens, of which the last one is the end.
    pub tokens: Vec<Token>,
    /// Its typed tree.
    pub typed: Typed,
}

/// The tokens and the typed tree of a text of the subset.
///
/// # Errors
///
/// The text's refusal: that of its bytes, where they have no tokens; or else that of its tokens, where they are no file
/// of the subset; or else that of the names and types in the file. And want of memory.
pub fn read(alloc: Global, text: &[u8]) -> Result<Reading, CompileFault>
    requires { length text.now ≤ 1048576 }
    ensures found { IfOk result (λ r. IsRead text.now r.tokens.items (typed_view r.typed)) }
    ensures well_formed { IfOk result (λ r. IsWellFormed (typed_view r.typed)) }
    ensures refused { IfRefused result (λ r. Refuses text.now r) }
{
    c_lex::laws::ordered();
    c_grammar::laws::tokens_end_once();
    type_laws::laws::well_formed();
    let tokens = lex(alloc, text)?;
    let file = parse(alloc, text, &tokens)?;
    let typed = check(alloc, text, &file)?;
    Ok(Reading { tokens, typed })
}
