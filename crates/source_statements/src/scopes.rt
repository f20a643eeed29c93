//! The locals of a scope end.

ghost use Rattle.std.specs.Prelude.{◌≡◌, [], OnOk};
ghost use Rattle.c_meaning.specs.Turns.{ended_locals, declared, declared_by};
ghost use Rattle.source_tree.specs.SharedViews.{row_of, stmt_of};
ghost use Rattle.source_assignments.specs.Locals.{Comes};

use ak_words::NoMemory;
use source_assignments::locals::end_local;
use source_state::{KeptStore, Locals};
use source_tree::tree::{SharedRow, SharedStmt};

/// The locals that a row declares end.
pub fn end_row(row: &SharedRow, locals: &mut Locals, store: &mut KeptStore) -> Result<(), NoMemory>
    ensures now { OnOk result (Comes (ended_locals (declared (row_of row.now))) locals.old.now store.old.now locals.new.now store.new.now) }
    ensures locals { OnOk result (locals.new.kept ≡ locals.old.kept) }
    ensures store { OnOk result (store.new.kept ≡ store.old.kept) }
{
    'ends: for s in &row.stmts {
        if let SharedStmt::Declare(_, number, _) = &**s {
            end_local(locals, store, *number)?;
        }
    }
    Ok(())
}

/// The local that a statement declares ends, if it declares one.
pub fn end_first(s: &SharedStmt, locals: &mut Locals, store: &mut KeptStore) -> Result<(), NoMemory>
    ensures now { OnOk result (Comes (ended_locals (declared_by (stmt_of s.now) [])) locals.old.now store.old.now locals.new.now store.new.now) }
    ensures locals { OnOk result (locals.new.kept ≡ locals.old.kept) }
    ensures store { OnOk result (store.new.kept ≡ store.old.kept) }
{
    match s {
        SharedStmt::Declare(_, number, _) => end_local(locals, store, *number),
        SharedStmt::Block(_, _) => Ok(()),
        SharedStmt::If(_, _, _) => Ok(()),
        SharedStmt::IfElse(_, _, _, _) => Ok(()),
        SharedStmt::While(_, _, _) => Ok(()),
        SharedStmt::For(_, _, _, _, _) => Ok(()),
        SharedStmt::DoWhile(_, _, _) => Ok(()),
        SharedStmt::Switch(_, _, _, _) => Ok(()),
        SharedStmt::Break(_) => Ok(()),
        SharedStmt::Continue(_) => Ok(()),
        SharedStmt::Return(_, _) => Ok(()),
        SharedStmt::Assign(_, _, _) => Ok(()),
        SharedStmt::Update(_, _, _, _) => Ok(()),
        SharedStmt::Eval(_, _) => Ok(()),
        SharedStmt::Empty(_) => Ok(()),
    }
}
