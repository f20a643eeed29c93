//! Other numbers for the locals of a function's body.
ghost use Rattle.std.specs.Prelude.{◌≡◌, OnOk, IfOk, map};
ghost use Rattle.c_tree.specs.Typed.{stmts_of};
ghost use Rattle.c_tree.specs.TypedViews.{expr_view, optional_expr_view, stmt_view};
ghost use Rattle.c_typing.specs.Numbering.{renumbered, renumbered_if, renumbered_stmt, renumbered_stmts};
ghost use Rattle.type_locals.specs.inner.Numbers.{new_number};

use c_tree::typed::{Expr, ExprNode, Stmt, StmtNode};
use std::alloc::AllocError;

/// The numbers that the locals of a function get: those of the parameters, and how many more the
/// others.
#[derive(Drop)]
pub struct Numbers {
    pub params: Vec<u32>,
    pub further: u32,
}

impl Numbers {
    // The number that a local gets.
    fn of(&self, n: u32) -> Result<u32, AllocError>
        ensures { IfOk result (λ m. m ≡ new_number self.now n) }
    {
        match self.params.get(n as usize) {
            Some(m) => Ok(*m),
            None => n.checked_add(self.further).ok_or(AllocError),
        }
    }

    // Gives the locals of an expression their numbers.
    #[cycle(renumbering)]
    fn renumber(&self, e: &mut Expr) -> Result<(), AllocError>
        ensures { OnOk result (expr_view e.new ≡ renumbered (new_number self.now) (expr_view e.old)) }
    {
        match &mut e.node {
            ExprNode::Num(_) | ExprNode::Null | ExprNode::Literal(_) | ExprNode::Global(_) => {
                Ok(())
            }
            ExprNode::Local(n) => {
                *n = self.of(*n)?;
                Ok(())
            }
            ExprNode::Deref(e) => self.renumber(e),
            ExprNode::Member(e, _) => self.renumber(e),
            ExprNode::AddrOf(e) => self.renumber(e),
            ExprNode::Decay(e) => self.renumber(e),
            ExprNode::Convert(e) => self.renumber(e),
            ExprNode::Not(e) => self.renumber(e),
            ExprNode::Binary(_, a, b) => {
                self.renumber(a)?;
                self.renumber(b)
            }
            ExprNode::AndAlso(a, b) => {
                self.renumber(a)?;
                self.renumber(b)
            }
            ExprNode::OrElse(a, b) => {
                self.renumber(a)?;
                self.renumber(b)
            }
            ExprNode::Choose(e, a, b) => {
                self.renumber(e)?;
                self.renumber(a)?;
                self.renumber(b)
            }
            ExprNode::PtrAdd(p, n) => {
                self.renumber(p)?;
                self.renumber(n)
            }
            ExprNode::PtrSub(p, n) => {
                self.renumber(p)?;
                self.renumber(n)
            }
            ExprNode::PtrDiff(p, q) => {
                self.renumber(p)?;
                self.renumber(q)
            }
            ExprNode::PtrCompare(_, p, q) => {
                self.renumber(p)?;
                self.renumber(q)
            }
            ExprNode::PtrTest(p) => self.renumber(p),
            ExprNode::Call(_, args) => self.row(args),
            ExprNode::Lib(_, args) => self.row(args),
        }
    }

    // The same of expressions in a row.
    #[cycle(renumbering)]
    fn row(&self, all: &mut [Expr]) -> Result<(), AllocError>
        ensures { OnOk result (map expr_view all.new ≡ map (λ e. renumbered (new_number self.now) (expr_view e)) all.old) }
    {
        for i in 0..all.len() {
            self.renumber(&mut all[i])?;
        }
        Ok(())
    }

    // The same of one that may lack.
    fn optional(&self, e: &mut Option<Expr>) -> Result<(), AllocError>
        ensures { OnOk result (optional_expr_view e.new ≡ renumbered_if (new_number self.now) (optional_expr_view e.old)) }
    {
        match e {
            Some(e) => self.renumber(e),
            None => Ok(()),
        }
    }

    // Gives the locals of a statement their numbers.
    #[cycle(statements)]
    fn renumber_stmt(&self, s: &mut Stmt) -> Result<(), AllocError>
        ensures { OnOk result (stmt_view s.new ≡ renumbered_stmt (new_number self.now) (stmt_view s.old)) }
    {
        match &mut s.node {
            StmtNode::Break | StmtNode::Continue | StmtNode::Empty => Ok(()),
            StmtNode::Block(body) => self.body(body),
            StmtNode::Declare(n, init) => {
                *n = self.of(*n)?;
                self.optional(init)
            }
            StmtNode::If(e, then, other) => {
                self.renumber(e)?;
                self.renumber_stmt(then)?;
                match other {
                    Some(s) => self.renumber_stmt(s),
                    None => Ok(()),
                }
            }
            StmtNode::While(e, s) => {
                self.renumber(e)?;
                self.renumber_stmt(s)
            }
            StmtNode::For(first, e, step, s) => {
                self.renumber_stmt(first)?;
                self.optional(e)?;
                self.renumber_stmt(step)?;
                self.renumber_stmt(s)
            }
            StmtNode::DoWhile(s, e) => {
                self.renumber_stmt(s)?;
                self.renumber(e)
            }
            StmtNode::Switch(e, _, body) => {
                self.renumber(e)?;
                self.body(body)
            }
            StmtNode::Return(value) => self.optional(value),
            StmtNode::Assign(left, right) => {
                self.renumber(left)?;
                self.renumber(right)
            }
            StmtNode::Update(left, _, right) => {
                self.renumber(left)?;
                self.renumber(right)
            }
            StmtNode::Eval(e) => self.renumber(e),
        }
    }

    // The same of the statements of a block or of a switch.
    #[cycle(statements)]
    fn body(&self, body: &mut Vec<Stmt>) -> Result<(), AllocError>
        ensures { OnOk result (stmts_of (map stmt_view body.new.items) ≡ renumbered_stmts (new_number self.now) (stmts_of (map stmt_view body.old.items))) }
    {
        self.statements(body)
    }

    /// Gives the locals of statements in a row their numbers.
    #[cycle(statements)]
    pub fn statements(&self, all: &mut [Stmt]) -> Result<(), AllocError>
        ensures { OnOk result (map stmt_view all.new ≡ map (λ s. renumbered_stmt (new_number self.now) (stmt_view s)) all.old) }
    {
        for i in 0..all.len() {
            self.renumber_stmt(&mut all[i])?;
        }
        Ok(())
    }
}
