//! Trees of statements and declarations.

ghost use Rattle.std.specs.Prelude.{◌≡◌, map};
ghost use Rattle.std.specs.Option.{option_map};
ghost use Rattle.c_tree.specs.Syntax as trees;
ghost use Rattle.c_tree.specs.SyntaxViews.{boxed_expr_view, expr_view, declarator_view, declaration_view, simple_view, for_first_view, stmt_view, boxed_stmt_view};
ghost use Rattle.c_grammar.specs.inner.Reading.{if_by};
ghost use Rattle.parse_tokens.specs.inner.Moves.{Makes};
ghost use Rattle.c_parse.specs.inner.Boxes.{boxed_simple_view, boxed_first_view, boxed_initialised_view, boxed_param_dim_view};

use c_tree::syntax as tree;
use c_tree::syntax::{
    AssignOp, Declaration, Declarator, Expr, ForFirst, InitDeclarator, ParamDim, Simple, StepOp,
    Stmt,
};
use parse_expressions::boxes::boxed;
use parse_tokens::parser::Stop;
use std::alloc::Global;

/// The expression in the box, if there is one.
pub fn unboxed(expr: Option<Box<Expr>>) -> Option<Expr>
    ensures { option_map expr_view result ≡ option_map boxed_expr_view expr }
{
    match expr {
        Some(expr) => Some(Box::into_inner(expr)),
        None => None,
    }
}

/// The simple statement in the box, if there is one.
fn unboxed_simple(simple: Option<Box<Simple>>) -> Option<Simple>
    ensures { option_map simple_view result ≡ option_map boxed_simple_view simple }
{
    match simple {
        Some(simple) => Some(Box::into_inner(simple)),
        None => None,
    }
}

/// `ptr NAME dims [ "=" expr ]`
pub fn initialised(
    alloc: Global,
    declarator: Declarator,
    value: Option<Box<Expr>>,
) -> Result<Box<InitDeclarator>, Stop>
    ensures { Makes boxed_initialised_view (record { declarator = declarator_view declarator; value = option_map boxed_expr_view value }) result }
{
    let value = unboxed(value);
    boxed(alloc, InitDeclarator { declarator, value })
}

/// `"[" [ expr ] "]"` behind a parameter
pub fn param_dim(alloc: Global, place: u32, size: Option<Box<Expr>>) -> Result<Box<ParamDim>, Stop>
    ensures { Makes boxed_param_dim_view (record { place = place; size = option_map boxed_expr_view size }) result }
{
    let size = unboxed(size);
    boxed(alloc, ParamDim { place, size })
}

/// A statement in a box.
pub fn boxed_stmt(alloc: Global, stmt: Stmt) -> Result<Box<Stmt>, Stop>
    ensures { Makes boxed_stmt_view (stmt_view stmt) result }
{
    boxed(alloc, stmt)
}

/// A simple statement in a box.
fn boxed_simple(alloc: Global, simple: Simple) -> Result<Box<Simple>, Stop>
    ensures { Makes boxed_simple_view (simple_view simple) result }
{
    boxed(alloc, simple)
}

/// `( "++" | "--" ) unary`
pub fn before(alloc: Global, place: u32, op: StepOp, target: Box<Expr>) -> Result<Box<Simple>, Stop>
    ensures { Makes boxed_simple_view (trees.before place op (boxed_expr_view target)) result }
{
    let target = Box::into_inner(target);
    boxed_simple(alloc, Simple::Before { place, op, target })
}

/// `expr ( "++" | "--" )`
pub fn after(alloc: Global, place: u32, op: StepOp, target: Box<Expr>) -> Result<Box<Simple>, Stop>
    ensures { Makes boxed_simple_view (trees.after place op (boxed_expr_view target)) result }
{
    let target = Box::into_inner(target);
    boxed_simple(alloc, Simple::After { place, op, target })
}

/// `expr assign expr`
pub fn assign(
    alloc: Global,
    place: u32,
    op: AssignOp,
    target: Box<Expr>,
    value: Box<Expr>,
) -> Result<Box<Simple>, Stop>
    ensures { Makes boxed_simple_view (trees.assign place op (boxed_expr_view target) (boxed_expr_view value)) result }
{
    let simple = Simple::Assign {
        place,
        op,
        target: Box::into_inner(target),
        value: Box::into_inner(value),
    };
    boxed_simple(alloc, simple)
}

/// `expr`
pub fn eval(alloc: Global, expr: Box<Expr>) -> Result<Box<Simple>, Stop>
    ensures { Makes boxed_simple_view (trees.eval (boxed_expr_view expr)) result }
{
    boxed_simple(alloc, Simple::Eval(Box::into_inner(expr)))
}

/// What stands first between the brackets of a `for`, in a box.
fn boxed_first(alloc: Global, first: ForFirst) -> Result<Box<ForFirst>, Stop>
    ensures { Makes boxed_first_view (for_first_view first) result }
{
    boxed(alloc, first)
}

/// `decl`, first between the brackets of a `for`
pub fn first_declare(alloc: Global, declaration: Declaration) -> Result<Box<ForFirst>, Stop>
    ensures { Makes boxed_first_view (trees.first_declare (declaration_view declaration)) result }
{
    boxed_first(alloc, ForFirst::Declare(declaration))
}

/// `simple ";"`, first between the brackets of a `for`
pub fn first_simple(alloc: Global, simple: Box<Simple>) -> Result<Box<ForFirst>, Stop>
    ensures { Makes boxed_first_view (trees.first_simple (boxed_simple_view simple)) result }
{
    boxed_first(alloc, ForFirst::Simple(Box::into_inner(simple)))
}

/// `";"`, first between the brackets of a `for`
pub fn first_nothing(alloc: Global) -> Result<Box<ForFirst>, Stop>
    ensures { Makes boxed_first_view trees.first_nothing result }
{
    boxed_first(alloc, ForFirst::Nothing)
}

/// `decl`, as a statement
pub fn declare_of(alloc: Global, declaration: Declaration) -> Result<Box<Stmt>, Stop>
    ensures { Makes boxed_stmt_view (trees.declare (declaration_view declaration)) result }
{
    let declaration = boxed(alloc, declaration)?;
    boxed_stmt(alloc, Stmt::Declare(declaration))
}

/// `simple ";"`
pub fn simple_of(alloc: Global, simple: Box<Simple>) -> Result<Box<Stmt>, Stop>
    ensures { Makes boxed_stmt_view (trees.simple (boxed_simple_view simple)) result }
{
    boxed_stmt(alloc, Stmt::Simple(simple))
}

/// `"return" [ expr ] ";"`
pub fn return_of(alloc: Global, place: u32, value: Option<Box<Expr>>) -> Result<Box<Stmt>, Stop>
    ensures { Makes boxed_stmt_view (trees.return place (option_map boxed_expr_view value)) result }
{
    boxed_stmt(alloc, Stmt::Return { place, value })
}

/// `"if" "(" expr ")" stmt [ "else" stmt ]`
pub fn if_of(
    alloc: Global,
    place: u32,
    condition: Box<Expr>,
    then: Box<Stmt>,
    otherwise: Option<Box<Stmt>>,
) -> Result<Box<Stmt>, Stop>
    ensures { Makes boxed_stmt_view (if_by place (boxed_expr_view condition) (boxed_stmt_view then) (option_map boxed_stmt_view otherwise)) result }
{
    let stmt = Stmt::If {
        place,
        condition,
        then,
        otherwise,
    };
    boxed_stmt(alloc, stmt)
}

/// `"while" "(" expr ")" stmt`
pub fn while_of(
    alloc: Global,
    place: u32,
    condition: Box<Expr>,
    body: Box<Stmt>,
) -> Result<Box<Stmt>, Stop>
    ensures { Makes boxed_stmt_view (trees.while place (boxed_expr_view condition) (boxed_stmt_view body)) result }
{
    let stmt = Stmt::While {
        place,
        condition,
        body,
    };
    boxed_stmt(alloc, stmt)
}

/// `"do" stmt "while" "(" expr ")" ";"`
pub fn do_of(
    alloc: Global,
    place: u32,
    body: Box<Stmt>,
    condition: Box<Expr>,
) -> Result<Box<Stmt>, Stop>
    ensures { Makes boxed_stmt_view (trees.do_while place (boxed_stmt_view body) (boxed_expr_view condition)) result }
{
    let stmt = Stmt::DoWhile {
        place,
        body,
        condition,
    };
    boxed_stmt(alloc, stmt)
}

/// `"switch" "(" expr ")" "{" { label | stmt } "}"`
pub fn switch_of(
    alloc: Global,
    place: u32,
    condition: Box<Expr>,
    entries: Vec<Stmt>,
) -> Result<Box<Stmt>, Stop>
    ensures { Makes boxed_stmt_view (trees.switch place (boxed_expr_view condition) (trees.stmts_of (map stmt_view entries.items))) result }
{
    let stmt = Stmt::Switch {
        place,
        condition,
        entries,
    };
    boxed_stmt(alloc, stmt)
}

/// `"case" expr ":"`
pub fn case_of(alloc: Global, place: u32, value: Box<Expr>) -> Result<Box<Stmt>, Stop>
    ensures { Makes boxed_stmt_view (trees.case_label place (boxed_expr_view value)) result }
{
    boxed_stmt(alloc, Stmt::Case { place, value })
}

/// What stands between the brackets of a `for`.
#[derive(Drop)]
pub struct ForHead {
    pub first: Box<ForFirst>,
    pub condition: Option<Box<Expr>>,
    pub step: Option<Box<Simple>>,
}

/// `"for" "(" ( decl | [ simple ] ";" ) [ expr ] ";" [ simple ] ")" stmt`
pub fn for_of(alloc: Global, place: u32, head: ForHead, body: Box<Stmt>) -> Result<Box<Stmt>, Stop>
    ensures { Makes boxed_stmt_view (trees.for place (boxed_first_view head.first) (option_map boxed_expr_view head.condition) (option_map boxed_simple_view head.step) (boxed_stmt_view body)) result }
{
    let ForHead {
        first,
        condition,
        step,
    } = head;
    let head = tree::ForHead {
        first: Box::into_inner(first),
        condition: unboxed(condition),
        step: unboxed_simple(step),
    };
    let head = boxed(alloc, head)?;
    boxed_stmt(alloc, Stmt::For { place, head, body })
}
