use ak_words::{Num, Op};
use c_tree::typed::{CType, GlobalVar, Label, Layout, Lib, Literal, Local};
use std::rc::Rc;

/// How an object becomes a pointer (C11 6.3.2.1, 6.5.3.2).
#[derive(Clone, Copy, PartialEq, Eq)]
pub enum AddressForm {
    /// The address of an lvalue.
    Of,
    /// The pointer to the first element of an array.
    Decay,
}

/// An operation on one value (C11 6.5.3, 6.5.4).
#[derive(Clone, Copy, PartialEq, Eq)]
pub enum OneForm {
    /// A conversion to the expression's type.
    Convert,
    /// Whether a number is 0 or a pointer is null.
    Not,
    /// Whether a pointer is not null.
    Test,
}

/// An operation on two values (C11 6.5.5 to 6.5.12).
#[derive(Clone, Copy, PartialEq, Eq)]
pub enum TwoForm {
    /// An operation on two numbers.
    Numbers(Op),
    /// A pointer plus a number of elements.
    Forward,
    /// A pointer minus a number of elements.
    Backward,
    /// The elements between two pointers.
    Distance,
    /// A comparison of two pointers.
    Pointers(Op),
}

/// What a call calls.
pub enum Callee {
    /// The function of this number.
    Function(u32),
    /// A function of the library.
    Library(Lib),
}

// Written out: a drop that is derived is proved again in each crate that holds such a value.
impl Drop for Callee {
    fn drop(self) {
        match self {
            Self::Function(_) => {}
            Self::Library(_) => {}
        }
    }
}

/// An expression, with its place in the text and its type (C11 6.5).
#[cycle(exprs)]
pub struct SharedExpr {
    /// A byte offset from 0.
    pub place: u32,
    /// The type.
    pub ty: Rc<CType>,
    /// What the expression does.
    pub node: SharedNode,
}

impl Drop for SharedExpr {
    #[cycle(exprs_dropped)]
    fn drop(self) {
        let Self {
            place: _,
            ty: _,
            node: _,
        } = self;
    }
}

/// What an expression does.
#[cycle(exprs)]
#[derive(Drop)]
pub enum SharedNode {
    /// A number.
    Num(Num),
    /// The null pointer.
    Null,
    /// The string literal of this number.
    Literal(u32),
    /// The global of this number.
    Global(u32),
    /// The local of this number.
    Local(u32),
    /// What a pointer points to.
    Deref(Rc<SharedExpr>),
    /// The member of this number of a struct.
    Member(Rc<SharedExpr>, u32),
    /// The pointer to an object.
    Address(AddressForm, Rc<SharedExpr>),
    /// An operation on one value.
    One(OneForm, Rc<SharedExpr>),
    /// An operation on two values, the left one first.
    Two(TwoForm, Rc<SharedExpr>, Rc<SharedExpr>),
    /// `||`, whose left operand decides where it's true, or `&&`, whose left operand decides where it isn't.
    Either(bool, Rc<SharedExpr>, Rc<SharedExpr>),
    /// `?:`
    Choose(Rc<SharedExpr>, Rc<SharedExpr>, Rc<SharedExpr>),
    /// A call.
    Call(Rc<Callee>, Rc<SharedArgs>),
}

/// The arguments of a call.
#[cycle(exprs)]
pub enum SharedArgs {
    /// There are no more.
    NoMore,
    /// The next one, and the rest.
    More(Rc<SharedExpr>, Rc<SharedArgs>),
}

impl Drop for SharedArgs {
    #[cycle(exprs_dropped)]
    fn drop(self) {
        match self {
            Self::NoMore => {}
            Self::More(_, _) => {}
        }
    }
}

/// The labels of a `switch`.
#[derive(Drop)]
pub struct SharedLabels {
    /// In order.
    pub labels: Vec<Label>,
}

/// A statement or declaration, with its place in the text, a byte offset from 0 (C11 6.8).
#[cycle(stmts)]
pub enum SharedStmt {
    /// A block.
    Block(u32, Rc<SharedRow>),
    /// The declaration of a local, with its initialiser.
    Declare(u32, u32, Option<Rc<SharedExpr>>),
    /// An `if` without an `else`.
    If(u32, Rc<SharedExpr>, Rc<SharedStmt>),
    /// An `if` with an `else`.
    IfElse(u32, Rc<SharedExpr>, Rc<SharedStmt>, Rc<SharedStmt>),
    /// A `while`.
    While(u32, Rc<SharedExpr>, Rc<SharedStmt>),
    /// A `for`: its first clause, its condition, its step and its body.
    For(u32, Rc<SharedStmt>, Option<Rc<SharedExpr>>, Rc<SharedStmt>, Rc<SharedStmt>),
    /// A `do`: its body and its condition.
    DoWhile(u32, Rc<SharedStmt>, Rc<SharedExpr>),
    /// A `switch`: its expression, its labels and the statements between its braces.
    Switch(u32, Rc<SharedExpr>, Rc<SharedLabels>, Rc<SharedRow>),
    /// A `break`.
    Break(u32),
    /// A `continue`.
    Continue(u32),
    /// A `return`.
    Return(u32, Option<Rc<SharedExpr>>),
    /// A simple assignment: the left side and the right one.
    Assign(u32, Rc<SharedExpr>, Rc<SharedExpr>),
    /// A compound assignment, or `++` or `--`: the left side, the operator and the operand.
    Update(u32, Rc<SharedExpr>, Op, Rc<SharedExpr>),
    /// An expression whose value is dropped.
    Eval(u32, Rc<SharedExpr>),
    /// Nothing.
    Empty(u32),
}

impl Drop for SharedStmt {
    #[cycle(stmts_dropped)]
    fn drop(self) {
        match self {
            Self::Block(_, _) => {}
            Self::Declare(_, _, _) => {}
            Self::If(_, _, _) => {}
            Self::IfElse(_, _, _, _) => {}
            Self::While(_, _, _) => {}
            Self::For(_, _, _, _, _) => {}
            Self::DoWhile(_, _, _) => {}
            Self::Switch(_, _, _, _) => {}
            Self::Break(_) => {}
            Self::Continue(_) => {}
            Self::Return(_, _) => {}
            Self::Assign(_, _, _) => {}
            Self::Update(_, _, _, _) => {}
            Self::Eval(_, _) => {}
            Self::Empty(_) => {}
        }
    }
}

/// Statements in a row.
#[cycle(stmts)]
pub struct SharedRow {
    /// In order.
    pub stmts: Vec<Rc<SharedStmt>>,
}

impl Drop for SharedRow {
    #[cycle(stmts_dropped)]
    fn drop(self) {
        let Self { stmts: _ } = self;
    }
}

/// A function (C11 6.9.1). Its first locals are its parameters.
#[derive(Drop)]
pub struct SharedFunc {
    /// How many parameters it has.
    pub params: u32,
    /// Its locals, parameters first.
    pub locals: Vec<Local>,
    /// The type that it returns.
    pub result: CType,
    /// The statements of its body.
    pub body: Rc<SharedRow>,
}

/// A program: one file of C (C11 6.9).
#[derive(Drop)]
pub struct SharedProgram {
    /// The structs.
    pub structs: Vec<Layout>,
    /// The globals, in order of declaration.
    pub globals: Vec<GlobalVar>,
    /// The string literals, in the order of the text.
    pub literals: Vec<Literal>,
    /// The functions, in order of definition.
    pub funcs: Vec<SharedFunc>,
    /// The number of main.
    pub main: u32,
}
