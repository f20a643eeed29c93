use ak_words::{IntType, Num, Op};

/// A type (C11 6.2.5).
#[derive(Debug, Drop)]
pub enum CType {
    /// `void`.
    Void,
    /// An integer type.
    Int(IntType),
    /// An atomic integer type: a number that is read and written whole.
    Atomic(IntType),
    /// `mtx_t`.
    Mutex,
    /// A pointer to a type.
    Pointer(Box<CType>),
    /// An array of so many elements of a type.
    Array(Box<CType>, u32),
    /// The struct of this number.
    Struct(u32),
}

/// A typed program: one file of C (C11 6.9).
#[derive(Drop)]
pub struct Typed {
    /// The structs, in the order in which their tags are first named; one that is never declared has no member.
    pub structs: Vec<Layout>,
    /// The globals, in order of declaration.
    pub globals: Vec<GlobalVar>,
    /// The string literals that make a block, in the order of the text.
    pub literals: Vec<Literal>,
    /// The functions, in order of definition.
    pub funcs: Vec<Func>,
    /// The number of main.
    pub main: u32,
}

/// A struct in memory (C11 6.7.2.1): sizes, offsets and alignments are in bytes.
#[derive(Debug, Drop)]
pub struct Layout {
    /// The offset of each member.
    pub offsets: Vec<u32>,
    /// The type of each member.
    pub types: Vec<CType>,
    /// The struct's size.
    pub size: u32,
    /// The struct's alignment.
    pub align: u32,
}

/// What a global holds at the start (C11 6.7.9).
#[derive(Clone, Copy, Debug)]
pub enum Init {
    /// Zero bytes.
    Zero,
    /// A number, converted to the global's type.
    Num(Num),
    /// A pointer to the string literal of this number.
    Literal(u32),
}

/// An object of file scope.
#[derive(Debug, Drop)]
pub struct GlobalVar {
    /// Its type.
    pub ty: CType,
    /// What it holds at the start.
    pub init: Init,
}

/// The bytes of a string literal, with the zero byte at its end (C11 6.4.5).
#[derive(Debug, Drop)]
pub struct Literal {
    /// The bytes.
    pub bytes: Vec<u8>,
}

/// A local variable or parameter of a function.
#[derive(Debug, Drop)]
pub struct Local {
    /// Its type.
    pub ty: CType,
    /// Whether it is a block: an array, a struct, a mutex, an atomic number, or an object whose address is taken.
    pub in_memory: bool,
}

/// A function (C11 6.9.1). Its first locals are its parameters.
#[derive(Drop)]
pub struct Func {
    /// How many parameters it has.
    pub params: u32,
    /// Its locals, parameters first.
    pub locals: Vec<Local>,
    /// The type that it returns.
    pub result: CType,
    /// The statements of its body.
    pub body: Vec<Stmt>,
}

/// A label of a `switch` (C11 6.8.1).
#[derive(Clone, Copy, Debug)]
pub struct Label {
    /// Its value, of the type of the switch's expression; without one it is the `default`.
    pub value: Option<Num>,
    /// The index of the statement at which it stands, or their number where none stands behind it.
    pub at: u32,
}

/// A statement or declaration, with its place in the text (C11 6.8).
#[cycle(stmt)]
#[derive(Drop)]
pub struct Stmt {
    /// A byte offset from 0.
    pub place: u32,
    /// What the statement does.
    pub node: StmtNode,
}

/// What a statement does.
#[cycle(stmt)]
#[derive(Drop)]
pub enum StmtNode {
    /// A block.
    Block(Vec<Stmt>),
    /// The declaration of a local, with its initialiser.
    Declare(u32, Option<Expr>),
    /// An `if`, with its `else`.
    If(Expr, Box<Stmt>, Option<Box<Stmt>>),
    /// A `while`.
    While(Expr, Box<Stmt>),
    /// A `for`: its first clause, its condition, its step and its body.
    For(Box<Stmt>, Option<Expr>, Box<Stmt>, Box<Stmt>),
    /// A `do`, with its body and its condition.
    DoWhile(Box<Stmt>, Expr),
    /// A `switch`, with its labels in order and the statements between its braces.
    Switch(Expr, Vec<Label>, Vec<Stmt>),
    /// A `break`.
    Break,
    /// A `continue`.
    Continue,
    /// A `return`.
    Return(Option<Expr>),
    /// A simple assignment: the place on the left and the value on the right.
    Assign(Box<Expr>, Box<Expr>),
    /// A compound assignment, or `++` or `--`: the place, the operator and the operand.
    Update(Box<Expr>, Op, Box<Expr>),
    /// An expression whose value is dropped.
    Eval(Expr),
    /// Nothing.
    Empty,
}

/// An expression, with its place in the text and its type (C11 6.5).
#[cycle(expr)]
#[derive(Drop)]
pub struct Expr {
    /// A byte offset from 0: that of the operator, the name or the first token.
    pub place: u32,
    /// The type.
    pub ty: CType,
    /// What the expression does.
    pub node: ExprNode,
}

/// What an expression does.
#[cycle(expr)]
#[derive(Drop)]
pub enum ExprNode {
    /// A number.
    Num(Num),
    /// The null pointer.
    Null,
    /// The string literal of this number, an lvalue.
    Literal(u32),
    /// The global of this number, an lvalue.
    Global(u32),
    /// The local of this number, an lvalue.
    Local(u32),
    /// What a pointer points to, an lvalue.
    Deref(Box<Expr>),
    /// The member of this number of a struct.
    Member(Box<Expr>, u32),
    /// The address of an lvalue.
    AddrOf(Box<Expr>),
    /// The pointer to the first element of an array.
    Decay(Box<Expr>),
    /// A conversion to the expression's type, or to `void`.
    Convert(Box<Expr>),
    /// Whether a number is 0 or a pointer is null.
    Not(Box<Expr>),
    /// An operation on two numbers.
    Binary(Op, Box<Expr>, Box<Expr>),
    /// `&&`
    AndAlso(Box<Expr>, Box<Expr>),
    /// `||`
    OrElse(Box<Expr>, Box<Expr>),
    /// `?:`
    Choose(Box<Expr>, Box<Expr>, Box<Expr>),
    /// A pointer plus a number of elements, or a number plus a pointer: the operands stand in the order of the text.
    PtrAdd(Box<Expr>, Box<Expr>),
    /// A pointer minus a number of elements, which is taken as a whole number.
    PtrSub(Box<Expr>, Box<Expr>),
    /// The elements between two pointers.
    PtrDiff(Box<Expr>, Box<Expr>),
    /// A comparison of two pointers.
    PtrCompare(Op, Box<Expr>, Box<Expr>),
    /// Whether a pointer is not null.
    PtrTest(Box<Expr>),
    /// A call of the function of this number.
    Call(u32, Vec<Expr>),
    /// A call of a library function.
    Lib(Lib, Vec<Expr>),
}

/// A library function (C11 7.17, 7.21, 7.22, 7.24, 7.26).
#[derive(Debug, Drop)]
pub enum Lib {
    /// `printf`, with the pieces of its format.
    Print(Vec<Piece>),
    /// `malloc`
    Malloc,
    /// `calloc`
    Calloc,
    /// `realloc`
    Realloc,
    /// `free`
    Free,
    /// `memcpy`
    Copy,
    /// `thrd_create` of the function of this number.
    Start(u32),
    /// `thrd_join`
    Join,
    /// `mtx_init`, of a plain mutex: the kind is no argument here.
    MutexInit,
    /// `mtx_lock`
    MutexLock,
    /// `mtx_unlock`
    MutexUnlock,
    /// `mtx_destroy`
    MutexDestroy,
    /// `atomic_fetch_add`
    AtomicAdd,
    /// `atomic_fetch_sub`
    AtomicSub,
    /// `atomic_exchange`
    AtomicSwap,
    /// `atomic_compare_exchange_strong`, and the weak one, which never fails by itself.
    AtomicCompare,
    /// `atomic_store` and `atomic_init`.
    AtomicStore,
}

/// A piece of a format (C11 7.21.6.1).
#[derive(Debug, Drop)]
pub enum Piece {
    /// Bytes that are written as they stand.
    Bytes(Vec<u8>),
    /// A number in decimal, as a signed number of 32 or 64 bits.
    Signed(u8),
    /// A number in decimal, as an unsigned number of 32 or 64 bits.
    Unsigned(u8),
    /// A number in hexadecimal, as an unsigned number of 32 or 64 bits.
    Hex(u8),
    /// The low byte of a number.
    Char,
    /// The bytes that a pointer leads to, before the first zero byte.
    Text,
}
