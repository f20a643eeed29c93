use ak_words::{Num, Op};

/// Where a name stands in the text: from `from` to before `to`, offsets from 0.
#[derive(Clone, Copy, Debug, PartialEq, Eq)]
pub struct Name {
    pub from: u32,
    pub to: u32,
}

/// Where a string literal stands in the text, with its quotes: from `from` to before `to`.
#[derive(Clone, Copy, Debug, PartialEq, Eq)]
pub struct Span {
    pub from: u32,
    pub to: u32,
}

// ---- declarations (C11 6.7)

/// A word among the specifiers of a declaration (C11 6.7.1 to 6.7.3).
#[derive(Clone, Copy, Debug, PartialEq, Eq)]
pub enum TypeWord {
    /// `void`
    Void,
    /// `char`
    Char,
    /// `short`
    Short,
    /// `int`
    Int,
    /// `long`
    Long,
    /// `signed`
    Signed,
    /// `unsigned`
    Unsigned,
    /// `size_t`
    SizeT,
    /// `thrd_t`
    ThrdT,
    /// `mtx_t`
    MtxT,
    /// `const`
    Const,
    /// `register`
    Register,
    /// `auto`
    Auto,
    /// `_Atomic`
    Atomic,
}

/// What stands between the specifiers of a declaration and its name (C11 6.7.6.1).
#[derive(Clone, Copy, Debug, PartialEq, Eq)]
pub enum Pointer {
    /// `*`
    Star,
    /// `const`
    Const,
    /// `restrict`
    Restrict,
}

/// What may stand before the specifiers at file scope (C11 6.7.1, 6.7.4).
#[derive(Clone, Copy, Debug, PartialEq, Eq)]
pub enum Storage {
    /// `static`
    Static,
    /// `inline`
    Inline,
}

/// `spec`: a specifier, with the place of its first token.
#[derive(Drop)]
#[cycle(syntax)]
pub enum Spec {
    Word {
        place: u32,
        word: TypeWord,
    },
    /// `"struct" TNAME`
    Struct {
        place: u32,
        tag: Name,
    },
    /// `"struct" TNAME "{" member { member } "}"`
    StructBody {
        place: u32,
        tag: Name,
        members: Vec<Member>,
    },
    /// `"struct" "{" member { member } "}"`
    UnnamedStruct {
        place: u32,
        members: Vec<Member>,
    },
    /// `"enum" TNAME`
    Enum {
        place: u32,
        tag: Name,
    },
    /// `"enum" TNAME "{" list "}"`
    EnumBody {
        place: u32,
        tag: Name,
        list: Vec<Enumerator>,
    },
    /// `"enum" "{" list "}"`
    UnnamedEnum {
        place: u32,
        list: Vec<Enumerator>,
    },
    /// `TYPENAME`: a name that a typedef declared.
    Alias(Name),
}

/// An enumerator of a `list`, `NAME [ "=" expr ]`, and whether a comma stands behind it (C11 6.7.2.2).
#[derive(Drop)]
#[cycle(syntax)]
pub struct Enumerator {
    pub name: Name,
    pub value: Option<Expr>,
    pub comma: bool,
}

/// `specs ptr TNAME dims { "," ptr TNAME dims } ";"`: one declarator or more.
#[derive(Drop)]
#[cycle(syntax)]
pub struct Member {
    pub specs: Vec<Spec>,
    pub declarators: Vec<Declarator>,
}

/// `ptr NAME dims`, and of a member or in a typedef `ptr TNAME dims`: a size for each pair of brackets.
#[derive(Drop)]
#[cycle(syntax)]
pub struct Declarator {
    pub pointers: Vec<Pointer>,
    pub name: Name,
    pub dims: Vec<Expr>,
}

/// `specs ptr`: the name of a type (C11 6.7.7).
#[derive(Drop)]
#[cycle(syntax)]
pub struct TypeName {
    pub specs: Vec<Spec>,
    pub pointers: Vec<Pointer>,
}

/// `"[" [ expr ] "]"` behind a parameter, with the place of the bracket.
#[derive(Drop)]
pub struct ParamDim {
    pub place: u32,
    pub size: Option<Expr>,
}

/// `param`: `specs ptr [ NAME ] { "[" [ expr ] "]" }`.
#[derive(Drop)]
pub struct Param {
    pub specs: Vec<Spec>,
    pub pointers: Vec<Pointer>,
    pub name: Option<Name>,
    pub dims: Vec<ParamDim>,
}

/// `ptr NAME dims [ "=" expr ]`
#[derive(Drop)]
pub struct InitDeclarator {
    pub declarator: Declarator,
    pub value: Option<Expr>,
}

/// `decl`: `specs ptr NAME dims rest`, with one declarator or more.
#[derive(Drop)]
pub struct Declaration {
    pub specs: Vec<Spec>,
    pub declarators: Vec<InitDeclarator>,
}

// ---- expressions (C11 6.5)

/// A prefix operator (C11 6.5.3.2, 6.5.3.3).
#[derive(Clone, Copy, Debug, PartialEq, Eq)]
pub enum PrefixOp {
    /// `-`
    Minus,
    /// `+`
    Plus,
    /// `!`
    Not,
    /// `~`
    Complement,
    /// `*`
    Deref,
    /// `&`
    AddressOf,
}

/// A binary operator (C11 6.5.5 to 6.5.14).
#[derive(Clone, Copy, Debug, PartialEq, Eq)]
pub enum BinaryOp {
    /// One that computes a value of both operands.
    Value(Op),
    /// `&&`
    AndAnd,
    /// `||`
    OrOr,
}

/// An expression, with the place of its operator or first token; one in brackets has the place of what stands in them.
#[derive(Drop)]
#[cycle(syntax)]
pub enum Expr {
    Name(Name),
    /// `NAME "(" [ expr { "," expr } ] ")"`
    Call {
        callee: Name,
        args: Vec<Expr>,
    },
    Int {
        place: u32,
        value: Num,
    },
    Char {
        place: u32,
        value: Num,
    },
    /// `STRING { STRING }`: one literal (C11 6.4.5).
    Text(Vec<Span>),
    /// `"NULL"`
    Null {
        place: u32,
    },
    /// `"(" expr ")"`
    Group(Box<Expr>),
    Prefix {
        place: u32,
        op: PrefixOp,
        operand: Box<Expr>,
    },
    /// `"sizeof" "(" specs ptr ")"`
    SizeofType {
        place: u32,
        of: TypeName,
    },
    /// `"sizeof" unary`
    SizeofExpr {
        place: u32,
        operand: Box<Expr>,
    },
    /// `"(" specs ptr ")" cast`
    Cast {
        place: u32,
        to: TypeName,
        operand: Box<Expr>,
    },
    /// `postfix "[" expr "]"`
    Index {
        place: u32,
        base: Box<Expr>,
        index: Box<Expr>,
    },
    /// `postfix "." TNAME`
    Member {
        place: u32,
        base: Box<Expr>,
        member: Name,
    },
    /// `postfix "->" TNAME`
    Arrow {
        place: u32,
        base: Box<Expr>,
        member: Name,
    },
    Binary {
        place: u32,
        op: BinaryOp,
        left: Box<Expr>,
        right: Box<Expr>,
    },
    /// `or "?" expr ":" expr`
    Conditional {
        place: u32,
        condition: Box<Expr>,
        then: Box<Expr>,
        otherwise: Box<Expr>,
    },
}

// ---- statements (C11 6.8)

/// `"++" | "--"` (C11 6.5.2.4, 6.5.3.1).
#[derive(Clone, Copy, Debug, PartialEq, Eq)]
pub enum StepOp {
    /// `++`
    Increment,
    /// `--`
    Decrement,
}

/// `assign` (C11 6.5.16).
#[derive(Clone, Copy, Debug, PartialEq, Eq)]
pub enum AssignOp {
    /// `=`
    Plain,
    /// `+=`
    Add,
    /// `-=`
    Sub,
    /// `*=`
    Mul,
    /// `/=`
    Div,
    /// `%=`
    Rem,
    /// `&=`
    And,
    /// `|=`
    Or,
    /// `^=`
    Xor,
    /// `<<=`
    Shl,
    /// `>>=`
    Shr,
}

/// `simple`: a statement without its semicolon, with the place of its operator.
#[derive(Drop)]
pub enum Simple {
    /// `( "++" | "--" ) unary`
    Before {
        place: u32,
        op: StepOp,
        target: Expr,
    },
    /// `expr ( "++" | "--" )`
    After {
        place: u32,
        op: StepOp,
        target: Expr,
    },
    /// `expr assign expr`
    Assign {
        place: u32,
        op: AssignOp,
        target: Expr,
        value: Expr,
    },
    /// `expr`
    Eval(Expr),
}

/// What stands first between the brackets of a `for`.
#[derive(Drop)]
pub enum ForFirst {
    /// `decl`
    Declare(Declaration),
    /// `simple ";"`
    Simple(Simple),
    /// `";"`
    Nothing,
}

/// What stands between the brackets of a `for`: `( decl | [ simple ] ";" ) [ expr ] ";" [ simple ]`.
#[derive(Drop)]
pub struct ForHead {
    pub first: ForFirst,
    pub condition: Option<Expr>,
    pub step: Option<Simple>,
}

/// `stmt`, a `decl` of a body or a `label` of a switch, with the place of its first token. What is large in one stands in a box, so that
/// a row of small ones takes little memory.
#[derive(Drop)]
pub enum Stmt {
    /// `"{" { decl | stmt } "}"`
    Block {
        place: u32,
        items: Vec<Stmt>,
    },
    /// `decl`: only among the items of a body.
    Declare(Box<Declaration>),
    /// `";"`
    Empty {
        place: u32,
    },
    /// `"if" "(" expr ")" stmt [ "else" stmt ]`
    If {
        place: u32,
        condition: Box<Expr>,
        then: Box<Stmt>,
        otherwise: Option<Box<Stmt>>,
    },
    /// `"while" "(" expr ")" stmt`
    While {
        place: u32,
        condition: Box<Expr>,
        body: Box<Stmt>,
    },
    /// `"for" "(" ( decl | [ simple ] ";" ) [ expr ] ";" [ simple ] ")" stmt`
    For {
        place: u32,
        head: Box<ForHead>,
        body: Box<Stmt>,
    },
    /// `"do" stmt "while" "(" expr ")" ";"`
    DoWhile {
        place: u32,
        body: Box<Stmt>,
        condition: Box<Expr>,
    },
    /// `"switch" "(" expr ")" "{" { label | stmt } "}"`
    Switch {
        place: u32,
        condition: Box<Expr>,
        entries: Vec<Stmt>,
    },
    /// `"case" expr ":"`: only among the entries of a switch.
    Case {
        place: u32,
        value: Box<Expr>,
    },
    /// `"default" ":"`: only among the entries of a switch.
    Default {
        place: u32,
    },
    /// `"break" ";"`
    Break {
        place: u32,
    },
    /// `"continue" ";"`
    Continue {
        place: u32,
    },
    /// `"return" [ expr ] ";"`
    Return {
        place: u32,
        value: Option<Box<Expr>>,
    },
    /// `simple ";"`
    Simple(Box<Simple>),
}

// ---- files (C11 6.9)

/// `body`: what stands between braces, with the place of the opening one.
#[derive(Drop)]
pub struct Block {
    pub place: u32,
    pub items: Vec<Stmt>,
}

/// What stands behind the specifiers of an external declaration.
#[derive(Drop)]
pub enum Rest {
    /// `";"`
    Nothing,
    /// `ptr NAME "(" [ params ] ")" ( body | ";" )`
    Function {
        pointers: Vec<Pointer>,
        name: Name,
        params: Vec<Param>,
        body: Option<Block>,
    },
    /// `ptr NAME dims rest`: one declarator or more.
    Variables(Vec<InitDeclarator>),
}

/// `external`
#[derive(Drop)]
pub enum External {
    /// `"typedef" specs ptr TNAME dims { "," ptr TNAME dims } ";"`: one declarator or more.
    Typedef {
        specs: Vec<Spec>,
        declarators: Vec<Declarator>,
    },
    /// `{ "static" | "inline" } specs` and the rest.
    Other {
        storage: Vec<Storage>,
        specs: Vec<Spec>,
        rest: Rest,
    },
}

/// `file`: the external declarations in order.
#[derive(Drop)]
pub struct Program {
    pub externals: Vec<External>,
}
