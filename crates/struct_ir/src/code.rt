ghost use Rattle.std.specs.Prelude.{◌≤◌};

use ak_words::{IntType, Op};
use block_store::{Access, Change};
use c_tree::typed::{Init, Piece};
use smallvec::SmallVec;

/// Where an access goes: from the pointer in `base` on, by the number in `index` times `scale` and
/// by `offset`, in bytes.
#[derive(Clone, Copy, Debug, Default, PartialEq, Eq)]
pub struct Place {
    /// The register that holds the pointer.
    pub base: u32,
    /// The register that holds a number of elements.
    pub index: Option<u32>,
    /// The bytes of an element.
    pub scale: u32,
    /// The bytes behind that.
    pub offset: u64,
    /// The pin slot that has the address of `base`; none before translation.
    pub slot: Option<u32>,
}

/// What a register is set to.
#[derive(Clone, Copy, Debug)]
pub enum Calc {
    /// The number of a type that has these bits in two's complement, as many as the type has.
    Num(IntType, u64),
    /// Nothing: the register is unset, as a local is whose declaration is reached again (C11 6.2.4 p6).
    Unset,
    /// The null pointer.
    Null,
    /// The address of the global of this number.
    Global(u32),
    /// The address of the string literal of this number.
    Literal(u32),
    /// The address of the stack object of this number.
    Object(u32),
    /// What another register holds.
    Copy(u32),
    /// The number in a register, converted to a type.
    Convert(IntType, u32),
    /// An operation on the numbers in two registers, of which the first has this type.
    Apply(Op, IntType, u32, u32),
    /// A pointer plus a number of elements of so many bytes.
    PtrAdd(u32, u32, u32),
    /// A pointer minus a number of elements of so many bytes.
    PtrSub(u32, u32, u32),
    /// How many elements of so many bytes lie between two pointers.
    PtrDiff(u32, u32, u32),
    /// A comparison of two pointers.
    PtrCompare(Op, u32, u32),
    /// Whether a pointer is not null.
    PtrTest(u32),
}

/// What reads or changes what threads share.
#[derive(Drop)]
pub enum Action {
    /// Reads a number or a pointer.
    Load(Access),
    /// Writes a number or a pointer.
    Store(Access),
    /// Copies bytes between two places of this alignment; `same` allows a copy onto itself.
    Copy {
        /// The alignment of both places, in bytes.
        align: u32,
        /// Whether the two may be exactly the same bytes.
        same: bool,
    },
    /// Makes a block of the heap.
    Malloc,
    /// Makes a block of the heap for a number of elements of so many bytes, whose bytes are 0.
    Calloc,
    /// Makes a block of the heap in place of another, with that one's first bytes.
    Realloc,
    /// Ends a block of the heap.
    Free,
    /// Changes a number of this type, and gives the old one.
    Change(Change, IntType),
    /// Compares two numbers of this type: where they are equal, the first becomes another, and else the second becomes
    /// the first.
    Compare(IntType),
    /// Writes the pieces of a format.
    Print(Vec<Piece>),
    /// Takes a mutex.
    Lock,
    /// Gives a mutex back.
    Unlock,
    /// Ends a mutex's use.
    Destroy,
    /// Makes a thread that begins with the function of this number.
    Start(u32),
    /// Waits for a thread's end.
    Join,
}

/// The places of an action: most that have any have one, and each Step has room for it.
pub type Places = SmallVec<Place, 1>;

/// The registers that an action reads, or the slots of its list: most have few.
pub type Numbers = SmallVec<u32, 4>;

/// One action, with what it reads and sets.
#[derive(Drop)]
pub struct StepNode {
    /// What is done.
    pub action: Action,
    /// The places that it accesses.
    pub places: Places,
    /// The register that takes its result.
    pub to: Option<u32>,
    /// The registers that it reads.
    pub temps: Numbers,
    /// The pin slots of its list, where it may wait.
    pub slots: Numbers,
}

/// A call of a function.
#[derive(Drop)]
pub struct CallNode {
    /// The register that takes the value of the call.
    pub to: Option<u32>,
    /// The number of the function.
    pub function: u32,
    /// The registers that are the arguments.
    pub temps: Vec<u32>,
    /// The pin slots of the safepoint before it, which hold while the callee runs.
    pub slots: Vec<u32>,
}

/// A node, with its place in the text.
#[cycle(code)]
#[derive(Drop)]
pub struct Node {
    /// A byte offset from 0.
    pub place: u32,
    /// What the node does.
    pub kind: NodeKind,
}

/// What a node does.
#[cycle(code)]
#[derive(Drop)]
pub enum NodeKind {
    /// Sets a register.
    Set(u32, Calc),
    /// Goes on with the first nodes where a register is not 0 and not null, and else with the others.
    If(u32, Vec<Node>, Vec<Node>),
    /// Does the body and then the step, round after round.
    Loop(Vec<Node>, Vec<Node>),
    /// Leaves the loop around.
    Break,
    /// Goes to the step of the loop around.
    Next,
    /// Calls a function.
    Call(Box<CallNode>),
    /// Returns, with the value of a register.
    Ret(Option<u32>),
    /// Does an action.
    Step(Box<StepNode>),
    /// Puts into a pin slot the word of a register and that word's address.
    Look(u32, u32),
    /// A point at which objects may move, but for those that these slots name.
    Safepoint(Vec<u32>),
    /// Begins a stack object: a new block.
    Begin(u32),
    /// Ends a stack object.
    End(u32),
}

/// An object on the stack, in bytes.
#[derive(Clone, Copy, Debug, PartialEq, Eq)]
pub struct StackObject {
    /// Its size.
    pub size: u32,
    /// Its alignment.
    pub align: u8,
}

/// A global object, in bytes.
#[derive(Clone, Copy, Debug)]
pub struct IrGlobal {
    /// Its size.
    pub size: u32,
    /// Its alignment.
    pub align: u8,
    /// What it holds at the start.
    pub init: Init,
}

/// A function.
#[derive(Drop)]
pub struct IrFunc {
    /// How many parameters it has; these are its first registers.
    pub params: u32,
    /// How many registers it has.
    pub temps: u32,
    /// How many pin slots it has.
    pub slots: u32,
    /// Its stack objects.
    pub objects: Vec<StackObject>,
    /// Its nodes.
    pub nodes: Vec<Node>,
    pub ghost params_are_registers: { params ≤ temps },
}
