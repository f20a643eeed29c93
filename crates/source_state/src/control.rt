//! What is left to do, linked by shared parts.

ghost use Rattle.std.specs.Prelude.{◌≡◌, false};

use crate::SharedAction;
use crate::operations::{Binary, Unary};
use ak_words::{Op, Rule};
use block_store::{Access, Value};
use c_tree::typed::CType;
use source_tree::tree::{Callee, SharedArgs, SharedExpr, SharedLabels, SharedRow, SharedStmt};
use std::rc::Rc;

/// A loop, at its place: its condition, its step and its body (C11 6.8.5).
pub struct LoopParts {
    /// The place of its statement.
    pub place: u32,
    /// The condition, if it has one.
    pub condition: Option<Rc<SharedExpr>>,
    /// The step, if it has one.
    pub step: Option<Rc<SharedStmt>>,
    /// The body.
    pub body: Rc<SharedStmt>,
}

// Written out: a drop that is derived is proved again in each crate that holds such a value.
impl Drop for LoopParts {
    fn drop(self) {
        let Self {
            place: _,
            condition: _,
            step: _,
            body: _,
        } = self;
    }
}

/// A compound assignment.
pub struct Updating {
    /// The place of its left side.
    pub place: u32,
    /// The place of its operator.
    pub operator: u32,
    /// The operator.
    pub op: Op,
    /// The type of its left side.
    pub ty: Rc<CType>,
}

impl Drop for Updating {
    fn drop(self) {
        let Self {
            place: _,
            operator: _,
            op: _,
            ty: _,
        } = self;
    }
}

/// Values in order, linked from the last one.
pub enum Values {
    /// There are none.
    None,
    /// The last one, and those before it.
    More(Value, Rc<Values>),
}

impl Drop for Values {
    fn drop(self) {
        match self {
            Self::None => {}
            Self::More(_, _) => {}
        }
    }
}

/// What is left to do in a call once a statement is done.
pub enum Todo {
    /// The body's end.
    Leaves,
    /// The statements of a row from a place on.
    ThenRow(Rc<SharedRow>, usize, Rc<Todo>),
    /// The locals that a row declares end.
    ThenEnd(Rc<SharedRow>, Rc<Todo>),
    /// The local that a statement declares ends, if it declares one.
    ThenEndFirst(Rc<SharedStmt>, Rc<Todo>),
    /// The first clause of a `for` is done.
    ThenLoop(Rc<LoopParts>, Rc<Todo>),
    /// A loop's body.
    InBody(Rc<LoopParts>, Rc<Todo>),
    /// A loop's step.
    InStep(Rc<LoopParts>, Rc<Todo>),
    /// The statements of a `switch`.
    InSwitch(Rc<Todo>),
}

impl Drop for Todo {
    fn drop(self) {
        match self {
            Self::Leaves => {}
            Self::ThenRow(_, _, _) => {}
            Self::ThenEnd(_, _) => {}
            Self::ThenEndFirst(_, _) => {}
            Self::ThenLoop(_, _) => {}
            Self::InBody(_, _) => {}
            Self::InStep(_, _) => {}
            Self::InSwitch(_) => {}
        }
    }
}

/// Where what an action reaches is named: the expression's place, and whether the object there is atomic.
#[derive(Clone, Copy, Debug, PartialEq, Eq)]
pub struct Site {
    /// The place.
    pub place: u32,
    /// Whether the object is a number that is read and written whole.
    pub atomic: bool,
}

impl Site {
    /// An object that isn't atomic, named at this place.
    pub fn plain(place: u32) -> Self
        ensures { result ≡ record { place = place; atomic = false } }
    {
        Site {
            place,
            atomic: false,
        }
    }
}

/// What a value is used for.
pub enum Use {
    /// The left operand of an operation.
    FirstOf(u32, Binary, Rc<SharedExpr>, Rc<Use>),
    /// The right one.
    SecondOf(u32, Binary, Value, Rc<Use>),
    /// The only one.
    OnlyOf(u32, Rc<Unary>, Rc<Use>),
    /// The place that is read.
    PlaceRead(Site, Access, Rc<Use>),
    /// The left operand of `&&` or `||`.
    FirstTest(u32, bool, Rc<SharedExpr>, Rc<Use>),
    /// The right one.
    SecondTest(u32, Rc<Use>),
    /// The condition of `?:`.
    Choice(u32, Rc<SharedExpr>, Rc<SharedExpr>, Rc<Use>),
    /// An argument of a call whose value is used, at a place.
    Argument(u32, Rc<Callee>, Rc<Values>, Rc<SharedArgs>, u32, Rc<Use>),
    /// An argument of a call whose value is dropped.
    DroppedArgument(u32, Rc<Callee>, Rc<Values>, Rc<SharedArgs>, Rc<Todo>),
    /// The value of a local.
    ToLocal(u32, Rc<Todo>),
    /// The place of an assignment's left side.
    LeftPlace(Site, Rc<SharedExpr>, Rc<Todo>),
    /// The value that is stored at a place.
    ToPlace(Site, Value, Rc<Todo>),
    /// The place of the left side of an assigned struct.
    StructLeft(u32, Rc<CType>, Rc<SharedExpr>, Rc<Todo>),
    /// The place of the right one.
    StructRight(u32, Rc<CType>, Value, Rc<Todo>),
    /// The place of a in `a op= b`.
    UpdateLeft(Rc<Updating>, Rc<SharedExpr>, Rc<Todo>),
    /// The value of b, where a is a local without a block.
    UpdateLocal(Rc<Updating>, u32, Rc<Todo>),
    /// The value of b, where a is in memory.
    UpdateRight(Rc<Updating>, Value, Rc<Todo>),
    /// The value of a.
    UpdateRead(Rc<Updating>, Value, Value, Rc<Todo>),
    /// The condition of an `if`, at its place, whose statement is at another.
    IfTest(u32, u32, Rc<SharedStmt>, Option<Rc<SharedStmt>>, Rc<Todo>),
    /// The condition of a loop.
    LoopTest(u32, Rc<LoopParts>, Rc<Todo>),
    /// What chooses a label of a `switch`, with its labels and its statements.
    SwitchTest(Rc<SharedLabels>, Rc<SharedRow>, Rc<Todo>),
    /// A returned value.
    ToCaller,
    /// A value that nothing uses.
    ToNowhere(Rc<Todo>),
}

impl Drop for Use {
    fn drop(self) {
        match self {
            Self::FirstOf(_, _, _, _) => {}
            Self::SecondOf(_, _, _, _) => {}
            Self::OnlyOf(_, _, _) => {}
            Self::PlaceRead(_, _, _) => {}
            Self::FirstTest(_, _, _, _) => {}
            Self::SecondTest(_, _) => {}
            Self::Choice(_, _, _, _) => {}
            Self::Argument(_, _, _, _, _, _) => {}
            Self::DroppedArgument(_, _, _, _, _) => {}
            Self::ToLocal(_, _) => {}
            Self::LeftPlace(_, _, _) => {}
            Self::ToPlace(_, _, _) => {}
            Self::StructLeft(_, _, _, _) => {}
            Self::StructRight(_, _, _, _) => {}
            Self::UpdateLeft(_, _, _) => {}
            Self::UpdateLocal(_, _, _) => {}
            Self::UpdateRight(_, _, _) => {}
            Self::UpdateRead(_, _, _, _) => {}
            Self::IfTest(_, _, _, _, _) => {}
            Self::LoopTest(_, _, _) => {}
            Self::SwitchTest(_, _, _) => {}
            Self::ToCaller => {}
            Self::ToNowhere(_) => {}
        }
    }
}

/// What waits for a call's value.
#[derive(Drop)]
pub enum Wait {
    /// A use of it, at the call's place.
    Wanted(u32, Rc<Use>),
    /// Nothing: this is left to do.
    Dropped(Rc<Todo>),
}

/// How a thread goes on behind an action.
#[derive(Drop)]
pub enum Then {
    /// Its value is used, at a place.
    Gives(u32, Rc<Use>),
    /// This is left to do.
    Begins(Rc<Todo>),
    /// It was a call of the library with these arguments.
    Returns(Rc<Callee>, Rc<Values>, Wait),
}

/// What ends a turn.
#[derive(Drop)]
pub enum Pending {
    /// A broken rule, at a place.
    Broke(Rule, u32),
    /// An action, and where what it reaches is named.
    Act(Site, SharedAction, Then),
    /// The end of a loop's round.
    Round(Rc<LoopParts>, Rc<Todo>),
    /// A call of a function of the program.
    Enter(u32, Rc<Values>, Wait),
    /// The end of a call, with a value or without.
    Leave(Option<Value>),
    /// What no well formed program does.
    Unfit,
}

/// How far an expression gets.
#[derive(Drop)]
pub enum Progress {
    /// To its value.
    Gives(Value),
    /// To what ends the turn.
    Ends(Pending),
}
