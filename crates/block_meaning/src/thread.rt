use crate::touch_list::Touches;
use ak_words::Rule;
use block_store::Value;
use source_state::Locals;
use source_state::control::{LoopParts, Todo, Use, Wait};
use std::rc::Rc;

/// Where a turn begins.
#[derive(Drop)]
pub enum At {
    /// With a value and its use.
    Gives(Value, Rc<Use>),
    /// Where a call ended without the value that is used.
    Lacks(u32),
    /// With what is left to do.
    Begins(Rc<Todo>),
    /// With a round of a loop.
    Round(Rc<LoopParts>, Rc<Todo>),
}

/// A call that waits for the one that it made.
#[derive(Drop)]
pub struct Caller {
    /// Its function.
    pub function: u32,
    /// Its locals.
    pub locals: Locals,
    /// What waits for the value.
    pub wait: Wait,
}

/// What a thread has of its own: the call under way, where it is, the calls that wait, the farthest first, and what its last turn touched.
#[derive(Drop)]
pub struct Own {
    /// The function of the call.
    pub function: u32,
    /// Its locals.
    pub locals: Locals,
    /// Where it is.
    pub at: At,
    /// The calls that wait.
    pub callers: Vec<Caller>,
    /// What its last turn touched, in order.
    pub touched: Touches,
}

/// What comes of a turn of a thread.
#[derive(Clone, Copy, Debug, PartialEq, Eq)]
pub enum Outcome {
    /// It goes on.
    Went,
    /// Its first function has returned.
    Ended,
    /// Its action waits.
    Blocked,
    /// Its action doesn't take the answer.
    Unfit,
    /// A broken rule, at a place.
    Broke(Rule, u32),
}
