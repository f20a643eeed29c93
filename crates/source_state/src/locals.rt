ghost use Rattle.std.specs.Prelude.{◌≡◌, map, set, slice_get, OnOk};
ghost use Rattle.c_meaning.specs.Turns.{variable_or_unset};
ghost use Rattle.source_state.specs.Variables.{variable_of};

use ak_words::NoMemory;
use block_store::Value;
use std::alloc::Global;
use std::marker::Model;

/// A local of a call: it has no value or block yet, it has a value, or it is a block.
#[derive(Clone, Copy, Debug, PartialEq, Eq)]
pub enum Variable {
    /// Neither a value nor a block.
    Unset,
    /// A value.
    Holds(Value),
    /// A block.
    Lies(u64),
}

// What a local was before a change.
#[derive(Clone, Copy)]
struct Old {
    number: usize,
    variable: Variable,
}

/// The locals of a call, and what leads them back to where they were kept last.
#[derive(Drop)]
pub struct Locals {
    variables: Vec<Variable>,
    // The changes since then, in order.
    log: Vec<Old>,
}

// Clauses see the locals as they are now, and as they were kept.
impl Model for Locals {
    ghost use Rattle.std.specs.Prelude.{map};
    ghost use Rattle.source_state.specs.Variables.{variable_of, KeptLocals};
    ghost use Rattle.source_state.specs.inner.LocalsBack.{back_by_all};

    ghost Value = { KeptLocals };

    ghost view = { λ l. record { now = map variable_of l.variables.items; kept = map variable_of (back_by_all l.log.items l.variables.items) } };
}

impl Locals {
    /// Locals that are kept as they are.
    pub fn new(alloc: Global, variables: Vec<Variable>) -> Locals
        ensures { result ≡ record { now = map variable_of variables.items; kept = map variable_of variables.items } }
    {
        Locals {
            variables,
            log: Vec::new(alloc),
        }
    }

    /// The locals as they are now.
    pub fn variables(&self) -> &[Variable]
        ensures { map variable_of result.now ≡ self.now.now }
    {
        &self.variables
    }

    /// The local of a number; one that the call doesn't have has no value.
    pub fn get(&self, number: u32) -> Variable
        ensures { variable_of result ≡ variable_or_unset (slice_get self.now.now number) }
    {
        match self.variables.get(number as usize) {
            Some(variable) => *variable,
            None => Variable::Unset,
        }
    }

    /// Changes a local, if the call has it.
    pub fn set(&mut self, number: u32, variable: Variable) -> Result<(), NoMemory>
        ensures now { OnOk result (self.new.now ≡ set self.old.now number (variable_of variable)) }
        ensures kept { OnOk result (self.new.kept ≡ self.old.kept) }
    {
        let at = number as usize;
        if at < self.variables.len() {
            self.log.push(Old {
                number: at,
                variable: self.variables[at],
            })?;
            self.variables[at] = variable;
        }
        Ok(())
    }

    /// What was changed so far stays.
    pub fn keep(&mut self)
        ensures { self.new ≡ record { now = self.old.now; kept = self.old.now } }
    {
        self.log.clear();
    }

    /// The locals are what they were when they were kept last.
    pub fn undo(&mut self)
        ensures { self.new ≡ record { now = self.old.kept; kept = self.old.kept } }
    {
        'back: while let Some(old) = self.log.pop() {
            take_back(&mut self.variables, old);
        }
    }
}

// Takes one change back.
fn take_back(variables: &mut Vec<Variable>, old: Old)
    ensures { variables.new.items ≡ set variables.old.items old.number old.variable }
{
    if old.number < variables.len() {
        variables[old.number] = old.variable;
    }
}
