//! A run of a program, turn by turn.

ghost use Rattle.std.specs.Prelude.{◌≡◌, ◌↔◌, ℕ, [], true, false, Some, None, IfOk, OnOk, IsSome, length, map};
ghost use Rattle.std.specs.Option.{is_some};
ghost use Rattle.std.specs.Result.{is_err};
ghost use Rattle.block_store.specs.Runs.{first_state, picked};
ghost use Rattle.block_store.specs.declared.values.Answer.{Answer};
ghost use Rattle.c_tree.specs.TypedViews.{typed_view};
ghost use Rattle.c_meaning.specs.Meaning as meaning;
ghost use Rattle.c_meaning.specs.Meaning.{program, start};
ghost use Rattle.c_meaning.specs.Touching.{touched_by};
ghost use Rattle.source_tree.specs.SharedViews.{program_of};
ghost use Rattle.source_state.specs.Worlds.{reached_of};
ghost use Rattle.block_meaning.specs.Asking.{wish, AreAskedOf};
ghost use Rattle.block_meaning.specs.Counts.{HasFewDeclarations, MakesFew, ReachesFew};
ghost use Rattle.block_meaning.specs.Running.{running_of, HasEnded, answered_if, left_by, ended_with, IsAsBefore};
ghost use Rattle.block_meaning.specs.inner.Touches.{done_by};

use crate::begin::begun;
use crate::first::first_store;
use crate::taking::{ended_in, is_running, take, touched_in};
use crate::thread::Own;
use ak_words::{NoMemory, Rule};
use block_store::{Answer, Ptr};
use c_tree::typed::Typed;
use race_rules::Touch;
use source_state::{KeptStore, Reached, Stage, ThreadRecord, World};
use source_tree::share;
use source_tree::tree::SharedProgram;
use std::alloc::Global;

/// What comes of a turn.
#[derive(Clone, Copy, Debug, PartialEq, Eq)]
pub enum Turned {
    /// The turn is done.
    Went,
    /// The thread's next action waits, and nothing changed.
    Blocked,
    /// The thread's next action doesn't take this answer, and nothing changed.
    Unfit,
    /// The turn breaks this rule at this place, a byte offset from 0, and nothing changed.
    Broke(Rule, u32),
    /// Main ended, with this value.
    Ended(i32),
}

/// A run of a program.
#[derive(Drop)]
pub struct SourceRun {
    alloc: Global,
    program: SharedProgram,
    world: World,
    // What each thread that was made has of its own: none once it has ended.
    threads: Vec<Option<Own>>,
    // The bytes that the last turn asked for, if it was told Plain and is an allocation.
    asked: Option<u64>,
    // The thread that took the last turn, if that was done.
    last: Option<u32>,
    // Whether memory was wanting.
    out_of_memory: bool,
}

impl SourceRun {
    /// A run that is about to begin: the globals and literals are there, and thread 0 is in main.
    pub fn new(alloc: Global, typed: Typed) -> Result<SourceRun, NoMemory>
        ensures program { IfOk result (λ run. (running_of run).typed ≡ typed_view typed) }
        ensures state { IfOk result (λ run. (running_of run).state ≡ first_state (program (typed_view typed)) (start (typed_view typed))) }
        ensures asked { IfOk result (λ run. (running_of run).asked ≡ None) }
        ensures memory { IfOk result (λ run. (running_of run).out_of_memory ≡ false) }
        ensures few { IfOk result (λ run. (n : ℕ) → HasFewDeclarations n (typed_view typed) → ReachesFew n (running_of run).typed (running_of run).state) }
        ensures touched { IfOk result (λ run. (running_of run).touched ≡ []) }
    {
        let program = share(alloc, typed)?;
        let run = begin(alloc, program)?;
        Ok(run)
    }

    /// Another run of the same program, which is about to begin.
    pub fn again(self) -> Result<SourceRun, NoMemory>
        ensures program { IfOk result (λ run. (running_of run).typed ≡ (running_of self).typed) }
        ensures state { IfOk result (λ run. (running_of run).state ≡ first_state (program (running_of self).typed) (start (running_of self).typed)) }
        ensures asked { IfOk result (λ run. (running_of run).asked ≡ None) }
        ensures memory { IfOk result (λ run. (running_of run).out_of_memory ≡ false) }
        ensures few { IfOk result (λ run. (n : ℕ) → HasFewDeclarations n (running_of self).typed → ReachesFew n (running_of run).typed (running_of run).state) }
        ensures touched { IfOk result (λ run. (running_of run).touched ≡ []) }
    {
        let SourceRun {
            alloc,
            program,
            world: _,
            threads: _,
            asked: _,
            last: _,
            out_of_memory: _,
        } = self;
        let run = begin(alloc, program)?;
        Ok(run)
    }

    /// What was printed.
    pub fn output(&self) -> &[u8]
        ensures { result.now ≡ (running_of self.now).state.world.output }
    {
        &self.world.output
    }

    /// What was printed, where the run isn't used any more.
    pub fn into_output(self) -> Vec<u8>
        ensures { result.items ≡ (running_of self).state.world.output }
    {
        let SourceRun {
            world,
            alloc: _,
            program: _,
            threads: _,
            asked: _,
            last: _,
            out_of_memory: _,
        } = self;
        let World {
            output,
            store: _,
            threads: _,
            reached: _,
        } = world;
        output
    }

    /// What the last action reached that was done, in order; nothing before the first.
    pub fn reached(&self) -> &[Reached]
        ensures { map reached_of result.now ≡ (running_of self.now).state.world.reached }
    {
        &self.world.reached
    }

    /// How many blocks were made: globals, literals, locals in memory and allocations.
    pub fn made(&self) -> u64
        ensures { result ≡ length (running_of self.now).state.world.blocks }
    {
        self.world.store.store().names()
    }

    /// Whether the block of this number was made and has ended.
    pub fn has_ended(&self, block: u64) -> bool
        ensures { (result ≡ true) ↔ HasEnded (running_of self.now).state.world.blocks block }
    {
        let store = self.world.store.store();
        block < store.names() && store.live_size(block).is_none()
    }

    /// How many threads were made.
    pub fn threads(&self) -> u64
        ensures { result ≡ length (running_of self.now).state.own }
    {
        self.threads.len() as u64
    }

    /// The bytes that the last turn asked for, where it's an allocation that was told Plain, which it doesn't take: at most
    /// 2^64 - 1, which stands for each greater number, too. Nothing of another turn, and before the first.
    pub fn asked(&self) -> Option<u64>
        ensures { result ≡ (running_of self.now).asked }
    {
        self.asked
    }

    /// What the last turn touched, in order, where it was done: it answered Went or Ended. Nothing behind any other answer, and before the
    /// first turn.
    pub fn touched(&self) -> &[Touch]
        ensures { result.now ≡ (running_of self.now).touched }
    {
        match self.last {
            None => &[],
            Some(thread) => touched_in(&self.threads, thread),
        }
    }

    /// What the first function of a thread has returned, as an `int`; nothing of a thread that wasn't made or runs.
    pub fn ended(&self, thread: u32) -> Option<i32>
        ensures { result ≡ ended_with (running_of self.now).state.world thread }
    {
        ended_in(&self.world, thread)
    }

    /// Whether a thread may take a turn: it was made and hasn't ended, and main hasn't ended.
    #[tactic(auto, using(crate::proofs::Picks::is_some_picked))]
    pub fn runs(&self, thread: u32) -> bool
        ensures { (answer : Answer) → result ≡ is_some (picked (program (running_of self.now).typed) (running_of self.now).state (record { thread = thread; answer = answer })) }
    {
        is_running(&self.threads, 0) && is_running(&self.threads, thread)
    }

    /// One turn of a thread that runs, under an answer. Where no function has more than n declarations, it makes at most
    /// n blocks, and one. A turn that waits, that doesn't take its answer or that breaks a rule leaves all as it was: each
    /// call answers as before it, but `asked` and `touched`, which tell of this turn. Where it breaks no rule before its action, an allocation and a new thread don't take
    /// Plain, everything else takes nothing else, and an allocation of 2^32 bytes or more doesn't take Got. What free
    /// wouldn't take breaks C10 in a realloc, too, before its answer counts.
    ///
    /// # Errors
    ///
    /// Once memory is wanting, this and each later call answers so.
    pub fn turn(&mut self, thread: u32, answer: Answer) -> Result<Turned, NoMemory>
        requires { IsSome (picked (program (running_of self.old).typed) (running_of self.old).state (record { thread = thread; answer = answer })) }
        ensures answer { IfOk result (λ t. answered_if thread (picked (program (running_of self.old).typed) (running_of self.old).state (record { thread = thread; answer = answer })) ≡ Some t) }
        ensures state { OnOk result ((running_of self.new).state ≡ left_by (running_of self.old).typed (running_of self.old).state thread (picked (program (running_of self.old).typed) (running_of self.old).state (record { thread = thread; answer = answer }))) }
        ensures stays { IfOk result (λ t. IsAsBefore t (running_of self.old).state (running_of self.new).state) }
        ensures asked { IfOk result (λ t. AreAskedOf answer (wish (program (running_of self.old).typed) (running_of self.old).state thread) (running_of self.new).asked) }
        ensures made { OnOk result ((n : ℕ) → ReachesFew n (running_of self.old).typed (running_of self.old).state → MakesFew n (running_of self.old).typed (running_of self.old).state (running_of self.new).state) }
        ensures touched { OnOk result ((running_of self.new).touched ≡ touched_by (picked (program (running_of self.old).typed) (running_of self.old).state (record { thread = thread; answer = answer }))) }
        ensures program { (running_of self.new).typed ≡ (running_of self.old).typed }
        ensures wanting { (running_of self.old).out_of_memory ≡ true → is_err result ≡ true }
        ensures memory { (running_of self.new).out_of_memory ≡ is_err result }
    {
        if self.out_of_memory {
            return Err(NoMemory);
        }
        match take(
            &mut self.threads,
            &mut self.world,
            &mut self.asked,
            self.alloc,
            &self.program,
            thread,
            answer,
        ) {
            Ok(turned) => {
                self.last = done_by(turned, thread);
                Ok(turned)
            }
            Err(NoMemory) => {
                self.out_of_memory = true;
                Err(NoMemory)
            }
        }
    }
}

// The thread of a turn, if the turn was done.
fn done_by(turned: Turned, thread: u32) -> Option<u32>
    ensures { result ≡ done_by turned thread }
{
    match turned {
        Turned::Went => Some(thread),
        Turned::Ended(_) => Some(thread),
        Turned::Blocked => None,
        Turned::Unfit => None,
        Turned::Broke(_, _) => None,
    }
}

// A run that is about to begin: the globals and literals are there, and thread 0 is in main.
fn begin(alloc: Global, program: SharedProgram) -> Result<SourceRun, NoMemory>
    ensures program { IfOk result (λ run. (running_of run).typed ≡ program_of program) }
    ensures state { IfOk result (λ run. (running_of run).state ≡ first_state (meaning.program (program_of program)) (start (program_of program))) }
    ensures asked { IfOk result (λ run. (running_of run).asked ≡ None) }
    ensures memory { IfOk result (λ run. (running_of run).out_of_memory ≡ false) }
    ensures few { IfOk result (λ run. (n : ℕ) → HasFewDeclarations n (program_of program) → ReachesFew n (running_of run).typed (running_of run).state) }
    ensures touched { IfOk result (λ run. (running_of run).touched ≡ []) }
{
    let store = first_store(alloc, &program)?;
    let own = begun(alloc, &program, program.main, Ptr::Null)?;
    let mut threads = Vec::new(alloc);
    threads.push(Some(own))?;
    let mut made = Vec::new(alloc);
    made.push(ThreadRecord {
        function: program.main,
        argument: Ptr::Null,
        stage: Stage::Running,
    })?;
    Ok(SourceRun {
        alloc,
        program,
        world: World {
            store: KeptStore::new(alloc, store),
            output: Vec::new(alloc),
            threads: made,
            reached: Vec::new(alloc),
        },
        threads,
        asked: None,
        last: None,
        out_of_memory: false,
    })
}
