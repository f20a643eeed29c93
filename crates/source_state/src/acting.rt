//! The actions by their table.

ghost use Rattle.std.specs.Prelude.{◌≡◌, IfOk, OnErr, slice_get};
ghost use Rattle.std.specs.Option.{option_map};
ghost use Rattle.ak_words.specs.IntType.{int};
ghost use Rattle.ak_words.specs.Num.{num};
ghost use Rattle.block_store.specs.declared.values.Value.TheVariants as values;
ghost use Rattle.block_store.specs.declared.values.Answer.TheVariants as answers;
ghost use Rattle.block_store.specs.Actions.{acted, allocate, reallocate, renews, renew_reaches, start, starts, telling, writing, next_number, staged, joined_by, stored_unless_null};
ghost use Rattle.block_store.specs.Actions as actions;
ghost use Rattle.block_store.specs.Blocks.{answer_of, store_after, stored, renewed, kept_cells};
ghost use Rattle.source_state.specs.Worlds.{world_of, done_of, action_of, stage_of, Untouched};

use crate::plain::number_of_type;
use crate::world::{Done, SharedAction, Stage, ThreadRecord, World};
use ak_words::{IntType, NoMemory, Num, Rule};
use block_store::{Answer, BlockKind, Cell, Ptr, StoreFault, Value};
use std::alloc::Global;

impl World {
    /// One action of a thread under an answer: it is done, or waits, doesn't take the answer or breaks a rule, and then
    /// changes nothing.
    pub fn act(
        &mut self,
        alloc: Global,
        thread: u32,
        answer: Answer,
        action: SharedAction,
    ) -> Result<Done, NoMemory>
        ensures done { IfOk result (λ done. done_of done (world_of self.new) ≡ acted (world_of self.old) thread answer (action_of action)) }
        ensures untouched { IfOk result (λ done. Untouched done self.old self.new) }
    {
        match (action, answer) {
            (SharedAction::Allocate(size, first), answer) => self.allocate(
                thread, size, first, answer,
            ),
            (SharedAction::Reallocate(at, size), answer) => self.reallocate(
                thread, at, size, answer,
            ),
            (SharedAction::Start(to, function, argument), answer) => {
                self.start(thread, to, function, argument, answer)
            }
            (action, Answer::Plain) => self.act_plainly(alloc, thread, action),
            (_, _) => Ok(Done::Unfit),
        }
    }

    // An action of which nothing is chosen.
    fn act_plainly(
        &mut self,
        alloc: Global,
        thread: u32,
        action: SharedAction,
    ) -> Result<Done, NoMemory>
        ensures done { IfOk result (λ done. done_of done (world_of self.new) ≡ acted (world_of self.old) thread answers.Plain (action_of action)) }
        ensures untouched { IfOk result (λ done. Untouched done self.old self.new) }
    {
        match action {
            SharedAction::Load(at, how) => self.load(at, how),
            SharedAction::Store(at, v) => self.store_value(at, v),
            SharedAction::Copy(to, from, n, align, same) => self.copy(to, from, n, align, same),
            SharedAction::Allocate(_, _) => Ok(Done::Unfit),
            SharedAction::Reallocate(at, size) => self.reallocate(thread, at, size, Answer::Plain),
            SharedAction::Free(at) => Ok(self.free(at)),
            SharedAction::Change(at, how, by) => self.change(at, how, by),
            SharedAction::Compare(at, want, new) => self.compare(at, want, new),
            SharedAction::Print(parts) => self.print(alloc, &parts),
            SharedAction::Lock(at) => self.lock(at, thread),
            SharedAction::Unlock(at) => self.unlock(at, thread),
            SharedAction::Destroy(at) => self.destroy(at),
            SharedAction::Start(_, _, _) => Ok(Done::Unfit),
            SharedAction::Join(number, to) => self.join(thread, number, to),
            SharedAction::Finish(value) => Ok(self.finish(thread, value)),
        }
    }

    // An allocation.
    fn allocate(
        &mut self,
        thread: u32,
        size: u128,
        first: Cell,
        answer: Answer,
    ) -> Result<Done, NoMemory>
        ensures done { IfOk result (λ done. done_of done (world_of self.new) ≡ acted (world_of self.old) thread answer (allocate size first)) }
        ensures untouched { IfOk result (λ done. Untouched done self.old self.new) }
    {
        match answer {
            Answer::Plain => Ok(Done::Unfit),
            Answer::None => Ok(self.went(Some(Value::Pointer(Ptr::Null)))),
            Answer::Got => {
                let Ok(size) = u32::try_from(size) else {
                    return Ok(Done::Unfit);
                };
                let block = self.store.make(size, BlockKind::Heap, first)?;
                Ok(self.went(Some(Value::Pointer(Ptr::To { block, offset: 0 }))))
            }
        }
    }

    // A block in place of another, or of null; what free wouldn't take breaks a rule, whatever the answer is.
    #[tactic(auto, using(crate::proofs::Renewals::realloc_broken, crate::proofs::Renewals::realloc_plain, crate::proofs::Renewals::realloc_none, crate::proofs::Renewals::realloc_large))]
    fn reallocate(
        &mut self,
        thread: u32,
        at: Ptr,
        size: u128,
        answer: Answer,
    ) -> Result<Done, NoMemory>
        ensures done { IfOk result (λ done. done_of done (world_of self.new) ≡ acted (world_of self.old) thread answer (reallocate at size)) }
        ensures untouched { IfOk result (λ done. Untouched done self.old self.new) }
    {
        if let Err(rule) = self.store.store().may_end(at) {
            return Ok(Done::Broke(rule));
        }
        match answer {
            Answer::Plain => Ok(Done::Unfit),
            Answer::None => Ok(self.went(Some(Value::Pointer(Ptr::Null)))),
            Answer::Got => {
                let Ok(size) = u32::try_from(size) else {
                    return Ok(Done::Unfit);
                };
                self.renew(at, size)
            }
        }
    }

    // A block that is made in place of another, or of null: the cells that both have are read, and written.
    #[tactic(auto, using(crate::proofs::Renewals::renewal_broke, crate::proofs::Renewals::renewal_went))]
    fn renew(&mut self, at: Ptr, size: u32) -> Result<Done, NoMemory>
        ensures done { IfOk result (λ done. done_of done (world_of self.new) ≡ telling (renew_reaches (world_of self.old) answers.Got at size) (renews (world_of self.old) size (renewed (world_of self.old).blocks at size)).got) }
        ensures untouched { IfOk result (λ done. Untouched done self.old self.new) }
    {
        let kept = self.kept_cells(at, size);
        match self.store.renew(at, size) {
            Err(StoreFault::NoMemory) => Err(NoMemory),
            Err(StoreFault::Broke(rule)) => Ok(Done::Broke(rule)),
            Ok(block) => {
                let new = Ptr::To { block, offset: 0 };
                self.went_both(Some(Value::Pointer(new)), at, new, u64::from(kept))
            }
        }
    }

    // How many cells a block that is made in place of another has of it.
    fn kept_cells(&self, at: Ptr, size: u32) -> u32
        ensures { result ≡ kept_cells (world_of self.now).blocks at size }
    {
        let Ptr::To { block, offset: _ } = at else {
            return 0;
        };
        let Some(old) = self.store.store().live_size(block) else {
            return 0;
        };
        old.min(size)
    }

    // A new thread.
    fn start(
        &mut self,
        thread: u32,
        to: Ptr,
        function: u32,
        argument: Ptr,
        answer: Answer,
    ) -> Result<Done, NoMemory>
        ensures done { IfOk result (λ done. done_of done (world_of self.new) ≡ acted (world_of self.old) thread answer (start to function argument)) }
        ensures untouched { IfOk result (λ done. Untouched done self.old self.new) }
    {
        match answer {
            Answer::Plain => Ok(Done::Unfit),
            Answer::None => Ok(self.went(Some(int_value(1)))),
            Answer::Got => self.start_got(to, function, argument),
        }
    }

    // A new thread that is made.
    fn start_got(&mut self, to: Ptr, function: u32, argument: Ptr) -> Result<Done, NoMemory>
        ensures done { IfOk result (λ done. done_of done (world_of self.new) ≡ telling (writing 8 to) (starts (world_of self.old) function argument (stored (world_of self.old).blocks to (next_number (world_of self.old))))) }
        ensures untouched { IfOk result (λ done. Untouched done self.old self.new) }
    {
        let number = self.next_number();
        match self.store.store_value(to, number) {
            Err(rule) => Ok(Done::Broke(rule)),
            Ok(()) => {
                self.threads.push(ThreadRecord {
                    function,
                    argument,
                    stage: Stage::Running,
                })?;
                self.went_writing(Some(int_value(0)), to, 8)
            }
        }
    }

    // The number of the next thread.
    fn next_number(&self) -> Value
        ensures { result ≡ next_number (world_of self.now) }
    {
        Value::Num(number_of_type(IntType::unsigned_long(), self.threads.len()))
    }

    // The end of another thread is awaited.
    fn join(&mut self, thread: u32, number: u128, to: Ptr) -> Result<Done, NoMemory>
        ensures done { IfOk result (λ done. done_of done (world_of self.new) ≡ telling (writing 4 to) (joined_by (world_of self.old) thread number to)) }
        ensures untouched { IfOk result (λ done. Untouched done self.old self.new) }
    {
        if u128::from(thread) == number {
            return Ok(Done::Broke(Rule::C14));
        }
        match self.stage(number) {
            None => Ok(Done::Broke(Rule::C14)),
            Some(Stage::Running) => Ok(Done::Blocked),
            Some(Stage::Joined(_)) => Ok(Done::Broke(Rule::C14)),
            Some(Stage::Returned(z)) => match self.store_result(to, z) {
                Err(rule) => Ok(Done::Broke(rule)),
                Ok(()) => {
                    self.set_stage(number, Stage::Joined(z));
                    self.went_writing(Some(int_value(0)), to, 4)
                }
            },
        }
    }

    // The result of a thread is stored, unless the place is null.
    fn store_result(&mut self, to: Ptr, z: i128) -> Result<(), Rule>
        ensures answer { result ≡ answer_of (stored_unless_null (world_of self.old).blocks to z) }
        ensures after { world_of self.new ≡ actions.with_blocks (world_of self.old) (store_after (stored_unless_null (world_of self.old).blocks to z) (world_of self.old).blocks) }
        ensures unchanged { OnErr result (self.new ≡ self.old) }
    {
        match to {
            Ptr::Null => Ok(()),
            at => {
                self.store
                    .store_value(at, Value::Num(Num::wrapping(IntType::int(), z)))
            }
        }
    }

    // The thread's first function has returned.
    fn finish(&mut self, thread: u32, value: Option<i128>) -> Done
        ensures done { done_of result (world_of self.new) ≡ acted (world_of self.old) thread answers.Plain (actions.finish value) }
        ensures untouched { Untouched result self.old self.new }
    {
        let z = match value {
            Some(z) => z,
            None => 0,
        };
        self.set_stage(u128::from(thread), Stage::Returned(z));
        self.went(None)
    }

    // How far the thread of a number is, if it was made.
    fn stage(&self, number: u128) -> Option<Stage>
        ensures { option_map stage_of result ≡ option_map (λ (t : actions.ThreadRecord). t.stage) (slice_get (world_of self.now).threads number) }
    {
        let Ok(at) = usize::try_from(number) else {
            return None;
        };
        match self.threads.get(at) {
            Some(thread) => Some(thread.stage),
            None => None,
        }
    }

    // The thread of a number comes to another stage.
    fn set_stage(&mut self, number: u128, stage: Stage)
        ensures { world_of self.new ≡ staged (world_of self.old) number (stage_of stage) }
    {
        if number >= self.threads.len() as u128 {
            return;
        }
        let at = number as usize;
        let thread = self.threads[at];
        self.threads[at] = ThreadRecord {
            function: thread.function,
            argument: thread.argument,
            stage,
        };
    }
}

// An int.
fn int_value(z: i32) -> Value
    ensures { result ≡ values.Num (num int z) }
{
    Value::Num(Num::int(z))
}
