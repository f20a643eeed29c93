//! A turn of one of the threads.

ghost use Rattle.std.specs.Prelude.{◌≡◌, ◌==◌, ◌++◌, Some, None, IfOk, OnOk, IsSome, length, set};
ghost use Rattle.std.specs.Option.{is_some, option_map};
ghost use Rattle.ak_words.specs.IntType.{int};
ghost use Rattle.ak_words.specs.Wrapped.{wrapped_value};
ghost use Rattle.block_store.specs.Runs as runs;
ghost use Rattle.c_meaning.specs.Meaning as meaning;
ghost use Rattle.source_tree.specs.SharedViews.{program_of};
ghost use Rattle.source_state.specs.Worlds.{stage_of, world_of};
ghost use Rattle.block_meaning.specs.Threads.{control_of, owns_of};
ghost use Rattle.block_meaning.specs.Asking.{wish, AreAskedOf};
ghost use Rattle.block_meaning.specs.Running.{answered, answered_if, left_by, ended_by, ended_with, returned_at, state_in, touched_by_own};
ghost use Rattle.block_meaning.specs.inner.Turns.{turn_of};
ghost use Rattle.block_meaning.specs.inner.Starts.{owns_behind};

use crate::begin::begun;
use crate::running::Turned;
use crate::thread::{Outcome, Own};
use crate::turn::take_turn;
use ak_words::{IntType, NoMemory, Num};
use block_store::Answer;
use race_rules::Touch;
use source_state::{Stage, World};
use source_tree::tree::SharedProgram;
use std::alloc::Global;

// What a thread has of its own, if it was made and hasn't ended, is taken out.
#[tactic(auto, using(crate::proofs::Picks::taken_steps))]
fn take_own(threads: &mut Vec<Option<Own>>, thread: u32) -> Option<Own>
    ensures taken { option_map control_of result ≡ runs.own_at (owns_of threads.old.items) thread }
    ensures left { owns_of threads.new.items ≡ set (owns_of threads.old.items) thread None }
{
    let at = thread as usize;
    if at < threads.len() {
        threads[at].take()
    } else {
        None
    }
}

// What a thread that was made has of its own is put there.
#[tactic(auto, using(crate::proofs::Picks::taken_steps))]
fn put_own(threads: &mut Vec<Option<Own>>, thread: u32, own: Own)
    ensures { owns_of threads.new.items ≡ set (owns_of threads.old.items) thread (Some (control_of own)) }
{
    let at = thread as usize;
    if at < threads.len() {
        threads[at] = Some(own);
    }
}

/// Whether the thread of this number was made and hasn't ended.
#[tactic(auto, using(crate::proofs::Picks::taken_steps))]
pub fn is_running(threads: &[Option<Own>], thread: u32) -> bool
    ensures { result ≡ is_some (runs.own_at (owns_of threads.now) thread) }
{
    match threads.get(thread as usize) {
        Some(own) => own.is_some(),
        None => false,
    }
}

/// What the thread of this number touched in its last turn, if it was made and hasn't ended.
#[tactic(auto, using(crate::proofs::Picks::taken_steps))]
pub fn touched_in(threads: &[Option<Own>], thread: u32) -> &[Touch]
    ensures { result.now ≡ touched_by_own (runs.own_at (owns_of threads.now) thread) }
{
    match threads.get(thread as usize) {
        Some(Some(own)) => own.touched.all(),
        Some(None) => &[],
        None => &[],
    }
}

/// Threads that were made in a turn begin.
fn begin_all(
    threads: &mut Vec<Option<Own>>,
    world: &World,
    alloc: Global,
    program: &SharedProgram,
) -> Result<(), NoMemory>
    ensures { OnOk result (owns_of threads.new.items ≡ owns_of threads.old.items ++ runs.begun (meaning.program (program_of program.now)) (length threads.old.items) (world_of world.now)) }
{
    'made: while threads.len() < world.threads.len() {
        let next = world.threads[threads.len()];
        let own = begun(alloc, program, next.function, next.argument)?;
        threads.push(Some(own))?;
    }
    Ok(())
}

// The number that a thread's first function has returned, as an int.
fn returned_at(stage: Stage) -> Option<i32>
    ensures { result ≡ returned_at (stage_of stage) }
{
    match stage {
        Stage::Running => None,
        Stage::Returned(z) => Some(as_int(z)),
        Stage::Joined(z) => Some(as_int(z)),
    }
}

// A number as an int.
fn as_int(z: i128) -> i32
    ensures { result ≡ wrapped_value int z }
{
    Num::wrapping(IntType::int(), z).to_int()
}

/// What the first function of a thread has returned, if it was made and has ended.
#[tactic(auto, using(crate::proofs::Picks::taken_steps))]
pub fn ended_in(world: &World, thread: u32) -> Option<i32>
    ensures { result ≡ ended_with (world_of world.now) thread }
{
    match world.threads.get(thread as usize) {
        None => None,
        Some(thread) => returned_at(thread.stage),
    }
}

// The answer of a turn in which a thread ended.
fn answer_of_end(world: &World, thread: u32) -> Result<Turned, NoMemory>
    ensures { IfOk result (λ t. ended_by (thread == 0) (ended_with (world_of world.now) 0) ≡ Some t) }
{
    if thread > 0 {
        return Ok(Turned::Went);
    }
    match ended_in(world, 0) {
        Some(value) => Ok(Turned::Ended(value)),
        None => Err(NoMemory),
    }
}

// What comes of a turn of a thread whose own was taken out: that is put back, and new threads begin.
#[tactic(auto, using(crate::proofs::Picks::taken_steps))]
fn come_back(
    o: Outcome,
    own: Own,
    threads: &mut Vec<Option<Own>>,
    world: &World,
    alloc: Global,
    program: &SharedProgram,
    thread: u32,
) -> Result<Turned, NoMemory>
    ensures answer { IfOk result (λ t. answered thread (turn_of o own world.now) ≡ Some t) }
    ensures own { OnOk result (owns_of threads.new.items ≡ owns_behind (program_of program.now) thread o (control_of own) (world_of world.now) (owns_of threads.old.items)) }
{
    match o {
        Outcome::Went => {
            put_own(threads, thread, own);
            begin_all(threads, world, alloc, program)?;
            Ok(Turned::Went)
        }
        Outcome::Ended => {
            begin_all(threads, world, alloc, program)?;
            let turned = answer_of_end(world, thread)?;
            Ok(turned)
        }
        Outcome::Blocked => {
            put_own(threads, thread, own);
            Ok(Turned::Blocked)
        }
        Outcome::Unfit => {
            put_own(threads, thread, own);
            Ok(Turned::Unfit)
        }
        Outcome::Broke(rule, place) => {
            put_own(threads, thread, own);
            Ok(Turned::Broke(rule, place))
        }
    }
}

/// One turn of a thread that runs, under an answer, with the bytes that it asked for, if it was told Plain and is an allocation.
#[tactic(auto, using(crate::proofs::Picks::picked_of, crate::proofs::Picks::left))]
pub fn take(
    threads: &mut Vec<Option<Own>>,
    world: &mut World,
    asked: &mut Option<u64>,
    alloc: Global,
    program: &SharedProgram,
    thread: u32,
    answer: Answer,
) -> Result<Turned, NoMemory>
    requires { IsSome (runs.picked (meaning.program (program_of program.now)) (state_in threads.old.items world.old) (record { thread = thread; answer = answer })) }
    ensures answer { IfOk result (λ t. answered_if thread (runs.picked (meaning.program (program_of program.now)) (state_in threads.old.items world.old) (record { thread = thread; answer = answer })) ≡ Some t) }
    ensures state { OnOk result (state_in threads.new.items world.new ≡ left_by (program_of program.now) (state_in threads.old.items world.old) thread (runs.picked (meaning.program (program_of program.now)) (state_in threads.old.items world.old) (record { thread = thread; answer = answer }))) }
    ensures asked { OnOk result (AreAskedOf answer (wish (meaning.program (program_of program.now)) (state_in threads.old.items world.old) thread) asked.new) }
{
    let Some(mut own) = take_own(threads, thread) else {
        return Err(NoMemory);
    };
    let o = take_turn(&mut own, world, asked, alloc, program, thread, answer)?;
    let turned = come_back(o, own, threads, world, alloc, program, thread)?;
    Ok(turned)
}
