//! One turn of a thread.

ghost use Rattle.std.specs.Prelude.{◌≡◌, ◌-◌, ◌^◌, IfOk, OnOk, Some, min};
ghost use Rattle.block_store.specs.declared.values.Answer.TheVariants as answers;
ghost use Rattle.c_meaning.specs.Turns as turns;
ghost use Rattle.source_tree.specs.SharedViews.{program_of};
ghost use Rattle.source_state.specs.Worlds.{world_of};
ghost use Rattle.block_meaning.specs.Threads.{control_of};
ghost use Rattle.block_meaning.specs.Asking.{wish_by, AreAskedOf};
ghost use Rattle.block_meaning.specs.inner.Turns.{turn_of, bytes_of, asked_under, ComesToEnd, Stays};

use crate::perform::perform;
use crate::thread::{At, Outcome, Own};
use ak_words::{NoMemory, Rule};
use block_store::Answer;
use source_assignments::Exit;
use source_state::control::Pending;
use source_state::{KeptStore, Locals, SharedAction, World};
use source_statements::{finish, give, rounds};
use source_tree::tree::SharedProgram;
use std::alloc::Global;

// How far a turn gets from where it begins: to what ends it.
#[tactic(auto, using(source_statements::proofs::Names::name_todo))]
fn reach(
    at: &At,
    alloc: Global,
    program: &SharedProgram,
    function: u32,
    locals: &mut Locals,
    store: &mut KeptStore,
) -> Result<Pending, NoMemory>
    ensures reaches { IfOk result (λ q. ComesToEnd program.now at.now function locals.old.now store.old.now locals.new.now store.new.now q) }
    ensures locals { OnOk result (locals.new.kept ≡ locals.old.kept) }
    ensures store { OnOk result (store.new.kept ≡ store.old.kept) }
{
    match at {
        At::Gives(v, k) => {
            let given = give(k, *v, alloc, program, function, locals, store)?;
            Ok(given)
        }
        At::Lacks(place) => Ok(Pending::Broke(Rule::C15, *place)),
        At::Begins(k) => {
            let finished = finish(k, Exit::End, alloc, program, function, locals, store)?;
            Ok(finished)
        }
        At::Round(l, k) => {
            let exit = rounds(
                &l.body, alloc, program, function, locals, store, &l.step, l, k,
            )?;
            let q = finish(k, exit, alloc, program, function, locals, store)?;
            Ok(q)
        }
    }
}

// Leads the locals and the blocks back to where they were kept.
fn undo(locals: &mut Locals, store: &mut KeptStore)
    ensures locals { locals.new ≡ record { now = locals.old.kept; kept = locals.old.kept } }
    ensures store { store.new ≡ record { now = store.old.kept; kept = store.old.kept } }
{
    locals.undo();
    store.undo();
}

// A number, or the greatest that there is of its type where it's greater.
fn capped(n: u128) -> u64
    ensures { result ≡ min n (2 ^ 64 - 1) }
{
    if n > u64::MAX as u128 {
        u64::MAX
    } else {
        n as u64
    }
}

// The bytes that an action asks for, if it is an allocation; a realloc that breaks a rule asks for none.
fn bytes_of(action: &SharedAction, store: &KeptStore) -> Option<u64>
    ensures { result ≡ bytes_of store.now.now action.now }
{
    match action {
        SharedAction::Allocate(size, _) => Some(capped(*size)),
        SharedAction::Reallocate(at, size) => match store.store().may_end(*at) {
            Ok(()) => Some(capped(*size)),
            Err(_) => None,
        },
        _ => None,
    }
}

// The bytes that a turn asks for which is told this answer, by what ends it.
fn asked_under(answer: Answer, q: &Pending, store: &KeptStore) -> Option<u64>
    ensures { result ≡ asked_under answer store.now.now q.now }
{
    match (answer, q) {
        (Answer::Plain, Pending::Act(_, action, _)) => bytes_of(action, store),
        (_, _) => None,
    }
}

/// One turn of a thread, with what it has of its own and what it shares, and with the bytes that it asked for, if it was told Plain
/// and is an allocation.
pub fn take_turn(
    own: &mut Own,
    world: &mut World,
    asked: &mut Option<u64>,
    alloc: Global,
    program: &SharedProgram,
    thread: u32,
    answer: Answer,
) -> Result<Outcome, NoMemory>
    ensures turned { IfOk result (λ o. turn_of o own.new world.new ≡ turns.turn (program_of program.now) thread answer (control_of own.old) (world_of world.old)) }
    ensures stays { IfOk result (λ o. Stays o (control_of own.old) (control_of own.new) (world_of world.old) (world_of world.new)) }
    ensures asked { OnOk result (AreAskedOf answer (wish_by (world_of world.old) (Some (turns.turn (program_of program.now) thread answers.Plain (control_of own.old) (world_of world.old))) (Some (turns.turn (program_of program.now) thread answers.Got (control_of own.old) (world_of world.old))) (Some (turns.turn (program_of program.now) thread answers.None (control_of own.old) (world_of world.old)))) asked.new) }
{
    own.locals.keep();
    world.store.keep();
    let q = reach(
        &own.at,
        alloc,
        program,
        own.function,
        &mut own.locals,
        &mut world.store,
    )?;
    *asked = asked_under(answer, &q, &world.store);
    let o = perform(own, world, alloc, program, thread, answer, q)?;
    match o {
        Outcome::Went => Ok(Outcome::Went),
        Outcome::Ended => Ok(Outcome::Ended),
        Outcome::Blocked => {
            undo(&mut own.locals, &mut world.store);
            Ok(Outcome::Blocked)
        }
        Outcome::Unfit => {
            undo(&mut own.locals, &mut world.store);
            Ok(Outcome::Unfit)
        }
        Outcome::Broke(rule, place) => {
            undo(&mut own.locals, &mut world.store);
            Ok(Outcome::Broke(rule, place))
        }
    }
}
