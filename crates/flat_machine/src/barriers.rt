//! A barrier: objects slide, and then allocations that wait are served.

ghost use Rattle.std.specs.Prelude.{◌≡◌, ◌+◌, ◌*◌, ◌^◌, ◌<◌, ◌≤◌, [], ◌∷◌, ◌++◌, All, length, flat_map, nat_lt, count_by, sum_by, map, true, Some, IsSome};
ghost use Rattle.struct_ir.specs.Instrs.{LinearCode};
ghost use Rattle.struct_ir.specs.Views.{step_view};
ghost use Rattle.flat_meaning.specs.Actions.{acted_on_memory};
ghost use Rattle.flat_meaning.specs.Memory.{served, serving, words_leaving};
ghost use Rattle.flat_meaning.specs.Ready.{takes_room};
ghost use Rattle.flat_meaning.specs.Words.{target_of, word_at};
ghost use Rattle.flat_rules.specs.Entries.{served_with};
ghost use Rattle.flat_rules.specs.Lawful.{AreHome, IsOfRun};
ghost use Rattle.flat_threads.specs.Belonging.{IsContextOf};
ghost use Rattle.flat_threads.specs.Contexts.{IsInCall};
ghost use Rattle.flat_threads.specs.Deeds.{top_of};
ghost use Rattle.flat_machine.specs.Machine.{machine_of};
ghost use Rattle.flat_machine.specs.Choices.{action_choice, served_choice};
ghost use Rattle.flat_machine.specs.Shares.{IsSharedOf, image_of};
ghost use Rattle.flat_machine.specs.Turns.{malloc_turned};
ghost use Rattle.flat_machine.specs.inner.Acted.{IsStepOf};
ghost use Rattle.flat_machine.specs.inner.Dones.{Does, Went, with_memory};
ghost use Rattle.flat_machine.specs.Sweeping.{counted, swept_by, waits_at_home};
ghost use Rattle.flat_machine.specs.inner.Swept.{AreServed, IsServed, IsServedIf, handles_home, object_told, shared_slid};

use crate::done::Done;
use crate::pinning::pin_all;
use crate::shared::Shared;
use crate::turned::Turned;
use ak_trace::{Entry, how, kind};
use flat_threads::{Context, Program, Wait};
use move_plan::{Move, room, slide};
use run_report::LastBarrier;
use struct_ir::linear::InstrKind;
use struct_ir::{Action, StepNode};

/// Slides all objects that no listed slot names, and then serves the allocations that wait, in rising order of their threads: each gets the
/// least id and the lowest place, or null where there is no room. Behind the last of them the old objects of reallocs leave.
pub fn barrier(shared: &mut Shared, program: &Program, home: &mut [Option<Context>])
    requires shared { IsSharedOf program.now shared.old }
    requires contexts { All (IsOfRun (machine_of program.now) (IsContextOf program.now)) home.old }
    requires home { AreHome (machine_of program.now) shared.old home.old }

    ensures shared { shared.new ≡ (swept_by program.now shared.old home.old).shared }
    ensures home { home.new ≡ (swept_by program.now shared.old home.old).homes }
{
    let for_room = wants_room(home);
    shared.sweep(program, home);
    shared.tell(entry(
        kind::BARRIER,
        0,
        if for_room {
            how::FOR_ROOM
        } else {
            how::FOR_EVERY
        },
        0,
        0,
    ));
    shared.begin_to_serve();
    serve_all(shared, program, home);
    shared.leave();
}

// A thread waits for room.
fn wants_room(home: &[Option<Context>]) -> bool
    ensures { result ≡ nat_lt 0 (count_by waits_at_home home.now) }
{
    for place in home {
        if let Some(ctx) = place
            && ctx.wants_room()
        {
            return true;
        }
    }
    false
}

// The bytes that moves move, or the greatest number where there are more.
pub(crate) fn bytes_of(moves: &[Move]) -> u64
    ensures { result ≡ counted (sum_by (λ m. m.size) moves.now) }
{
    let mut sum: u64 = 0;
    for next in moves {
        sum = sum.saturating_add(u64::from(next.size));
    }
    sum
}

// Serves the allocations that wait, in rising order of their threads.
fn serve_all(shared: &mut Shared, program: &Program, home: &mut [Option<Context>])
    requires few { length shared.old.memory.threads ≤ 64 }
    requires contexts { All (IsOfRun (machine_of program.now) (IsContextOf program.now)) home.old }
    requires home { AreHome (machine_of program.now) shared.old home.old }
    requires one { length shared.old.made ≡ 1 }
    requires serves { shared.old.memory.leaving ≡ Some [] }
    ensures { AreServed program.now shared.old shared.new home.old home.new }
{
    for number in 0..shared.threads.len() {
        serve_if(shared, program, &mut home[number]);
    }
}

// Serves the allocation at which the thread of a place waits, if it does.
fn serve_if(shared: &mut Shared, program: &Program, place: &mut Option<Context>)
    requires of { IsOfRun (machine_of program.now) (IsContextOf program.now) place.old }
    requires room { length shared.old.made < 66 }
    requires serves { IsSome shared.old.memory.leaving }
    requires leaving { length (words_leaving shared.old.memory.leaving) < 64 }
    ensures { IsServedIf program.now shared.old shared.new place.old place.new }
{
    if let Some(ctx) = place
        && ctx.wants_room()
    {
        serve(shared, program, ctx);
    }
}

// Serves the allocation at which a context's thread waits.
fn serve(shared: &mut Shared, program: &Program, ctx: &mut Context)
    requires of { IsContextOf program.now ctx.old }
    requires waits { ctx.old.wait ≡ Some Wait.Room }
    requires room { length shared.old.made < 66 }
    requires serves { IsSome shared.old.memory.leaving }
    requires leaving { length (words_leaving shared.old.memory.leaving) < 64 }
    ensures { IsServed program.now shared.old shared.new ctx.old ctx.new }
{
    let InstrKind::Step(node) = &ctx.instr(program).kind else {
        return;
    };
    if let Done::Went(word, turned) = shared.serve(ctx, node) {
        ctx.land(node, word);
        shared.tell_served(ctx.thread(), turned);
    }
}

impl Shared {
    // Slides the objects that no listed slot names, of any call of any thread that hasn't ended, and keeps what is told of that.
    fn sweep(&mut self, program: &Program, home: &[Option<Context>])
        requires shared { IsSharedOf program.now self.old }
        requires contexts { All (IsOfRun (machine_of program.now) (IsContextOf program.now)) home.now }
        requires home { AreHome (machine_of program.now) self.old home.now }
        ensures { self.new ≡ shared_slid program.now self.old home.now }
    {
        pin_all(
            &self.arena,
            program,
            &home[..self.threads.len()],
            &mut self.words,
            &mut self.pins,
        );
        let before = self.arena.heaps().extent();
        self.plan.clear();
        slide(self.arena.heaps(), &self.pins, &mut self.plan);
        self.arena.slide(self.plan.moves(), &self.pins);
        self.barriers = self.barriers.saturating_add(1);
        self.moved_objects = self
            .moved_objects
            .saturating_add(u64::from(self.plan.len()));
        self.moved_bytes = self.moved_bytes.saturating_add(bytes_of(self.plan.moves()));
        self.last = Some(LastBarrier {
            before,
            after: self.arena.heaps().extent(),
            room: room(self.arena.heaps(), &self.pins),
        });
    }

    // What comes of an allocation that waits.
    fn serve(&mut self, ctx: &Context, node: &StepNode) -> Done
        requires call { IsInCall ctx.now.stage }
        requires step { IsStepOf (top_of ctx.now).own (step_view node.now) }
        requires serves { IsSome self.old.memory.leaving }
        requires leaving { length (words_leaving self.old.memory.leaving) < 64 }
        ensures does { (code : LinearCode) → let l = (top_of ctx.now).own in let s = step_view node.now in takes_room s.action ≡ true → Does self.old self.new result
            (acted_on_memory (image_of code self.old).layout ctx.now.number (action_choice (served_choice self.old.memory.storage) l s.action s.temps) s.action (map (target_of l) s.places) (map (word_at l) s.temps) self.old.memory) }
        ensures told { let l = (top_of ctx.now).own in let s = step_view node.now in takes_room s.action ≡ true →
            Went result (malloc_turned (action_choice (served_choice self.old.memory.storage) l s.action s.temps)) }
    {
        let temps = node.temps.as_slice();
        match &node.action {
            Action::Malloc => self.serve_malloc(ctx.word(temps[0])),
            Action::Calloc => self.serve_calloc(ctx.word(temps[0]), ctx.word(temps[1])),
            Action::Realloc => self.serve_realloc(ctx.word(temps[0]), ctx.word(temps[1])),
            _ => Done::plain(),
        }
    }

    // The barrier begins to serve.
    fn begin_to_serve(&mut self)
        ensures { self.new ≡ with_memory self.old (serving self.old.memory) }
    {
        self.leaving.begin();
    }

    // The old objects of the reallocs that were served leave.
    fn leave(&mut self)
        ensures { self.new ≡ with_memory self.old (served self.old.memory) }
    {
        self.leaving.leave(&mut self.arena);
    }

    // Keeps the entry of an allocation that was served.
    fn tell_served(&mut self, thread: u32, turned: Turned)
        requires thread { thread < 64 }
        requires room { length self.old.made < 66 }
        ensures { self.new ≡ record self.old { made = self.old.made ++ served_with 0 thread (object_told turned) ∷ [] } }
    {
        let served = match turned {
            Turned::Got { id, place } => entry(kind::SERVED, thread, how::MALLOC_GOT, id, place),
            _ => entry(kind::SERVED, thread, how::MALLOC_NULL, 0, 0),
        };
        self.made.push_reserved(served);
    }
}

// An entry without local turns, told with worker 0.
pub(crate) fn entry(kind: u8, thread: u32, how: u8, id: u32, place: u32) -> Entry
    requires { thread < 64 }
    ensures { result ≡ record { kind = kind; worker = 0; thread = thread; how = how; local = 0; zero = 0; id = id; place = place } }
{
    Entry {
        kind,
        worker: 0,
        thread: thread as u8,
        how,
        local: 0,
        zero: 0,
        id,
        place,
    }
}
