//! The flat machine that the rules are of.
ghost use Rattle.std.specs.Prelude.{◌≡◌, ℕ, ◌<◌, ◌⊎◌, List, Option, false, length, All, IfOk};
ghost use Rattle.flat_rules.specs.declared.settings.Settings.{Settings};
ghost use Rattle.flat_rules.specs.Machine.{Machine, blank, works, steps};
ghost use Rattle.flat_rules.specs.States.{most_threads};
ghost use Rattle.flat_rules.specs.Answers.{step_of};
ghost use Rattle.flat_rules.specs.Lawful.{AreHome, IsOfRun, StepMakes, BarrierMakes, EvacuationMakes, IsFlat, IsOpened, Lives};

use crate::settings::Settings;
use crate::step::Step;
use ak_trace::Entry;
use ak_words::NoMemory;
use std::alloc::Global;

/// What the threads of a flat machine share, with the machine's operations.
pub trait Flat<Code, Context>: Sized {
    /// The operations, with the code that is run.
    ghost machine: { Code → Machine Self Context };

    /// What is shared where nothing has run.
    ghost opened: { Code → Settings → Self };

    /// What is shared is that of a run of this code.
    ghost shared_of: { Code → Self → Type 0 };

    /// A context is one of a run of this code.
    ghost context_of: { Code → Context → Type 0 };

    /// Makes what is shared. Nothing has run.
    fn open(alloc: Global, code: &Code, settings: &Settings) -> Result<Self, NoMemory>
        ensures opened { IfOk result (λ s. s ≡ opened code.now settings.now) }
        ensures of { IfOk result (λ s. IsOpened (machine code.now) (shared_of code.now) s) };

    /// Makes the context of a thread that has not begun.
    fn blank(alloc: Global, code: &Code, number: u32) -> Result<Context, NoMemory>
        requires { number < most_threads }
        ensures { IfOk result (λ c. c ≡ (machine code.now).blank number) };

    /// The number of the context's thread.
    fn thread(code: &Code, ctx: &Context) -> u32
        ensures { result ≡ (machine code.now).thread_of ctx.now };

    /// Puts a blank context at the start of its thread's function.
    fn begin(&self, code: &Code, ctx: &mut Context)
        requires lives { Lives (machine code.now) (shared_of code.now) (context_of code.now) self.now ctx.old }
        requires blank { (machine code.now).progress ctx.old ≡ blank }
        ensures { ctx.new ≡ (machine code.now).begin self.now ctx.old };

    /// Works with the context alone.
    fn local(code: &Code, ctx: &mut Context, most: u32)
        requires of { context_of code.now ctx.old }
        requires begun { (machine code.now).progress ctx.old ≡ works }
        requires most { (most ≡ 0) ⊎ (most ≡ 1024) }
        ensures { ctx.new ≡ (machine code.now).local most ctx.old };

    /// Does the pending step.
    fn act(&mut self, code: &Code, ctx: &mut Context) -> Step
        requires lives { Lives (machine code.now) (shared_of code.now) (context_of code.now) self.old ctx.old }
        requires pending { (machine code.now).progress ctx.old ≡ steps }
        ensures answer { result ≡ step_of ((machine code.now).thread_of ctx.old) ((machine code.now).act self.old ctx.old).turned }
        ensures shared { self.new ≡ ((machine code.now).act self.old ctx.old).shared }
        ensures context { ctx.new ≡ ((machine code.now).act self.old ctx.old).context }
        ensures made { StepMakes (machine code.now) self.old ctx.old };

    /// Moves objects, and serves those that wait for room.
    fn barrier(&mut self, code: &Code, home: &mut [Option<Context>])
        requires shared { shared_of code.now self.old }
        requires contexts { All (IsOfRun (machine code.now) (context_of code.now)) home.old }
        requires home { AreHome (machine code.now) self.old home.old }
        ensures shared { self.new ≡ ((machine code.now).barrier self.old home.old).shared }
        ensures homes { home.new ≡ ((machine code.now).barrier self.old home.old).homes }
        ensures made { BarrierMakes (machine code.now) self.old home.old };

    /// Moves the objects of thin sub-heaps out of them, and answers whether there was one. Where there was none nothing changes, and `made` is empty.
    fn evacuation(&mut self, code: &Code, home: &[Option<Context>]) -> bool
        requires shared { shared_of code.now self.old }
        requires contexts { All (IsOfRun (machine code.now) (context_of code.now)) home.now }
        requires home { AreHome (machine code.now) self.old home.now }
        ensures moved { result ≡ ((machine code.now).evacuation self.old home.now).moved }
        ensures shared { self.new ≡ ((machine code.now).evacuation self.old home.now).shared }
        ensures made { EvacuationMakes (machine code.now) self.old home.now };

    /// Whether a thread at home waits for nothing that is not there.
    fn is_ready(&self, code: &Code, ctx: &Context) -> bool
        requires { context_of code.now ctx.now }
        ensures { result ≡ (machine code.now).is_ready self.now ctx.now };

    /// Whether the thread waits at an allocation for which no barrier has served it yet.
    fn wants_room(code: &Code, ctx: &Context) -> bool
        requires { context_of code.now ctx.now }
        ensures { result ≡ (machine code.now).waits ctx.now };

    /// How many threads were made.
    fn threads(&self, code: &Code) -> u32
        ensures { result ≡ (machine code.now).threads self.now };

    /// The entries of the last step or barrier, with worker 0.
    fn made(&self, code: &Code) -> &[Entry]
        ensures { result.now ≡ (machine code.now).made self.now };

    /// The machine is lawful.
    ghost lawful: { (code : Code) → IsFlat (machine code) (shared_of code) (context_of code) };
}
