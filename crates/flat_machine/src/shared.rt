ghost use Rattle.std.specs.Prelude.{◌≡◌, ◌<◌, [], ◌∷◌, length, IfOk, slice_get};
ghost use Rattle.flat_meaning.specs.Ready.{has_ended};
ghost use Rattle.flat_machine.specs.Reports.{report_of};
ghost use Rattle.flat_machine.specs.Shares.{IsSharedOf};
ghost use Rattle.flat_machine.specs.Start.{first_shared, settings_limits};

use crate::leaving::Leaving;
use crate::loading::write_plain_data;
use crate::made::MadeThread;
use ak_trace::Entry;
use ak_words::NoMemory;
use defrag_move::Arena;
use flat_rules::Settings;
use flat_store::FIRST_ADDRESS;
use flat_threads::Program;
use handle_table::PinWords;
use move_plan::{Move, Pins, Plan};
use run_report::{LastBarrier, Report};
use std::alloc::Global;
use std::marker::Model;

/// How many threads are ever made.
pub(crate) const THREADS: u32 = 64;

// How many bytes the stack of each has.
const STACK: u32 = 65536;

// The entries of one event: a barrier, 64 served allocations, and one more.
const ENTRIES: usize = 66;

// The words in listed slots: 64 threads of 1,024 slots.
const PIN_WORDS: u32 = 65536;

/// What threads share: objects and bytes, what was printed, and the threads; and what a barrier and an evacuation need, in memory that is
/// reserved once.
#[derive(Drop)]
pub struct Shared {
    pub(crate) arena: Arena,
    pub(crate) output: Vec<u8>,
    pub(crate) output_limit: u32,
    pub(crate) threads: Vec<MadeThread>,
    pub(crate) made: Vec<Entry>,
    pub(crate) barriers: u64,
    pub(crate) moved_objects: u64,
    pub(crate) moved_bytes: u64,
    pub(crate) emptied: u32,
    pub(crate) last: Option<LastBarrier>,
    pub(crate) plan: Plan,
    pub(crate) pins: Pins,
    pub(crate) words: PinWords,
    pub(crate) tails: Vec<u32>,
    pub(crate) moves: Vec<Move>,
    pub(crate) leaving: Leaving,
}

// Clauses see all but what a barrier and an evacuation need.
impl Model for Shared {
    ghost use Rattle.std.specs.Prelude.{map, vec_capacity, ◌≤◌, length};
    ghost use Rattle.arena_meaning.specs.Arena.{IsConsistent};
    ghost use Rattle.flat_machine.specs.Shares.{Shared as SharedView};
    ghost use Rattle.flat_machine.specs.inner.Shares.{made_view, IsKept};

    ghost Value = { SharedView };

    ghost view = { λ s. record {
      memory = record { storage = s.arena; output = s.output.items; threads = map made_view s.threads.items; leaving = s.leaving };
      output_limit = s.output_limit;
      made = s.made.items;
      barriers = record { count = s.barriers; objects = s.moved_objects; bytes = s.moved_bytes; emptied = s.emptied; last = s.last };
    } };

    ghost invariant = { λ s. IsKept s.arena s.output.items s.output_limit s.threads.items s.made.items s.plan s.pins s.words × (s.output_limit ≤ vec_capacity s.output) × (64 ≤ vec_capacity s.threads) × (66 ≤ vec_capacity s.made) × (s.arena.heaps.count ≤ vec_capacity s.tails) × (s.arena.heaps.most ≤ vec_capacity s.moves) };
}

impl Shared {
    /// What threads share when nothing has run, with all the memory that a run can come to use.
    pub fn new(alloc: Global, program: &Program, s: &Settings) -> Result<Shared, NoMemory>
        ensures made { IfOk result (λ shared. shared ≡ first_shared program.now (settings_limits s.now)) }
        ensures of { IfOk result (IsSharedOf program.now) }
    {
        let code = program.code();
        let plain = program.stack_start() - FIRST_ADDRESS + u64::from(THREADS * STACK);
        let mut arena = Arena::new(alloc, plain, s.subheaps, s.subheap, s.ids)?;
        write_plain_data(&mut arena, program);
        let mut threads = Vec::with_capacity(alloc, THREADS as usize)?;
        threads.push_reserved(MadeThread {
            function: code.main,
            argument: 0,
            result: None,
        });
        Ok(Shared {
            arena,
            output: Vec::with_capacity(alloc, s.output as usize)?,
            output_limit: s.output,
            threads,
            made: Vec::with_capacity(alloc, ENTRIES)?,
            barriers: 0,
            moved_objects: 0,
            moved_bytes: 0,
            emptied: 0,
            last: None,
            plan: Plan::with_room(alloc, s.ids)?,
            pins: Pins::with_room(alloc, PIN_WORDS)?,
            words: PinWords::with_room(alloc, PIN_WORDS)?,
            tails: Vec::with_capacity(alloc, s.subheaps as usize)?,
            moves: Vec::with_capacity(alloc, s.ids as usize)?,
            leaving: Leaving::none(alloc)?,
        })
    }

    /// The entries of the last act, barrier or evacuation, with worker 0.
    pub fn made(&self) -> &[Entry]
        ensures { result.now ≡ self.now.made }
    {
        &self.made
    }

    /// How many threads were made.
    pub fn threads(&self) -> u32
        ensures { result ≡ length self.now.memory.threads }
    {
        self.threads.len() as u32
    }

    /// Whether a thread that was made has ended.
    pub fn has_ended(&self, thread: u32) -> bool
        requires { thread < length self.now.memory.threads }
        ensures { result ≡ has_ended (slice_get self.now.memory.threads thread) }
    {
        self.threads[thread as usize].result.is_some()
    }

    /// The report, with so many entries of the journal.
    pub fn report(&self, entries: u32) -> Report
        ensures { result ≡ report_of self.now entries }
    {
        let heaps = self.arena.heaps();
        let (live_objects, live_bytes) = heaps.live();
        Report {
            threads: self.threads.len() as u32,
            entries,
            barriers: self.barriers,
            moved_objects: self.moved_objects,
            moved_bytes: self.moved_bytes,
            emptied: self.emptied,
            live_objects,
            live_bytes,
            extent: heaps.extent(),
            heap: u64::from(heaps.count()) * u64::from(heaps.size()),
            last: self.last,
        }
    }

    /// What was printed.
    pub fn into_output(self) -> Vec<u8>
        ensures { result.items ≡ self.memory.output }
    {
        let Shared {
            output,
            arena: _,
            output_limit: _,
            threads: _,
            made: _,
            barriers: _,
            moved_objects: _,
            moved_bytes: _,
            emptied: _,
            last: _,
            plan: _,
            pins: _,
            words: _,
            tails: _,
            moves: _,
            leaving: _,
        } = self;
        output
    }

    /// Keeps the one entry of a step.
    pub(crate) fn tell(&mut self, entry: Entry)
        ensures { self.new ≡ record self.old { made = entry ∷ [] } }
    {
        self.made.clear();
        self.made.push_reserved(entry);
    }
}
