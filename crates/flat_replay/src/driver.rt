//! A journal is followed: at the first entry of each event its call is made, and each entry is compared with the call's.
ghost use Rattle.std.specs.Prelude.{◌≡◌, ◌↔◌, ◌<◌, List, [], length, replicate, slice_set, slice_get, if◌then◌else◌, true, Some, None, IfSome, IfOk, vec_len};
ghost use Rattle.std.specs.Arc.{arc_value};
ghost use Rattle.std.specs.Option.{option_map};
ghost use Rattle.ak_trace.specs.declared.entry.Entry.{Entry};
ghost use Rattle.flat_rules.specs.Rules.{rules_of};
ghost use Rattle.flat_rules.specs.Replays.{replay};
ghost use Rattle.flat_rules.specs.States.{end_of, most_threads};
ghost use Rattle.world_rules.specs.declared.calls.Call.TheVariants as call;
ghost use Rattle.world_rules.specs.declared.calls.Found.{Found};
ghost use Rattle.world_rules.specs.Whole.{Whole, LeadsFromOpening};
ghost use Rattle.world_rules.specs.Calls as calls;
ghost use Rattle.flat_replay.specs.inner.Hands.{hand_at, with_worker, hands_found, hand_acted, stepped, homed, called};
ghost use Rattle.flat_replay.specs.inner.Hands as by;
ghost use Rattle.flat_replay.specs.inner.Follows.{IsAt, FollowsFront, Takes, Comes};

use ak_trace::{Entry, Journal, kind};
use ak_words::NoMemory;
use ak_world::{Acted, Found, World};
use flat_rules::{End, Flat, Settings};
use std::alloc::Global;
use std::sync::Arc;

/// How a thread that is out goes on: it works, it was asked to come home since it went out, or its next entry is Home.
#[derive(Clone, Copy, Debug, PartialEq, Eq)]
pub(crate) enum Mood {
    Free,
    Asked,
    Must,
}

/// A thread that is out.
#[derive(Drop)]
pub(crate) struct Hand<Context> {
    pub(crate) worker: u32,
    pub(crate) ctx: Context,
    pub(crate) mood: Mood,
}

/// A world whose calls a journal names, and its threads that are out.
#[derive(Drop)]
pub(crate) struct Driver<F: Flat<Code, Context> + Drop, Code: Drop, Context: Drop> {
    pub(crate) world: World<F, Code, Context>,
    pub(crate) hands: Vec<Option<Hand<Context>>>,
}

// Once asked home, a thread stays so.
fn mood_after(mood: Mood, come_home: bool) -> Mood
    ensures { result ≡ by.mood_after mood come_home }
{
    match mood {
        Mood::Free if !come_home => Mood::Free,
        _ => Mood::Asked,
    }
}

// A thread after its step, where it is still out.
fn after_step<Context: Drop>(
    worker: u32,
    mood: Mood,
    acted: Acted<Context>,
) -> Option<Hand<Context>>
    ensures { result ≡ hand_acted worker mood acted }
{
    match acted {
        Acted::Went { ctx, come_home } => {
            Some(Hand {
                worker,
                ctx,
                mood: mood_after(mood, come_home),
            })
        }
        Acted::Rested(ctx) | Acted::Busy(ctx) | Acted::WaitRoom(ctx) => {
            Some(Hand {
                worker,
                ctx,
                mood: Mood::Must,
            })
        }
        Acted::Ended | Acted::Over(_) => None,
    }
}

// No thread is out.
fn no_hands<Context: Drop>(alloc: Global) -> Result<Vec<Option<Hand<Context>>>, NoMemory>
    ensures { IfOk result (λ v. v.items ≡ replicate most_threads None) }
{
    let mut hands = Vec::with_capacity(alloc, 64)?;
    for _k in 0..64u32 {
        hands.push_reserved(None);
    }
    Ok(hands)
}

impl<F: Flat<Code, Context> + Drop, Code: Drop, Context: Drop> Driver<F, Code, Context> {
    // Takes a thread from those that are out, where it is with the worker.
    fn take(&mut self, worker: u32, thread: u32) -> Option<Hand<Context>>
        ensures hand { result ≡ with_worker worker (hand_at self.old.hands.items thread) }
        ensures world { self.new.world ≡ self.old.world }
        ensures rest { IfSome result (λ _. (self.new.hands.items ≡ slice_set self.old.hands.items thread None) × (thread < vec_len self.new.hands)) }
    {
        let hand = self.hands.get_mut(thread as usize)?.take()?;
        if hand.worker != worker {
            return None;
        }
        Some(hand)
    }

    // The worker looks for work.
    fn find(&mut self, worker: u32)
        requires at { (first : Whole F Code Context) × IsAt F.machine F.shared_of first self.old.world self.old.hands.items × (worker < first.settings.workers) }
        requires few { worker < 64 }
        ensures world { self.new.world ≡ calls.after F.machine self.old.world worker call.Find }
        ensures hands { self.new.hands.items ≡ hands_found (F.machine self.old.world.code) worker (calls.finds F.machine self.old.world worker).0 self.old.hands.items }
    {
        if let Found::Work(ctx) = self.world.find(worker) {
            let thread = F::thread(self.world.code(), &ctx);
            self.hands[thread as usize] = Some(Hand {
                worker,
                ctx,
                mood: Mood::Free,
            });
        }
    }

    // A thread that is out with the worker takes its step.
    fn act(&mut self, worker: u32, thread: u32) -> bool
        requires at { (first : Whole F Code Context) × IsAt F.machine F.shared_of first self.old.world self.old.hands.items × (worker < first.settings.workers) }
        requires few { worker < 64 }
        ensures { (if result then Some (self.new.world, self.new.hands.items) else None) ≡ stepped F.machine self.old.world self.old.hands.items worker thread (hand_at self.old.hands.items thread) }
    {
        let Some(
            Hand {
                worker: _,
                mut ctx,
                mood,
            },
        ) = self.take(worker, thread)
        else {
            return false;
        };
        let most = match mood {
            Mood::Free => 1024,
            Mood::Asked => 0,
            Mood::Must => return false,
        };
        F::local(self.world.code(), &mut ctx, most);
        let acted = self.world.act(worker, ctx);
        self.hands[thread as usize] = after_step(worker, mood, acted);
        true
    }

    // A thread that is out with the worker comes home, where it is to.
    fn home(&mut self, worker: u32, thread: u32) -> bool
        requires at { (first : Whole F Code Context) × IsAt F.machine F.shared_of first self.old.world self.old.hands.items × (worker < first.settings.workers) }
        requires few { worker < 64 }
        ensures { (if result then Some (self.new.world, self.new.hands.items) else None) ≡ homed F.machine self.old.world self.old.hands.items worker thread (hand_at self.old.hands.items thread) }
    {
        let Some(hand) = self.take(worker, thread) else {
            return false;
        };
        match hand.mood {
            Mood::Must => {
                self.world.take_home(worker, hand.ctx);
                true
            }
            Mood::Free | Mood::Asked => false,
        }
    }

    // Makes the call of which an entry may be the first.
    fn call(&mut self, e: Entry) -> bool
        requires at { (first : Whole F Code Context) × IsAt F.machine F.shared_of first self.old.world self.old.hands.items × (first.settings.workers < 64) }
        ensures { (if result then Some (self.new.world, self.new.hands.items) else None) ≡ called F.machine self.old.world self.old.hands.items e }
    {
        let worker = u32::from(e.worker);
        let thread = u32::from(e.thread);
        if worker >= self.world.workers() {
            return false;
        }
        match e.kind {
            kind::OUT | kind::BARRIER => {
                self.find(worker);
                true
            }
            kind::TURN => self.act(worker, thread),
            kind::HOME => self.home(worker, thread),
            _ => false,
        }
    }

    // Whether the entry at `i` of the world's own journal is this one.
    fn wrote(&self, i: u32, e: Entry) -> bool
        ensures { (result ≡ true) ↔ (slice_get self.now.world.log.entries i ≡ Some e) }
    {
        self.world.journal().get(i) == Some(e)
    }

    // Takes the entry at `i`, where it is the one that may come.
    fn takes(&mut self, i: u32, e: Entry) -> bool
        requires at { (first : Whole F Code Context) × (front : List Entry) × (i ≡ length front) × FollowsFront F.machine F.shared_of first front self.old.world self.old.hands.items × (first.settings.workers < 64) }
        ensures { (first : Whole F Code Context) (front : List Entry) → i ≡ length front → FollowsFront F.machine F.shared_of first front self.old.world self.old.hands.items → Takes F.machine F.shared_of first front e self.new.world self.new.hands.items result }
    {
        if i < self.world.journal().len() {
            return self.wrote(i, e);
        }
        if !self.call(e) {
            return false;
        }
        self.wrote(i, e)
    }

    /// Whether the journal is one of a world in which nothing has run, and if so takes it.
    pub(crate) fn follow(&mut self, journal: &Journal) -> bool
        requires fresh { LeadsFromOpening F.machine F.shared_of self.old.world [] self.old.world }
        requires home { self.old.hands.items ≡ replicate most_threads None }
        requires workers { self.old.world.settings.workers < 64 }
        ensures { Comes F.machine F.shared_of self.old.world journal.now.entries self.new.world result }
    {
        for i in 0..journal.len() {
            match journal.get(i) {
                Some(e) if self.takes(i, e) => {}
                _ => return false,
            }
        }
        self.world.journal().len() == journal.len()
    }
}

/// What the threads share at the end of a journal, and the end, if the run is over. `None` exactly where the journal is none of this code
/// under these settings.
pub(crate) fn replay_journal<F: Flat<Code, Context> + Drop, Code: Drop, Context: Drop>(
    alloc: Global,
    code: Arc<Code, Global>,
    settings: &Settings,
    journal: &Journal,
) -> Result<Option<(F, Option<End>)>, NoMemory>
    ensures { IfOk result (λ r. r ≡ option_map (λ s. (s.shared, end_of (F.machine (arc_value code)) (rules_of settings.now) s)) (replay (F.machine (arc_value code)) (rules_of settings.now) (F.opened (arc_value code) settings.now) journal.now.entries)) }
{
    let world = World::<F, Code, Context>::open(alloc, code, settings)?;
    let hands = no_hands(alloc)?;
    let mut driver = Driver { world, hands };
    if !driver.follow(journal) {
        return Ok(None);
    }
    let Driver { world, hands: _ } = driver;
    let end = world.end();
    Ok(Some((world.into_shared(), end)))
}
