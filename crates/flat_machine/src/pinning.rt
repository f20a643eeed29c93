//! Which objects may not move, with all threads at home.

ghost use Rattle.std.specs.Prelude.{◌≡◌, ℕ, ◌+◌, ◌*◌, ◌≤◌, ◌++◌, ◌↔◌, All, Contains, length, flat_map, true};
ghost use Rattle.move_plan.specs.Holding.{is_pinned};
ghost use Rattle.arena_meaning.specs.Arena.{places_named};
ghost use Rattle.flat_rules.specs.Lawful.{IsOfRun};
ghost use Rattle.flat_threads.specs.Belonging.{IsContextOf};
ghost use Rattle.flat_machine.specs.Machine.{machine_of};
ghost use Rattle.flat_machine.specs.inner.Swept.{handles_home};

use defrag_move::Arena;
use flat_threads::{Context, Program};
use handle_table::PinWords;
use move_plan::Pins;

/// Pins just the objects that a listed slot names, of any call of these threads.
pub(crate) fn pin_all(
    arena: &Arena,
    program: &Program,
    home: &[Option<Context>],
    words: &mut PinWords,
    pins: &mut Pins,
)
    requires contexts { All (IsOfRun (machine_of program.now) (IsContextOf program.now)) home.now }
    requires few { length home.now ≤ 64 }
    requires words_room { words.old.room ≡ 65536 }
    requires pins_room { pins.old.room ≡ 65536 }
    ensures pinned { (at : ℕ) → (is_pinned pins.new at ≡ true) ↔ Contains (places_named arena.now (flat_map (handles_home program.now) home.now)) at }
    ensures words_room { words.new.room ≡ 65536 }
    ensures pins_room { pins.new.room ≡ 65536 }
{
    words.clear();
    unite_all(program, home, words);
    pins.clear();
    arena.pins_of(words, pins);
}

// Gathers the handles in listed slots, of all calls of the threads at home.
fn unite_all(program: &Program, home: &[Option<Context>], into: &mut PinWords)
    requires contexts { All (IsOfRun (machine_of program.now) (IsContextOf program.now)) home.now }
    requires room { length into.old.words + 1024 * length home.now ≤ into.old.room }
    ensures united { into.new ≡ record into.old { words = into.old.words ++ flat_map (handles_home program.now) home.now } }
    ensures few { length into.new.words ≤ length into.old.words + 1024 * length home.now }
{
    for place in home {
        if let Some(ctx) = place {
            ctx.pin(program, into);
        }
    }
}
