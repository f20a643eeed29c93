//! An evacuation: objects move out of thin sub-heaps.

ghost use Rattle.std.specs.Prelude.{◌≡◌, All};
ghost use Rattle.flat_rules.specs.Lawful.{AreHome, IsOfRun};
ghost use Rattle.flat_threads.specs.Belonging.{IsContextOf};
ghost use Rattle.flat_machine.specs.Clearing.{cleared_by, evacuation_here};
ghost use Rattle.flat_machine.specs.Machine.{machine_of};
ghost use Rattle.flat_machine.specs.Shares.{IsSharedOf, image_of};
ghost use Rattle.flat_machine.specs.Sweeping.{at_home};

use crate::barriers::{bytes_of, entry};
use crate::pinning::pin_all;
use crate::shared::Shared;
use ak_trace::{how, kind};
use evacuate::evacuate;
use flat_threads::{Context, Program};

/// Moves all objects out of thin sub-heaps, where each finds a place in a lower one and no listed slot names one, and answers how many
/// sub-heaps that empties. It is told by one entry. Where no object moves nothing changes, and [`Shared::made`] is empty.
pub fn evacuation(shared: &mut Shared, program: &Program, home: &[Option<Context>]) -> u32
    requires shared { IsSharedOf program.now shared.old }
    requires contexts { All (IsOfRun (machine_of program.now) (IsContextOf program.now)) home.now }
    requires home { AreHome (machine_of program.now) shared.old home.now }

    ensures emptied { result ≡ (evacuation_here (image_of program.now shared.old) (at_home shared.old home.now)).emptied }
    ensures shared { shared.new ≡ (cleared_by program.now shared.old home.now).shared }
{
    pin_all(
        &shared.arena,
        program,
        &home[..shared.threads.len()],
        &mut shared.words,
        &mut shared.pins,
    );
    shared.moves.clear();
    let emptied = evacuate(
        shared.arena.heaps(),
        &shared.pins,
        &mut shared.tails,
        &mut shared.moves,
    );
    shared.made.clear();
    if shared.moves.is_empty() {
        return emptied;
    }
    shared.arena.apply(&shared.moves, &shared.pins);
    shared
        .made
        .push_reserved(entry(kind::BARRIER, 0, how::EVACUATION, 0, 0));
    shared.moved_objects = shared
        .moved_objects
        .saturating_add(shared.moves.len() as u64);
    shared.moved_bytes = shared.moved_bytes.saturating_add(bytes_of(&shared.moves));
    shared.emptied = shared.emptied.saturating_add(emptied);
    emptied
}
