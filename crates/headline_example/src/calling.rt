//! The call.

ghost use Rattle.std.specs.Prelude.{◌≡◌, map, string_bytes, Some};
ghost use Rattle.alaska_run.specs.Ending.{ending_view};
ghost use Rattle.run_edges.specs.Files.{shelved};
ghost use Rattle.run_edges.specs.Sinks.{channel};
ghost use Rattle.headline_example.specs.Text.{text};
ghost use Rattle.headline_example.specs.Prints.{heap_words, heap_name, CameTo};

use ak_crew::Gate;
use ak_io::{Shelf, Sink};
use alaska_run::{Ending, alaska};
use std::alloc::Global;
use std::marker::Sync;
use std::sync::Wait;
use std::thread::Threads;

/// Calls `alaska heap.c` with one worker and the default settings, where the shelf holds the text
/// `int main(void){int *p=malloc(4);*p=41;*p=*p+1;printf("%d\n",*p);free(p);return 0;}` under that name. What `out` gained is 42 and a
/// newline, and the call ended with main's 0; or memory was wanting before anything ran, or a read of the file failed, and `out` gained
/// nothing; or a write failed, and `out` gained a first part of that. It ends in no other way.
pub fn call_heap_text<R: Threads + Wait + Sync, F: Shelf, O: Sink, N: Sink, G: Gate>(
    rt: &R,
    alloc: Global,
    words: &[String],
    shelf: &mut F,
    out: &mut O,
    note: &mut N,
    gate: &G,
) -> Ending
    requires words { map string_bytes words.now ≡ heap_words }
    requires told { F.contents shelf.old heap_name ≡ Some text }
    ensures { CameTo (shelved F.contents F.faults shelf.old shelf.new heap_name) (channel O.contents O.faults out.old out.new) (channel N.contents N.faults note.old note.new) (ending_view result) }
{
    alaska_run::laws::read_each_text_once();
    crate::text_laws::it_has_its_tree();
    crate::text_laws::its_runs_are_known();
    crate::walk_laws::journals_have_room();
    alaska(rt, alloc, words, shelf, out, note, gate)
}
