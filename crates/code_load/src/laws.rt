//! What is promised of loading itself.

ghost use Rattle.code_load.specs.Laws.{LoadsWhatWasSaved, LoadingHasOneAnswer};

/// Loading a file of safe code, spelled without the lists of its calls, gives that code.
pub fn loads_what_was_saved()
    ensures { LoadsWhatWasSaved }
{}

/// What loading gives is told by the bytes, but for want of memory.
pub fn loading_has_one_answer()
    ensures { LoadingHasOneAnswer }
{}
