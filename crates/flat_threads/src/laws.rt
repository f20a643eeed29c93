//! Laws of a thread that goes on alone, as contracts of functions that do nothing.

ghost use Rattle.flat_threads.specs.Laws.{ContextsGoOn, LocalIgnoresSettings};

/// What a thread does alone doesn't depend on the settings.
pub fn local_ignores_settings()
    ensures { LocalIgnoresSettings }
{}

/// A context that has gone on alone is one of the program's, and has stopped.
pub fn contexts_go_on()
    ensures { ContextsGoOn }
{}
