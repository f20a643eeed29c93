//! Laws of threads that are asked home, as contracts of functions that do nothing.

ghost use Rattle.flat_homes.specs.Laws.{ThreadsComeHome, TurnsBetweenBarriersAreFew, TurnsOfStructuredCodeAreFew};

/// A thread of the machine that is asked home takes at most L + 2 turns more, where the code has L Looks and steps, whatever the others do
/// between them: by the last it comes home, or is nowhere.
pub fn threads_come_home()
    ensures { ThreadsComeHome }
{}

/// With `every` N, a run of the machine has at most N Turn entries between two barriers, and L + 3 more for each thread that was out when
/// the second came to be wanted, where the code that runs has L Looks and steps, or the code of which it is.
pub fn turns_between_barriers_are_few()
    ensures linear { TurnsBetweenBarriersAreFew }
    ensures structured { TurnsOfStructuredCodeAreFew }
{}
