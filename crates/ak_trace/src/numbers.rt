//! The numbers of the kinds and hows, as the definitions have them.
ghost use Rattle.std.specs.Prelude.{◌≡◌};
ghost use Rattle.ak_trace.specs.declared.kind.TheConstants.{OUT, HOME, TURN, BARRIER, SERVED};
ghost use Rattle.ak_trace.specs.declared.how.TheConstants.{LOOK, PLAIN_STEP, MALLOC_GOT, MALLOC_NULL, THREAD_MADE, THREAD_REFUSED, BUSY, WAITS_FOR_ROOM, REST, END, TRAP, OUTPUT_LIMIT, NO_STACK, FOR_ROOM, FOR_EVERY, EVACUATION};
ghost use Rattle.ak_trace.specs.Kinds.{out, home, turn, barrier, served};
ghost use Rattle.ak_trace.specs.Hows.{look, plain_step, malloc_got, malloc_null, thread_made, thread_refused, busy, waits_for_room, rest, end, trap, output_limit, no_stack, for_room, for_every, evacuation};

/// A law: the constants of `kind` and `how` are the numbers of the definitions.
pub fn constants_are_the_numbers()
    ensures kinds { (OUT ≡ out) × (HOME ≡ home) × (TURN ≡ turn) × (BARRIER ≡ barrier) × (SERVED ≡ served) }
    ensures steps { (LOOK ≡ look) × (PLAIN_STEP ≡ plain_step) × (BUSY ≡ busy) × (REST ≡ rest) × (END ≡ end) }
    ensures choices { (MALLOC_GOT ≡ malloc_got) × (MALLOC_NULL ≡ malloc_null) × (THREAD_MADE ≡ thread_made) × (THREAD_REFUSED ≡ thread_refused) × (WAITS_FOR_ROOM ≡ waits_for_room) }
    ensures stops { (TRAP ≡ trap) × (OUTPUT_LIMIT ≡ output_limit) × (NO_STACK ≡ no_stack) }
    ensures barriers { (FOR_ROOM ≡ for_room) × (FOR_EVERY ≡ for_every) × (EVACUATION ≡ evacuation) }
{}
