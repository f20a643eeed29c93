ghost use Rattle.std.specs.Prelude.{◌≡◌};
ghost use Rattle.run_notes.specs.Statuses.{status_of};

use crate::status::Status;
use ak_trace::End;

/// The status of a run that ended so, where all was written.
pub fn status_of(end: End) -> Status
    ensures { result ≡ status_of end }
{
    match end {
        End::Done(value) => Status::Done(value),
        End::Trap(word, kind) => Status::Trap(word, kind),
        End::AllBlocked => Status::AllBlocked,
        End::TurnLimit => Status::TurnLimit,
        End::OutputLimit => Status::OutputLimit,
        End::StackLimit(thread) => Status::StackLimit(thread),
    }
}
