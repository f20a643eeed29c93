//! What comes of an action.

ghost use Rattle.std.specs.Prelude.{◌≡◌, ◌^◌, ◌<◌, Some, None};
ghost use Rattle.handle_words.specs.Handle.{handle_of};

use crate::turned::Turned;
use ak_trace::TrapKind;
use flat_threads::Wait;
use handle_words::make;

/// What comes of an action.
#[derive(Clone, Copy)]
pub(crate) enum Done {
    /// It is done, and gives a word or none.
    Went(Option<u64>, Turned),
    /// It can't be done yet.
    Waits(Wait),
    /// The run ends, by a trap of this word.
    Trap(u64, TrapKind),
    /// The run ends, since a byte would pass the output's limit.
    Full,
}

impl Done {
    /// It is done, and gives nothing.
    pub(crate) fn plain() -> Done
        ensures { result ≡ Done.Went None Turned.Stepped }
    {
        Done::Went(None, Turned::Stepped)
    }

    /// It is done, and gives a word.
    pub(crate) fn went(word: u64) -> Done
        ensures { result ≡ Done.Went (Some word) Turned.Stepped }
    {
        Done::Went(Some(word), Turned::Stepped)
    }

    /// An allocation got an object.
    pub(crate) fn got(id: u32, place: u32) -> Done
        requires { id < 2 ^ 31 }
        ensures { result ≡ Done.Went (Some (handle_of id 0)) (Turned.Got id place) }
    {
        Done::Went(Some(make(id, 0)), Turned::Got { id, place })
    }

    /// An allocation got null.
    pub(crate) fn null() -> Done
        ensures { result ≡ Done.Went (Some 0) Turned.GotNull }
    {
        Done::Went(Some(0), Turned::GotNull)
    }
}
