//! What a turn of a journal is told.
ghost use Rattle.std.specs.Prelude.{◌≡◌};
ghost use Rattle.flat_meaning.specs.Journals.{told};

use block_store::Answer;

/// What a turn is told that a journal tells.
pub fn told(answer: ak_trace::Answer) -> Answer
    ensures { result ≡ told answer }
{
    match answer {
        ak_trace::Answer::Plain => Answer::Plain,
        ak_trace::Answer::Got => Answer::Got,
        ak_trace::Answer::None => Answer::None,
    }
}
