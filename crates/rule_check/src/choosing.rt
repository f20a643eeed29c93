//! The next turn of the seeded order.

ghost use Rattle.std.specs.Prelude.{◌≡◌, ◌<◌, IfOk, IsSome, MatchOption, ⊤, length};
ghost use Rattle.block_store.specs.Runs.{own_at};
ghost use Rattle.block_store.specs.declared.values.Answer.TheVariants as answers;
ghost use Rattle.c_meaning.specs.Meaning.{program};
ghost use Rattle.block_meaning.specs.Asking.{Wish, a_thread, AreAsked, told};
ghost use Rattle.block_meaning.specs.Running.{running_of};
ghost use Rattle.rule_check.specs.Seeded.{answer_to, looked_at};
ghost use Rattle.rule_check.specs.inner.Steps.{AllRun, IsTried, IsFound};

use ak_words::NoMemory;
use block_meaning::{Answer, SourceRun, Turned};

/// A turn that was chosen, and what came of it.
#[derive(Clone, Copy)]
pub struct Next {
    /// Its thread.
    pub thread: u32,
    /// The answer that it was told.
    pub answer: Answer,
    /// What came of it.
    pub turned: Turned,
}

// The answer to a turn that doesn't take Plain, by the bytes that it asks for: it asks for a thread, where it asks for none.
fn answer_to(made: u64, asked: Option<u64>) -> Answer
    ensures bytes { MatchOption asked ⊤ (λ n. (w : Wish) → AreAsked w asked → result ≡ answer_to made w) }
    ensures thread { MatchOption asked (result ≡ answer_to made a_thread) (λ n. ⊤) }
{
    match asked {
        Some(bytes) => {
            if bytes > 16777216 {
                Answer::None
            } else {
                Answer::Got
            }
        }
        None => { if made < 64 { Answer::Got } else { Answer::None } }
    }
}

// The next turn of a thread that runs, under the answer that it takes. In a well formed program each turn takes one.
fn try_turn(run: &mut SourceRun, thread: u32) -> Result<(Answer, Turned), NoMemory>
    requires { IsSome (told (program (running_of run.old).typed) (running_of run.old).state thread answers.Plain) }
    ensures tried { IfOk result (λ t. IsTried (running_of run.old).typed (running_of run.old).state thread t.0 t.1 (running_of run.new).state) }
    ensures program { (running_of run.new).typed ≡ (running_of run.old).typed }
{
    match run.turn(thread, Answer::Plain)? {
        Turned::Unfit => {
            let answer = answer_to(run.threads(), run.asked());
            match run.turn(thread, answer)? {
                Turned::Unfit => Err(NoMemory),
                Turned::Blocked => Err(NoMemory),
                turned => Ok((answer, turned)),
            }
        }
        turned => Ok((Answer::Plain, turned)),
    }
}

// The next turn of the first of these threads that doesn't wait.
fn first_of(run: &mut SourceRun, threads: &[u32]) -> Result<Option<Next>, NoMemory>
    requires main { IsSome (own_at (running_of run.old).state.own 0) }
    requires all { AllRun (running_of run.old).state.own threads.now }
    ensures found { IfOk result (λ n. IsFound (running_of run.old).typed (running_of run.old).state threads.now n (running_of run.new).state) }
    ensures program { (running_of run.new).typed ≡ (running_of run.old).typed }
{
    for thread in threads {
        let (answer, turned) = try_turn(run, *thread)?;
        match turned {
            Turned::Blocked => {}
            turned => {
                return Ok(Some(Next {
                    thread: *thread,
                    answer,
                    turned,
                }));
            }
        }
    }
    Ok(None)
}

/// The next turn, of the thread at the draw modulo their number, or of the next one round that doesn't wait.
pub fn next_turn(run: &mut SourceRun, threads: &[u32], draw: u32) -> Result<Option<Next>, NoMemory>
    requires main { IsSome (own_at (running_of run.old).state.own 0) }
    requires all { AllRun (running_of run.old).state.own threads.now }
    requires some { 0 < length threads.now }
    ensures found { IfOk result (λ n. IsFound (running_of run.old).typed (running_of run.old).state (looked_at draw threads.now) n (running_of run.new).state) }
    ensures program { (running_of run.new).typed ≡ (running_of run.old).typed }
{
    let place = draw as usize % threads.len();
    match first_of(run, &threads[place..])? {
        Some(next) => Ok(Some(next)),
        None => {
            let found = first_of(run, &threads[..place])?;
            Ok(found)
        }
    }
}
