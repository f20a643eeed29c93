//! The text.
ghost use Rattle.std.specs.Prelude.{◌≡◌, ◌+◌, ◌*◌, ◌≤◌, ◌++◌, length, vec_len, IfOk, OnOk, Some};
ghost use Rattle.flat_rules.specs.Draws.{draws, seeded};
ghost use Rattle.run_churn.specs.Text.{calls, functions, text};

use crate::draws::Draws;
use crate::lines::{push_call, push_function};
use ak_words::NoMemory;
use std::alloc::Global;

// Writes the functions.
fn push_functions(text: &mut Vec<u8>, seed: u64, size: u32) -> Result<(), NoMemory>
    ensures items { OnOk result (text.new.items ≡ text.old.items ++ functions 0 (draws (3 * size) (seeded (Some seed)))) }
    ensures len { OnOk result (vec_len text.new ≤ vec_len text.old + 210 * size) }
{
    let mut draws = Draws::of_seed(seed);
    for k in 0..size {
        push_function(text, k, draws.choose())?;
    }
    Ok(())
}

// Writes the calls.
fn push_calls(text: &mut Vec<u8>, size: u32) -> Result<(), NoMemory>
    ensures items { OnOk result (text.new.items ≡ text.old.items ++ calls 0 size) }
    ensures len { OnOk result (vec_len text.new ≤ vec_len text.old + 16 * size) }
{
    for k in 0..size {
        push_call(text, k)?;
    }
    Ok(())
}

/// The text of mode churn: a C program of `size` functions, which `main` calls in turn. Each gives up the object of one of 64 slots, and asks for
/// another in its place; draws from the seed choose the slot, the bytes that are asked for, and what is written to the first of them. The program
/// prints the sum of all that was written.
#[tactic(auto, unfolding(crate::specs::Text::text))]
pub fn churn_text(alloc: Global, seed: u64, size: u32) -> Result<Vec<u8>, NoMemory>
    requires { (1 ≤ size) × (size ≤ 4000) }
    ensures text { IfOk result (λ t. t.items ≡ text seed size) }
    ensures short { IfOk result (λ t. length t.items ≤ 1048576) }
{
    let mut text = Vec::from_slice(
        alloc,
        b"#include <stdio.h>\n#include <stdlib.h>\nchar *slot[64];\nlong sum;\n",
    )?;
    push_functions(&mut text, seed, size)?;
    text.extend_from_slice(b"int main(void){\n")?;
    push_calls(&mut text, size)?;
    text.extend_from_slice(
        b"for(int i=0;i<64;i++)if(slot[i])sum=sum+slot[i][0];\nprintf(\"%ld\\n\",sum);\nreturn 0;}\n",
    )?;
    Ok(text)
}
