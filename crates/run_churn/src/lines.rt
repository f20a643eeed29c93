//! The lines of a function and of its call.
ghost use Rattle.std.specs.Prelude.{◌≡◌, ◌+◌, ◌≤◌, ◌++◌, decimal, vec_len, OnOk};
ghost use Rattle.run_churn.specs.Text.{ask, call, function, give_up, slot, write};

use crate::draws::Choice;
use ak_words::NoMemory;
use itoa::Buffer;

// Writes a number in decimal digits.
fn push_number(text: &mut Vec<u8>, number: u32) -> Result<(), NoMemory>
    ensures items { OnOk result (text.new.items ≡ text.old.items ++ decimal number) }
    ensures len { OnOk result (vec_len text.new ≤ vec_len text.old + 10) }
{
    let mut buffer = Buffer::new();
    text.extend_from_slice(buffer.format(number).as_bytes())?;
    Ok(())
}

// Writes a slot.
fn push_slot(text: &mut Vec<u8>, number: u32) -> Result<(), NoMemory>
    ensures items { OnOk result (text.new.items ≡ text.old.items ++ slot number) }
    ensures len { OnOk result (vec_len text.new ≤ vec_len text.old + 16) }
{
    text.extend_from_slice(b"slot[")?;
    push_number(text, number)?;
    text.extend_from_slice(b"]")?;
    Ok(())
}

// Writes that a slot gives up its object.
fn push_give_up(text: &mut Vec<u8>, number: u32) -> Result<(), NoMemory>
    ensures items { OnOk result (text.new.items ≡ text.old.items ++ give_up number) }
    ensures len { OnOk result (vec_len text.new ≤ vec_len text.old + 80) }
{
    text.extend_from_slice(b"if(")?;
    push_slot(text, number)?;
    text.extend_from_slice(b"){sum=sum+")?;
    push_slot(text, number)?;
    text.extend_from_slice(b"[0];free(")?;
    push_slot(text, number)?;
    text.extend_from_slice(b");}")?;
    Ok(())
}

// Writes that a slot asks for so many bytes.
fn push_ask(text: &mut Vec<u8>, number: u32, bytes: u32) -> Result<(), NoMemory>
    ensures items { OnOk result (text.new.items ≡ text.old.items ++ ask number bytes) }
    ensures len { OnOk result (vec_len text.new ≤ vec_len text.old + 40) }
{
    push_slot(text, number)?;
    text.extend_from_slice(b"=malloc(")?;
    push_number(text, bytes)?;
    text.extend_from_slice(b");")?;
    Ok(())
}

// Writes that the first byte of a slot's object, where there is one, is this.
fn push_write(text: &mut Vec<u8>, number: u32, byte: u32) -> Result<(), NoMemory>
    ensures items { OnOk result (text.new.items ≡ text.old.items ++ write number byte) }
    ensures len { OnOk result (vec_len text.new ≤ vec_len text.old + 60) }
{
    text.extend_from_slice(b"if(")?;
    push_slot(text, number)?;
    text.extend_from_slice(b")")?;
    push_slot(text, number)?;
    text.extend_from_slice(b"[0]=")?;
    push_number(text, byte)?;
    text.extend_from_slice(b";")?;
    Ok(())
}

/// Writes the line of a function.
pub fn push_function(text: &mut Vec<u8>, k: u32, choice: Choice) -> Result<(), NoMemory>
    ensures items { OnOk result (text.new.items ≡ text.old.items ++ function k choice.slot choice.bytes choice.byte) }
    ensures len { OnOk result (vec_len text.new ≤ vec_len text.old + 210) }
{
    text.extend_from_slice(b"void f")?;
    push_number(text, k)?;
    text.extend_from_slice(b"(void){")?;
    push_give_up(text, choice.slot)?;
    push_ask(text, choice.slot, choice.bytes)?;
    push_write(text, choice.slot, choice.byte)?;
    text.extend_from_slice(b"}\n")?;
    Ok(())
}

/// Writes the line of a call.
pub fn push_call(text: &mut Vec<u8>, k: u32) -> Result<(), NoMemory>
    ensures items { OnOk result (text.new.items ≡ text.old.items ++ call k) }
    ensures len { OnOk result (vec_len text.new ≤ vec_len text.old + 16) }
{
    text.extend_from_slice(b"f")?;
    push_number(text, k)?;
    text.extend_from_slice(b"();\n")?;
    Ok(())
}
