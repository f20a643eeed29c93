ghost use Rattle.std.specs.Prelude.{◌≡◌, IfOk};
ghost use Rattle.run_notes.specs.Lines.{bad_code_line, built_line, unsafe_code_line, why_name};

use crate::lines::push_number;
use ak_words::NoMemory;
use pin_checker::Why;
use std::alloc::Global;

// The name of a reason why code isn't safe for moves.
fn name_of_why(why: Why) -> &'static [u8]
    ensures { result.now ≡ why_name why }
{
    match why {
        Why::BadTemp => b"BadTemp",
        Why::NoLook => b"NoLook",
        Why::StaleLook => b"StaleLook",
        Why::NotPinned => b"NotPinned",
    }
}

/// The line that is written to note where code was built, by the number of its bytes.
pub fn built_line(alloc: Global, bytes: usize) -> Result<Vec<u8>, NoMemory>
    ensures { IfOk result (λ line. line.items ≡ built_line bytes) }
{
    let mut line = Vec::from_slice(alloc, b"built: ")?;
    push_number(&mut line, bytes)?;
    line.extend_from_slice(b" bytes\n")?;
    Ok(line)
}

/// The line of bytes that are no code file, by the name of the file, and by how many of them may begin one.
pub fn line_of_bad_code(alloc: Global, name: &str, at: u32) -> Result<Vec<u8>, NoMemory>
    ensures { IfOk result (λ line. line.items ≡ bad_code_line name.now at) }
{
    let mut line = Vec::from_slice(alloc, name.as_bytes())?;
    line.extend_from_slice(b": bad code at ")?;
    push_number(&mut line, at)?;
    line.push(b'\n')?;
    Ok(line)
}

/// The line of code that isn't safe for moves, by the name of the file, and by the place and the reason.
pub fn line_of_unsafe_code(
    alloc: Global,
    name: &str,
    place: u32,
    why: Why,
) -> Result<Vec<u8>, NoMemory>
    ensures { IfOk result (λ line. line.items ≡ unsafe_code_line name.now place why) }
{
    let mut line = Vec::from_slice(alloc, name.as_bytes())?;
    line.extend_from_slice(b": unsafe code at ")?;
    push_number(&mut line, place)?;
    line.extend_from_slice(b": ")?;
    line.extend_from_slice(name_of_why(why))?;
    line.push(b'\n')?;
    Ok(line)
}
