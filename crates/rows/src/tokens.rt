//! The tokens of texts, with what they stand for and the bytes that they span, and where texts are refused.

ghost use Rattle.std.specs.Prelude.{◌≤◌, length, IfOk};
ghost use Rattle.c_lex.specs.Tokens.{AreTokens};

use ak_words::Num;
use c_lex::{CompileFault, Token, TokenKind, lex, literal};
use std::alloc::{AllocError, Global};
use std::{fs, io};

// The most bytes that a text may have.
const MOST_BYTES: usize = 1_048_576;

// The tokens of a text, as the layer above asks for them.
fn tokens_of(alloc: Global, text: &[u8]) -> Result<Vec<Token>, CompileFault>
    requires { length text.now ≤ 1048576 }
    ensures { IfOk result (λ tokens. AreTokens text.now tokens.items) }
{
    lex(alloc, text)
}

// The bytes of a row: two hexadecimal digits behind a backtick are a byte.
fn bytes_of(alloc: Global, row: &str) -> Result<Vec<u8>, AllocError> {
    let mut bytes = Vec::new(alloc);
    for (index, part) in row.split('`').enumerate() {
        let code = part.get(..2).unwrap_or("");
        match u8::from_str_radix(code, 16) {
            Ok(byte) if index > 0 => {
                bytes.push(byte)?;
                bytes.extend_from_slice(part.get(2..).unwrap_or("").as_bytes())?;
            }
            _ => bytes.extend_from_slice(part.as_bytes())?,
        }
    }
    Ok(bytes)
}

// Prints a constant: its value, whether its type is signed, and the bits of the type.
fn print_number(rt: &HostRuntime, sort: &str, number: Num) -> io::Result<()> {
    let sign = if number.ty.signed {
        "signed"
    } else {
        "unsigned"
    };
    print!(rt;
        "  {sort} {}, {sign} of {} bits",
        number.value, number.ty.bits
    )
}

// Prints each token of a text in a line of its own.
fn print_tokens(rt: &HostRuntime, text: &[u8], tokens: &[Token]) -> io::Result<()>
    requires { AreTokens text.now tokens.now }
{
    for token in tokens {
        match token.kind {
            TokenKind::Name => print!(rt; "  name")?,
            TokenKind::Word(word) => print!(rt; "  word {}", word.number())?,
            TokenKind::Int(number) => print_number(rt, "int", number)?,
            TokenKind::Char(number) => print_number(rt, "char", number)?,
            TokenKind::Text => {
                let Ok(bytes) = literal(rt.alloc(), text, *token) else {
                    return Err(io::Error::from(io::ErrorKind::OutOfMemory));
                };
                print!(rt; "  string {:?}", bytes.as_slice())?;
            }
            TokenKind::Mark(mark) => print!(rt; "  mark {}", mark.number())?,
            TokenKind::End => print!(rt; "  end")?,
        }
        println!(rt; " at {} to {}", token.from, token.to)?;
    }
    Ok(())
}

// Prints where and why a text is refused.
fn print_fault(rt: &HostRuntime, fault: CompileFault) -> io::Result<()> {
    match fault {
        CompileFault::Refused(refusal) => {
            println!(rt; "  {:?} at {}", refusal.kind, refusal.place)
        }
        CompileFault::NoMemory => Err(io::Error::from(io::ErrorKind::OutOfMemory)),
    }
}

// Prints a row, and what comes of its text.
fn show(rt: &HostRuntime, row: &str) -> io::Result<()> {
    let alloc = rt.alloc();
    println!(rt; "{row}")?;
    let text = bytes_of(alloc, row)?;
    if text.len() > MOST_BYTES {
        return Err(io::Error::from(io::ErrorKind::InvalidData));
    }
    match tokens_of(alloc, &text) {
        Ok(tokens) => print_tokens(rt, &text, &tokens),
        Err(fault) => print_fault(rt, fault),
    }
}

/// Prints the tokens of each row of the table.
pub fn run(rt: &HostRuntime) -> io::Result<()> {
    let table = fs::read_to_string(rt, "spans.txt")?;
    for row in table.lines() {
        if row.starts_with("== ") {
            println!(rt; "{row}")?;
        } else {
            show(rt, row)?;
        }
    }
    Ok(())
}
