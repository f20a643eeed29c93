ghost use Rattle.std.specs.Prelude.{◌≡◌, ◌+◌, ◌≤◌, drop, length};
ghost use Rattle.std.specs.List.{prefix_len};
ghost use Rattle.c_lex.specs.inner.Classes.{is_in};
ghost use Rattle.c_lex.specs.Directives.{past, begins};

/// A class of bytes that stand in a row.
#[derive(Clone, Copy)]
pub enum Class {
    /// White space.
    White,
    /// 0 to 9.
    Digit,
    /// 0 to 7.
    OctalDigit,
    /// 0 to 9, A to F, a to f.
    HexDigit,
    /// A letter or `_`.
    Letter,
    /// What a name goes on with.
    Name,
    /// What doesn't end a line.
    Line,
    /// What stands before the `>` of a header.
    BeforeBracket,
}

impl Class {
    /// Whether the byte is of the class.
    pub fn has(self, byte: u8) -> bool
        ensures { result ≡ is_in self byte }
    {
        match self {
            Class::White => matches!(byte, b'\t'..=b'\r' | b' '),
            Class::Digit => byte.is_ascii_digit(),
            Class::OctalDigit => matches!(byte, b'0'..=b'7'),
            Class::HexDigit => byte.is_ascii_hexdigit(),
            Class::Letter => byte.is_ascii_alphabetic() || byte == b'_',
            Class::Name => byte.is_ascii_alphanumeric() || byte == b'_',
            Class::Line => byte != b'\n',
            Class::BeforeBracket => byte != b'>',
        }
    }
}

/// How many bytes of the class the bytes begin with.
pub fn run_len(class: Class, bytes: &[u8]) -> usize
    ensures len { result ≡ prefix_len (is_in class) bytes.now }
    ensures within { result ≤ length bytes.now }
{
    for (i, byte) in bytes.iter().enumerate() {
        if !class.has(*byte) {
            return i;
        }
    }
    bytes.len()
}

/// Where the bytes of the class end that stand from a place on.
pub fn past(class: Class, bytes: &[u8], from: usize) -> usize
    requires { from ≤ length bytes.now }
    ensures place { result ≡ past (is_in class) bytes.now from }
    ensures later { from ≤ result }
    ensures within { result ≤ length bytes.now }
{
    from + run_len(class, &bytes[from..])
}

/// Whether the first byte, if there is one, is of the class.
pub fn begins(class: Class, bytes: &[u8]) -> bool
    ensures { result ≡ begins (is_in class) bytes.now }
{
    match bytes {
        [] => false,
        [byte, ..] => class.has(*byte),
    }
}
