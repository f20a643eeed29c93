ghost use Rattle.std.specs.Prelude.{◌≡◌, ◌^◌, ◌<◌, ◌↔◌, IsTrue};
ghost use Rattle.handle_words.specs.Handle.{IsHandle, added, handle_of, id_of, offset_of};

// The top bit, which every handle has.
const MARK: u64 = 1 << 63;

/// The handle of the byte at `offset` of the object with this id: 2^63 + id * 2^32 + offset (this
/// project's profile).
pub fn make(id: u32, offset: u32) -> u64
    requires { id < 2 ^ 31 }
    ensures word { result ≡ handle_of id offset }
    ensures handle { IsHandle result }
    ensures id { id_of result ≡ id }
    ensures offset { offset_of result ≡ offset }
{
    MARK + (u64::from(id) << 32) + u64::from(offset)
}

/// Whether a word is a handle; any other word is a plain address.
pub fn is_handle(w: u64) -> bool
    ensures { IsTrue result ↔ IsHandle w }
{
    w >= MARK
}

/// A handle's id.
pub fn id(w: u64) -> u32
    requires { IsHandle w }
    ensures value { result ≡ id_of w }
    ensures below { result < 2 ^ 31 }
    ensures round_trip { handle_of result (offset_of w) ≡ w }
{
    ((w - MARK) >> 32) as u32
}

/// A handle's offset, in bytes.
pub fn offset(w: u64) -> u32
    requires { IsHandle w }
    ensures value { result ≡ offset_of w }
    ensures round_trip { handle_of (id_of w) result ≡ w }
{
    (w % (1 << 32)) as u32
}

/// The word that lies `n` bytes further: of a handle the offset grows, modulo 2^32, and the id
/// stays; any other word grows modulo 2^64.
pub fn add(w: u64, n: u64) -> u64
    ensures value { result ≡ added w n }
    ensures same_kind { IsHandle w → IsHandle result }
    ensures same_id { IsHandle w → id_of result ≡ id_of w }
{
    if is_handle(w) {
        make(id(w), offset(w).wrapping_add((n % (1 << 32)) as u32))
    } else {
        w.wrapping_add(n)
    }
}
