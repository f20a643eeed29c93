ghost use Rattle.std.specs.Prelude.{◌≡◌, ◌+◌, ◌≤◌, ◌++◌, length, take, drop};

// How many bytes are read before they are written, where bytes move over some of their own.
const PART: usize = 64;

/// Leaves from index `to` on the `n` bytes that stood from index `from` on, also where the two overlap.
pub fn move_bytes(bytes: &mut [u8], to: usize, from: usize, n: usize)
    requires target { to + n ≤ length bytes.old }
    requires source { from + n ≤ length bytes.old }
    ensures { bytes.new ≡ take to bytes.old ++ take n (drop from bytes.old) ++ drop (to + n) bytes.old }
{
    // From one slice into another the compiler can take the C library's copy; within one it goes by a loop of its own.
    if to + n <= from {
        let (front, back) = bytes.split_at_mut(from);
        front[to..to + n].copy_from_slice(&back[..n]);
    } else if from + n <= to {
        let (front, back) = bytes.split_at_mut(to);
        back[..n].copy_from_slice(&front[from..from + n]);
    } else if to < from {
        move_down(bytes, to, from, n);
    } else {
        bytes.copy_within(from..from + n, to);
    }
}

// The same where `to` is no higher than `from`: no part is read from where an earlier one was written.
#[tactic(auto, using(crate::proofs::Moved::moved_more))]
fn move_down(bytes: &mut [u8], to: usize, from: usize, n: usize)
    requires below { to ≤ from }
    requires source { from + n ≤ length bytes.old }
    ensures { bytes.new ≡ take to bytes.old ++ take n (drop from bytes.old) ++ drop (to + n) bytes.old }
{
    let parts = n / PART;
    for k in 0..parts {
        move_part(bytes, to + k * PART, from + k * PART);
    }
    let done = parts * PART;
    bytes.copy_within(from + done..from + n, to + done);
}

// Leaves from index `to` on the bytes of one part, which stood from index `from` on.
#[inline(always)]
fn move_part(bytes: &mut [u8], to: usize, from: usize)
    requires target { to + 64 ≤ length bytes.old }
    requires source { from + 64 ≤ length bytes.old }
    ensures { bytes.new ≡ take to bytes.old ++ take 64 (drop from bytes.old) ++ drop (to + 64) bytes.old }
{
    let mut part = [0; PART];
    part.copy_from_slice(&bytes[from..from + PART]);
    bytes[to..to + PART].copy_from_slice(&part);
}
