//! The front of a list of bytes.

ghost use Rattle.std.specs.Prelude.{◌≡◌, ◌≤◌, length, min, take};

/// Copies the front of `bytes` into `buf`: at most `piece` bytes, and no more than there is room
/// for. Answers how many.
pub(crate) fn copy_front(bytes: &[u8], piece: usize, buf: &mut [u8]) -> usize
    ensures count { result ≡ min piece (min (length buf.old) (length bytes.now)) }
    ensures within { result ≤ length bytes.now }
    ensures room { result ≤ length buf.new }
    ensures copied { take result buf.new ≡ take result bytes.now }
{
    let count = piece.min(buf.len().min(bytes.len()));
    buf[..count].copy_from_slice(&bytes[..count]);
    count
}
