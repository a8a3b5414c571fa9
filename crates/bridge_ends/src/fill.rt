// Reads from memory.
ghost use Rattle.std.specs.Prelude.{◌≡◌, length, take, min};

/// Copies as many bytes as fit into the start of a buffer, and returns how many.
pub fn fill(buf: &mut [u8], from: &[u8]) -> usize
    ensures count { result ≡ min (length from.now) (length buf.old) }
    ensures front { take result buf.new ≡ take result from.now }
{
    let n = from.len().min(buf.len());
    buf[..n].copy_from_slice(&from[..n]);
    n
}
