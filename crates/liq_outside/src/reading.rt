//! Bytes in memory that are read.
ghost use Rattle.std.specs.Prelude.{◌≡◌, ◌-◌, ◌++◌, length, take, drop, min};

// Reads from a place on into the front of `buf`, so many bytes at most, and says how many.
pub fn read_part(bytes: &[u8], at: usize, most: usize, buf: &mut [u8]) -> usize
    ensures count { result ≡ min (min (length buf.old) most) (length bytes.now - at) }
    ensures copied { buf.new ≡ take result (drop at bytes.now) ++ drop result buf.old }
{
    let start = bytes.len().min(at);
    let rest = &bytes[start..];
    let count = buf.len().min(most).min(rest.len());
    buf[..count].copy_from_slice(&rest[..count]);
    count
}
