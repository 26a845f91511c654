// The digest of a buffer, as docs/STREAM.md describes it.
ghost use Rattle.std.specs.Prelude.{◌<◌};

use crate::little_endian::LittleEndian;

const MODULUS: u64 = 4_294_967_291;

// The digest with one byte more.
fn with_byte(digest: u64, byte: u8) -> u64
    requires { digest < 4294967291 }
    ensures { result < 4294967291 }
{
    (digest * 65_599 + u64::from(byte) + 1) % MODULUS
}

// The digest with bytes more.
fn with_bytes(digest: u64, bytes: &[u8]) -> u64
    requires { digest < 4294967291 }
    ensures { result < 4294967291 }
{
    let mut sum = digest;
    for byte in bytes {
        sum = with_byte(sum, *byte);
    }
    sum
}

// The digest of bytes.
pub fn of_bytes(bytes: &[u8]) -> u64
    ensures { result < 4294967291 }
{
    with_bytes(1, bytes)
}

// The digest of numbers: of a map, of a room for ids or of one for figures.
pub fn of_numbers<T: LittleEndian<WIDTH>, const WIDTH: usize>(numbers: &[T]) -> u64
    ensures { result < 4294967291 }
{
    let mut sum = 1;
    for number in numbers {
        sum = with_bytes(sum, &number.bytes());
    }
    sum
}
