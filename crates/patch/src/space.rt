// Room for a number of bytes that is known before the call.
ghost use Rattle.std.specs.Prelude.{◌≡◌, length, replicate};

// Bytes to write over, all of them 0. Lending them as a slice needs how many they are.
pub fn blank_bytes<const N: usize>() -> [u8; N]
    ensures blank { result ≡ replicate N 0 }
    ensures many { length result ≡ N }
{
    [0; N]
}
