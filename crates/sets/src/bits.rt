// Single bits of a number, counted from the lowest.
ghost use Rattle.std.specs.Prelude.{◌≡◌, cond, ◌^◌, ◌<◌};
ghost use Rattle.std.specs.Int.Bits.{bit_or};
ghost use Rattle.rules.specs.Preempt.{bit_at};

// The number with one bit set.
pub fn power(j: usize) -> u64
    requires { j < 64 }
    ensures { result ≡ 2 ^ j }
{
    1u64 << j
}

// Whether bit j of a number is set.
pub fn is_set(bits: u64, j: usize) -> bool
    requires { j < 64 }
    ensures { result ≡ bit_at bits j }
{
    (bits >> j) % 2 == 1
}

// The number with bit j set besides.
pub fn with_bit(bits: u64, j: usize) -> u64
    requires { j < 64 }
    ensures { result ≡ bit_or bits (2 ^ j) }
{
    bits | power(j)
}

// The number with bit j set besides, where that is wanted. A loop that tests each place calls it once for each.
pub fn with_bit_if(bits: u64, j: usize, wanted: bool) -> u64
    requires { j < 64 }
    ensures { result ≡ cond wanted (bit_or bits (2 ^ j)) bits }
{
    if wanted {
        return with_bit(bits, j);
    }
    bits
}
