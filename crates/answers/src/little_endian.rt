// Numbers as the stream and the digest have them.
ghost use Rattle.std.specs.Prelude.{◌≤◌};
ghost use Rattle.std.proofs.Common.{lit≤};

// A number of which the stream has WIDTH bytes, the lowest first.
pub trait LittleEndian<const WIDTH: usize>: Copy + Drop {
    fn of_bytes(bytes: [u8; WIDTH]) -> Self;

    fn bytes(self) -> [u8; WIDTH];

    ghost narrow: { WIDTH ≤ 8 };
}

impl LittleEndian<2> for u16 {
    fn of_bytes(bytes: [u8; 2]) -> u16 {
        u16::from_le_bytes(bytes)
    }

    fn bytes(self) -> [u8; 2] {
        self.to_le_bytes()
    }

    ghost narrow = { lit≤ tt };
}

impl LittleEndian<4> for u32 {
    fn of_bytes(bytes: [u8; 4]) -> u32 {
        u32::from_le_bytes(bytes)
    }

    fn bytes(self) -> [u8; 4] {
        self.to_le_bytes()
    }

    ghost narrow = { lit≤ tt };
}

impl LittleEndian<8> for u64 {
    fn of_bytes(bytes: [u8; 8]) -> u64 {
        u64::from_le_bytes(bytes)
    }

    fn bytes(self) -> [u8; 8] {
        self.to_le_bytes()
    }

    ghost narrow = { lit≤ tt };
}

impl LittleEndian<8> for i64 {
    fn of_bytes(bytes: [u8; 8]) -> i64 {
        i64::from_le_bytes(bytes)
    }

    fn bytes(self) -> [u8; 8] {
        self.to_le_bytes()
    }

    ghost narrow = { lit≤ tt };
}
