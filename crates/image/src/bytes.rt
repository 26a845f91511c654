// Numbers read from bytes. Each function answers for every place: what lies past the end reads as 0.
ghost use Rattle.std.specs.Prelude.{◌≡◌, ◌<◌, get_or};
ghost use Rattle.rules.specs.Numbers.{le2, le4, blank};

// The byte at a place.
pub fn byte_at(s: &[u8], at: usize) -> u32
    ensures { (result ≡ get_or s.now at 0) × (result < 256) }
{
    if at < s.len() { u32::from(s[at]) } else { 0 }
}

// The little-endian number of two bytes at a place.
pub fn two_bytes(s: &[u8], at: usize) -> u32
    ensures { (result ≡ le2 s.now at) × (result < 65536) }
{
    if at < s.len() {
        byte_at(s, at) + 256 * byte_at(s, at + 1)
    } else {
        0
    }
}

// The little-endian number of four bytes at a place.
pub fn four_bytes(s: &[u8], at: usize) -> u32
    ensures { result ≡ le4 s.now at }
{
    if at < s.len() {
        two_bytes(s, at) + 65536 * two_bytes(s, at + 2)
    } else {
        0
    }
}

// Whether the count bytes from start on are zero.
pub fn is_blank(s: &[u8], start: usize, count: usize) -> bool
    ensures { result ≡ blank s.now start count }
{
    let from = start.min(s.len());
    let to = start.saturating_add(count).min(s.len());
    (from..to).all(|at| s[at] == 0)
}
