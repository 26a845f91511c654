// Where a number stands among numbers that rise.
ghost use Rattle.std.specs.Prelude.{◌≡◌, ◌+◌, ◌≤◌, ◌<◌, length, unwrap_or, IfSome};
ghost use Rattle.rules.specs.Blocks.{record_count};
ghost use Rattle.image.specs.Held.{HoldsRecords};
ghost use Rattle.table.specs.Numbers.{Rising, place_among, NumbersRead, place_from};

use image::bytes::two_bytes;
use image::records::record_at;

// The place of a number among the first count, which rise.
pub fn place_of(numbers: &[u32], count: usize, number: u32) -> Option<usize>
    requires in_bounds { count ≤ length numbers.now }
    requires rising { Rising numbers.now count }
    ensures placed { unwrap_or result count ≡ place_among numbers.now count number }
    ensures inside { IfSome result (λ place. place < count) }
{
    numbers[..count].binary_search(&number).ok()
}

// The numbers or ids of up to 64 records from the first on.
pub fn numbers_from(image: &[u8], first: usize, count: usize) -> [u32; 64]
    requires few { count ≤ 64 }
    requires in_bounds { first + count ≤ record_count image.now }
    requires held { HoldsRecords image.now }
    ensures { NumbersRead image.now first count result }
{
    let mut numbers = [0u32; 64];
    for k in 0..count {
        numbers[k] = two_bytes(record_at(image, first + k), 2);
    }
    numbers
}

// The place of a number or id among count records from the first on.
pub fn place_from(image: &[u8], first: usize, count: usize, number: u32) -> Option<usize>
    requires in_bounds { first + count ≤ record_count image.now }
    requires held { HoldsRecords image.now }
    ensures placed { unwrap_or result count ≡ place_from image.now first count number }
    ensures inside { IfSome result (λ place. place < count) }
{
    (0..count).find(|&k| two_bytes(record_at(image, first + k), 2) == number)
}
