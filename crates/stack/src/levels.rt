// The bound by levels: for each priority in use the largest size, added up.
ghost use Rattle.std.specs.Prelude.{◌≡◌, ◌<◌, ◌^◌, sum};
ghost use Rattle.stack.specs.Levels.{Blank, LargestSizes, levels_of};

use crate::rising::Rising;

// A size of 0 for each priority.
fn no_sizes() -> [u32; 256]
    ensures { Blank result }
{
    [0u32; 256]
}

// For each priority the largest size of the tasks that have it, or 0.
fn largest_sizes(rising: &Rising) -> [u32; 256]
    ensures { LargestSizes rising.now.count rising.now.priorities rising.now.sizes result }
{
    let mut largest = no_sizes();
    for place in 0..rising.count {
        let priority = rising.priorities[place] as usize;
        let size = rising.sizes[place];
        if largest[priority] < size {
            largest[priority] = size;
        }
    }
    largest
}

// The sum of numbers, where it fits.
fn sum_of(numbers: &[u32]) -> u32
    requires fits { sum numbers.now < 2 ^ 32 }
    ensures { result ≡ sum numbers.now }
{
    let mut total: u32 = 0;
    for number in numbers {
        total += *number;
    }
    total
}

// For each priority in use the largest size, added up.
pub fn level_bound(rising: &Rising) -> u32
    ensures { result ≡ levels_of rising.now.priorities rising.now.sizes rising.now.count }
{
    sum_of(&largest_sizes(rising))
}
