// Operations on sets of places, and what is asked of each place.
ghost use Rattle.std.specs.Prelude.{◌≡◌, ℕ, Bool, true, ◌≤◌, ◌<◌, length};
ghost use Rattle.std.specs.Int.Bits.{bit_or};
ghost use Rattle.rules.specs.Preempt.{row_from, bit_at};
ghost use Rattle.sets.specs.Bits.{has_number, filled};
ghost use Rattle.sets.specs.Places.{Lowest, Without, Shared, Outside, Below, TakesLowest, Tells};
ghost use Rattle.std.specs.Iterator.{at_most};

use crate::bits::with_bit_if;

// The places of a set, each once, by rising place.
#[derive(Clone, Copy, Debug)]
pub struct Places {
    pub rest: u64,
}

impl Places {
    pub fn of(set: u64) -> Places
        ensures { result.rest ≡ set }
    {
        Places { rest: set }
    }
}

impl Iterator for Places {
    type Item = usize;

    ghost next_gives = { λ before place after. TakesLowest before.rest place after.rest };

    ghost remaining = { λ places. at_most places.rest };

    fn next(&mut self) -> Option<usize> {
        if self.rest == 0 {
            return None;
        }
        let place = lowest(self.rest);
        self.rest = without(self.rest, place);
        Some(place)
    }
}

// The places that two sets share.
pub fn shared(a: u64, b: u64) -> u64
    ensures { Shared a b result }
{
    a & b
}

// The lowest place of a set that is not empty.
pub fn lowest(set: u64) -> usize
    requires { 0 < set }
    ensures { Lowest set result }
{
    u64::trailing_zeros(set) as usize
}

// The set without one of its places.
pub fn without(set: u64, place: usize) -> u64
    requires { (place < 64) × (bit_at set place ≡ true) }
    ensures { Without set place result }
{
    set - (1 << place)
}

// The places of a set that are outside another.
pub fn outside(set: u64, other: u64) -> u64
    ensures { Outside set other result }
{
    set - (set & other)
}

// The places below count.
pub fn all_below(count: usize) -> u64
    requires { count ≤ 64 }
    ensures { Below count result }
{
    if count == 64 {
        18446744073709551615
    } else {
        (1 << count) - 1
    }
}

// The places of either set.
pub fn union(a: u64, b: u64) -> u64
    ensures { result ≡ bit_or a b }
{
    a | b
}

// The places below count that pass a test, each asked once.
pub fn places_where<F: Fn(usize) -> bool>(count: usize, passes: F) -> u64
    requires few { count ≤ 64 }
    requires callable { (place : ℕ) → place < count → F.pre passes place }
    ensures { (test : ℕ → Bool) → Tells count (F.post passes) test → result ≡ row_from count test }
{
    let mut set: u64 = 0;
    for place in 0..count {
        set = with_bit_if(set, place, passes(place));
    }
    set
}

// 64 values by place: what is answered of each place below count, and another value beyond.
pub fn by_place<T: Copy, F: Fn(usize) -> T>(count: usize, beyond: T, value: F) -> [T; 64]
    requires few { count ≤ 64 }
    requires callable { (place : ℕ) → place < count → F.pre value place }
    ensures { (f : ℕ → T) → Tells count (F.post value) f → result ≡ filled beyond count f }
{
    let mut values = [beyond; 64];
    for place in 0..count {
        values[place] = value(place);
    }
    values
}

// The places below count whose number is this one.
pub fn members(numbers: &[u32], count: usize, number: u32) -> u64
    requires { (count ≤ 64) × (count ≤ length numbers.now) }
    ensures { result ≡ row_from count (has_number numbers.now number) }
{
    places_where(count, |place| numbers[place] == number)
}
