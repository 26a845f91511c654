// Rows of bits: cell j of row i is bit j of the number at i.
ghost use Rattle.std.specs.Prelude.{◌≡◌, ◌||◌, ◌≤◌, ◌<◌, length};
ghost use Rattle.rules.specs.Preempt.{cell, map_from};
ghost use Rattle.sets.specs.Bits.{with_cell};
ghost use Rattle.sets.specs.Closing.{IsMap, ColumnAdded};

use crate::bits::with_bit;
use crate::places::Places;

// Sets cell j of row i besides.
pub fn set_cell(rows: &mut [u64], i: usize, j: usize)
    requires { (i < length rows.old) × (j < 64) }
    ensures { rows.new ≡ with_cell rows.old i j }
{
    rows[i] = with_bit(rows[i], j);
}

// Sets the cell of a place besides in the rows of all places of a set.
pub fn set_column(rows: &mut [u64], set: u64, place: usize)
    requires { (length rows.old ≡ 64) × (place < 64) }
    ensures { ColumnAdded set place rows.old rows.new }
{
    for other in Places::of(set) {
        set_cell(rows, other, place);
    }
}

// Sets each cell the other way round besides: cell j of row i where it is set, or cell i of row j is.
pub fn both_ways(rows: &mut [u64; 64], count: usize)
    requires { (count ≤ 64) × IsMap count rows.old }
    ensures { rows.new ≡ map_from count (λ i j. cell rows.old i j || cell rows.old j i) }
{
    for i in 0..count {
        let row = rows[i];
        set_column(rows, row, i);
    }
}
