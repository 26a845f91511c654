// Tasks in an order in which those that may preempt a task stand before it: over these, best sums are made in one pass.
ghost use Rattle.stack.specs.Setting.{Ready};

// How many tasks there are, the rows of their relation, their sizes, and the order of their places.
#[derive(Clone, Copy)]
pub struct Ordered {
    pub count: usize,
    pub rows: [u64; 64],
    pub sizes: [u32; 64],
    pub order: [u8; 64],
    pub ghost ready: { Ready count rows sizes order },
}
