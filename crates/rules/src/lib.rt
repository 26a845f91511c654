// The sizes, limits and plain types that every layer shares. What they mean is defined in specs/.

#![tactic(auto)]

pub mod answers;
pub mod kinds;
pub mod told;

// An image is a row of blocks; a block holds fifteen records between its header and its fill.
pub const BLOCK_BYTES: usize = 512;

pub const RECORD_BYTES: usize = 32;

pub const RECORDS_PER_BLOCK: usize = 15;

pub const TABLE_BLOCKS: usize = 23;

pub const PATCH_BLOCKS: usize = 45;

pub const MOST_TRANSACTIONS: u32 = 16;

pub const MOST_TASKS: u32 = 64;

pub const MOST_PAIRS: u32 = 256;

// The two forms of an image.
#[derive(Clone, Copy, PartialEq, Eq, Debug)]
pub enum Form {
    Table,
    Patch,
}

// The kinds of records.
#[derive(Clone, Copy, PartialEq, Eq, Debug)]
pub enum Kind {
    Transaction,
    Task,
    Pair,
}

// A byte 0 that no record has.
#[derive(Clone, Copy, PartialEq, Eq, Debug)]
pub struct UnknownKind(pub u32);

// The sorts of pairs: which of two tasks may not preempt the other, or which of them comes before the other.
#[derive(Clone, Copy, PartialEq, Eq, Debug)]
pub enum Sort {
    OneWay,
    Precedence,
}

// What is wrong with an image of either form: its length, the check or the header of a block, the form, the order or a range of
// a record, or how many records of a kind there are.
#[derive(Clone, Copy, PartialEq, Eq, Debug)]
pub enum Fault {
    Length,
    Check(u32),
    Header(u32),
    Unformed(u32),
    Unordered(u32),
    OutOfRange(u32),
    TooMany(Kind),
}

// Why a call is refused: a faulty image, a record of a table that refers to something not listed, a task with this id that comes
// before itself, a patch record to take out that the base lacks, an outcome that is no table, a lent map or room that is too
// short, or a named task that is not listed.
#[derive(Clone, Copy, PartialEq, Eq, Debug)]
pub enum Refusal {
    Image(Form, Fault),
    Unknown(u32),
    Circle(u32),
    Absent(u32),
    NoTable,
    Short,
    Unlisted,
}

// What C is told of a check: refusal number and place, or 0 and 0 for an accepted image or call.
#[repr(C)]
#[derive(Clone, Copy, PartialEq, Eq, Debug)]
pub struct Verdict {
    pub number: u32,
    pub place: u32,
}

// What a task record says: a missing jitter is read as the period of its transaction, a threshold of 0 as the priority.
#[derive(Clone, Copy, PartialEq, Eq, Debug)]
pub struct Task {
    pub id: u32,
    pub transaction: u32,
    pub priority: u32,
    pub offset: u32,
    pub jitter: u32,
    pub response: u32,
    pub size: u32,
    pub threshold: u32,
}

// Why a task may be preempted by another, the first three, or why it may not, the others.
#[derive(Clone, Copy, PartialEq, Eq, Debug)]
pub enum Reason {
    Transaction,
    Jitter,
    Response,
    Priority,
    Pair,
    Timing,
}

// What a bound call finds: how many tasks there are, the chain and the three other bounds, and how many tasks the chain has.
#[derive(Clone, Copy, PartialEq, Eq, Debug)]
pub struct BoundsFound {
    pub tasks: u32,
    pub chain: u32,
    pub path: u32,
    pub transactions: u32,
    pub levels: u32,
    pub length: u32,
}

// What C is told of a bound call. A refused call has number and place, and all else 0.
#[repr(C)]
#[derive(Clone, Copy, PartialEq, Eq, Debug)]
pub struct Bounds {
    pub number: u32,
    pub place: u32,
    pub tasks: u32,
    pub chain: u32,
    pub path: u32,
    pub transactions: u32,
    pub levels: u32,
    pub length: u32,
}

// What a bound call with a limit finds: the bounds and the number of chains opened, or where it is above the limit the path and
// transactions bounds.
#[derive(Clone, Copy, PartialEq, Eq, Debug)]
pub enum WithinFound {
    Opened(BoundsFound, u32),
    GaveUp { path: u32, transactions: u32 },
}

// What C is told of a bound call with a limit: a bound call's fields, then the number of chains opened. Refusal 13 has the path and
// transactions bounds and all else 0; any other refused call has number and place, and all else 0.
#[repr(C)]
#[derive(Clone, Copy, PartialEq, Eq, Debug)]
pub struct BoundsWithin {
    pub number: u32,
    pub place: u32,
    pub tasks: u32,
    pub chain: u32,
    pub path: u32,
    pub transactions: u32,
    pub levels: u32,
    pub length: u32,
    pub opened: u32,
}

// What a patch call finds: how many tasks are touched, and the outcome's length in bytes.
#[derive(Clone, Copy, PartialEq, Eq, Debug)]
pub struct PatchFound {
    pub touched: u32,
    pub length: u32,
}

// What C is told of a patch call. A refused call has number and place, and all else 0.
#[repr(C)]
#[derive(Clone, Copy, PartialEq, Eq, Debug)]
pub struct Patched {
    pub number: u32,
    pub place: u32,
    pub touched: u32,
    pub length: u32,
}

// Where the offending part stands in a patch image, in bytes: 0 and 0 where nothing offends.
#[repr(C)]
#[derive(Clone, Copy, PartialEq, Eq, Debug)]
pub struct Offending {
    pub at: u64,
    pub length: u64,
}

// What C is told of a reason call. A refused call has number and place, and reason 0.
#[repr(C)]
#[derive(Clone, Copy, PartialEq, Eq, Debug)]
pub struct Reasoned {
    pub number: u32,
    pub place: u32,
    pub reason: u32,
}

// What C is told of a reverse call. A refused call has number and place, and length 0.
#[repr(C)]
#[derive(Clone, Copy, PartialEq, Eq, Debug)]
pub struct Reversed {
    pub number: u32,
    pub place: u32,
    pub length: u32,
}

// What a chain call for one task finds: what the chain weighs, and how many tasks it has.
#[derive(Clone, Copy, PartialEq, Eq, Debug)]
pub struct ChainFound {
    pub weight: u32,
    pub length: u32,
}

// What C is told of a chain call for one task. A refused call has number and place, and all else 0.
#[repr(C)]
#[derive(Clone, Copy, PartialEq, Eq, Debug)]
pub struct Shown {
    pub number: u32,
    pub place: u32,
    pub weight: u32,
    pub length: u32,
}
