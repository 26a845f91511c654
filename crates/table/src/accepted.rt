// Accepted images: a table, whose records are asked for by kind and place, and a patch.
ghost use Rattle.std.specs.Prelude.{◌≡◌, true, [], ◌<◌, length, get_or};
ghost use Rattle.rules.specs.Numbers.{Bytes};
ghost use Rattle.rules.specs.Blocks.{records};
ghost use Rattle.rules.specs.Records.{transactions as Records·transactions, tasks as Records·tasks, pairs as Records·pairs};
ghost use Rattle.rules.specs.Refusals.{accepted as Refusals·accepted, table_verdict, patch_verdict};

use crate::listing::count_of;
use image::records::record_at;
use rules::Kind;

// An accepted table image, with how many records of each kind it has.
#[derive(Clone, Copy)]
pub struct Table<'a> {
    pub image: &'a [u8],
    pub transactions: usize,
    pub tasks: usize,
    pub pairs: usize,
    ghost bytes: { Bytes image.now },
    ghost accepted: { Refusals·accepted (table_verdict image.now) ≡ true },
    ghost transactions_counted: { transactions ≡ length (Records·transactions (records image.now)) },
    ghost tasks_counted: { tasks ≡ length (Records·tasks (records image.now)) },
    ghost pairs_counted: { pairs ≡ length (Records·pairs (records image.now)) },
}

// An accepted patch image.
#[derive(Clone, Copy)]
pub struct Patch<'a> {
    pub image: &'a [u8],
    ghost bytes: { Bytes image.now },
    ghost accepted: { Refusals·accepted (patch_verdict image.now) ≡ true },
}

impl<'a> Table<'a> {
    // The table of an image that is known to be accepted: its records are counted, and nothing is judged again.
    pub fn of(image: &'a [u8]) -> Table<'a>
        requires { Refusals·accepted (table_verdict image.now) ≡ true }
        ensures { result.image.now ≡ image.now }
    {
        Table {
            image,
            transactions: count_of(image, Kind::Transaction),
            tasks: count_of(image, Kind::Task),
            pairs: count_of(image, Kind::Pair),
        }
    }

    // The record of the transaction at a place.
    pub fn transaction_record(&self, place: usize) -> &'a [u8]
        requires { place < self.now.transactions }
        ensures { result.now ≡ get_or (Records·transactions (records self.now.image.now)) place [] }
    {
        record_at(self.image, place)
    }

    // The record of the task at a place.
    pub fn task_record(&self, place: usize) -> &'a [u8]
        requires { place < self.now.tasks }
        ensures { result.now ≡ get_or (Records·tasks (records self.now.image.now)) place [] }
    {
        record_at(self.image, self.transactions + place)
    }

    // The record of the pair at a place.
    pub fn pair_record(&self, place: usize) -> &'a [u8]
        requires { place < self.now.pairs }
        ensures { result.now ≡ get_or (Records·pairs (records self.now.image.now)) place [] }
    {
        record_at(self.image, self.transactions + self.tasks + place)
    }
}
