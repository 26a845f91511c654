// A table whose records are known to be in form, in order, in range and not too many, with its transactions and its tasks listed.
ghost use Rattle.std.specs.Prelude.{◌≡◌, true, ◌≤◌, length};
ghost use Rattle.rules.specs.Numbers.{Bytes};
ghost use Rattle.rules.specs.Blocks.{records, record_count};
ghost use Rattle.rules.specs.Records.{of_kind, transactions as Records·transactions, tasks as Records·tasks, pairs as Records·pairs};
ghost use Rattle.rules.specs.Kinds.{kind_number};
ghost use Rattle.rules.specs.Refusals.{accepted, records_verdict};
ghost use Rattle.rules.specs.declared.Form.TheVariants.{Table};
ghost use Rattle.image.specs.Held.{HoldsRecords};
ghost use Rattle.table.specs.Numbers.{Directory};

use crate::count::count_kind;
use crate::place::numbers_from;
use rules::Kind;

// The image, how many records of each kind it has, the transactions' numbers and the tasks' ids.
#[derive(Drop)]
pub struct Listing<'a> {
    pub image: &'a [u8],
    pub transactions: usize,
    pub tasks: usize,
    pub pairs: usize,
    pub numbers: [u32; 64],
    pub ids: [u32; 64],
    ghost bytes: { Bytes image.now },
    ghost held: { HoldsRecords image.now },
    ghost sound: { accepted (records_verdict Table (records image.now)) ≡ true },
    ghost transactions_listed: { Directory (Records·transactions (records image.now)) numbers transactions },
    ghost tasks_listed: { Directory (Records·tasks (records image.now)) ids tasks },
    ghost pairs_counted: { pairs ≡ length (Records·pairs (records image.now)) },
}

// How many records of a kind such a table has.
pub fn count_of(image: &[u8], kind: Kind) -> usize
    requires held { HoldsRecords image.now }
    requires sound { accepted (records_verdict Table (records image.now)) ≡ true }
    ensures counted { result ≡ length (of_kind (kind_number kind) (records image.now)) }
    ensures inside { result ≤ record_count image.now }
{
    count_kind(image, u32::from(kind))
}

// The listing of such a table.
pub fn list_records(image: &[u8]) -> Listing<'_>
    requires held { HoldsRecords image.now }
    requires sound { accepted (records_verdict Table (records image.now)) ≡ true }
    ensures { result.image.now ≡ image.now }
{
    let transactions = count_of(image, Kind::Transaction);
    let tasks = count_of(image, Kind::Task);
    Listing {
        image,
        transactions,
        tasks,
        pairs: count_of(image, Kind::Pair),
        numbers: numbers_from(image, 0, transactions),
        ids: numbers_from(image, transactions, tasks),
    }
}
