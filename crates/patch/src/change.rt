// A patch that may be applied to a base.
ghost use Rattle.std.specs.Prelude.{◌≡◌, true};
ghost use Rattle.rules.specs.Blocks.{records};
ghost use Rattle.rules.specs.Refusals.{accepted, absent_refusal};

use table::accepted::{Patch, Table};

// An accepted table, and an accepted patch that takes out only records that the table has.
#[derive(Clone, Copy)]
pub struct Change<'a> {
    pub base: Table<'a>,
    pub patch: Patch<'a>,
    ghost present: { accepted (absent_refusal (records base.image.now) (records patch.image.now)) ≡ true },
}
