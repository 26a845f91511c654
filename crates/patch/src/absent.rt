// Refusal 9: a record to take out is not in the base, byte for byte.
ghost use Rattle.std.specs.Prelude.{◌≡◌, IfOk};
ghost use Rattle.rules.specs.Blocks.{records};
ghost use Rattle.rules.specs.Refusals.{or_else, table_verdict, patch_verdict, absent_refusal};
ghost use Rattle.rules.specs.Told.{judged};

use crate::change::Change;
use image::bytes::byte_at;
use image::reader::met_among;
use image::records::{record_at, record_count};
use rules::Refusal;
use table::accepted::{Patch, Table};
use table::{patch_verdict, table_verdict};

// Refusal 9 at the first record that the patch takes out and the base lacks, if there is one. Both are in table order, so the records taken out are met in
// turn among the base's up to the first that is lacking.
#[tactic(auto, using(crate::proofs::Lacking::absent_verdicts))]
fn absent_verdict(base: &Table, patch: &Patch) -> Result<(), Refusal>
    ensures { judged result ≡ absent_refusal (records base.now.image.now) (records patch.now.image.now) }
{
    let met = met_among(base.image, patch.image);
    if met < record_count(patch.image) {
        if byte_at(record_at(patch.image, met), 31) == 0 {
            return Err(Refusal::Absent(met as u32));
        }
    }
    Ok(())
}

// A patch that may be applied, with its base, or the first refusal that needs no outcome: 1 to 8 or 14 of the base, 21 to 27 of the
// patch, then 9.
pub fn verdict_of_both<'a>(base: &'a [u8], patch: &'a [u8]) -> Result<Change<'a>, Refusal>
    ensures told { judged result ≡ or_else (table_verdict base.now) (or_else (patch_verdict patch.now) (absent_refusal (records base.now) (records patch.now))) }
    ensures of_images { IfOk result (λ change. (change.base.image.now ≡ base.now) × (change.patch.image.now ≡ patch.now)) }
{
    let base = table_verdict(base)?;
    let patch = patch_verdict(patch)?;
    absent_verdict(&base, &patch)?;
    Ok(Change { base, patch })
}
