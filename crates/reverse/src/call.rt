// The reverse call: a patch image is read, and its reverse is written to a room as a patch image.
ghost use Rattle.std.specs.Prelude.{◌≡◌};
ghost use Rattle.rules.specs.Calls.{reverse_answer, reverse_after};
ghost use Rattle.rules.specs.Told.{reverse_told};

use crate::written::write_reverse;
use rules::Refusal;
use table::patch_verdict;

// Writes the reverse of a patch to the lent room, which must hold as many bytes as the patch, and answers the length. A
// refusal writes nothing.
pub fn reverse_patch(patch: &[u8], room: &mut [u8]) -> Result<u32, Refusal>
    ensures told { reverse_told result ≡ reverse_answer patch.now room.old }
    ensures room_after { room.new ≡ reverse_after patch.now room.old }
{
    let patch = patch_verdict(patch)?;
    if room.len() < patch.image.len() {
        return Err(Refusal::Short);
    }
    write_reverse(&patch, room);
    Ok(patch.image.len() as u32)
}
