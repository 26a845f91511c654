// The C interface: the calls of the library under names that C can link. Each lent slice is a pointer and its length.

#![tactic(auto)]

ghost use Rattle.std.specs.Prelude.{◌≡◌};
ghost use Rattle.rules.specs.Calls.{map_verdict, map_after, BoundCall, WithinCall, RoomLeftCall, ThroughCall, reason_answer, PatchCall, OffendsAt, reverse_answer, reverse_after};

use image::records::record_start;
use patch::absent::verdict_of_both;
use patch::call::apply_patch;
use preempt::map::fill_map;
use reason::call::find_reason;
use reverse::call::reverse_patch;
use rules::{
    Bounds, BoundsWithin, Offending, Patched, Reasoned, Refusal, Reversed, Shown, Verdict,
};
use stack::call::find_bounds;
use through::call::{chain_through, room_left};
use within::call::bounds_within;

// Fills a lent map from a table image. A refusal answers its number and place, and writes nothing.
#[unsafe(no_mangle)]
pub extern "C" fn siodlomil_map(image: &[u8], map: &mut [u64]) -> Verdict
    ensures value { result ≡ map_verdict image.now map.old }
    ensures map_after { map.new ≡ map_after image.now map.old }
{
    Verdict::from(fill_map(image, map))
}

// The four bounds of a table image over a lent map of any contents, with the chain's ids in the lent room. A refusal
// answers its number and place, and writes nothing.
#[unsafe(no_mangle)]
pub extern "C" fn siodlomil_bounds(image: &[u8], map: &[u64], ids: &mut [u16]) -> Bounds
    ensures { BoundCall image.now map.now ids.old result ids.new }
{
    Bounds::from(find_bounds(image, map, ids))
}

// The same within a limit on the chains that 001's Algorithm 1 opens, with the number of chains that it opens. Where it opens
// more, 13 with the path and transactions bounds. A refusal writes nothing.
#[unsafe(no_mangle)]
pub extern "C" fn siodlomil_bounds_within(
    image: &[u8],
    map: &[u64],
    ids: &mut [u16],
    limit: u32,
) -> BoundsWithin
    ensures { WithinCall image.now map.now ids.old limit result ids.new }
{
    BoundsWithin::from(bounds_within(image, map, ids, limit))
}

// For each task of a table image, by place, the reserve less the weight of the heaviest chain that contains it, in the lent
// room. A refusal answers its number and place, and writes nothing.
#[unsafe(no_mangle)]
pub extern "C" fn siodlomil_room_left(
    image: &[u8],
    map: &[u64],
    reserve: u32,
    room: &mut [i64],
) -> Verdict
    ensures { RoomLeftCall image.now map.now reserve room.old result room.new }
{
    Verdict::from(room_left(image, map, reserve, room))
}

// The heaviest chain of a table image that contains the task with this id, by its ids in the lent room. A refusal answers its
// number and place, and writes nothing.
#[unsafe(no_mangle)]
pub extern "C" fn siodlomil_chain_through(
    image: &[u8],
    map: &[u64],
    id: u32,
    ids: &mut [u16],
) -> Shown
    ensures { ThroughCall image.now map.now id ids.old result ids.new }
{
    Shown::from(chain_through(image, map, id, ids))
}

// Why the task with one id may be preempted by the task with another, or why not, as a number from 1 to 6. A refusal answers
// its number and place.
#[unsafe(no_mangle)]
pub extern "C" fn siodlomil_reason(image: &[u8], low: u32, high: u32) -> Reasoned
    ensures { result ≡ reason_answer image.now low high }
{
    Reasoned::from(find_reason(image, low, high))
}

// Applies a patch to a base: the outcome's image and its map go to the lent rooms, and the number of touched tasks and the
// outcome's length are answered. A refusal answers its number and place, and writes nothing.
#[unsafe(no_mangle)]
pub extern "C" fn siodlomil_patch(
    base: &[u8],
    patch: &[u8],
    map: &[u64],
    room: &mut [u8],
    carried: &mut [u64],
) -> Patched
    ensures { PatchCall base.now patch.now map.now room.old carried.old result room.new carried.new }
{
    Patched::from(apply_patch(base, patch, map, room, carried))
}

// Writes the reverse of a patch to the lent room as a patch image, and answers its length, which is the patch's. A refusal
// answers its number and place, and writes nothing.
#[unsafe(no_mangle)]
pub extern "C" fn siodlomil_reverse(patch: &[u8], room: &mut [u8]) -> Reversed
    ensures value { result ≡ reverse_answer patch.now room.old }
    ensures room_after { room.new ≡ reverse_after patch.now room.old }
{
    Reversed::from(reverse_patch(patch, room))
}

// Where the 32 bytes of refusal 9 stand in the patch image, and 0 and 0 where a patch call answers anything else.
#[unsafe(no_mangle)]
pub extern "C" fn siodlomil_offending(base: &[u8], patch: &[u8]) -> Offending
    ensures { OffendsAt base.now patch.now result }
{
    match verdict_of_both(base, patch) {
        Err(Refusal::Absent(lacking)) => {
            let place = lacking as usize;
            Offending {
                at: record_start(place) as u64,
                length: 32,
            }
        }
        _ => Offending { at: 0, length: 0 },
    }
}
