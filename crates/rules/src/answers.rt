// What C is told of each call, from what the call finds or the refusal.
ghost use Rattle.std.specs.Prelude.{◌≡◌};
ghost use Rattle.rules.specs.Told.{bounds_told, within_told, patch_told, reason_told, reverse_told, chain_told};
ghost use Rattle.rules.specs.Reasons.{told};
ghost use Rattle.rules.specs.Calls.{with_opened as Calls·with_opened, gave_up as Calls·gave_up};

use crate::{
    Bounds, BoundsFound, BoundsWithin, ChainFound, PatchFound, Patched, Reason, Reasoned, Refusal,
    Reversed, Shown, Verdict, WithinFound,
};

impl From<Result<BoundsFound, Refusal>> for Bounds {
    ghost from_gives = { λ call answer. answer ≡ bounds_told call };

    fn from(call: Result<BoundsFound, Refusal>) -> Bounds {
        match call {
            Ok(found) => Bounds {
                number: 0,
                place: 0,
                tasks: found.tasks,
                chain: found.chain,
                path: found.path,
                transactions: found.transactions,
                levels: found.levels,
                length: found.length,
            },
            Err(refusal) => {
                let verdict = Verdict::from(refusal);
                Bounds {
                    number: verdict.number,
                    place: verdict.place,
                    tasks: 0,
                    chain: 0,
                    path: 0,
                    transactions: 0,
                    levels: 0,
                    length: 0,
                }
            }
        }
    }
}

// A bound call's fields, then the number of chains opened.
fn with_opened(bounds: Bounds, opened: u32) -> BoundsWithin
    ensures { result ≡ Calls·with_opened bounds opened }
{
    BoundsWithin {
        number: bounds.number,
        place: bounds.place,
        tasks: bounds.tasks,
        chain: bounds.chain,
        path: bounds.path,
        transactions: bounds.transactions,
        levels: bounds.levels,
        length: bounds.length,
        opened,
    }
}

// A call that gave up: the path and transactions bounds, and all else 0.
fn gave_up(path: u32, transactions: u32) -> BoundsWithin
    ensures { result ≡ Calls·gave_up path transactions }
{
    BoundsWithin {
        number: 13,
        place: 0,
        tasks: 0,
        chain: 0,
        path,
        transactions,
        levels: 0,
        length: 0,
        opened: 0,
    }
}

impl From<Result<WithinFound, Refusal>> for BoundsWithin {
    ghost from_gives = { λ call answer. answer ≡ within_told call };

    fn from(call: Result<WithinFound, Refusal>) -> BoundsWithin {
        match call {
            Ok(WithinFound::Opened(found, opened)) => with_opened(Bounds::from(Ok(found)), opened),
            Ok(WithinFound::GaveUp { path, transactions }) => gave_up(path, transactions),
            Err(refusal) => with_opened(Bounds::from(Err(refusal)), 0),
        }
    }
}

impl From<Result<PatchFound, Refusal>> for Patched {
    ghost from_gives = { λ call answer. answer ≡ patch_told call };

    fn from(call: Result<PatchFound, Refusal>) -> Patched {
        match call {
            Ok(found) => Patched {
                number: 0,
                place: 0,
                touched: found.touched,
                length: found.length,
            },
            Err(refusal) => {
                let verdict = Verdict::from(refusal);
                Patched {
                    number: verdict.number,
                    place: verdict.place,
                    touched: 0,
                    length: 0,
                }
            }
        }
    }
}

// The number of a reason, 1 to 6.
impl From<Reason> for u32 {
    ghost from_gives = { λ reason number. number ≡ (told reason).number };

    fn from(reason: Reason) -> u32 {
        match reason {
            Reason::Transaction => 1,
            Reason::Jitter => 2,
            Reason::Response => 3,
            Reason::Priority => 4,
            Reason::Pair => 5,
            Reason::Timing => 6,
        }
    }
}

impl From<Result<Reason, Refusal>> for Reasoned {
    ghost from_gives = { λ call answer. answer ≡ reason_told call };

    fn from(call: Result<Reason, Refusal>) -> Reasoned {
        match call {
            Ok(reason) => Reasoned {
                number: 0,
                place: 0,
                reason: u32::from(reason),
            },
            Err(refusal) => {
                let verdict = Verdict::from(refusal);
                Reasoned {
                    number: verdict.number,
                    place: verdict.place,
                    reason: 0,
                }
            }
        }
    }
}

// The length in bytes of the reverse, or the refusal.
impl From<Result<u32, Refusal>> for Reversed {
    ghost from_gives = { λ call answer. answer ≡ reverse_told call };

    fn from(call: Result<u32, Refusal>) -> Reversed {
        match call {
            Ok(length) => Reversed {
                number: 0,
                place: 0,
                length,
            },
            Err(refusal) => {
                let verdict = Verdict::from(refusal);
                Reversed {
                    number: verdict.number,
                    place: verdict.place,
                    length: 0,
                }
            }
        }
    }
}

impl From<Result<ChainFound, Refusal>> for Shown {
    ghost from_gives = { λ call answer. answer ≡ chain_told call };

    fn from(call: Result<ChainFound, Refusal>) -> Shown {
        match call {
            Ok(found) => Shown {
                number: 0,
                place: 0,
                weight: found.weight,
                length: found.length,
            },
            Err(refusal) => {
                let verdict = Verdict::from(refusal);
                Shown {
                    number: verdict.number,
                    place: verdict.place,
                    weight: 0,
                    length: 0,
                }
            }
        }
    }
}
