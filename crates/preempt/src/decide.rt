// Equations (7) and (8) of the paper, for two tasks.
ghost use Rattle.std.specs.Prelude.{◌≡◌};
ghost use Rattle.rules.specs.Preempt.{distance as Preempt·distance, timing, reason, may_preempt};
ghost use Rattle.rules.specs.Reasons.{told};

use rules::{Reason, Task};

// The distance from the more urgent task's offset to the less urgent one's, by equation (7): the paper's psi, in the two cases of its proof of Lemma 2.
pub fn distance(period: u32, lower: u32, upper: u32) -> u32
    ensures { result ≡ Preempt·distance period lower upper }
{
    // The paper's T, O_i and O_j; T + O_i may need 33 bits.
    let t = u64::from(period);
    let o_i = u64::from(lower);
    let o_j = u64::from(upper);
    // Case 1: O_i < O_j
    if o_i < o_j && o_j < t {
        let psi = t + o_i - o_j;
        return psi as u32;
    }
    // Case 2: O_i >= O_j
    if o_i >= o_j && o_i < t {
        let psi = o_i - o_j;
        return psi as u32;
    }
    // Neither: an offset is not below the period, which no accepted table has.
    shifted_remainder(period, lower, upper)
}

// Equation (7) for any three numbers, as it is defined: the lower offset and what the upper one leaves of a period, modulo the period.
fn shifted_remainder(period: u32, lower: u32, upper: u32) -> u32
    ensures { result ≡ Preempt·distance period lower upper }
{
    if period == 0 {
        return lower;
    }
    let shifted = u64::from(lower) + u64::from(period.saturating_sub(upper));
    (shifted % u64::from(period)) as u32
}

// The rule by which the activations of two tasks allow a preemption, the first that holds: different transactions, a jitter
// or a response that reaches far enough. Where none does, the timing forbids it.
fn timing_of(period: u32, low: Task, high: Task) -> Reason
    ensures { result ≡ timing period low high }
{
    if low.transaction != high.transaction {
        return Reason::Transaction;
    }
    let apart = distance(period, low.offset, high.offset);
    if apart < high.jitter {
        return Reason::Jitter;
    }
    if period.saturating_sub(apart) < low.response.saturating_sub(low.offset) {
        return Reason::Response;
    }
    Reason::Timing
}

// Why the first task may be preempted by the second, or why not, by equation (8).
#[tactic(auto, unfolding(rules::specs::Preempt::reason))]
pub fn reason_of(period: u32, barred: bool, low: Task, high: Task) -> Reason
    ensures { result ≡ reason period barred low high }
{
    if high.priority <= low.threshold {
        return Reason::Priority;
    }
    if barred {
        return Reason::Pair;
    }
    timing_of(period, low, high)
}

// Whether a reason sets a cell of the map.
fn sets_cell(reason: Reason) -> bool
    ensures { result ≡ (told reason).set }
{
    matches!(
        reason,
        Reason::Transaction | Reason::Jitter | Reason::Response
    )
}

// Whether the first task may be preempted by the second: the reason is one that sets a cell.
#[tactic(auto, unfolding(rules::specs::Preempt::may_preempt))]
pub fn may_preempt(period: u32, barred: bool, low: Task, high: Task) -> bool
    ensures { result ≡ may_preempt period barred low high }
{
    sets_cell(reason_of(period, barred, low, high))
}
