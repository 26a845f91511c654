// What a reason is printed as.
ghost use Rattle.std.specs.Prelude.{◌≡◌};
ghost use Rattle.rules.specs.Reasons.{told};

use rules::Reason;

// The word of a reason.
pub fn word(reason: Reason) -> &'static str
    ensures { result.now ≡ (told reason).word }
{
    match reason {
        Reason::Transaction => "transaction",
        Reason::Jitter => "jitter",
        Reason::Response => "response",
        Reason::Priority => "priority",
        Reason::Pair => "pair",
        Reason::Timing => "timing",
    }
}
