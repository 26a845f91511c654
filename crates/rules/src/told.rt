// The number and the place that a refusal is told as.
ghost use Rattle.std.specs.Prelude.{◌≡◌, ◌≤◌};
ghost use Rattle.rules.specs.Refusals.{fine, refusal as Refusals·refusal, numbered as Refusals·numbered};
ghost use Rattle.rules.specs.Told.{fault_verdict, verdict_of, judged};

use crate::{Fault, Form, Refusal, Verdict};

// A refusal by its table number and place: a patch's numbers are 20 higher.
fn numbered(form: Form, number: u32, place: u32) -> Verdict
    requires { number ≤ 15 }
    ensures { result ≡ Refusals·refusal (Refusals·numbered form number) place }
{
    match form {
        Form::Table => Verdict { number, place },
        Form::Patch => Verdict {
            number: 20 + number,
            place,
        },
    }
}

// What is told of a faulty image of the form.
fn told(form: Form, fault: Fault) -> Verdict
    ensures { result ≡ fault_verdict form fault }
{
    match fault {
        Fault::Length => numbered(form, 1, 0),
        Fault::Check(block) => numbered(form, 2, block),
        Fault::Header(block) => numbered(form, 3, block),
        Fault::Unformed(record) => numbered(form, 4, record),
        Fault::Unordered(record) => numbered(form, 5, record),
        Fault::OutOfRange(record) => numbered(form, 6, record),
        Fault::TooMany(kind) => numbered(form, 7, u32::from(kind)),
    }
}

impl From<Refusal> for Verdict {
    ghost from_gives = { λ refusal verdict. verdict ≡ verdict_of refusal };

    fn from(refusal: Refusal) -> Verdict {
        match refusal {
            Refusal::Image(form, fault) => told(form, fault),
            Refusal::Unknown(place) => Verdict { number: 8, place },
            Refusal::Absent(place) => Verdict { number: 9, place },
            Refusal::NoTable => Verdict {
                number: 10,
                place: 0,
            },
            Refusal::Short => Verdict {
                number: 11,
                place: 0,
            },
            Refusal::Circle(place) => Verdict { number: 14, place },
            Refusal::Unlisted => Verdict {
                number: 15,
                place: 0,
            },
        }
    }
}

// What is told of a check.
impl From<Result<(), Refusal>> for Verdict {
    ghost from_gives = { λ check verdict. verdict ≡ judged check };

    fn from(check: Result<(), Refusal>) -> Verdict {
        match check {
            Ok(()) => Verdict {
                number: 0,
                place: 0,
            },
            Err(refusal) => Verdict::from(refusal),
        }
    }
}
