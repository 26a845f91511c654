// Refusal 4: unknown kind, or a byte said to be 0 isn't.
ghost use Rattle.std.specs.Prelude.{◌≡◌, [], get_or};
ghost use Rattle.rules.specs.Blocks.{records, record_count};
ghost use Rattle.rules.specs.Records.{kind_of, most_way, zero_bytes, form_wrong};
ghost use Rattle.rules.specs.Kinds.{kind_number};
ghost use Rattle.image.specs.First.{first};
ghost use Rattle.image.specs.Held.{HoldsRecords};

use image::bytes::{byte_at, is_blank};
use image::records::{record_at, record_count};
use rules::{Form, Kind};

// The largest byte 31: 0 in a table, 1 in a patch.
fn most_way(form: Form) -> u32
    ensures { result ≡ most_way form }
{
    match form {
        Form::Table => 0,
        Form::Patch => 1,
    }
}

// Whether the bytes below 31 of a record of this kind that are said to be 0 are 0.
fn has_zero_bytes(kind: Kind, fields: &[u8]) -> bool
    requires { kind_of fields.now ≡ kind_number kind }
    ensures { result ≡ zero_bytes fields.now }
{
    match kind {
        Kind::Transaction => {
            is_blank(fields, 1, 1) && is_blank(fields, 4, 4) && is_blank(fields, 12, 19)
        }
        Kind::Task => is_blank(fields, 1, 1) && is_blank(fields, 23, 8),
        Kind::Pair => is_blank(fields, 6, 25),
    }
}

// Whether a record is of no kind, or a byte said to be 0 is not 0.
fn is_form_wrong(form: Form, fields: &[u8]) -> bool
    ensures { result ≡ form_wrong form fields.now }
{
    let Ok(kind) = Kind::try_from(byte_at(fields, 0)) else {
        return true;
    };
    !has_zero_bytes(kind, fields) || most_way(form) < byte_at(fields, 31)
}

// The first record of a wrong form.
pub fn first_wrong_form(form: Form, image: &[u8]) -> Option<usize>
    requires held { HoldsRecords image.now }
    ensures { result ≡ first (λ k. form_wrong form (get_or (records image.now) k [])) (record_count image.now) }
{
    (0..record_count(image)).find(|&k| is_form_wrong(form, record_at(image, k)))
}
