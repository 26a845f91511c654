// The numbers that records have for their kinds and sorts.
ghost use Rattle.std.specs.Prelude.{◌≡◌};
ghost use Rattle.rules.specs.Kinds.{kind_number, sort_number, ReadsKind};

use crate::{Kind, Sort, UnknownKind};

// Byte 0 of a record of the kind.
impl From<Kind> for u32 {
    ghost from_gives = { λ kind number. number ≡ kind_number kind };

    fn from(kind: Kind) -> u32 {
        match kind {
            Kind::Transaction => 1,
            Kind::Task => 2,
            Kind::Pair => 3,
        }
    }
}

// The kind whose records have this byte 0.
impl TryFrom<u32> for Kind {
    type Error = UnknownKind;

    ghost try_from_gives = { ReadsKind };

    fn try_from(number: u32) -> Result<Kind, UnknownKind> {
        match number {
            1 => Ok(Kind::Transaction),
            2 => Ok(Kind::Task),
            3 => Ok(Kind::Pair),
            _ => Err(UnknownKind(number)),
        }
    }
}

// Byte 1 of a pair of the sort.
impl From<Sort> for u32 {
    ghost from_gives = { λ sort number. number ≡ sort_number sort };

    fn from(sort: Sort) -> u32 {
        match sort {
            Sort::OneWay => 0,
            Sort::Precedence => 1,
        }
    }
}
