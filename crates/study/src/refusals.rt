// The numbers of the refusals, as documents 01 and 02 give them.
ghost use Rattle.std.specs.Prelude.{◌≡◌};
ghost use Rattle.study.specs.Refusals.{numbered, verdict_of};
ghost use Rattle.study.specs.Numbers.{said_by, number_of, refusal_number};

use crate::Refusal;

// A number alone, or 7 with its pair.
#[derive(Clone, Copy, PartialEq, Eq)]
pub enum Number {
    Alone(u32),
    Seven(usize, usize),
}

// The number of a refusal; of 7 with its pair.
impl From<Refusal> for Number {
    ghost from_gives = { λ refusal number. said_by number ≡ numbered refusal };

    fn from(refusal: Refusal) -> Number {
        match refusal {
            Refusal::ShortMemory => Number::Alone(1),
            Refusal::SettingCount => Number::Alone(2),
            Refusal::Minima => Number::Alone(3),
            Refusal::RowLength => Number::Alone(4),
            Refusal::Setting => Number::Alone(5),
            Refusal::Distance => Number::Alone(6),
            Refusal::TriangleInequality(i, j) => Number::Seven(i, j),
            Refusal::FileLength => Number::Alone(8),
            Refusal::Mark => Number::Alone(9),
            Refusal::TideCount => Number::Alone(10),
            Refusal::FillBits => Number::Alone(11),
            Refusal::ListLength => Number::Alone(12),
            Refusal::NotSymmetric => Number::Alone(13),
            Refusal::NoSuchUser => Number::Alone(14),
            Refusal::Duplicate => Number::Alone(15),
            Refusal::Mismatch => Number::Alone(16),
            Refusal::NoSharedTide => Number::Alone(17),
            Refusal::NotDataset => Number::Alone(21),
            Refusal::Full => Number::Alone(22),
            Refusal::NoSuchTide => Number::Alone(23),
            Refusal::NoTides => Number::Alone(24),
            Refusal::TooFewTides => Number::Alone(25),
            Refusal::WithdrawalLimit => Number::Alone(26),
        }
    }
}

impl Refusal {
    // The number without the pair.
    pub fn number(self) -> u32
        ensures { result ≡ number_of (numbered self) }
    {
        match Number::from(self) {
            Number::Alone(n) => n,
            Number::Seven(_, _) => 7,
        }
    }
}

// 0 where a call is done, else the number of its refusal, without the pair.
pub fn refusal_number(answer: Result<(), Refusal>) -> u8
    ensures { result ≡ refusal_number (verdict_of answer) }
{
    match answer {
        Ok(()) => 0,
        Err(why) => why.number() as u8,
    }
}
