// Why a file, a list or a room is refused.
#![tactic(auto)]

ghost use Rattle.std.specs.Prelude.{◌≡◌};
ghost use Rattle.refusals.specs.Refusals.{number_of};

// Each kind with this paper's number of it.
#[derive(Clone, Copy, Debug, PartialEq, Eq)]
pub enum Kind {
    TooShort = 1,
    Start = 2,
    EdgeCount = 3,
    Missing = 4,
    Excess = 5,
    Filling = 6,
    Outside = 7,
    Order = 8,
    Repeated = 9,
    AnswerRoom = 10,
    ClassRoom = 11,
    Room = 12,
    Observation = 13,
    Lists = 14,
    Drawing = 15,
    Pocket = 16,
    Leaving = 17,
}

impl From<Kind> for u8 {
    ghost from_gives = { λ kind number. number ≡ number_of kind };

    fn from(kind: Kind) -> u8 {
        kind as u8
    }
}

#[derive(Clone, Copy, Debug, PartialEq, Eq)]
pub struct Refusal {
    pub kind: Kind,
    pub place: usize,
}

// A refusal without a place of its own.
impl From<Kind> for Refusal {
    ghost from_gives = { λ kind refusal. refusal ≡ record { kind = kind; place = 0 } };

    fn from(kind: Kind) -> Refusal {
        Refusal { kind, place: 0 }
    }
}
