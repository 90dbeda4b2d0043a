// What a C caller is told: a refusal's place and number as one number, and the values of an accepted call in the lent array.
#![tactic(auto)]

ghost use Rattle.std.specs.Prelude.{◌≡◌, ℕ, List, ◌∷◌, [], ◌+◌, ◌*◌, ◌^◌, ◌<◌, ◌≤◌};
ghost use Rattle.std.proofs.Common.{rules};
ghost use Rattle.refusals.specs.Refusals.{number_of};
ghost use Rattle.telling.specs.Codes.{told_place, Spoken, ride_values, outcome_of};

use folding::Counts;
use layout::Reading;
use refusals::Refusal;
use tracing::Traced;

// The number for a refusal.
fn code(why: Refusal) -> u64
    ensures { result ≡ told_place why.place * 256 + number_of why.kind }
{
    let kind = why.kind;
    told_place(why.place as u64) * 256 + u64::from(u8::from(kind))
}

// A place that leaves room for the number.
fn told_place(place: u64) -> u64
    ensures { (result ≡ told_place place) × (result < 2 ^ 56) }
{
    if place < 72057594037927936 {
        return place;
    }
    72057594037927935
}

// What a call that accepts answers, as the numbers that come back: four at most.
pub trait Values<const N: usize> {
    ghost values: { Self → List ℕ };

    fn values(self) -> [u64; N]
        ensures { result ≡ values self };

    ghost few: { N ≤ 4 };
}

impl Values<4> for Reading {
    ghost values = { λ r. r.states ∷ r.labels ∷ r.start ∷ r.edges ∷ [] };

    fn values(self) -> [u64; 4] {
        [
            self.states as u64,
            self.labels as u64,
            self.start as u64,
            self.edges as u64,
        ]
    }

    ghost few = { Prim.search rules };
}

// A length.
impl Values<1> for usize {
    ghost values = { λ n. n ∷ [] };

    fn values(self) -> [u64; 1] {
        [self as u64]
    }

    ghost few = { Prim.search rules };
}

impl Values<2> for Traced {
    ghost values = { ride_values };

    fn values(self) -> [u64; 2] {
        match self {
            Traced::All => [0, 0],
            Traced::Stopped(i) => [1, i as u64],
        }
    }

    ghost few = { Prim.search rules };
}

impl Values<4> for Counts {
    ghost values = { λ c. c.states ∷ c.colours ∷ c.rounds ∷ c.length ∷ [] };

    fn values(self) -> [u64; 4] {
        [
            self.states as u64,
            self.colours as u64,
            self.rounds as u64,
            self.length as u64,
        ]
    }

    ghost few = { Prim.search rules };
}

// What a call's answer becomes: the number that is returned, and the values.
pub fn told<const N: usize, A: Values<N>>(answer: Result<A, Refusal>, values: &mut [u64; N]) -> u64
    ensures { Spoken (outcome_of A.values answer) values.old result values.new }
{
    match answer {
        Ok(accepted) => {
            *values = accepted.values();
            0
        }
        Err(why) => code(why),
    }
}
