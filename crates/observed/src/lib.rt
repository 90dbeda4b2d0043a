// Observations, before a ride: the first that is no label of the filter.
#![tactic(auto)]

ghost use Rattle.std.specs.Prelude.{◌≡◌};
ghost use Rattle.observed.specs.Observed.{first_outside, largest, found};

// The index of the first observation that is m or more.
pub fn first_outside(m: usize, observations: &[u8]) -> Option<usize>
    ensures { found result ≡ first_outside m observations.now }
{
    // The largest is found many at a time, a first one only one by one.
    if usize::from(largest(observations)) < m {
        return None;
    }
    sought_outside(m, observations)
}

// The same, one by one.
fn sought_outside(m: usize, observations: &[u8]) -> Option<usize>
    ensures { found result ≡ first_outside m observations.now }
{
    observations.iter().position(|y| m <= usize::from(*y))
}

// The largest of the values, 0 if there is none. It never leaves early, so that the compiler can take many values at a time.
fn largest(values: &[u8]) -> u8
    ensures { result ≡ largest values.now }
{
    values.iter().fold(0, |most, value| most.max(*value))
}
