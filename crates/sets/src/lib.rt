// Sets of numbers below 64 in one word, a bit each, and of numbers below 256 in four.
#![tactic(auto)]

ghost use Rattle.std.specs.Prelude.{◌≡◌, not, ◌&&◌, ◌||◌, ℕ, ◌^◌, ◌≤◌, ◌<◌, eqb};
ghost use Rattle.std.specs.Int.Count.{ones};
ghost use Rattle.std.specs.Iterator.{at_most};
ghost use Rattle.sets.specs.Sets.{holds, Lowest, Missing, Taken};

// Whether k is in the set.
pub fn holds(set: u64, k: usize) -> bool
    requires { k < 64 }
    ensures { result ≡ holds set k }
{
    (set >> k) % 2 == 1
}

// The set with k in it.
pub fn with(set: u64, k: usize) -> u64
    requires { k < 64 }
    ensures { (j : ℕ) → holds result j ≡ (eqb k j || holds set j) }
{
    set | (1u64 << k)
}

// What is in either set.
pub fn joined(a: u64, b: u64) -> u64
    ensures { (j : ℕ) → holds result j ≡ (holds a j || holds b j) }
{
    a | b
}

// What is in both sets.
pub fn shared(a: u64, b: u64) -> u64
    ensures { (j : ℕ) → holds result j ≡ (holds a j && holds b j) }
{
    a & b
}

// What is in a and not in b.
pub fn less(a: u64, b: u64) -> u64
    ensures { (j : ℕ) → holds result j ≡ (holds a j && not (holds b j)) }
{
    a ^ (a & b)
}

// The numbers below 64 that are not in the set.
fn others(set: u64) -> u64
    ensures { (j : ℕ) → j < 64 → holds result j ≡ not (holds set j) }
{
    !set
}

// How many numbers are in the set.
pub fn size(set: u64) -> usize
    ensures { (result ≡ ones set) × (result ≤ 64) × (set < 2 ^ 64) }
{
    u64::count_ones(set) as usize
}

// The smallest number of a set that has one.
pub fn lowest(set: u64) -> usize
    requires { 0 < set }
    ensures { (result < 64) × Lowest set result }
{
    u64::trailing_zeros(set) as usize
}

// The set without its smallest number.
pub fn without_lowest(set: u64) -> u64
    requires { 0 < set }
    ensures { (result < set) × ((k j : ℕ) → Lowest set k → holds result j ≡ (holds set j && not (eqb k j))) }
{
    set & (set - 1)
}

// The numbers of a set, ascending.
#[derive(Clone, Copy)]
pub struct Members {
    pub rest: u64,
}

pub fn each(set: u64) -> Members
    ensures { result.rest ≡ set }
{
    Members { rest: set }
}

impl Iterator for Members {
    type Item = usize;

    ghost next_gives = { λ before item after. Taken before.rest item after.rest };

    ghost remaining = { λ s. at_most s.rest };

    #[inline(always)]
    fn next(&mut self) -> Option<usize> {
        if self.rest == 0 {
            return None;
        }
        let k = lowest(self.rest);
        self.rest = without_lowest(self.rest);
        Some(k)
    }
}

// A set of numbers below 256: number k is number k % 64 of word k / 64.
#[derive(Drop)]
pub struct Four {
    pub words: [u64; 4],
}

impl Four {
    // The smallest number that is not in the set; 256 where all are.
    pub fn smallest_missing(self) -> usize
        ensures { (result ≤ 256) × Missing self.words result }
    {
        for (w, word) in self.words.iter().enumerate() {
            let free = others(*word);
            if 0 < free {
                return w * 64 + lowest(free);
            }
        }
        256
    }
}
