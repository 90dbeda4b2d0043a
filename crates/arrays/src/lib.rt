// Fresh arrays with an entry for each of 256 states.
#![tactic(auto)]

ghost use Rattle.std.specs.Prelude.{◌≡◌, length, replicate};

// The same value everywhere.
pub fn filled<T: Copy>(x: T) -> [T; 256]
    ensures { (result ≡ replicate 256 x) × (length result ≡ 256) }
{
    [x; 256]
}
