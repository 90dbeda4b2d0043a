// One field of bits in a slice of bytes, most significant bit first.
#![tactic(auto)]

ghost use Rattle.std.specs.Prelude.{◌≡◌, ◌+◌, ◌*◌, ◌%◌, ◌^◌, ◌≤◌, ◌<◌, get_or, set};
ghost use Rattle.bits.specs.Bits.{field, put_field, splice};

// The byte at i, or 0 past the end.
fn byte_at(s: &[u8], i: usize) -> u64
    ensures { (result ≡ get_or s.now i 0) × (result < 256) }
{
    if i < s.len() { u64::from(s[i]) } else { 0 }
}

// The four bytes from q on as one number; bytes past the end count as 0.
fn end_window(s: &[u8], q: usize) -> u64
    requires { q < 2 ^ 62 }
    ensures { (result ≡ field s.now (q * 8) 32) × (result < 2 ^ 32) }
{
    byte_at(s, q) * 16777216
        + byte_at(s, q + 1) * 65536
        + byte_at(s, q + 2) * 256
        + byte_at(s, q + 3)
}

// The same; where all four are inside the compiler can make one load of them.
fn window(s: &[u8], q: usize) -> u64
    requires { q < 2 ^ 62 }
    ensures { (result ≡ field s.now (q * 8) 32) × (result < 2 ^ 32) }
{
    if q + 4 <= s.len() {
        u64::from(s[q]) * 16777216
            + u64::from(s[q + 1]) * 65536
            + u64::from(s[q + 2]) * 256
            + u64::from(s[q + 3])
    } else {
        end_window(s, q)
    }
}

// The `width` bits from bit `at` on; bits past the end count as 0.
pub fn get(s: &[u8], at: usize, width: usize) -> u64
    requires { width ≤ 24 }
    ensures { (result ≡ field s.now at width) × (result < 2 ^ width) }
{
    let x = window(s, at / 8);
    (x >> (32 - at % 8 - width)) % (1u64 << width)
}

// The eight bytes from q on as one number; bytes past the end count as 0. Where all eight are inside the compiler can make one load
// of them.
fn long_window(s: &[u8], q: usize) -> u64
    requires { q < 2 ^ 61 }
    ensures { (result ≡ field s.now (q * 8) 64) × (result < 2 ^ 64) }
{
    if q + 8 <= s.len() {
        (u64::from(s[q]) * 16777216
            + u64::from(s[q + 1]) * 65536
            + u64::from(s[q + 2]) * 256
            + u64::from(s[q + 3]))
            * 4294967296
            + (u64::from(s[q + 4]) * 16777216
                + u64::from(s[q + 5]) * 65536
                + u64::from(s[q + 6]) * 256
                + u64::from(s[q + 7]))
    } else {
        window(s, q) * 4294967296 + window(s, q + 4)
    }
}

// The 48 bits from bit `at` on; bits past the end count as 0.
pub fn get_long(s: &[u8], at: usize) -> u64
    ensures { (result ≡ field s.now at 48) × (result < 2 ^ 48) }
{
    let x = long_window(s, at / 8);
    (x >> (16 - at % 8)) % 281474976710656
}

// x with the `width` bits above its lowest k replaced by value.
fn spliced(x: u64, width: usize, k: usize, value: u64) -> u64
    requires { (width + k ≤ 32) × (value < 2 ^ width) × (x < 2 ^ 32) }
    ensures { (result ≡ splice width k value x) × (result < 2 ^ 32) }
{
    let high = (x >> (width + k)) << width;
    ((high + value) << k) + x % (1u64 << k)
}

// Stores b at i, where there is such a place.
fn set_byte(s: &mut [u8], i: usize, b: u64)
    requires { b < 256 }
    ensures { s.new ≡ set s.old i b }
{
    if i < s.len() {
        s[i] = b as u8;
    }
}

// Stores the four bytes of y from q on, each where there is such a place.
fn set_end(s: &mut [u8], q: usize, y: u64)
    requires { (q < 2 ^ 62) × (y < 2 ^ 32) }
    ensures { s.new ≡ put_field s.old (q * 8) 32 y }
{
    set_byte(s, q, y / 16777216);
    set_byte(s, q + 1, y / 65536 % 256);
    set_byte(s, q + 2, y / 256 % 256);
    set_byte(s, q + 3, y % 256);
}

// The same; where all four places are inside the compiler can make one store of them.
pub fn set_window(s: &mut [u8], q: usize, y: u64)
    requires { (q < 2 ^ 62) × (y < 2 ^ 32) }
    ensures { s.new ≡ put_field s.old (q * 8) 32 y }
{
    if q + 4 <= s.len() {
        s[q] = (y / 16777216) as u8;
        s[q + 1] = (y / 65536 % 256) as u8;
        s[q + 2] = (y / 256 % 256) as u8;
        s[q + 3] = (y % 256) as u8;
    } else {
        set_end(s, q, y);
    }
}

// Writes value to the `width` bits from bit `at` on; all other bits stay.
pub fn put(s: &mut [u8], at: usize, width: usize, value: u64)
    requires { (at % 8 + width ≤ 32) × (value < 2 ^ width) }
    ensures { s.new ≡ put_field s.old at width value }
{
    let q = at / 8;
    let x = window(s, q);
    let y = spliced(x, width, 32 - at % 8 - width, value);
    set_window(s, q, y);
}
