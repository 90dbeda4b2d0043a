// Text put into a lent room: bytes as they are, and numbers in decimal.
#![tactic(auto)]

ghost use Rattle.std.specs.Prelude.{◌≡◌, [], ◌∷◌, ◌++◌, ◌+◌, ◌≤◌, length};
ghost use Rattle.text.specs.Decimal.{decimal, wrote};
ghost use Rattle.text.specs.Printed.{Printed};

// Puts bytes into the room from `at` on, and answers the place behind them.
pub fn put(room: &mut [u8], at: usize, bytes: &[u8]) -> usize
    requires { at + length bytes.now ≤ length room.old }
    ensures { (room.new ≡ wrote room.old at bytes.now)
        × (result ≡ at + length bytes.now) }
{
    let end = at + bytes.len();
    room[at..end].copy_from_slice(bytes);
    end
}

fn digits() -> [u8; 20]
    ensures { 20 ≡ length result }
{
    [0; 20]
}

// A number in decimal.
fn put_decimal(room: &mut [u8], at: usize, n: u64) -> usize
    requires { at + 20 ≤ length room.old }
    ensures { (room.new ≡ wrote room.old at (decimal n)) × (result ≡ at + length (decimal n))
        × (length (decimal n) ≤ 20) }
{
    let mut text = digits();
    let k = io::decimal(n, &mut text);
    put(room, at, &text[..k])
}

// A number in decimal and the byte behind it.
pub fn put_number(room: &mut [u8], at: usize, n: u64, behind: u8) -> usize
    requires { at + 21 ≤ length room.old }
    ensures { (room.new ≡ wrote room.old at (decimal n ++ (behind ∷ [])))
        × (result ≡ at + length (decimal n ++ (behind ∷ []))) × (result ≤ at + 21) }
{
    let end = put_decimal(room, at, n);
    put(room, end, &[behind])
}

// Puts bytes at the beginning of the room, and answers how many; none where the room is too short.
pub fn print(bytes: &[u8], room: &mut [u8]) -> usize
    ensures { Printed bytes.now room.old result room.new }
{
    if room.len() < bytes.len() {
        return 0;
    }
    put(room, 0, bytes)
}
