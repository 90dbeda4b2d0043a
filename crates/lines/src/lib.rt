// The lines that `reduce` prints, and the refusal line, put into a lent room one behind another.
#![tactic(auto)]

ghost use Rattle.std.specs.Prelude.{◌≡◌, ◌+◌, ◌*◌, ◌<◌, ◌≤◌, length};
ghost use Rattle.refusals.specs.Refusals.{number_of};
ghost use Rattle.text.specs.Decimal.{wrote};
ghost use Rattle.lines.specs.Text.{pair_line, four_line, refusal_line, number_line, number_lines, reduced_text};

use refusals::Refusal;

// Two numbers on a line.
fn put_two(room: &mut [u8], at: usize, a: u64, b: u64) -> usize
    requires { at + 42 ≤ length room.old }
    ensures { (room.new ≡ wrote room.old at (pair_line a b)) × (result ≡ at + length (pair_line a b))
        × (result ≤ at + 42) }
{
    let second = text::put_number(room, at, a, b' ');
    text::put_number(room, second, b, b'\n')
}

// Four numbers on a line, at the room's beginning.
fn put_four(room: &mut [u8], a: u64, b: u64, c: u64, d: u64) -> usize
    requires { 84 ≤ length room.old }
    ensures { (room.new ≡ wrote room.old 0 (four_line a b c d)) × (result ≡ length (four_line a b c d))
        × (result ≤ 84) }
{
    let second = text::put_number(room, 0, a, b' ');
    let third = text::put_number(room, second, b, b' ');
    put_two(room, third, c, d)
}

// The refusal line. Answers the place behind it.
pub fn put_refusal(room: &mut [u8], at: usize, why: Refusal) -> usize
    requires { at + 50 ≤ length room.old }
    ensures { (room.new ≡ wrote room.old at (refusal_line (number_of why.kind) why.place))
        × (result ≡ at + length (refusal_line (number_of why.kind) why.place)) × (result ≤ at + 50) }
{
    let kind = why.kind;
    let place = why.place;
    let behind = text::put(room, at, b"refused ");
    put_two(room, behind, u64::from(u8::from(kind)), place as u64)
}

// A state's number and its new number on a line, `-` for a dropped state.
fn put_state(room: &mut [u8], at: usize, s: u64, new: u16) -> usize
    requires { at + 42 ≤ length room.old }
    ensures { (room.new ≡ wrote room.old at (number_line s new)) × (result ≡ at + length (number_line s new))
        × (result ≤ at + 42) }
{
    if new == 65535 {
        let behind = text::put_number(room, at, s, b' ');
        return text::put(room, behind, b"-\n");
    }
    put_two(room, at, s, u64::from(new))
}

// The line of each state.
fn put_states(room: &mut [u8], at: usize, numbers: &[u16]) -> usize
    requires { at + 42 * length numbers.now ≤ length room.old }
    ensures { (room.new ≡ wrote room.old at (number_lines 0 numbers.now))
        × (result ≡ at + length (number_lines 0 numbers.now)) × (result ≤ at + 42 * length numbers.now) }
{
    let mut end = at;
    for (i, number) in numbers.iter().enumerate() {
        end = put_state(room, end, i as u64, *number);
    }
    end
}

// What reduce prints of an accepted file, with the new number of each of its states. Answers its length.
pub fn put_reduced(
    room: &mut [u8],
    n: usize,
    states: usize,
    colours: usize,
    rounds: usize,
    classes: &[u16],
) -> usize
    requires { 42 * length classes.now + 84 ≤ length room.old }
    ensures { (room.new ≡ wrote room.old 0 (reduced_text n states colours rounds classes.now))
        × (result ≡ length (reduced_text n states colours rounds classes.now))
        × (result ≤ 42 * length classes.now + 84) }
{
    let at = put_four(room, n as u64, states as u64, colours as u64, rounds as u64);
    put_states(room, at, classes)
}

// Room for the largest file and one byte more, so that a longer file is seen to be longer.
pub fn file_room() -> [u8; 45254]
    ensures { 45254 ≡ length result }
{
    [0; 45254]
}

// Room for what reduce prints of 256 states, and for its refusal line.
pub fn reduce_room() -> [u8; 10836]
    ensures { 10836 ≡ length result }
{
    [0; 10836]
}

// A class entry for each of the most states that a file has.
pub fn class_room() -> [u16; 256]
    ensures { 256 ≡ length result }
{
    [0; 256]
}
