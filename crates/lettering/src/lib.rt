// One statement of a drawing, put into a lent room: fixed words are copied, with the numbers between them. And how long it is.
#![tactic(auto)]

ghost use Rattle.std.specs.Prelude.{◌≡◌, ◌++◌, ◌+◌, ◌≤◌, ◌<◌, length};
ghost use Rattle.text.specs.Decimal.{decimal, wrote};
ghost use Rattle.layout.specs.Code.{edge_of, Small};
ghost use Rattle.drawing.specs.Profile.{state_line, edge_line};

use layout::edge::Edge;

// A number of one to three digits.
fn put_short(room: &mut [u8], at: usize, n: usize) -> usize
    requires { (n < 1000) × (at + 3 ≤ length room.old) }
    ensures { (room.new ≡ wrote room.old at (decimal n)) × (result ≡ at + length (decimal n)) }
{
    if n < 10 {
        room[at] = 48 + n as u8;
        return at + 1;
    }
    if n < 100 {
        room[at] = 48 + (n / 10) as u8;
        room[at + 1] = 48 + (n % 10) as u8;
        return at + 2;
    }
    room[at] = 48 + (n / 100) as u8;
    room[at + 1] = 48 + (n / 10 % 10) as u8;
    room[at + 2] = 48 + (n % 10) as u8;
    at + 3
}

// A number and the word behind it, which has three bytes or more.
fn put_with(room: &mut [u8], at: usize, n: usize, word: &[u8]) -> usize
    requires { (n < 1000) × (3 ≤ length word.now) × (at + length (decimal n ++ word.now) ≤ length room.old) }
    ensures { (room.new ≡ wrote room.old at (decimal n ++ word.now))
        × (result ≡ at + length (decimal n ++ word.now)) }
{
    let end = put_short(room, at, n);
    text::put(room, end, word)
}

// A state's statement. Answers the place behind it.
pub fn put_state(room: &mut [u8], at: usize, s: usize, colour: usize) -> usize
    requires { (s < 1000) × (colour < 1000) × (at + length (state_line s colour) ≤ length room.old) }
    ensures { (room.new ≡ wrote room.old at (state_line s colour))
        × (result ≡ at + length (state_line s colour)) }
{
    let behind = put_with(room, at, s, b" [label=");
    put_with(room, behind, colour, b"];\n")
}

// An edge's statement. Answers the place behind it.
pub fn put_edge(room: &mut [u8], at: usize, edge: Edge) -> usize
    requires { Small edge × (at + length (edge_line (edge_of edge)) ≤ length room.old) }
    ensures { (room.new ≡ wrote room.old at (edge_line (edge_of edge)))
        × (result ≡ at + length (edge_line (edge_of edge))) }
{
    let source = put_with(room, at, edge.source, b" -> ");
    let target = put_with(room, source, edge.target, b" [label=");
    put_with(room, target, edge.label, b"];\n")
}

// How many digits a number has.
fn digits(n: usize) -> usize
    requires { n < 1000 }
    ensures { (result ≡ length (decimal n)) × (result ≤ 3) }
{
    if n < 10 {
        return 1;
    }
    if n < 100 {
        return 2;
    }
    3
}

// The length of a state's statement.
pub fn state_length(s: usize, colour: usize) -> usize
    requires { (s < 1000) × (colour < 1000) }
    ensures { (result ≡ length (state_line s colour)) × (result ≤ 17) }
{
    digits(s) + 8 + digits(colour) + 3
}

// The length of an edge's statement.
pub fn edge_length(edge: Edge) -> usize
    requires { Small edge }
    ensures { (result ≡ length (edge_line (edge_of edge))) × (result ≤ 24) }
{
    digits(edge.source) + 4 + digits(edge.target) + 8 + digits(edge.label) + 3
}
