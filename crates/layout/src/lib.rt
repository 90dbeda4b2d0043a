// How a filter stands in a file: the widths of its fields, sizes and positions, the four numbers before the colours, and one
// edge.
#![tactic(auto)]

pub mod edge; // one edge, read or written
pub mod header; // the four numbers before the colours
mod profile; // the kinds of file

ghost use Rattle.std.specs.Prelude.{◌≡◌, ◌≤◌, ◌^◌};
ghost use Rattle.bits.specs.Bits.{put_field};
ghost use Rattle.layout.specs.Layout.{header_bits, edge_bits, edges_begin, file_bits, fill_bits, bytes_for};
ghost use Rattle.layout.specs.Contents.{states_in, colour_at};

pub use profile::{Format, Large, Pocket, Profile};

// A field and its place: in a file the position of its first bit, in a list the index of its edge.
#[derive(Clone, Copy)]
pub struct Field {
    pub value: usize,
    pub place: usize,
}

// The numbers of an accepted file: n, m, the start and e.
#[derive(Clone, Copy)]
pub struct Reading {
    pub states: usize,
    pub labels: usize,
    pub start: usize,
    pub edges: usize,
}

pub fn header_bits(p: Profile) -> usize
    ensures { (result ≡ header_bits p) × (result ≤ 48) }
{
    p.states + p.labels + p.start + p.edges
}

pub fn edge_bits(p: Profile) -> usize
    ensures { (result ≡ edge_bits p) × (result ≤ 24) }
{
    p.states + p.labels + p.states
}

pub fn edges_begin(p: Profile, n: usize) -> usize
    requires { n ≤ 256 }
    ensures { (result ≡ edges_begin p n) × (result ≤ 2096) }
{
    header_bits(p) + p.colour * n
}

pub fn file_bits(p: Profile, n: usize, e: usize) -> usize
    requires { (n ≤ 256) × (e ≤ 65536) }
    ensures { (result ≡ file_bits p n e) × (result ≤ 1574960) }
{
    edges_begin(p, n) + edge_bits(p) * e
}

// The least whole number of bytes that holds so many bits.
pub fn bytes_for(bits: usize) -> usize
    requires { bits ≤ 2 ^ 32 }
    ensures { result ≡ bytes_for bits }
{
    bits.div_ceil(8)
}

// The colour of a state of a file.
pub fn colour(p: Profile, file: &[u8], state: usize) -> usize
    requires { state ≤ 256 }
    ensures { result ≡ colour_at p file.now state }
{
    bits::get(file, header_bits(p) + p.colour * state, p.colour) as usize
}

// The number of states that a file states, whether it is accepted or not.
pub fn states(p: Profile, file: &[u8]) -> usize
    ensures { (result ≡ states_in p file.now) × (result ≤ 256) }
{
    bits::get(file, 0, p.states) as usize + 1
}

// How many bits there are from the last edge to the end of its byte.
pub fn fill_bits(p: Profile, n: usize, e: usize) -> usize
    requires { (n ≤ 256) × (e ≤ 65536) }
    ensures { result ≡ fill_bits p n e }
{
    let bits = file_bits(p, n, e);
    bytes_for(bits) * 8 - bits
}

// Zero bits to the end of the byte.
pub fn fill(p: Profile, room: &mut [u8], n: usize, e: usize)
    requires { (n ≤ 256) × (e ≤ 65536) }
    ensures { room.new ≡ put_field room.old (file_bits p n e) (fill_bits p n e) 0 }
{
    bits::put(room, file_bits(p, n, e), fill_bits(p, n, e), 0);
}
