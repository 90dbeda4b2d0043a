// A batch of cases on standard input and their answers on standard output: how they are framed. All numbers are big-endian.
//
// In: 8 bytes, how many cases; then each case: 1 byte, the call; two numbers of 8 bytes; three lengths of 4 bytes; and as many
// bytes for each of the strings a, b and c. Out, each case: 1 byte, the refusal's number or 0; 8 bytes, its place; four counts
// of 8 bytes; then the strings b and c.
#![tactic(auto)]

ghost use Rattle.std.specs.Prelude.{◌≡◌, ◌≤◌, length};
ghost use Rattle.cases.specs.Numbers.{Numbered};

use std::io::{self, Read, Write};

// The calls, each with the number that a case has for it.
#[derive(Clone, Copy, Debug, PartialEq, Eq)]
pub enum Call {
    Check = 1,
    Unpack = 2,
    Pack = 3,
    Trace = 4,
    Reduce = 5,
    FromDot = 6,
    ToDot = 7,
    PocketCheck = 8,
    PocketUnpack = 9,
    PocketPack = 10,
    PocketTrace = 11,
    PocketReduce = 12,
    ToLarge = 13,
    ToPocket = 14,
}

// A number that no call has.
#[derive(Clone, Copy, Debug, PartialEq, Eq)]
pub struct NoCall(pub u8);

impl TryFrom<u8> for Call {
    type Error = NoCall;

    ghost try_from_gives = { Numbered };

    fn try_from(number: u8) -> Result<Call, NoCall> {
        match number {
            1 => Ok(Call::Check),
            2 => Ok(Call::Unpack),
            3 => Ok(Call::Pack),
            4 => Ok(Call::Trace),
            5 => Ok(Call::Reduce),
            6 => Ok(Call::FromDot),
            7 => Ok(Call::ToDot),
            8 => Ok(Call::PocketCheck),
            9 => Ok(Call::PocketUnpack),
            10 => Ok(Call::PocketPack),
            11 => Ok(Call::PocketTrace),
            12 => Ok(Call::PocketReduce),
            13 => Ok(Call::ToLarge),
            14 => Ok(Call::ToPocket),
            _ => Err(NoCall(number)),
        }
    }
}

// What stands before the strings of a case: the call, its two numbers, and the strings' lengths.
#[derive(Clone, Copy)]
pub struct Head {
    pub call: Call,
    pub first: u64,
    pub second: u64,
    pub a: usize,
    pub b: usize,
    pub c: usize,
}

#[derive(Drop)]
pub struct Answer {
    pub number: u8,
    pub place: u64,
    pub counts: [u64; 4],
}

// The next N bytes; none where the input is cut off before their end.
fn next_bytes<const N: usize, R: Read>(input: &mut R) -> Option<[u8; N]> {
    let mut bytes = [0; N];
    if streams::read_full(input, &mut bytes) < N {
        return None;
    }
    Some(bytes)
}

// How many cases there are.
pub fn count<R: Read>(input: &mut R) -> Option<u64> {
    let bytes = next_bytes::<8, R>(input)?;
    Some(u64::from_be_bytes(bytes))
}

// What stands before the next case's strings; none where it is cut off or the call is none of the fourteen.
pub fn next_case<R: Read>(input: &mut R) -> Option<Head> {
    let bytes = next_bytes::<29, R>(input)?;
    head_of(&bytes)
}

fn head_of(bytes: &[u8]) -> Option<Head> {
    let (call, behind) = bytes.split_first()?;
    let (first, behind) = behind.split_first_chunk::<8>()?;
    let (second, behind) = behind.split_first_chunk::<8>()?;
    let (a, behind) = behind.split_first_chunk::<4>()?;
    let (b, behind) = behind.split_first_chunk::<4>()?;
    let (c, _) = behind.split_first_chunk::<4>()?;
    Some(Head {
        call: Call::try_from(*call).ok()?,
        first: u64::from_be_bytes(*first),
        second: u64::from_be_bytes(*second),
        a: u32::from_be_bytes(*a) as usize,
        b: u32::from_be_bytes(*b) as usize,
        c: u32::from_be_bytes(*c) as usize,
    })
}

// Reads the next string, of n bytes, to the front of the room; none where the room is shorter or the string is cut off.
pub fn read_string<'a, R: Read>(
    input: &mut R,
    room: &'a mut [u8],
    n: usize,
) -> Option<&'a mut [u8]> {
    let string = room.get_mut(..n)?;
    if streams::read_full(input, string) < n {
        return None;
    }
    Some(string)
}

// The number, the place and the counts of an answer, in 41 bytes.
pub fn write_answer<W: Write>(output: &mut W, answer: Answer) {
    let mut out = [0u8; 41];
    out[0] = answer.number;
    out[1..9].copy_from_slice(&answer.place.to_be_bytes());
    for (i, count) in answer.counts.iter().enumerate() {
        out[9 + 8 * i..17 + 8 * i].copy_from_slice(&count.to_be_bytes());
    }
    let _ = output.write_all(&out);
}

// Writes the strings behind an answer.
pub fn write_strings<W: Write>(output: &mut W, b: &[u8], c: &[u8]) -> io::Result<()> {
    output.write_all(b)?;
    output.write_all(c)
}

// How many entries of two bytes each a string has; an odd last byte is none. A string is short enough for the most.
pub fn entries_in(s: &[u8]) -> usize
    ensures { result ≤ 65536 }
{
    (s.len() / 2).min(65536)
}

// The entries of a string, and zeros behind them.
pub fn read_entries(s: &[u8]) -> [u16; 65536]
    ensures { 65536 ≡ length result }
{
    let mut list = [0; 65536];
    for (entry, bytes) in list.iter_mut().zip(s.chunks_exact(2)) {
        *entry = u16::from_be_bytes([bytes[0], bytes[1]]);
    }
    list
}

pub fn write_entries(s: &mut [u8], list: &[u16]) {
    for (bytes, entry) in s.chunks_exact_mut(2).zip(list) {
        bytes.copy_from_slice(&entry.to_be_bytes());
    }
}
