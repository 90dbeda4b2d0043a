// What `trace` prints of a filter file and observations: its lines, put into a lent room one behind another.
#![tactic(auto)]

ghost use Rattle.std.specs.Prelude.{◌≡◌, ◌++◌, ◌+◌, ◌*◌, ◌≤◌, length};
ghost use Rattle.text.specs.Decimal.{wrote};
ghost use Rattle.lines.specs.Text.{ended};
ghost use Rattle.text.specs.Printed.{Printed};
ghost use Rattle.shown.specs.Text.{stopped_word, number_lines, last_line, shown_for, trace_text};

use layout::Large;
use refusals::Refusal;
use tracing::Traced;

// Puts what `trace` prints of a file and observations at the beginning of the room, and answers its length; nothing, and 0, where
// the room is too short.
pub fn text(file: &[u8], observations: &[u8], room: &mut [u8]) -> usize
    ensures { Printed (trace_text file.now observations.now) room.old result
        room.new }
{
    let mut made = trace_room();
    let k = put_text(&mut made, file, observations);
    text::print(&made[..k], room)
}

// The same into a room that is long enough for any.
fn put_text(room: &mut [u8], file: &[u8], observations: &[u8]) -> usize
    requires { 262208 ≤ length room.old }
    ensures { (room.new ≡ wrote room.old 0 (trace_text file.now observations.now))
        × (result ≡ length (trace_text file.now observations.now)) × (result ≤ 262208) }
{
    let mut colours = io::large_buffer();
    let answer = tracing::trace::<Large>(file, observations, &mut colours);
    let k = shown(answer, observations.len());
    put_trace(room, &colours[..k], answer)
}

// How many colours were shown.
fn shown(answer: Result<Traced, Refusal>, observations: usize) -> usize
    requires { shown_for answer observations ≤ 65536 }
    ensures { result ≡ shown_for answer observations }
{
    match answer {
        Ok(Traced::All) => observations + 1,
        Ok(Traced::Stopped(i)) => i + 1,
        Err(_) => 0,
    }
}

// A number on a line of its own.
fn put_line(room: &mut [u8], at: usize, n: u8) -> usize
    requires { at + 21 ≤ length room.old }
    ensures { (room.new ≡ wrote room.old at (ended n)) × (result ≡ at + length (ended n)) × (result ≤ at + 4) }
{
    text::put_number(room, at, u64::from(n), b'\n')
}

// The numbers, one a line.
fn put_lines(room: &mut [u8], numbers: &[u8]) -> usize
    requires { 4 * length numbers.now + 21 ≤ length room.old }
    ensures { (room.new ≡ wrote room.old 0 (number_lines numbers.now))
        × (result ≡ length (number_lines numbers.now)) × (result ≤ 4 * length numbers.now) }
{
    let mut at = 0;
    for number in numbers {
        at = put_line(room, at, *number);
    }
    at
}

fn put_stop(room: &mut [u8], at: usize, i: usize) -> usize
    requires { at + 50 ≤ length room.old }
    ensures { (room.new ≡ wrote room.old at (stopped_word ++ ended i))
        × (result ≡ at + length (stopped_word ++ ended i)) × (result ≤ at + 50) }
{
    let word = text::put(room, at, b"stopped ");
    text::put_number(room, word, i as u64, b'\n')
}

// The last line of what trace prints.
fn put_last(room: &mut [u8], at: usize, answer: Result<Traced, Refusal>) -> usize
    requires { at + 50 ≤ length room.old }
    ensures { (room.new ≡ wrote room.old at (last_line answer)) × (result ≡ at + length (last_line answer))
        × (result ≤ at + 50) }
{
    match answer {
        Ok(Traced::All) => text::put(room, at, b"traced\n"),
        Ok(Traced::Stopped(i)) => put_stop(room, at, i),
        Err(why) => lines::put_refusal(room, at, why),
    }
}

// The colours that were shown, one a line, and the last line. Answers the length of both.
fn put_trace(room: &mut [u8], colours: &[u8], answer: Result<Traced, Refusal>) -> usize
    requires { 4 * length colours.now + 50 ≤ length room.old }
    ensures { (room.new ≡ wrote room.old 0 (number_lines colours.now ++ last_line answer))
        × (result ≡ length (number_lines colours.now ++ last_line answer)) × (result ≤ 4 * length colours.now + 50) }
{
    let at = put_lines(room, colours);
    put_last(room, at, answer)
}

// Room for what trace prints of 65,536 colours.
pub fn trace_room() -> [u8; 262208]
    ensures { 262208 ≡ length result }
{
    [0; 262208]
}
