// What `reduce` prints of a filter file.
#![tactic(auto)]

ghost use Rattle.std.specs.Prelude.{◌≡◌, ◌≤◌, length};
ghost use Rattle.text.specs.Decimal.{wrote};
ghost use Rattle.text.specs.Printed.{Printed};
ghost use Rattle.report.specs.Report.{reduce_text};

use layout::{Format, Large};

// Puts what `reduce` prints of a file at the beginning of the room, and answers its length; nothing, and 0, where the room is
// too short.
pub fn text(file: &[u8], room: &mut [u8]) -> usize
    ensures { Printed (reduce_text file.now) room.old result room.new }
{
    let mut made = lines::reduce_room();
    let k = put_text(&mut made, file);
    text::print(&made[..k], room)
}

// The same into a room that is long enough for any.
fn put_text(room: &mut [u8], file: &[u8]) -> usize
    requires { 10836 ≤ length room.old }
    ensures { (room.new ≡ wrote room.old 0 (reduce_text file.now))
        × (result ≡ length (reduce_text file.now)) × (result ≤ 10836) }
{
    let n = layout::states(Large::profile(), file);
    let mut answer = lines::file_room();
    let mut classes = lines::class_room();
    match reduction::reduce::<Large>(file, &mut answer, &mut classes) {
        Ok(counts) => lines::put_reduced(
            room,
            n,
            counts.states,
            counts.colours,
            counts.rounds,
            &classes[..n],
        ),
        Err(why) => lines::put_refusal(room, 0, why),
    }
}
