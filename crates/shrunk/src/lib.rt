// What `shrink` writes of a filter file.
#![tactic(auto)]

ghost use Rattle.text.specs.Printed.{Printed};
ghost use Rattle.shrunk.specs.Shrunk.{shrink_bytes};

use layout::Large;

// Puts the reduced file's bytes at the beginning of the room, and answers how many; nothing, and 0, where the room is too short.
// Of a refused file there are none.
pub fn bytes(file: &[u8], room: &mut [u8]) -> usize
    ensures { Printed (shrink_bytes file.now) room.old result room.new }
{
    let mut answer = lines::file_room();
    let mut classes = lines::class_room();
    let Ok(counts) = reduction::reduce::<Large>(file, &mut answer, &mut classes) else {
        return 0;
    };
    text::print(&answer[..counts.length], room)
}
