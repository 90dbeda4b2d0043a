// Standard input, a file or any other reader, read into a lent room.
#![tactic(auto)]

ghost use Rattle.std.specs.Counts.{IsPrefixLen};

use std::io::Read;

// Reads until the room is full, the input ends or a read fails, and answers how many bytes it put at the room's beginning. Of a room
// without a byte it makes no read.
pub fn read_full<R: Read>(input: &mut R, room: &mut [u8]) -> usize
    ensures { IsPrefixLen result room.new }
{
    let mut done = 0;
    while done < room.len() {
        let n = read_some(input, &mut room[done..]);
        if n == 0 {
            break;
        }
        done += n;
    }
    done
}

// One read; a failed one gives no byte.
fn read_some<R: Read>(input: &mut R, room: &mut [u8]) -> usize
    ensures { IsPrefixLen result room.new }
{
    match input.read(room) {
        Ok(n) => n,
        Err(_) => 0,
    }
}
