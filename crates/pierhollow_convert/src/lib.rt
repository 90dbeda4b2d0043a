// The calls for C that turn a file of one profile into one of the other. They need both files' widths, and stand apart so that no other
// call pays for that.
#![tactic(auto)]

ghost use Rattle.layout.specs.Layout.{large, pocket};
ghost use Rattle.telling.specs.ToC.{ConvertToC};

use layout::{Large, Pocket};

#[unsafe(no_mangle)]
pub extern "C" fn pierhollow_to_large(file: &[u8], room: &mut [u8], values: &mut [u64; 1]) -> u64
    ensures { ConvertToC pocket large file.now room.old values.old result room.new
        values.new }
{
    telling::told(converting::to::<Large>(file, room), values)
}

#[unsafe(no_mangle)]
pub extern "C" fn pierhollow_to_pocket(file: &[u8], room: &mut [u8], values: &mut [u64; 1]) -> u64
    ensures { ConvertToC large pocket file.now room.old values.old result room.new
        values.new }
{
    telling::told(converting::to::<Pocket>(file, room), values)
}
