// The calls for C on large files and drawings. Each returns 0 for accepted, else the refusal's place times 256 plus its number, and a place of 2^56 or more as
// 2^56 - 1; include/pierhollow.h says which value stands where in the lent array.
#![tactic(auto)]

ghost use Rattle.layout.specs.Layout.{large};
ghost use Rattle.unpacking.specs.Promise as unpacking;
ghost use Rattle.folding.specs.Folding as folding;
ghost use Rattle.telling.specs.ToC.{CheckToC, UnpackToC, PackToC, TraceToC, ReduceToC};
ghost use Rattle.telling.specs.ToC.{FromDotToC, ToDotToC};

use layout::Large;

#[unsafe(no_mangle)]
pub extern "C" fn pierhollow_check(file: &[u8], values: &mut [u64; 4]) -> u64
    ensures { CheckToC large file.now values.old result values.new }
{
    telling::told(checking::check::<Large>(file), values)
}

#[unsafe(no_mangle)]
pub extern "C" fn pierhollow_unpack(
    file: &[u8],
    colours: &mut [u8],
    edges: &mut [u8],
    values: &mut [u64; 4],
) -> u64
    ensures { UnpackToC large file.now (unpacking.rooms colours.old edges.old)
        values.old result (unpacking.rooms colours.new edges.new) values.new }
{
    telling::told(unpacking::unpack::<Large>(file, colours, edges), values)
}

#[unsafe(no_mangle)]
pub extern "C" fn pierhollow_pack(
    colours: &[u8],
    edges: &[u8],
    m: usize,
    start: usize,
    room: &mut [u8],
    values: &mut [u64; 1],
) -> u64
    ensures { PackToC large colours.now edges.now m start room.old values.old
        result room.new values.new }
{
    telling::told(
        packing::pack::<Large>(colours, edges, m, start, room),
        values,
    )
}

#[unsafe(no_mangle)]
pub extern "C" fn pierhollow_trace(
    file: &[u8],
    observations: &[u8],
    colours: &mut [u8],
    values: &mut [u64; 2],
) -> u64
    ensures { TraceToC large file.now observations.now colours.old values.old
        result colours.new values.new }
{
    telling::told(tracing::trace::<Large>(file, observations, colours), values)
}

#[unsafe(no_mangle)]
pub extern "C" fn pierhollow_reduce(
    file: &[u8],
    answer: &mut [u8],
    classes: &mut [u16],
    values: &mut [u64; 4],
) -> u64
    ensures { ReduceToC large file.now (folding.rooms answer.old classes.old)
        values.old result (folding.rooms answer.new classes.new) values.new }
{
    telling::told(reduction::reduce::<Large>(file, answer, classes), values)
}

#[unsafe(no_mangle)]
pub extern "C" fn pierhollow_from_dot(text: &[u8], room: &mut [u8], values: &mut [u64; 1]) -> u64
    ensures { FromDotToC large text.now room.old values.old result room.new
        values.new }
{
    telling::told(dot::from_dot(text, room), values)
}

#[unsafe(no_mangle)]
pub extern "C" fn pierhollow_to_dot(file: &[u8], room: &mut [u8], values: &mut [u64; 1]) -> u64
    ensures { ToDotToC large file.now room.old values.old result room.new
        values.new }
{
    telling::told(dot::to_dot(file, room), values)
}
