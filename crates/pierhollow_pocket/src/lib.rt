// The calls for C on pocket files, apart from those on large files: an archive that reaches the body of a call with one file's widths
// alone is compiled for these widths. Numbers and values are told as by the calls for large files.
#![tactic(auto)]

ghost use Rattle.layout.specs.Layout.{pocket};
ghost use Rattle.unpacking.specs.Promise as unpacking;
ghost use Rattle.folding.specs.Folding as folding;
ghost use Rattle.telling.specs.ToC.{CheckToC, UnpackToC, PackToC, TraceToC, ReduceToC};

use layout::Pocket;

#[unsafe(no_mangle)]
pub extern "C" fn pierhollow_pocket_check(file: &[u8], values: &mut [u64; 4]) -> u64
    ensures { CheckToC pocket file.now values.old result values.new }
{
    telling::told(checking::check::<Pocket>(file), values)
}

#[unsafe(no_mangle)]
pub extern "C" fn pierhollow_pocket_unpack(
    file: &[u8],
    colours: &mut [u8],
    edges: &mut [u8],
    values: &mut [u64; 4],
) -> u64
    ensures { UnpackToC pocket file.now (unpacking.rooms colours.old edges.old)
        values.old result (unpacking.rooms colours.new edges.new) values.new }
{
    telling::told(unpacking::unpack::<Pocket>(file, colours, edges), values)
}

#[unsafe(no_mangle)]
pub extern "C" fn pierhollow_pocket_pack(
    colours: &[u8],
    edges: &[u8],
    m: usize,
    start: usize,
    room: &mut [u8],
    values: &mut [u64; 1],
) -> u64
    ensures { PackToC pocket colours.now edges.now m start room.old values.old
        result room.new values.new }
{
    telling::told(
        packing::pack::<Pocket>(colours, edges, m, start, room),
        values,
    )
}

#[unsafe(no_mangle)]
pub extern "C" fn pierhollow_pocket_trace(
    file: &[u8],
    observations: &[u8],
    colours: &mut [u8],
    values: &mut [u64; 2],
) -> u64
    ensures { TraceToC pocket file.now observations.now colours.old values.old
        result colours.new values.new }
{
    telling::told(
        tracing::trace::<Pocket>(file, observations, colours),
        values,
    )
}

#[unsafe(no_mangle)]
pub extern "C" fn pierhollow_pocket_reduce(
    file: &[u8],
    answer: &mut [u8],
    classes: &mut [u16],
    values: &mut [u64; 4],
) -> u64
    ensures { ReduceToC pocket file.now (folding.rooms answer.old classes.old)
        values.old result (folding.rooms answer.new classes.new) values.new }
{
    telling::told(reduction::reduce::<Pocket>(file, answer, classes), values)
}
