// A filter file turned into the file of the other profile.
#![tactic(auto)]

ghost use Rattle.converting.specs.Promise.{ConvertPromise};
ghost use Rattle.converting.specs.Code.{Convertible, to_large, to_pocket};

use layout::{Format, Large, Pocket, Profile};
use refusals::{Kind, Refusal};

// A kind of file that files of another kind are turned into.
pub trait Target: Format {
    type From: Format;

    ghost convertible: { Convertible Self.From.profile Self.profile };
}

impl Target for Large {
    type From = Pocket;

    ghost convertible = { to_large };
}

impl Target for Pocket {
    type From = Large;

    ghost convertible = { to_pocket };
}

// Writes the file of the other kind of a file's filter, and answers its length.
pub fn to<T: Target>(file: &[u8], room: &mut [u8]) -> Result<usize, Refusal>
    ensures { ConvertPromise T.From.profile T.profile file.now room.old result room.new }
{
    convert(<T::From as Format>::profile(), T::profile(), file, room)
}

// The same for any two profiles. A filter that both can hold has at most 128 edges.
fn convert(from: Profile, to: Profile, file: &[u8], room: &mut [u8]) -> Result<usize, Refusal>
    requires { Convertible from to }
    ensures { ConvertPromise from to file.now room.old result room.new }
{
    let checked = checking::check_as(from, file);
    let Ok(r) = checked else {
        return Err(checked.unwrap_err());
    };
    let n = r.states;
    let e = r.edges;
    let hues = loading::colours_of(from, file, n);
    let colours = &hues[..n];
    let held = packing::holdable(to, colours, r.labels);
    let length = layout::bytes_for(layout::file_bits(to, n, e));
    if !held {
        return Err(Kind::Pocket.into());
    }
    if room.len() < length {
        return Err(Kind::AnswerRoom.into());
    }
    let mut list = [0; 384];
    unpacking::get_edges(from, file, layout::edges_begin(from, n), e, &mut list);
    packing::write(to, colours, &list[..3 * e], r.labels, r.start, room);
    Ok(length)
}
