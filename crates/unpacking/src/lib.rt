// Unpacking a filter file.
#![tactic(auto)]

ghost use Rattle.std.specs.Prelude.{◌≡◌, ◌++◌, ◌*◌, drop};
ghost use Rattle.layout.specs.Layout.{flat};
ghost use Rattle.layout.specs.Contents.{edges_from};
ghost use Rattle.checking.specs.Promise.{CheckPromise};
ghost use Rattle.unpacking.specs.Promise.{rooms, UnpackPromise, Readable};

use layout::{Format, Profile, Reading};
use refusals::{Kind, Refusal};

// Reads the file's numbers and puts its colours and edges into the two rooms, or says why it is refused.
pub fn unpack<F: Format>(
    file: &[u8],
    colours: &mut [u8],
    edges: &mut [u8],
) -> Result<Reading, Refusal>
    ensures { UnpackPromise F.profile file.now (rooms colours.old edges.old)
        result (rooms colours.new edges.new) }
{
    // The call is compiled once a kind of file: inlined here, it would take the registers of the loop that writes the edges.
    let checked = checking::check::<F>(file);
    unpack_as(F::profile(), checked, file, colours, edges)
}

// The same for any widths, of a file that was checked.
fn unpack_as(
    p: Profile,
    checked: Result<Reading, Refusal>,
    file: &[u8],
    colours: &mut [u8],
    edges: &mut [u8],
) -> Result<Reading, Refusal>
    requires { CheckPromise p file.now checked }
    ensures { UnpackPromise p file.now (rooms colours.old edges.old)
        result (rooms colours.new edges.new) }
{
    let Ok(r) = checked else {
        return checked;
    };
    let n = r.states;
    let e = r.edges;
    if colours.len() < n {
        return Err(Kind::Room.into());
    }
    if edges.len() < 3 * e {
        return Err(Kind::Room.into());
    }
    pen::get_run(file, layout::header_bits(p), p.colour, n, colours);
    get_edges(p, file, layout::edges_begin(p, n), e, edges);
    Ok(r)
}

// Reads e edges from bit `at` on into the first 3e entries of out; the rest stays.
pub fn get_edges(p: Profile, file: &[u8], at: usize, e: usize, out: &mut [u8])
    requires { Readable p at e out.old }
    ensures { out.new ≡ flat (edges_from p file.now at e) ++ drop (3 * e) out.old }
{
    let mut o = 0;
    for placed in layout::edge::each(p, file, at, e) {
        let edge = layout::edge::bare(placed);
        out[o] = edge.source as u8;
        out[o + 1] = edge.label as u8;
        out[o + 2] = edge.target as u8;
        o += 3;
    }
}
