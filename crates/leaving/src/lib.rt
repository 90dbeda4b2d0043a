// The first edge of a file that leaves the fault colour, looked for when every edge has passed 7, 8 and 9. Edges ascend by their
// sources: those of a state stand side by side and are found by halving, so that only edges out of a state of that colour are read again.
#![tactic(auto)]

ghost use Rattle.std.specs.Prelude.{◌≡◌, false, ◌+◌, ◌*◌, ◌^◌, ◌≤◌, ◌<◌};
ghost use Rattle.std.proofs.Math.Option.{some};
ghost use Rattle.layout.specs.Layout.{edge_bits, edges_begin};
ghost use Rattle.layout.specs.Contents.{colour_at, placed_at};
ghost use Rattle.edges.specs.Walk.{fault_of};
ghost use Rattle.leaving.specs.Leaving.{Passed, leaving_in, EdgesOf, Halved, NoneIs63};

use layout::Profile;
use layout::edge::Placed;
use refusals::{Kind, Refusal};

// Looks state by state, and at eight of them in one go where none of these has the colour.
pub fn first(p: Profile, colour: usize, file: &[u8], n: usize, e: usize) -> Result<(), Refusal>
    requires { Passed p file.now n e × (p.fault ≡ Some colour) }
    ensures { fault_of result ≡ leaving_in p file.now n e }
{
    let begin = layout::header_bits(p);
    let mut s = 0;
    while s < n {
        if some_is_63(bits::get_long(file, begin + 6 * s)) {
            if layout::colour(p, file, s) == colour {
                edges_of(p, colour, file, n, e, s)?;
            }
            s += 1;
        } else {
            s += 8;
        }
    }
    Ok(())
}

// Whether one of eight fields of six bits is 63. One is added to each field: if a top bit is gone then, some field was 63.
fn some_is_63(eight: u64) -> bool
    requires { eight < 2 ^ 48 }
    ensures { result ≡ false → NoneIs63 eight }
{
    let tops = sets::shared(eight, 142971416741920);
    0 < sets::less(tops, eight + 4467856773185)
}

// The edges of a state of the fault colour: the first that leaves it.
fn edges_of(
    p: Profile,
    colour: usize,
    file: &[u8],
    n: usize,
    e: usize,
    state: usize,
) -> Result<(), Refusal>
    requires { Passed p file.now n e × (p.fault ≡ Some colour) × (colour_at p file.now state ≡ colour) }
    ensures { EdgesOf p file.now n e colour state result }
{
    for i in first_from(p, file, n, e, state)..e {
        let edge = edge_at(p, file, n, i);
        let source = edge.source;
        if source.value != state {
            return Ok(());
        }
        let target = edge.target;
        if layout::colour(p, file, target.value) != colour {
            return leaving_at(source.place);
        }
    }
    Ok(())
}

// The index of the first edge whose source is not before a state; e where there is none.
fn first_from(p: Profile, file: &[u8], n: usize, e: usize, state: usize) -> usize
    requires { Passed p file.now n e }
    ensures { Halved p file.now n e state result result }
{
    let mut low = 0;
    let mut high = e;
    while low < high {
        let middle = (low + high) / 2;
        let edge = edge_at(p, file, n, middle);
        let source = edge.source;
        if source.value < state {
            low = middle + 1;
        } else {
            high = middle;
        }
    }
    low
}

// Edge i of a file with n states.
fn edge_at(p: Profile, file: &[u8], n: usize, i: usize) -> Placed
    requires { (n ≤ 256) × (i < 32768) }
    ensures { result ≡ placed_at p file.now (edges_begin p n + edge_bits p * i) }
{
    layout::edge::read(
        p,
        file,
        layout::edges_begin(p, n) + layout::edge_bits(p) * i,
    )
}

fn leaving_at(place: usize) -> Result<(), Refusal>
    ensures { fault_of result ≡ some (record { number = 17; place = place }) }
{
    Err(Refusal {
        kind: Kind::Leaving,
        place,
    })
}
