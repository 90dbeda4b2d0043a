// Packing a colour list and an edge list into a filter file.
#![tactic(auto)]

ghost use Rattle.std.specs.Prelude.{◌≡◌, ◌∷◌, [], ◌+◌, ◌*◌, ◌/◌, ◌<◌, length};
ghost use Rattle.std.proofs.Math.Option.{none};
ghost use Rattle.pen.specs.Runs.{put_fields};
ghost use Rattle.meaning.specs.Search.{at};
ghost use Rattle.meaning.specs.Fault.{leaves};
ghost use Rattle.refusals.specs.Refusals.{accepted, first_of, room_test, laid};
ghost use Rattle.layout.specs.Layout.{colour_of, edge_widths, threes, from_lists, length_of, written};
ghost use Rattle.layout.specs.Code.{Small, edge_of, edge_in};
ghost use Rattle.edges.specs.Faults.{listed_from, or_else, first_fault, first_leaving};
ghost use Rattle.edges.specs.Walk.{fault_of};
ghost use Rattle.files.specs.Files.{all_below, holdable};
ghost use Rattle.packing.specs.Promise.{packed_outcome, pack_of, PackPromise, Placeable};

use layout::edge::Edge;
use layout::{Format, Profile};
use refusals::{Kind, Refusal};

// Writes the file of a colour list, an edge list, m and a start, and answers its length.
pub fn pack<F: Format>(
    colours: &[u8],
    edges: &[u8],
    m: usize,
    start: usize,
    room: &mut [u8],
) -> Result<usize, Refusal>
    ensures { PackPromise F.profile colours.now edges.now m start room.old
        result room.new }
{
    pack_as(F::profile(), colours, edges, m, start, room)
}

// The same for any widths.
fn pack_as(
    p: Profile,
    colours: &[u8],
    edges: &[u8],
    m: usize,
    start: usize,
    room: &mut [u8],
) -> Result<usize, Refusal>
    ensures { PackPromise p colours.now edges.now m start room.old
        result room.new }
{
    let written = test_lists(p, colours, edges, m, start, room.len())?;
    write(p, colours, edges, m, start, room);
    Ok(written)
}

fn not_packed(kind: Kind) -> Result<usize, Refusal>
    ensures { result ≡ Err (record { kind = kind; place = 0 }) }
{
    Err(kind.into())
}

// What pack answers for its lists, its numbers and the length of its room.
fn test_lists(
    p: Profile,
    colours: &[u8],
    edges: &[u8],
    m: usize,
    start: usize,
    room: usize,
) -> Result<usize, Refusal>
    ensures { packed_outcome result ≡ pack_of p colours.now edges.now m start room }
{
    let n = colours.len();
    let e = edges.len() / 3;
    if !holdable(p, colours, m) {
        return not_packed(Kind::Lists);
    }
    if edges.len() % 3 != 0 {
        return not_packed(Kind::Lists);
    }
    if n <= start {
        return not_packed(Kind::Start);
    }
    if n * m < e {
        return not_packed(Kind::EdgeCount);
    }
    test_list(p.fault, colours, edges, m)?;
    test_room(layout::bytes_for(layout::file_bits(p, n, e)), room)
}

// What pack answers for lists that it accepts: the length, if the room holds the file.
fn test_room(length: usize, room: usize) -> Result<usize, Refusal>
    ensures { packed_outcome result ≡ first_of (room_test length room) (accepted (length ∷ [])) }
{
    if room < length {
        return not_packed(Kind::AnswerRoom);
    }
    Ok(length)
}

// Whether the file's widths hold so many states, so many labels and each colour.
pub fn holdable(p: Profile, colours: &[u8], m: usize) -> bool
    ensures { result ≡ holdable p colours.now m }
{
    let n = colours.len();
    if n < 1 {
        return false;
    }
    if (1usize << p.states) < n {
        return false;
    }
    if m < 1 {
        return false;
    }
    if (1usize << p.labels) < m {
        return false;
    }
    all_below(1usize << p.colour, colours)
}

fn all_below(limit: usize, values: &[u8]) -> bool
    ensures { result ≡ all_below limit values.now }
{
    values.iter().all(|value| usize::from(*value) < limit)
}

// Writes the file of lists that were tested into a room that holds it.
pub fn write(p: Profile, colours: &[u8], edges: &[u8], m: usize, start: usize, room: &mut [u8])
    requires { pack_of p colours.now edges.now m start (length room.old)
        ≡ accepted (length_of p (from_lists colours.now edges.now m start) ∷ []) }
    ensures { room.new
        ≡ laid (written p (from_lists colours.now edges.now m start)) room.old }
{
    let n = colours.len();
    let e = edges.len() / 3;
    layout::header::put(p, room, n, m, start, e);
    pen::put_run(room, layout::header_bits(p), p.colour, colours);
    put_edges(p, room, layout::edges_begin(p, n), edges, e);
    layout::fill(p, room, n, e);
}

// Edge i of a list, three bytes an edge.
fn edge_in(edges: &[u8], i: usize) -> Edge
    requires { 3 * i + 2 < length edges.now }
    ensures { (edge_of result ≡ edge_in edges.now (3 * i)) × Small result }
{
    let at = 3 * i;
    Edge {
        source: usize::from(edges[at]),
        label: usize::from(edges[at + 1]),
        target: usize::from(edges[at + 2]),
    }
}

// Whether an edge between states leads from the fault colour to another one. Without a fault colour nothing is looked up.
fn leaves(fault: Option<usize>, colours: &[u8], edge: Edge) -> bool
    requires { (edge.source < length colours.now) × (edge.target < length colours.now) }
    ensures { result ≡ leaves (colour_of fault) (at colours.now) (edge_of edge) }
{
    let Some(colour) = fault else {
        return false;
    };
    let source = edge.source;
    let target = edge.target;
    if usize::from(colours[source]) != colour {
        return false;
    }
    usize::from(colours[target]) != colour
}

// The first fault of a list of edges, three bytes an edge. 17 counts only where no edge has 7, 8 or 9: the first edge that leaves the
// fault colour is remembered until all are tested.
fn test_list(fault: Option<usize>, colours: &[u8], edges: &[u8], m: usize) -> Result<(), Refusal>
    ensures { fault_of result
        ≡ or_else (first_fault (length colours.now) m none (listed_from 0 (threes edges.now)))
        (first_leaving (colour_of fault) colours.now (listed_from 0 (threes edges.now))) }
{
    let n = colours.len();
    let e = edges.len() / 3;
    let mut found = Ok(());
    let mut last = 0;
    for i in 0..e {
        let edge = edge_in(edges, i);
        edges::test(n, m, last, edges::listed(i, edge))?;
        if leaves(fault, colours, edge) {
            found = edges::or_leaving(found, i);
        }
        last = edges::rank(edge);
    }
    found
}

// Writes the edges behind the colours, from bit `at` on: the room's later part is lent on, with the starting bit inside its
// first byte.
fn put_edges(p: Profile, room: &mut [u8], at: usize, edges: &[u8], e: usize)
    requires { Placeable p at edges.now e room.old }
    ensures { room.new ≡ put_fields room.old at (edge_widths p e) edges.now }
{
    let from = at / 8;
    put_all(p, &mut room[from..], at % 8, edges, e);
}

fn put_all(p: Profile, part: &mut [u8], bit: usize, edges: &[u8], e: usize)
    requires { Placeable p bit edges.now e part.old }
    ensures { part.new ≡ put_fields part.old bit (edge_widths p e) edges.now }
{
    let mut pen = pen::begin(part, bit);
    for i in 0..e {
        pen = layout::edge::push(p, part, pen, edge_in(edges, i));
    }
    pen::finish(part, pen);
}
