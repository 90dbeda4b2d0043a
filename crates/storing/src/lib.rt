// A table written as a file: its rows in a given order, their targets led by a list.
#![tactic(auto)]

ghost use Rattle.std.specs.Prelude.{◌≡◌, ℕ, ◌/◌, ◌<◌, ◌≤◌, ◌^◌, length};
ghost use Rattle.meaning.specs.Search.{at};
ghost use Rattle.meaning.specs.Reduced.{row};
ghost use Rattle.meaning.specs.Listing.{cells};
ghost use Rattle.pen.specs.Runs.{inked, place_of};
ghost use Rattle.layout.specs.Layout.{put_edges, length_of, written};
ghost use Rattle.refusals.specs.Refusals.{laid};
ghost use Rattle.sets.specs.Sets.{holds};
ghost use Rattle.table.specs.Table.{row as row_of};
ghost use Rattle.storing.specs.Stored.{row_edge, edges_of, stored, EdgesDrawn, Storable, Drawable, Fileable};

use layout::Profile;
use layout::edge::Edge;
use pen::Pen;
use table::Row;

// How many edges the rows have.
fn edge_count(rows: &[Row], order: &[u16]) -> usize
    requires { (length order.now ≤ 256) × ((k : ℕ) → k < length order.now → at order.now k < length rows.now) }
    ensures { (result ≤ 16384) × (result
        ≡ cells (λ k y. holds (row_of rows.now (at order.now k)).labels y) (length order.now) 64) }
{
    let mut e = 0;
    for state in order {
        e += sets::size(rows[usize::from(*state)].labels);
    }
    e
}

// Writes the edges of state k behind what the pen holds, labels ascending.
fn put_row(
    p: Profile,
    part: &mut [u8],
    begun: Pen,
    rows: &[Row],
    order: &[u16],
    k: usize,
    list: &[u16],
) -> Pen
    requires { Drawable p rows.now order.now list.now k begun }
    ensures { EdgesDrawn p (inked part.old begun) (place_of begun)
        (row (row_edge rows.now order.now list.now k) k 64)
        part.new result }
{
    let s = usize::from(order[k]);
    let mut pen = begun;
    for y in sets::each(rows[s].labels) {
        let to = table::target(rows, s, y);
        let edge = Edge {
            source: k,
            label: y,
            target: usize::from(list[to]),
        };
        pen = layout::edge::push(p, part, pen, edge);
    }
    pen
}

// Writes the edges of all states from a bit on, in file order.
fn put_rows(p: Profile, part: &mut [u8], bit: usize, rows: &[Row], order: &[u16], list: &[u16])
    requires storable { Storable p rows.now order.now list.now (2 ^ p.labels) }
    requires bit_bound { bit ≤ 7 }
    ensures { part.new ≡ put_edges p part.old bit
        (edges_of rows.now order.now list.now 64) }
{
    let mut pen = pen::begin(part, bit);
    for k in 0..order.len() {
        pen = put_row(p, part, pen, rows, order, k, list);
    }
    pen::finish(part, pen);
}

// The edges stand behind the colours, from a bit on: the room's later part is lent on, with the starting bit inside its first
// byte.
fn put_edges(p: Profile, room: &mut [u8], bit: usize, rows: &[Row], order: &[u16], list: &[u16])
    requires storable { Storable p rows.now order.now list.now (2 ^ p.labels) }
    requires bit_in_bounds { bit / 8 ≤ length room.old }
    ensures { room.new ≡ put_edges p room.old bit
        (edges_of rows.now order.now list.now 64) }
{
    let from = bit / 8;
    put_rows(p, &mut room[from..], bit % 8, rows, order, list);
}

// Writes the file of the rows, with a colour each, into a room that holds it, and answers its length.
pub fn write(
    p: Profile,
    room: &mut [u8],
    colours: &[u8],
    m: usize,
    start: usize,
    rows: &[Row],
    order: &[u16],
    list: &[u16],
) -> usize
    requires { Fileable p rows.now order.now list.now colours.now m start
        (length room.old) }
    ensures bytes { room.new ≡ laid (written p (stored rows.now
        order.now list.now colours.now m start)) room.old }
    ensures length { result ≡ length_of p (stored rows.now
        order.now list.now colours.now m start) }
{
    let k = order.len();
    let e = edge_count(rows, order);
    layout::header::put(p, room, k, m, start, e);
    pen::put_run(room, layout::header_bits(p), p.colour, colours);
    put_edges(p, room, layout::edges_begin(p, k), rows, order, list);
    layout::fill(p, room, k, e);
    layout::bytes_for(layout::file_bits(p, k, e))
}
