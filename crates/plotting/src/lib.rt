// The drawing of a file's filter: its extent, and its text put into a room that holds it.
#![tactic(auto)]

ghost use Rattle.std.specs.Prelude.{◌≡◌, ◌+◌, ◌*◌, ◌≤◌, length, take};
ghost use Rattle.text.specs.Decimal.{wrote};
ghost use Rattle.layout.specs.Contents.{edges_from};
ghost use Rattle.drawing.specs.Profile.{labels_of, state_lines, edge_lines};
ghost use Rattle.plotting.specs.Plot.{text_of, extent_of, Plottable};

use layout::Profile;

// How long the drawing is, and the largest label plus one, or 1 without edges.
#[derive(Clone, Copy)]
pub struct Extent {
    pub length: usize,
    pub labels: usize,
}

// The extent of the drawing of a file with n states of these colours and e edges.
pub fn extent_of(p: Profile, file: &[u8], colours: &[u8; 256], n: usize, e: usize) -> Extent
    requires { Plottable p file.now colours.now n e }
    ensures { result ≡ extent_of p file.now }
{
    let edges = edges_extent(p, file, layout::edges_begin(p, n), e);
    Extent {
        length: 10 + states_length(colours, n) + edges.length + 2,
        labels: edges.labels,
    }
}

// The length of the statements of n states.
fn states_length(colours: &[u8; 256], n: usize) -> usize
    requires { (n ≤ length colours.now) × (n ≤ 256) }
    ensures { (result ≡ length (state_lines 0 (take n colours.now))) × (result ≤ 17 * n) }
{
    let mut length = 0;
    for (i, colour) in colours[..n].iter().enumerate() {
        length += lettering::state_length(i, usize::from(*colour));
    }
    length
}

// The length of the statements of e edges, the first of which begins at bit `begin`, and their largest label plus one, or 1.
fn edges_extent(p: Profile, file: &[u8], begin: usize, e: usize) -> Extent
    requires { (begin ≤ 2096) × (e ≤ 65536) }
    ensures { (result.length ≡ length (edge_lines (edges_from p file.now begin e)))
        × (result.labels ≡ labels_of (edges_from p file.now begin e)) × (result.length ≤ 24 * e) }
{
    let mut length = 0;
    let mut labels = 1;
    for placed in layout::edge::each(p, file, begin, e) {
        let edge = layout::edge::bare(placed);
        length += lettering::edge_length(edge);
        labels = labels.max(edge.label + 1);
    }
    Extent { length, labels }
}

// Puts the drawing of a file with n states of these colours and e edges at the beginning of a room that holds it.
pub fn put(p: Profile, file: &[u8], colours: &[u8; 256], n: usize, e: usize, room: &mut [u8])
    requires { Plottable p file.now colours.now n e × (length (text_of p file.now) ≤ length room.old) }
    ensures { room.new ≡ wrote room.old 0 (text_of p file.now) }
{
    let states = text::put(room, 0, b"digraph {\n");
    let edges = put_states(room, states, colours, n);
    let closing = put_edges(p, room, edges, file, layout::edges_begin(p, n), e);
    text::put(room, closing, b"}\n");
}

fn put_states(room: &mut [u8], begin: usize, colours: &[u8; 256], n: usize) -> usize
    requires { (n ≤ length colours.now) × (n ≤ 256)
        × (begin + length (state_lines 0 (take n colours.now)) ≤ length room.old) }
    ensures { (room.new ≡ wrote room.old begin (state_lines 0 (take n colours.now)))
        × (result ≡ begin + length (state_lines 0 (take n colours.now))) }
{
    let mut at = begin;
    for (i, colour) in colours[..n].iter().enumerate() {
        at = lettering::put_state(room, at, i, usize::from(*colour));
    }
    at
}

fn put_edges(
    p: Profile,
    room: &mut [u8],
    begin: usize,
    file: &[u8],
    first: usize,
    e: usize,
) -> usize
    requires { (first ≤ 2096) × (e ≤ 65536)
        × (begin + length (edge_lines (edges_from p file.now first e)) ≤ length room.old) }
    ensures { (room.new ≡ wrote room.old begin (edge_lines (edges_from p file.now first e)))
        × (result ≡ begin + length (edge_lines (edges_from p file.now first e))) }
{
    let mut at = begin;
    for placed in layout::edge::each(p, file, first, e) {
        at = lettering::put_edge(room, at, layout::edge::bare(placed));
    }
    at
}
