// One edge, read from a file or written to one.
ghost use Rattle.std.specs.Prelude.{◌≡◌, ◌∷◌, [], ◌+◌, ◌*◌, ◌-◌, ◌<◌, ◌^◌};
ghost use Rattle.pen.specs.Runs.{inked, place_of, Drawn};
ghost use Rattle.layout.specs.Layout.{edge_widths, flat};
ghost use Rattle.layout.specs.Contents.{placed_at};
ghost use Rattle.layout.specs.Code.{Small, Pushable, edge_of, bare};
ghost use Rattle.layout.specs.Steps.{Advanced, near};
ghost use Rattle.std.specs.Iterator.{at_most};

use crate::{Field, Profile};
use pen::Pen;

#[derive(Clone, Copy)]
pub struct Edge {
    pub source: usize,
    pub label: usize,
    pub target: usize,
}

// An edge's three fields with their places.
#[derive(Clone, Copy)]
pub struct Placed {
    pub source: Field,
    pub label: Field,
    pub target: Field,
}

// The edge whose first bit is `at`: one read, cut into three fields.
pub fn read(p: Profile, file: &[u8], at: usize) -> Placed
    requires { at < 2 ^ 63 }
    ensures { (result ≡ placed_at p file.now at) × Small (bare result) }
{
    let states = p.states;
    let labels = p.labels;
    let v = bits::get(file, at, states + labels + states) as usize;
    Placed {
        source: Field {
            value: v >> (labels + states),
            place: at,
        },
        label: Field {
            value: (v >> states) % (1usize << labels),
            place: at + states,
        },
        target: Field {
            value: v % (1usize << states),
            place: at + states + labels,
        },
    }
}

// Where a walk over a file's edges stands: at the bit at which edge `index` begins; it ends before edge `end`.
#[derive(Clone, Copy)]
pub struct Edges<'a> {
    pub p: Profile,
    pub file: &'a [u8],
    pub place: usize,
    pub index: usize,
    pub end: usize,
}

// The n edges of a file of which the first begins at bit `place`.
pub fn each<'a>(p: Profile, file: &'a [u8], place: usize, n: usize) -> Edges<'a>
    ensures { (result.p ≡ p) × (result.file.now ≡ file.entry.now) × (result.place ≡ place) × (result.index ≡ 0) × (result.end ≡ n) }
{
    Edges {
        p,
        file,
        place,
        index: 0,
        end: n,
    }
}

impl Iterator for Edges<'_> {
    type Item = Placed;

    ghost can_next = { λ walk. near walk.place walk.index walk.end };

    ghost next_gives = { λ before edge after. Advanced before.p before.file.now before.place before.index before.end edge
        after.p after.file.now after.place after.index after.end };

    ghost remaining = { λ walk. at_most (walk.end - walk.index) };

    #[inline(always)]
    fn next(&mut self) -> Option<Placed> {
        if self.index >= self.end {
            return None;
        }
        let edge = read(self.p, self.file, self.place);
        self.place += crate::edge_bits(self.p);
        self.index += 1;
        Some(edge)
    }
}

// The values of an edge's fields, without their places.
pub fn bare(edge: Placed) -> Edge
    ensures { result ≡ bare edge }
{
    let source = edge.source;
    let label = edge.label;
    let target = edge.target;
    Edge {
        source: source.value,
        label: label.value,
        target: target.value,
    }
}

// Writes an edge as one field behind what the pen holds.
pub fn push(p: Profile, room: &mut [u8], pen: Pen, edge: Edge) -> Pen
    requires { Pushable p pen edge }
    ensures { Drawn (inked room.old pen) (place_of pen) (edge_widths p 1) (flat (edge_of edge ∷ []))
        room.new result }
{
    let value = joined(p, pen, edge);
    pen::push(room, pen, crate::edge_bits(p), value)
}

// An edge as the number that its field holds.
fn joined(p: Profile, pen: Pen, edge: Edge) -> u64
    requires { Pushable p pen edge }
    ensures { (result ≡ (edge.source * 2 ^ p.labels + edge.label) * 2 ^ p.states + edge.target)
        × (result < 2 ^ (p.states + p.labels + p.states)) }
{
    let states = p.states;
    let labels = p.labels;
    let upper = (edge.source << labels) + edge.label;
    ((upper << states) + edge.target) as u64
}
