// The four numbers before the colours.
ghost use Rattle.std.specs.Prelude.{◌≡◌, ◌∷◌, [], ◌-◌};
ghost use Rattle.pen.specs.Runs.{put_fields, Drawn};
ghost use Rattle.layout.specs.Layout.{header_widths, header_values};
ghost use Rattle.layout.specs.Contents.{reading_in};
ghost use Rattle.layout.specs.Code.{Heading};

use crate::{Profile, Reading};
use pen::Pen;

// Inlined, so that where the widths are constants they are known.
#[inline(always)]
pub fn read(p: Profile, file: &[u8]) -> Reading
    ensures { result ≡ reading_in p file.now }
{
    let at_start = p.states + p.labels;
    Reading {
        states: bits::get(file, 0, p.states) as usize + 1,
        labels: bits::get(file, p.states, p.labels) as usize + 1,
        start: bits::get(file, at_start, p.start) as usize,
        edges: bits::get(file, at_start + p.start, p.edges) as usize,
    }
}

pub fn put(p: Profile, room: &mut [u8], n: usize, m: usize, start: usize, e: usize)
    requires { Heading p n m start e }
    ensures { room.new ≡ put_fields room.old 0 (header_widths p) (header_values n m start e) }
{
    let sizes = push_sizes(p, room, n, m, start, e);
    let begun = pen::push(room, sizes, p.start, start as u64);
    let whole = pen::push(room, begun, p.edges, e as u64);
    pen::finish(room, whole);
}

// The same with a pen that goes on behind them. The function above is not made of this one: pack would take longer.
pub fn begin(p: Profile, room: &mut [u8], n: usize, m: usize, start: usize, e: usize) -> Pen
    requires { Heading p n m start e }
    ensures { Drawn room.old 0 (header_widths p) (header_values n m start e) room.new result }
{
    let sizes = push_sizes(p, room, n, m, start, e);
    let begun = pen::push(room, sizes, p.start, start as u64);
    pen::push(room, begun, p.edges, e as u64)
}

// The first two of the four, n and m.
fn push_sizes(p: Profile, room: &mut [u8], n: usize, m: usize, start: usize, e: usize) -> Pen
    requires { Heading p n m start e }
    ensures { Drawn room.old 0 (p.states ∷ p.labels ∷ []) ((n - 1) ∷ (m - 1) ∷ []) room.new result }
{
    let first = pen::begin(room, 0);
    let begun = pen::push(room, first, p.states, (n - 1) as u64);
    pen::push(room, begun, p.labels, (m - 1) as u64)
}
