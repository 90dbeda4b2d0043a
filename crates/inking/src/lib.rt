// The file of the filter that a text draws, written into a room that holds it. The text is read again, so that nothing as long as it
// has to be kept; its words need no second look.
#![tactic(auto)]

ghost use Rattle.std.specs.Prelude.{◌≡◌, [], ◌∷◌, ◌++◌, length, replicate};
ghost use Rattle.bits.specs.Bits.{put_field};
ghost use Rattle.pen.specs.Runs.{put_fields, inked, place_of, Pushable};
ghost use Rattle.refusals.specs.Refusals.{laid};
ghost use Rattle.layout.specs.Layout.{edge_widths, fill_bits, flat, written};
ghost use Rattle.drawing.specs.Reader.{colours_of, edges_of, read_of};
ghost use Rattle.inking.specs.Inking.{filter_read, Inkable, Begun, Placeable};

use layout::Profile;
use pen::Pen;
use surveying::Survey;

// Writes the file of a text's filter, which was tested.
pub fn write(p: Profile, text: &[u8], s: Survey, room: &mut [u8])
    requires { Inkable p text.now s room.old }
    ensures { room.new ≡ laid (written p (filter_read (read_of text.now))) room.old }
{
    let n = s.states;
    let pen = layout::header::begin(p, room, n, s.labels, 0, s.edges);
    put_colours(p, room, pen, text, s);
    put_edges(p, room, layout::edges_begin(p, n), text, s);
}

// Writes the colours behind what the pen holds.
fn put_colours(p: Profile, room: &mut [u8], begun: Pen, text: &[u8], s: Survey)
    requires { Begun p text.now s begun }
    ensures { room.new ≡ put_fields (inked room.old begun) (place_of begun)
        (replicate s.states p.colour) (colours_of (read_of text.now)) }
{
    let n = s.states;
    let mut pen = begun;
    let mut at = 10;
    for _ in 0..n {
        let state = spelling::number_at(text, at);
        let colour = spelling::number_at(text, state.end + 8);
        pen = pen::push(room, pen, p.colour, colour.value as u64);
        at = colour.end + 3;
    }
    pen::finish(room, pen);
}

// Writes the edges behind the colours, from bit `bit` on, and zero bits to the end of the byte: the room's later part is lent on,
// with the starting bit inside its first byte.
fn put_edges(p: Profile, room: &mut [u8], bit: usize, text: &[u8], s: Survey)
    requires { Placeable p text.now s bit room.old }
    ensures { room.new ≡ put_fields room.old bit
        (edge_widths p s.edges ++ (fill_bits p s.states s.edges ∷ [])) (flat (edges_of (read_of text.now)) ++ (0 ∷ [])) }
{
    let from = bit / 8;
    put_all(p, &mut room[from..], bit % 8, text, s);
}

fn put_all(p: Profile, part: &mut [u8], bit: usize, text: &[u8], s: Survey)
    requires { Placeable p text.now s bit part.old }
    ensures { part.new ≡ put_fields part.old bit
        (edge_widths p s.edges ++ (fill_bits p s.states s.edges ∷ [])) (flat (edges_of (read_of text.now)) ++ (0 ∷ [])) }
{
    let e = s.edges;
    let mut pen = pen::begin(part, bit);
    let mut at = s.begin;
    for _ in 0..e {
        let line = statements::line_at(text, at);
        pen = layout::edge::push(p, part, pen, line.edge);
        at = line.end;
    }
    fill(part, pen, layout::fill_bits(p, s.states, e));
}

// Zero bits behind what the pen holds, and all of it stored.
fn fill(part: &mut [u8], pen: Pen, width: usize)
    requires { Pushable pen width 0 }
    ensures { part.new ≡ put_field (inked part.old pen) (place_of pen) width 0 }
{
    let filled = pen::push(part, pen, width, 0);
    pen::finish(part, filled);
}
