// What a statement of a drawing is read as, and two parts of it that are read from a text where they stand: its label, and an edge's
// target. Fixed words are compared, numbers are read. A place is counted from the beginning of the text.
#![tactic(auto)]

ghost use Rattle.std.specs.Prelude.{◌≡◌, ◌≤◌, length};
ghost use Rattle.meaning.specs.Pick.{pick};
ghost use Rattle.drawing.specs.Reader.{labelled_at, target_at};

use layout::edge::Edge;
use spelling::Number;

// Where a text leaves the profile.
#[derive(Clone, Copy, Debug, PartialEq, Eq)]
pub struct Outside {
    pub place: usize,
}

// A state's colour, an edge, or the closing brace, with the place behind it.
#[derive(Clone, Copy)]
pub enum Statement {
    State(usize, usize),
    Edge(Edge, usize),
    Closing(usize),
}

// An edge and the place behind its statement.
#[derive(Clone, Copy)]
pub struct Line {
    pub edge: Edge,
    pub end: usize,
}

// ` [label=`, a number, `];` and the newline; the number with the place behind all of it.
pub fn label_at(text: &[u8], at: usize) -> Result<Number, Outside>
    requires { at ≤ length text.now }
    ensures { result ≡ labelled_at text.now at }
{
    if !spelling::stands(text, at, b" [label=") {
        return left_at(at + spelling::matched(text, at, b" [label="));
    }
    let label = spelling::number_at(text, at + 8);
    if label.end == at + 8 {
        return left_at(at + 8);
    }
    if !spelling::stands(text, label.end, b"];\n") {
        return left_at(label.end + spelling::matched(text, label.end, b"];\n"));
    }
    Ok(Number {
        value: label.value,
        end: label.end + 3,
    })
}

// ` -> ` and the target of an edge, behind its source. A state has no target: 0 stands for it, and nothing is read.
pub fn target_at(text: &[u8], at: usize, state: bool) -> Result<Number, Outside>
    requires { at ≤ length text.now }
    ensures { result ≡ pick state (Ok (record { value = 0; end = at })) (target_at text.now at) }
{
    if state {
        return Ok(Number { value: 0, end: at });
    }
    if !spelling::stands(text, at, b" -> ") {
        return left_at(at + spelling::matched(text, at, b" -> "));
    }
    let target = spelling::number_at(text, at + 4);
    if target.end == at + 4 {
        return left_at(at + 4);
    }
    Ok(target)
}

fn left_at(place: usize) -> Result<Number, Outside>
    ensures { result ≡ Err (record { place = place }) }
{
    Err(Outside { place })
}
