// One statement of a drawing, read from a text where it stands. A place is counted from the beginning of the text.
#![tactic(auto)]

ghost use Rattle.std.specs.Prelude.{◌≡◌, ◌+◌, ◌≤◌, ◌<◌, ◌^◌, eqb, length, get_or};
ghost use Rattle.drawing.specs.Reader.{closing_at, begins_state, statement_at, statement_of, line_at};

use drawing::{Line, Outside, Statement};
use layout::edge::Edge;
use spelling::Number;

// The closing brace and its newline.
fn closing_at(text: &[u8], at: usize) -> Result<Statement, Outside>
    requires { at ≤ length text.now }
    ensures { result ≡ closing_at text.now at }
{
    if !spelling::stands(text, at, b"}\n") {
        return Err(Outside {
            place: at + spelling::matched(text, at, b"}\n"),
        });
    }
    Ok(Statement::Closing(at + 2))
}

// The statement that begins at `at`, where a state's has the number `next`.
pub fn statement_at(text: &[u8], at: usize, next: usize) -> Result<Statement, Outside>
    requires { at ≤ length text.now }
    ensures { result ≡ statement_at text.now at next }
{
    if 9 < spelling::digit_at(text, at) {
        return closing_at(text, at);
    }
    let first = spelling::number_at(text, at);
    let behind = first.end;
    let state = begins_state(text, behind, first.value, next);
    let target = drawing::target_at(text, behind, state)?;
    // Labels of both kinds are read here, so that the reading is inlined.
    let label = drawing::label_at(text, target.end)?;
    Ok(statement_of(state, first.value, target.value, label))
}

fn statement_of(state: bool, source: usize, target: usize, label: Number) -> Statement
    ensures { Ok result ≡ statement_of state source target (Ok label) }
{
    if state {
        return Statement::State(label.value, label.end);
    }
    Statement::Edge(
        Edge {
            source,
            label: label.value,
            target,
        },
        label.end,
    )
}

// Whether a number that ends at `at` begins the next state's statement: ` [` stands behind it, not ` -`.
fn begins_state(text: &[u8], at: usize, number: usize, next: usize) -> bool
    requires { at ≤ length text.now }
    ensures { result ≡ begins_state text.now at number next }
{
    if number != next {
        return false;
    }
    bracket_at(text, at + 1)
}

// Whether `[` stands at a place of the text.
fn bracket_at(text: &[u8], at: usize) -> bool
    ensures { result ≡ eqb (get_or text.now at 0) 91 }
{
    text.get(at) == Some(&b'[')
}

// The edge whose statement begins at `at`, in a text of the profile: its words need no second look.
pub fn line_at(text: &[u8], at: usize) -> Line
    requires { at < 2 ^ 63 }
    ensures { result ≡ line_at text.now at }
{
    if text.len() < at + 21 {
        let source = spelling::number_at(text, at);
        let target = spelling::number_at(text, source.end + 4);
        return line(source, target, spelling::number_at(text, target.end + 8));
    }
    let source = spelling::short_at(text, at);
    let target = spelling::short_at(text, source.end + 4);
    line(source, target, spelling::short_at(text, target.end + 8))
}

// An edge from its numbers, the last of which is its label.
fn line(source: Number, target: Number, label: Number) -> Line
    requires { label.end + 3 < 2 ^ 64 }
    ensures { result ≡ record {
      edge = record { source = source.value; label = label.value; target = target.value };
      end = label.end + 3;
    } }
{
    Line {
        edge: Edge {
            source: source.value,
            label: label.value,
            target: target.value,
        },
        end: label.end + 3,
    }
}
