// Drawings in Graphviz's language: a text of the narrow profile becomes a filter file, a filter file becomes a text.
#![tactic(auto)]

ghost use Rattle.std.specs.Prelude.{◌≡◌, [], ◌∷◌, length};
ghost use Rattle.refusals.specs.Refusals.{accepted, first_of, room_test};
ghost use Rattle.layout.specs.Layout.{large};
ghost use Rattle.files.specs.Files.{holdable};
ghost use Rattle.drawing.specs.Reader.{colours_of, read_of};
ghost use Rattle.surveying.specs.Surveys.{Known};
ghost use Rattle.dot.specs.Promise.{made_outcome, from_dot_of, FromDotPromise, ToDotPromise};
ghost use Rattle.dot.specs.Tests.{Testable};

use drawing::Outside;
use layout::{Format, Large, Profile};
use refusals::{Kind, Refusal};
use surveying::Survey;

// Writes the file of the filter that a text draws, and answers its length.
pub fn from_dot(text: &[u8], room: &mut [u8]) -> Result<usize, Refusal>
    ensures { FromDotPromise large text.now room.old result room.new }
{
    let p = Large::profile();
    match surveying::survey_of(text, p.fault) {
        Ok((s, verdict)) => file(p, text, s, verdict, room),
        Err(Outside { place }) => Err(Refusal {
            kind: Kind::Drawing,
            place,
        }),
    }
}

// The same for a text of the profile.
fn file(
    p: Profile,
    text: &[u8],
    s: Survey,
    verdict: Result<(), Refusal>,
    room: &mut [u8],
) -> Result<usize, Refusal>
    requires { Testable p text.now s verdict }
    ensures { FromDotPromise p text.now room.old result room.new }
{
    let length = test(p, text, s, verdict, room.len())?;
    inking::write(p, text, s, room);
    Ok(length)
}

fn not_made(kind: Kind) -> Result<usize, Refusal>
    ensures { result ≡ Err (record { kind = kind; place = 0 }) }
{
    Err(kind.into())
}

// What is answered for a text of the profile and the length of a room. The start is 0, so that 2 is never given.
fn test(
    p: Profile,
    text: &[u8],
    s: Survey,
    verdict: Result<(), Refusal>,
    room: usize,
) -> Result<usize, Refusal>
    requires { Testable p text.now s verdict }
    ensures { made_outcome result ≡ from_dot_of p text.now room }
{
    let n = s.states;
    let e = s.edges;
    if !holdable(p, text, s) {
        return not_made(Kind::Lists);
    }
    if n * s.labels < e {
        return not_made(Kind::EdgeCount);
    }
    verdict?;
    test_room(layout::bytes_for(layout::file_bits(p, n, e)), room)
}

// The length, if the room holds the file.
fn test_room(length: usize, room: usize) -> Result<usize, Refusal>
    ensures { made_outcome result ≡ first_of (room_test length room) (accepted (length ∷ [])) }
{
    if room < length {
        return not_made(Kind::AnswerRoom);
    }
    Ok(length)
}

// Whether the file's widths hold so many states, so many labels and each colour.
fn holdable(p: Profile, text: &[u8], s: Survey) -> bool
    requires { Known text.now s }
    ensures { result ≡ holdable p (colours_of (read_of text.now)) s.labels }
{
    if s.states < 1 {
        return false;
    }
    if (1usize << p.states) < s.states {
        return false;
    }
    if (1usize << p.labels) < s.labels {
        return false;
    }
    s.colours <= (1usize << p.colour)
}

// Writes the drawing of a file's filter, and answers its length.
pub fn to_dot(file: &[u8], room: &mut [u8]) -> Result<usize, Refusal>
    ensures { ToDotPromise large file.now room.old result room.new }
{
    draw(Large::profile(), file, room)
}

// The same for any widths.
fn draw(p: Profile, file: &[u8], room: &mut [u8]) -> Result<usize, Refusal>
    ensures { ToDotPromise p file.now room.old result room.new }
{
    let checked = checking::check_as(p, file);
    let Ok(r) = checked else {
        return Err(checked.unwrap_err());
    };
    let n = r.states;
    let e = r.edges;
    let colours = loading::colours_of(p, file, n);
    let extent = plotting::extent_of(p, file, &colours, n, e);
    if r.start != 0 {
        return not_made(Kind::Drawing);
    }
    if r.labels != extent.labels {
        return not_made(Kind::Drawing);
    }
    if room.len() < extent.length {
        return not_made(Kind::AnswerRoom);
    }
    plotting::put(p, file, &colours, n, e, room);
    Ok(extent.length)
}
