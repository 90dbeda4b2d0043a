// What has to be known of a text before a file is written from it: a text read once from its beginning to its end.
#![tactic(auto)]

ghost use Rattle.std.specs.Prelude.{Ok, None, ◌≡◌, ◌+◌, ◌≤◌, ◌<◌, eqb, length};
ghost use Rattle.std.proofs.Math.Option.{some};
ghost use Rattle.meaning.specs.Pick.{pick};
ghost use Rattle.sets.specs.Sets.{contains};
ghost use Rattle.layout.specs.Layout.{colour_of};
ghost use Rattle.layout.specs.Code.{Small};
ghost use Rattle.edges.specs.Faults.{or_else};
ghost use Rattle.edges.specs.Walk.{fault_of};
ghost use Rattle.spelling.specs.Spelling.{matched};
ghost use Rattle.drawing.specs.Profile.{larger, opening};
ghost use Rattle.drawing.specs.Reader.{read_of};
ghost use Rattle.surveying.specs.Surveys.{inside, leaves, found_of, surveyed, bytes, Countable, MarkedOn, leaving_is, leaving_by, JudgedOn};

use drawing::{Outside, Statement};
use layout::edge::Edge;
use refusals::{Kind, Refusal};

// How many states and edges there are, the largest colour plus one, where the edges begin, m, and the number that the next state
// would have.
#[derive(Clone, Copy)]
pub struct Survey {
    pub states: usize,
    pub colours: usize,
    pub begin: usize,
    pub edges: usize,
    pub labels: usize,
    pub next: usize,
}

impl Survey {
    // Of the opening line alone.
    fn begin() -> Survey
        ensures { result ≡ record { states = 0; colours = 0; begin = 10; edges = 0; labels = 1; next = 0 } }
    {
        Survey {
            states: 0,
            colours: 0,
            begin: 10,
            edges: 0,
            labels: 1,
            next: 0,
        }
    }

    // One state more, whose statement ends at `end`.
    fn with_state(self, colour: usize, end: usize) -> Survey
        requires { Countable self colour }
        ensures { result ≡ record {
          states = self.states + 1;
          colours = larger self.colours (colour + 1);
          begin = end;
          edges = self.edges;
          labels = self.labels;
          next = self.next + 1;
        } }
    {
        Survey {
            states: self.states + 1,
            colours: self.colours.max(colour + 1),
            begin: end,
            edges: self.edges,
            labels: self.labels,
            next: self.next + 1,
        }
    }

    // One edge more. No state can follow it: no statement has the number 1,000.
    fn with_edge(self, label: usize) -> Survey
        requires { Countable self label }
        ensures { result ≡ record {
          states = self.states;
          colours = self.colours;
          begin = self.begin;
          edges = self.edges + 1;
          labels = larger self.labels (label + 1);
          next = 1000;
        } }
    {
        Survey {
            states: self.states,
            colours: self.colours,
            begin: self.begin,
            edges: self.edges + 1,
            labels: self.labels.max(label + 1),
            next: 1000,
        }
    }
}

// The edges so far: the first fault of their own; without one, the rank of the last of them, and which is the first that leaves the
// fault colour, if one does.
#[derive(Clone, Copy)]
struct Testing {
    verdict: Result<(), Refusal>,
    last: usize,
    leaving: Option<usize>,
}

impl Testing {
    // Before the first edge.
    fn begin() -> Testing
        ensures { result ≡ record { verdict = Ok tt; last = 0; leaving = None } }
    {
        Testing {
            verdict: Ok(()),
            last: 0,
            leaving: None,
        }
    }

    // Edge i more, of a text with n states. Behind a faulty edge none is tested. An edge with a number above 255 is in no file.
    fn with_edge(self, n: usize, marks: &[u64; 4], i: usize, edge: Edge) -> Testing
        requires { length marks.now ≡ 4 }
        ensures { JudgedOn n marks.now i edge self result }
    {
        if self.verdict.is_err() {
            return self;
        }
        if !bytes(edge) {
            return Testing {
                verdict: outside(i),
                last: 0,
                leaving: None,
            };
        }
        Testing {
            verdict: edges::test(n, 256, self.last, edges::listed(i, edge)),
            last: edges::rank(edge),
            leaving: with_leaving(self.leaving, marks, i, edge),
        }
    }

    // What is told of all edges: 17 only where none has a fault of its own.
    fn told(self) -> Result<(), Refusal>
        ensures { fault_of result ≡ or_else (fault_of self.verdict) (leaving_is self.leaving) }
    {
        let own = self.verdict;
        match self.leaving {
            None => own,
            Some(place) => edges::or_leaving(own, place),
        }
    }
}

// With edge i more, which leaves the fault colour if it leads from a marked state to one that is not.
fn with_leaving(found: Option<usize>, marks: &[u64; 4], i: usize, edge: Edge) -> Option<usize>
    requires { (length marks.now ≡ 4) × Small edge }
    ensures { leaving_is result ≡ or_else (leaving_is found) (leaving_by marks.now i edge) }
{
    if found.is_some() {
        return found;
    }
    if !marked(marks, edge.source) {
        return found;
    }
    if marked(marks, edge.target) {
        return found;
    }
    Some(i)
}

fn marked(marks: &[u64; 4], state: usize) -> bool
    requires { (length marks.now ≡ 4) × (state < 256) }
    ensures { result ≡ contains marks.now state }
{
    sets::holds(marks[state / 64], state % 64)
}

// One state more, marked if it has the fault colour; number k is bit k % 64 of word k / 64. A state above 255 is in no file.
fn mark(marks: &mut [u64; 4], fault: Option<usize>, state: usize, colour: usize)
    requires { length marks.old ≡ 4 }
    ensures { MarkedOn (colour_of fault) state colour marks.old marks.new }
{
    let Some(shut) = fault else {
        return;
    };
    if colour != shut {
        return;
    }
    if 256 <= state {
        return;
    }
    let w = state / 64;
    marks[w] = sets::with(marks[w], state % 64);
}

// Whether all three numbers of an edge are bytes.
fn bytes(edge: Edge) -> bool
    ensures { result ≡ bytes edge }
{
    edge.source < 256 && edge.label < 256 && edge.target < 256
}

fn outside(i: usize) -> Result<(), Refusal>
    ensures { fault_of result ≡ some (record { number = 7; place = i }) }
{
    Err(Refusal {
        kind: Kind::Outside,
        place: i,
    })
}

// The survey of a text of the profile, and the fault of its edges.
pub fn survey_of(
    text: &[u8],
    fault: Option<usize>,
) -> Result<(Survey, Result<(), Refusal>), Outside>
    ensures { found_of result ≡ surveyed (colour_of fault) (read_of text.now) }
{
    if !spelling::stands(text, 0, b"digraph {\n") {
        return Err(Outside {
            place: spelling::matched(text, 0, b"digraph {\n"),
        });
    }
    statements(text, fault)
}

// The statements behind the opening line. All states come before the first edge, so that an edge is tested as soon as it is read.
fn statements(text: &[u8], fault: Option<usize>) -> Result<(Survey, Result<(), Refusal>), Outside>
    requires { 10 ≤ matched text.now 0 opening }
    ensures { found_of result ≡ surveyed (colour_of fault) (read_of text.now) }
{
    let mut at = 10;
    let mut s = Survey::begin();
    let mut marks: [u64; 4] = [0; 4];
    let mut testing = Testing::begin();
    loop {
        match statements::statement_at(text, at, s.next)? {
            Statement::State(colour, end) => {
                mark(&mut marks, fault, s.states, colour);
                s = s.with_state(colour, end);
                at = end;
            }
            Statement::Edge(edge, end) => {
                testing = testing.with_edge(s.states, &marks, s.edges, edge);
                s = s.with_edge(edge.label);
                at = end;
            }
            Statement::Closing(end) => return closed(text.len(), end, s, testing),
        }
    }
}

// Nothing may follow the closing brace's line.
fn closed(
    length: usize,
    end: usize,
    s: Survey,
    testing: Testing,
) -> Result<(Survey, Result<(), Refusal>), Outside>
    ensures { found_of result ≡ pick (eqb end length)
        (inside s (or_else (fault_of testing.verdict) (leaving_is testing.leaving))) (leaves end) }
{
    let verdict = testing.told();
    if end == length {
        return Ok((s, verdict));
    }
    Err(Outside { place: end })
}
