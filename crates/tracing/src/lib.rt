// Tracing observations through a filter file.
#![tactic(auto)]

ghost use Rattle.std.specs.Prelude.{◌≡◌, ◌+◌, ◌<◌};
ghost use Rattle.table.specs.Table.{look, Rows};
ghost use Rattle.loading.specs.Loading.{Loadable};
ghost use Rattle.tracing.specs.Promise.{TracePromise};
ghost use Rattle.tracing.specs.Riding.{step_of, Ridable, Ridden};

use layout::{Format, Profile};
use refusals::{Kind, Refusal};
use table::Row;

// All observations traced; or stopped at the first without an edge.
#[derive(Clone, Copy, Debug, PartialEq, Eq)]
pub enum Traced {
    All,
    Stopped(usize),
}

// Traces the observations from the start, and writes the colours that are shown.
pub fn trace<F: Format>(
    file: &[u8],
    observations: &[u8],
    colours: &mut [u8],
) -> Result<Traced, Refusal>
    ensures { TracePromise F.profile file.now observations.now colours.old result
        colours.new }
{
    // The shortest table with a row for each state.
    let n = layout::states(F::profile(), file);
    if n <= 16 {
        return trace_with::<F>(&mut table::empty::<16>(), file, observations, colours);
    }
    if n <= 64 {
        return trace_with::<F>(&mut table::empty::<64>(), file, observations, colours);
    }
    trace_with::<F>(&mut table::empty::<256>(), file, observations, colours)
}

// The same with a fresh table that has a row for each state: compiled once a kind of file, and called for each length of table.
fn trace_with<F: Format>(
    rows: &mut [Row],
    file: &[u8],
    observations: &[u8],
    colours: &mut [u8],
) -> Result<Traced, Refusal>
    requires { Loadable F.profile file.now rows.old }
    ensures { TracePromise F.profile file.now observations.now colours.old result
        colours.new }
{
    trace_in(F::profile(), rows, file, observations, colours)
}

// The same for any widths.
fn trace_in(
    p: Profile,
    rows: &mut [Row],
    file: &[u8],
    observations: &[u8],
    colours: &mut [u8],
) -> Result<Traced, Refusal>
    requires { Loadable p file.now rows.old }
    ensures { TracePromise p file.now observations.now colours.old result
        colours.new }
{
    let checked = loading::load(p, rows, file);
    let Ok(reading) = checked else {
        return Err(checked.unwrap_err());
    };
    let count = observations.len();
    if 65535 < count {
        return refused(Kind::Room, 0);
    }
    if colours.len() < count + 1 {
        return refused(Kind::Room, 0);
    }
    if let Some(outside) = observed::first_outside(reading.labels, observations) {
        return refused(Kind::Observation, outside);
    }
    let hues = loading::colours_of(p, file, reading.states);
    Ok(ride_through(rows, &hues, reading.start, observations, colours))
}

fn refused(kind: Kind, place: usize) -> Result<Traced, Refusal>
    ensures { result ≡ Err (record { kind = kind; place = place }) }
{
    Err(Refusal { kind, place })
}

// A ride in progress: the current state and the observations taken.
#[derive(Clone, Copy)]
struct Ride {
    state: usize,
    taken: usize,
}

impl Ride {
    // One observation more; or why there is none.
    fn step(self, rows: &[Row], label: usize) -> Result<Ride, Traced>
        requires { (label < 64) × (self.taken < 65535) × Rows rows.now (self.state + 1) }
        ensures { result ≡ step_of (look rows.now self.state label) self.taken }
    {
        let state = self.state;
        let taken = self.taken;
        if sets::holds(rows[state].labels, label) {
            return Ok(Ride {
                state: table::target(rows, state, label),
                taken: taken + 1,
            });
        }
        Err(Traced::Stopped(taken))
    }
}

// Rides from the start through the observations, and writes the colour of each state on the way.
fn ride_through(
    rows: &[Row],
    hues: &[u8],
    start: usize,
    observations: &[u8],
    room: &mut [u8],
) -> Traced
    requires { Ridable rows.now hues.now start observations.now room.old }
    ensures { Ridden rows.now hues.now start
        observations.now room.old result room.new }
{
    let mut ride = Ride {
        state: start,
        taken: 0,
    };
    for observation in observations {
        let state = ride.state;
        let taken = ride.taken;
        room[taken] = hues[state];
        match ride.step(rows, usize::from(*observation)) {
            Ok(next) => ride = next,
            Err(stopped) => return stopped,
        }
    }
    let last = ride.state;
    let taken = ride.taken;
    room[taken] = hues[last];
    Traced::All
}
