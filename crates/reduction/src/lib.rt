// Reducing a filter file.
#![tactic(auto)]

ghost use Rattle.loading.specs.Loading.{Loadable};
ghost use Rattle.folding.specs.Folding.{rooms};
ghost use Rattle.reduction.specs.Promise.{ReducePromise};

use folding::Counts;
use layout::{Format, Profile};
use refusals::{Kind, Refusal};
use table::Row;

// Writes the file of the reduced filter, and the new number of each state, 65,535 for one that the start cannot reach.
pub fn reduce<F: Format>(
    file: &[u8],
    answer: &mut [u8],
    classes: &mut [u16],
) -> Result<Counts, Refusal>
    ensures { ReducePromise F.profile file.now (rooms answer.old classes.old)
        result (rooms answer.new classes.new) }
{
    // The shortest table with a row for each state.
    let n = layout::states(F::profile(), file);
    if n <= 16 {
        return reduce_with::<F>(&mut table::empty::<16>(), file, answer, classes);
    }
    if n <= 64 {
        return reduce_with::<F>(&mut table::empty::<64>(), file, answer, classes);
    }
    reduce_with::<F>(&mut table::empty::<256>(), file, answer, classes)
}

// The same with a fresh table that has a row for each state: compiled once a kind of file, and called for each length of table.
fn reduce_with<F: Format>(
    rows: &mut [Row],
    file: &[u8],
    answer: &mut [u8],
    classes: &mut [u16],
) -> Result<Counts, Refusal>
    requires { Loadable F.profile file.now rows.old }
    ensures { ReducePromise F.profile file.now (rooms answer.old classes.old)
        result (rooms answer.new classes.new) }
{
    reduce_in(F::profile(), rows, file, answer, classes)
}

// The same for any widths.
fn reduce_in(
    p: Profile,
    rows: &mut [Row],
    file: &[u8],
    answer: &mut [u8],
    classes: &mut [u16],
) -> Result<Counts, Refusal>
    requires { Loadable p file.now rows.old }
    ensures { ReducePromise p file.now (rooms answer.old classes.old)
        result (rooms answer.new classes.new) }
{
    table::mark_missing(rows);
    let checked = loading::load(p, rows, file);
    let Ok(reading) = checked else {
        return Err(checked.unwrap_err());
    };
    // A reduced file is never longer than its original, so this is decided before any reducing.
    if answer.len() < file.len() {
        return Err(Kind::AnswerRoom.into());
    }
    if classes.len() < reading.states {
        return Err(Kind::ClassRoom.into());
    }
    Ok(folding::fold(p, rows, file, reading, answer, classes))
}
