// An accepted file reduced: its classes settled, merged and written.
#![tactic(auto)]

ghost use Rattle.folding.specs.Folding.{rooms, Foldable, Folded};

use layout::{Profile, Reading};
use table::Row;

// Of a reduced filter: its states, its distinct colours, the rounds made, and its file's length in bytes.
#[derive(Clone, Copy)]
pub struct Counts {
    pub states: usize,
    pub colours: usize,
    pub rounds: usize,
    pub length: usize,
}

// Reduces a file that was checked and whose edges are in the table, into rooms that are long enough.
pub fn fold(
    p: Profile,
    rows: &mut [Row],
    file: &[u8],
    reading: Reading,
    answer: &mut [u8],
    classes: &mut [u16],
) -> Counts
    requires { Foldable p file.now reading rows.old (rooms answer.old classes.old) }
    ensures { Folded p file.now (rooms answer.old classes.old)
        result (rooms answer.new classes.new) }
{
    let n = reading.states;
    let colours = loading::colours_of(p, file, n);
    let ending = rounds::settled(rows, &colours, n, reading.start);
    let last = ending.last;
    let names = last.names;
    let made = merging::merged(p, rows, &colours, &names, reading, answer, classes);
    Counts {
        states: made.states,
        colours: ending.colours,
        rounds: usize::from(last.rounds),
        length: made.length,
    }
}
