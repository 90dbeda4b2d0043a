// Reduces the filter file on standard input, and prints its counts and the new number of each state.
#![tactic(auto)]

use std::io::Write;

fn main(rt: HostRuntime) {
    let mut file = lines::file_room();
    let n = streams::read_full(&mut rt.stdin(), &mut file);
    let mut text = lines::reduce_room();
    let k = report::text(&file[..n], &mut text);
    let _ = rt.stdout().write_all(&text[..k]);
}
