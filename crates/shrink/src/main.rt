// Writes the reduced file of the filter file on standard input, or nothing for a refusal.
#![tactic(auto)]

use std::io::Write;

fn main(rt: HostRuntime) {
    let mut file = lines::file_room();
    let n = streams::read_full(&mut rt.stdin(), &mut file);
    let mut bytes = lines::file_room();
    let k = shrunk::bytes(&file[..n], &mut bytes);
    let _ = rt.stdout().write_all(&bytes[..k]);
}
