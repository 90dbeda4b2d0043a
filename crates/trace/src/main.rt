// Traces the observations on standard input through the filter file that the first argument names, and prints the colours.
#![tactic(auto)]

ghost use Rattle.std.specs.Counts.{IsPrefixLen};

use std::fs::File;
use std::io::Write;
use std::rt::{Env, Files};

// The first argument, put at the room's beginning; one that is missing or longer than the room counts as empty.
fn first_argument(rt: &impl Env, room: &mut [u8]) -> usize
    ensures { IsPrefixLen result room.new }
{
    match rt.arg(1, room) {
        Ok(n) => n,
        Err(_) => 0,
    }
}

// The first bytes of the file that is named; one that cannot be opened or read counts as empty.
fn load(rt: &impl Files, path: &[u8], room: &mut [u8]) -> usize
    ensures { IsPrefixLen result room.new }
{
    let Ok(path) = str::from_utf8(path) else {
        return 0;
    };
    match File::open(rt, path) {
        Ok(file) => {
            let mut file = file;
            streams::read_full(&mut file, room)
        }
        Err(_) => 0,
    }
}

fn main(rt: HostRuntime) {
    let mut path = [0; 4096];
    let length = first_argument(&rt, &mut path);
    let mut file = lines::file_room();
    let n = load(&rt, &path[..length], &mut file);
    let mut observations = [0; 65536];
    let m = streams::read_full(&mut rt.stdin(), &mut observations);
    let mut text = shown::trace_room();
    let k = shown::text(&file[..n], &observations[..m], &mut text);
    let _ = rt.stdout().write_all(&text[..k]);
}
