// The calls of the cases of a batch, each with its answer as it is written: number, place and counts are those of its outcome. Of what
// a call promises nothing is needed here.
//
// 1, check: a is the file. 2, unpack: a is the file, b and c are the rooms for colours and edges. 3, pack: a and b are the
// colours and the edges, c is the room, the two numbers are m and the start. 4, trace: a is the file, b the observations, c
// the room for colours; its counts are 0 and 0 where all is traced, 1 and i where it stops at i. 5, reduce: a is the file, b
// the answer room, c the class list, two bytes an entry; an odd last byte is no entry. 6, from_dot: a is the text, c the room.
// 7, to_dot: a is the file, c the room. 8 to 12: calls 1 to 5 on a pocket file. 13, to_large, and 14, to_pocket: a is the file, c the
// room.
#![tactic(auto)]

ghost use Rattle.telling.specs.Codes.{outcome_of};
ghost use Rattle.calls.specs.Written.{Written};

use cases::{Answer, Call, Head};
use layout::{Format, Large, Pocket};
use refusals::Refusal;
use telling::Values;

// What is written of a call's answer.
fn written<const N: usize, A: Values<N>>(answer: Result<A, Refusal>) -> Answer
    ensures { Written N (outcome_of A.values answer) result.number result.place result.counts }
{
    match answer {
        Ok(accepted) => {
            let mut counts = [0; 4];
            counts[..N].copy_from_slice(&accepted.values());
            Answer {
                number: 0,
                place: 0,
                counts,
            }
        }
        Err(why) => Answer {
            number: u8::from(why.kind),
            place: why.place as u64,
            counts: [0; 4],
        },
    }
}

fn check<F: Format>(file: &[u8]) -> Answer {
    written(checking::check::<F>(file))
}

fn unpack<F: Format>(file: &[u8], colours: &mut [u8], edges: &mut [u8]) -> Answer {
    written(unpacking::unpack::<F>(file, colours, edges))
}

fn pack<F: Format>(colours: &[u8], edges: &[u8], m: u64, start: u64, room: &mut [u8]) -> Answer {
    written(packing::pack::<F>(colours, edges, m as usize, start as usize, room))
}

fn trace<F: Format>(file: &[u8], observations: &[u8], colours: &mut [u8]) -> Answer {
    written(tracing::trace::<F>(file, observations, colours))
}

// The class list's entries go back to the bytes they came from.
fn reduce<F: Format>(file: &[u8], answer: &mut [u8], bytes: &mut [u8]) -> Answer {
    let mut entries = cases::read_entries(bytes);
    let classes = &mut entries[..cases::entries_in(bytes)];
    let made = written(reduction::reduce::<F>(file, answer, classes));
    cases::write_entries(bytes, classes);
    made
}

// Makes one of the fourteen calls.
pub fn answer(head: Head, a: &[u8], b: &mut [u8], c: &mut [u8]) -> Answer {
    match head.call {
        Call::Check => check::<Large>(a),
        Call::Unpack => unpack::<Large>(a, b, c),
        Call::Pack => pack::<Large>(a, b, head.first, head.second, c),
        Call::Trace => trace::<Large>(a, b, c),
        Call::Reduce => reduce::<Large>(a, b, c),
        Call::FromDot => written(dot::from_dot(a, c)),
        Call::ToDot => written(dot::to_dot(a, c)),
        Call::PocketCheck => check::<Pocket>(a),
        Call::PocketUnpack => unpack::<Pocket>(a, b, c),
        Call::PocketPack => pack::<Pocket>(a, b, head.first, head.second, c),
        Call::PocketTrace => trace::<Pocket>(a, b, c),
        Call::PocketReduce => reduce::<Pocket>(a, b, c),
        Call::ToLarge => written(converting::to::<Large>(a, c)),
        Call::ToPocket => written(converting::to::<Pocket>(a, c)),
    }
}
