// Reads one job from standard input, smooths it, and prints the results.
#![tactic(auto)]

ghost use Rattle.std.specs.Prelude.{◌≡◌, ◌≤◌, suc, length, take, IfOk, OnOk, IfSome};
ghost use Rattle.std.specs.Io.KnownBytes.{Appends};
ghost use Rattle.meaning.specs.Limits.{max_job};
ghost use Rattle.meaning.specs.Program.{program};

use std::io;
use std::io::{Read, Write};

// So that a longer input shows. What follows is not read, and says nothing: law program_front.
const MOST_READ: usize = report::inner::MOST_BYTES + 1;

// More than any report has. A job and its report are of limited size: fixed arrays, so that no memory can run out.
const MOST_PRINTED: usize = 65536;

const UNREAD: &str = "smooth: standard input could not be read to its end";

const UNWRITTEN: &str = "smooth: standard output did not take the whole report";

fn main(rt: HostRuntime) -> io::Result<()> {
    run(&rt, &mut rt.reader(), &mut io::writer(&rt))
}

// From the bytes of a job to those of its report.
fn run<E: Eprint, R: Read, W: Write>(rt: &E, from: &mut R, to: &mut W) -> io::Result<()>
    ensures { OnOk result (IfSome (R.remaining from.old) (λ xs. Appends (W.contents to.old) (W.contents to.new) (program xs))) }
{
    let mut input = input_buffer();
    let mut out = [0u8; MOST_PRINTED];
    // A job that was not read to its end is not smoothed.
    let n = read_front(from, &mut input).inspect_err(|_| tell(rt, UNREAD))?;
    let end = report::inner::report(&input[..n], &mut out);
    print(rt, to, &out[..end])
}

// Reads until room is full or the input ends; how many bytes that were.
fn read_front<R: Read>(from: &mut R, room: &mut [u8]) -> io::Result<usize>
    ensures within { IfOk result (λ n. n ≤ length room.new) }
    ensures bytes { IfOk result (λ n. IfSome (R.remaining from.old) (λ xs. take n room.new ≡ take (length room.old) xs)) }
{
    let mut n = 0;
    // no `for`: a read gives as much as it likes, so how many reads it takes is not known
    while n < room.len() {
        let more = from.read(&mut room[n..])?;
        if more == 0 {
            return Ok(n);
        }
        n += more;
    }
    Ok(n)
}

// Where standard error takes nothing either, there is no one to tell.
fn tell<E: Eprint>(rt: &E, text: &str) {
    let _ = rt.eprintln(text);
}

fn print<E: Eprint, W: Write>(rt: &E, to: &mut W, text: &[u8]) -> io::Result<()>
    ensures { OnOk result (Appends (W.contents to.old) (W.contents to.new) text.now) }
{
    to.write_all(text).inspect_err(|_| tell(rt, UNWRITTEN))
}

// One byte more than a job may have.
fn input_buffer() -> [u8; MOST_READ]
    ensures { suc max_job ≡ length result }
{
    [0; MOST_READ]
}
