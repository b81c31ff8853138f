// Reads a frame from standard input and prints its triangles, or its refusal. What it prints is proved in `listing`; here is only input and output.
#![tactic(auto)]

ghost use Rattle.std.specs.Prelude.{◌≡◌, ◌≤◌, suc, length, IfOk};
ghost use Rattle.std.specs.Fn.{AlwaysReturns};
ghost use Rattle.frame.specs.Frame.{longest};

use frame::Frame;
use std::io::{self, ErrorKind, Read};
use std::thread;

// A call that moves nothing is made again so often, for a minute or more: a loop has to end.
const MOST_TRIES: u32 = 1 << 26;

// One byte more than the longest frame has, so that a longer input is seen to be longer.
fn room() -> [u8; Frame::LONGEST + 1]
    ensures { suc longest ≡ length result }
{
    [0; Frame::LONGEST + 1]
}

// Whether a call that failed may move something later: a signal came first, or the descriptor does not wait.
fn may_try_again(moved: &io::Result<usize>) -> bool {
    let Err(error) = moved else {
        return false;
    };
    if error.kind() == ErrorKind::WouldBlock {
        thread::yield_now();
    }
    matches!(error.kind(), ErrorKind::WouldBlock | ErrorKind::Interrupted)
}

// Makes a call until it moves something, ends or fails for good: it answers at most `most`.
fn tried<F: FnMut() -> io::Result<usize>>(most: usize, mut call: F) -> io::Result<usize>
    requires callable { F.IsAlwaysCallable call }
    requires at_most { AlwaysReturns F.FnMut (λ _ moved. IfOk moved (λ n. n ≤ most)) call }
    ensures { IfOk result (λ n. n ≤ most) }
{
    for _ in 0..MOST_TRIES {
        let moved = call();
        if !may_try_again(&moved) {
            return moved;
        }
    }
    call()
}

// Reads until the input ends or there is no more room.
fn read_input<'a>(rt: &impl Input, input: &'a mut [u8]) -> io::Result<&'a [u8]>
    ensures { IfOk result (λ came. length came.now ≤ length input.old) }
{
    let mut reader = rt.reader();
    let mut done = 0;
    // Stays a `while`: each turn goes on by as many bytes as came.
    while done < input.len() {
        let part = &mut input[done..];
        match tried(part.len(), || reader.read(part))? {
            0 => break,
            more => done += more,
        }
    }
    Ok(&input[..done])
}

fn write_text(rt: &(impl Print + Eprint), text: &[u8]) {
    let mut rest = text;
    // Stays a `while`: each turn goes on by as many bytes as were taken.
    while !rest.is_empty() {
        match tried(rest.len(), || rt.write_some(rest)) {
            Ok(0) => {
                let _ = eprintln!(rt; "meshprint: standard output: nothing was written");
                return;
            }
            Ok(done) => rest = &rest[done..],
            Err(error) => {
                let _ = eprintln!(rt; "meshprint: standard output: {error}");
                return;
            }
        }
    }
}

fn main(rt: HostRuntime) {
    let mut input = room();
    let mut out = [0; listing::MOST_BYTES];
    let frame = match read_input(&rt, &mut input) {
        Ok(frame) => frame,
        // An input that can't be read to its end is no frame, whatever came of it.
        Err(error) => {
            let _ = eprintln!(rt; "meshprint: standard input: {error}");
            &[]
        }
    };
    let n = listing::text_of(frame, &mut out);
    write_text(&rt, &out[..n]);
}
