// Prints what read and heights answer of frames in memory, and the refusal of select: the document's own frame, one with heights of both signs, and one for each
// refusal of the program. The survey holds nines before each call.
#![tactic(auto)]

ghost use Rattle.std.specs.Prelude.{◌<◌};

use frame::Frame;
use grid::refusals::Refusal;
use std::io;

const SAMPLE: [u8; 28] = [
    0, 0, 0, 24, 1, 1, 0, 0, 0, 5, 0, 0, 0, 10, 0, 0, 0, 0, 0, 0, 0, 0, 0, 0, 0, 0, 0, 0,
];

// Heights 1, -1, 256, -256, 32767, -32767, 0, void and -2, tolerance 65,535.
const SIGNS: [u8; 28] = [
    0, 0, 0, 24, 1, 1, 0, 0, 255, 255, 0, 1, 255, 255, 1, 0, 255, 0, 127, 255, 128, 1, 0, 0, 128,
    0, 255, 254,
];

// Size 0: four heights.
const SMALLER: [u8; 18] = [0, 0, 0, 14, 1, 0, 0, 0, 0, 5, 0, 0, 0, 0, 0, 0, 0, 0];

fn show(rt: &impl Print, name: &str, input: &[u8]) -> io::Result<()> {
    let mut survey = [9; 9];
    let (refusal, m, tolerance) = match frame::read(input) {
        Ok(frame) => (Refusal::ACCEPTED, frame.m, frame.tolerance),
        Err(refusal) => (u32::from(refusal), 0, 0),
    };
    print!(rt; "{name}: read {refusal} m {m} tolerance {tolerance}")?;
    let read = frame::heights(input, &mut survey);
    let refusal = match read {
        Ok(()) => Refusal::ACCEPTED,
        Err(refusal) => u32::from(refusal),
    };
    print!(rt; "; heights {refusal}:")?;
    for height in &survey {
        print!(rt; " {height}")?;
    }
    if read.is_ok() {
        let answer = selection::select(&survey, m, tolerance, &mut [9; 9], &mut [9; 9]);
        print!(rt; "; select {}", answer.refusal)?;
    }
    println!(rt; "")
}

// The document's frame with another byte at an index.
fn sample_with(at: usize, byte: u8) -> [u8; 28]
    requires { at < 28 }
{
    let mut input = SAMPLE;
    input[at] = byte;
    input
}

// Longer than any valid frame, all zero but the version and m.
fn too_long(version: u8, m: u8) -> [u8; Frame::LONGEST + 1] {
    let mut input = [0; Frame::LONGEST + 1];
    input[4] = version;
    input[5] = m;
    input
}

fn main(rt: HostRuntime) -> io::Result<()> {
    show(&rt, "the document's frame", &SAMPLE)?;
    show(&rt, "both signs", &SIGNS)?;
    show(&rt, "fewer than 6 bytes", &SAMPLE[..5])?;
    show(&rt, "version 2", &sample_with(4, 2))?;
    show(&rt, "m above 5", &sample_with(5, 6))?;
    show(&rt, "a byte too few", &SAMPLE[..27])?;
    show(&rt, "length field 25", &sample_with(3, 25))?;
    show(&rt, "longer than any frame", &too_long(1, 5))?;
    show(&rt, "longer, version 2", &too_long(2, 6))?;
    show(&rt, "longer, m above 5", &too_long(1, 6))?;
    show(&rt, "void corner", &sample_with(26, 128))?;
    show(&rt, "tolerance above 65,535", &sample_with(7, 1))?;
    show(&rt, "another size", &SMALLER)
}
