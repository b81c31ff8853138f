// Prints what height and plane answer, each float by its bits, for the settled examples 5 to 9, by the marks and heights that selection
// writes, and for a call of each refusal. The buffers hold nines before selection.
#![tactic(auto)]

use aim::HeightAnswer;
use grid::Grid;
use grid::refusals::Refusal;
use std::{fmt, io};

const Q: [i16; 9] = [0, 10, 0, 0, 0, 0, 0, 0, 0];

const V: [i16; 9] = [-3, 0, 0, 0, Grid::VOID, 0, 0, 0, -4];

const Q_MARKS: [u8; 9] = [3, 1, 3, 0, 2, 0, 3, 0, 3];

const CORNER_ONE: [u8; 9] = [1, 1, 3, 0, 2, 0, 3, 0, 3];

const MIDDLE_THREE: [u8; 9] = [3, 1, 3, 0, 3, 0, 3, 0, 3];

// Void at a corner of the triangle in which the walk to (2, 0) ends by Q's marks.
const EDGE_VOID: [i16; 9] = [0, Grid::VOID, 0, 0, 0, 0, 0, 0, 0];

// The size, and of each sample the mark and the height.
#[derive(Clone, Copy)]
struct Samples<'a>(u32, &'a [u8], &'a [i16]);

#[derive(Drop)]
struct Bits(f32);

impl fmt::Display for Bits {
    fn fmt<W: fmt::Write>(&self, f: &mut fmt::Formatter<W>) -> fmt::Result {
        let value = self.0;
        // A NaN's bits can't be had.
        if value.is_nan() {
            write!(f, "nan")
        } else {
            write!(f, "{:#010x}", value.to_bits())
        }
    }
}

fn show_height(rt: &impl Print, name: &str, samples: Samples, x: u32, y: u32) -> io::Result<()> {
    let Samples(m, marks, heights) = samples;
    print!(rt; "{name}: height at ({x}, {y}): ")?;
    match aim::height(marks, heights, m, x, y) {
        HeightAnswer::Surveyed(height) => println!(rt; "surveyed {}", Bits(height)),
        HeightAnswer::Filled(height) => println!(rt; "filled {}", Bits(height)),
        HeightAnswer::Refused(number) => println!(rt; "refused {number}"),
    }
}

// Apart from the height's: another call, and another answer to print. A refused plane's floats are shown too.
fn show_plane(rt: &impl Print, name: &str, samples: Samples, x: u32, y: u32) -> io::Result<()> {
    let Samples(m, marks, heights) = samples;
    print!(rt; "{name}: plane at ({x}, {y}): ")?;
    let answer = aim::plane(marks, heights, m, x, y);
    // C's struct: its refusal is a number.
    if answer.refusal != Refusal::ACCEPTED {
        print!(rt; "refused {}, ", answer.refusal)?;
    }
    let ground = answer.ground;
    println!(rt;
        "height {} east {} north {}",
        Bits(ground.height),
        Bits(ground.east),
        Bits(ground.north)
    )
}

fn show_q(rt: &impl Print) -> io::Result<()> {
    let mut marks = [9; 9];
    let mut heights = [9; 9];
    selection::select(&Q, 1, 5, &mut marks, &mut heights);
    let selected = Samples(1, &marks, &heights);
    show_height(rt, "example 5", selected, 2, 0)?;
    show_plane(rt, "example 6", selected, 3, 1)?;
    show_height(rt, "example 7", selected, 8, 8)?;
    show_height(rt, "example 7", selected, 9, 0)
}

fn show_v(rt: &impl Print, name: &str, tolerance: u32) -> io::Result<()> {
    let mut marks = [9; 9];
    let mut heights = [9; 9];
    selection::select(&V, 1, tolerance, &mut marks, &mut heights);
    show_height(rt, name, Samples(1, &marks, &heights), 4, 4)
}

fn show_refusals(rt: &impl Print) -> io::Result<()> {
    for (name, samples, x) in [
        ("refusal 1", Samples(8, &Q_MARKS, &Q), 2),
        ("refusal 2", Samples(1, &Q_MARKS[..8], &Q), 2),
        ("refusal 2", Samples(1, &Q_MARKS, &Q[..8]), 2),
        ("refusal 5", Samples(1, &Q_MARKS, &Q), 9),
        ("refusal 6", Samples(1, &CORNER_ONE, &Q), 2),
        ("refusal 6", Samples(1, &MIDDLE_THREE, &Q), 2),
        ("refusal 3", Samples(1, &Q_MARKS, &EDGE_VOID), 2),
    ] {
        show_height(rt, name, samples, x, 0)?;
        show_plane(rt, name, samples, x, 0)?;
    }
    Ok(())
}

fn main(rt: HostRuntime) -> io::Result<()> {
    show_q(&rt)?;
    show_v(&rt, "example 8", 1)?;
    show_v(&rt, "example 9", 5)?;
    show_refusals(&rt)
}
