// Prints what selection answers and, as mark/height of each sample, what it writes, for the settled examples 4, 8, 9 and 10 and
// for a call of each refusal. The buffers hold nines before each call.
#![tactic(auto)]

ghost use Rattle.std.specs.Prelude.{◌<◌};

use grid::Grid;
use selection::Selected;
use std::io;

const Q: [i16; 9] = [0, 10, 0, 0, 0, 0, 0, 0, 0];

const V: [i16; 9] = [-3, 0, 0, 0, Grid::VOID, 0, 0, 0, -4];

const CORNER_VOID: [i16; 9] = [0, 0, 0, 0, 0, 0, 0, 0, Grid::VOID];

const TEN: [i16; 25] = [
    0, 10, 0, 0, 0, 0, 0, 0, 0, 0, 0, 0, 0, 0, 0, 0, 0, 0, 0, 0, 0, 0, 0, 0, 0,
];

fn show_answer(rt: &impl Print, answer: Selected) -> io::Result<()> {
    println!(rt;
        "refusal {} own {} dependent {} voids {}",
        answer.refusal, answer.own, answer.dependent, answer.voids
    )
}

fn show_row(rt: &impl Print, marks: &[u8], heights: &[i16]) -> io::Result<()> {
    for (i, (mark, height)) in marks.iter().zip(heights).enumerate() {
        let gap = if i == 0 { "" } else { " " };
        print!(rt; "{gap}{mark}/{height}")?;
    }
    println!(rt; "")
}

fn show_rows(rt: &impl Print, row: usize, marks: &[u8], heights: &[i16]) -> io::Result<()>
    requires { 0 < row }
{
    for (marks, heights) in marks.chunks(row).zip(heights.chunks(row)) {
        show_row(rt, marks, heights)?;
    }
    Ok(())
}

fn show<const SAMPLES: usize, const MARKS: usize>(
    rt: &impl Print,
    name: &str,
    survey: [i16; SAMPLES],
    m: u32,
    tolerance: u32,
    mut marks: [u8; MARKS],
) -> io::Result<()>
    requires { 0 < SAMPLES }
{
    let mut heights = [9; SAMPLES];
    println!(rt; "{name}")?;
    show_answer(
        rt,
        selection::select(&survey, m, tolerance, &mut marks, &mut heights),
    )?;
    show_rows(rt, SAMPLES.isqrt(), &marks, &heights)
}

fn main(rt: HostRuntime) -> io::Result<()> {
    show(&rt, "example 4", Q, 1, 5, [9; 9])?;
    show(&rt, "example 8", V, 1, 1, [9; 9])?;
    show(&rt, "example 9", V, 1, 5, [9; 9])?;
    show(&rt, "example 10", TEN, 2, 4, [9; 25])?;
    show(&rt, "size 8", Q, 8, 5, [9; 9])?;
    show(&rt, "marks one short", Q, 1, 5, [9; 8])?;
    show(&rt, "tolerance 65536", Q, 1, 65536, [9; 9])?;
    show(&rt, "void corner", CORNER_VOID, 1, 5, [9; 9])
}
