// Prints what triangles answers and, three places a line, the triangles it writes, for the settled examples 1, 2, 3 and 12 and for a
// call of each refusal. The room holds no place before each call.
#![tactic(auto)]

use grid::refusals::Refusal;
use std::io;

// Beyond the last place of the largest grid.
const NO_PLACE: u16 = 65535;

const CORNERS: [u8; 9] = [3, 0, 3, 0, 0, 0, 3, 0, 3];

const CENTRE: [u8; 9] = [3, 0, 3, 0, 1, 0, 3, 0, 3];

const EDGE: [u8; 9] = [3, 1, 3, 0, 2, 0, 3, 0, 3];

const EDGE_ALONE: [u8; 9] = [3, 1, 3, 0, 0, 0, 3, 0, 3];

const MARK_FIVE: [u8; 9] = [3, 5, 3, 0, 0, 0, 3, 0, 3];

const CORNER_ONE: [u8; 9] = [1, 0, 3, 0, 0, 0, 3, 0, 3];

// The heading: what is handed over.
fn show_call(rt: &impl Print, name: &str, m: u32, marks: &[u8], room: usize) -> io::Result<()> {
    print!(rt; "{name}: m {m}, marks")?;
    for mark in marks {
        print!(rt; " {mark}")?;
    }
    println!(rt; ", room {room}")
}

fn show_triangles(rt: &impl Print, triangles: u32, places: &[u16]) -> io::Result<()> {
    println!(rt; "{triangles} triangles")?;
    let (shown, _) = places.as_chunks::<3>();
    for [a, b, c] in shown.iter().take(triangles as usize) {
        println!(rt; "{a} {b} {c}")?;
    }
    Ok(())
}

fn show<const ROOM: usize>(
    rt: &impl Print,
    name: &str,
    m: u32,
    marks: &[u8],
    mut places: [u16; ROOM],
) -> io::Result<()> {
    show_call(rt, name, m, marks, ROOM)?;
    let answer = mesh::triangles(marks, m, &mut places);
    // C's struct: its refusal is a number.
    if answer.refusal == Refusal::ACCEPTED {
        return show_triangles(rt, answer.triangles, &places);
    }
    println!(rt; "refused {}", answer.refusal)?;
    if answer.refusal == u32::from(Refusal::NoRoom(0)) {
        println!(rt; "needs {}", answer.triangles)?;
    }
    Ok(())
}

fn main(rt: HostRuntime) -> io::Result<()> {
    show(&rt, "example 1", 0, &[3; 4], [NO_PLACE; 6])?;
    show(&rt, "example 2", 1, &CENTRE, [NO_PLACE; 12])?;
    show(&rt, "example 3", 1, &CORNERS, [NO_PLACE; 6])?;
    show(&rt, "example 12", 1, &EDGE_ALONE, [NO_PLACE; 15])?;
    show(&rt, "example 12", 1, &EDGE, [NO_PLACE; 14])?;
    show(&rt, "example 12", 1, &EDGE, [NO_PLACE; 15])?;
    show(&rt, "refusal 1", 8, &[], [NO_PLACE; 6])?;
    show(&rt, "refusal 2", 1, &CORNERS[..8], [NO_PLACE; 6])?;
    show(&rt, "refusal 6", 1, &MARK_FIVE, [NO_PLACE; 6])?;
    show(&rt, "refusal 6", 1, &CORNER_ONE, [NO_PLACE; 6])?;
    show(&rt, "refusal 7", 1, &EDGE_ALONE, [NO_PLACE; 6])
}
