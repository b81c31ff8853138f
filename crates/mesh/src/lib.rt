// Triangles: the marks looked at, the uncut triangles written and counted.
#![tactic(auto)]

mod closed;
pub mod cut;
pub mod good;
mod number;

ghost use Rattle.std.specs.Prelude.{◌≡◌};
ghost use Rattle.mesh.specs.Meshed.{handed, no_room_for, answer_of, Meshes};
ghost use Rattle.mesh.specs.Inner.{outcome};

use cut::at_centre;
use good::{GoodMarks, good_marks};
use grid::refusals::Refusal;

// C gets this struct as it stands: the refusal stays a number, 0 for none, with the triangles beside it.
#[repr(C)]
#[derive(Clone, Copy)]
pub struct Meshed {
    pub refusal: u32,
    pub triangles: u32,
}

// What is needed goes with a want of room alone. Strip's conversion stays apart: it fills another of C's structs.
impl From<Refusal> for Meshed {
    ghost use Rattle.mesh.specs.Inner.{refused};

    ghost from_gives = { λ refusal r. r ≡ refused refusal };

    fn from(refusal: Refusal) -> Meshed {
        let triangles = match refusal {
            Refusal::NoRoom(needed) => needed,
            _ => 0,
        };
        Meshed {
            refusal: u32::from(refusal),
            triangles,
        }
    }
}

// Three entries per triangle.
pub const ENTRIES_EACH: usize = 3;

fn lacks_room(room: usize, triangles: u32) -> bool
    ensures { result ≡ no_room_for triangles room }
{
    room < ENTRIES_EACH * (triangles as usize)
}

// The refusals in their order, or the number of triangles, before anything is written.
fn answer_of(marks: &[u8], m: u32, places: &[u16]) -> Result<u32, Refusal>
    ensures { outcome result ≡ answer_of (handed marks.now m places.now) }
{
    let size = grid::sizes::size_of(m)?;
    if marks.len() != size.samples as usize {
        return Err(Refusal::WrongLength);
    }
    let g = grid::sizes::grid_of(m);
    if !good_marks(g, marks) {
        return Err(Refusal::BadMark);
    }
    let good = GoodMarks {
        grid: g,
        bytes: marks,
    };
    if !good.closed() {
        return Err(Refusal::NotClosed);
    }
    let triangles = good.number();
    if lacks_room(places.len(), triangles) {
        return Err(Refusal::NoRoom(triangles));
    }
    Ok(triangles)
}

pub fn triangles(marks: &[u8], m: u32, places: &mut [u16]) -> Meshed
    ensures { Meshes (handed marks.now m places.old) result places.new }
{
    match answer_of(marks, m, places) {
        Ok(triangles) => {
            let g = grid::sizes::grid_of(m);
            let se = g.side as usize;
            let nw = se * (se + 1);
            let ne = nw + se;
            // The starting triangles stand here, in the walk and in the strip, each in its own type.
            let next = at_centre(marks, 2 * m, 0, se, ne, 0, places);
            at_centre(marks, 2 * m, ne, nw, 0, next, places);
            Meshed {
                refusal: Refusal::ACCEPTED,
                triangles,
            }
        }
        Err(refusal) => Meshed::from(refusal),
    }
}
