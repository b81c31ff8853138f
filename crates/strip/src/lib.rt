// One strip for the whole ring of triangles, for a graphics block.
#![tactic(auto)]

mod ring;

ghost use Rattle.std.specs.Prelude.{◌≡◌, MatchResult};
ghost use Rattle.mesh.specs.Meshed.{handed};
ghost use Rattle.strip.specs.Stripped.{Strips, refusal};
ghost use Rattle.strip.specs.Inner.{Refused};
ghost use Rattle.grid.specs.Refusal.{accepted};

use grid::refusals::Refusal;
use ring::ring;

// C gets this struct as it stands: the refusal stays a number, 0 for none, with the places beside it.
#[repr(C)]
#[derive(Clone, Copy)]
pub struct Stripped {
    pub refusal: u32,
    pub places: u32,
}

// Mesh's conversion stays apart: it fills another of C's structs.
impl From<Refusal> for Stripped {
    ghost use Rattle.std.specs.Prelude.{◌≡◌};
    ghost use Rattle.strip.specs.Inner.{refusing};

    ghost from_gives = { λ refusal r. r ≡ refusing refusal };

    fn from(refusal: Refusal) -> Stripped {
        let places = match refusal {
            Refusal::NoRoom(needed) => needed,
            _ => 0,
        };
        Stripped {
            refusal: u32::from(refusal),
            places,
        }
    }
}

// A triangle puts at most two places into the strip, the first three and the last one.
const MOST_EACH: usize = 2;

// The refusals in their order, with the places that are needed where the room lacks, before anything is written.
fn look(marks: &[u8], m: u32, places: &[u16]) -> Result<(), Stripped>
    ensures { let h = handed marks.now m places.now in MatchResult result (λ _. refusal h ≡ accepted) (λ r. Refused h r) }
{
    // Asked without room, triangles looks at everything, and turns down its own want of room last. Its answer is C's struct: refusals are numbers.
    let mut no_room = [0u16; 1];
    let listed = mesh::triangles(marks, m, &mut no_room);
    if listed.refusal != u32::from(Refusal::NoRoom(listed.triangles)) {
        return Err(Stripped {
            refusal: listed.refusal,
            places: 0,
        });
    }
    // The places are counted only where there is no room for the most that these triangles can take.
    if places.len() < MOST_EACH * (listed.triangles as usize) {
        let needed = ring(marks, m, &mut no_room);
        if places.len() < needed {
            return Err(Refusal::NoRoom(needed as u32).into());
        }
    }
    Ok(())
}

pub fn strip(marks: &[u8], m: u32, places: &mut [u16]) -> Stripped
    ensures { Strips (handed marks.now m places.old) result places.new }
{
    match look(marks, m, places) {
        Ok(()) => Stripped {
            refusal: Refusal::ACCEPTED,
            places: ring(marks, m, places) as u32,
        },
        Err(refused) => refused,
    }
}
