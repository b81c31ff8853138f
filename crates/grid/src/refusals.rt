// Why a call is turned down, and the number of each refusal.
ghost use Rattle.grid.specs.Refusal.{number};

// With a want of room goes what is needed: triangles, or a strip's places.
#[derive(Clone, Copy)]
pub enum Refusal {
    SizeAbove,
    WrongLength,
    VoidCorner,
    ToleranceAbove,
    PointBeyond,
    BadMark,
    NotClosed,
    NoRoom(u32),
    InputForm,
}

impl Refusal {
    // No refusal has this number: an answer that holds it was accepted.
    pub const ACCEPTED: u32 = 0;
}

impl From<Refusal> for u32 {
    ghost use Rattle.std.specs.Prelude.{◌≡◌};

    ghost from_gives = { λ refusal r. r ≡ number refusal };

    fn from(refusal: Refusal) -> u32 {
        match refusal {
            Refusal::SizeAbove => 1,
            Refusal::WrongLength => 2,
            Refusal::VoidCorner => 3,
            Refusal::ToleranceAbove => 4,
            Refusal::PointBeyond => 5,
            Refusal::BadMark => 6,
            Refusal::NotClosed => 7,
            Refusal::NoRoom(_) => 8,
            Refusal::InputForm => 9,
        }
    }
}
