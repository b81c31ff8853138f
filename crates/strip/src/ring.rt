// The ring of triangles, in the order of the list, and the places that it puts into the strip.
ghost use Rattle.std.specs.Prelude.{◌≡◌, true, [], ◌∷◌, ◌+◌, ◌≤◌, ◌<◌, length};
ghost use Rattle.grid.specs.Grid.{samples, largest};
ghost use Rattle.mesh.specs.Inner.{Plain, Ends, kept_place, is_cut};
ghost use Rattle.strip.specs.Inner.{exchanged, first_half, second_half, turns_by, shared_by, Short, Laid, pair, Lays, Steps, Passes, gone_on, begun_by, first_of, taken, laid, passages_of, Passable, ring_of, outset};

use grid::Grid;
use mesh::cut::is_cut;

// A side of a triangle (l, a, r) by which the strip comes in, at l, or goes out, at r.
#[derive(Clone, Copy)]
pub enum Side {
    Leg,
    Longest,
}

impl Side {
    // Of a half: its longest side is a leg of the whole, and on the whole's longest side lies a leg of it.
    fn exchanged(self) -> Side
        ensures { result ≡ exchanged self }
    {
        match self {
            Side::Leg => Side::Longest,
            Side::Longest => Side::Leg,
        }
    }
}

// A triangle with so many cuts left, and how the strip passes it: into the first one it comes by no side, and out of the last one it goes by none.
#[derive(Clone, Copy)]
pub struct Passage {
    pub l: u16,
    pub a: u16,
    pub r: u16,
    pub left: u32,
    pub comes: Option<Side>,
    pub goes: Option<Side>,
}

impl Passage {
    fn is_cut(self, marks: &[u8]) -> bool
        requires { Ends marks.now self.l self.r }
        ensures { result ≡ is_cut (kept_place marks.now) self.left self.l self.r }
    {
        is_cut(marks, self.left, usize::from(self.l), usize::from(self.r))
    }

    // The halves share the leg at the cut, from the one to the other.
    fn halves(self) -> (Passage, Passage)
        requires { (0 < self.left) × (self.l ≤ samples largest) × (self.r ≤ samples largest) }
        ensures { (result.0 ≡ first_half self) × (result.1 ≡ second_half self) }
    {
        let cut = Grid::midpoint(usize::from(self.l), usize::from(self.r)) as u16;
        let left = self.left - 1;
        let one = Passage {
            l: self.l,
            a: cut,
            r: self.a,
            left,
            comes: self.comes.map(Side::exchanged),
            goes: Some(Side::Leg),
        };
        let two = Passage {
            l: self.a,
            a: cut,
            r: self.r,
            left,
            comes: Some(Side::Leg),
            goes: self.goes.map(Side::exchanged),
        };
        (one, two)
    }

    // Whether a turn is needed: the newer place is not on the way out. The last triangle, which has none, needs no turn.
    fn turns(self, near: bool) -> bool
        ensures { result ≡ turns_by self.goes near }
    {
        match self.goes {
            None => false,
            Some(Side::Leg) => near,
            Some(Side::Longest) => !near,
        }
    }

    // Of the leg from l to a, the corner on the way out.
    fn shared(self) -> u16
        ensures { result ≡ shared_by self.goes self }
    {
        match self.goes {
            Some(Side::Longest) => self.l,
            _ => self.a,
        }
    }
}

// The strip as it is laid: the places that are lent, the index of the next one, and of the running pair whether the newer place is the corner at which
// the strip comes in.
#[derive(Drop)]
pub struct Laying<'a> {
    pub places: &'a mut [u16],
    pub at: usize,
    pub near: bool,
}

impl Laying<'_> {
    // A place, where there is room for it: a pass without room only counts. That the index is short stays a `requires`: each place adds to it, so that no
    // ghost field could keep it.
    fn put(&mut self, p: u16)
        requires { Short self.old.at }
        ensures { Lays (p ∷ []) self.old.near self.old self.new }
    {
        let at = self.at;
        if at < self.places.len() {
            self.places[at] = p;
        }
        self.at = at + 1;
    }

    // From the running pair on to the triangle's third corner, the older place repeated before it where a turn is needed.
    fn go_on(&mut self, t: &Passage, older: u16, third: u16, near: bool)
        requires { Short (self.old.at + 1) }
        ensures { Steps (gone_on t.now older third near (pair self.old)) self.old self.new }
    {
        if t.turns(self.near) {
            self.put(older);
        }
        self.put(third);
        self.near = near;
    }

    // Three places, of which the last two are the way out.
    fn begin(&mut self, p: u16, q: u16, w: u16, near: bool)
        requires { Short (self.old.at + 2) }
        ensures { Steps (begun_by p q w near (pair self.old)) self.old self.new }
    {
        self.put(p);
        self.put(q);
        self.put(w);
        self.near = near;
    }

    // The first triangle, counter-clockwise: (l, a, r) turns so with an even number of cuts left. The next comes in at r.
    fn first(&mut self, t: &Passage)
        requires { Short (self.old.at + 2) }
        ensures { Steps (first_of t.now (pair self.old)) self.old self.new }
    {
        match (t.goes, t.left % 2 == 1) {
            (Some(Side::Longest), true) => self.begin(t.a, t.l, t.r, true),
            (Some(Side::Longest), false) => self.begin(t.a, t.r, t.l, false),
            (_, true) => self.begin(t.l, t.r, t.a, false),
            (_, false) => self.begin(t.l, t.a, t.r, true),
        }
    }

    fn take(&mut self, t: &Passage)
        requires { Short (self.old.at + 2) }
        ensures { Steps (taken t.now (pair self.old)) self.old self.new }
    {
        match t.comes {
            None => self.first(t),
            Some(Side::Leg) => self.go_on(t, t.shared(), t.r, true),
            Some(Side::Longest) => self.go_on(t, t.r, t.a, false),
        }
    }

    // The uncut triangles that one leads to, in their order: itself, or what its halves lead to. Two functions, the one inlined into the other: as one
    // function, the ring of the largest real grid takes 104.2 instructions a triangle, and so 98.0.
    #[cycle(passing)]
    #[inline(always)]
    fn pass(&mut self, marks: &[u8], t: &Passage)
        requires { Passable marks.now t.now (pair self.old) }
        ensures { Passes (passages_of marks.now t.now) self.old self.new }
    {
        if t.is_cut(marks) {
            self.pass_halves(marks, t);
        } else {
            self.take(t);
        }
    }

    #[cycle(passing)]
    fn pass_halves(&mut self, marks: &[u8], t: &Passage)
        requires { Passable marks.now t.now (pair self.old) × (is_cut (kept_place marks.now) t.now.left t.now.l t.now.r ≡ true) }
        ensures { Passes (passages_of marks.now t.now) self.old self.new }
    {
        let (one, two) = t.halves();
        self.pass(marks, &one);
        self.pass(marks, &two);
    }
}

// The whole ring: the starting triangles share the diagonal. The mesh and the walk have them, too, each in its own type.
pub(crate) fn ring(marks: &[u8], m: u32, places: &mut [u16]) -> usize
    requires { (m ≤ largest) × Plain marks.now × (length marks.now ≡ samples m) }
    ensures { Laid (laid outset (ring_of (kept_place marks.now) m)) 0 places.old result places.new }
{
    let side = grid::sizes::grid_of(m).side;
    let se = side as u16;
    let nw = (side * (side + 1)) as u16;
    let ne = nw + se;
    let one = Passage {
        l: 0,
        a: se,
        r: ne,
        left: 2 * m,
        comes: None,
        goes: Some(Side::Longest),
    };
    let two = Passage {
        l: ne,
        a: nw,
        r: 0,
        left: 2 * m,
        comes: Some(Side::Longest),
        goes: None,
    };
    let mut laying = Laying {
        places,
        at: 0,
        near: false,
    };
    laying.pass(marks, &one);
    laying.pass(marks, &two);
    laying.at
}
