// The text that is printed of an input: its triangles, or its refusal.
#![tactic(auto)]

ghost use Rattle.std.specs.Prelude.{◌≡◌, [], ◌∷◌, ◌++◌, suc, ◌+◌, ◌*◌, ◌≤◌, length};
ghost use Rattle.mesh.specs.Meshed.{entries_each};
ghost use Rattle.listing.specs.Text.{line_feed, decimal_of, line_at, text_of, Prints};
ghost use Rattle.listing.specs.Inner.{Roomy, Lists, most_digits, line_room, Room, Adds, triangles_in};

use frame::Frame;
use grid::refusals::Refusal;
use mesh::ENTRIES_EACH;

// A frame has at most 2N² triangles, each of three entries.
const MOST_TRIANGLES: usize = 2 * Frame::WIDEST * Frame::WIDEST;

const MOST_ENTRIES: usize = ENTRIES_EACH * MOST_TRIANGLES;

// Room for a line: three numbers of at most ten digits, a byte behind each. There is a first line, and one for each triangle.
const LINE: usize = 33;

// No text is longer.
pub const MOST_BYTES: usize = LINE * (1 + MOST_TRIANGLES);

// The triangles of the input, or its refusal's number.
fn mesh_of(input: &[u8], places: &mut [u16]) -> Result<u32, u32>
    requires { Roomy places.old }
    ensures { Lists input.now places.old result places.new }
{
    let frame = frame::read(input)?;
    let n = grid::sizes::size_of(frame.m)?.samples as usize;
    let mut survey = [0i16; Frame::MOST_SAMPLES];
    let mut marks = [0u8; Frame::MOST_SAMPLES];
    let mut heights = [0i16; Frame::MOST_SAMPLES];
    let survey = &mut survey[..n];
    let marks = &mut marks[..n];
    let heights = &mut heights[..n];
    frame::heights(input, survey)?;
    let selected = selection::select(survey, frame.m, frame.tolerance, marks, heights);
    // Selection answers C's struct: its refusal is a number.
    if selected.refusal != Refusal::ACCEPTED {
        return Err(selected.refusal);
    }
    // None is turned down: the marks are selection's, and there is room.
    let meshed = mesh::triangles(marks, frame.m, places);
    Ok(meshed.triangles)
}

// What is written so far: the bytes before an index of the lent buffer, since none may be allocated. Each method needs other room, so it asks for it.
#[derive(Drop)]
struct Text<'a> {
    out: &'a mut [u8],
    at: usize,
}

impl Text<'_> {
    fn put(&mut self, bytes: &[u8])
        requires { Room self.old (length bytes.now) }
        ensures { Adds (length bytes.now) bytes.now self.old self.new }
    {
        let end = self.at + bytes.len();
        self.out[self.at..end].copy_from_slice(bytes);
        self.at = end;
    }

    fn put_byte(&mut self, byte: u8)
        requires { Room self.old 1 }
        ensures { Adds 1 (byte ∷ []) self.old self.new }
    {
        self.out[self.at] = byte;
        self.at += 1;
    }

    // A number's digits: those of its tenth part, then its last one. Stays by hand: `write!` does not promise to succeed, each byte is promised, and a library here stands on no other repository's.
    fn put_decimal(&mut self, number: u32)
        requires { Room self.old most_digits }
        ensures { Adds most_digits (decimal_of number) self.old self.new }
    {
        if number < 10 {
            return self.put_byte(b'0' + number as u8);
        }
        // Before the call, so that the number is not kept across it.
        let last = b'0' + (number % 10) as u8;
        self.put_decimal(number / 10);
        self.put_byte(last);
    }

    // A number, and the byte behind it.
    fn put_number(&mut self, number: u32, after: u8)
        requires { Room self.old (suc most_digits) }
        ensures { Adds (suc most_digits) (decimal_of number ++ after ∷ []) self.old self.new }
    {
        self.put_decimal(number);
        self.put_byte(after);
    }

    // A triangle's three places.
    fn put_triangle(&mut self, places: &[u16])
        requires { Room self.old line_room × (length places.now ≡ entries_each) }
        ensures { Adds line_room (line_at places.now 0) self.old self.new }
    {
        self.put_number(u32::from(places[0]), b' ');
        self.put_number(u32::from(places[1]), b' ');
        self.put_number(u32::from(places[2]), b'\n');
    }

    // The first line: a word, and a number.
    fn put_first(&mut self, word: &[u8], number: u32)
        requires { (length word.now + suc most_digits ≤ line_room) × Room self.old line_room }
        ensures { Adds line_room (word.now ++ (decimal_of number ++ line_feed ∷ [])) self.old self.new }
    {
        self.put(word);
        self.put_number(number, b'\n');
    }

    fn put_answer(&mut self, answer: Result<u32, u32>, places: &[u16])
        requires { Room self.old (line_room * suc (triangles_in answer)) × (entries_each * triangles_in answer ≤ length places.now) }
        ensures { Adds (line_room * suc (triangles_in answer)) (text_of answer places.now) self.old self.new }
    {
        match answer {
            Err(refusal) => self.put_first(b"refused ", refusal),
            Ok(triangles) => {
                self.put_first(b"T ", triangles);
                let entries = ENTRIES_EACH * (triangles as usize);
                for triangle in places[..entries].chunks_exact(ENTRIES_EACH) {
                    self.put_triangle(triangle);
                }
            }
        }
    }
}

// Places for the most triangles of a frame.
fn blank_places() -> [u16; MOST_ENTRIES]
    ensures { Roomy result }
{
    [0; MOST_ENTRIES]
}

// Writes what is to be printed of the input, and answers how many bytes that is.
pub fn text_of(input: &[u8], out: &mut [u8; MOST_BYTES]) -> usize
    ensures { Prints input.now out.old result out.new }
{
    let mut places = blank_places();
    let answer = mesh_of(input, &mut places);
    let mut text = Text { out, at: 0 };
    text.put_answer(answer, &places);
    text.at
}
