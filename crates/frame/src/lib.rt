// The input of the program: its form, what it carries, and the heights in it.
#![tactic(auto)]

ghost use Rattle.std.specs.Prelude.{◌≡◌, ◌+◌, ◌*◌, ◌≤◌, length};
ghost use Rattle.frame.specs.Bytes.{number_at};
ghost use Rattle.frame.specs.Frame.{heights_at, height_bytes, field_bytes, answer_of, height_at, handed, Surveys};
ghost use Rattle.frame.specs.Inner.{Copied};

use grid::refusals::Refusal;

#[derive(Clone, Copy)]
pub struct Frame {
    pub m: u32,
    pub tolerance: u32,
}

impl Frame {
    pub const LARGEST: u32 = 5;

    // What a frame of the largest size has: N, its samples, its bytes.
    pub const WIDEST: usize = 1 << Frame::LARGEST;

    pub const MOST_SAMPLES: usize = (Frame::WIDEST + 1) * (Frame::WIDEST + 1);

    pub const LONGEST: usize = Frame::HEIGHTS_AT + Frame::HEIGHT_BYTES * Frame::MOST_SAMPLES;

    // Where each part begins.
    const LENGTH_AT: usize = 0;

    const VERSION_AT: usize = 4;

    const SIZE_AT: usize = 5;

    const TOLERANCE_AT: usize = 6;

    const HEIGHTS_AT: usize = 10;

    const HEIGHT_BYTES: usize = 2;

    const VERSION: u8 = 1;

    const FEWEST: usize = 6;

    // What the length field counts before the heights.
    const FOLLOWING: usize = 6;
}

fn four_at(input: &[u8], i: usize) -> u32
    requires { i + field_bytes ≤ length input.now }
    ensures { result ≡ number_at input.now i field_bytes }
{
    u32::from_be_bytes([input[i], input[i + 1], input[i + 2], input[i + 3]])
}

fn height_at(input: &[u8], i: usize) -> i16
    requires { heights_at + height_bytes * i + height_bytes ≤ length input.now }
    ensures { result ≡ height_at input.now i }
{
    let at = Frame::HEIGHTS_AT + Frame::HEIGHT_BYTES * i;
    i16::from_be_bytes([input[at], input[at + 1]])
}

#[tactic(auto, unfolding(crate::specs::Frame::answer_of))]
pub fn read(input: &[u8]) -> Result<Frame, Refusal>
    ensures { result ≡ answer_of input.now }
{
    if input.len() < Frame::FEWEST || input[Frame::VERSION_AT] != Frame::VERSION {
        return Err(Refusal::InputForm);
    }
    let m = u32::from(input[Frame::SIZE_AT]);
    if m > Frame::LARGEST {
        return Err(Refusal::SizeAbove);
    }
    let size = grid::sizes::size_of(m)?;
    let heights = Frame::HEIGHT_BYTES * (size.samples as usize);
    if input.len() != Frame::HEIGHTS_AT + heights
        || four_at(input, Frame::LENGTH_AT) as usize != Frame::FOLLOWING + heights
    {
        return Err(Refusal::InputForm);
    }
    Ok(Frame {
        m,
        tolerance: four_at(input, Frame::TOLERANCE_AT),
    })
}

fn copy(input: &[u8], survey: &mut [i16])
    requires { heights_at + height_bytes * length survey.old ≤ length input.now }
    ensures { Copied input.now (length survey.old) survey.new }
{
    for (i, height) in survey.iter_mut().enumerate() {
        *height = height_at(input, i);
    }
}

pub fn heights(input: &[u8], survey: &mut [i16]) -> Result<(), Refusal>
    ensures { Surveys (handed input.now survey.old) result survey.new }
{
    let frame = read(input)?;
    let size = grid::sizes::size_of(frame.m)?;
    if survey.len() != size.samples as usize {
        return Err(Refusal::WrongLength);
    }
    copy(input, survey);
    Ok(())
}
