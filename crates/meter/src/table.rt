// The meter's table of numbers: three figures of two numbers each, the high one first, then places of four numbers. The index
// rule is the one of the definitions. What other crates call takes any numbers: a table that is none has nothing in it.
ghost use Rattle.std.specs.Prelude.{◌≡◌, ◌+◌, ◌≤◌, ◌<◌, length};
ghost use Rattle.ground.specs.Limits.{frame_limit, entered_limit};
ghost use Rattle.frames.specs.Meter.{no_frame, held_bytes, held_frames, with_frame};
ghost use Rattle.frames.specs.MeterTable.{meter_words, figure_from, laid_meter, meter_from};
ghost use Rattle.meter.specs.Reading.{as_read, frame_of, frame_in, held_in, figure_in, start_of, counts};

use ground::{FRAMES, METER_WORDS};

// What the high number of a figure counts.
const BASE: u64 = 4294967296;

// Where the places begin, and the numbers of one.
const PLACES: usize = 6;

const WIDTH: usize = 4;

// A figure that the table has.
#[derive(Clone, Copy)]
pub enum Sum {
    Entered,
    Delivered,
    Dropped,
}

// What can be asked of a whole meter: the bytes of those three, the bytes held, and the number of frames held.
#[derive(Clone, Copy)]
pub enum Figure {
    Entered,
    Delivered,
    Dropped,
    Held,
    Frames,
}

// What stands at a place.
#[derive(Clone, Copy)]
pub struct Frame {
    pub size: u32,
    pub unit: u32,
    pub destination: u32,
    pub hops: u32,
}

// Where a figure stands.
pub(crate) fn start_of(sum: Sum) -> usize
    ensures { result ≡ start_of sum }
{
    match sum {
        Sum::Entered => 0,
        Sum::Delivered => 2,
        Sum::Dropped => 4,
    }
}

// The figure in the two numbers from a place on.
pub(crate) fn stored(meter: &[u32], from: usize) -> u64
    requires { from + 2 ≤ length meter.now }
    ensures { result ≡ figure_from meter.now from }
{
    u64::from(meter[from]) * BASE + u64::from(meter[from + 1])
}

// The bytes held: the sizes at all places.
fn held_bytes(meter: &[u32]) -> u64
    requires { length meter.now ≡ meter_words }
    ensures { result ≡ held_bytes (meter_from meter.now) }
{
    let mut bytes: u64 = 0;
    for place in 0..FRAMES {
        bytes += u64::from(meter[PLACES + place * WIDTH]);
    }
    bytes
}

// The number of frames held.
fn held_frames(meter: &[u32]) -> u64
    requires { length meter.now ≡ meter_words }
    ensures { result ≡ held_frames (meter_from meter.now) }
{
    (0..FRAMES)
        .filter(|place| held_at(meter, *place).is_some())
        .count() as u64
}

// A figure, or 0 where the table is none.
pub fn figure_in(meter: &[u32], which: Figure) -> u64
    ensures { result ≡ figure_in which meter.now }
{
    if meter.len() != METER_WORDS {
        return 0;
    }
    match which {
        Figure::Entered => stored(meter, start_of(Sum::Entered)),
        Figure::Delivered => stored(meter, start_of(Sum::Delivered)),
        Figure::Dropped => stored(meter, start_of(Sum::Dropped)),
        Figure::Held => held_bytes(meter),
        Figure::Frames => held_frames(meter),
    }
}

// What stands at a place: zeros where it is free, where there is no such place, and where the table is none.
pub fn frame_in(meter: &[u32], place: usize) -> Frame
    ensures { result ≡ as_read (frame_in meter.now place) }
{
    if meter.len() != METER_WORDS || FRAMES <= place {
        return nothing();
    }
    let from = PLACES + place * WIDTH;
    Frame {
        size: meter[from],
        unit: meter[from + 1],
        destination: meter[from + 2],
        hops: meter[from + 3],
    }
}

// The frame that is held at a place: none where it is free, where there is no such place, and where the table is none.
pub fn held_at(meter: &[u32], place: usize) -> Option<Frame>
    ensures { result ≡ held_in meter.now place }
{
    let frame = frame_in(meter, place);
    if frame.size == 0 { None } else { Some(frame) }
}

// What stands at a free place.
pub(crate) fn nothing() -> Frame
    ensures { result ≡ as_read no_frame }
{
    Frame {
        size: 0,
        unit: 0,
        destination: 0,
        hops: 0,
    }
}

// Counts bytes to a figure.
pub(crate) fn count_bytes(meter: &mut [u32], sum: Sum, size: u32)
    requires { (length meter.old ≡ meter_words) × (figure_from meter.old (start_of sum) ≤ entered_limit) }
    ensures { meter.new ≡ laid_meter (counts sum size (meter_from meter.old)) }
{
    let from = start_of(sum);
    let figure = stored(meter, from) + u64::from(size);
    let laid = [(figure / BASE) as u32, (figure % BASE) as u32];
    slices::lay_over(meter, from, &laid);
}

// Puts a frame at a place.
pub(crate) fn put_frame(meter: &mut [u32], place: usize, frame: Frame)
    requires { (length meter.old ≡ meter_words) × (place < frame_limit) }
    ensures { meter.new ≡ laid_meter (with_frame (meter_from meter.old) place (frame_of frame)) }
{
    let laid = [frame.size, frame.unit, frame.destination, frame.hops];
    slices::lay_over(meter, PLACES + place * WIDTH, &laid);
}
