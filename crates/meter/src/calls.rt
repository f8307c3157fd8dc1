// The calls that change a meter. An accepted one answers what became of the frame. A refusal changes nothing.
ghost use Rattle.std.specs.Prelude.{◌≡◌, ◌≤◌, ◌<◌, IfOk, IfSome, length, unwrap_or};
ghost use Rattle.ground.specs.Limits.{unit_limit, frame_limit, entered_limit};
ghost use Rattle.ground.specs.Refused.{refused_as, done_of};
ghost use Rattle.ground.specs.Rows.{is_in};
ghost use Rattle.rules.specs.Hub.{hub_answer};
ghost use Rattle.frames.specs.Meter.{no_frame, frame_at, free_place, with_frame, enters, moves, drops};
ghost use Rattle.frames.specs.MeterTable.{meter_words, figure_from, laid_meter, meter_from, meter_refusal, meter_answer, meter_after, fresh_meter_refusal, fresh_meter_table};
ghost use Rattle.meter.specs.Fates.{fate_of, HeldInside};
ghost use Rattle.meter.specs.Reading.{as_read, start_of, counts};

use crate::table::{Figure, Frame, Sum};
use crate::{fit, table};
use ground::refusals::Refusal;
use ground::{ANSWERED, ENTERED_LIMIT, FRAMES, HOPS, METER_WORDS, UNIT_WORDS};
use state::held::SUCCESSORS;

// What became of a frame.
#[derive(Clone, Copy, Debug, PartialEq, Eq)]
pub enum Fate {
    // It is held at this place.
    Held(u32),
    Delivered,
    Dropped,
}

// The numbers of the answers for a frame that is delivered, and for one that is dropped.
pub const DELIVERED: u32 = 2 * ANSWERED;

pub const DROPPED: u32 = 3 * ANSWERED;

// The lowest free place.
fn free_place(meter: &[u32]) -> Option<usize>
    requires { length meter.now ≡ meter_words }
    ensures lowest { unwrap_or result frame_limit ≡ free_place (meter_from meter.now) }
    ensures inside { IfSome result (λ place. place < frame_limit) }
{
    (0..FRAMES).find(|place| table::held_at(meter, *place).is_none())
}

// Whether a unit is in a set.
fn is_in(set: u32, k: u32) -> bool
    requires { k < unit_limit }
    ensures { result ≡ is_in set k }
{
    (set >> k) % 2 == 1
}

// The lowest refusal of each call, or what the call then needs: the place that is free, the frame that is held.
fn check_enter(
    words: &[u32],
    queues: &[u8],
    meter: &[u32],
    size: u32,
    unit: u32,
    destination: u32,
) -> Result<usize, Refusal>
    ensures refusal { refused_as result ≡ meter_refusal words.now queues.now meter.now (enters size unit destination) }
    ensures place { IfOk result (λ place. place ≡ free_place (meter_from meter.now)) }
{
    if !fit::is_fit(words, queues, meter) {
        return Err(Refusal::Unfit);
    }
    if words[0] <= unit || words[0] <= destination {
        return Err(Refusal::NoUnit);
    }
    let place = free_place(meter).ok_or(Refusal::MeterFull)?;
    if ENTERED_LIMIT < table::figure_in(meter, Figure::Entered) + u64::from(size) {
        return Err(Refusal::TooManyBytes);
    }
    if !fit::is_legal_size(size) {
        return Err(Refusal::Frame);
    }
    Ok(place)
}

fn check_move(
    words: &[u32],
    queues: &[u8],
    meter: &[u32],
    place: u32,
    unit: u32,
) -> Result<Frame, Refusal>
    ensures refusal { refused_as result ≡ meter_refusal words.now queues.now meter.now (moves place unit) }
    ensures frame { IfOk result (λ frame. frame ≡ as_read (frame_at (meter_from meter.now) place)) }
{
    if !fit::is_fit(words, queues, meter) {
        return Err(Refusal::Unfit);
    }
    if words[0] <= unit {
        return Err(Refusal::NoUnit);
    }
    let frame = table::held_at(meter, place as usize).ok_or(Refusal::Frame)?;
    let from = frame.unit as usize * UNIT_WORDS;
    let set = words[from + (SUCCESSORS + frame.destination as usize)];
    if !is_in(set, unit) {
        return Err(Refusal::Frame);
    }
    Ok(frame)
}

fn check_drop(words: &[u32], queues: &[u8], meter: &[u32], place: u32) -> Result<Frame, Refusal>
    ensures refusal { refused_as result ≡ meter_refusal words.now queues.now meter.now (drops place) }
    ensures frame { IfOk result (λ frame. frame ≡ as_read (frame_at (meter_from meter.now) place)) }
{
    if !fit::is_fit(words, queues, meter) {
        return Err(Refusal::Unfit);
    }
    table::held_at(meter, place as usize).ok_or(Refusal::Frame)
}

// The frame at a place ends: its bytes are counted, and the place is free.
fn end(meter: &mut [u32], place: usize, sum: Sum, size: u32)
    requires { (length meter.old ≡ meter_words) × (place < frame_limit) × (figure_from meter.old (start_of sum) ≤ entered_limit) }
    ensures { meter.new ≡ laid_meter (with_frame (counts sum size (meter_from meter.old)) place no_frame) }
{
    table::count_bytes(meter, sum, size);
    table::put_frame(meter, place, table::nothing());
}

// A meter that holds nothing. The length is all that is tested.
pub fn fresh(meter: &mut [u32]) -> Result<(), Refusal>
    ensures answer { done_of result ≡ hub_answer (fresh_meter_refusal meter.old) 0 }
    ensures meter { meter.new ≡ fresh_meter_table meter.old }
{
    if meter.len() != METER_WORDS {
        return Err(Refusal::Unfit);
    }
    slices::clear(meter);
    Ok(())
}

// A frame enters at a unit.
pub fn enter(
    words: &[u32],
    queues: &[u8],
    meter: &mut [u32],
    size: u32,
    unit: u32,
    destination: u32,
) -> Result<Fate, Refusal>
    ensures answer { fate_of result ≡ meter_answer words.now queues.now meter.old (enters size unit destination) }
    ensures inside { IfOk result (λ fate. HeldInside fate) }
    ensures meter { meter.new ≡ meter_after words.now queues.now meter.old (enters size unit destination) }
{
    let place = check_enter(words, queues, meter, size, unit, destination)?;
    table::count_bytes(meter, Sum::Entered, size);
    if unit == destination {
        table::count_bytes(meter, Sum::Delivered, size);
        return Ok(Fate::Delivered);
    }
    let frame = Frame {
        size,
        unit,
        destination,
        hops: 0,
    };
    table::put_frame(meter, place, frame);
    Ok(Fate::Held(place as u32))
}

// A frame moves one hop to a successor.
pub fn move_on(
    words: &[u32],
    queues: &[u8],
    meter: &mut [u32],
    place: u32,
    unit: u32,
) -> Result<Fate, Refusal>
    ensures answer { fate_of result ≡ meter_answer words.now queues.now meter.old (moves place unit) }
    ensures inside { IfOk result (λ fate. HeldInside fate) }
    ensures meter { meter.new ≡ meter_after words.now queues.now meter.old (moves place unit) }
{
    let frame = check_move(words, queues, meter, place, unit)?;
    let at = place as usize;
    if unit == frame.destination {
        end(meter, at, Sum::Delivered, frame.size);
        return Ok(Fate::Delivered);
    }
    if HOPS <= frame.hops + 1 {
        end(meter, at, Sum::Dropped, frame.size);
        return Ok(Fate::Dropped);
    }
    let moved = Frame {
        unit,
        hops: frame.hops + 1,
        ..frame
    };
    table::put_frame(meter, at, moved);
    Ok(Fate::Held(place))
}

// A frame is dropped.
pub fn drop_frame(
    words: &[u32],
    queues: &[u8],
    meter: &mut [u32],
    place: u32,
) -> Result<Fate, Refusal>
    ensures answer { fate_of result ≡ meter_answer words.now queues.now meter.old (drops place) }
    ensures inside { IfOk result (λ fate. HeldInside fate) }
    ensures meter { meter.new ≡ meter_after words.now queues.now meter.old (drops place) }
{
    let frame = check_drop(words, queues, meter, place)?;
    end(meter, place as usize, Sum::Dropped, frame.size);
    Ok(Fate::Dropped)
}
