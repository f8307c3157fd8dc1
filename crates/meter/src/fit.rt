// Whether a meter's table is fit over a network: its length, each place, and that the figures add up.
ghost use Rattle.std.specs.Prelude.{◌&&◌, ◌≡◌, ◌+◌, eqb, leb, length};
ghost use Rattle.ground.specs.Limits.{frame_limit, entered_limit, legal_size};
ghost use Rattle.ground.specs.Rows.{every};
ghost use Rattle.frames.specs.Meter.{frame_at, fit_frame};
ghost use Rattle.frames.specs.MeterTable.{meter_words, meter_from, fit_table, fit_metered};
ghost use Rattle.meter.specs.Reading.{frame_of};

use crate::table;
use crate::table::{Figure, Frame};
use fitness::fit;
use ground::{ENTERED_LIMIT, FRAMES, HIGHEST_SIZE, HOPS, METER_WORDS};

// Whether a number is a frame's size.
pub(crate) fn is_legal_size(size: u32) -> bool
    ensures { result ≡ legal_size size }
{
    1 <= size && size <= HIGHEST_SIZE
}

// A free place: nothing but zeros.
fn fit_nothing(frame: Frame) -> bool
    ensures { result ≡ (eqb frame.unit 0 && eqb frame.destination 0 && eqb frame.hops 0) }
{
    frame.unit == 0 && frame.destination == 0 && frame.hops == 0
}

// One place: free, or a frame of a legal size on its way between two units of the network.
fn fit_frame(count: u32, frame: Frame) -> bool
    ensures { result ≡ fit_frame count (frame_of frame) }
{
    if frame.size == 0 {
        return fit_nothing(frame);
    }
    is_legal_size(frame.size)
        && frame.unit < count
        && frame.destination < count
        && frame.unit != frame.destination
        && frame.hops < HOPS
}

// All places.
fn fit_frames(count: u32, meter: &[u32]) -> bool
    requires { length meter.now ≡ meter_words }
    ensures { result ≡ every frame_limit (λ place. fit_frame count (frame_at (meter_from meter.now) place)) }
{
    (0..FRAMES).all(|place| fit_frame(count, table::frame_in(meter, place)))
}

// Whether entered is within its limit and the sum of the other three. Nothing is added up: what was delivered and what was
// dropped are taken from it, so that no numbers of a damaged table are too large.
fn adds_up(entered: u64, delivered: u64, dropped: u64, held: u64) -> bool
    ensures { result ≡ (leb entered entered_limit && eqb entered (delivered + dropped + held)) }
{
    let left = entered
        .checked_sub(delivered)
        .and_then(|rest| rest.checked_sub(dropped));
    entered <= ENTERED_LIMIT && left == Some(held)
}

// A meter's table over a network of `count` units.
fn fit_table(count: u32, meter: &[u32]) -> bool
    ensures { result ≡ fit_table count meter.now }
{
    meter.len() == METER_WORDS
        && fit_frames(count, meter)
        && adds_up(
            table::figure_in(meter, Figure::Entered),
            table::figure_in(meter, Figure::Delivered),
            table::figure_in(meter, Figure::Dropped),
            table::figure_in(meter, Figure::Held),
        )
}

// A network's tables and a meter's over them.
pub fn is_fit(words: &[u32], queues: &[u8], meter: &[u32]) -> bool
    ensures { result ≡ fit_metered words.now queues.now meter.now }
{
    fit::is_fit(words, queues) && fit_table(words[0], meter)
}
