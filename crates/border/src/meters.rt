// A meter over a network's routes. It only reads the network's tables.
ghost use Rattle.std.specs.Prelude.{◌≡◌, IfOk};
ghost use Rattle.rules.specs.Hub.{hub_answer};
ghost use Rattle.frames.specs.Meter.{enters, moves, drops};
ghost use Rattle.frames.specs.MeterTable.{meter_answer, meter_after, entered_answer, delivered_answer, dropped_answer, held_answer, frames_answer, size_answer, unit_answer, destination_answer, hops_answer};
ghost use Rattle.meter.specs.Fates.{fate_of, HeldInside};
ghost use Rattle.meter.specs.Reading.{figure_asked, field_asked};
ghost use Rattle.border.specs.MeterBytes.{frame_told, border_meter_call, border_meter, border_fresh_meter_refusal, fresh_meter_bytes, asked_of_meter};

use crate::networks::UNITS_BYTES;
use crate::{answers, words};
use ground::refusals::Refusal;
use ground::{METER_WORDS, NETWORK_WORDS};
use meter::calls::Fate;
use meter::questions::Field;
use meter::table::Figure;
use meter::{calls, questions};

// The bytes of the meter's table.
const METER_BYTES: usize = 4 * METER_WORDS;

// What happens to a frame.
#[derive(Clone, Copy)]
enum FrameCall {
    Enter(u32, u32, u32),
    Move(u32, u32),
    Drop(u32),
}

pub fn puntclover_meter_fresh(meter: &mut [u8]) -> u32
    ensures answer { result ≡ hub_answer (border_fresh_meter_refusal meter.old) 0 }
    ensures meter { meter.new ≡ fresh_meter_bytes meter.old }
{
    if meter.len() != METER_BYTES {
        return Refusal::Unfit.number();
    }
    let mut numbers = [0u32; METER_WORDS];
    let answer = calls::fresh(&mut numbers);
    words::lay_numbers(meter, &numbers);
    answers::done(answer)
}

// A call over the numbers of the units and of the meter.
fn tell(numbers: &[u32], queues: &[u8], table: &mut [u32], call: FrameCall) -> Result<Fate, Refusal>
    ensures answer { fate_of result ≡ meter_answer numbers.now queues.now table.old (frame_told call) }
    ensures inside { IfOk result HeldInside }
    ensures table { table.new ≡ meter_after numbers.now queues.now table.old (frame_told call) }
{
    match call {
        FrameCall::Enter(size, unit, destination) => calls::enter(
            numbers,
            queues,
            table,
            size,
            unit,
            destination,
        ),
        FrameCall::Move(place, unit) => calls::move_on(numbers, queues, table, place, unit),
        FrameCall::Drop(place) => calls::drop_frame(numbers, queues, table, place),
    }
}

// A call over the bytes of the units and of the meter: the call over their numbers, the meter's laid back.
fn answer(units: &[u8], queues: &[u8], meter: &mut [u8], call: FrameCall) -> u32
    ensures answer { result ≡ border_meter_call units.now queues.now meter.old (frame_told call) }
    ensures meter { meter.new ≡ border_meter units.now queues.now meter.old (frame_told call) }
{
    if units.len() != UNITS_BYTES {
        return Refusal::Unfit.number();
    }
    if meter.len() != METER_BYTES {
        return Refusal::Unfit.number();
    }
    let mut numbers = [0u32; NETWORK_WORDS];
    words::take_numbers(&mut numbers, units);
    let mut table = [0u32; METER_WORDS];
    words::take_numbers(&mut table, meter);
    let answer = tell(&numbers, queues, &mut table, call);
    words::lay_numbers(meter, &table);
    answers::fate(answer)
}

// A frame enters at a unit: 100 plus its place, or 200 where that is its destination.
pub fn puntclover_meter_enter(
    units: &[u8],
    queues: &[u8],
    meter: &mut [u8],
    size: u32,
    unit: u32,
    destination: u32,
) -> u32
    ensures answer { result ≡ border_meter_call units.now queues.now meter.old (enters size unit destination) }
    ensures meter { meter.new ≡ border_meter units.now queues.now meter.old (enters size unit destination) }
{
    answer(
        units,
        queues,
        meter,
        FrameCall::Enter(size, unit, destination),
    )
}

// A frame moves one hop to a successor: 100 plus its place, 200 at its destination, 300 elsewhere at its 64th hop.
pub fn puntclover_meter_move(
    units: &[u8],
    queues: &[u8],
    meter: &mut [u8],
    frame: u32,
    unit: u32,
) -> u32
    ensures answer { result ≡ border_meter_call units.now queues.now meter.old (moves frame unit) }
    ensures meter { meter.new ≡ border_meter units.now queues.now meter.old (moves frame unit) }
{
    answer(units, queues, meter, FrameCall::Move(frame, unit))
}

// A frame is dropped: 300.
pub fn puntclover_meter_drop(units: &[u8], queues: &[u8], meter: &mut [u8], frame: u32) -> u32
    ensures answer { result ≡ border_meter_call units.now queues.now meter.old (drops frame) }
    ensures meter { meter.new ≡ border_meter units.now queues.now meter.old (drops frame) }
{
    answer(units, queues, meter, FrameCall::Drop(frame))
}

// A figure of the whole meter over the bytes of the units and of the meter.
fn ask_figure(units: &[u8], queues: &[u8], meter: &[u8], which: Figure) -> u64
    ensures { result ≡ asked_of_meter units.now meter.now (λ words table. figure_asked which words queues.now table) }
{
    if units.len() != UNITS_BYTES {
        return u64::from(Refusal::Unfit.number());
    }
    if meter.len() != METER_BYTES {
        return u64::from(Refusal::Unfit.number());
    }
    let mut numbers = [0u32; NETWORK_WORDS];
    words::take_numbers(&mut numbers, units);
    let mut table = [0u32; METER_WORDS];
    words::take_numbers(&mut table, meter);
    answers::figure(questions::ask_figure(&numbers, queues, &table, which))
}

pub fn puntclover_meter_entered(units: &[u8], queues: &[u8], meter: &[u8]) -> u64
    ensures { result ≡ asked_of_meter units.now meter.now (λ words table. entered_answer words queues.now table) }
{
    ask_figure(units, queues, meter, Figure::Entered)
}

pub fn puntclover_meter_delivered(units: &[u8], queues: &[u8], meter: &[u8]) -> u64
    ensures { result ≡ asked_of_meter units.now meter.now (λ words table. delivered_answer words queues.now table) }
{
    ask_figure(units, queues, meter, Figure::Delivered)
}

pub fn puntclover_meter_dropped(units: &[u8], queues: &[u8], meter: &[u8]) -> u64
    ensures { result ≡ asked_of_meter units.now meter.now (λ words table. dropped_answer words queues.now table) }
{
    ask_figure(units, queues, meter, Figure::Dropped)
}

pub fn puntclover_meter_held(units: &[u8], queues: &[u8], meter: &[u8]) -> u64
    ensures { result ≡ asked_of_meter units.now meter.now (λ words table. held_answer words queues.now table) }
{
    ask_figure(units, queues, meter, Figure::Held)
}

// The number of frames held.
pub fn puntclover_meter_frames(units: &[u8], queues: &[u8], meter: &[u8]) -> u64
    ensures { result ≡ asked_of_meter units.now meter.now (λ words table. frames_answer words queues.now table) }
{
    ask_figure(units, queues, meter, Figure::Frames)
}

// A number of one frame over the bytes of the units and of the meter.
fn ask_field(units: &[u8], queues: &[u8], meter: &[u8], frame: u32, which: Field) -> u32
    ensures { result ≡ asked_of_meter units.now meter.now (λ words table. field_asked which words queues.now table frame) }
{
    if units.len() != UNITS_BYTES {
        return Refusal::Unfit.number();
    }
    if meter.len() != METER_BYTES {
        return Refusal::Unfit.number();
    }
    let mut numbers = [0u32; NETWORK_WORDS];
    words::take_numbers(&mut numbers, units);
    let mut table = [0u32; METER_WORDS];
    words::take_numbers(&mut table, meter);
    answers::field(questions::ask_field(&numbers, queues, &table, frame, which))
}

pub fn puntclover_meter_frame_size(units: &[u8], queues: &[u8], meter: &[u8], frame: u32) -> u32
    ensures { result ≡ asked_of_meter units.now meter.now (λ words table. size_answer words queues.now table frame) }
{
    ask_field(units, queues, meter, frame, Field::Size)
}

pub fn puntclover_meter_frame_unit(units: &[u8], queues: &[u8], meter: &[u8], frame: u32) -> u32
    ensures { result ≡ asked_of_meter units.now meter.now (λ words table. unit_answer words queues.now table frame) }
{
    ask_field(units, queues, meter, frame, Field::Unit)
}

pub fn puntclover_meter_frame_destination(
    units: &[u8],
    queues: &[u8],
    meter: &[u8],
    frame: u32,
) -> u32
    ensures { result ≡ asked_of_meter units.now meter.now (λ words table. destination_answer words queues.now table frame) }
{
    ask_field(units, queues, meter, frame, Field::Destination)
}

pub fn puntclover_meter_frame_hops(units: &[u8], queues: &[u8], meter: &[u8], frame: u32) -> u32
    ensures { result ≡ asked_of_meter units.now meter.now (λ words table. hops_answer words queues.now table frame) }
{
    ask_field(units, queues, meter, frame, Field::Hops)
}
