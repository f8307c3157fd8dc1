// A meter over a network, as the crate border has it.
ghost use Rattle.std.specs.Prelude.{◌≡◌};
ghost use Rattle.rules.specs.Hub.{hub_answer};
ghost use Rattle.frames.specs.Meter.{enters, moves, drops};
ghost use Rattle.frames.specs.MeterTable.{entered_answer, delivered_answer, dropped_answer, held_answer, frames_answer, size_answer, unit_answer, destination_answer, hops_answer};
ghost use Rattle.border.specs.MeterBytes.{border_meter_call, border_meter, border_fresh_meter_refusal, fresh_meter_bytes, asked_of_meter};

use border::meters;

#[unsafe(no_mangle)]
pub extern "C" fn puntclover_meter_fresh(meter: &mut [u8]) -> u32
    ensures answer { result ≡ hub_answer (border_fresh_meter_refusal meter.old) 0 }
    ensures meter { meter.new ≡ fresh_meter_bytes meter.old }
{
    meters::puntclover_meter_fresh(meter)
}

// A frame enters at a unit: 100 plus its place, or 200 where that is its destination.
#[unsafe(no_mangle)]
pub extern "C" fn puntclover_meter_enter(
    units: &[u8],
    queues: &[u8],
    meter: &mut [u8],
    size: u32,
    unit: u32,
    destination: u32,
) -> u32
    ensures answer { result ≡ border_meter_call units.now queues.now meter.old (enters size unit destination) }
    ensures meter { meter.new ≡ border_meter units.now queues.now meter.old (enters size unit destination) }
{
    meters::puntclover_meter_enter(units, queues, meter, size, unit, destination)
}

// A frame moves one hop to a successor: 100 plus its place, 200 at its destination, 300 elsewhere at its 64th hop.
#[unsafe(no_mangle)]
pub extern "C" fn puntclover_meter_move(
    units: &[u8],
    queues: &[u8],
    meter: &mut [u8],
    frame: u32,
    unit: u32,
) -> u32
    ensures answer { result ≡ border_meter_call units.now queues.now meter.old (moves frame unit) }
    ensures meter { meter.new ≡ border_meter units.now queues.now meter.old (moves frame unit) }
{
    meters::puntclover_meter_move(units, queues, meter, frame, unit)
}

// A frame is dropped: 300.
#[unsafe(no_mangle)]
pub extern "C" fn puntclover_meter_drop(
    units: &[u8],
    queues: &[u8],
    meter: &mut [u8],
    frame: u32,
) -> u32
    ensures answer { result ≡ border_meter_call units.now queues.now meter.old (drops frame) }
    ensures meter { meter.new ≡ border_meter units.now queues.now meter.old (drops frame) }
{
    meters::puntclover_meter_drop(units, queues, meter, frame)
}

#[unsafe(no_mangle)]
pub extern "C" fn puntclover_meter_entered(units: &[u8], queues: &[u8], meter: &[u8]) -> u64
    ensures { result ≡ asked_of_meter units.now meter.now (λ words table. entered_answer words queues.now table) }
{
    meters::puntclover_meter_entered(units, queues, meter)
}

#[unsafe(no_mangle)]
pub extern "C" fn puntclover_meter_delivered(units: &[u8], queues: &[u8], meter: &[u8]) -> u64
    ensures { result ≡ asked_of_meter units.now meter.now (λ words table. delivered_answer words queues.now table) }
{
    meters::puntclover_meter_delivered(units, queues, meter)
}

#[unsafe(no_mangle)]
pub extern "C" fn puntclover_meter_dropped(units: &[u8], queues: &[u8], meter: &[u8]) -> u64
    ensures { result ≡ asked_of_meter units.now meter.now (λ words table. dropped_answer words queues.now table) }
{
    meters::puntclover_meter_dropped(units, queues, meter)
}

#[unsafe(no_mangle)]
pub extern "C" fn puntclover_meter_held(units: &[u8], queues: &[u8], meter: &[u8]) -> u64
    ensures { result ≡ asked_of_meter units.now meter.now (λ words table. held_answer words queues.now table) }
{
    meters::puntclover_meter_held(units, queues, meter)
}

// The number of frames held.
#[unsafe(no_mangle)]
pub extern "C" fn puntclover_meter_frames(units: &[u8], queues: &[u8], meter: &[u8]) -> u64
    ensures { result ≡ asked_of_meter units.now meter.now (λ words table. frames_answer words queues.now table) }
{
    meters::puntclover_meter_frames(units, queues, meter)
}

#[unsafe(no_mangle)]
pub extern "C" fn puntclover_meter_frame_size(
    units: &[u8],
    queues: &[u8],
    meter: &[u8],
    frame: u32,
) -> u32
    ensures { result ≡ asked_of_meter units.now meter.now (λ words table. size_answer words queues.now table frame) }
{
    meters::puntclover_meter_frame_size(units, queues, meter, frame)
}

#[unsafe(no_mangle)]
pub extern "C" fn puntclover_meter_frame_unit(
    units: &[u8],
    queues: &[u8],
    meter: &[u8],
    frame: u32,
) -> u32
    ensures { result ≡ asked_of_meter units.now meter.now (λ words table. unit_answer words queues.now table frame) }
{
    meters::puntclover_meter_frame_unit(units, queues, meter, frame)
}

#[unsafe(no_mangle)]
pub extern "C" fn puntclover_meter_frame_destination(
    units: &[u8],
    queues: &[u8],
    meter: &[u8],
    frame: u32,
) -> u32
    ensures { result ≡ asked_of_meter units.now meter.now (λ words table. destination_answer words queues.now table frame) }
{
    meters::puntclover_meter_frame_destination(units, queues, meter, frame)
}

#[unsafe(no_mangle)]
pub extern "C" fn puntclover_meter_frame_hops(
    units: &[u8],
    queues: &[u8],
    meter: &[u8],
    frame: u32,
) -> u32
    ensures { result ≡ asked_of_meter units.now meter.now (λ words table. hops_answer words queues.now table frame) }
{
    meters::puntclover_meter_frame_hops(units, queues, meter, frame)
}
