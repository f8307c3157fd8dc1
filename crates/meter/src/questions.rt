// Questions to a meter. They change nothing, and are refused where a table is not fit and for a frame that is not held.
ghost use Rattle.std.specs.Prelude.{◌≡◌, ◌≤◌, IfOk};
ghost use Rattle.ground.specs.Limits.{highest_size, entered_limit};
ghost use Rattle.ground.specs.Refused.{answer_of};
ghost use Rattle.meter.specs.Reading.{frame_of, field_of, figure_asked, field_asked};

use crate::table::{Figure, Frame};
use crate::{fit, table};
use ground::refusals::Refusal;

// What can be asked of one frame.
#[derive(Clone, Copy)]
pub enum Field {
    Size,
    Unit,
    Destination,
    Hops,
}

// A figure of the whole meter, which may pass 32 bits.
pub fn ask_figure(
    words: &[u32],
    queues: &[u8],
    meter: &[u32],
    which: Figure,
) -> Result<u64, Refusal>
    ensures answer { answer_of result ≡ figure_asked which words.now queues.now meter.now }
    ensures small { IfOk result (λ figure. figure ≤ entered_limit) }
{
    if !fit::is_fit(words, queues, meter) {
        return Err(Refusal::Unfit);
    }
    Ok(table::figure_in(meter, which))
}

fn field_of(frame: Frame, field: Field) -> u32
    ensures { result ≡ field_of field (frame_of frame) }
{
    match field {
        Field::Size => frame.size,
        Field::Unit => frame.unit,
        Field::Destination => frame.destination,
        Field::Hops => frame.hops,
    }
}

// A number of one frame that is held.
pub fn ask_field(
    words: &[u32],
    queues: &[u8],
    meter: &[u32],
    place: u32,
    which: Field,
) -> Result<u32, Refusal>
    ensures answer { answer_of result ≡ field_asked which words.now queues.now meter.now place }
    ensures small { IfOk result (λ field. field ≤ highest_size) }
{
    if !fit::is_fit(words, queues, meter) {
        return Err(Refusal::Unfit);
    }
    let frame = table::held_at(meter, place as usize).ok_or(Refusal::Frame)?;
    Ok(field_of(frame, which))
}
