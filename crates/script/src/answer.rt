// What a line does and prints.
ghost use Rattle.std.specs.Prelude.{◌≡◌, IfOk, IfSome, option_map};
ghost use Rattle.ground.specs.Refused.{done_of};
ghost use Rattle.rules.specs.Hub.{hub_answer};
ghost use Rattle.rules.specs.NetworkTable.{fresh_network_refusal, fresh_words, fresh_bytes};
ghost use Rattle.slices.specs.Putting.{used_after, put_after};
ghost use Rattle.meter.specs.Fates.{fate_of, HeldInside};
ghost use Rattle.script.specs.Acting.{act_number, verdict_said, meter_begun, act_meter, frame_number, frame_meter, fate_said};
ghost use Rattle.script.specs.Answers.{printed, words_then, bytes_then, meter_then, command_with, answer_text};

use ground::UNITS;
use ground::refusals::Refusal;
use lines::Command;
use meter::calls::Fate;
use network::{calls, fresh};
use slices::bytes;
use texts::{LINE_ROOM, text};

// The room for every answer: a line for each two units.
pub const ANSWER_ROOM: usize = UNITS * UNITS * LINE_ROOM;

// Starts the network afresh, and where that is not refused the meter too.
fn begin(words: &mut [u32], queues: &mut [u8], meter: &mut [u32], count: u32) -> Result<(), Refusal>
    ensures answer { done_of result ≡ hub_answer (fresh_network_refusal words.old queues.old count) 0 }
    ensures words { words.new ≡ fresh_words words.old queues.old count }
    ensures queues { queues.new ≡ fresh_bytes words.old queues.old count }
    ensures meter { meter.new ≡ meter_begun words.old queues.old meter.old count }
{
    fresh::fresh(count, words, queues)?;
    // Refused where no meter is lent, of which `units` prints nothing.
    let _ = meter::calls::fresh(meter);
    Ok(())
}

// Does what a command asks of the network: the call's answer, if it is a call of the network.
fn act(
    words: &mut [u32],
    queues: &mut [u8],
    meter: &mut [u32],
    command: Command,
) -> Option<Result<(), Refusal>>
    ensures answer { option_map done_of result ≡ act_number words.old queues.old command }
    ensures words { words.new ≡ words_then words.old queues.old command }
    ensures queues { queues.new ≡ bytes_then words.old queues.old command }
    ensures meter { meter.new ≡ act_meter words.old queues.old meter.old command }
{
    match command {
        Command::Units(count) => Some(begin(words, queues, meter, count)),
        Command::Up(a, b, ca, cb) => Some(calls::up(words, queues, a, b, ca, cb)),
        Command::Cost(a, b, cost) => Some(calls::cost(words, queues, a, b, cost)),
        Command::Down(a, b) => Some(calls::down(words, queues, a, b)),
        Command::Deliver(a, b) => Some(calls::deliver(words, queues, a, b)),
        _ => None,
    }
}

// Does what a command asks of the meter: the call's answer, if it is a call of the meter.
fn frame_act(
    words: &[u32],
    queues: &[u8],
    meter: &mut [u32],
    command: Command,
) -> Option<Result<Fate, Refusal>>
    ensures answer { option_map fate_of result ≡ frame_number words.now queues.now meter.old command }
    ensures inside { IfSome result (λ answer. IfOk answer (λ fate. HeldInside fate)) }
    ensures meter { meter.new ≡ frame_meter words.now queues.now meter.old command }
{
    match command {
        Command::Enter(size, unit, destination) => Some(meter::calls::enter(
            words,
            queues,
            meter,
            size,
            unit,
            destination,
        )),
        Command::Move(place, unit) => {
            Some(meter::calls::move_on(words, queues, meter, place, unit))
        }
        Command::Drop(place) => Some(meter::calls::drop_frame(words, queues, meter, place)),
        _ => None,
    }
}

// The line that the answer of a call on the network prints.
fn put_verdict(out: &mut [u8], used: usize, done: Result<(), Refusal>) -> usize
    ensures answer { result ≡ used_after used (verdict_said done) out.old }
    ensures out { out.new ≡ put_after used (verdict_said done) out.old }
{
    match done {
        Ok(()) => bytes::put_text(out, used, b"ok\n"),
        Err(refusal) => text::put_refused(out, used, refusal.number()),
    }
}

// The line that the answer of a meter's call prints.
fn put_fate(out: &mut [u8], used: usize, fate: Result<Fate, Refusal>) -> usize
    ensures answer { result ≡ used_after used (fate_said fate) out.old }
    ensures out { out.new ≡ put_after used (fate_said fate) out.old }
{
    match fate {
        Ok(Fate::Held(place)) => text::put_held(out, used, place),
        Ok(Fate::Delivered) => bytes::put_text(out, used, b"delivered\n"),
        Ok(Fate::Dropped) => bytes::put_text(out, used, b"dropped\n"),
        Err(refusal) => text::put_refused(out, used, refusal.number()),
    }
}

// Does what a command asks and puts what it prints behind the bytes used; answers those used then.
fn perform(
    words: &mut [u32],
    queues: &mut [u8],
    meter: &mut [u32],
    command: Command,
    out: &mut [u8],
    used: usize,
) -> usize
    ensures answer { result ≡ used_after used (printed words.old queues.old meter.old command) out.old }
    ensures out { out.new ≡ put_after used (printed words.old queues.old meter.old command) out.old }
    ensures words { words.new ≡ words_then words.old queues.old command }
    ensures queues { queues.new ≡ bytes_then words.old queues.old command }
    ensures meter { meter.new ≡ meter_then words.old queues.old meter.old command }
{
    if let Command::Show = command {
        return listing::show(words, queues, out, used);
    }
    if let Command::Page = command {
        return paging::page(words, queues, meter, out, used);
    }
    if let Some(fate) = frame_act(words, queues, meter, command) {
        return put_fate(out, used, fate);
    }
    if let Some(done) = act(words, queues, meter, command) {
        return put_verdict(out, used, done);
    }
    bytes::put_text(out, used, b"bad line\n")
}

// Does what a line asks and puts what it prints behind the bytes used; answers those used then. With ANSWER_ROOM places left in
// `out`, every answer has room. Without a meter, a slice of no numbers, there are no commands of a meter.
pub fn answer(
    words: &mut [u32],
    queues: &mut [u8],
    meter: &mut [u32],
    line: &[u8],
    out: &mut [u8],
    used: usize,
) -> usize
    ensures answer { result ≡ used_after used (answer_text words.old queues.old meter.old line.now) out.old }
    ensures out { out.new ≡ put_after used (answer_text words.old queues.old meter.old line.now) out.old }
    ensures words { words.new ≡ words_then words.old queues.old (command_with meter.old line.now) }
    ensures queues { queues.new ≡ bytes_then words.old queues.old (command_with meter.old line.now) }
    ensures meter { meter.new ≡ meter_then words.old queues.old meter.old (command_with meter.old line.now) }
{
    let command = lines::parse(line, meter.len() != 0);
    perform(words, queues, meter, command, out, used)
}
