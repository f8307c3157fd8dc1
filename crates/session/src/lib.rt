// A session of the script program: takes its input in chunks, as they come, and puts the answers into a lent buffer.
//
// Between two calls a session is the network's two tables, the meter's, and the line so far, of which no more than KEPT_ROOM
// bytes are kept: no command is longer, so a longer line is as bad as its beginning. Without a meter, a slice of no numbers,
// there are no commands of one. `feed` takes bytes of a chunk from a place on. It stops at the end of the chunk, and before that
// only where an answer might not find room: its caller then writes the answers out, and goes on from there. `finish` answers a
// last line without a newline. However the input is cut into chunks, the answers are those of the whole input.
#![tactic(auto)]

ghost use Rattle.std.specs.Prelude.{◌≤◌, ◌<◌, max, true, ◌≡◌, length, drop};
ghost use Rattle.session.specs.Lending.{goes_on, feeding, finishing, reached_in};
ghost use Rattle.session.specs.Taking.{taken};

use script::answer;
use script::answer::ANSWER_ROOM;
use slices::bytes;

// The bytes of a line that are kept, at least one more than the longest command has.
pub const KEPT_ROOM: usize = 64;

// The place of the chunk that is next, the bytes held of the line so far, and the bytes used of the buffer.
#[derive(Clone, Copy)]
pub struct Reached {
    pub place: usize,
    pub held: usize,
    pub used: usize,
}

// The place and the bytes held once bytes are taken, and whether the line is whole.
#[derive(Clone, Copy)]
struct Taken {
    place: usize,
    held: usize,
    whole: bool,
}

// Whether a line has its room, and every answer would have room.
fn goes_on(kept: usize, held: usize, room: usize, used: usize) -> bool
    ensures { result ≡ goes_on kept held room used }
{
    if kept != KEPT_ROOM {
        return false;
    }
    if KEPT_ROOM < held {
        return false;
    }
    if room < ANSWER_ROOM {
        return false;
    }
    used <= room - ANSWER_ROOM
}

// Takes bytes from a place on, up to a newline and with it. Those before it are kept, as far as there is room.
fn take_line(line: &mut [u8], before: usize, chunk: &[u8], from: usize) -> Taken
    ensures held { result.held ≡ (taken line.old before from (drop from chunk.now)).held }
    ensures place { result.place ≡ (taken line.old before from (drop from chunk.now)).place }
    ensures whole { result.whole ≡ (taken line.old before from (drop from chunk.now)).whole }
    ensures line { line.new ≡ (taken line.old before from (drop from chunk.now)).line }
{
    let mut held = before;
    for place in from..chunk.len() {
        let byte = chunk[place];
        if byte == b'\n' {
            return Taken {
                place: place + 1,
                held,
                whole: true,
            };
        }
        held = bytes::put_byte(line, held, byte);
    }
    Taken {
        place: from.max(chunk.len()),
        held,
        whole: false,
    }
}

// One turn: takes the rest of a line from the chunk, and answers it if it is whole.
fn turn(
    words: &mut [u32],
    queues: &mut [u8],
    meter: &mut [u32],
    line: &mut [u8],
    chunk: &[u8],
    out: &mut [u8],
    reached: Reached,
) -> Reached
    requires { (reached.place < length chunk.now) × (goes_on (length line.old) reached.held (length out.old) reached.used ≡ true) }
    ensures same { feeding words.new queues.new meter.new line.new result.held chunk.now result.place out.new result.used ≡ feeding words.old queues.old meter.old line.old reached.held chunk.now reached.place out.old reached.used }
    ensures further { reached.place < result.place }
{
    let used = reached.used;
    let taken = take_line(line, reached.held, chunk, reached.place);
    if !taken.whole {
        return Reached {
            place: taken.place,
            held: taken.held,
            used,
        };
    }
    let held = taken.held;
    let all = answer::answer(words, queues, meter, &line[..held], out, used);
    Reached {
        place: taken.place,
        held: 0,
        used: all,
    }
}

// Takes bytes of a chunk from a place on, and puts what they print behind the bytes used. The answers that are put have room:
// where one might have none, no more is taken.
pub fn feed(
    words: &mut [u32],
    queues: &mut [u8],
    meter: &mut [u32],
    line: &mut [u8],
    held: usize,
    chunk: &[u8],
    place: usize,
    out: &mut [u8],
    used: usize,
) -> Reached
    ensures answer { result ≡ reached_in (feeding words.old queues.old meter.old line.old held chunk.now place out.old used) }
    ensures words { words.new ≡ (feeding words.old queues.old meter.old line.old held chunk.now place out.old used).words }
    ensures queues { queues.new ≡ (feeding words.old queues.old meter.old line.old held chunk.now place out.old used).bytes }
    ensures meter { meter.new ≡ (feeding words.old queues.old meter.old line.old held chunk.now place out.old used).meter }
    ensures line { line.new ≡ (feeding words.old queues.old meter.old line.old held chunk.now place out.old used).line }
    ensures out { out.new ≡ (feeding words.old queues.old meter.old line.old held chunk.now place out.old used).out }
    ensures inside { result.used ≤ max used (length out.new) }
{
    let mut reached = Reached { place, held, used };
    // A turn takes as many bytes as its line has, so where the next one begins is the answer of the one before.
    while reached.place < chunk.len() {
        if !goes_on(line.len(), reached.held, out.len(), reached.used) {
            return reached;
        }
        reached = turn(words, queues, meter, line, chunk, out, reached);
    }
    reached
}

// The end of the input: a last line without a newline is answered, if it has a byte.
pub fn finish(
    words: &mut [u32],
    queues: &mut [u8],
    meter: &mut [u32],
    line: &mut [u8],
    held: usize,
    out: &mut [u8],
    used: usize,
) -> Reached
    ensures answer { result ≡ reached_in (finishing words.old queues.old meter.old line.old held out.old used) }
    ensures words { words.new ≡ (finishing words.old queues.old meter.old line.old held out.old used).words }
    ensures queues { queues.new ≡ (finishing words.old queues.old meter.old line.old held out.old used).bytes }
    ensures meter { meter.new ≡ (finishing words.old queues.old meter.old line.old held out.old used).meter }
    ensures line { line.new ≡ (finishing words.old queues.old meter.old line.old held out.old used).line }
    ensures out { out.new ≡ (finishing words.old queues.old meter.old line.old held out.old used).out }
    ensures inside { result.used ≤ max used (length out.new) }
{
    if held == 0 {
        return Reached {
            place: 0,
            held,
            used,
        };
    }
    feed(words, queues, meter, line, held, b"\n", 0, out, used)
}
