// Runs a script program: moves the bytes of standard input to a session, and its answers to standard output.
//
// `session` says what is printed. Here a chunk is read, and fed to the session in as many calls as its answers take; they are
// written after each call, so before each read, and who types the script sees them. The memory is fixed, however long the
// script is. The session is lent a meter's table, or, for the program without a meter, none of its numbers.
//
// A read or a write that fails is told on standard error, and ends the program: it is not taken for the end of the input.
#![tactic(auto)]

ghost use Rattle.std.specs.Prelude.{◌≤◌, ◌≡◌, length};
ghost use Rattle.frames.specs.MeterTable.{meter_words};

use ground::{METER_WORDS, NETWORK_BYTES, NETWORK_WORDS};
use script::answer::ANSWER_ROOM;
use session::{KEPT_ROOM, Reached};
use std::io;
use std::io::{Read, Write};

const INPUT_ROOM: usize = 65536;

// Answers wait until they take half of it.
const OUT_ROOM: usize = 2 * ANSWER_ROOM;

// The bytes of the chunk, the place in it that is next, the bytes held of the line so far, and whether to go on.
#[derive(Clone, Copy)]
struct Progress {
    filled: usize,
    place: usize,
    held: usize,
    going: bool,
}

// Reading or writing failed: there is no going on, and no line is left to be answered.
fn stop() -> Progress
    ensures { result.filled ≤ 0 }
{
    Progress {
        filled: 0,
        place: 0,
        held: 0,
        going: false,
    }
}

// The reason of an error without its number at the end.
fn reason(text: &str) -> &str {
    match text.split_once(" (os error ") {
        Some((reason, _)) => reason,
        None => text,
    }
}

// Writes a line to standard error: what failed, a colon and the reason.
fn write_error(rt: &HostRuntime, what: &str, error: io::Error) -> io::Result<()> {
    let text = format!(in rt.alloc(); "{error}")?;
    let told = reason(text.as_str());
    eprintln!(rt; "{what}: {told}")
}

// Tells on standard error what failed, and why. Where that fails too, nobody is left to be told.
fn tell(rt: &HostRuntime, what: &str, error: io::Error) {
    match write_error(rt, what, error) {
        Ok(()) => {}
        Err(_) => {}
    }
}

// Writes answers out, and says whether that was done.
fn write_out(rt: &HostRuntime, answers: &[u8]) -> bool {
    match rt.stdout().write_all(answers) {
        Ok(()) => true,
        Err(error) => {
            tell(rt, "write", error);
            false
        }
    }
}

// From where a call came to, if its answers were written.
fn go_on(is_written: bool, filled: usize, reached: Reached) -> Progress
    ensures { result.filled ≤ filled }
{
    if !is_written {
        return stop();
    }
    Progress {
        filled,
        place: reached.place,
        held: reached.held,
        going: true,
    }
}

// Feeds the chunk from the place that is next, and writes the answers.
fn feed_chunk(
    rt: &HostRuntime,
    words: &mut [u32],
    queues: &mut [u8],
    meter: &mut [u32],
    line: &mut [u8],
    chunk: &[u8],
    out: &mut [u8],
    progress: Progress,
) -> Progress
    ensures { result.filled ≤ progress.filled }
{
    let reached = session::feed(
        words,
        queues,
        meter,
        line,
        progress.held,
        chunk,
        progress.place,
        out,
        0,
    );
    let used = reached.used;
    let is_written = write_out(rt, &out[..used]);
    go_on(is_written, progress.filled, reached)
}

// Reads the next chunk. At the end of the input there is no going on, and the line so far is still held; where reading failed
// there is none.
fn next_chunk(rt: &HostRuntime, input: &mut [u8], held: usize) -> Progress
    ensures { result.filled ≤ length input.new }
{
    match rt.stdin().read(input) {
        Ok(filled) => Progress {
            filled,
            place: 0,
            held,
            going: 0 < filled,
        },
        Err(error) => {
            tell(rt, "read", error);
            stop()
        }
    }
}

// One turn: the rest of the chunk, or the next one.
fn turn(
    rt: &HostRuntime,
    words: &mut [u32],
    queues: &mut [u8],
    meter: &mut [u32],
    line: &mut [u8],
    input: &mut [u8],
    out: &mut [u8],
    progress: Progress,
) -> Progress
    requires { progress.filled ≤ length input.old }
    ensures { result.filled ≤ length input.new }
{
    let filled = progress.filled;
    if progress.place < filled {
        return feed_chunk(
            rt,
            words,
            queues,
            meter,
            line,
            &input[..filled],
            out,
            progress,
        );
    }
    next_chunk(rt, input, progress.held)
}

// All chunks of the input; answers the bytes held of a last line. A proved loop has to end: it counts up to a number that no run
// reaches.
fn feed_all(
    rt: &HostRuntime,
    words: &mut [u32],
    queues: &mut [u8],
    meter: &mut [u32],
    line: &mut [u8],
    input: &mut [u8],
    out: &mut [u8],
) -> usize {
    let mut progress = Progress {
        filled: 0,
        place: 0,
        held: 0,
        going: true,
    };
    for _ in 0..u64::MAX {
        progress = turn(rt, words, queues, meter, line, input, out, progress);
        if !progress.going {
            break;
        }
    }
    progress.held
}

// The whole script: all chunks, and then what is left of the input is answered and written.
fn run_all(
    rt: &HostRuntime,
    words: &mut [u32],
    queues: &mut [u8],
    meter: &mut [u32],
    line: &mut [u8],
    input: &mut [u8],
    out: &mut [u8],
) {
    let held = feed_all(rt, words, queues, meter, line, input, out);
    let reached = session::finish(words, queues, meter, line, held, out, 0);
    let used = reached.used;
    write_out(rt, &out[..used]);
}

// The numbers of the meter that are lent: all of them, or none.
fn lent_words(metered: bool) -> usize
    ensures { result ≤ meter_words }
{
    if metered {
        return METER_WORDS;
    }
    0
}

// Runs a program, with a meter or without. It answers nothing and lends nothing: all that it does is read and written.
pub fn run(rt: &HostRuntime, metered: bool)
    ensures { result ≡ tt }
{
    let mut words = [0u32; NETWORK_WORDS];
    let mut queues = [0u8; NETWORK_BYTES];
    let mut meter = [0u32; METER_WORDS];
    let mut line = [0u8; KEPT_ROOM];
    let mut input = [0u8; INPUT_ROOM];
    let mut out = [0u8; OUT_ROOM];
    let lent = lent_words(metered);
    run_all(
        rt,
        &mut words,
        &mut queues,
        &mut meter[..lent],
        &mut line,
        &mut input,
        &mut out,
    );
}
