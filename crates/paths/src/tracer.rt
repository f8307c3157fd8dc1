// Tracing a path. The answer says how the path ended and after how many hops; the units met stand in the lent path buffer,
// start first, and the bytes after them stay. A refusal changes nothing.
ghost use Rattle.std.specs.Prelude.{◌≡◌, ◌≤◌, ◌<◌, length};
ghost use Rattle.ground.specs.Limits.{unit_limit};
ghost use Rattle.ground.specs.Refused.{refused_as};
ghost use Rattle.ground.specs.Rows.{at};
ghost use Rattle.ground.specs.Said.{said};
ghost use Rattle.rules.specs.NetworkTable.{trace_table_refusal, path_after};
ghost use Rattle.rules.specs.Tracer.{chosen as chosenFrom};
ghost use Rattle.paths.specs.Tracing.{units_in, tracing_said, trace_values, Traceable, EndsAs, LaysPath, trace_answer, trace_number, highest_answer};

use fitness::fit;
use ground::refusals::Refusal;
use ground::{ANSWERED, UNIT_WORDS};
use state::held::SUCCESSORS;

// How a path ended, each time with the hops.
#[derive(Clone, Copy)]
pub enum Traced {
    // At the destination.
    Arrived(usize),
    // At a unit without successors.
    Stranded(usize),
    // Elsewhere, after as many hops as a path without a circle can have.
    Circling(usize),
}

// How many units below the count a set has. `count_ones` would count those at and above it too.
fn number_in(set: u32, count: usize) -> usize
    requires { count ≤ unit_limit }
    ensures { result ≡ length (units_in count set) }
{
    let mut rest = set;
    let mut number = 0;
    for _ in 0..count {
        number += (rest % 2) as usize;
        rest /= 2;
    }
    number
}

// The unit of a set at a place, in rising order.
fn unit_at(set: u32, count: usize, place: usize) -> usize
    requires { (count ≤ unit_limit) × (place < length (units_in count set)) }
    ensures { result ≡ at (units_in count set) place }
{
    let mut rest = set;
    let mut before = 0;
    for k in 0..count {
        if rest % 2 == 1 {
            if before == place {
                return k;
            }
            before += 1;
        }
        rest /= 2;
    }
    count
}

// The successor that a choice byte takes.
fn chosen(set: u32, count: usize, choice: u8) -> usize
    requires { (count ≤ unit_limit) × (0 < length (units_in count set)) }
    ensures { result ≡ chosenFrom (units_in count set) choice }
{
    unit_at(set, count, choice as usize % number_in(set, count))
}

// The path from the start on. At each unit the destination is looked at first, then the successors, then the hops.
fn follow(
    words: &[u32],
    start: usize,
    destination: usize,
    choices: &[u8],
    path: &mut [u8],
) -> Traced
    requires { Traceable words.now start destination (length choices.now) (length path.old) }
    ensures answer { EndsAs words.now start destination choices.now result }
    ensures path { LaysPath words.now start destination choices.now path.old path.new }
{
    let count = words[0] as usize;
    let mut i = start;
    let mut hops = 0;
    // Three tests end it, each with an ending of its own, so the loop's value is the ending (docs/FORMS.md).
    loop {
        path[hops] = (i % 256) as u8;
        if i == destination {
            break Traced::Arrived(hops);
        }
        let set = words[i * UNIT_WORDS + (SUCCESSORS + destination)];
        if set == 0 {
            break Traced::Stranded(hops);
        }
        if count <= hops + 1 {
            break Traced::Circling(hops);
        }
        i = chosen(set, count, choices[hops]);
        hops += 1;
    }
}

// Whether a trace is refused.
fn check_trace(
    words: &[u32],
    queues: &[u8],
    start: u32,
    destination: u32,
    choices: &[u8],
    path: &[u8],
) -> Result<(), Refusal>
    ensures { refused_as result ≡ trace_table_refusal words.now queues.now start destination choices.now path.now }
{
    if !fit::is_fit(words, queues) {
        return Err(Refusal::Unfit);
    }
    if words[0] <= start || words[0] <= destination {
        return Err(Refusal::NoUnit);
    }
    let count = words[0] as usize;
    if path.len() < count || choices.len() < count - 1 {
        return Err(Refusal::Room);
    }
    Ok(())
}

pub fn trace(
    words: &[u32],
    queues: &[u8],
    start: u32,
    destination: u32,
    choices: &[u8],
    path: &mut [u8],
) -> Result<Traced, Refusal>
    ensures answer { tracing_said result ≡ said (trace_table_refusal words.now queues.now start destination choices.now path.old) (trace_values words.now queues.now start destination choices.now) }
    ensures path { path.new ≡ path_after words.now queues.now start destination choices.now path.old }
{
    check_trace(words, queues, start, destination, choices, path)?;
    Ok(follow(words, start as usize, destination as usize, choices, path))
}

// What answers of a trace that does not arrive begin at.
const STRANDED: u32 = 2 * ANSWERED;

const CIRCLING: u32 = 3 * ANSWERED;

// The number of an answer: 100 plus the hops for arrived, 200 plus the hops for stranded, 300 plus the hops for circling.
fn number_of(answer: Result<Traced, Refusal>) -> u32
    requires { trace_number answer ≤ highest_answer }
    ensures { result ≡ trace_number answer }
{
    match answer {
        Ok(Traced::Arrived(hops)) => ANSWERED + hops as u32,
        Ok(Traced::Stranded(hops)) => STRANDED + hops as u32,
        Ok(Traced::Circling(hops)) => CIRCLING + hops as u32,
        Err(refusal) => refusal.number(),
    }
}

// The same with one number as the answer.
pub fn trace_number(
    words: &[u32],
    queues: &[u8],
    start: u32,
    destination: u32,
    choices: &[u8],
    path: &mut [u8],
) -> u32
    ensures answer { result ≡ trace_answer words.now queues.now start destination choices.now path.old }
    ensures path { path.new ≡ path_after words.now queues.now start destination choices.now path.old }
{
    number_of(trace(words, queues, start, destination, choices, path))
}
