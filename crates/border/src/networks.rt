// A whole network of units with its queues, and the tracer, for planning tools and tests.
ghost use Rattle.std.specs.Prelude.{◌≡◌};
ghost use Rattle.ground.specs.Refused.{done_of};
ghost use Rattle.rules.specs.Hub.{hub_answer};
ghost use Rattle.rules.specs.Network.{up, cost, down, deliver};
ghost use Rattle.rules.specs.NetworkTable.{network_answer, words_after, bytes_after, state_answer, distance_between, feasible_between, successors_between, link_between, awaits_between};
ghost use Rattle.asking.specs.Asking.{asked_between};
ghost use Rattle.border.specs.NetworkBytes.{call_told, border_call, border_units, border_queues, border_fresh_refusal, fresh_units_bytes, fresh_queues_bytes, asked_of_units, border_trace, border_path};

use crate::{answers, words};
use ground::refusals::Refusal;
use ground::{NETWORK_BYTES, NETWORK_WORDS, UNITS};
use network::{calls, fresh};
use paths::tracer;
use state::questions::Question;

// The bytes of the units' tables.
pub(crate) const UNITS_BYTES: usize = 4 * NETWORK_WORDS;

// What happens in a network.
#[derive(Clone, Copy)]
enum NetworkCall {
    Up(u32, u32, u32, u32),
    Cost(u32, u32, u32),
    Down(u32, u32),
    Deliver(u32, u32),
}

pub fn puntclover_network_fresh(count: u32, units: &mut [u8], queues: &mut [u8]) -> u32
    ensures answer { result ≡ hub_answer (border_fresh_refusal units.old queues.old count) 0 }
    ensures units { units.new ≡ fresh_units_bytes units.old queues.old count }
    ensures queues { queues.new ≡ fresh_queues_bytes units.old queues.old count }
{
    if count < 2 {
        return Refusal::UnitCount.number();
    }
    if (UNITS as u32) < count {
        return Refusal::UnitCount.number();
    }
    if units.len() != UNITS_BYTES {
        return Refusal::Unfit.number();
    }
    if queues.len() != NETWORK_BYTES {
        return Refusal::Unfit.number();
    }
    let mut numbers = [0u32; NETWORK_WORDS];
    let answer = fresh::fresh(count, &mut numbers, queues);
    words::lay_numbers(units, &numbers);
    answers::done(answer)
}

// A call over the units' numbers.
fn tell(numbers: &mut [u32], queues: &mut [u8], call: NetworkCall) -> Result<(), Refusal>
    ensures answer { done_of result ≡ network_answer numbers.old queues.old (call_told call) }
    ensures numbers { numbers.new ≡ words_after numbers.old queues.old (call_told call) }
    ensures queues { queues.new ≡ bytes_after numbers.old queues.old (call_told call) }
{
    match call {
        NetworkCall::Up(a, b, ca, cb) => calls::up(numbers, queues, a, b, ca, cb),
        NetworkCall::Cost(a, b, cost) => calls::cost(numbers, queues, a, b, cost),
        NetworkCall::Down(a, b) => calls::down(numbers, queues, a, b),
        NetworkCall::Deliver(a, b) => calls::deliver(numbers, queues, a, b),
    }
}

// A call over the bytes of the units: the call over their numbers, laid back.
fn answer(units: &mut [u8], queues: &mut [u8], call: NetworkCall) -> u32
    ensures answer { result ≡ border_call units.old queues.old (call_told call) }
    ensures units { units.new ≡ border_units units.old queues.old (call_told call) }
    ensures queues { queues.new ≡ border_queues units.old queues.old (call_told call) }
{
    if units.len() != UNITS_BYTES {
        return Refusal::Unfit.number();
    }
    let mut numbers = [0u32; NETWORK_WORDS];
    words::take_numbers(&mut numbers, units);
    let answer = tell(&mut numbers, queues, call);
    words::lay_numbers(units, &numbers);
    answers::done(answer)
}

pub fn puntclover_network_up(
    units: &mut [u8],
    queues: &mut [u8],
    a: u32,
    b: u32,
    cost_of_a: u32,
    cost_of_b: u32,
) -> u32
    ensures answer { result ≡ border_call units.old queues.old (up a b cost_of_a cost_of_b) }
    ensures units { units.new ≡ border_units units.old queues.old (up a b cost_of_a cost_of_b) }
    ensures queues { queues.new ≡ border_queues units.old queues.old (up a b cost_of_a cost_of_b) }
{
    answer(units, queues, NetworkCall::Up(a, b, cost_of_a, cost_of_b))
}

pub fn puntclover_network_cost(
    units: &mut [u8],
    queues: &mut [u8],
    a: u32,
    b: u32,
    new_cost: u32,
) -> u32
    ensures answer { result ≡ border_call units.old queues.old (cost a b new_cost) }
    ensures units { units.new ≡ border_units units.old queues.old (cost a b new_cost) }
    ensures queues { queues.new ≡ border_queues units.old queues.old (cost a b new_cost) }
{
    answer(units, queues, NetworkCall::Cost(a, b, new_cost))
}

pub fn puntclover_network_down(units: &mut [u8], queues: &mut [u8], a: u32, b: u32) -> u32
    ensures answer { result ≡ border_call units.old queues.old (down a b) }
    ensures units { units.new ≡ border_units units.old queues.old (down a b) }
    ensures queues { queues.new ≡ border_queues units.old queues.old (down a b) }
{
    answer(units, queues, NetworkCall::Down(a, b))
}

pub fn puntclover_network_deliver(units: &mut [u8], queues: &mut [u8], a: u32, b: u32) -> u32
    ensures answer { result ≡ border_call units.old queues.old (deliver a b) }
    ensures units { units.new ≡ border_units units.old queues.old (deliver a b) }
    ensures queues { queues.new ≡ border_queues units.old queues.old (deliver a b) }
{
    answer(units, queues, NetworkCall::Deliver(a, b))
}

pub fn puntclover_network_state(units: &[u8], queues: &[u8], i: u32) -> u32
    ensures { result ≡ asked_of_units units.now (λ words. state_answer words queues.now i) }
{
    if units.len() != UNITS_BYTES {
        return Refusal::Unfit.number();
    }
    let mut numbers = [0u32; NETWORK_WORDS];
    words::take_numbers(&mut numbers, units);
    answers::test(asking::state(&numbers, queues, i))
}

// A question to unit i about unit j over the bytes of the units.
fn ask(units: &[u8], queues: &[u8], i: u32, j: u32, question: Question) -> u32
    ensures { result ≡ asked_of_units units.now (λ words. asked_between question words queues.now i j) }
{
    if units.len() != UNITS_BYTES {
        return Refusal::Unfit.number();
    }
    let mut numbers = [0u32; NETWORK_WORDS];
    words::take_numbers(&mut numbers, units);
    answers::reached(asking::asked(&numbers, queues, i, j, question))
}

pub fn puntclover_network_distance(units: &[u8], queues: &[u8], i: u32, j: u32) -> u32
    ensures { result ≡ asked_of_units units.now (λ words. distance_between words queues.now i j) }
{
    ask(units, queues, i, j, Question::Distance)
}

pub fn puntclover_network_feasible(units: &[u8], queues: &[u8], i: u32, j: u32) -> u32
    ensures { result ≡ asked_of_units units.now (λ words. feasible_between words queues.now i j) }
{
    ask(units, queues, i, j, Question::Feasible)
}

pub fn puntclover_network_successors(units: &[u8], queues: &[u8], i: u32, j: u32) -> u32
    ensures { result ≡ asked_of_units units.now (λ words. successors_between words queues.now i j) }
{
    ask(units, queues, i, j, Question::Successors)
}

// The cost of the link from i to j, 0 where it is down.
pub fn puntclover_network_link(units: &[u8], queues: &[u8], i: u32, j: u32) -> u32
    ensures { result ≡ asked_of_units units.now (λ words. link_between words queues.now i j) }
{
    ask(units, queues, i, j, Question::Link)
}

// Whether unit i awaits the acknowledgment of unit j: 101, else 100.
pub fn puntclover_network_awaits(units: &[u8], queues: &[u8], i: u32, j: u32) -> u32
    ensures { result ≡ asked_of_units units.now (λ words. awaits_between words queues.now i j) }
{
    ask(units, queues, i, j, Question::Awaits)
}

// Follows successors, and lays the units met into the path.
pub fn puntclover_network_trace(
    units: &[u8],
    queues: &[u8],
    start: u32,
    destination: u32,
    choices: &[u8],
    path: &mut [u8],
) -> u32
    ensures answer { result ≡ border_trace units.now queues.now start destination choices.now path.old }
    ensures path { path.new ≡ border_path units.now queues.now start destination choices.now path.old }
{
    if units.len() != UNITS_BYTES {
        return Refusal::Unfit.number();
    }
    let mut numbers = [0u32; NETWORK_WORDS];
    words::take_numbers(&mut numbers, units);
    tracer::trace_number(&numbers, queues, start, destination, choices, path)
}
