// One unit, for hub firmware. The messages of an event stand in the lent buffer from its start, neighbours rising, each after
// one byte with the neighbour's number; the bytes after them stay.
ghost use Rattle.std.specs.Prelude.{◌≡◌, length};
ghost use Rattle.border.specs.HubBytes.{asked, border_answer, border_table, border_buffer, border_fresh_answer, border_fresh_table, border_state, border_distance, border_feasible, border_successors, border_link, border_awaits};
ghost use Rattle.rules.specs.Hub.{hub_up, hub_cost, hub_down, hub_message};
ghost use Rattle.state.specs.Asked.{asked_of};
ghost use Rattle.unit.specs.Calls.{call_of};

use crate::{answers, words};
use ground::refusals::Refusal;
use ground::{UNIT_WORDS, UNITS};
use state::questions;
use state::questions::Question;
use unit::calls;
use unit::calls::Call;

// The bytes of a unit's table.
const TABLE_BYTES: usize = 4 * UNIT_WORDS;

pub fn puntclover_hub_fresh(count: u32, me: u32, table: &mut [u8]) -> u32
    ensures answer { result ≡ border_fresh_answer table.old count me }
    ensures table { table.new ≡ border_fresh_table table.old count me }
{
    if count < 2 {
        return Refusal::UnitCount.number();
    }
    if (UNITS as u32) < count {
        return Refusal::UnitCount.number();
    }
    if table.len() != TABLE_BYTES {
        return Refusal::Unfit.number();
    }
    let mut numbers = [0u32; UNIT_WORDS];
    words::take_numbers(&mut numbers, table);
    let answer = questions::fresh(count, me, &mut numbers);
    words::lay_numbers(table, &numbers);
    answers::done(answer)
}

// A call over the bytes of a table: the call over its numbers, laid back.
fn answer(table: &mut [u8], call: Call, bytes: &[u8], out: &mut [u8]) -> u32
    ensures answer { result ≡ border_answer table.old (length out.old) (call_of call bytes.now) }
    ensures table { table.new ≡ border_table table.old (length out.old) (call_of call bytes.now) }
    ensures sent { out.new ≡ border_buffer table.old out.old (call_of call bytes.now) }
{
    if table.len() != TABLE_BYTES {
        return Refusal::Unfit.number();
    }
    let mut numbers = [0u32; UNIT_WORDS];
    words::take_numbers(&mut numbers, table);
    let answer = calls::answer(&mut numbers, call, bytes, out);
    words::lay_numbers(table, &numbers);
    answers::length(answer)
}

pub fn puntclover_hub_up(table: &mut [u8], to: u32, cost: u32, out: &mut [u8]) -> u32
    ensures answer { result ≡ border_answer table.old (length out.old) (hub_up to cost) }
    ensures table { table.new ≡ border_table table.old (length out.old) (hub_up to cost) }
    ensures sent { out.new ≡ border_buffer table.old out.old (hub_up to cost) }
{
    let none = [0u8; 1];
    answer(table, Call::Up { to, cost }, &none, out)
}

pub fn puntclover_hub_cost(table: &mut [u8], to: u32, cost: u32, out: &mut [u8]) -> u32
    ensures answer { result ≡ border_answer table.old (length out.old) (hub_cost to cost) }
    ensures table { table.new ≡ border_table table.old (length out.old) (hub_cost to cost) }
    ensures sent { out.new ≡ border_buffer table.old out.old (hub_cost to cost) }
{
    let none = [0u8; 1];
    answer(table, Call::Cost { to, cost }, &none, out)
}

pub fn puntclover_hub_down(table: &mut [u8], to: u32, out: &mut [u8]) -> u32
    ensures answer { result ≡ border_answer table.old (length out.old) (hub_down to) }
    ensures table { table.new ≡ border_table table.old (length out.old) (hub_down to) }
    ensures sent { out.new ≡ border_buffer table.old out.old (hub_down to) }
{
    let none = [0u8; 1];
    answer(table, Call::Down { to }, &none, out)
}

pub fn puntclover_hub_message(table: &mut [u8], from: u32, bytes: &[u8], out: &mut [u8]) -> u32
    ensures answer { result ≡ border_answer table.old (length out.old) (hub_message from bytes.now) }
    ensures table { table.new ≡ border_table table.old (length out.old) (hub_message from bytes.now) }
    ensures sent { out.new ≡ border_buffer table.old out.old (hub_message from bytes.now) }
{
    answer(table, Call::Message { from }, bytes, out)
}

pub fn puntclover_hub_state(table: &[u8]) -> u32
    ensures { result ≡ border_state table.now }
{
    if table.len() != TABLE_BYTES {
        return Refusal::Unfit.number();
    }
    let mut numbers = [0u32; UNIT_WORDS];
    words::take_numbers(&mut numbers, table);
    answers::test(questions::active(&numbers))
}

// A question over the bytes of a table.
fn ask(table: &[u8], question: Question, to: u32) -> u32
    ensures { result ≡ asked table.now (λ words. asked_of question words to) }
{
    if table.len() != TABLE_BYTES {
        return Refusal::Unfit.number();
    }
    let mut numbers = [0u32; UNIT_WORDS];
    words::take_numbers(&mut numbers, table);
    answers::reached(questions::ask(&numbers, question, to))
}

pub fn puntclover_hub_distance(table: &[u8], to: u32) -> u32
    ensures { result ≡ border_distance table.now to }
{
    ask(table, Question::Distance, to)
}

pub fn puntclover_hub_feasible(table: &[u8], to: u32) -> u32
    ensures { result ≡ border_feasible table.now to }
{
    ask(table, Question::Feasible, to)
}

pub fn puntclover_hub_successors(table: &[u8], to: u32) -> u32
    ensures { result ≡ border_successors table.now to }
{
    ask(table, Question::Successors, to)
}

// The cost of the link to a neighbour, 0 where it is down.
pub fn puntclover_hub_link(table: &[u8], to: u32) -> u32
    ensures { result ≡ border_link table.now to }
{
    ask(table, Question::Link, to)
}

// Whether a neighbour's acknowledgment is awaited: 101, else 100.
pub fn puntclover_hub_awaits(table: &[u8], to: u32) -> u32
    ensures { result ≡ border_awaits table.now to }
{
    ask(table, Question::Awaits, to)
}
