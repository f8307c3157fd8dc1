// Questions to a network's tables. A question changes nothing, and is refused where the tables are not fit or a number is no unit. A
// distance that is unreachable is the largest number.
#![tactic(auto)]

ghost use Rattle.std.specs.Prelude.{◌⊎◌, ◌≡◌, ◌≤◌, IfOk};
ghost use Rattle.ground.specs.Limits.{longest, far};
ghost use Rattle.ground.specs.Refused.{refused_as, test_of, reached_of};
ghost use Rattle.rules.specs.NetworkTable.{unit_refusal, pair_refusal, state_answer};
ghost use Rattle.asking.specs.Asking.{row_at, asked_between};

use fitness::fit;
use ground::UNIT_WORDS;
use ground::refusals::Refusal;
use state::questions;
use state::questions::{Question, Row};

// Whether a question about a unit is refused.
fn check_unit(words: &[u32], queues: &[u8], i: u32) -> Result<(), Refusal>
    ensures { refused_as result ≡ unit_refusal words.now queues.now i }
{
    if !fit::is_fit(words, queues) {
        return Err(Refusal::Unfit);
    }
    if words[0] <= i {
        return Err(Refusal::NoUnit);
    }
    Ok(())
}

// The same of one about two units.
fn check_pair(words: &[u32], queues: &[u8], i: u32, j: u32) -> Result<(), Refusal>
    ensures { refused_as result ≡ pair_refusal words.now queues.now i j }
{
    check_unit(words, queues, i)?;
    if words[0] <= j {
        return Err(Refusal::NoUnit);
    }
    Ok(())
}

// Whether unit i awaits an acknowledgment: yes for ACTIVE, no for PASSIVE.
pub fn state(words: &[u32], queues: &[u8], i: u32) -> Result<bool, Refusal>
    ensures { test_of result ≡ state_answer words.now queues.now i }
{
    check_unit(words, queues, i)?;
    let from = i as usize * UNIT_WORDS;
    questions::active(&words[from..from + UNIT_WORDS])
}

// A question to unit i about unit j.
pub fn asked(
    words: &[u32],
    queues: &[u8],
    i: u32,
    j: u32,
    question: Question,
) -> Result<u32, Refusal>
    ensures answer { reached_of result ≡ asked_between question words.now queues.now i j }
    ensures within { IfOk result (λ value. (value ≤ longest) ⊎ (value ≡ far)) }
{
    check_pair(words, queues, i, j)?;
    let from = i as usize * UNIT_WORDS;
    questions::ask(&words[from..from + UNIT_WORDS], question, j)
}

// All questions about unit i at once, with one test of the tables.
pub fn row_of(words: &[u32], queues: &[u8], i: u32) -> Result<Row, Refusal>
    ensures { result ≡ row_at words.now queues.now i }
{
    check_unit(words, queues, i)?;
    let from = i as usize * UNIT_WORDS;
    questions::row_of(&words[from..from + UNIT_WORDS])
}
