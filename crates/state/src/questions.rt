// Questions to a unit's table. They change nothing, and are refused where the table is not fit or the destination is no unit. A
// distance that is unreachable is the largest number.
ghost use Rattle.std.specs.Prelude.{◌⊎◌, ◌≡◌, ◌≤◌, IfOk};
ghost use Rattle.ground.specs.Limits.{unit_limit, longest, far};
ghost use Rattle.ground.specs.Refused.{refused_as, done_of, test_of, reached_of};
ghost use Rattle.rules.specs.Tables.{laid_row};
ghost use Rattle.rules.specs.Unit.{fresh_unit};
ghost use Rattle.state.specs.Asked.{row_answer, asked_of, Listed, listed_answer};
ghost use Rattle.rules.specs.Hub.{fresh_table_answer, fresh_table, active_answer, question_refusal, distance_answer, feasible_answer};

use crate::held::Held;
use crate::{fit, held};
use ground::refusals::Refusal;
use ground::{COPIES, FAR, UNIT_WORDS, UNITS};
use recomputing::heads;

// All that can be asked of a unit at once, for each destination.
#[derive(Clone, Copy)]
pub struct Row {
    pub count: usize,
    pub active: bool,
    pub distances: [u32; UNITS],
    pub feasible: [u32; UNITS],
    pub successors: [u32; UNITS],
}

// Feasible distances of the fresh unit: 0 to itself, unreachable to others.
fn fresh_feasible(count: usize, me: usize) -> [u32; UNITS]
    requires { count ≤ unit_limit }
    ensures { result ≡ laid_row (fresh_unit count me).feasible }
{
    let mut row = [0u32; UNITS];
    for j in 0..count {
        row[j] = if j == me { 0 } else { FAR };
    }
    row
}

// The fresh unit's table: all links down, trees empty.
pub fn fresh(count: u32, me: u32, table: &mut [u32]) -> Result<(), Refusal>
    ensures answer { done_of result ≡ fresh_table_answer table.old count me }
    ensures table { table.new ≡ fresh_table table.old count me }
{
    if count < 2 || (UNITS as u32) < count {
        return Err(Refusal::UnitCount);
    }
    if table.len() != UNIT_WORDS {
        return Err(Refusal::Unfit);
    }
    if count <= me {
        return Err(Refusal::NoUnit);
    }
    let unit = Held {
        count: count as usize,
        me: me as usize,
        costs: [0u32; UNITS],
        awaited: [0u32; UNITS],
        tree: [0u32; UNITS],
        feasible: fresh_feasible(count as usize, me as usize),
        copies: [0u32; COPIES],
    };
    held::lay(table, unit, [0u32; UNITS]);
    Ok(())
}

pub fn active(table: &[u32]) -> Result<bool, Refusal>
    ensures { test_of result ≡ active_answer table.now }
{
    if !fit::is_fit(table) {
        return Err(Refusal::Unfit);
    }
    Ok(held::is_active(held::load(table)))
}

fn check_question(table: &[u32], to: u32) -> Result<(), Refusal>
    ensures { refused_as result ≡ question_refusal table.now to }
{
    if !fit::is_fit(table) {
        return Err(Refusal::Unfit);
    }
    if table[0] <= to {
        return Err(Refusal::NoUnit);
    }
    Ok(())
}

fn distance(table: &[u32], to: u32) -> Result<u32, Refusal>
    ensures answer { reached_of result ≡ distance_answer table.now to }
    ensures within { IfOk result (λ value. (value ≤ longest) ⊎ (value ≡ far)) }
{
    check_question(table, to)?;
    let unit = held::load(table);
    let tree = unit.tree;
    let count = unit.count;
    Ok(heads::distance(&tree[..count], unit.me, count - 1, to as usize))
}

fn feasible(table: &[u32], to: u32) -> Result<u32, Refusal>
    ensures answer { reached_of result ≡ feasible_answer table.now to }
    ensures within { IfOk result (λ value. (value ≤ longest) ⊎ (value ≡ far)) }
{
    check_question(table, to)?;
    let unit = held::load(table);
    // The row alone: with a place in the whole unit all of it would be kept on the stack.
    let feasible = unit.feasible;
    Ok(feasible[to as usize])
}

// A question whose answer stands in a row of the table as it is.
fn listed(table: &[u32], row: usize, to: u32) -> Result<u32, Refusal>
    requires { Listed row }
    ensures answer { reached_of result ≡ listed_answer table.now row to }
    ensures within { IfOk result (λ value. (value ≤ longest) ⊎ (value ≡ far)) }
{
    check_question(table, to)?;
    Ok(table[row + to as usize])
}

// What can be asked of a unit about a destination.
#[derive(Clone, Copy)]
pub enum Question {
    Distance,
    Feasible,
    Successors,
    // The cost of the link to it, 0 where that is down.
    Link,
    // Whether its acknowledgment is awaited.
    Awaits,
}

// The answer to a question about a destination.
pub fn ask(table: &[u32], question: Question, to: u32) -> Result<u32, Refusal>
    ensures answer { reached_of result ≡ asked_of question table.now to }
    ensures within { IfOk result (λ value. (value ≤ longest) ⊎ (value ≡ far)) }
{
    match question {
        Question::Distance => distance(table, to),
        Question::Feasible => feasible(table, to),
        Question::Successors => listed(table, held::SUCCESSORS, to),
        Question::Link => listed(table, held::COSTS, to),
        Question::Awaits => listed(table, held::AWAITED, to),
    }
}

// All questions at once, with one test of the table.
pub fn row_of(table: &[u32]) -> Result<Row, Refusal>
    ensures { result ≡ row_answer table.now }
{
    if fit::is_fit(table) {
        let unit = held::load(table);
        let feasible = unit.feasible;
        Ok(Row {
            count: unit.count,
            active: held::is_active(unit),
            distances: heads::distances(unit.tree, unit.count, unit.me),
            feasible,
            successors: held::row(table, held::SUCCESSORS, unit.count),
        })
    } else {
        Err(Refusal::Unfit)
    }
}
