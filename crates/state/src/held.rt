// A unit's tables, taken out of the lent table and laid back into it. The index rule of the table is the one of the
// definitions: the count, the unit's own number, then rows of UNITS numbers for costs, waits, tree, feasible distances and
// successor sets, then a row for the copy of each unit's tree.
ghost use Rattle.std.specs.Prelude.{◌&&◌, ◌≡◌, ◌+◌, ◌≤◌, leb, length};
ghost use Rattle.ground.specs.Limits.{unit_limit};
ghost use Rattle.ground.specs.Rows.{at, filled};
ghost use Rattle.rules.specs.Tables.{unit_words, part, unit_from, copy_at};
ghost use Rattle.rules.specs.Unit.{is_active};
ghost use Rattle.slices.specs.Slices.{laid_over};
ghost use Rattle.state.specs.Holding.{held_of, unit_of, laid_with, flat_copies, no_unit, held_from, with_unit};

use ground::{COPIES, UNIT_WORDS, UNITS};

// Where each row begins.
pub const COSTS: usize = 2;

pub(crate) const AWAITED: usize = COSTS + UNITS;

const TREE: usize = AWAITED + UNITS;

const FEASIBLE: usize = TREE + UNITS;

pub const SUCCESSORS: usize = FEASIBLE + UNITS;

const COPY: usize = SUCCESSORS + UNITS;

// A unit: rows with zeros from the count on. Successor sets are left out: they follow from the rest.
#[derive(Clone, Copy)]
pub struct Held {
    pub count: usize,
    pub me: usize,
    pub costs: [u32; UNITS],
    pub awaited: [u32; UNITS],
    pub tree: [u32; UNITS],
    pub feasible: [u32; UNITS],
    pub copies: [u32; COPIES],
}

// The first `count` numbers of a row of the table.
pub(crate) fn row(table: &[u32], from: usize, count: usize) -> [u32; UNITS]
    requires { (count ≤ unit_limit) × (from + unit_limit ≤ length table.now) }
    ensures { result ≡ filled unit_limit (part table.now from count) }
{
    let mut first = [0u32; UNITS];
    slices::lay_over(&mut first, 0, &table[from..from + count]);
    first
}

// The first `count` numbers of each of the first `count` copies.
fn copies(table: &[u32], count: usize) -> [u32; COPIES]
    requires { (count ≤ unit_limit) × (length table.now ≡ unit_words) }
    ensures { result ≡ flat_copies count table.now }
{
    let mut numbers = [0u32; COPIES];
    for i in 0..COPIES {
        if i / UNITS < count {
            if i % UNITS < count {
                numbers[i] = table[COPY + i];
            }
        }
    }
    numbers
}

// The unit that a table of the right length and a count up to the limit hold.
pub(crate) fn load(table: &[u32]) -> Held
    requires { (length table.now ≡ unit_words) × (at table.now 0 ≤ unit_limit) }
    ensures { result ≡ held_of (unit_from table.now) }
{
    let count = table[0] as usize;
    Held {
        count,
        me: table[1] as usize,
        costs: row(table, COSTS, count),
        awaited: row(table, AWAITED, count),
        tree: row(table, TREE, count),
        feasible: row(table, FEASIBLE, count),
        copies: copies(table, count),
    }
}

// A row, laid into the table from a place on.
fn put_row(table: &mut [u32], from: usize, row: [u32; UNITS])
    ensures { table.new ≡ laid_over table.old from row }
{
    slices::lay_over(table, from, &row);
}

// The copies, laid into the table.
fn put_copies(table: &mut [u32], copies: [u32; COPIES])
    ensures { table.new ≡ laid_over table.old (copy_at 0) copies }
{
    slices::lay_over(table, COPY, &copies);
}

// No unit: what a table holds that is none.
fn no_unit() -> Held
    ensures { result ≡ no_unit }
{
    Held {
        count: 0,
        me: 0,
        costs: [0u32; UNITS],
        awaited: [0u32; UNITS],
        tree: [0u32; UNITS],
        feasible: [0u32; UNITS],
        copies: [0u32; COPIES],
    }
}

// The unit that a table holds.
pub fn unit_in(table: &[u32]) -> Held
    ensures { result ≡ held_from table.now }
{
    if table.len() != UNIT_WORDS {
        return no_unit();
    }
    if UNITS < table[0] as usize {
        return no_unit();
    }
    load(table)
}

// The unit and its successor sets, laid over the whole table.
pub(crate) fn lay(table: &mut [u32], unit: Held, successors: [u32; UNITS])
    requires { (length table.old ≡ unit_words) × (unit.count ≤ unit_limit) × (unit.me ≤ unit_limit) }
    ensures { table.new ≡ laid_with unit successors }
{
    table[0] = unit.count as u32;
    table[1] = unit.me as u32;
    let costs = unit.costs;
    let awaited = unit.awaited;
    let tree = unit.tree;
    let feasible = unit.feasible;
    let copies = unit.copies;
    put_row(table, COSTS, costs);
    put_row(table, AWAITED, awaited);
    put_row(table, TREE, tree);
    put_row(table, FEASIBLE, feasible);
    put_row(table, SUCCESSORS, successors);
    put_copies(table, copies);
}

// The same over any numbers: only a table is laid over, and only by a unit whose numbers are within the limit.
pub fn put_unit(table: &mut [u32], unit: Held, successors: [u32; UNITS])
    ensures { table.new ≡ with_unit table.old unit successors }
{
    if table.len() != UNIT_WORDS {
        return;
    }
    if UNITS < unit.count {
        return;
    }
    if UNITS < unit.me {
        return;
    }
    lay(table, unit, successors);
}

// Whether the unit awaits an acknowledgment.
pub fn is_active(unit: Held) -> bool
    ensures { result ≡ (leb unit.count unit_limit && is_active (unit_of unit)) }
{
    if UNITS < unit.count {
        return false;
    }
    let awaited = unit.awaited;
    !slices::is_nothing(&awaited[..unit.count])
}
