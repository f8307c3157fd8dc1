// The tables of all units: their count, and one unit's table among them.
ghost use Rattle.std.specs.Prelude.{◌≡◌};
ghost use Rattle.ground.specs.Rows.{at};
ghost use Rattle.fitness.specs.UnitTables.{table_of, with_table, is_linked};

use ground::{NETWORK_WORDS, UNIT_WORDS, UNITS};
use state::held::COSTS;

// The network's count: the first number, 0 where there is none.
pub fn count(words: &[u32]) -> usize
    ensures { result ≡ at words.now 0 }
{
    if words.len() == 0 {
        return 0;
    }
    words[0] as usize
}

// A copy of unit i's table, or zeros where there is none.
pub fn load(words: &[u32], i: usize) -> [u32; UNIT_WORDS]
    ensures { result ≡ table_of words.now i }
{
    let mut table = [0u32; UNIT_WORDS];
    if words.len() != NETWORK_WORDS {
        return table;
    }
    if UNITS <= i {
        return table;
    }
    let from = i * UNIT_WORDS;
    slices::lay_over(&mut table, 0, &words[from..from + UNIT_WORDS]);
    table
}

// Another table for unit i. Where there is none nothing changes.
pub fn put(words: &mut [u32], i: usize, table: [u32; UNIT_WORDS])
    ensures { words.new ≡ with_table words.old i table }
{
    if words.len() != NETWORK_WORDS {
        return;
    }
    if UNITS <= i {
        return;
    }
    slices::lay_over(words, i * UNIT_WORDS, &table);
}

// Whether unit a's table has the link to b up.
pub fn is_linked(words: &[u32], a: usize, b: usize) -> bool
    ensures { result ≡ is_linked words.now a b }
{
    if words.len() != NETWORK_WORDS {
        return false;
    }
    if UNITS <= a {
        return false;
    }
    if UNITS <= b {
        return false;
    }
    words[a * UNIT_WORDS + (COSTS + b)] != 0
}
