// The fresh network: its units' tables, and empty queues.
ghost use Rattle.std.specs.Prelude.{◌≡◌, ◌≤◌, ◌<◌};
ghost use Rattle.ground.specs.Limits.{unit_limit};
ghost use Rattle.ground.specs.Rows.{zeros};
ghost use Rattle.ground.specs.Refused.{done_of};
ghost use Rattle.rules.specs.Hub.{hub_answer};
ghost use Rattle.rules.specs.Network.{fresh as freshNetwork};
ghost use Rattle.rules.specs.NetworkTable.{fresh_network_refusal, fresh_words, fresh_bytes};
ghost use Rattle.rules.specs.Tables.{network_words, laid_unit, laid_units};
ghost use Rattle.rules.specs.Unit.{fresh_unit};

use fitness::tables;
use ground::refusals::Refusal;
use ground::{NETWORK_BYTES, NETWORK_WORDS, UNIT_WORDS, UNITS};
use state::questions;

// The fresh unit's table.
fn fresh_table(count: u32, i: u32) -> [u32; UNIT_WORDS]
    requires { (2 ≤ count) × (count ≤ unit_limit) × (i < count) }
    ensures { result ≡ laid_unit (fresh_unit count i) }
{
    let mut table = [0u32; UNIT_WORDS];
    let _ = questions::fresh(count, i, &mut table);
    table
}

// The tables of fresh units, over zeros.
fn fresh_units(words: &mut [u32], count: u32)
    requires { (2 ≤ count) × (count ≤ unit_limit) × (words.old ≡ zeros network_words) }
    ensures { words.new ≡ laid_units (freshNetwork count) }
{
    for i in 0..count {
        let table = fresh_table(count, i);
        tables::put(words, i as usize, table);
    }
}

// A fresh network of `count` units.
pub fn fresh(count: u32, words: &mut [u32], queues: &mut [u8]) -> Result<(), Refusal>
    ensures answer { done_of result ≡ hub_answer (fresh_network_refusal words.old queues.old count) 0 }
    ensures words { words.new ≡ fresh_words words.old queues.old count }
    ensures queues { queues.new ≡ fresh_bytes words.old queues.old count }
{
    if count < 2 {
        return Err(Refusal::UnitCount);
    }
    if (UNITS as u32) < count {
        return Err(Refusal::UnitCount);
    }
    if words.len() != NETWORK_WORDS {
        return Err(Refusal::Unfit);
    }
    if queues.len() != NETWORK_BYTES {
        return Err(Refusal::Unfit);
    }
    slices::clear(words);
    slices::clear(queues);
    fresh_units(words, count);
    Ok(())
}
