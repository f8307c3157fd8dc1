// One unit, for hub firmware, as the crate border has it.
ghost use Rattle.std.specs.Prelude.{◌≡◌, length};
ghost use Rattle.border.specs.HubBytes.{border_answer, border_table, border_buffer, border_fresh_answer, border_fresh_table, border_state, border_distance, border_feasible, border_successors, border_link, border_awaits};
ghost use Rattle.rules.specs.Hub.{hub_up, hub_cost, hub_down, hub_message};

use border::hub;

#[unsafe(no_mangle)]
pub extern "C" fn puntclover_hub_fresh(count: u32, me: u32, table: &mut [u8]) -> u32
    ensures answer { result ≡ border_fresh_answer table.old count me }
    ensures table { table.new ≡ border_fresh_table table.old count me }
{
    hub::puntclover_hub_fresh(count, me, table)
}

#[unsafe(no_mangle)]
pub extern "C" fn puntclover_hub_up(table: &mut [u8], to: u32, cost: u32, out: &mut [u8]) -> u32
    ensures answer { result ≡ border_answer table.old (length out.old) (hub_up to cost) }
    ensures table { table.new ≡ border_table table.old (length out.old) (hub_up to cost) }
    ensures sent { out.new ≡ border_buffer table.old out.old (hub_up to cost) }
{
    hub::puntclover_hub_up(table, to, cost, out)
}

#[unsafe(no_mangle)]
pub extern "C" fn puntclover_hub_cost(table: &mut [u8], to: u32, cost: u32, out: &mut [u8]) -> u32
    ensures answer { result ≡ border_answer table.old (length out.old) (hub_cost to cost) }
    ensures table { table.new ≡ border_table table.old (length out.old) (hub_cost to cost) }
    ensures sent { out.new ≡ border_buffer table.old out.old (hub_cost to cost) }
{
    hub::puntclover_hub_cost(table, to, cost, out)
}

#[unsafe(no_mangle)]
pub extern "C" fn puntclover_hub_down(table: &mut [u8], to: u32, out: &mut [u8]) -> u32
    ensures answer { result ≡ border_answer table.old (length out.old) (hub_down to) }
    ensures table { table.new ≡ border_table table.old (length out.old) (hub_down to) }
    ensures sent { out.new ≡ border_buffer table.old out.old (hub_down to) }
{
    hub::puntclover_hub_down(table, to, out)
}

#[unsafe(no_mangle)]
pub extern "C" fn puntclover_hub_message(
    table: &mut [u8],
    from: u32,
    bytes: &[u8],
    out: &mut [u8],
) -> u32
    ensures answer { result ≡ border_answer table.old (length out.old) (hub_message from bytes.now) }
    ensures table { table.new ≡ border_table table.old (length out.old) (hub_message from bytes.now) }
    ensures sent { out.new ≡ border_buffer table.old out.old (hub_message from bytes.now) }
{
    hub::puntclover_hub_message(table, from, bytes, out)
}

#[unsafe(no_mangle)]
pub extern "C" fn puntclover_hub_state(table: &[u8]) -> u32
    ensures { result ≡ border_state table.now }
{
    hub::puntclover_hub_state(table)
}

#[unsafe(no_mangle)]
pub extern "C" fn puntclover_hub_distance(table: &[u8], to: u32) -> u32
    ensures { result ≡ border_distance table.now to }
{
    hub::puntclover_hub_distance(table, to)
}

#[unsafe(no_mangle)]
pub extern "C" fn puntclover_hub_feasible(table: &[u8], to: u32) -> u32
    ensures { result ≡ border_feasible table.now to }
{
    hub::puntclover_hub_feasible(table, to)
}

#[unsafe(no_mangle)]
pub extern "C" fn puntclover_hub_successors(table: &[u8], to: u32) -> u32
    ensures { result ≡ border_successors table.now to }
{
    hub::puntclover_hub_successors(table, to)
}

// The cost of the link to a neighbour, 0 where it is down.
#[unsafe(no_mangle)]
pub extern "C" fn puntclover_hub_link(table: &[u8], to: u32) -> u32
    ensures { result ≡ border_link table.now to }
{
    hub::puntclover_hub_link(table, to)
}

// Whether a neighbour's acknowledgment is awaited: 101, else 100.
#[unsafe(no_mangle)]
pub extern "C" fn puntclover_hub_awaits(table: &[u8], to: u32) -> u32
    ensures { result ≡ border_awaits table.now to }
{
    hub::puntclover_hub_awaits(table, to)
}
