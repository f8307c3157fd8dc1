// A whole network and the tracer, as the crate border has them.
ghost use Rattle.std.specs.Prelude.{◌≡◌};
ghost use Rattle.rules.specs.Hub.{hub_answer};
ghost use Rattle.rules.specs.Network.{up, cost, down, deliver};
ghost use Rattle.rules.specs.NetworkTable.{state_answer, distance_between, feasible_between, successors_between, link_between, awaits_between};
ghost use Rattle.border.specs.NetworkBytes.{border_call, border_units, border_queues, border_fresh_refusal, fresh_units_bytes, fresh_queues_bytes, asked_of_units, border_trace, border_path};

use border::networks;

#[unsafe(no_mangle)]
pub extern "C" fn puntclover_network_fresh(count: u32, units: &mut [u8], queues: &mut [u8]) -> u32
    ensures answer { result ≡ hub_answer (border_fresh_refusal units.old queues.old count) 0 }
    ensures units { units.new ≡ fresh_units_bytes units.old queues.old count }
    ensures queues { queues.new ≡ fresh_queues_bytes units.old queues.old count }
{
    networks::puntclover_network_fresh(count, units, queues)
}

#[unsafe(no_mangle)]
pub extern "C" fn puntclover_network_up(
    units: &mut [u8],
    queues: &mut [u8],
    a: u32,
    b: u32,
    cost_of_a: u32,
    cost_of_b: u32,
) -> u32
    ensures answer { result ≡ border_call units.old queues.old (up a b cost_of_a cost_of_b) }
    ensures units { units.new ≡ border_units units.old queues.old (up a b cost_of_a cost_of_b) }
    ensures queues { queues.new ≡ border_queues units.old queues.old (up a b cost_of_a cost_of_b) }
{
    networks::puntclover_network_up(units, queues, a, b, cost_of_a, cost_of_b)
}

#[unsafe(no_mangle)]
pub extern "C" fn puntclover_network_cost(
    units: &mut [u8],
    queues: &mut [u8],
    a: u32,
    b: u32,
    new_cost: u32,
) -> u32
    ensures answer { result ≡ border_call units.old queues.old (cost a b new_cost) }
    ensures units { units.new ≡ border_units units.old queues.old (cost a b new_cost) }
    ensures queues { queues.new ≡ border_queues units.old queues.old (cost a b new_cost) }
{
    networks::puntclover_network_cost(units, queues, a, b, new_cost)
}

#[unsafe(no_mangle)]
pub extern "C" fn puntclover_network_down(
    units: &mut [u8],
    queues: &mut [u8],
    a: u32,
    b: u32,
) -> u32
    ensures answer { result ≡ border_call units.old queues.old (down a b) }
    ensures units { units.new ≡ border_units units.old queues.old (down a b) }
    ensures queues { queues.new ≡ border_queues units.old queues.old (down a b) }
{
    networks::puntclover_network_down(units, queues, a, b)
}

#[unsafe(no_mangle)]
pub extern "C" fn puntclover_network_deliver(
    units: &mut [u8],
    queues: &mut [u8],
    a: u32,
    b: u32,
) -> u32
    ensures answer { result ≡ border_call units.old queues.old (deliver a b) }
    ensures units { units.new ≡ border_units units.old queues.old (deliver a b) }
    ensures queues { queues.new ≡ border_queues units.old queues.old (deliver a b) }
{
    networks::puntclover_network_deliver(units, queues, a, b)
}

#[unsafe(no_mangle)]
pub extern "C" fn puntclover_network_state(units: &[u8], queues: &[u8], i: u32) -> u32
    ensures { result ≡ asked_of_units units.now (λ words. state_answer words queues.now i) }
{
    networks::puntclover_network_state(units, queues, i)
}

#[unsafe(no_mangle)]
pub extern "C" fn puntclover_network_distance(units: &[u8], queues: &[u8], i: u32, j: u32) -> u32
    ensures { result ≡ asked_of_units units.now (λ words. distance_between words queues.now i j) }
{
    networks::puntclover_network_distance(units, queues, i, j)
}

#[unsafe(no_mangle)]
pub extern "C" fn puntclover_network_feasible(units: &[u8], queues: &[u8], i: u32, j: u32) -> u32
    ensures { result ≡ asked_of_units units.now (λ words. feasible_between words queues.now i j) }
{
    networks::puntclover_network_feasible(units, queues, i, j)
}

#[unsafe(no_mangle)]
pub extern "C" fn puntclover_network_successors(units: &[u8], queues: &[u8], i: u32, j: u32) -> u32
    ensures { result ≡ asked_of_units units.now (λ words. successors_between words queues.now i j) }
{
    networks::puntclover_network_successors(units, queues, i, j)
}

// The cost of the link from i to j, 0 where it is down.
#[unsafe(no_mangle)]
pub extern "C" fn puntclover_network_link(units: &[u8], queues: &[u8], i: u32, j: u32) -> u32
    ensures { result ≡ asked_of_units units.now (λ words. link_between words queues.now i j) }
{
    networks::puntclover_network_link(units, queues, i, j)
}

// Whether unit i awaits the acknowledgment of unit j: 101, else 100.
#[unsafe(no_mangle)]
pub extern "C" fn puntclover_network_awaits(units: &[u8], queues: &[u8], i: u32, j: u32) -> u32
    ensures { result ≡ asked_of_units units.now (λ words. awaits_between words queues.now i j) }
{
    networks::puntclover_network_awaits(units, queues, i, j)
}

// Follows successors, and lays the units met into the path.
#[unsafe(no_mangle)]
pub extern "C" fn puntclover_network_trace(
    units: &[u8],
    queues: &[u8],
    start: u32,
    destination: u32,
    choices: &[u8],
    path: &mut [u8],
) -> u32
    ensures answer { result ≡ border_trace units.now queues.now start destination choices.now path.old }
    ensures path { path.new ≡ border_path units.now queues.now start destination choices.now path.old }
{
    networks::puntclover_network_trace(units, queues, start, destination, choices, path)
}
