// The calls that change a network: link up, cost, link down, delivery. Each is done, or answers the lowest refusal that applies,
// which leaves both tables as they came.
ghost use Rattle.std.specs.Prelude.{◌&&◌, ◌≡◌};
ghost use Rattle.ground.specs.Limits.{legal_cost};
ghost use Rattle.ground.specs.Refused.{refused_as, done_of};
ghost use Rattle.rules.specs.Network.{up, cost, down, deliver, bad_ends};
ghost use Rattle.rules.specs.NetworkTable.{network_answer, words_after, bytes_after};
ghost use Rattle.network.specs.FirstRefusals.{ends_refusal, first_refusal};

use events::{happen, tell};
use fitness::{fit, tables};
use ground::is_legal_cost;
use ground::refusals::Refusal;
use unit::calls::Call;
use unit::refusing::link_refusal;

fn are_bad_ends(count: u32, a: u32, b: u32) -> bool
    ensures { result ≡ bad_ends count a b }
{
    if count <= a {
        return true;
    }
    if count <= b {
        return true;
    }
    a == b
}

// Refusals 2 and 3 of a call about two units.
fn check_ends(words: &[u32], queues: &[u8], a: u32, b: u32) -> Result<(), Refusal>
    ensures { refused_as result ≡ ends_refusal words.now queues.now a b }
{
    if !fit::is_fit(words, queues) {
        return Err(Refusal::Unfit);
    }
    if are_bad_ends(words[0], a, b) {
        return Err(Refusal::NoUnit);
    }
    Ok(())
}

fn are_legal_costs(cost_of_a: u32, cost_of_b: u32) -> bool
    ensures { result ≡ (legal_cost cost_of_a && legal_cost cost_of_b) }
{
    is_legal_cost(cost_of_a) && is_legal_cost(cost_of_b)
}

// Refusals 2 to 6 of a call about the link between a and b: whether its costs are legal, and whether it asks for the link.
fn check_first(
    words: &[u32],
    queues: &[u8],
    a: u32,
    b: u32,
    legal: bool,
    asks: bool,
) -> Result<(), Refusal>
    ensures { refused_as result ≡ first_refusal words.now queues.now a b legal asks }
{
    check_ends(words, queues, a, b)?;
    if !legal {
        return Err(Refusal::Cost);
    }
    link_refusal(tables::is_linked(words, a as usize, b as usize), asks)
}

// The link between a and b comes up, at one cost from a to b and another from b to a: an event at each end.
pub fn up(
    words: &mut [u32],
    queues: &mut [u8],
    a: u32,
    b: u32,
    cost_of_a: u32,
    cost_of_b: u32,
) -> Result<(), Refusal>
    ensures answer { done_of result ≡ network_answer words.old queues.old (up a b cost_of_a cost_of_b) }
    ensures words { words.new ≡ words_after words.old queues.old (up a b cost_of_a cost_of_b) }
    ensures queues { queues.new ≡ bytes_after words.old queues.old (up a b cost_of_a cost_of_b) }
{
    let legal = are_legal_costs(cost_of_a, cost_of_b);
    check_first(words, queues, a, b, legal, true)?;
    let call_a = Call::Up {
        to: b,
        cost: cost_of_a,
    };
    let call_b = Call::Up {
        to: a,
        cost: cost_of_b,
    };
    let mut one = tell::nothing();
    let mut two = tell::nothing();
    tell::tell_into(words, a, call_a, &mut one)?;
    tell::tell_into(words, b, call_b, &mut two)?;
    happen::at_both(words, queues, a, one, b, two, false)
}

// The cost from a to its neighbour b changes: an event at a only.
pub fn cost(
    words: &mut [u32],
    queues: &mut [u8],
    a: u32,
    b: u32,
    new_cost: u32,
) -> Result<(), Refusal>
    ensures answer { done_of result ≡ network_answer words.old queues.old (cost a b new_cost) }
    ensures words { words.new ≡ words_after words.old queues.old (cost a b new_cost) }
    ensures queues { queues.new ≡ bytes_after words.old queues.old (cost a b new_cost) }
{
    check_first(words, queues, a, b, is_legal_cost(new_cost), false)?;
    let call = Call::Cost {
        to: b,
        cost: new_cost,
    };
    let mut told = tell::nothing();
    tell::tell_into(words, a, call, &mut told)?;
    happen::at_one(words, queues, b, a, told, false)
}

// The link between a and b goes down: both its queues are emptied, and each end has its event.
pub fn down(words: &mut [u32], queues: &mut [u8], a: u32, b: u32) -> Result<(), Refusal>
    ensures answer { done_of result ≡ network_answer words.old queues.old (down a b) }
    ensures words { words.new ≡ words_after words.old queues.old (down a b) }
    ensures queues { queues.new ≡ bytes_after words.old queues.old (down a b) }
{
    check_first(words, queues, a, b, true, false)?;
    let mut one = tell::nothing();
    let mut two = tell::nothing();
    tell::tell_into(words, a, Call::Down { to: b }, &mut one)?;
    tell::tell_into(words, b, Call::Down { to: a }, &mut two)?;
    happen::at_both(words, queues, a, one, b, two, true)
}

// The first message in the queue from a to b reaches b.
pub fn deliver(words: &mut [u32], queues: &mut [u8], a: u32, b: u32) -> Result<(), Refusal>
    ensures answer { done_of result ≡ network_answer words.old queues.old (deliver a b) }
    ensures words { words.new ≡ words_after words.old queues.old (deliver a b) }
    ensures queues { queues.new ≡ bytes_after words.old queues.old (deliver a b) }
{
    check_first(words, queues, a, b, true, false)?;
    let mut told = tell::nothing();
    tell::tell_first_into(words, queues, a, b, &mut told)?;
    happen::at_one(words, queues, a, b, told, true)
}
