// The messages of an event, laid into the lent buffer one after the other.
ghost use Rattle.std.specs.Prelude.{not, ◌&&◌, ◌||◌, [], ◌≡◌, ◌+◌, ◌≤◌, ◌<◌, eqb, length, take, unwrap_or};
ghost use Rattle.ground.specs.Rows.{laid_after};
ghost use Rattle.std.specs.Prelude.{if◌then◌else◌};
ghost use Rattle.ground.specs.Limits.{unit_limit, change_base, firmware_room};
ghost use Rattle.rules.specs.Message.{change as changeTo, body_for, differences as differencesOf};
ghost use Rattle.state.specs.Holding.{unit_of};
ghost use Rattle.unit.specs.Sending.{Small, listed, kind_for, number_for, bytes_to, Sendable, SendableAll, sent_bytes};

use ground::{CHANGE_BASE, REMOVED, UNITS};
use message::kind::Kind;
use message::writer;
use state::held::Held;

// Changes of a tree, one number each, and zeros after the last.
#[derive(Clone, Copy)]
pub struct Changes {
    pub number: usize,
    pub list: [u32; UNITS],
}

// The number for a change of unit j to an entry: the entry's head and cost, or the mark of a removed entry.
fn change(j: usize, entry: u32) -> u32
    requires { (j < unit_limit) × (entry < change_base) }
    ensures { result ≡ changeTo j (body_for entry) }
{
    let body = if entry == 0 { REMOVED } else { entry };
    (j as u32) * CHANGE_BASE + body
}

// The differences between two trees, rising.
fn differences(count: usize, old: [u32; UNITS], new: [u32; UNITS]) -> Changes
    requires { (count ≤ unit_limit) × Small count new }
    ensures { result ≡ listed (differencesOf count old new) }
{
    let mut number = 0;
    let mut list = [0u32; UNITS];
    for j in 0..count {
        if old[j] != new[j] {
            list[number] = change(j, new[j]);
            number += 1;
        }
    }
    Changes { number, list }
}

// Whether a neighbour is sent an update: its link is up, and the tree changed or the link is new.
fn is_sent(cost: u32, changed: bool, new: bool) -> bool
    ensures { result ≡ not (eqb cost 0) && (changed || new) }
{
    cost != 0 && (changed || new)
}

// The kind of the message to a neighbour, if there is one.
fn kind_for(sent: bool, owed: bool) -> Option<Kind>
    ensures { number_for result ≡ kind_for sent owed }
{
    match (sent, owed) {
        (true, true) => Some(Kind::Both),
        (true, false) => Some(Kind::Update),
        (false, true) => Some(Kind::Acknowledgment),
        (false, false) => None,
    }
}

// The changes in the message to a neighbour: all of the tree for a new one, none without an update.
fn changes_for(sent: bool, new: bool, whole: Changes, some: Changes) -> Changes
    ensures { result ≡ (if sent then (if new then whole else some) else listed []) }
{
    if !sent {
        return Changes {
            number: 0,
            list: [0u32; UNITS],
        };
    }
    if new { whole } else { some }
}

// The message to neighbour k after the bytes used so far: its number, then the message. Answers the bytes used then.
fn lay_one(
    count: usize,
    me: usize,
    k: usize,
    kind: Option<Kind>,
    changes: &[u32],
    out: &mut [u8],
    used: usize,
) -> usize
    requires { Sendable count me k (number_for kind) changes.now (length out.old) used }
    ensures answer { result ≡ used + length (bytes_to k (number_for kind) me changes.now) }
    ensures laid { out.new ≡ laid_after used (bytes_to k (number_for kind) me changes.now) out.old }
{
    let Some(kind) = kind else {
        return used;
    };
    out[used] = (k % 256) as u8;
    match writer::write(
        count as u32,
        kind.number(),
        me as u32,
        changes,
        out,
        used + 1,
    ) {
        Ok(bytes) => used + 1 + bytes,
        Err(_) => used,
    }
}

// The messages to all neighbours, rising. Answers the bytes used.
pub(crate) fn send(
    unit: Held,
    tree: [u32; UNITS],
    changed: bool,
    new: Option<usize>,
    owed: Option<usize>,
    out: &mut [u8],
) -> usize
    requires { SendableAll unit tree changed (unwrap_or owed unit.count) (length out.old) }
    ensures answer { result ≡ length (sent_bytes (unit_of unit) (take unit.count tree) (unwrap_or new unit.count) (unwrap_or owed unit.count)) }
    ensures short { result ≤ firmware_room }
    ensures laid { out.new ≡ laid_after 0 (sent_bytes (unit_of unit) (take unit.count tree) (unwrap_or new unit.count) (unwrap_or owed unit.count)) out.old }
{
    let count = unit.count;
    let me = unit.me;
    let costs = unit.costs;
    let old = unit.tree;
    let some = differences(count, old, tree);
    let whole = differences(count, [0u32; UNITS], tree);
    let mut used = 0;
    for k in 0..count {
        let is_new = new == Some(k);
        let sent = is_sent(costs[k], changed, is_new);
        let changes = changes_for(sent, is_new, whole, some);
        let number = changes.number;
        let list = changes.list;
        let kind = kind_for(sent, owed == Some(k));
        used = lay_one(count, me, k, kind, &list[..number], out, used);
    }
    used
}
