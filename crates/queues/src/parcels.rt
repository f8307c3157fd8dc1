// The messages of an event, from the buffer where `unit` laid them to the queues: a parcel for each neighbour that is sent
// one, its number and then the message, neighbours rising.
ghost use Rattle.std.specs.Prelude.{not, ◌&&◌, ◌≡◌, ◌+◌, ◌-◌, ◌≤◌, eqb, length};
ghost use Rattle.std.specs.Prelude.{if◌then◌else◌};
ghost use Rattle.ground.specs.Limits.{queue_room};
ghost use Rattle.rules.specs.Tables.{part};
ghost use Rattle.queues.specs.Parcels.{parcel_at, has_room, sent_to};
ghost use Rattle.queues.specs.Queue.{queue_of, with_bytes, held_in, appended_of};

use crate::queue;
use ground::{MESSAGE_ROOM, QUEUE_ROOM};

// The bytes of the parcel to unit k at a place of the buffer: 0 where the next parcel is not for k or not whole.
fn parcel_at(sent: &[u8], used: usize, k: usize, place: usize) -> usize
    ensures { result ≡ parcel_at sent.now used k place }
{
    if sent.len() < used {
        return 0;
    }
    if used < 5 {
        return 0;
    }
    if used - 5 < place {
        return 0;
    }
    let parcel = 5 + 4 * (sent[place + 4] as usize);
    if used - place < parcel {
        return 0;
    }
    if 1 + MESSAGE_ROOM < parcel {
        return 0;
    }
    if sent[place] as usize != k {
        return 0;
    }
    parcel
}

// Whether a parcel from i to k finds its queue full.
fn is_full(queues: &[u8], i: usize, k: usize, parcel: usize) -> bool
    ensures { result ≡ (not (eqb parcel 0) && eqb (held_in (queue_of queues.now i k)) queue_room) }
{
    if parcel == 0 {
        return false;
    }
    let queue = queue::load(queues, i, k);
    queue::held(&queue) == QUEUE_ROOM
}

// Whether every message of unit i's event finds room in its queue.
pub fn has_room(queues: &[u8], count: usize, i: usize, sent: &[u8], used: usize) -> bool
    ensures { result ≡ has_room queues.now count i sent.now used }
{
    let mut place = 0;
    for k in 0..count {
        let parcel = parcel_at(sent, used, k, place);
        if is_full(queues, i, k, parcel) {
            return false;
        }
        place += parcel;
    }
    true
}

// The message of one parcel, put at the end of the queue from i to k.
fn send_one(queues: &mut [u8], i: usize, k: usize, sent: &[u8], place: usize, parcel: usize)
    requires { place + parcel ≤ length sent.now }
    ensures { queues.new ≡ (if eqb parcel 0 then queues.old else with_bytes queues.old i k (appended_of (queue_of queues.old i k) (part sent.now (place + 1) (parcel - 1)))) }
{
    if parcel == 0 {
        return;
    }
    let queue = queue::load(queues, i, k);
    let after = queue::appended(queue, &sent[place + 1..place + parcel]);
    queue::put(queues, i, k, after);
}

// The messages of unit i's event, each put at the end of its queue.
pub fn send(queues: &mut [u8], count: usize, i: usize, sent: &[u8], used: usize)
    ensures { queues.new ≡ sent_to queues.old i sent.now used count }
{
    let mut place = 0;
    for k in 0..count {
        let parcel = parcel_at(sent, used, k, place);
        send_one(queues, i, k, sent, place, parcel);
        place += parcel;
    }
}
