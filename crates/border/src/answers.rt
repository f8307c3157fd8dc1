// The numbers that C is given for answers: a refusal's, and 100 plus a value for what is not refused.
ghost use Rattle.std.specs.Prelude.{◌≡◌, ◌≤◌, ◌⊎◌, IfOk};
ghost use Rattle.ground.specs.Limits.{firmware_room, longest, far, highest_size, entered_limit};
ghost use Rattle.ground.specs.Refused.{answer_of, done_of, test_of, reached_of};
ghost use Rattle.meter.specs.Fates.{fate_of, HeldInside};

use ground::refusals::Refusal;
use ground::{ANSWERED, FAR};
use meter::calls::{DELIVERED, DROPPED, Fate};

// Of a call that has no value.
pub(crate) fn done(answer: Result<(), Refusal>) -> u32
    ensures { result ≡ done_of answer }
{
    match answer {
        Ok(()) => ANSWERED,
        Err(refusal) => refusal.number(),
    }
}

// Of a test: 101 for yes, 100 for no.
pub(crate) fn test(answer: Result<bool, Refusal>) -> u32
    ensures { result ≡ test_of answer }
{
    match answer {
        Ok(holds) => ANSWERED + u32::from(holds),
        Err(refusal) => refusal.number(),
    }
}

// Of bytes or entries.
pub(crate) fn length(answer: Result<usize, Refusal>) -> u32
    requires { IfOk answer (λ length. length ≤ firmware_room) }
    ensures { result ≡ answer_of answer }
{
    match answer {
        Ok(length) => ANSWERED + length as u32,
        Err(refusal) => refusal.number(),
    }
}

// Of a distance, the largest number for unreachable; of other values that are no longer than one.
pub(crate) fn reached(answer: Result<u32, Refusal>) -> u32
    requires { IfOk answer (λ distance. (distance ≤ longest) ⊎ (distance ≡ far)) }
    ensures { result ≡ reached_of answer }
{
    match answer {
        Ok(FAR) => FAR,
        Ok(distance) => ANSWERED + distance,
        Err(refusal) => refusal.number(),
    }
}

// Of a frame's field.
pub(crate) fn field(answer: Result<u32, Refusal>) -> u32
    requires { IfOk answer (λ field. field ≤ highest_size) }
    ensures { result ≡ answer_of answer }
{
    match answer {
        Ok(field) => ANSWERED + field,
        Err(refusal) => refusal.number(),
    }
}

// Of a meter's figure, which may pass 32 bits.
pub(crate) fn figure(answer: Result<u64, Refusal>) -> u64
    requires { IfOk answer (λ figure. figure ≤ entered_limit) }
    ensures { result ≡ answer_of answer }
{
    match answer {
        Ok(figure) => u64::from(ANSWERED) + figure,
        Err(refusal) => u64::from(refusal.number()),
    }
}

// Of what became of a frame: 100 plus its place, 200 where it is delivered, 300 where it is dropped.
pub(crate) fn fate(answer: Result<Fate, Refusal>) -> u32
    requires { IfOk answer HeldInside }
    ensures { result ≡ fate_of answer }
{
    match answer {
        Ok(Fate::Held(place)) => ANSWERED + place,
        Ok(Fate::Delivered) => DELIVERED,
        Ok(Fate::Dropped) => DROPPED,
        Err(refusal) => refusal.number(),
    }
}
