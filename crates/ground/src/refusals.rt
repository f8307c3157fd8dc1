// Why a call is refused: of all that apply, the one with the lowest number is given, and what was lent stays as it came.
ghost use Rattle.std.specs.Prelude.{◌≡◌};
ghost use Rattle.ground.specs.Refused.{number_of};

#[derive(Clone, Copy, Debug, PartialEq, Eq)]
pub enum Refusal {
    // The number of units is not one that a network has.
    UnitCount,
    // A table is not fit.
    Unfit,
    // No unit has this number, or both ends are one unit.
    NoUnit,
    // Not a link's cost.
    Cost,
    // The link that is asked for is up.
    LinkUp,
    // The link is not up.
    LinkDown,
    // A buffer is too short.
    Room,
    // The queue is empty.
    NoMessage,
    // Against the layout of a message, or not from the neighbour that it came by.
    Message,
    // An acknowledgment that is not awaited.
    NotAwaited,
    // An entry that changes nothing in the copy.
    ChangesNothing,
    // The changed copy is not a tree.
    NotATree,
    // A queue would hold more messages than it has room for.
    QueueFull,
    // No place for a frame is free.
    MeterFull,
    // More bytes would have entered than a meter counts.
    TooManyBytes,
    // A frame's size, its place, or the unit that it is to move to.
    Frame,
}

impl Refusal {
    // The number that the tables of refusals have for it (docs/FIRMWARE.md).
    pub fn number(self) -> u32
        ensures { result ≡ number_of self }
    {
        match self {
            Refusal::UnitCount => 1,
            Refusal::Unfit => 2,
            Refusal::NoUnit => 3,
            Refusal::Cost => 4,
            Refusal::LinkUp => 5,
            Refusal::LinkDown => 6,
            Refusal::Room => 7,
            Refusal::NoMessage => 8,
            Refusal::Message => 9,
            Refusal::NotAwaited => 10,
            Refusal::ChangesNothing => 11,
            Refusal::NotATree => 12,
            Refusal::QueueFull => 13,
            Refusal::MeterFull => 14,
            Refusal::TooManyBytes => 15,
            Refusal::Frame => 16,
        }
    }
}
