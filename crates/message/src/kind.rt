// The three kinds of message, and the numbers that its bytes have for them.
ghost use Rattle.std.specs.Prelude.{◌≡◌, ◌%◌, eqb, leb};
ghost use Rattle.rules.specs.Message.{update};
ghost use Rattle.message.specs.Kind.{kind_number, Decodes};

use ground::refusals::Refusal;

#[derive(Clone, Copy, Debug, PartialEq, Eq)]
pub enum Kind {
    Acknowledgment,
    Update,
    // An update that acknowledges one of the receiver's.
    Both,
}

impl Kind {
    // The number in a message's bytes.
    pub fn number(self) -> u32
        ensures { result ≡ kind_number self }
    {
        match self {
            Kind::Acknowledgment => 1,
            Kind::Update => 2,
            Kind::Both => 3,
        }
    }

    // Whether it acknowledges an update.
    pub fn acknowledges(self) -> bool
        ensures { result ≡ eqb (kind_number self % 2) 1 }
    {
        self != Kind::Update
    }

    // Whether it holds an update, which is owed an acknowledgment.
    pub fn updates(self) -> bool
        ensures { result ≡ leb update (kind_number self) }
    {
        self != Kind::Acknowledgment
    }
}

impl TryFrom<u32> for Kind {
    type Error = Refusal;

    ghost try_from_gives = { Decodes };

    fn try_from(number: u32) -> Result<Self, Refusal> {
        match number {
            1 => Ok(Kind::Acknowledgment),
            2 => Ok(Kind::Update),
            3 => Ok(Kind::Both),
            _ => Err(Refusal::Message),
        }
    }
}
