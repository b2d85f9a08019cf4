// What is sent to the chip.
ghost use Rattle.std.specs.Prelude.{◌≡◌, Some};
ghost use Rattle.rulebook.specs.Kinds.{kind_number, kind_of, Decodes};

// The kinds of command. A read or a write is a column command. Idle stands in a trace for a cycle in which nothing is sent.
#[derive(Clone, Copy, Debug, Default, PartialEq, Eq)]
pub enum Kind {
    #[default]
    Idle = 0,
    Activate = 1,
    Precharge = 2,
    Read = 3,
    Write = 4,
}

// One command: its cycle and kind, the place that it names, and the request that it serves.
#[derive(Clone, Copy, Debug, Default, PartialEq, Eq)]
pub struct Command {
    pub cycle: u32,
    pub kind: Kind,
    pub bank: u8,
    pub row: u16,
    pub column: u16,
    pub requester: u8,
    pub number: u32,
}

// A number for which no kind stands.
#[derive(Clone, Copy, Debug, PartialEq, Eq)]
pub struct UnknownKind(pub u8);

impl Kind {
    // The number that stands for the kind in a trace. It has a name and is no `From`: `u8::from` would not say where it stands.
    pub fn number(self) -> u8
        ensures value { result ≡ kind_number self }
        ensures back { kind_of result ≡ Some self }
    {
        self as u8
    }
}

// The kind that the number stands for, if there is one.
impl TryFrom<u8> for Kind {
    type Error = UnknownKind;

    ghost try_from_gives = { Decodes };

    fn try_from(value: u8) -> Result<Kind, UnknownKind> {
        match value {
            0 => Ok(Kind::Idle),
            1 => Ok(Kind::Activate),
            2 => Ok(Kind::Precharge),
            3 => Ok(Kind::Read),
            4 => Ok(Kind::Write),
            _ => Err(UnknownKind(value)),
        }
    }
}
