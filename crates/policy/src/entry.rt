// Requests, and requests that wait.
ghost use Rattle.std.specs.Prelude.{◌≡◌};
ghost use Rattle.policy.specs.Due.{due_by};

use rulebook::command::Kind;

// A request as it comes: any content at all. Its kind is a number, since a narrower type would ask more of callers (docs/DECISIONS.md); a session takes it or refuses it.
#[derive(Clone, Copy, Debug, PartialEq, Eq)]
pub struct Request {
    pub requester: u8,
    pub kind: u8,
    pub bank: u8,
    pub row: u16,
    pub column: u16,
}

// A request that waits for its service or is in service, with the cycle by which it is served. The number is how many requests of its requester came before it.
#[derive(Clone, Copy, Debug, Default, PartialEq, Eq)]
pub struct Entry {
    pub requester: u8,
    pub number: u32,
    pub kind: Kind,
    pub bank: u8,
    pub row: u16,
    pub column: u16,
    pub deadline: u64,
}

impl Entry {
    // The entry with this deadline in place of its own.
    pub(crate) fn due(self, deadline: u64) -> Entry
        ensures { result ≡ due_by self deadline }
    {
        Entry { deadline, ..self }
    }
}
