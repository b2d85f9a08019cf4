// What a session has in service.
use policy::Entry;

// A request in service, and the cycle in which the policy gave it.
#[derive(Clone, Copy, Debug, PartialEq, Eq)]
pub struct Service {
    pub entry: Entry,
    pub start: u32,
}

// The stage of the service: nothing is in service, or a request is.
// An enum and no Option: by a rule of the project (docs/DECISIONS.md) the engine matches its own service stage and steps in place.
#[derive(Clone, Copy, Debug, PartialEq, Eq)]
pub enum Stage {
    Idle,
    Serving(Service),
}

// How the bank of the request in service stands to it: open at its row, open at another row, or closed.
#[derive(Clone, Copy, Debug, PartialEq, Eq)]
pub enum RowState {
    Here,
    Other,
    Closed,
}
