// What is kept of one bank, and of the last four activates of the chip. What never happened is absent.
ghost use Rattle.std.specs.Prelude.{◌≡◌};
ghost use Rattle.rulebook.specs.Record.{bank_after, recent_with};

use crate::command::{Command, Kind};

// The row at which a bank is open, and the cycles of its latest activate, precharge, read and write. Its default is a closed bank to which nothing was ever sent.
#[derive(Clone, Copy, Debug, Default, PartialEq, Eq)]
pub struct BankRecord {
    pub open_row: Option<u16>,
    pub activate: Option<u32>,
    pub precharge: Option<u32>,
    pub read: Option<u32>,
    pub write: Option<u32>,
}

impl BankRecord {
    // Notes a command that was sent to the bank.
    pub fn note(&mut self, command: Command)
        ensures { self.new ≡ bank_after self.old command }
    {
        match command.kind {
            Kind::Idle => {}
            Kind::Activate => {
                self.open_row = Some(command.row);
                self.activate = Some(command.cycle);
            }
            Kind::Precharge => {
                self.open_row = None;
                self.precharge = Some(command.cycle);
            }
            Kind::Read => self.read = Some(command.cycle),
            Kind::Write => self.write = Some(command.cycle),
        }
    }
}

// The cycles of the last four activates, the newest first; by default none.
// Four names and no array: the rules speak of the newest and the fourth, and a fixed shift suits the logic that is generated.
#[derive(Clone, Copy, Debug, Default, PartialEq, Eq)]
pub struct Recent {
    pub newest: Option<u32>,
    pub second: Option<u32>,
    pub third: Option<u32>,
    pub fourth: Option<u32>,
}

impl Recent {
    // Notes one more activate, and lets the oldest of the four go.
    pub fn note(&mut self, cycle: u32)
        ensures { self.new ≡ recent_with self.old cycle }
    {
        *self = Recent {
            newest: Some(cycle),
            second: self.newest,
            third: self.second,
            fourth: self.third,
        };
    }
}
