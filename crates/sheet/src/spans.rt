// The derived gaps, the three stretches of a service, and the span. Sums are made of numbers: cycles have no `+`, since a sum of any two might not fit.
ghost use Rattle.std.specs.Prelude.{◌≡◌, ◌≤◌};
ghost use Rattle.sheet.specs.Units.{cycles};
ghost use Rattle.sheet.specs.Spans.{read_to_write, write_to_read, write_to_precharge, to_precharge, to_activate, to_column, span};

use crate::accepted::Sheet;
use crate::geometry::Chip;
use crate::units::Cycles;

impl Sheet {
    // From a read to a write.
    pub fn read_to_write(&self) -> Cycles
        ensures { result ≡ cycles (read_to_write self.now) }
    {
        Cycles::new(self.rl.count() + self.ccd.count() + 2 - self.wl.count())
    }

    // From a write to a read.
    pub fn write_to_read(&self) -> Cycles
        ensures { result ≡ cycles (write_to_read self.now) }
    {
        Cycles::new(self.wl.count() + self.burst.count() + self.wtr.count())
    }

    // From a write to a precharge of its bank.
    pub fn write_to_precharge(&self) -> Cycles
        ensures { result ≡ cycles (write_to_precharge self.now) }
    {
        Cycles::new(self.wl.count() + self.burst.count() + self.wr.count())
    }

    // The stretches of a service, together by a rule of the project (docs/DECISIONS.md): until a precharge is lawful, from there until an activate is, and from there until the column command is.
    pub fn stretches(&self) -> (Cycles, Cycles, Cycles)
        ensures until_precharge { result.0 ≡ cycles (to_precharge self.now) }
        ensures until_activate { result.1 ≡ cycles (to_activate self.now) }
        ensures until_column { result.2 ≡ cycles (to_column self.now) }
    {
        let until_precharge = self.ras.max(self.rtp).max(self.write_to_precharge());
        let until_activate = self.rp.max(self.rc).max(self.rrd).max(self.faw);
        let until_column = self
            .rcd
            .max(self.ccd)
            .max(self.read_to_write())
            .max(self.write_to_read());
        (until_precharge, until_activate, until_column)
    }

    // The longest time that one service takes on this chip. It is the same whatever the chip's sizes are.
    pub fn span(&self, chip: &Chip) -> Cycles
        ensures value { result ≡ cycles (span self.now chip.now) }
        ensures at_least { 7 ≤ result.0 }
        ensures at_most { result.0 ≤ 1785 }
    {
        let (until_precharge, until_activate, until_column) = self.stretches();
        Cycles::new(until_precharge.count() + until_activate.count() + until_column.count())
    }
}
