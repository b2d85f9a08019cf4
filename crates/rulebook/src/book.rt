// The compact record of a trace.
ghost use Rattle.std.specs.Prelude.{◌≡◌, ℕ, ◌<◌, false, ◌≢◌, List, [], OnOk, slice_index_or};
ghost use Rattle.rulebook.specs.declared.command.Command.{Command};
ghost use Rattle.rulebook.specs.declared.command.Kind.TheVariants.{Activate, Precharge, Read, Write};
ghost use Rattle.rulebook.specs.Book.{open_row};
ghost use Rattle.rulebook.specs.Record.{no_book, no_bank, book_with, open_row_of};
ghost use Rattle.rulebook.specs.Answer.{latest_column, against, first_broken, activate_rules, precharge_rules, read_rules, write_rules, answer_by, answer_to, book_after, Kept};
ghost use Rattle.rulebook.specs.Summary.{Summarises, Judges};

use crate::bank::{BankRecord, Recent};
use crate::command::{Command, Kind};
use crate::gap::{newest_elsewhere, too_soon};
use crate::rule::Rule;
use sheet::{Board, Cycles, Sheet};

// What the rules still need of a trace: its latest cycle, the record of each bank, the latest read and write of any bank, and the last four activates.
// Sixteen records in place: by a rule of the project (docs/DECISIONS.md) nothing is allocated.
#[derive(Drop)]
pub struct Book {
    latest: Option<u32>,
    banks: [BankRecord; 16],
    read: Option<u32>,
    write: Option<u32>,
    recent: Recent,
}

impl Book {
    // The record of a trace in which nothing has been sent yet.
    pub fn new() -> Book
        ensures value { result ≡ no_book }
        ensures summary { Summarises [] result }
    {
        Book {
            latest: None,
            banks: [BankRecord::default(); 16],
            read: None,
            write: None,
            recent: Recent::default(),
        }
    }

    // Takes the command in, or answers the smallest rule that it breaks and changes nothing.
    pub fn admit(&mut self, board: &Board, command: Command) -> Result<(), Rule>
        ensures answer { result ≡ answer_to board.now.sheet board.now.chip self.old command }
        ensures book { self.new ≡ book_after board.now.sheet board.now.chip self.old command }
        ensures kept { Kept result self.old self.new }
        ensures others { (i : ℕ) → i ≢ command.bank → slice_index_or self.new.banks i no_bank ≡ slice_index_or self.old.banks i no_bank }
        ensures judges { Judges board.now.sheet board.now.chip self.old command result self.new }
    {
        self.decide(board, command)
    }

    // The row at which the bank is open; none where it is closed, and for a bank of 16 or more.
    pub fn open_row(&self, bank: u8) -> Option<u16>
        ensures value { result ≡ open_row_of self.now bank }
        ensures history { (h : List Command) → Summarises h self.now → bank < 16 → result ≡ open_row bank h }
    {
        self.banks.get(usize::from(bank))?.open_row
    }

    // The answer to a command and the record after it, as the record alone tells them; a function of its own, so that a wrong decision is refused here and the law is added by its caller.
    fn decide(&mut self, board: &Board, command: Command) -> Result<(), Rule>
        ensures answer { result ≡ answer_to board.now.sheet board.now.chip self.old command }
        ensures book { self.new ≡ book_after board.now.sheet board.now.chip self.old command }
        ensures kept { Kept result self.old self.new }
        ensures others { (i : ℕ) → i ≢ command.bank → slice_index_or self.new.banks i no_bank ≡ slice_index_or self.old.banks i no_bank }
    {
        self.check(board, command)?;
        self.take_in(command);
        Ok(())
    }

    // Notes a command to one of the sixteen banks. Of the banks' records only that bank's changes.
    fn take_in(&mut self, command: Command)
        requires { command.bank < 16 }
        ensures { self.new ≡ book_with self.old command }
    {
        self.latest = Some(command.cycle);
        self.banks[usize::from(command.bank)].note(command);
        match command.kind {
            Kind::Activate => self.recent.note(command.cycle),
            Kind::Read => self.read = Some(command.cycle),
            Kind::Write => self.write = Some(command.cycle),
            Kind::Idle | Kind::Precharge => {}
        }
    }

    // Refused by the smallest rule that the command breaks, if it breaks one.
    fn check(&self, board: &Board, command: Command) -> Result<(), Rule>
        ensures answer { result ≡ answer_to board.now.sheet board.now.chip self.now command }
        ensures inside { OnOk result (command.bank < 16) }
    {
        if too_soon(self.latest, Cycles::new(1), command.cycle) {
            return Err(Rule::CyclesRise);
        }
        if !board.chip.holds(command.bank, command.row, command.column) {
            return Err(Rule::InsideChip);
        }
        let bank = self.banks[usize::from(command.bank)];
        match command.kind {
            Kind::Idle => Ok(()),
            Kind::Activate => self.check_activate(&board.sheet, bank, command),
            Kind::Precharge => self.check_precharge(&board.sheet, bank, command),
            Kind::Read | Kind::Write => self.check_column(&board.sheet, bank, command),
        }
    }

    // One function for each kind of command, so that a command is tested by the rules that bind it and by no other.
    // Refused by the smallest rule that an activate inside the chip breaks, if it breaks one; the bank's record is given.
    fn check_activate(&self, sheet: &Sheet, bank: BankRecord, command: Command) -> Result<(), Rule>
        requires { command.kind ≡ Activate }
        ensures { result ≡ answer_by (first_broken (against false sheet.now self.now bank command) activate_rules) }
    {
        if bank.open_row.is_some() {
            return Err(Rule::ActivateClosed);
        }
        if too_soon(bank.activate, sheet.rc, command.cycle) {
            return Err(Rule::ActivateActivateSame);
        }
        if too_soon(
            newest_elsewhere(self.recent.newest, bank.activate),
            sheet.rrd,
            command.cycle,
        ) {
            return Err(Rule::ActivateActivateOther);
        }
        if too_soon(bank.precharge, sheet.rp, command.cycle) {
            return Err(Rule::PrechargeActivate);
        }
        if too_soon(self.recent.fourth, sheet.faw, command.cycle) {
            return Err(Rule::FourActivates);
        }
        Ok(())
    }

    // Refused by the smallest rule that a precharge inside the chip breaks, if it breaks one; the bank's record is given.
    fn check_precharge(&self, sheet: &Sheet, bank: BankRecord, command: Command) -> Result<(), Rule>
        requires { command.kind ≡ Precharge }
        ensures { result ≡ answer_by (first_broken (against false sheet.now self.now bank command) precharge_rules) }
    {
        if bank.open_row.is_none() {
            return Err(Rule::PrechargeOpen);
        }
        if too_soon(bank.activate, sheet.ras, command.cycle) {
            return Err(Rule::ActivatePrecharge);
        }
        if too_soon(bank.read, sheet.rtp, command.cycle) {
            return Err(Rule::ReadPrecharge);
        }
        if too_soon(bank.write, sheet.write_to_precharge(), command.cycle) {
            return Err(Rule::WritePrecharge);
        }
        Ok(())
    }

    // Refused by the smallest rule that a read or a write inside the chip breaks, if it breaks one; the bank's record is given.
    fn check_column(&self, sheet: &Sheet, bank: BankRecord, command: Command) -> Result<(), Rule>
        ensures read { command.kind ≡ Read → result ≡ answer_by (first_broken (against false sheet.now self.now bank command) read_rules) }
        ensures write { command.kind ≡ Write → result ≡ answer_by (first_broken (against false sheet.now self.now bank command) write_rules) }
    {
        if bank.open_row != Some(command.row) {
            return Err(Rule::ColumnOpen);
        }
        if too_soon(bank.activate, sheet.rcd, command.cycle) {
            return Err(Rule::ActivateColumn);
        }
        if too_soon(self.latest_column(command.kind), sheet.ccd, command.cycle) {
            return Err(Rule::ColumnColumn);
        }
        match command.kind {
            Kind::Read if too_soon(self.write, sheet.write_to_read(), command.cycle) => {
                Err(Rule::WriteRead)
            }
            Kind::Write if too_soon(self.read, sheet.read_to_write(), command.cycle) => {
                Err(Rule::ReadWrite)
            }
            _ => Ok(()),
        }
    }

    // The latest column command of a kind, in any bank.
    fn latest_column(&self, kind: Kind) -> Option<u32>
        ensures { result ≡ latest_column self.now kind }
    {
        match kind {
            Kind::Idle | Kind::Activate | Kind::Precharge => None,
            Kind::Read => self.read,
            Kind::Write => self.write,
        }
    }
}
