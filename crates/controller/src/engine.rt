// The engine: what is in service, and which command it sends in a cycle.
ghost use Rattle.std.specs.Prelude.{◌≡◌, []};
ghost use Rattle.rulebook.specs.Summary.{Summarises};
ghost use Rattle.rulebook.specs.Answer.{answer_to, book_after};
ghost use Rattle.machine.specs.Machine.{activate_for as activate_of, precharge_for as precharge_of, column_for as column_of};
ghost use Rattle.controller.specs.declared.stage.Stage.TheVariants.{Idle as Nothing};
ghost use Rattle.controller.specs.Engine.{state_of, if_lawful, sent as sent_by, engine_after};

use crate::stage::{RowState, Stage};
use policy::Entry;
use rulebook::{Book, Command, Kind};
use sheet::Board;

// The stage of the service, and of the trace what the rules still need.
#[derive(Drop)]
pub(crate) struct Engine {
    pub(crate) stage: Stage,
    book: Book,
}

impl Engine {
    // Nothing in service and nothing sent.
    pub(crate) fn new() -> Engine
        ensures stage { result.stage ≡ Nothing }
        ensures summary { Summarises [] result.book }
    {
        Engine {
            stage: Stage::Idle,
            book: Book::new(),
        }
    }

    // The command of this cycle, if one goes out: what follows from the stage and the state of its bank, once it is lawful, and a held column command at its deadline only. A column command ends the service. Whether it is held is handed in, since the engine knows no policy.
    pub(crate) fn step(&mut self, board: &Board, holds: bool, clock: u32) -> Option<Command>
        ensures command { result ≡ sent_by board.now.sheet board.now.chip holds clock self.old }
        ensures left { self.new ≡ engine_after board.now.sheet board.now.chip holds clock self.old }
    {
        match (self.stage, self.row_state()) {
            (Stage::Idle, _) => None,
            (Stage::Serving(service), RowState::Here) => {
                if holds && u64::from(clock) != service.entry.deadline {
                    return None;
                }
                let command = self.send(board, column_for(clock, service.entry))?;
                self.stage = Stage::Idle;
                Some(command)
            }
            (Stage::Serving(service), RowState::Other) => {
                self.send(board, precharge_for(clock, service.entry))
            }
            (Stage::Serving(service), RowState::Closed) => {
                self.send(board, activate_for(clock, service.entry))
            }
        }
    }

    // How the bank of what is in service stands to it; closed where nothing is, so that one match tells stage and bank together.
    fn row_state(&self) -> RowState
        ensures { result ≡ state_of self.now.stage self.now.book }
    {
        match self.stage {
            Stage::Idle => RowState::Closed,
            Stage::Serving(service) => match self.book.open_row(service.entry.bank) {
                None => RowState::Closed,
                Some(row) if row == service.entry.row => RowState::Here,
                Some(_) => RowState::Other,
            },
        }
    }

    // Sends the command where it breaks no rule.
    fn send(&mut self, board: &Board, command: Command) -> Option<Command>
        ensures command { result ≡ if_lawful (answer_to board.now.sheet board.now.chip self.old.book command) command }
        ensures book { self.new.book ≡ book_after board.now.sheet board.now.chip self.old.book command }
        ensures stage { self.new.stage ≡ self.old.stage }
    {
        self.book.admit(board, command).ok()?;
        Some(command)
    }
}

// The entry's column command: the read or write that it asks for.
fn column_for(clock: u32, entry: Entry) -> Command
    ensures { result ≡ column_of clock entry }
{
    Command {
        cycle: clock,
        kind: entry.kind,
        bank: entry.bank,
        row: entry.row,
        column: entry.column,
        requester: entry.requester,
        number: entry.number,
    }
}

// The precharge of its bank.
fn precharge_for(clock: u32, entry: Entry) -> Command
    ensures { result ≡ precharge_of clock entry }
{
    Command {
        kind: Kind::Precharge,
        row: 0,
        column: 0,
        ..column_for(clock, entry)
    }
}

// The activate of its row.
fn activate_for(clock: u32, entry: Entry) -> Command
    ensures { result ≡ activate_of clock entry }
{
    Command {
        kind: Kind::Activate,
        column: 0,
        ..column_for(clock, entry)
    }
}
