// The machine and its promises, one function for each, so that each has a contract to be named by. Nothing runs here: each contract is a theorem about every chain of offers and ticks, refusals included, for every accepted sheet, chip, last cycle and policy that fits.
#![tactic(auto)]

ghost use Rattle.machine.specs.Promises.{WithinTheRules, AccountedFor, NumbersApart, CellsApart, ServedOnceInTime, DeadlinesNear, NumbersSmall, ApartFromOthers, OneAFrame, KeepsItsPromises};
ghost use Rattle.machine.specs.Spans.{InSpan};
ghost use Rattle.machine.specs.Answering.{AlwaysAnswers};
ghost use Rattle.machine.specs.Determined.{AnswersDetermined};
ghost use Rattle.machine.specs.Opens.{WheneverOpened};
ghost use Rattle.machine.specs.Example.{ExampleStands};

// All commands answered obey the rule book.
pub fn stays_within_the_rules() -> u8
    ensures { WheneverOpened WithinTheRules }
{
    0
}

// No command is invented: each carries its tick's cycle and an accepted request's name, and a column command is what that request asked for.
pub fn accounts_for_commands() -> u8
    ensures { WheneverOpened AccountedFor }
{
    0
}

// Requester and number name one request.
pub fn keeps_numbers_apart() -> u8
    ensures { WheneverOpened NumbersApart }
{
    0
}

// No two addresses share a cell.
pub fn keeps_cells_apart() -> u8
    ensures { WheneverOpened CellsApart }
{
    0
}

// Each accepted request is served once, by its deadline.
pub fn serves_once_in_time() -> u8
    ensures { WheneverOpened ServedOnceInTime }
{
    0
}

// No service takes longer than a span.
pub fn serves_within_a_span() -> u8
    ensures { WheneverOpened InSpan }
{
    0
}

// Every deadline lies within the policy's reach and within the session.
pub fn keeps_deadlines_near() -> u8
    ensures { WheneverOpened DeadlinesNear }
{
    0
}

// The numbers given out are few more than the cycles that have passed.
pub fn keeps_numbers_small() -> u8
    ensures { WheneverOpened NumbersSmall }
{
    0
}

// Under turn order the offers of others change nothing for a requester.
pub fn keeps_requesters_apart() -> u8
    ensures { WheneverOpened ApartFromOthers }
{
    0
}

// Under turn order a requester has at most one column command a frame.
pub fn serves_one_a_frame() -> u8
    ensures { WheneverOpened OneAFrame }
{
    0
}

// Every opened machine keeps its promises.
pub fn keeps_its_promises() -> u8
    ensures { WheneverOpened KeepsItsPromises }
{
    0
}

// No machine is at a loss: up to the last cycle every tick has an answer.
pub fn answers_every_tick() -> u8
    ensures { WheneverOpened AlwaysAnswers }
{
    0
}

// Under first come and under turn order every answer is one value: the same calls are answered alike and leave the same machine.
pub fn answers_are_determined() -> u8
    ensures { WheneverOpened AnswersDetermined }
{
    0
}

// A small session stands: its numbers fit, its log is a chain, and its request is served.
pub fn stands_by_example() -> u8
    ensures { ExampleStands }
{
    0
}
