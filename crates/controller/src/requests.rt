// Whether a request is proper: a read or a write, inside the chip.
ghost use Rattle.std.specs.Prelude.{◌≡◌};
ghost use Rattle.machine.specs.Machine.{asked_kind};
ghost use Rattle.controller.specs.Requests.{outside, proper_kind};

use policy::Request;
use rulebook::Kind;
use sheet::Chip;

// What the request asks for; none where it is no read or write or lies outside the chip.
pub(crate) fn wanted_kind(chip: &Chip, request: Request) -> Option<Kind>
    ensures { result ≡ proper_kind chip.now request }
{
    if is_outside(chip, request) {
        return None;
    }
    kind_asked(request.kind)
}

// What the number asks for: a read or a write, and nothing by any other number.
fn kind_asked(value: u8) -> Option<Kind>
    ensures { result ≡ asked_kind value }
{
    Kind::try_from(value)
        .ok()
        .filter(|kind| matches!(kind, Kind::Read | Kind::Write))
}

// Whether the address lies outside the chip; a function of its own, so that a contract says what lies outside.
fn is_outside(chip: &Chip, request: Request) -> bool
    ensures { result ≡ outside chip.now request }
{
    !chip.holds(request.bank, request.row, request.column)
}
