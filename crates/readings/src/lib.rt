// Worked values, proved of the definitions that the contracts of the running calls cite. Nothing runs here.
#![tactic(auto)]

ghost use Rattle.readings.specs.Stand.{ReadingsStand};

// Every worked value stands.
pub fn readings_stand() -> u8
    ensures { ReadingsStand }
{
    0
}
