ghost use Rattle.std.specs.Prelude.{◌≡◌, true};
ghost use Rattle.descriptor.specs.Turn as Turns;
ghost use Rattle.walk.specs.Calls.{Starts, root_of};
ghost use Rattle.walk.specs.Starts.{starts_prop};

use crate::start::Start;

// What registers say of stage 2 in the words that its walks go by, worked out once for all addresses.
#[derive(Clone, Copy)]
pub struct Prepared2 {
    pub on: bool,
    pub inputsize: u64,
    // The mask of an IPA's bits beyond the input size.
    pub above: u64,
    pub start: Start,
    // HCR_EL2.CD, ID and PTW
    pub cd: bool,
    pub id: bool,
    pub ptw: bool,
    ghost masked: { on ≡ true → above ≡ Turns.above inputsize },
    ghost started: { Starts start (root_of start) } by { starts_prop start (root_of start) },
}
