// Ends of a translation in plain words: the loops build no enum with contents, which would be copied at every return.
ghost use Rattle.std.specs.Prelude.{◌≡◌};
ghost use Rattle.walk.specs.Ends as Ends;

use descriptor::entry::Turn;

// What ended a translation; Passed is its output.
#[derive(Clone, Copy)]
pub enum Ending {
    Passed,
    Translation,
    AddressSize,
    AccessFlag,
    Permission,
    Misaligned,
    Absent,
    Unsettled,
}

// Where one stage's translation ended.
#[derive(Clone, Copy)]
pub struct End {
    pub ending: Ending,
    // The output address; of an absent descriptor, where it should be.
    pub address: u64,
    // The leaf's descriptor.
    pub word: u64,
    pub level: u64,
    pub count: usize,
}

pub fn passed(e: Ending) -> bool
    ensures { result ≡ Ends.passed e }
{
    matches!(e, Ending::Passed)
}

// An end without an output.
pub fn stopped(ending: Ending, level: u64, count: usize) -> End
    ensures { result ≡ Ends.stopped_by ending level count }
{
    End {
        ending,
        address: 0,
        word: 0,
        level,
        count,
    }
}

pub fn leads_down(t: Turn) -> bool
    ensures { result ≡ Ends.leads_down t }
{
    matches!(t, Turn::Down)
}

pub fn is_leaf(t: Turn) -> bool
    ensures { result ≡ Ends.is_leaf t }
{
    matches!(t, Turn::Leaf)
}

// What a turn ends a walk with, if it leads neither down nor to a leaf.
pub fn over(t: Turn) -> Ending
    ensures { result ≡ Ends.over t }
{
    match t {
        Turn::Down => Ending::Passed,
        Turn::Leaf => Ending::Passed,
        Turn::Translation => Ending::Translation,
        Turn::AddressSize => Ending::AddressSize,
        Turn::AccessFlag => Ending::AccessFlag,
        Turn::Permission => Ending::Permission,
        Turn::Unsettled => Ending::Unsettled,
    }
}
