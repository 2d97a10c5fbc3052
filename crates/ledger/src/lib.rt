// The ledger of a batch: how many answers of each sort there were, and its line.
#![tactic(auto)]

ghost use Rattle.std.specs.Prelude.{◌≡◌};
ghost use Rattle.ledger.specs.Ledger as Ledgers;

pub mod line;

// How many addresses a batch asked, and how many answers of each sort it had. It has C's layout: the exported calls take and give it.
#[repr(C)]
#[derive(Clone, Copy)]
pub struct Ledger {
    pub asked: u64,
    pub translated: u64,
    pub faulted: u64,
    pub absent: u64,
    pub unsettled: u64,
}

// The ledger of a list of answers' numbers. The sorts' numbers follow each other, 0, 1 to 5, 6, 7, so a sort's figure is the difference of two
// counts: how many numbers are below its end, and below its start. Such a count is a comparison and an addition a number.
pub fn count(numbers: &[u64]) -> Ledger
    ensures { result ≡ Ledgers.ledger numbers.now }
{
    let mut below1 = 0;
    let mut below6 = 0;
    let mut below7 = 0;
    let mut below8 = 0;
    for number in numbers {
        below1 += u64::from(*number < 1);
        below6 += u64::from(*number < 6);
        below7 += u64::from(*number < 7);
        below8 += u64::from(*number < 8);
    }
    Ledger {
        asked: numbers.len() as u64,
        translated: below1,
        faulted: below6 - below1,
        absent: below7 - below6,
        unsettled: below8 - below7,
    }
}
