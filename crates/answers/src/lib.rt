// Answers: why a call is refused, what one question is answered, and the numbers of both (01, Answer numbers).
#![tactic(auto)]

ghost use Rattle.std.specs.Prelude.{◌≡◌};
ghost use Rattle.std.specs.Option.{is_none, ok_or};
ghost use Rattle.settings.specs.Settings.{number};
ghost use Rattle.stages.specs.Calls.{outcome_of};
ghost use Rattle.answers.specs.Answers as Answers;
ghost use Rattle.answers.specs.Refusals as Refusals;

use descriptor::entry::FaultKind;
use registers::{El1, El2};
use settings::Item;
use stages::both::Translation;
use walk::end::Ending;
use walk::stop::{Fault, Missing, Open, Stage, Stop};

// Bad input, in the order of the numbers 10 to 16.
#[derive(Clone, Copy)]
pub enum Refusal {
    ShortLog,
    HighCapture,
    // The item's number and not the `Item`: the definition `failing` and the facts go by numbers.
    Settings { item: u64 },
    Unlisted,
    BatchLists,
    AuditLists,
    NoRoot,
    CoreFile,
}

// Settings are refused with the number of their item.
impl From<Item> for Refusal {
    ghost use Rattle.answers.specs.declared.Refusal.TheVariants as Whys;

    ghost from_gives = { λ item why. why ≡ Whys.Settings (number item) };

    fn from(item: Item) -> Self {
        Refusal::Settings {
            item: u64::from(item),
        }
    }
}

// What one question is answered, with the number of descriptors read.
#[derive(Clone, Copy)]
pub enum Answer {
    Translated { to: Translation, reads: u64 },
    Fault { fault: Fault, reads: u64 },
    Misaligned { stage: Stage, reads: u64 },
    Absent { missing: Missing, reads: u64 },
    Unsettled { open: Open, reads: u64 },
}

// The memory of a question or a batch, or what both are refused for alike, in its order. There is no memory where a bank ends past 2^48.
// The call's own lists come before.
pub fn accepted<M: Copy>(
    memory: Option<M>,
    r: El2,
    g: El1,
    kind: u64,
    el: u64,
    size: u64,
) -> Result<M, Refusal>
    ensures { result ≡ Refusals.refuse Err (Refusals.shared (is_none memory) r g kind el size) (ok_or memory Refusal.HighCapture) }
{
    let memory = memory.ok_or(Refusal::HighCapture)?;
    settings::of_question(r, g)?;
    if access::listed(kind, el, size) {
        Ok(memory)
    } else {
        Err(Refusal::Unlisted)
    }
}

// The answer of an access after some reads.
#[tactic(auto, unfolding(crate::specs::Answers::answer, stages::specs::Calls::outcome_of))]
pub fn answered(reached: Result<Translation, Stop>, reads: u64) -> Answer
    ensures { result ≡ Answers.answer reads (outcome_of reached) }
{
    match reached {
        Ok(to) => Answer::Translated { to, reads },
        Err(Stop::Fault(fault)) => Answer::Fault { fault, reads },
        Err(Stop::Misaligned(stage)) => Answer::Misaligned { stage, reads },
        Err(Stop::Absent(missing)) => Answer::Absent { missing, reads },
        Err(Stop::Unsettled(open)) => Answer::Unsettled { open, reads },
    }
}

// Numbers of answers are also the C interface's. Functions give them, each by its definition: `From` could be written here only for
// `Answer` and `Refusal`, since `FaultKind`, `Ending` and `Result` are types of other crates.
fn fault_number(k: FaultKind) -> u64
    ensures { result ≡ Answers.fault_number k }
{
    match k {
        FaultKind::Translation => 1,
        FaultKind::AddressSize => 2,
        FaultKind::AccessFlag => 3,
        FaultKind::Permission => 4,
    }
}

pub fn refusal_number(r: Refusal) -> u64
    ensures { result ≡ Answers.refusal_number r }
{
    match r {
        Refusal::ShortLog => 10,
        Refusal::HighCapture => 11,
        Refusal::Settings { .. } => 12,
        Refusal::Unlisted => 13,
        Refusal::BatchLists => 14,
        Refusal::AuditLists => 15,
        Refusal::NoRoot => 16,
        Refusal::CoreFile => 17,
    }
}

#[tactic(auto, unfolding(crate::specs::Answers::number))]
pub fn answer_number(a: Answer) -> u64
    ensures { result ≡ Answers.number a }
{
    match a {
        Answer::Translated { .. } => 0,
        Answer::Fault { fault, .. } => fault_number(fault.kind),
        Answer::Misaligned { .. } => 5,
        Answer::Absent { .. } => 6,
        Answer::Unsettled { .. } => 7,
    }
}

// The number of what a question is told.
#[tactic(auto, unfolding(crate::specs::Answers::number_of))]
pub fn number(told: Result<Answer, Refusal>) -> u64
    ensures { result ≡ Answers.number_of told }
{
    match told {
        Ok(answer) => answer_number(answer),
        Err(why) => refusal_number(why),
    }
}

// The number of an answer, from an end in plain words.
pub fn ending_number(e: Ending) -> u64
    ensures { result ≡ Answers.ending_number e }
{
    match e {
        Ending::Passed => 0,
        Ending::Translation => 1,
        Ending::AddressSize => 2,
        Ending::AccessFlag => 3,
        Ending::Permission => 4,
        Ending::Misaligned => 5,
        Ending::Absent => 6,
        Ending::Unsettled => 7,
    }
}
