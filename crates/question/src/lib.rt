// One question: a capture, registers and an access in, an answer and a log out. The capture is raw or a core file.
#![tactic(auto)]

ghost use Rattle.std.specs.Prelude.{◌≡◌, false, List, ℕ, Option, ◌≤◌, length, IfSome};
ghost use Rattle.std.specs.Option.{is_none};
ghost use Rattle.reads.specs.Program.{Request};
ghost use Rattle.reads.specs.Ran.{Ran};
ghost use Rattle.layout.specs.Layout.{raw, core};
ghost use Rattle.stages.specs.Stages.{access};
ghost use Rattle.stages.specs.Calls.{arrived};
ghost use Rattle.settings.specs.Settings.{settings};
ghost use Rattle.regime.specs.Roots.{stage1, stage2};
ghost use Rattle.answers.specs.Answers as Answers;
ghost use Rattle.answers.specs.Question.{ask, ask_over, Tells};
ghost use Rattle.answers.specs.Counts.{Counts};
ghost use Rattle.answers.specs.Framing.{Framing};

use access::{Access, SizedAccess};
use answers::{Answer, Refusal};
use layout::memories;
use reads::Memory;
use registers::{El1, El2};
use stages::both;
use stages::both::Arrival;

// The words that a log must have.
pub const LOG_WORDS: usize = 24;

// The answer to an access, by how it ended. Attributes go by the registers.
fn answer_of(r: El2, g: El1, a: Access, last: Arrival) -> Answer
    ensures { result ≡ Answers.answer last.end.count (arrived (stage1 r g) (stage2 r) a last) }
{
    let end = last.end;
    let reads = end.count as u64;
    let reached = both::reached_by(regime::memory(r, g), a, last);
    answers::answered(reached, reads)
}

// Where an access by the guest lands. The physical address of each descriptor read goes into the log, in order; every other word of it is
// kept.
fn arrival<M: Memory>(memory: &M, r: El2, g: El1, a: SizedAccess, log: &mut [u64]) -> Arrival
    requires { (settings r g ≡ 0) × (24 ≤ length log.old) }
    ensures { Ran (M.finds memory.now) (access (stage1 r g) (stage2 r) a.access) log.old 0 (arrived (stage1 r g) (stage2 r) a.access result) result.end.count log.new }
{
    let p = regime::prepared1_at(r, g, a.access.address);
    let q = regime::prepared2(r);
    both::access(memory, p, q, a, log)
}

// The question over the memory of a file that is readable, if it has one: no bank of it may end past 2^48.
fn over<M: Memory + Copy>(
    memory: Option<M>,
    r: El2,
    g: El1,
    a: Access,
    log: &mut [u64],
) -> Result<Answer, Refusal>
    ensures { (m : Request → Option ℕ) → IfSome memory (λ v. M.finds v ≡ m) → Tells (ask_over m false (is_none memory) r g a log.old) result log.new }
{
    if log.len() < LOG_WORDS {
        return Err(Refusal::ShortLog);
    }
    let memory = answers::accepted(memory, r, g, a.kind, a.el, a.size)?;
    let sized = SizedAccess { access: a };
    Ok(answer_of(r, g, a, arrival(&memory, r, g, sized, log)))
}

// The question over a raw capture, of which the first byte lies at base. It and `translate_core` are two functions since C calls both: one
// takes a base, the other may be refused for its headers.
pub fn translate(
    bytes: &[u8],
    base: u64,
    r: El2,
    g: El1,
    a: Access,
    log: &mut [u64],
) -> Result<Answer, Refusal>
    ensures told { Tells (ask (raw base) bytes.now r g a log.old) result log.new }
    ensures counted { Counts (raw base) bytes.now r g a log.old }
    ensures framed { (other : List ℕ) → Framing (raw base) bytes.now other r g a log.old }
{
    over(memories::raw(bytes, base), r, g, a, log)
}

// The question over a core file, by room for all banks that it may have.
fn over_banks(file: &[u8], r: El2, g: El1, a: Access, log: &mut [u64]) -> Result<Answer, Refusal>
    ensures { Tells (ask core file.now r g a log.old) result log.new }
{
    let mut room = memories::NO_PARTS;
    let memory = memories::core(file, &mut room).ok_or(Refusal::CoreFile)?;
    over(memory, r, g, a, log)
}

// The question over a core file. A bank that is alone is read as a raw capture is: setting room for all banks to 0 and going through them
// takes as long as a short walk.
pub fn translate_core(
    file: &[u8],
    r: El2,
    g: El1,
    a: Access,
    log: &mut [u64],
) -> Result<Answer, Refusal>
    ensures told { Tells (ask core file.now r g a log.old) result log.new }
    ensures counted { Counts core file.now r g a log.old }
    ensures framed { (other : List ℕ) → Framing core file.now other r g a log.old }
{
    match memories::lone(file) {
        Some(memory) => over(memory, r, g, a, log),
        None => over_banks(file, r, g, a, log),
    }
}
