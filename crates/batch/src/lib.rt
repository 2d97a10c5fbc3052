// A batch: many addresses with one kind, EL and size, each answered as the single question answers it.
// Registers are decoded and stages prepared once.
#![tactic(auto)]

ghost use Rattle.std.specs.Prelude.{◌≡◌, false, ℕ, Option, IfSome};
ghost use Rattle.std.specs.Option.{is_none};
ghost use Rattle.reads.specs.Program.{Request};
ghost use Rattle.layout.specs.Layout.{raw, core};
ghost use Rattle.batch.specs.Batch as Batches;
ghost use Rattle.batch.specs.Promises as Promises;

use answers::Refusal;
use layout::memories;
use ledger::Ledger;
use reads::Memory;
use registers::{El1, El2};

// The addresses that a batch may have.
pub const MOST: usize = 4096;

// The number of what a batch is told: its ledger, or its refusal.
pub fn number(told: Result<Ledger, Refusal>) -> u64
    ensures { result ≡ Batches.batch_number told }
{
    match told {
        Ok(_) => 0,
        Err(why) => answers::refusal_number(why),
    }
}

// Both written lists are as long as the list of addresses, which is not too long.
fn unequal(asked: usize, outputs: usize, numbers: usize) -> bool
    ensures { result ≡ Batches.unequal asked outputs numbers }
{
    (asked != outputs) | (asked != numbers) | (MOST < asked)
}

// The batch over the memory of a file that is readable, if it has one: no bank of it may end past 2^48. It is refused for its lists, and
// then for what a question is refused for too.
fn over<M: Memory + Copy>(
    memory: Option<M>,
    r: El2,
    g: El1,
    kind: u64,
    el: u64,
    size: u64,
    addresses: &[u64],
    outputs: &mut [u64],
    numbers: &mut [u64],
) -> Result<Ledger, Refusal>
    ensures { (m : Request → Option ℕ) → IfSome memory (λ v. M.finds v ≡ m) → Promises.BatchTells (Batches.batch_over m false (is_none memory) (Batches.sharing r g kind el size) addresses.now outputs.old numbers.old) result outputs.new numbers.new }
{
    if unequal(addresses.len(), outputs.len(), numbers.len()) {
        return Err(Refusal::BatchLists);
    }
    let memory = answers::accepted(memory, r, g, kind, el, size)?;
    let mut log = [0u64; 24];
    let p = regime::prepared1(r, g);
    let q = regime::prepared2(r);
    accesses::each(
        &memory, p, q, kind, el, size, addresses, outputs, numbers, &mut log,
    );
    Ok(ledger::count(numbers))
}

// The batch over a raw capture, of which the first byte lies at base. Each address gets its answer's number, and its output address or 0.
// It and `run_core` are two functions since C calls both: one takes a base, the other may be refused for its headers.
pub fn run(
    bytes: &[u8],
    base: u64,
    r: El2,
    g: El1,
    kind: u64,
    el: u64,
    size: u64,
    addresses: &[u64],
    outputs: &mut [u64],
    numbers: &mut [u64],
) -> Result<Ledger, Refusal>
    ensures told { Promises.BatchTells (Batches.batch (raw base) bytes.now (Batches.sharing r g kind el size) addresses.now outputs.old numbers.old) result outputs.new numbers.new }
    ensures promised { Promises.Promised (raw base) bytes.now (Batches.sharing r g kind el size) addresses.now outputs.old numbers.old }
{
    over(
        memories::raw(bytes, base),
        r,
        g,
        kind,
        el,
        size,
        addresses,
        outputs,
        numbers,
    )
}

// The batch over a core file.
pub fn run_core(
    file: &[u8],
    r: El2,
    g: El1,
    kind: u64,
    el: u64,
    size: u64,
    addresses: &[u64],
    outputs: &mut [u64],
    numbers: &mut [u64],
) -> Result<Ledger, Refusal>
    ensures told { Promises.BatchTells (Batches.batch core file.now (Batches.sharing r g kind el size) addresses.now outputs.old numbers.old) result outputs.new numbers.new }
    ensures promised { Promises.Promised core file.now (Batches.sharing r g kind el size) addresses.now outputs.old numbers.old }
{
    let mut room = memories::NO_PARTS;
    let memory = memories::core(file, &mut room).ok_or(Refusal::CoreFile)?;
    over(memory, r, g, kind, el, size, addresses, outputs, numbers)
}
