// The audit of stage 2's tables against the granted frames (01, The audit).
#![tactic(auto)]

ghost use Rattle.std.specs.Prelude.{◌≡◌, false, List, ℕ, Option, IfSome};
ghost use Rattle.std.specs.Option.{is_none};
ghost use Rattle.reads.specs.Program.{Request};
ghost use Rattle.layout.specs.Layout.{raw, core};
ghost use Rattle.audit.specs.Audit as Audits;
ghost use Rattle.audit.specs.Calls as Calls;
ghost use Rattle.audit.specs.Confinement.{Confinement};

use answers::Refusal;
use capture::view::{OnePart, Parts};
use layout::memories;
use lists::Lists;
use registers::El2;
use walk::end;

pub mod table;

// What can be wrong with an audited table, in the order of the numbers 1 to 4.
#[derive(Clone, Copy, PartialEq, Eq, Debug)]
pub enum FindingKind {
    NotCaptured,
    TouchesGrant,
    UnlistedTable,
    OutsideGrants,
}

// The address is the table's for the first two, the entry's for the others.
#[derive(Clone, Copy, PartialEq, Eq, Debug)]
pub struct Finding {
    pub kind: FindingKind,
    pub address: u64,
}

impl FindingKind {
    fn at(self, address: u64) -> Finding
        ensures { result ≡ record { kind = self; address = address } }
    {
        Finding {
            kind: self,
            address,
        }
    }
}

impl From<FindingKind> for u64 {
    ghost from_gives = { λ kind n. n ≡ Audits.finding_number kind };

    fn from(kind: FindingKind) -> u64 {
        match kind {
            FindingKind::NotCaptured => 1,
            FindingKind::TouchesGrant => 2,
            FindingKind::UnlistedTable => 3,
            FindingKind::OutsideGrants => 4,
        }
    }
}

// The number of an audit's answer: no finding, one, or a refusal.
pub fn number(answer: Result<Option<Finding>, Refusal>) -> u64
    ensures { result ≡ Audits.audit_number answer }
{
    match answer {
        Ok(None) => 0,
        Ok(Some(finding)) => u64::from(finding.kind),
        Err(why) => answers::refusal_number(why),
    }
}

// What is wrong first with stage 2's tables, if anything is: with the root, and then with each listed table. They lie in the memory of a
// file that is readable, if it has one: no bank of it may end past 2^48. Grants are pairs of an address and a byte count, tables of an
// address and a level. The memory is of one type: in code over any type the check refuses calls of `table::each_entry`, which take a
// ghost value with a closure.
fn over(
    memory: Option<Parts>,
    r: El2,
    grants: &[u64],
    counts: &[u64],
    tables: &[u64],
    levels: &[u64],
) -> Result<Option<Finding>, Refusal>
    ensures { (m : Request → Option ℕ) → IfSome memory.entry (λ v. Calls.found_in v ≡ m) → result ≡ Audits.audit_over m false (is_none memory.entry) r grants.now counts.now tables.now levels.now }
{
    let memory = memory.ok_or(Refusal::HighCapture)?;
    settings::of_audit(r)?;
    let size = regime::table_size(r);
    let lists = Lists::new(size, grants, counts, tables, levels).ok_or(Refusal::AuditLists)?;
    if !settings::stage2_on(r) {
        return Err(Refusal::NoRoot);
    }
    let start = regime::start2(r);
    if !end::passed(start.ending) {
        return Err(Refusal::NoRoot);
    }
    Ok(table::from_root(memory, lists, start.table()).err())
}

// The audit over a raw capture, of which the first byte lies at base. It and `audit_core` are two functions since C calls both: one takes a
// base, the other may be refused for its headers.
pub fn audit(
    bytes: &[u8],
    base: u64,
    r: El2,
    grants: &[u64],
    counts: &[u64],
    tables: &[u64],
    levels: &[u64],
) -> Result<Option<Finding>, Refusal>
    ensures told { result ≡ Audits.audit (raw base) bytes.now r grants.now counts.now tables.now levels.now }
    ensures confined { (other : List ℕ) → Confinement (raw base) bytes.now other r grants.now counts.now tables.now levels.now }
{
    over(
        memories::raw(bytes, base).map(OnePart::as_parts),
        r,
        grants,
        counts,
        tables,
        levels,
    )
}

// The audit over a core file.
pub fn audit_core(
    file: &[u8],
    r: El2,
    grants: &[u64],
    counts: &[u64],
    tables: &[u64],
    levels: &[u64],
) -> Result<Option<Finding>, Refusal>
    ensures told { result ≡ Audits.audit core file.now r grants.now counts.now tables.now levels.now }
    ensures confined { (other : List ℕ) → Confinement core file.now other r grants.now counts.now tables.now levels.now }
{
    let mut room = memories::NO_PARTS;
    let memory = memories::core(file, &mut room).ok_or(Refusal::CoreFile)?;
    over(memory, r, grants, counts, tables, levels)
}
