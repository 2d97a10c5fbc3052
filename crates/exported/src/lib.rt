// The batch and the audit, each over a raw capture and over a core file, the list of a core file's banks and the ledger's line as calls on
// numbers, structs of numbers and slices; and all answers in numbers.
// `exported_c` is these calls for programs in C and Rust. The questions are in `exported_question` and `exported_core_question`.
#![tactic(auto)]

ghost use Rattle.std.specs.Prelude.{◌≡◌, ◌≤◌};
ghost use Rattle.answers.specs.Answers.{number, stage_number, carries};
ghost use Rattle.answers.specs.declared.Answer.TheVariants as Answers;
ghost use Rattle.ledger.specs.Line.{line_into};
ghost use Rattle.batch.specs.Batch.{sharing, batch};
ghost use Rattle.audit.specs.Audit.{audit};
ghost use Rattle.banks.specs.Banks.{bank_list};
ghost use Rattle.layout.specs.Layout.{raw, core};
ghost use Rattle.exported.specs.Words as Numbers;
ghost use Rattle.exported.specs.Parts as Parts;

use answers::{Answer, Refusal};
use attributes::{Cacheability, DeviceType, MemoryType, Shareability};
use audit::Finding;
use ledger::{Ledger, line};
use registers::{El1, El2};
use stages::both::Translation;
use walk::stop::Stage;

// An answer in numbers: its own, then what it carries, and 0 in the place of what it does not.
#[repr(C)]
#[derive(Clone, Copy)]
pub struct Words {
    pub number: u64,
    pub item: u64,
    pub address: u64,
    pub memory: u64,
    pub shareability: u64,
    pub level1: u64,
    pub level2: u64,
    pub stage: u64,
    pub level: u64,
    pub onwalk: u64,
    pub ipa: u64,
    pub reads: u64,
}

// What an answer says of all that it doesn't carry.
const NOTHING: Words = Words {
    number: 0,
    item: 0,
    address: 0,
    memory: 0,
    shareability: 0,
    level1: 0,
    level2: 0,
    stage: 0,
    level: 0,
    onwalk: 0,
    ipa: 0,
    reads: 0,
};

// Codes of the C interface. Functions give them, each by its definition in `Words`: `From` could be written only in the crates where the
// types stand, which know nothing of C.
fn device_code(d: DeviceType) -> u64
    ensures { result ≡ Numbers.device_code d }
{
    match d {
        DeviceType::NGnRnE => 0,
        DeviceType::NGnRE => 1,
        DeviceType::NGRE => 2,
        DeviceType::GRE => 3,
    }
}

fn cache_code(c: Cacheability) -> u64
    ensures { (result ≡ Numbers.cache_code c) × (result ≤ 2) }
{
    match c {
        Cacheability::NonCacheable => 0,
        Cacheability::WriteThrough => 1,
        Cacheability::WriteBack => 2,
    }
}

#[tactic(auto, unfolding(crate::specs::Words::memory_code))]
fn memory_code(m: MemoryType) -> u64
    ensures { result ≡ Numbers.memory_code m }
{
    match m {
        MemoryType::Device(d) => device_code(d),
        MemoryType::Normal { outer, inner } => 16 + 4 * cache_code(outer) + cache_code(inner),
    }
}

fn shareability_code(s: Shareability) -> u64
    ensures { result ≡ Numbers.shareability_code s }
{
    match s {
        Shareability::NonShareable => 0,
        Shareability::OuterShareable => 2,
        Shareability::InnerShareable => 3,
    }
}

fn item_of(r: Refusal) -> u64
    ensures { result ≡ Parts.item_word r }
{
    match r {
        Refusal::Settings { item } => item,
        _ => 0,
    }
}

fn stage_number(s: Stage) -> u64
    ensures { result ≡ stage_number s }
{
    match s {
        Stage::One => 1,
        Stage::Two { .. } => 2,
    }
}

fn on_walk_of(s: Stage) -> u64
    ensures { result ≡ Parts.on_walk_word s }
{
    match s {
        Stage::One => 0,
        Stage::Two { onwalk, .. } => u64::from(onwalk),
    }
}

fn ipa_of(s: Stage) -> u64
    ensures { result ≡ Parts.ipa_word s }
{
    match s {
        Stage::One => 0,
        Stage::Two { ipa, .. } => ipa,
    }
}

fn translated(number: u64, t: Translation, reads: u64) -> Words
    ensures { result ≡ Numbers.worded number (carries (Answers.Translated t reads)) }
{
    Words {
        number,
        address: t.address,
        memory: memory_code(t.attributes.memory),
        shareability: shareability_code(t.attributes.shareability),
        level1: t.level1,
        level2: t.level2,
        reads,
        ..NOTHING
    }
}

fn refused(number: u64, item: u64) -> Words
    ensures { result ≡ Parts.refused number item }
{
    Words {
        number,
        item,
        ..NOTHING
    }
}

#[tactic(auto, using(crate::proofs::Sorts::fault_words, crate::proofs::Sorts::misaligned_words, crate::proofs::Sorts::absent_words, crate::proofs::Sorts::unsettled_words))]
fn answer_in_words(a: Answer) -> Words
    ensures { result ≡ Numbers.worded (number a) (carries a) }
{
    let number = answers::answer_number(a);
    match a {
        Answer::Translated { to, reads } => translated(number, to, reads),
        Answer::Fault { fault, reads } => Words {
            number,
            stage: stage_number(fault.stage),
            level: fault.level,
            onwalk: on_walk_of(fault.stage),
            ipa: ipa_of(fault.stage),
            reads,
            ..NOTHING
        },
        Answer::Misaligned { stage, reads } => Words {
            number,
            stage: stage_number(stage),
            ipa: ipa_of(stage),
            reads,
            ..NOTHING
        },
        Answer::Absent { missing, reads } => Words {
            number,
            address: missing.address,
            stage: stage_number(missing.stage),
            level: missing.level,
            onwalk: on_walk_of(missing.stage),
            reads,
            ..NOTHING
        },
        Answer::Unsettled { open, reads } => Words {
            number,
            stage: stage_number(open.stage),
            level: open.level,
            onwalk: on_walk_of(open.stage),
            reads,
            ..NOTHING
        },
    }
}

#[tactic(auto, using(crate::proofs::Sorts::refused_words), unfolding(answers::specs::Answers::number_of, answers::specs::Answers::carries_of))]
pub fn in_words(told: Result<Answer, Refusal>) -> Words
    ensures { result ≡ Numbers.words told }
{
    match told {
        Ok(answer) => answer_in_words(answer),
        Err(why) => refused(answers::refusal_number(why), item_of(why)),
    }
}

// A batch's answer in numbers: its own, a settings refusal's item, and its ledger, which is 0 throughout where it has none.
#[repr(C)]
#[derive(Clone, Copy)]
pub struct BatchWords {
    pub number: u64,
    pub item: u64,
    pub ledger: Ledger,
}

fn no_ledger() -> Ledger
    ensures { result ≡ Numbers.no_ledger }
{
    Ledger {
        asked: 0,
        translated: 0,
        faulted: 0,
        absent: 0,
        unsettled: 0,
    }
}

#[tactic(auto, unfolding(crate::specs::Words::batch_words))]
fn batch_in_words(told: Result<Ledger, Refusal>) -> BatchWords
    ensures { result ≡ Numbers.batch_words told }
{
    let number = batch::number(told);
    match told {
        Ok(ledger) => BatchWords {
            number,
            item: 0,
            ledger,
        },
        Err(why) => BatchWords {
            number,
            item: item_of(why),
            ledger: no_ledger(),
        },
    }
}

// The batch. Both written lists are as long as the list of addresses, at most 4,096 words.
// Parameters stay apart here and below: the exported calls of C take them so.
pub fn humpelkaas_batch(
    bytes: &[u8],
    base: u64,
    r: El2,
    g: El1,
    kind: u64,
    el: u64,
    size: u64,
    addresses: &[u64],
    outputs: &mut [u64],
    numbers: &mut [u64],
) -> BatchWords
    ensures answered { result ≡ Numbers.batch_words (batch (raw base) bytes.now (sharing r g kind el size) addresses.now outputs.old numbers.old).answer }
    ensures placed { outputs.new ≡ (batch (raw base) bytes.now (sharing r g kind el size) addresses.now outputs.old numbers.old).outputs }
    ensures numbered { numbers.new ≡ (batch (raw base) bytes.now (sharing r g kind el size) addresses.now outputs.old numbers.old).numbers }
{
    batch_in_words(batch::run(
        bytes, base, r, g, kind, el, size, addresses, outputs, numbers,
    ))
}

// The batch over a core file, by its bytes.
pub fn humpelkaas_core_batch(
    file: &[u8],
    r: El2,
    g: El1,
    kind: u64,
    el: u64,
    size: u64,
    addresses: &[u64],
    outputs: &mut [u64],
    numbers: &mut [u64],
) -> BatchWords
    ensures answered { result ≡ Numbers.batch_words (batch core file.now (sharing r g kind el size) addresses.now outputs.old numbers.old).answer }
    ensures placed { outputs.new ≡ (batch core file.now (sharing r g kind el size) addresses.now outputs.old numbers.old).outputs }
    ensures numbered { numbers.new ≡ (batch core file.now (sharing r g kind el size) addresses.now outputs.old numbers.old).numbers }
{
    batch_in_words(batch::run_core(file, r, g, kind, el, size, addresses, outputs, numbers))
}

// An audit's answer in numbers: its own, a settings refusal's item, and a finding's address.
#[repr(C)]
#[derive(Clone, Copy)]
pub struct AuditWords {
    pub number: u64,
    pub item: u64,
    pub address: u64,
}

#[tactic(auto, unfolding(crate::specs::Words::audit_words))]
fn audit_in_words(told: Result<Option<Finding>, Refusal>) -> AuditWords
    ensures { result ≡ Numbers.audit_words told }
{
    let number = audit::number(told);
    match told {
        Ok(None) => AuditWords {
            number,
            item: 0,
            address: 0,
        },
        Ok(Some(finding)) => AuditWords {
            number,
            item: 0,
            address: finding.address,
        },
        Err(why) => AuditWords {
            number,
            item: item_of(why),
            address: 0,
        },
    }
}

// The audit. Grants are pairs of an address and a byte count, at most 256; tables of an address and a level, at most 1,024.
pub fn humpelkaas_audit(
    bytes: &[u8],
    base: u64,
    r: El2,
    grants: &[u64],
    counts: &[u64],
    tables: &[u64],
    levels: &[u64],
) -> AuditWords
    ensures answered { result ≡ Numbers.audit_words (audit (raw base) bytes.now r grants.now counts.now tables.now levels.now) }
{
    audit_in_words(audit::audit(bytes, base, r, grants, counts, tables, levels))
}

// The audit over a core file, by its bytes.
pub fn humpelkaas_core_audit(
    file: &[u8],
    r: El2,
    grants: &[u64],
    counts: &[u64],
    tables: &[u64],
    levels: &[u64],
) -> AuditWords
    ensures answered { result ≡ Numbers.audit_words (audit core file.now r grants.now counts.now tables.now levels.now) }
{
    audit_in_words(audit::audit_core(file, r, grants, counts, tables, levels))
}

// A bank list's answer in numbers: its own, and how many banks there are.
#[repr(C)]
#[derive(Clone, Copy)]
pub struct BanksWords {
    pub number: u64,
    pub count: u64,
}

#[tactic(auto, unfolding(crate::specs::Words::banks_words))]
fn banks_in_words(told: Result<u64, Refusal>) -> BanksWords
    ensures { result ≡ Numbers.banks_words told }
{
    let number = banks::number(told);
    match told {
        Ok(count) => BanksWords { number, count },
        Err(_) => BanksWords { number, count: 0 },
    }
}

// The banks of a core file. Each list has at least 64 words, of which the first are written.
pub fn humpelkaas_core_banks(
    file: &[u8],
    addresses: &mut [u64],
    offsets: &mut [u64],
    lengths: &mut [u64],
    shorts: &mut [u64],
) -> BanksWords
    ensures answered { result ≡ Numbers.banks_words (bank_list file.now addresses.old offsets.old lengths.old shorts.old).answer }
    ensures placed { addresses.new ≡ (bank_list file.now addresses.old offsets.old lengths.old shorts.old).addresses }
    ensures standing { offsets.new ≡ (bank_list file.now addresses.old offsets.old lengths.old shorts.old).offsets }
    ensures keeping { lengths.new ≡ (bank_list file.now addresses.old offsets.old lengths.old shorts.old).lengths }
    ensures marked { shorts.new ≡ (bank_list file.now addresses.old offsets.old lengths.old shorts.old).shorts }
{
    banks_in_words(banks::list(file, addresses, offsets, lengths, shorts))
}

// The ledger's line, over the first bytes of a buffer.
pub fn humpelkaas_ledger_line(l: Ledger, buffer: &mut [u8]) -> u64
    ensures answered { result ≡ Numbers.line_word (line_into l buffer.old).answer }
    ensures written { buffer.new ≡ (line_into l buffer.old).buffer }
{
    // No line is empty, so that 0 tells of a buffer that is too short.
    match line::write_line(l, buffer) {
        Some(n) => n as u64,
        None => 0,
    }
}
