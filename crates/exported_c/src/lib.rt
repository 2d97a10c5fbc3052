// The calls of `exported` for programs in C and Rust, under the same names and with the same clauses. A slice is a pointer and a length.
// include/humpelkaas.h declares them.
#![tactic(auto)]

ghost use Rattle.std.specs.Prelude.{◌≡◌};
ghost use Rattle.ledger.specs.Line.{line_into};
ghost use Rattle.batch.specs.Batch.{sharing, batch};
ghost use Rattle.audit.specs.Audit.{audit};
ghost use Rattle.banks.specs.Banks.{bank_list};
ghost use Rattle.layout.specs.Layout.{raw, core};
ghost use Rattle.exported.specs.Words as Numbers;

use exported::{AuditWords, BanksWords, BatchWords};
use ledger::Ledger;
use registers::{El1, El2};

// The batch. Both written lists are as long as the list of addresses, at most 4,096 words.
#[unsafe(no_mangle)]
pub extern "C" fn humpelkaas_batch(
    bytes: &[u8],
    base: u64,
    r: El2,
    g: El1,
    kind: u64,
    el: u64,
    size: u64,
    addresses: &[u64],
    outputs: &mut [u64],
    numbers: &mut [u64],
) -> BatchWords
    ensures answered { result ≡ Numbers.batch_words (batch (raw base) bytes.now (sharing r g kind el size) addresses.now outputs.old numbers.old).answer }
    ensures placed { outputs.new ≡ (batch (raw base) bytes.now (sharing r g kind el size) addresses.now outputs.old numbers.old).outputs }
    ensures numbered { numbers.new ≡ (batch (raw base) bytes.now (sharing r g kind el size) addresses.now outputs.old numbers.old).numbers }
{
    exported::humpelkaas_batch(
        bytes, base, r, g, kind, el, size, addresses, outputs, numbers,
    )
}

// The batch over a core file, by its bytes.
#[unsafe(no_mangle)]
pub extern "C" fn humpelkaas_core_batch(
    file: &[u8],
    r: El2,
    g: El1,
    kind: u64,
    el: u64,
    size: u64,
    addresses: &[u64],
    outputs: &mut [u64],
    numbers: &mut [u64],
) -> BatchWords
    ensures answered { result ≡ Numbers.batch_words (batch core file.now (sharing r g kind el size) addresses.now outputs.old numbers.old).answer }
    ensures placed { outputs.new ≡ (batch core file.now (sharing r g kind el size) addresses.now outputs.old numbers.old).outputs }
    ensures numbered { numbers.new ≡ (batch core file.now (sharing r g kind el size) addresses.now outputs.old numbers.old).numbers }
{
    exported::humpelkaas_core_batch(file, r, g, kind, el, size, addresses, outputs, numbers)
}

// The audit. Grants are pairs of an address and a byte count, at most 256; tables of an address and a level, at most 1,024.
#[unsafe(no_mangle)]
pub extern "C" fn humpelkaas_audit(
    bytes: &[u8],
    base: u64,
    r: El2,
    grants: &[u64],
    counts: &[u64],
    tables: &[u64],
    levels: &[u64],
) -> AuditWords
    ensures answered { result ≡ Numbers.audit_words (audit (raw base) bytes.now r grants.now counts.now tables.now levels.now) }
{
    exported::humpelkaas_audit(bytes, base, r, grants, counts, tables, levels)
}

// The audit over a core file, by its bytes.
#[unsafe(no_mangle)]
pub extern "C" fn humpelkaas_core_audit(
    file: &[u8],
    r: El2,
    grants: &[u64],
    counts: &[u64],
    tables: &[u64],
    levels: &[u64],
) -> AuditWords
    ensures answered { result ≡ Numbers.audit_words (audit core file.now r grants.now counts.now tables.now levels.now) }
{
    exported::humpelkaas_core_audit(file, r, grants, counts, tables, levels)
}

// The banks of a core file. Each list has at least 64 words, of which the first are written.
#[unsafe(no_mangle)]
pub extern "C" fn humpelkaas_core_banks(
    file: &[u8],
    addresses: &mut [u64],
    offsets: &mut [u64],
    lengths: &mut [u64],
    shorts: &mut [u64],
) -> BanksWords
    ensures answered { result ≡ Numbers.banks_words (bank_list file.now addresses.old offsets.old lengths.old shorts.old).answer }
    ensures placed { addresses.new ≡ (bank_list file.now addresses.old offsets.old lengths.old shorts.old).addresses }
    ensures standing { offsets.new ≡ (bank_list file.now addresses.old offsets.old lengths.old shorts.old).offsets }
    ensures keeping { lengths.new ≡ (bank_list file.now addresses.old offsets.old lengths.old shorts.old).lengths }
    ensures marked { shorts.new ≡ (bank_list file.now addresses.old offsets.old lengths.old shorts.old).shorts }
{
    exported::humpelkaas_core_banks(file, addresses, offsets, lengths, shorts)
}

// The ledger's line, over the first bytes of a buffer.
#[unsafe(no_mangle)]
pub extern "C" fn humpelkaas_ledger_line(l: Ledger, buffer: &mut [u8]) -> u64
    ensures answered { result ≡ Numbers.line_word (line_into l buffer.old).answer }
    ensures written { buffer.new ≡ (line_into l buffer.old).buffer }
{
    exported::humpelkaas_ledger_line(l, buffer)
}
