// Whether banks are in order and share no byte of the file, with each other or with the headers.
ghost use Rattle.std.specs.Prelude.{◌≡◌, map, ◌+◌, ◌≤◌, leb};
ghost use Rattle.capture.specs.Capture as Captures;
ghost use Rattle.layout.specs.Elf as Elf;
ghost use Rattle.layout.specs.Calls as Calls;

use capture::{Bank, Part};

// Some bytes from a place on end by another. No sum wraps.
pub(crate) fn ends_by(from: u64, bytes: u64, to: u64) -> bool
    ensures { result ≡ leb (from + bytes) to }
{
    from <= to && bytes <= to - from
}

// Each bank starts at or past the end of the one before it, by the sizes that the headers say.
fn ascend(banks: &[Bank]) -> bool
    ensures { result ≡ Elf.ascend banks.now }
{
    banks.is_sorted_by(|b, c| ends_by(b.address, b.size, c.address))
}

// A part and the bytes of the file from one place to before another share a byte.
pub(crate) fn meets(from: u64, to: u64, p: Part) -> bool
    ensures { result ≡ Elf.meets from to p }
{
    from.max(p.from as u64) < to.min(p.to as u64)
}

// No bank has a byte of the file from one place to before another.
fn clear(total: u64, banks: &[Bank], from: u64, to: u64) -> bool
    ensures { result ≡ Elf.clear from to (map (Captures.part total) banks.now) }
{
    banks.iter().all(|b| !meets(from, to, b.part(total)))
}

// Each bank stands in the file at or past the end of the one before it.
fn in_order(total: u64, banks: &[Bank]) -> bool
    ensures { result ≡ Calls.in_order 0 (map (Captures.part total) banks.now) }
{
    let mut end = 0;
    for bank in banks {
        let p = bank.part(total);
        if p.from < end {
            return false;
        }
        end = p.to;
    }
    true
}

// No byte of the file lies in two banks. Where they stand in order, as programs write them, no two need be compared.
fn apart(total: u64, banks: &[Bank]) -> bool
    ensures { result ≡ Elf.apart (map (Captures.part total) banks.now) }
{
    if in_order(total, banks) {
        return true;
    }
    for (i, bank) in banks.iter().enumerate() {
        let p = bank.part(total);
        if !clear(total, &banks[i + 1..], p.from as u64, p.to as u64) {
            return false;
        }
    }
    true
}

// Banks are as a file of some bytes may have them, with program headers from one place to before another.
pub(crate) fn well_laid(total: u64, banks: &[Bank], at: u64, end: u64) -> bool
    ensures { result ≡ Elf.well_laid total banks.now at end }
{
    ascend(banks)
        && apart(total, banks)
        && clear(total, banks, 0, 64)
        && clear(total, banks, at, end)
}
