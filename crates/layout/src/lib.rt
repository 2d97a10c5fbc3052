// Where the banks of a core file lie, by its headers, and what the file has of them (02, §1).
#![tactic(auto)]

ghost use Rattle.std.specs.Prelude.{◌≡◌, map, ◌≤◌, length};
ghost use Rattle.std.proofs.lemmas.List.Edits.{sets};
ghost use Rattle.capture.specs.Capture as Captures;
ghost use Rattle.layout.specs.Calls as Calls;

use capture::{Bank, Front, Part};
use elf::Headers;

pub mod apart;
pub mod elf;
pub mod memories;

// The banks that a core file may have.
pub const MOST_BANKS: usize = 64;

// Room for them, lent with a count of those that there are: the library has no heap.
pub const NO_BANKS: [Bank; MOST_BANKS] = [Bank {
    address: 0,
    offset: 0,
    size: 0,
}; MOST_BANKS];

// What the file has.
#[derive(Clone, Copy)]
pub struct Laid {
    // A bank ends past 2^48. A flag and no error: of a file with such a bank `Lays` promises all that it promises of another.
    pub high: bool,
    // How many parts are written, over the first of those lent.
    pub count: usize,
    pub front: Front,
}

// The bank of a core file that is accepted and has one alone: it is the part in front, and no others are needed.
#[derive(Clone, Copy)]
pub struct Lone {
    // It ends past 2^48. A flag and no error: of a file with such a bank `Alone` promises all that it promises of another.
    pub high: bool,
    pub front: Front,
}

// The banks of a core file that is accepted, as its headers say them, over the first of those lent; how many there are.
pub fn read_headers(file: &[u8], banks: &mut [Bank]) -> Option<usize>
    requires { 64 ≤ length banks.old }
    ensures { Calls.Reads file.now banks.old result banks.new }
{
    let headers = Headers::read(file)?;
    let count = headers.count_banks(file).count;
    if count > MOST_BANKS {
        return None;
    }
    headers.write_banks(file, banks);
    let total = file.len() as u64;
    apart::well_laid(total, &banks[..count], headers.at, headers.end()).then_some(count)
}

// Any bank ends past 2^48, by the sizes that the headers say.
fn any_high(banks: &[Bank]) -> bool
    ensures { result ≡ Captures.any_high banks.now }
{
    banks.iter().any(|b| capture::ends_high(b.address, b.size))
}

// What a file of some bytes has of each bank, over the first of the parts lent.
fn keep(total: u64, banks: &[Bank], parts: &mut [Part])
    requires { length banks.now ≤ length parts.old }
    ensures { parts.new ≡ sets parts.old 0 (map (Captures.part total) banks.now) }
{
    for (i, bank) in banks.iter().enumerate() {
        parts[i] = bank.part(total);
    }
}

// The larger of two parts, the first of those that are alike. `Ord` on parts would have to say that a part's address does not count.
fn larger(p: Part, q: Part) -> Part
    ensures { result ≡ Calls.larger p q }
{
    if q.kept() <= p.kept() { p } else { q }
}

// The largest part; no byte where there is none. It is the one that most descriptors are likely to lie in.
fn front_of(parts: &[Part]) -> Part
    ensures { result ≡ Calls.front_of parts.now }
{
    let none = Part {
        address: 0,
        from: 0,
        to: 0,
    };
    parts.iter().copied().reduce(larger).unwrap_or(none)
}

// What the file has of the banks of a core file, over the first of the parts lent. Where it is refused, they are left as they were.
pub fn lay_out(file: &[u8], parts: &mut [Part]) -> Option<Laid>
    requires { 64 ≤ length parts.old }
    ensures { Calls.Lays file.now parts.old result parts.new }
{
    let mut banks = NO_BANKS;
    let count = read_headers(file, &mut banks)?;
    let banks = &banks[..count];
    keep(file.len() as u64, banks, parts);
    Some(Laid {
        high: any_high(banks),
        count,
        front: Front::new(front_of(&parts[..count])),
    })
}

// The bank of a core file that has one alone. A single bank is in order and apart from every other.
pub fn lone_bank(file: &[u8]) -> Option<Lone>
    ensures { Calls.Alone file.now result }
{
    let headers = Headers::read(file)?;
    let banks = headers.count_banks(file);
    if banks.count != 1 {
        return None;
    }
    let bank = elf::bank_at(file, banks.last);
    let part = bank.part(file.len() as u64);
    if apart::meets(0, 64, part) {
        return None;
    }
    if apart::meets(headers.at, headers.end(), part) {
        return None;
    }
    Some(Lone {
        high: capture::ends_high(bank.address, bank.size),
        front: Front::new(part),
    })
}
