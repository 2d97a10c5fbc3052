// The headers of an ELF64 core file, little-endian.
ghost use Rattle.std.specs.Prelude.{◌≡◌, false, ◌+◌, ◌*◌, ◌^◌, ◌<◌, ◌≤◌, length, MatchOption};
ghost use Rattle.std.proofs.lemmas.List.Edits.{sets};
ghost use Rattle.layout.specs.Elf as Elf;
ghost use Rattle.layout.specs.Calls as Calls;

use crate::apart::ends_by;
use capture::Bank;

// The number in N bytes from a place on, of which there are at most eight.
fn number<const N: usize>(file: &[u8], at: usize) -> u64
    requires room { at + N ≤ length file.now }
    requires small { N ≤ 8 }
    ensures value { result ≡ Elf.number N at file.now }
    ensures bound { result < 256 ^ N }
{
    let mut bytes = [0u8; 8];
    bytes[..N].copy_from_slice(&file[at..at + N]);
    u64::from_le_bytes(bytes)
}

// An ELF header of this kind: its magic, class 64, little-endian, a core file (4) of machine 183, with program headers of 56 bytes.
fn is_of_kind(file: &[u8]) -> bool
    requires { 64 ≤ length file.now }
    ensures { result ≡ Elf.of_kind file.now }
{
    (number::<4>(file, 0) == 0x464c_457f)
        & (number::<1>(file, 4) == 2)
        & (number::<1>(file, 5) == 1)
        & (number::<2>(file, 16) == 4)
        & (number::<2>(file, 18) == 183)
        & (number::<2>(file, 54) == 56)
}

// Where the program headers stand, and how many there are, as the ELF header says.
#[derive(Clone, Copy)]
pub(crate) struct Headers {
    pub(crate) at: u64,
    pub(crate) count: u64,
}

// How many of some program headers are banks, and where the last of those stands.
#[derive(Clone, Copy)]
pub struct Tally {
    pub count: usize,
    pub last: usize,
}

impl Headers {
    // The program headers of a file that wholly has both kinds of headers.
    pub(crate) fn read(file: &[u8]) -> Option<Headers>
        ensures { MatchOption result (Elf.headed file.now ≡ false) (λ h. Calls.Heads file.now h) }
    {
        if file.len() < 64 || !is_of_kind(file) {
            return None;
        }
        let headers = Headers {
            at: number::<8>(file, 32),
            count: number::<2>(file, 56),
        };
        let fits = (headers.count == 0)
            | ends_by(headers.at, 56 * headers.count, file.len() as u64);
        fits.then_some(headers)
    }

    // Where they end.
    pub(crate) fn end(self) -> u64
        requires { self.at + 56 * self.count < 2 ^ 64 }
        ensures { result ≡ self.at + 56 * self.count }
    {
        self.at + 56 * self.count
    }

    // How many of them are banks.
    pub(crate) fn count_banks(self, file: &[u8]) -> Tally
        requires { Calls.There self (length file.now) }
        ensures { Calls.Tallies file.now self result }
    {
        let first = self.at as usize;
        let mut count = 0;
        let mut last = first;
        for i in 0..self.count as usize {
            let at = first + 56 * i;
            if is_bank(file, at) {
                count += 1;
                last = at;
            }
        }
        Tally { count, last }
    }

    // Those, over the first of the banks lent.
    pub(crate) fn write_banks(self, file: &[u8], banks: &mut [Bank])
        requires { Calls.There self (length file.now) × (length (Elf.banks_from self.count self.at file.now) ≤ length banks.old) }
        ensures { banks.new ≡ sets banks.old 0 (Elf.banks_from self.count self.at file.now) }
    {
        let first = self.at as usize;
        let mut count = 0;
        for i in 0..self.count as usize {
            let at = first + 56 * i;
            if is_bank(file, at) {
                banks[count] = bank_at(file, at);
                count += 1;
            }
        }
    }
}

fn is_bank(file: &[u8], at: usize) -> bool
    requires { at + 56 ≤ length file.now }
    ensures { result ≡ Elf.is_bank at file.now }
{
    number::<4>(file, at) == 1
}

// What a program header says of its bank.
pub(crate) fn bank_at(file: &[u8], at: usize) -> Bank
    requires { at + 56 ≤ length file.now }
    ensures { result ≡ Elf.bank_at at file.now }
{
    Bank {
        address: number::<8>(file, at + 24),
        offset: number::<8>(file, at + 8),
        size: number::<8>(file, at + 32),
    }
}
