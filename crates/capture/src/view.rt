// What code reads of a file: one part of it, or many. The memories that walks read.
ghost use Rattle.std.specs.Prelude.{◌≡◌, [], ◌∷◌, length, ◌<◌, ℕ, true, false, MatchOption, IfSome};
ghost use Rattle.reads.specs.Program.{Reader};
ghost use Rattle.reads.specs.Log.{logged};
ghost use Rattle.capture.specs.Capture.{memory, ends_high};
ghost use Rattle.capture.specs.Calls.{captured, ahead, Leads, Held};

use crate::{Front, Part, ends_high, find, read_front, read_parts, word_at};
use reads::Memory;

// One part of a file: a raw capture, or a bank that is alone.
#[derive(Clone, Copy)]
pub struct OnePart<'a> {
    pub file: &'a [u8],
    pub front: Front,
    ghost leads: { Leads (length file.now) front },
}

// Many parts of a file. One of them is in front: it is tried before the others are searched, so that a capture of one bank costs one
// comparison for each descriptor.
#[derive(Clone, Copy)]
pub struct Parts<'a> {
    pub file: &'a [u8],
    pub front: Front,
    pub parts: &'a [Part],
    ghost held: { Held front parts.now file.now },
}

impl<'a> OnePart<'a> {
    // A raw capture, of which the first byte lies at base. There is none to read where it ends past 2^48.
    pub fn raw(bytes: &'a [u8], base: u64) -> Option<OnePart<'a>>
        ensures high { MatchOption result (ends_high base (length bytes.now) ≡ true) (λ _. ends_high base (length bytes.now) ≡ false) }
        ensures bytes { IfSome result (λ v. v.file.now ≡ bytes.now) }
        ensures front { IfSome result (λ v. v.front ≡ ahead (record { address = base; from = 0; to = length bytes.now })) }
    {
        let n = bytes.len();
        if ends_high(base, n as u64) {
            return None;
        }
        let part = Part {
            address: base,
            from: 0,
            to: n,
        };
        Some(OnePart {
            file: bytes,
            front: Front::new(part),
        })
    }
}

impl<'a> OnePart<'a> {
    // The same as many parts, with none behind the one in front.
    pub fn as_parts(self) -> Parts<'a>
        ensures { (result.file.now ≡ self.entry.file.now) × (result.front ≡ self.entry.front) × (result.parts.now ≡ []) }
    {
        Parts {
            file: self.file,
            front: self.front,
            parts: &[],
        }
    }
}

impl<'a> Memory for OnePart<'a> {
    ghost finds = { λ v. memory (v.front.part ∷ []) v.file.now };

    fn read(&self, address: u64) -> Option<u64> {
        read_front(self.file, self.front, address)
    }

    fn read_logged(&self, address: u64, log: &mut [u64], k: usize) -> Option<u64> {
        let word = read_front(self.file, self.front, address)?;
        log[k] = address;
        Some(word)
    }
}

impl<'a> Memory for Parts<'a> {
    ghost finds = { λ v. captured v.front v.parts.now v.file.now };

    fn read(&self, address: u64) -> Option<u64> {
        match read_front(self.file, self.front, address) {
            Some(word) => Some(word),
            None => read_parts(self.file, self.parts, address),
        }
    }

    // The front's word is read before its address is logged and another part's after it: alike, their reads would be compiled as one,
    // which a walk in the front part would reach by a jump.
    fn read_logged(&self, address: u64, log: &mut [u64], k: usize) -> Option<u64> {
        match read_front(self.file, self.front, address) {
            Some(word) => {
                log[k] = address;
                Some(word)
            }
            None => {
                let spot = find(self.parts, address)?;
                log[k] = address;
                Some(word_at(self.file, spot))
            }
        }
    }
}
