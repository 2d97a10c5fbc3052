// Captures: what descriptor lies at a physical address.
#![tactic(auto)]

ghost use Rattle.std.specs.Prelude.{◌≡◌, ℕ, ◌+◌, ◌-◌, ◌*◌, ◌^◌, ◌<◌, ◌≤◌, List, [], ◌∷◌, length, slice_index_or};
ghost use Rattle.reads.specs.Program.{Reader};
ghost use Rattle.capture.specs.Capture as Captures;
ghost use Rattle.capture.specs.Calls as Calls;

pub mod view;

// A bank as its header says it: the physical address of its first byte, where that byte stands in the file, and how many there are.
#[derive(Clone, Copy)]
pub struct Bank {
    pub address: u64,
    pub offset: u64,
    pub size: u64,
}

// What a file has of a bank: its bytes from one place to before another, which stand at a physical address.
#[derive(Clone, Copy)]
pub struct Part {
    pub address: u64,
    pub from: usize,
    pub to: usize,
}

// The part that is tried before the others are searched, with what takes an address to its place in the part: 2^64 less the part's own.
// It is a word beside the address, so that compiled code adds it to where the bytes stand once, and to no address of a descriptor.
#[derive(Clone, Copy)]
pub struct Front {
    pub part: Part,
    pub back: u64,
}

// Where the eight bytes of a descriptor stand: in a part of the file, so far from its start.
#[derive(Clone, Copy)]
pub struct Spot {
    pub from: usize,
    pub to: usize,
    pub at: usize,
}

impl Bank {
    // What a file of some bytes has of it. A sum that would wrap is past the end of any file.
    pub fn part(self, length: u64) -> Part
        ensures { result ≡ Captures.part length self }
    {
        let from = self.offset.min(length);
        let to = self.offset.saturating_add(self.size).min(length);
        Part {
            address: self.address,
            from: from as usize,
            to: to as usize,
        }
    }
}

impl Part {
    // How many bytes of its bank the file has.
    pub fn kept(self) -> u64
        ensures { result ≡ Captures.kept self }
    {
        self.to.saturating_sub(self.from) as u64
    }

    // The descriptor at a physical address no lower than the part's, if all eight bytes are in the part.
    fn spot(self, address: u64) -> Option<Spot>
        requires { self.address ≤ address }
        ensures { result ≡ Calls.spot_in self address }
    {
        let at = address - self.address;
        if at < self.kept().saturating_sub(7) {
            Some(Spot {
                from: self.from,
                to: self.to,
                at: at as usize,
            })
        } else {
            None
        }
    }
}

impl Front {
    // A part as the one in front.
    pub fn new(part: Part) -> Front
        ensures { result ≡ Calls.ahead part }
    {
        Front {
            part,
            back: 0u64.wrapping_sub(part.address),
        }
    }
}

// Some bytes at an address end past 2^48. A sum that would wrap does too.
pub fn ends_high(address: u64, size: u64) -> bool
    ensures { result ≡ Captures.ends_high address size }
{
    address.saturating_add(size) > 0x1_0000_0000_0000
}

// The eight bytes from a place on as a word, the least first. It compiles to one load.
pub fn word(bytes: &[u8], i: usize) -> u64
    requires { i + 8 ≤ length bytes.now }
    ensures { let byte = slice_index_or bytes.now in
        result ≡ byte i 0 + byte (i + 1) 0 * 0x100 + byte (i + 2) 0 * 0x1_0000 + byte (i + 3) 0 * 0x100_0000
        + byte (i + 4) 0 * 0x1_0000_0000 + byte (i + 5) 0 * 0x100_0000_0000 + byte (i + 6) 0 * 0x1_0000_0000_0000
        + byte (i + 7) 0 * 0x100_0000_0000_0000 }
{
    u64::from_le_bytes([
        bytes[i],
        bytes[i + 1],
        bytes[i + 2],
        bytes[i + 3],
        bytes[i + 4],
        bytes[i + 5],
        bytes[i + 6],
        bytes[i + 7],
    ])
}

// The descriptor at a physical address of the bytes that stand at base. One comparison tells whether all eight are there: below base
// the difference wraps to 2^64 - base or more, which is no less than the number of bytes.
fn read_bytes(bytes: &[u8], base: u64, back: u64, address: u64) -> Option<u64>
    requires { (base + length bytes.now ≤ 2 ^ 64) × (back ≡ Calls.back_of base) }
    ensures { result ≡ Captures.found base bytes.now address }
{
    let room = (bytes.len() as u64).saturating_sub(7);
    let at = address.wrapping_sub(base);
    if at >= room {
        return None;
    }
    let place = address.wrapping_add(back);
    Some(word(bytes, place as usize))
}

// The descriptor at a physical address, if the part in front has it.
fn read_front(file: &[u8], front: Front, address: u64) -> Option<u64>
    requires { Calls.Leads (length file.now) front }
    ensures { (reader : Reader) →
        result ≡ Captures.memory (front.part ∷ []) file.now (record { reader = reader; address = address }) }
{
    let part = front.part;
    let from = part.from;
    let to = part.to;
    read_bytes(&file[from..to], part.address, front.back, address)
}

// How many parts start at or below an address. They ascend, so that each step halves the search.
fn starting_by(parts: &[Part], address: u64) -> usize
    requires { Calls.Rising parts.now }
    ensures { Calls.StartingBy parts.now address result }
{
    parts.partition_point(|p| p.address <= address)
}

// Where the descriptor at a physical address stands: in the only part that may have it, the last that starts at or below it.
fn find(parts: &[Part], address: u64) -> Option<Spot>
    requires { Calls.Rising parts.now }
    ensures { (file : List ℕ) → Calls.Ascending parts.now (length file) → Calls.Placed parts.now file address result }
{
    let last = starting_by(parts, address).checked_sub(1)?;
    parts[last].spot(address)
}

// The descriptor that stands there.
fn word_at(file: &[u8], s: Spot) -> u64
    requires { Calls.Inside (length file.now) s }
    ensures { result ≡ Calls.spelled file.now s }
{
    let from = s.from;
    let to = s.to;
    word(&file[from..to], s.at)
}

// The descriptor at a physical address, if one of some parts has it.
fn read_parts(file: &[u8], parts: &[Part], address: u64) -> Option<u64>
    requires { Calls.Ascending parts.now (length file.now) }
    ensures { (reader : Reader) →
        result ≡ Captures.memory parts.now file.now (record { reader = reader; address = address }) }
{
    let spot = find(parts, address)?;
    Some(word_at(file, spot))
}
