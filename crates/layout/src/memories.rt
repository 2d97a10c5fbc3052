// The memories of captures, raw and core files: what walks read of them.
ghost use Rattle.std.specs.Prelude.{◌≡◌, ◌≤◌, ◌&&◌, eqb, length, [], ◌∷◌, IfSome};
ghost use Rattle.std.specs.Option.{is_none, is_some};
ghost use Rattle.capture.specs.Capture.{any_high, memory};
ghost use Rattle.capture.specs.Calls as Captures;
ghost use Rattle.layout.specs.Elf.{banks, is_core};
ghost use Rattle.layout.specs.Layout as Layouts;

use crate::{MOST_BANKS, lay_out, lone_bank};
use capture::Part;
use capture::view::{OnePart, Parts};

// Room for the parts of a core file, as `NO_BANKS` is for its banks.
pub const NO_PARTS: [Part; MOST_BANKS] = [Part {
    address: 0,
    from: 0,
    to: 0,
}; MOST_BANKS];

// A raw capture, of which the first byte lies at base, unless it ends past 2^48.
pub fn raw<'a>(bytes: &'a [u8], base: u64) -> Option<OnePart<'a>>
    ensures high { is_none result ≡ any_high (Layouts.layout (Layouts.raw base) bytes.now).banks }
    ensures finds { IfSome result (λ v. memory (v.front.part ∷ []) v.file.now ≡ Layouts.captured (Layouts.raw base) bytes.now) }
    ensures held { IfSome result (λ v. Captures.Held v.front [] v.file.now) }
{
    OnePart::raw(bytes, base)
}

// A core file that is accepted and has one bank alone, unless that ends past 2^48: no room is needed for parts behind it. It is read as
// one of many is, for the question over a core file has both: over one type of memory the compiler makes one walk for them, and with two
// a question takes up to a third longer.
pub fn lone<'a>(file: &'a [u8]) -> Option<Option<Parts<'a>>>
    ensures found { is_some result ≡ (is_core file.now && eqb (length (banks file.now)) 1) }
    ensures high { IfSome result (λ m. is_none m ≡ any_high (banks file.now)) }
    ensures finds { IfSome result (λ m. IfSome m (λ v. Captures.captured v.front v.parts.now v.file.now ≡ Layouts.captured Layouts.core file.now)) }
{
    let lone = lone_bank(file)?;
    if lone.high {
        return Some(None);
    }
    let one = OnePart {
        file,
        front: lone.front,
    };
    Some(Some(one.as_parts()))
}

// A core file that is accepted, unless a bank ends past 2^48, by room for all banks that it may have.
pub fn core<'a>(file: &'a [u8], room: &'a mut [Part]) -> Option<Option<Parts<'a>>>
    requires { 64 ≤ length room.old }
    ensures found { is_some result ≡ is_core file.now }
    ensures high { IfSome result (λ m. is_none m ≡ any_high (banks file.now)) }
    ensures finds { IfSome result (λ m. IfSome m (λ v. Captures.captured v.front v.parts.now v.file.now ≡ Layouts.captured Layouts.core file.now)) }
{
    let laid = lay_out(file, room)?;
    if laid.high {
        return Some(None);
    }
    Some(Some(Parts {
        file,
        front: laid.front,
        parts: &room[..laid.count],
    }))
}
