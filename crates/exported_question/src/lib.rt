// The question over a raw capture as a call for programs in C and Rust, as those of `exported` are. It is a crate of its own so that it is
// compiled by itself: then the access has one caller, and all of the question becomes one function.
#![tactic(auto)]

ghost use Rattle.std.specs.Prelude.{◌≡◌};
ghost use Rattle.answers.specs.Question.{ask};
ghost use Rattle.layout.specs.Layout.{raw};
ghost use Rattle.exported.specs.Words as Numbers;

use access::Access;
use exported::Words;
use registers::{El1, El2};

// The question. A slice is a pointer and a length: of the capture's bytes, and of the log's words.
#[unsafe(no_mangle)]
pub extern "C" fn humpelkaas_translate(
    bytes: &[u8],
    base: u64,
    r: El2,
    g: El1,
    a: Access,
    log: &mut [u64],
) -> Words
    ensures answered { result ≡ Numbers.words (ask (raw base) bytes.now r g a log.old).answer }
    ensures logged { log.new ≡ (ask (raw base) bytes.now r g a log.old).log }
{
    exported::in_words(question::translate(bytes, base, r, g, a, log))
}
