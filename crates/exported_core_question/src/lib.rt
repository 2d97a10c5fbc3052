// The question over a core file as a call for programs in C and Rust, as those of `exported` are. It is a crate of its own so that it is
// compiled by itself, as the question over a raw capture is.
#![tactic(auto)]

ghost use Rattle.std.specs.Prelude.{◌≡◌};
ghost use Rattle.answers.specs.Question.{ask};
ghost use Rattle.layout.specs.Layout.{core};
ghost use Rattle.exported.specs.Words as Numbers;

use access::Access;
use exported::Words;
use registers::{El1, El2};

// The question, by the bytes of the file. A slice is a pointer and a length: of bytes, and of the log's words.
#[unsafe(no_mangle)]
pub extern "C" fn humpelkaas_core_translate(
    file: &[u8],
    r: El2,
    g: El1,
    a: Access,
    log: &mut [u64],
) -> Words
    ensures answered { result ≡ Numbers.words (ask core file.now r g a log.old).answer }
    ensures logged { log.new ≡ (ask core file.now r g a log.old).log }
{
    exported::in_words(question::translate_core(file, r, g, a, log))
}
