// The access to each address of a list, with one kind, EL and size, from prepared stages.
#![tactic(auto)]

ghost use Rattle.std.specs.Prelude.{◌≡◌, true, ◌≤◌, length};
ghost use Rattle.bits.specs.Bits.{pick};
ghost use Rattle.access.specs.Access.{listed_size};
ghost use Rattle.walk.specs.Ends.{passed};
ghost use Rattle.walk.specs.Prepared.{stage2_of};
ghost use Rattle.stages.specs.Prepared.{stage1_of};
ghost use Rattle.accesses.specs.Calls.{Each};

use access::{Access, SizedAccess};
use reads::Memory;
use stages::both;
use stages::both::{Arrival, By};
use stages::prepared::Prepared1;
use walk::end;
use walk::end::{End, Ending};
use walk::prepared::Prepared2;

// The output address, or 0 for an address that is not translated.
fn output_of(e: End) -> u64
    ensures { result ≡ pick (passed e.ending) e.address 0 }
{
    let ending = e.ending;
    let address = e.address;
    if end::passed(ending) { address } else { 0 }
}

// Answers each address: the number of its answer, and its output. Gives how the last access ended: where nothing is asked of an end but
// its number and its output, the compiler makes all ways to end an access into one, and the loop slower.
pub fn each<M: Memory>(
    memory: &M,
    p: Prepared1,
    q: Prepared2,
    kind: u64,
    el: u64,
    size: u64,
    addresses: &[u64],
    outputs: &mut [u64],
    numbers: &mut [u64],
    log: &mut [u64],
) -> Arrival
    requires { (listed_size size ≡ true) × (24 ≤ length log.old) × (length outputs.old ≡ length addresses.now) × (length numbers.old ≡ length addresses.now) }
    ensures { Each (M.finds memory.now) (stage1_of p) (stage2_of q) (λ x. record { address = x; kind = kind; el = el; size = size }) addresses.now log.old result outputs.new numbers.new log.new }
{
    let mut last = Arrival {
        by: By::First,
        end: end::stopped(Ending::Unsettled, 0, 0),
        ipa: 0,
        left1: 0,
        word1: 0,
    };
    for (i, address) in addresses.iter().enumerate() {
        let a = SizedAccess {
            access: Access {
                address: *address,
                kind,
                el,
                size,
            },
        };
        last = both::access(memory, p, q, a, log);
        let end = last.end;
        outputs[i] = output_of(end);
        numbers[i] = answers::ending_number(end.ending);
    }
    last
}
