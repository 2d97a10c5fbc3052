// Reads of descriptors: the memory that they are read from, here; programs of them, as trees, in specs/; the laws of all such programs in
// proofs/.
#![tactic(auto)]

ghost use Rattle.std.specs.Prelude.{◌≡◌, ℕ, Option, ◌<◌, length};
ghost use Rattle.reads.specs.Program.{Request, Reader};
ghost use Rattle.reads.specs.Log.{logged};

// A memory that walks read descriptors from. A read finds a word, or nothing where the descriptor's bytes are not all there.
pub trait Memory {
    ghost finds: { Self → Request → Option ℕ };

    // The descriptor at a physical address.
    fn read(&self, address: u64) -> Option<u64>
        ensures { (reader : Reader) → result ≡ finds self.now (record { reader = reader; address = address }) };

    // The same for a walk: the address of a descriptor that is there goes into the log.
    fn read_logged(&self, address: u64, log: &mut [u64], k: usize) -> Option<u64>
        requires { k < length log.old }
        ensures found { (reader : Reader) → result ≡ finds self.now (record { reader = reader; address = address }) }
        ensures noted { log.new ≡ logged result log.old k address };
}
