// The list of a core file's banks: where each lies, what the file has of it, and whether that is all (02, §1).
#![tactic(auto)]

ghost use Rattle.std.specs.Prelude.{◌≡◌, map, ◌≤◌, length};
ghost use Rattle.std.proofs.lemmas.List.Edits.{sets};
ghost use Rattle.banks.specs.Banks as Banks;

use answers::Refusal;
use capture::Bank;

// The number of the call's answer: 0 for how many banks there are.
pub fn number(answer: Result<u64, Refusal>) -> u64
    ensures { result ≡ Banks.banks_number answer }
{
    match answer {
        Ok(_) => 0,
        Err(why) => answers::refusal_number(why),
    }
}

// A list has fewer words than there may be banks.
fn too_short(addresses: usize, offsets: usize, lengths: usize, shorts: usize) -> bool
    ensures { result ≡ Banks.too_short addresses offsets lengths shorts }
{
    let most = layout::MOST_BANKS;
    (addresses < most) | (offsets < most) | (lengths < most) | (shorts < most)
}

// Each bank over the first words of the lists.
fn write_list(
    total: u64,
    banks: &[Bank],
    addresses: &mut [u64],
    offsets: &mut [u64],
    lengths: &mut [u64],
    shorts: &mut [u64],
)
    requires { (length banks.now ≤ length addresses.old) × (length banks.now ≤ length offsets.old) × (length banks.now ≤ length lengths.old) × (length banks.now ≤ length shorts.old) }
    ensures { (addresses.new ≡ sets addresses.old 0 (map (λ b. b.address) banks.now))
        × (offsets.new ≡ sets offsets.old 0 (map (λ b. b.offset) banks.now))
        × (lengths.new ≡ sets lengths.old 0 (map (Banks.kept_of total) banks.now))
        × (shorts.new ≡ sets shorts.old 0 (map (Banks.short_of total) banks.now)) }
{
    for (i, bank) in banks.iter().enumerate() {
        let kept = bank.part(total).kept();
        addresses[i] = bank.address;
        offsets[i] = bank.offset;
        lengths[i] = kept;
        shorts[i] = u64::from(kept < bank.size);
    }
}

// The banks of a core file, in the order of its headers, into lists of at least 64 words: the address of each, its offset in the file, how
// many of its bytes the file has, and 1 if these are fewer than its header says. The other words of the lists are kept. Gives how many
// banks there are. The caller lends the lists, as C does: there is no heap to make one of structs.
pub fn list(
    file: &[u8],
    addresses: &mut [u64],
    offsets: &mut [u64],
    lengths: &mut [u64],
    shorts: &mut [u64],
) -> Result<u64, Refusal>
    ensures { Banks.BanksTells (Banks.bank_list file.now addresses.old offsets.old lengths.old shorts.old) result addresses.new offsets.new lengths.new shorts.new }
{
    let mut banks = layout::NO_BANKS;
    let count = layout::read_headers(file, &mut banks).ok_or(Refusal::CoreFile)?;
    if too_short(addresses.len(), offsets.len(), lengths.len(), shorts.len()) {
        return Err(Refusal::ShortLog);
    }
    write_list(
        file.len() as u64,
        &banks[..count],
        addresses,
        offsets,
        lengths,
        shorts,
    );
    Ok(count as u64)
}
