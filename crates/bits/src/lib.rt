// Fields of a word, by shifts and remainders. A shift of a word must be by less than 64, so each function tests its amount first.
#![tactic(auto)]

ghost use Rattle.std.specs.Prelude.{◌≡◌};
ghost use Rattle.bits.specs.Bits as Bits;

// Bit i of x is set.
pub fn bit(x: u64, i: u64) -> bool
    ensures { result ≡ Bits.bit x i }
{
    i < 64 && (x >> i) % 2 == 1
}

// n bits of x, from bit low up.
pub fn field(x: u64, low: u64, n: u64) -> u64
    ensures { result ≡ Bits.field x low n }
{
    if low < 64 {
        if n < 64 {
            (x >> low) % (1 << n)
        } else {
            x >> low
        }
    } else {
        0
    }
}

// Bits 47 down to low of x, in their places.
pub fn upper(x: u64, low: u64) -> u64
    ensures { result ≡ Bits.upper x low }
{
    if low < 48 {
        x % 0x1_0000_0000_0000 >> low << low
    } else {
        0
    }
}
