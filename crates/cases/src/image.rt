// The capture that the cases start from.
// Writes a word, least significant byte first, as far as it fits.
pub(crate) fn put(bytes: &mut [u8], at: usize, word: u64) {
    for (byte, new) in bytes.iter_mut().skip(at).zip(word.to_le_bytes()) {
        *byte = new;
    }
}

pub(crate) fn put_all(bytes: &mut [u8], words: &[(usize, u64)]) {
    for &(at, word) in words {
        put(bytes, at, word);
    }
}

// Zero but for some words.
pub(crate) fn of<const N: usize>(words: &[(usize, u64)]) -> [u8; N] {
    let mut bytes = [0; N];
    put_all(&mut bytes, words);
    bytes
}

pub(crate) fn case_a() -> [u8; 0x8000] {
    of(&[
        (0x0, 0x4000_1003),
        (0x1000, 0x4000_2003),
        (0x2008, 0x4000_37ff),
        (0x2010, 0x4000_47ff),
        (0x2018, 0x4000_57ff),
        (0x2280, 0x9_07ff),
        (0x3000, 0x2003),
        (0x4000, 0x3003),
        (0x5008, 0x5_0743),
    ])
}
