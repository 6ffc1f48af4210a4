// Bytes and the number that they write; and the words of a number in two's complement.
ghost use Rattle.std.specs.Prelude.{◌≡◌, ◌+◌, ◌≤◌, ◌<◌, ◌^◌, length, take, drop};
ghost use Rattle.integers.specs.Bytes.{word_of, word_bytes, signed_of, unsigned_of, Put};

// The four bytes from a place on as one number, low byte first.
// Kept: `from_le_bytes` takes an array, and no bytes stand in one on the way from a frame to its reply (tools/no-copy).
pub fn four_at(bytes: &[u8], at: usize) -> u32
    requires { at + 4 ≤ length bytes.now }
    ensures { result ≡ word_of (take 4 (drop at bytes.now)) }
{
    let low = (bytes[at] as u32) + (bytes[at + 1] as u32) * 0x100;
    low + (bytes[at + 2] as u32) * 0x1_0000 + (bytes[at + 3] as u32) * 0x100_0000
}

// Four to eight bytes from a place on, likewise: the first four, and above them those of the last four
// that are left.
pub fn four_to_eight_at(bytes: &[u8], at: usize, count: usize) -> u64
    requires { (4 ≤ count) × (count ≤ 8) × (at + count ≤ length bytes.now) }
    ensures { result ≡ word_of (take count (drop at bytes.now)) }
{
    let first = four_at(bytes, at) as u64;
    let last = four_at(bytes, at + count - 4) as u64;
    first + (last >> (64 - 8 * (count as u64))) * 0x1_0000_0000
}

// Puts the `count` lowest bytes of a word into a buffer from a place on, low byte first.
// Kept: any count goes, so that the bytes are not a part of the eight of `to_le_bytes`.
pub fn put_word(out: &mut [u8], at: usize, word: u64, count: usize)
    requires { at + count ≤ length out.old }
    ensures { Put (word_bytes count word) out.old at out.new (at + count) }
{
    let mut rest = word;
    for i in 0..count {
        out[at + i] = (rest % 256) as u8;
        rest /= 256;
    }
}

// The number whose two's complement in so many bits the word is.
// Kept: std's `cast_signed` is of words of 8, 16, 32, 64 and 128 bits alone.
pub fn signed(word: u64, bits: u64) -> i64
    requires { (1 ≤ bits) × (bits ≤ 64) × (word < 2 ^ bits) }
    ensures { result ≡ signed_of bits word }
{
    let half: u64 = 1 << (bits - 1);
    if word < half {
        return word as i64;
    }
    -1 - ((half - 1 - (word - half)) as i64)
}

// The word of 64 bits whose two's complement the number is.
pub fn unsigned(v: i64) -> u64
    ensures { result ≡ unsigned_of v }
{
    v.cast_unsigned()
}
