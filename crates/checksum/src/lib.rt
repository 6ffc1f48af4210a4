// Modbus CRC-16 (01, "The bus"; the rule is the Modbus standard's).
#![tactic(auto)]

ghost use Rattle.std.specs.Prelude.{◌≡◌, ◌≤◌, length, take};
ghost use Rattle.checksum.specs.Checksum.{shifts, checksum_from, checksum_of};

use integers::bytes::four_to_eight_at;

// Sixty-four shifts at once, with no table: modulo X^15 + X + 1, X^30 is X^2 + 1 and X^15 is X + 1, so
// the low bits are folded 28, 14 and 9 places up, and an odd number of ones turns over C001.
fn sixty_four_shifts(x: u64) -> u16
    ensures { result ≡ shifts 64 x }
{
    let low = x % 0x1000_0000;
    let upper = (x >> 28) ^ low ^ (low * 4);
    let multiple = upper ^ (upper * 2);
    let folded = (multiple >> 14) ^ (multiple % 0x4000) ^ (multiple % 0x4000 * 2);
    let remainder = (folded >> 9) ^ (folded % 512 * 32) ^ (folded % 512 * 64);
    let odd = (u64::count_ones(x ^ remainder) % 2) as u16;
    ((remainder * 2) as u16) ^ (odd * 0xc001)
}

// Four to eight bytes, taken in at once as one number: its shifts are sixty-four of it as many places higher as they are fewer.
fn take_number(sum: u16, bytes: &[u8]) -> u16
    requires { (4 ≤ length bytes.now) × (length bytes.now ≤ 8) }
    ensures { result ≡ checksum_from sum bytes.now }
{
    let count = bytes.len();
    let number = (sum as u64) ^ four_to_eight_at(bytes, 0, count);
    sixty_four_shifts(number << (64 - 8 * (count as u64)))
}

// The checksum of the first `count` bytes, or of all that there are.
pub fn checksum(bytes: &[u8], count: usize) -> u16
    ensures { result ≡ checksum_of (take count bytes.now) }
{
    checksum_of_all(&bytes[..count.min(bytes.len())])
}

fn checksum_of_all(bytes: &[u8]) -> u16
    ensures { result ≡ checksum_of bytes.now }
{
    let mut sum: u16 = 0xffff;
    let mut rest = bytes;
    while let Some((eight, others)) = rest.split_at_checked(8) {
        sum = take_number(sum, eight);
        rest = others;
    }
    match rest.len() {
        0 => sum,
        1..=3 => take_few(sum, rest),
        _ => take_number(sum, rest),
    }
}

// One to seven bytes, taken in at once: each is set at the top of a word, the last one topmost, and the sum on the first. What of the
// sum is above them only moves down. Each byte is read by itself, so that a compiler finds those that were just stored.
fn take_few(sum: u16, bytes: &[u8]) -> u16
    requires { (1 ≤ length bytes.now) × (length bytes.now ≤ 7) }
    ensures { result ≡ checksum_from sum bytes.now }
{
    let n = bytes.len() as u64;
    let mut word: u64 = 0;
    for i in 0..n {
        word += (bytes[(n - 1 - i) as usize] as u64) << (56 - 8 * i);
    }
    let above = ((sum as u64) >> (8 * n)) as u16;
    sixty_four_shifts(word ^ ((sum as u64) << (64 - 8 * n))) ^ above
}

// The checksum of the first one to seven bytes, as a reply has: they were just stored.
pub fn checksum_of_few(bytes: &[u8], count: usize) -> u16
    requires { (1 ≤ count) × (count ≤ 7) × (count ≤ length bytes.now) }
    ensures { result ≡ checksum_of (take count bytes.now) }
{
    take_few(0xffff, &bytes[..count])
}
