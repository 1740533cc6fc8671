// Numbers in a byte buffer, the low byte first (document 01: "stored numbers little-endian"): a reader for each width
// and for a row of eight. Offsets are the business of those who call. Each promise says which bytes make the number:
// neither the high byte first nor the bytes of a neighbouring place give the same. A reader and a writer by themselves for
// each width: the library's from_le_bytes and to_le_bytes are of each type, and of no trait.
ghost use Rattle.std.specs.Prelude.{◌≡◌, ◌+◌, ◌≤◌, length};
ghost use Rattle.model.specs.Lists.{part};
ghost use Rattle.model.specs.Bytes.{half, word, eight_bytes, eight_halves};

use std::array;

// N bytes from a place on, lent. Neither the bytes of a neighbouring place nor a byte too few meets the promise.
pub fn part_at<const N: usize>(s: &[u8], at: usize) -> &[u8; N]
    requires { at + N ≤ length s.now }
    ensures { result.now ≡ part s.now at N }
{
    s[at..at + N].as_array().unwrap()
}

pub fn u16_at(s: &[u8], at: usize) -> u16
    requires { at + 2 ≤ length s.now }
    ensures { result ≡ half s.now at }
{
    u16::from_le_bytes(*part_at(s, at))
}

pub fn u32_at(s: &[u8], at: usize) -> u32
    requires { at + 4 ≤ length s.now }
    ensures { result ≡ word s.now at }
{
    u32::from_le_bytes(*part_at(s, at))
}

#[tactic(auto, unfolding(model::specs::Bytes::eight_bytes))]
pub fn eight_bytes_at(s: &[u8], at: usize) -> [u8; 8]
    requires { at + 8 ≤ length s.now }
    ensures { result ≡ eight_bytes s.now at }
{
    *part_at(s, at)
}

pub fn eight_halves_at(s: &[u8], at: usize) -> [u16; 8]
    requires { at + 16 ≤ length s.now }
    ensures { result ≡ eight_halves s.now at }
{
    array::from_fn(|i| u16_at(s, at + 2 * i))
}
