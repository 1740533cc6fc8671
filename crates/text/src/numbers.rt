// Numbers as words, digits without a sign and without leading zeros, and lines of them with single spaces between.
ghost use Rattle.std.specs.Prelude.{◌≡◌, ◌≤◌, length};
ghost use Rattle.text.specs.Numbers.{number_in, numbers_in};

use super::parts::first_part;

const SPACE: u8 = b' ';

// No number of 32 bits has more digits.
const MAX_DIGITS: usize = 10;

// The number that a word is, of any length, if it is at most `most`. Ruled out: 2 for `02`; 0 for 4,294,967,296.
pub fn number_of(word: &[u8], most: u32) -> Option<u32>
    ensures { result ≡ number_in most word.now }
{
    if word.is_empty() {
        return None;
    }
    if MAX_DIGITS < word.len() {
        return None;
    }
    if word.len() != 1 && word[0] == b'0' {
        return None;
    }
    let mut value: u64 = 0;
    for b in word {
        if !b.is_ascii_digit() {
            return None;
        }
        value = value * 10 + u64::from(*b - b'0');
    }
    if u64::from(most) < value {
        return None;
    }
    Some(value as u32)
}

// The numbers of a line that has one for each entry of `most`, none above its entry, and nothing else; zeros stand after them. Ruled out: the first
// numbers of a longer line; those of a line that ends with a space.
pub fn numbers_in<const N: usize>(line: &[u8], most: &[u32]) -> Option<[u32; N]>
    requires { length most.now ≤ N }
    ensures { result ≡ numbers_in N most.now line.now }
{
    let mut numbers = [0; N];
    let mut left = Some(line);
    for (k, m) in most.iter().enumerate() {
        let (word, rest) = first_part(left?, SPACE);
        numbers[k] = number_of(word, *m)?;
        left = rest;
    }
    match left {
        Some(_) => None,
        None => Some(numbers),
    }
}
