// Whole numbers as words of a line.
ghost use Rattle.std.specs.Prelude.{◌≡◌, ◌+◌, ◌≤◌, ◌^◌, true, IfSome, IfNone};
ghost use Rattle.std.specs.Char.{is_ascii_digit};
ghost use Rattle.std.specs.List.{list_all};
ghost use Rattle.branch_script.specs.Numbers.{integer_of, place_of, positive_of, read_on};

// Whether each byte is a digit.
fn all_digits(word: &[u8]) -> bool
    ensures { result ≡ list_all is_ascii_digit word.now }
{
    word.iter().all(|digit| digit.is_ascii_digit())
}

// The number that digits say, or nothing where it is too large for 64 bits.
fn read_digits(word: &[u8]) -> Option<u64>
    requires { list_all is_ascii_digit word.now ≡ true }
    ensures some { IfSome result (λ n. n ≡ read_on 0 word.now) }
    ensures none { IfNone result (2 ^ 64 ≤ read_on 0 word.now) }
{
    let mut value: u64 = 0;
    for digit in word {
        value = value
            .checked_mul(10)?
            .checked_add(u64::from(*digit - b'0'))?;
    }
    Some(value)
}

// The number below a bound that digits say, of which the first is not 0.
fn positive(word: &[u8], bound: u64) -> Option<u64>
    requires { bound ≤ 2 ^ 63 + 1 }
    ensures { result ≡ positive_of bound word.now }
{
    if word.first().is_none_or(|digit| *digit == b'0') || !all_digits(word) {
        return None;
    }
    match read_digits(word) {
        Some(value) if value < bound => Some(value),
        _ => None,
    }
}

/// The whole number of 64 bits that a word says.
pub fn integer(word: &[u8]) -> Option<i64>
    ensures { result ≡ integer_of word.now }
{
    match word {
        b"0" => Some(0),
        [b'-', digits @ ..] => {
            let size = positive(digits, (1 << 63) + 1)?;
            Some(0i64.wrapping_sub_unsigned(size))
        }
        _ => {
            let size = positive(word, 1 << 63)?;
            Some(size as i64)
        }
    }
}

/// The number of 32 bits that a word says, without sign or leading zero.
pub fn place(word: &[u8]) -> Option<u32>
    ensures { result ≡ place_of word.now }
{
    if word == b"0".as_slice() {
        return Some(0);
    }
    let number = positive(word, 1 << 32)?;
    Some(number as u32)
}
