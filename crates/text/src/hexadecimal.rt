// Bytes as hexadecimal digits, two to a byte.
ghost use Rattle.std.specs.Prelude.{◌≡◌, true, Some, is_some, ◌++◌, ◌+◌, ◌*◌, ◌/◌, ◌%◌, ◌≤◌, ◌<◌, length, drop};
ghost use Rattle.text.specs.Hexadecimal.{digit_of, hexadecimal, decoded, hex_digit, read_bytes_of, room_after, count_of};

// The digits that bytes are written in, by their values.
const DIGITS: [u8; 16] = *b"0123456789abcdef";

// The tests are joined by `|`, since no processor foresees which of them holds: in one pattern letters take half as long again.
fn is_digit(digit: u8) -> bool
    ensures { result ≡ is_some (digit_of digit) }
{
    matches!(digit, b'0'..=b'9') | matches!(digit, b'a'..=b'f') | matches!(digit, b'A'..=b'F')
}

// The value of a hexadecimal digit: the low half of its byte, and nine more of a letter. It makes no test, since no processor
// foresees whether a digit is a letter: with a `match` bytes take twice as long to read.
#[tactic(auto, using(crate::proofs::Laws::value_is))]
fn value(digit: u8) -> u8
    requires { is_some (digit_of digit) ≡ true }
    ensures { digit_of digit ≡ Some result }
{
    digit % 16 + 9 * (digit / 64)
}

// Whether every byte is a hexadecimal digit.
fn all_digits(digits: &[u8]) -> bool
    ensures { result ≡ hexadecimal digits.now }
{
    digits.iter().all(|digit| is_digit(*digit))
}

// Puts the bytes of an even number of digits at the start of the output.
fn decode(digits: &[u8], output: &mut [u8])
    requires digits_value { hexadecimal digits.now ≡ true }
    requires digits_len { length digits.now % 2 ≡ 0 }
    requires digits_in_bounds { length digits.now / 2 ≤ length output.old }
    ensures { output.new ≡ decoded digits.now ++ drop (length digits.now / 2) output.old }
{
    for i in 0..digits.len() / 2 {
        let high = value(digits[2 * i]);
        let low = value(digits[2 * i + 1]);
        output[i] = high * 16 + low;
    }
}

// Reads the bytes of a field into the start of the output; `.` is no bytes. None for no or an odd number of digits, another
// byte, or more bytes than the output has; then the output is as before.
pub fn read_bytes(digits: &[u8], output: &mut [u8]) -> Option<usize>
    ensures value { result ≡ read_bytes_of digits.now (length output.old) }
    ensures output_after { output.new ≡ room_after result digits.now output.old }
    ensures result_in_bounds { count_of result ≤ length output.new }
{
    if matches!(digits, [b'.']) {
        return Some(0);
    }
    let count = digits.len() / 2;
    if digits.is_empty() || digits.len() % 2 != 0 || output.len() < count || !all_digits(digits) {
        return None;
    }
    decode(digits, output);
    Some(count)
}

// The first of the two digits of a byte.
pub fn first_digit(byte: u8) -> u8
    ensures { result ≡ hex_digit (byte / 16) }
{
    DIGITS[usize::from(byte / 16)]
}

// The second of the two digits of a byte.
pub fn second_digit(byte: u8) -> u8
    ensures { result ≡ hex_digit (byte % 16) }
{
    DIGITS[usize::from(byte % 16)]
}
