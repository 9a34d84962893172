// Numbers in a field.
ghost use Rattle.std.specs.Prelude.{◌≡◌};
ghost use Rattle.text.specs.Numbers.{read_number_of};

// The number that one or more decimal digits spell. None for no digits, another byte, or a number over the most.
pub fn read_number(digits: &[u8], most: u32) -> Option<u32>
    ensures { result ≡ read_number_of most digits.now }
{
    if digits.is_empty() {
        return None;
    }
    let mut value: u64 = 0;
    for byte in digits {
        if !byte.is_ascii_digit() {
            return None;
        }
        value = value * 10 + u64::from(*byte - b'0');
        if u64::from(most) < value {
            return None;
        }
    }
    Some(value as u32)
}
