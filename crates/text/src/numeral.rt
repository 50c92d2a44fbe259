// Numerals: base ten, no leading zero, a minus only before a number above zero.
ghost use Rattle.std.specs.Prelude.{◌≡◌, ◌<ℤ◌, ◌≤ℤ◌, min, pos, IfSome};
ghost use Rattle.std.specs.Option.{option_map};
ghost use Rattle.text.specs.Numeral.{most, kept, above, valued, ReadAs};

// Beyond every range that a format has.
const MOST: i32 = 100_000_000;

// The number above zero that the digits write, or MOST where it is more.
fn read_digits(digits: &[u8]) -> Option<i32>
    ensures value { result ≡ option_map pos (option_map (λ n. min n most) (above digits.now)) }
    ensures range { IfSome result (λ n. (pos 0 <ℤ n) × (n ≤ℤ pos most)) }
{
    let (first, rest) = digits.split_first()?;
    if !(b'1'..=b'9').contains(first) {
        return None;
    }
    let mut number = i32::from(first - b'0');
    for digit in rest {
        if !digit.is_ascii_digit() {
            return None;
        }
        number = (number * 10 + i32::from(digit - b'0')).min(MOST);
    }
    Some(number)
}

// The number that a numeral writes, held within a hundred million on either side of zero.
pub fn read_numeral(text: &[u8]) -> Option<i32>
    ensures reads { result ≡ option_map kept (valued text.now) }
    ensures numeral { ReadAs text.now result }
{
    match text {
        [b'-', digits @ ..] => read_digits(digits).map(|number| -number),
        [b'0', rest @ ..] => rest.is_empty().then_some(0),
        _ => read_digits(text),
    }
}
