// Reads a number word.
ghost use Rattle.std.specs.Prelude.{◌≡◌};
ghost use Rattle.std.specs.Str.{all_ascii_digits};
ghost use Rattle.script.specs.Numerals.{numeral};

// So many digits a number has at most.
const DIGITS: usize = 10;

fn is_digits(word: &[u8]) -> bool
    ensures { result ≡ all_ascii_digits word.now }
{
    word.iter().all(u8::is_ascii_digit)
}

// The value of 1 to 10 decimal digits, where it fits 32 bits.
pub fn number(word: &[u8]) -> Option<u32>
    ensures { result ≡ numeral word.now }
{
    // The library's reading also takes a sign, and any count of digits.
    if word.len() > DIGITS || !is_digits(word) {
        return None;
    }
    str::from_utf8(word).ok()?.parse().ok()
}
