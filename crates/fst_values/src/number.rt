ghost use Rattle.std.specs.Prelude.{◌≡◌, ◌<◌, ◌+◌, ◌-◌, ◌*◌, ◌^◌, IsTrue};
ghost use Rattle.std.specs.Char.{is_ascii_digit};
ghost use Rattle.std.specs.Int.{IsInRange};
ghost use Rattle.std.specs.List.{list_all};
ghost use Rattle.std.specs.Option.{SomeIff};
ghost use Rattle.std.specs.Str.Parse.{AllDigits, digits_value};
ghost use Rattle.fst_base.specs.Primitives.{In128};
ghost use Rattle.fst_values.specs.Reading.{is_numeral, signed};

/// Whether the word is one digit or more.
pub fn is_numeral(word: &[u8]) -> bool
    ensures { result ≡ is_numeral word.now }
{
    word.len() > 0 && are_digits(word)
}

fn are_digits(word: &[u8]) -> bool
    ensures { result ≡ list_all is_ascii_digit word.now }
{
    word.iter().all(|byte| byte.is_ascii_digit())
}

/// The number with one more digit, or none where it is past 128 bits.
fn with_digit(number: u128, digit: u8) -> Option<u128>
    requires { IsInRange 48 57 digit }
    ensures { SomeIff result (number * 10 + (digit - 48) < 2 ^ 128) (number * 10 + (digit - 48)) }
{
    number.checked_mul(10)?.checked_add((digit - b'0') as u128)
}

/// The number that the digits write, or none where it is past 128 bits.
fn magnitude(digits: &[u8]) -> Option<u128>
    requires { AllDigits 10 digits.now }
    ensures { SomeIff result (digits_value 10 digits.now < 2 ^ 128) (digits_value 10 digits.now) }
{
    let mut number = 0;
    for digit in digits {
        let Some(longer) = with_digit(number, *digit) else {
            return None;
        };
        number = longer;
    }
    Some(number)
}

/// The number with its sign, or none where it is past 128 bits.
pub fn number(is_negative: bool, digits: &[u8]) -> Option<i128>
    requires { IsTrue (is_numeral digits.now) }
    ensures { SomeIff result (In128 (signed is_negative (digits_value 10 digits.now)))
        (signed is_negative (digits_value 10 digits.now)) }
{
    let Some(magnitude) = magnitude(digits) else {
        return None;
    };
    if is_negative {
        0i128.checked_sub_unsigned(magnitude)
    } else {
        0i128.checked_add_unsigned(magnitude)
    }
}
