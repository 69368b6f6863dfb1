//! The number that the text of a value is.

ghost use Rattle.std.specs.Prelude.{◌≡◌};
ghost use Rattle.std.specs.Char.{is_ascii_digit as digit_test};
ghost use Rattle.std.specs.List.{list_all};
ghost use Rattle.xm_options.specs.Grammar.{number_in as number_of, starts_as_number as start_test};

use crate::option::LongOption;

fn are_digits(text: &[u8]) -> bool
    ensures { result ≡ list_all digit_test text.now }
{
    text.iter().all(|byte| byte.is_ascii_digit())
}

/// The text is not empty, and has no zero before another digit.
fn starts_as_number(text: &[u8]) -> bool
    ensures { result ≡ start_test text.now }
{
    match text {
        [] => false,
        [_] => true,
        [first, ..] => *first != b'0',
    }
}

/// The number that a decimal text is, where it lies in the option's range.
pub(crate) fn number_in(option: &LongOption, text: &str) -> Option<u64>
    ensures { result ≡ number_of option.now text.now }
{
    let LongOption { low, high, .. } = *option;
    let bytes = text.as_bytes();
    if !are_digits(bytes) || !starts_as_number(bytes) {
        return None;
    }
    match text.parse::<u64>() {
        Ok(number) if low <= number && number <= high => Some(number),
        Ok(_) => None,
        Err(_) => None,
    }
}
