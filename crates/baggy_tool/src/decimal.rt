//! Decimal numbers with an upper bound.
ghost use Rattle.std.specs.Prelude.{◌≡◌, ◌<◌, true};
ghost use Rattle.std.specs.List.{list_all};
ghost use Rattle.std.specs.Char.{is_ascii_digit};
ghost use Rattle.baggy_tool.specs.Decimal.{number_within};

/// The number that the digits stand for, if it is at most `most`.
pub(crate) fn number_within(most: u64, digits: &[u8]) -> Option<u64>
    requires digits { list_all is_ascii_digit digits.now ≡ true }
    requires most { most < 1152921504606846976 }
    ensures { result ≡ number_within most digits.now }
{
    let mut number = 0;
    for digit in digits {
        number = 10 * number + u64::from(*digit - b'0');
        if number > most {
            return None;
        }
    }
    Some(number)
}
