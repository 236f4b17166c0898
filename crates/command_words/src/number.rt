ghost use Rattle.std.specs.Prelude.{◌≡◌, ◌≤◌, IfSome};
ghost use Rattle.std.specs.List.{list_all};
ghost use Rattle.std.specs.Char.{is_ascii_digit};
ghost use Rattle.command_words.specs.Numbers.{is_number, number_of, number_between};

/// How many digits a number may have.
const MAX_DIGITS: usize = 10;

/// The number that a text spells, where it lies from `least` to `most`: 1 to 10 digits, and no sign.
pub fn number_between(text: &str, least: u32, most: u32) -> Option<u32>
    ensures number { result ≡ number_between least most text.now }
    ensures inside { IfSome result (λ n. (least ≤ n) × (n ≤ most)) }
{
    let number = number_of(text)?;
    if u64::from(least) <= number && number <= u64::from(most) {
        Some(number as u32)
    } else {
        None
    }
}

fn number_of(text: &str) -> Option<u64>
    ensures { result ≡ number_of text.now }
{
    if !is_number(text) {
        return None;
    }
    text.parse::<u64>().ok()
}

fn is_number(text: &str) -> bool
    ensures { result ≡ is_number text.now }
{
    !text.is_empty() && text.len() <= MAX_DIGITS && has_digits(text.as_bytes())
}

fn has_digits(text: &[u8]) -> bool
    ensures { result ≡ list_all is_ascii_digit text.now }
{
    text.iter().all(|byte| byte.is_ascii_digit())
}
