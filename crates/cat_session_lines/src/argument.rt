//! The arguments of session lines.
ghost use Rattle.std.specs.Prelude.{◌≡◌, ◌^◌, ◌<◌, option_map, IfSome};
ghost use Rattle.std.specs.Char.{is_ascii_digit};
ghost use Rattle.std.specs.Option.{option_copied};
ghost use Rattle.std.specs.List.{list_all};
ghost use Rattle.cat_session_lines.specs.Arguments as spec;

const MOST_DIGITS: usize = 20;

const LAST_MOMENT: u64 = (1 << 53) - 1;

/// The bytes before the first space, or all, and those after it, if there is one.
pub fn parted(line: &[u8]) -> (&[u8], Option<&[u8]>)
    ensures { (result.0.now, option_copied result.1) ≡ spec.parted line.now }
{
    match line.iter().position(|&byte| byte == b' ') {
        Some(i) => (&line[..i], Some(&line[i + 1..])),
        None => (line, None),
    }
}

/// The first argument of two, and the rest of the line after its space.
pub fn two(text: &str) -> Option<(&str, &str)>
    ensures { option_map (λ p. (p.0.now, p.1.now)) result ≡ spec.two text.now }
{
    match text.split_once(' ') {
        Some((first, rest)) => Some((first, rest)),
        None => None,
    }
}

/// The text that the bytes are, if they are UTF-8.
pub fn utf8_in(bytes: &[u8]) -> Option<&str>
    ensures { option_copied result ≡ spec.utf8_in bytes.now }
{
    match str::from_utf8(bytes) {
        Ok(text) => Some(text),
        Err(_) => None,
    }
}

fn are_digits(bytes: &[u8]) -> bool
    ensures { result ≡ list_all is_ascii_digit bytes.now }
{
    bytes.iter().all(|byte| byte.is_ascii_digit())
}

fn is_number(text: &str) -> bool
    ensures { result ≡ spec.is_number text.now }
{
    0 < text.len() && text.len() <= MOST_DIGITS && are_digits(text.as_bytes())
}

/// The number of 1 to 20 decimal digits, below 2^64.
pub fn number(text: &str) -> Option<u64>
    ensures { result ≡ spec.number text.now }
{
    if !is_number(text) {
        return None;
    }
    text.parse().ok()
}

/// The moment of 1 to 20 decimal digits, below 2^53.
pub fn moment(text: &str) -> Option<u64>
    ensures value { result ≡ spec.moment text.now }
    ensures below { IfSome result (λ n. n < 2 ^ 53) }
{
    match number(text) {
        Some(moment) => {
            if moment <= LAST_MOMENT {
                Some(moment)
            } else {
                None
            }
        }
        None => None,
    }
}
