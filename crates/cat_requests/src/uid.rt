//! Numbers of unique ids.
ghost use Rattle.std.specs.Prelude.{◌≡◌, ◌^◌, ◌<◌, ◌≤◌, length, true};
ghost use Rattle.std.specs.List.{list_all};
ghost use Rattle.cat_requests.specs.Uids as spec;

const PREFIX: &[u8] = b"00000000-0000-8000-8";

fn is_hex(byte: u8) -> bool
    ensures { result ≡ spec.is_hex byte }
{
    byte.is_ascii_digit() || (byte >= b'a' && byte <= b'f')
}

fn are_hex(bytes: &[u8]) -> bool
    ensures { result ≡ list_all spec.is_hex bytes.now }
{
    bytes.iter().all(|byte| is_hex(*byte))
}

// The value of a hexadecimal digit.
fn hex_digit(byte: u8) -> u64
    requires { spec.is_hex byte ≡ true }
    ensures value { result ≡ spec.hex_digit byte }
    ensures small { result < 16 }
{
    if byte < b':' {
        (byte - b'0') as u64
    } else {
        (byte - b'a') as u64 + 10
    }
}

// The number that hexadecimal digits write.
fn hex_value(digits: &[u8]) -> u64
    requires hex { list_all spec.is_hex digits.now ≡ true }
    requires short { length digits.now ≤ 12 }
    ensures value { result ≡ spec.hex_value digits.now }
    ensures below { result < 16 ^ length digits.now }
{
    let mut number: u64 = 0;
    for digit in digits {
        number = number * 16 + hex_digit(*digit);
    }
    number
}

// Whether the text has the form of a unique id.
fn is_uid(bytes: &[u8]) -> bool
    ensures value { result ≡ spec.is_uid bytes.now }
    ensures long { result ≡ true → length bytes.now ≡ 36 }
{
    bytes.len() == 36
        && &bytes[..20] == PREFIX
        && are_hex(&bytes[20..23])
        && bytes[23] == b'-'
        && are_hex(&bytes[24..36])
}

/// The number that a text is the unique id of, if it is one.
#[tactic(auto, unfolding(crate::specs::Uids::number_of_uid))]
pub fn number_of_uid(text: &str) -> Option<u64>
    ensures { result ≡ spec.number_of_uid text.now }
{
    let bytes = text.as_bytes();
    if !is_uid(bytes) {
        return None;
    }
    let high = hex_value(&bytes[20..23]);
    let low = hex_value(&bytes[24..36]);
    Some(high * (1 << 48) + low)
}
