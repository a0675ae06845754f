//! Where a head begins and ends.
ghost use Rattle.std.specs.Prelude.{◌≡◌, ◌≤◌, length, IfSome};
ghost use Rattle.cat_http.specs.Lines.{empty_line, blank, head_length, line_count};

/// The length of the empty line at the front, or 0.
fn empty_line_length(bytes: &[u8]) -> usize
    ensures value { result ≡ empty_line bytes.now }
    ensures within { result ≤ length bytes.now }
{
    match bytes {
        [b'\n', ..] => 1,
        [b'\r', b'\n', ..] => 2,
        _ => 0,
    }
}

/// How many bytes the empty lines at the front have.
pub fn blank_length(bytes: &[u8]) -> usize
    ensures value { result ≡ blank bytes.now }
    ensures within { result ≤ length bytes.now }
{
    let mut at = 0;
    'lines: while at < bytes.len() {
        let length = empty_line_length(&bytes[at..]);
        if length == 0 {
            break;
        }
        at += length;
    }
    at
}

/// The length of the head at the front, up to the end of its first empty line.
pub fn find_head(bytes: &[u8]) -> Option<usize>
    ensures value { result ≡ head_length bytes.now }
    ensures within { IfSome result (λ n. n ≤ length bytes.now) }
{
    for i in 0..bytes.len() {
        if bytes[i] == b'\n' {
            let length = empty_line_length(&bytes[i + 1..]);
            if length > 0 {
                return Some(i + 1 + length);
            }
        }
    }
    None
}

/// How many lines end in the bytes.
pub fn count_lines(bytes: &[u8]) -> usize
    ensures { result ≡ line_count bytes.now }
{
    bytes.iter().filter(|b| **b == b'\n').count()
}
