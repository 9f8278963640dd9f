// Texts as bytes: decimal numbers and runs of bytes, written into a lent part of a buffer and read from a part of a text.
#![tactic(auto)]

ghost use Rattle.std.specs.Prelude.{◌≡◌, ◌∷◌, ◌+◌, ◌≤◌, ◌<◌, length};
ghost use Rattle.text.specs.Digits.{digits, lead, number};
ghost use Rattle.text.specs.Written.{Written, WrittenAt};

// Writes text at the start of out, and returns the bytes used.
pub fn put_bytes(out: &mut [u8], text: &[u8]) -> usize
    requires { length text.now ≤ length out.old }
    ensures { Written text.now out.old out.new result }
{
    out[..text.len()].copy_from_slice(text);
    text.len()
}

// Writes text from the place `at` on, into the rest of out, and returns the next place.
pub fn put_bytes_at(out: &mut [u8], at: usize, text: &[u8]) -> usize
    requires { at + length text.now ≤ length out.old }
    ensures { WrittenAt at text.now out.old out.new result }
{
    at + put_bytes(&mut out[at..], text)
}

// Writes the last digit of n, nothing if n is 0, at the place `at`, and returns the next place.
fn put_lead(out: &mut [u8], at: usize, n: usize) -> usize
    requires { at < length out.old }
    ensures { WrittenAt at (lead n) out.old out.new result }
{
    if n == 0 {
        return at;
    }
    out[at] = b'0' + (n % 10) as u8;
    at + 1
}

// Writes the digits of a number below 10,000 at the start of out, and returns how many they are.
fn put_below_10000(out: &mut [u8], n: usize) -> usize
    requires n_bound { n < 10000 }
    requires n_in_bounds { length (digits n) ≤ length out.old }
    ensures { Written (digits n) out.old out.new result }
{
    let tenth = n / 10;
    let hundredth = tenth / 10;
    let a = put_lead(out, 0, hundredth / 10);
    let b = put_lead(out, a, hundredth);
    let c = put_lead(out, b, tenth);
    out[c] = b'0' + (n % 10) as u8;
    c + 1
}

// Writes the decimal digits of n at the start of out, and returns how many they are. Up to four digits there is no recursion.
pub fn put_number(out: &mut [u8], n: usize) -> usize
    requires { length (digits n) ≤ length out.old }
    ensures { Written (digits n) out.old out.new result }
{
    if n < 10000 {
        return put_below_10000(out, n);
    }
    let k = put_number(out, n / 10);
    put_lead(out, k, n)
}

// Writes the digits of n from the place `at` on, into the rest of out, and returns the next place.
pub fn put_number_at(out: &mut [u8], at: usize, n: usize) -> usize
    requires { at + length (digits n) ≤ length out.old }
    ensures { WrittenAt at (digits n) out.old out.new result }
{
    at + put_number(&mut out[at..], n)
}

// Writes a space and the digits of n from the place `at` on, and returns the next place.
pub fn put_spaced(out: &mut [u8], at: usize, n: usize) -> usize
    requires { at + length (32 ∷ digits n) ≤ length out.old }
    ensures { WrittenAt at (32 ∷ digits n) out.old out.new result }
{
    out[at] = b' ';
    put_number_at(out, at + 1, n)
}

// The number that s says in one to `most` digits.
pub fn read_number(s: &[u8], most: usize) -> Option<usize>
    requires { most ≤ 6 }
    ensures { result ≡ number most s.now }
{
    if s.is_empty() || most < s.len() {
        return None;
    }
    let mut v = 0;
    for b in s {
        match b {
            b'0'..=b'9' => v = v * 10 + (usize::from(*b) - usize::from(b'0')),
            _ => return None,
        }
    }
    Some(v)
}
