// Reading: where a byte stands, and what numbers a field and a line write.
ghost use Rattle.std.specs.Prelude.{◌≡◌, ◌≤◌, length, MatchOption};
ghost use Rattle.texts.specs.Lines.{bytes_before, Parted};
ghost use Rattle.texts.specs.Numbers.{with_digit, digits_from, number_of, two, four, numbers_in};

// What the fields of a line write: two numbers, or four.
#[derive(Clone, Copy, Debug, PartialEq, Eq)]
pub enum Numbers {
    Two(u32, u32),
    Four(u32, u32, u32, u32),
}

// How many bytes stand before the first b: all of them where there is none.
pub fn bytes_before(s: &[u8], b: u8) -> usize
    ensures value { result ≡ bytes_before b s.now }
    ensures upper_bound { result ≤ length s.now }
{
    s.iter().position(|&x| x == b).unwrap_or(s.len())
}

// What stands before the first b, and behind it; none where there is no b.
pub fn split_once(s: &[u8], b: u8) -> Option<(&[u8], &[u8])>
    ensures { MatchOption result (bytes_before b s.now ≡ length s.now) (λ p. Parted b s.now p.0.now p.1.now) }
{
    let at = bytes_before(s, b);
    if at == s.len() {
        return None;
    }
    Some((&s[..at], &s[at + 1..]))
}

// The number that a field writes.
pub fn number_of(field: &[u8]) -> Option<u32>
    ensures { result ≡ number_of field.now }
{
    let first = *field.first()?;
    if first == b'0' && field.len() > 1 {
        return None;
    }
    digits_from(field)
}

// The number that one digit more makes of n.
fn with_digit(n: u32, b: u8) -> Option<u32>
    ensures { result ≡ with_digit n b }
{
    if !b.is_ascii_digit() {
        return None;
    }
    n.checked_mul(10)?.checked_add(u32::from(b - b'0'))
}

// The number that digits write, read from the left.
fn digits_from(field: &[u8]) -> Option<u32>
    ensures { result ≡ digits_from 0 field.now }
{
    let mut n = 0;
    for b in field {
        n = with_digit(n, *b)?;
    }
    Some(n)
}

// What two fields write.
fn two_of(a: &[u8], b: &[u8]) -> Option<Numbers>
    ensures { result ≡ two (number_of a.now) (number_of b.now) }
{
    Some(Numbers::Two(number_of(a)?, number_of(b)?))
}

// What four fields write.
fn four_of(a: &[u8], b: &[u8], c: &[u8], d: &[u8]) -> Option<Numbers>
    ensures { result ≡ four (number_of a.now) (number_of b.now) (number_of c.now) (number_of d.now) }
{
    Some(Numbers::Four(number_of(a)?, number_of(b)?, number_of(c)?, number_of(d)?))
}

// The numbers of a line.
pub fn numbers_in(line: &[u8]) -> Option<Numbers>
    ensures { result ≡ numbers_in line.now }
{
    let mut fields = line.split(|&b| b == b'\t');
    let first = fields.next()?;
    let second = fields.next()?;
    let Some(third) = fields.next() else {
        return two_of(first, second);
    };
    let fourth = fields.next()?;
    match fields.next() {
        None => four_of(first, second, third, fourth),
        Some(_) => None,
    }
}
