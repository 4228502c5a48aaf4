//! Numbers of any length as words; begin with `is_below`.

ghost use Rattle.std.specs.Prelude.{◌≡◌, ◌<◌, ◌≤◌, ℕ, true, nat_lt, length};
ghost use Rattle.ste_base.specs.Number.{number_of};
ghost use Rattle.std.specs.List.{list_all};
ghost use Rattle.ste_base.specs.Bytes.{is_digit};
ghost use Rattle.assert_syntax.specs.Words.{is_number};

/// Whether a word of digits has another digit than `0`.
fn is_above_zero(digits: &[u8]) -> bool
    requires { list_all is_digit digits.now ≡ true }
    ensures { result ≡ nat_lt 0 (number_of digits.now) }
{
    for digit in digits {
        if *digit != b'0' {
            return true;
        }
    }
    false
}

/// Whether the first number is below the second; both have as many digits.
fn comes_before(one: &[u8], other: &[u8]) -> bool
    requires one { list_all is_digit one.now ≡ true }
    requires other { list_all is_digit other.now ≡ true }
    requires same { length one.now ≡ length other.now }
    ensures { result ≡ nat_lt (number_of one.now) (number_of other.now) }
{
    let mut left = other;
    for digit in one {
        let Some((next, rest)) = left.split_first() else {
            return false;
        };
        if *digit != *next {
            return *digit < *next;
        }
        left = rest;
    }
    false
}

/// Whether the first number is below the second, which has at least as many digits.
fn is_below_longer(one: &[u8], other: &[u8]) -> bool
    requires one { list_all is_digit one.now ≡ true }
    requires other { list_all is_digit other.now ≡ true }
    requires longer { length one.now ≤ length other.now }
    ensures { result ≡ nat_lt (number_of one.now) (number_of other.now) }
{
    let (front, back) = other.split_at(other.len() - one.len());
    if is_above_zero(front) {
        return true;
    }
    comes_before(one, back)
}

/// Whether the first number, which has at least as many digits, is below the second.
fn is_below_shorter(one: &[u8], other: &[u8]) -> bool
    requires one { list_all is_digit one.now ≡ true }
    requires other { list_all is_digit other.now ≡ true }
    requires shorter { length other.now ≤ length one.now }
    ensures { result ≡ nat_lt (number_of one.now) (number_of other.now) }
{
    let (front, back) = one.split_at(one.len() - other.len());
    if is_above_zero(front) {
        return false;
    }
    comes_before(back, other)
}

/// Whether the first number is below the second; both words are of digits, of any length.
pub fn is_below(one: &[u8], other: &[u8]) -> bool
    requires one { is_number one.now ≡ true }
    requires other { is_number other.now ≡ true }
    ensures { result ≡ nat_lt (number_of one.now) (number_of other.now) }
{
    if one.len() <= other.len() {
        is_below_longer(one, other)
    } else {
        is_below_shorter(one, other)
    }
}
