//! Numbers at the front of a text, each read in one walk over its digits.

ghost use Rattle.std.specs.Prelude.{◌≡◌, ◌≢◌, ◌≤◌, ◌-◌, true, false, Some, IfSome, length, get_or};
ghost use Rattle.std.specs.Prelude.{option_map};
ghost use Rattle.pg_cert_lines.specs.Prelude.{is_ascii_digit, SPACE};
ghost use Rattle.pg_cert_lines.specs.Numerals.{BeginsWith, IsLeading, IsFirstNumber};
ghost use Rattle.pg_cert_lines.specs.Numerals.{IsNumberBefore, AreTwoNumbers};

use pg_text::MAX_DIGITS;

/// Digits at the front of a text.
#[derive(Clone, Copy, Debug)]
struct Digits {
    /// The number that they write.
    value: u32,
    /// How many they are.
    count: usize,
}

/// The value of the byte, if it is a digit.
fn digit_of(b: u8) -> Option<u32>
    ensures digit { IfSome result (λ _. is_ascii_digit b ≡ true) }
    ensures value { IfSome result (λ d. d ≡ b - 48) }
{
    if b.is_ascii_digit() {
        Some(u32::from(b - b'0'))
    } else {
        None
    }
}

/// How many digits a number at the front of the text may have.
fn most_digits(text: &[u8]) -> usize
    ensures few { result ≤ MAX_DIGITS }
    ensures within { result ≤ length text.now }
{
    if text.len() < MAX_DIGITS {
        text.len()
    } else {
        MAX_DIGITS
    }
}

/// The digits that the text begins with, as many as a number may have.
fn digits_of(text: &[u8]) -> Digits
    ensures { BeginsWith text.now result.count result.value }
{
    let mut value = 0;
    let mut count = 0;
    let most = most_digits(text);
    while count < most {
        let Some(digit) = digit_of(text[count]) else {
            break;
        };
        value = value * 10 + digit;
        count += 1;
    }
    Digits { value, count }
}

/// The digits that the text begins with, if they spell a number: the first of several isn't 0.
fn leading(text: &[u8]) -> Option<Digits>
    ensures { IfSome result (λ d. IsLeading text.now d.count d.value) }
{
    let found = digits_of(text);
    if found.count == 0 {
        return None;
    }
    if found.count > 1 && text[0] == b'0' {
        return None;
    }
    Some(found)
}

/// The number of the first word, where it is one digit with a space after it, and the text of the
/// other words.
fn first_digit(text: &[u8]) -> Option<(u32, &[u8])>
    ensures { IfSome result (λ p. IsFirstNumber text.now p.0 (Some p.1.now)) }
{
    if text.len() < 2 || text[1] != b' ' {
        return None;
    }
    let digit = digit_of(text[0])?;
    Some((digit, &text[2..]))
}

/// The same where it is two digits.
fn first_two_digits(text: &[u8]) -> Option<(u32, &[u8])>
    ensures { IfSome result (λ p. IsFirstNumber text.now p.0 (Some p.1.now)) }
{
    if text.len() < 3 || text[2] != b' ' || text[0] == b'0' {
        return None;
    }
    let tens = digit_of(text[0])?;
    let ones = digit_of(text[1])?;
    Some((tens * 10 + ones, &text[3..]))
}

/// The number of the first word, and the text of the other words if there are any. A number of one
/// digit or two is read at once.
pub(crate) fn first_number(text: &[u8]) -> Option<(u32, Option<&[u8]>)>
    ensures { IfSome result (λ p. IsFirstNumber text.now p.0 (option_map (λ w. w.now) p.1)) }
{
    if let Some((digit, others)) = first_digit(text) {
        return Some((digit, Some(others)));
    }
    if let Some((number, others)) = first_two_digits(text) {
        return Some((number, Some(others)));
    }
    first_digits(text)
}

/// The number of the first word, and the text of the other words if there are any.
fn first_digits(text: &[u8]) -> Option<(u32, Option<&[u8]>)>
    ensures { IfSome result (λ p. IsFirstNumber text.now p.0 (option_map (λ w. w.now) p.1)) }
{
    let found = leading(text)?;
    if found.count == text.len() {
        return Some((found.value, None));
    }
    if text[found.count] != b' ' {
        return None;
    }
    Some((found.value, Some(&text[found.count + 1..])))
}

/// The number that stands before the sign, and what stands after the sign.
#[tactic(auto, using(crate::proofs::DigitRuns::number_sign))]
fn number_before(sign: u8, text: &[u8]) -> Option<(u32, &[u8])>
    ensures { IfSome result (λ p. IsNumberBefore sign text.now p.0 p.1.now) }
{
    let found = leading(text)?;
    if found.count == text.len() {
        return None;
    }
    if text[found.count] != sign {
        return None;
    }
    Some((found.value, &text[found.count + 1..]))
}

/// The two numbers that the first word is, with the sign between them, and the text of the other
/// words if there are any. The sign is neither a digit nor a space; the second number is mostly one
/// of a node, which has more than two digits.
pub(crate) fn two_numbers(sign: u8, text: &[u8]) -> Option<(u32, u32, Option<&[u8]>)>
    requires digit { is_ascii_digit sign ≡ false }
    requires space { sign ≢ SPACE }
    ensures { IfSome result
        (λ t. AreTwoNumbers sign text.now t.0 t.1 (option_map (λ w. w.now) t.2)) }
{
    let (a, behind) = number_before(sign, text)?;
    let (b, others) = first_digits(behind)?;
    Some((a, b, others))
}
