//! Text that is cut at a sign.
ghost use Rattle.std.specs.Prelude.{◌≡◌, ◌==◌, ◌++◌, ◌∷◌, IfSome, IfNone, option_map};
ghost use Rattle.pg_text.specs.Prelude.{list_any, SPACE};
ghost use Rattle.pg_text.specs.Text.{parts, two_parts, four_parts, words_of, Lacks};

use memchr::memchr;
use pg_base::SPACE;

/// Whether the sign stands in the text.
pub fn has_sign(sign: u8, text: &[u8]) -> bool
    ensures { result ≡ list_any (λ b. b == sign) text.now }
{
    text.iter().any(|b| *b == sign)
}

/// What stands before the first sign, and what after it. The search looks at many bytes at a time.
pub fn cut_at(sign: u8, text: &[u8]) -> Option<(&[u8], &[u8])>
    ensures found { IfSome result
        (λ p. (text.now ≡ p.0.now ++ sign ∷ p.1.now) × Lacks sign p.0.now) }
    ensures none { IfNone result (Lacks sign text.now) }
{
    match memchr(sign, text) {
        Some(end) => Some((&text[..end], &text[end + 1..])),
        None => None,
    }
}

/// What stands on both sides of the one sign.
pub fn two_parts(sign: u8, text: &[u8]) -> Option<(&[u8], &[u8])>
    ensures { option_map (λ p. (p.0.now, p.1.now)) result ≡ two_parts sign text.now }
{
    let Some((first, second)) = cut_at(sign, text) else {
        return None;
    };
    match cut_at(sign, second) {
        Some(_) => None,
        None => Some((first, second)),
    }
}

/// What stands around the three signs.
pub fn four_parts(sign: u8, text: &[u8]) -> Option<(&[u8], &[u8], &[u8], &[u8])>
    ensures { option_map (λ p. record {
      first = p.0.now;
      second = p.1.now;
      third = p.2.now;
      fourth = p.3.now;
    }) result ≡ four_parts sign text.now }
{
    let (first, behind) = cut_at(sign, text)?;
    let (second, others) = cut_at(sign, behind)?;
    let (third, fourth) = two_parts(sign, others)?;
    Some((first, second, third, fourth))
}

/// The first word, and the text of the others if there are any.
#[tactic(auto, using(crate::proofs::Cuts::first_and_others, crate::proofs::Cuts::only_word))]
pub fn first_word(text: &[u8]) -> (&[u8], Option<&[u8]>)
    ensures { parts SPACE text.now ≡ result.0.now ∷ words_of (option_map (λ w. w.now) result.1) }
{
    match cut_at(SPACE, text) {
        Some((word, others)) => (word, Some(others)),
        None => (text, None),
    }
}
