// Text: UTF-8 by RFC 3629.
#![tactic(auto)]

pub mod laws;

ghost use Rattle.std.specs.Prelude.{◌≡◌, ◌<◌, ◌≤◌, false, ◌∷◌, length, MatchOption};
ghost use Rattle.texts.specs.Utf8.{well_formed, tail, second3, second4};

// A byte that goes on with a character.
fn is_tail(b: u8) -> bool
    ensures { result ≡ tail b }
{
    matches!(b, 0x80..=0xbf)
}

// Whether `b` may follow the lead byte `a` of a character of three bytes: no character in more bytes than it needs, no surrogates.
fn is_second3(a: u8, b: u8) -> bool
    ensures { result ≡ second3 a b }
{
    match a {
        0xe0 => matches!(b, 0xa0..=0xbf),
        0xed => matches!(b, 0x80..=0x9f),
        0xe1..=0xef => is_tail(b),
        _ => false,
    }
}

// The same for a character of four bytes: none above U+10FFFF. Two functions, since no range of one is the other's.
fn is_second4(a: u8, b: u8) -> bool
    ensures { result ≡ second4 a b }
{
    match a {
        0xf0 => matches!(b, 0x90..=0xbf),
        0xf1..=0xf3 => is_tail(b),
        0xf4 => matches!(b, 0x80..=0x8f),
        _ => false,
    }
}

// What is left behind the character that a lead byte and what follows it open with. The lead byte is matched first: one
// pattern for all the bytes is slower, since it tests how many there are before it looks at one.
#[tactic(auto, using(crate::proofs::Shapes::behind_three, crate::proofs::Shapes::behind_four))]
fn past_lead(lead: u8, more: &[u8]) -> Option<&[u8]>
    ensures { MatchOption result (well_formed (lead ∷ more.now) ≡ false) (λ s. (length s.now ≤ length more.now) × (well_formed (lead ∷ more.now) ≡ well_formed s.now)) }
{
    match (lead, more) {
        (0x00..=0x7f, rest) => Some(rest),
        (0xc2..=0xdf, [b, rest @ ..]) if is_tail(*b) => Some(rest),
        (0xe0..=0xef, [b, c, rest @ ..]) if is_second3(lead, *b) && is_tail(*c) => Some(rest),
        (0xf0..=0xf4, [b, c, d, rest @ ..]) if is_second4(lead, *b) && is_tail(*c) && is_tail(*d) =>
            { Some(rest) }
        _ => None,
    }
}

// What is left behind the character that the bytes open with. A character of one byte has an arm here too, for which what
// follows its lead byte is not taken apart: so ASCII takes little more than half the time.
fn past_char(text: &[u8]) -> Option<&[u8]>
    requires { 0 < length text.now }
    ensures { MatchOption result (well_formed text.now ≡ false) (λ s. (length s.now < length text.now) × (well_formed text.now ≡ well_formed s.now)) }
{
    match text {
        [0x00..=0x7f, rest @ ..] => Some(rest),
        [lead, more @ ..] => past_lead(*lead, more),
        [] => None,
    }
}

// Whether the bytes are UTF-8.
pub fn is_utf8(text: &[u8]) -> bool
    ensures { result ≡ well_formed text.now }
{
    let mut left = text;
    while !left.is_empty() {
        let Some(rest) = past_char(left) else {
            return false;
        };
        left = rest;
    }
    true
}
