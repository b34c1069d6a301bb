ghost use Rattle.lexer.specs.Numbers.{shaped, valued};
ghost use Rattle.std.specs.Prelude.{◌≡◌, true, false, MatchOption};

/// Whether the word is a number: 0, or one to three digits without leading zero.
pub(crate) fn is_number(word: &[u8]) -> bool
    ensures { result ≡ shaped word.now }
{
    matches!(
        word,
        [b'0'..=b'9'] | [b'1'..=b'9', b'0'..=b'9'] | [b'1'..=b'9', b'0'..=b'9', b'0'..=b'9']
    )
}

/// What the digits of a number come to.
fn value(digits: &[u8]) -> u16
    requires { shaped digits.now ≡ true }
    ensures { result ≡ valued digits.now }
{
    // Each length by itself: a loop over the digits takes half as long again for the whole number.
    match digits {
        [a] => u16::from(*a - b'0'),
        [a, b] => u16::from(*a - b'0') * 10 + u16::from(*b - b'0'),
        [a, b, c] => u16::from(*a - b'0') * 100 + u16::from(*b - b'0') * 10 + u16::from(*c - b'0'),
        _ => 0,
    }
}

/// The value of the word, if it is a number.
pub fn number(word: &[u8]) -> Option<u16>
    ensures { MatchOption result (shaped word.now ≡ false) (λ n. (shaped word.now ≡ true) × (n ≡ valued word.now)) }
{
    if !is_number(word) {
        return None;
    }
    Some(value(word))
}
