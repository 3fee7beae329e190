// The number in front of a text, and what stands behind it: decimal, or hex behind 0x; one to eight digits.
ghost use Rattle.std.specs.Prelude.{◌≡◌, ◌<◌, ◌≤◌, drop, MatchOption};
ghost use Rattle.schedule_text.specs.Reading.{digits_from, starts_hex, number_of};

// What the digits in front say, of which there are at most eight, and what stands behind them.
fn digits(text: &[u8], base: u32) -> (u32, &[u8])
    requires { (2 ≤ base) × (base ≤ 16) }
    ensures value { result.0 ≡ (digits_from 8 base 0 0 text.now).value }
    ensures behind { result.1.now ≡ drop (digits_from 8 base 0 0 text.now).length text.now }
{
    let mut value: u32 = 0;
    let most = text.len().min(8);
    for (n, c) in text[..most].iter().enumerate() {
        let Some(digit) = (*c as char).to_digit(base) else {
            return (value, &text[n..]);
        };
        value = value * base + digit;
    }
    (value, &text[most..])
}

fn digits_in(text: &[u8], base: u32) -> Option<(u32, &[u8])>
    requires { (2 ≤ base) × (base ≤ 16) }
    ensures { let n = digits_from 8 base 0 0 text.now in MatchOption result (n.length ≡ 0) (λ p. (0 < n.length) × (p.0 ≡ n.value) × (p.1.now ≡ drop n.length text.now)) }
{
    let (value, behind) = digits(text, base);
    if behind.len() == text.len() {
        return None;
    }
    Some((value, behind))
}

fn starts_hex(text: &[u8]) -> bool
    ensures { result ≡ starts_hex text.now }
{
    matches!(text, [b'0', b'x' | b'X', ..])
}

pub(crate) fn number(text: &[u8]) -> Option<(u32, &[u8])>
    ensures { let n = number_of text.now in MatchOption result (n.length ≡ 0) (λ p. (0 < n.length) × (p.0 ≡ n.value) × (p.1.now ≡ drop n.length text.now)) }
{
    if starts_hex(text) {
        digits_in(&text[2..], 16)
    } else {
        digits_in(text, 10)
    }
}
