ghost use Rattle.std.specs.Prelude.{◌≡◌, ◌<◌, ◌+◌, ◌==◌, ◌∷◌, [], length, Some, None, MatchOption, IfSome};
ghost use Rattle.std.specs.List.{position};
ghost use Rattle.tp_text.specs.Lines.{halves, pieces};

fn place_of(bytes: &[u8], mark: u8) -> Option<usize>
    ensures { result ≡ position (λ b. b == mark) bytes.now }
{
    bytes.iter().position(|b| *b == mark)
}

/// What stands before the first byte of a value, and what stands behind it.
pub(crate) fn cut(bytes: &[u8], mark: u8) -> Option<(&[u8], &[u8])>
    ensures pieces { MatchOption result (pieces mark bytes.now ≡ bytes.now ∷ [])
        (λ p. pieces mark bytes.now ≡ p.0.now ∷ pieces mark p.1.now) }
    ensures shorter { IfSome result (λ p. length p.0.now + length p.1.now + 1 ≡ length bytes.now) }
{
    match place_of(bytes, mark) {
        Some(place) => Some((&bytes[..place], &bytes[place + 1..])),
        None => None,
    }
}

/// What stands before and behind the only byte of a value.
#[tactic(auto, unfolding(crate::specs::Lines::halves))]
pub fn halves(word: &[u8], mark: u8) -> Option<(&[u8], &[u8])>
    ensures { MatchOption result (halves mark word.now ≡ None) (λ p. halves mark word.now ≡ Some (p.0.now, p.1.now)) }
{
    let (before, behind) = cut(word, mark)?;
    match cut(behind, mark) {
        Some(_) => None,
        None => Some((before, behind)),
    }
}
