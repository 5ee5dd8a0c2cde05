//! The halves of a line with a result: what stands before its last ` = `, and
//! what stands after it.
ghost use Rattle.std.specs.Prelude.{◌≡◌, ◌∷◌, ◌++◌, [], ◌<◌, ℕ, suc, List, true, IfSome, IfNone, length, get_or, drop};
ghost use Rattle.trace_text.specs.Halves.{AreHalves, are_clear};

// Where the last `=` stands.
fn last_sign(bytes: &[u8]) -> Option<usize>
    ensures within { IfSome result (λ at. at < length bytes.now) }
    ensures sign { IfSome result (λ at. get_or bytes.now at 0 ≡ 61) }
    ensures clear { IfSome result (λ at. are_clear (drop (suc at) bytes.now) ≡ true) }
    ensures none { IfNone result (are_clear bytes.now ≡ true) }
{
    let mut at = bytes.len();
    'bytes: while at > 0 {
        at -= 1;
        if bytes[at] == b'=' {
            return Some(at);
        }
    }
    None
}

// The bytes before a space that is the last.
fn before_space(bytes: &[u8]) -> Option<&[u8]>
    ensures some { IfSome result (λ front. bytes.now ≡ front.now ++ 32 ∷ []) }
    ensures none { IfNone result ((front : List ℕ) → bytes.now ≡ front ++ 32 ∷ [] → ⊥) }
{
    match bytes {
        [front @ .., b' '] => Some(front),
        _ => None,
    }
}

// The bytes behind a `=` and a space that are the first.
fn behind_sign(bytes: &[u8]) -> Option<&[u8]>
    ensures some { IfSome result (λ behind. bytes.now ≡ 61 ∷ 32 ∷ behind.now) }
    ensures none { IfNone result ((behind : List ℕ) → bytes.now ≡ 61 ∷ 32 ∷ behind → ⊥) }
{
    match bytes {
        [b'=', b' ', behind @ ..] => Some(behind),
        _ => None,
    }
}

/// What stands before the last `=` of the bytes and after it, where a space stands on each side of it.
pub fn halves(bytes: &[u8]) -> Option<(&[u8], &[u8])>
    ensures some { IfSome result (λ h. AreHalves bytes.now h.0.now h.1.now) }
    ensures none { IfNone result ((front : List ℕ) (behind : List ℕ)
        → AreHalves bytes.now front behind → ⊥) }
{
    let at = last_sign(bytes)?;
    let (before, rest) = bytes.split_at(at);
    let front = before_space(before)?;
    let behind = behind_sign(rest)?;
    Some((front, behind))
}
