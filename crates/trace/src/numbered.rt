//! Texts by their numbers.
ghost use Rattle.std.specs.Prelude.{◌≡◌};
ghost use Rattle.trace.specs.Numbered.{text_at, texts_of};

/// The text with this number, counted from 0; none behind the last.
#[tactic(auto, using(crate::proofs::NumberedTexts::text_of_number, crate::proofs::NumberedTexts::text_of_none))]
pub fn text_at(texts: &[Vec<u8>], number: u64) -> &[u8]
    ensures { result.now ≡ text_at number (texts_of texts.now) }
{
    let at = number as usize;
    if at < texts.len() {
        return texts[at].as_slice();
    }
    &[]
}
