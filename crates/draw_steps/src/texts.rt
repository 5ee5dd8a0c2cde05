//! Texts of several things, one after another: of those of a list, or of numbers from 0 on.
ghost use Rattle.std.specs.Prelude.{◌≡◌, ◌++◌, ◌<◌, ◌≤◌, OnOk};
ghost use Rattle.std.specs.List.{flat_map};
ghost use Rattle.draw_steps.specs.Texts.{first_texts};

use std::alloc::AllocError;

/// What can be drawn on a board, such as the view of a picture.
pub trait Drawable<B> {
    ghost use Rattle.std.specs.Prelude.{ℕ, List};

    /// What it is written as.
    ghost text: { B → Self → List ℕ };

    /// Appends it. An error is a refusal of memory.
    fn put(&self, out: &mut Vec<u8>, board: &B) -> Result<(), AllocError>
        ensures { OnOk result (out.new.items ≡ out.old.items ++ text board.now self.now) };
}

/// Appends all of these, one after another. An error is a refusal of memory.
pub fn put_each<B, T: Drawable<B>>(
    out: &mut Vec<u8>,
    board: &B,
    items: &[T],
) -> Result<(), AllocError>
    ensures { OnOk result (out.new.items ≡ out.old.items ++ flat_map (T.text board.now) items.now) }
{
    'items: for item in items {
        item.put(out, board)?;
    }
    Ok(())
}

/// What has a text for each number up to some, such as the rows of a picture.
pub trait Series {
    ghost use Rattle.std.specs.Prelude.{ℕ, List};

    /// How many texts there are.
    ghost count: { Self → ℕ };

    /// The text of a number.
    ghost text: { Self → ℕ → List ℕ };

    /// Appends the text of this number. An error is a refusal of memory.
    fn put_at(&self, out: &mut Vec<u8>, at: u16) -> Result<(), AllocError>
        requires { at < count self.now }
        ensures { OnOk result (out.new.items ≡ out.old.items ++ text self.now at) };
}

/// Appends the texts of the numbers below this one, one after another. An error is a refusal of memory.
#[tactic(auto, unfolding(crate::specs::Texts::first_texts))]
pub fn put_first<S: Series>(out: &mut Vec<u8>, series: &S, end: u16) -> Result<(), AllocError>
    requires { end ≤ S.count series.now }
    ensures { OnOk result (out.new.items ≡ out.old.items ++ first_texts (S.text series.now) end) }
{
    'texts: for at in 0..end {
        series.put_at(out, at)?;
    }
    Ok(())
}
