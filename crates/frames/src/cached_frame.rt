//! The frame that caches one page of a file.
ghost use Rattle.std.specs.Prelude.{◌≡◌, Some, None};

use std::marker::Model;

/// The frame that caches one page of a file, if one does. It takes no memory. A clause sees it as
/// the frame's number or none.
#[derive(Clone, Copy)]
pub struct CachedFrame {
    number: Option<u32>,
}

impl Model for CachedFrame {
    ghost use Rattle.std.specs.Prelude.{ℕ, Option};

    ghost Value = { Option ℕ };

    ghost view = { λ c. c.number };

    ghost inverse = { λ n. record { number = n } };
}

impl CachedFrame {
    /// No frame caches the page yet.
    pub fn none() -> CachedFrame
        ensures { result ≡ None }
    {
        CachedFrame { number: None }
    }

    /// The frame's number, if one caches the page.
    pub fn get(self) -> Option<u32>
        ensures { result ≡ self }
    {
        self.number
    }

    /// From now on this frame caches the page, which none has cached before.
    pub fn set(&mut self, frame: u32)
        requires { self.old ≡ None }
        ensures { self.new ≡ Some frame }
    {
        *self = CachedFrame {
            number: Some(frame),
        };
    }
}
