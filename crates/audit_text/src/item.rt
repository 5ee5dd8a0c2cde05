//! What a line of an audited text tells that is judged.
ghost use Rattle.std.specs.Prelude.{◌≡◌};
ghost use Rattle.audit_text.specs.Legal.{page_told};

use crate::around::page_asked;
use audit::Call;

/// What is judged, one after another.
#[derive(Clone, Copy)]
pub enum AuditItem {
    /// A call, and what it was answered.
    Answer(Call),
    /// The private page with this number gets its copy now, as a step by itself.
    Copy(u64),
}

impl AuditItem {
    /// The page that it is about: that of the request's address, or the one that is copied.
    pub(crate) fn page(&self) -> u64
        ensures { result ≡ page_told self.now }
    {
        match self {
            AuditItem::Answer(call) => page_asked(call.request),
            AuditItem::Copy(page) => *page,
        }
    }
}
