//! Calls that are under way.

use frames::Objects;
use orders::Timed;
use slot_lock::{Change, Plan, Touch};
use std::alloc::Allocator;
use vm_base::{CoreId, Errno, PageRange, Prot, Reply, Request, page_of};
use vm_calls::check;

/// No page.
const NOWHERE: PageRange = PageRange { first: 0, end: 0 };

/// All pages.
const EVERYWHERE: PageRange = PageRange {
    first: 0,
    end: u64::MAX,
};

/// A call that is under way: its number, and what it does.
#[derive(Clone, Copy)]
pub(crate) struct Under {
    /// Its number, or that of its first part.
    pub number: u32,
    /// How many parts it has, which have the next numbers.
    pub count: u32,
    pub core: CoreId,
    /// Its bit in a set of calls under way: that of its core, if no other has it.
    pub bit: u64,
    pub begin: u64,
    /// A time at which it has taken effect.
    pub end: u64,
    pub plan: Result<Plan, Reply>,
    pub reply: Reply,
    /// The page that it stores to, if it is a store, and pages may get copies.
    pub stores_to: Option<u64>,
    /// Whether it never ends: then it may take effect with its reply, or not.
    pub is_open: bool,
    /// Whether it may be lost: then it takes effect with its reply, or changes nothing.
    pub is_unsure: bool,
    /// Whether it may go as before a call that hasn't ended, if it is an access; or accesses as before it.
    pub may_lag: bool,
    /// Whether that goes by the kernels' rule.
    pub by_kernel: bool,
    /// Whether its reply says that it changed something. A call that is answered at its check changes nothing.
    pub changes: bool,
    /// Whether something may be lost where it takes effect as soon as it can: it changes something, or its page may get a copy before.
    pub is_late: bool,
    /// The pages on which it depends, or which it changes.
    pub pages: PageRange,
    /// The bits of the calls under way that may lead elsewhere if this one comes first.
    pub rivals: u64,
}

// The pages on which what a call does depends, or which it changes.
fn pages_of(plan: Result<Plan, Reply>) -> PageRange {
    match plan {
        Err(_) => NOWHERE,
        Ok(Plan::Place(_)) => EVERYWHERE,
        Ok(Plan::Change(change)) => change.range(),
        Ok(Plan::Touch(touch)) => PageRange {
            first: touch.page,
            end: touch.page.saturating_add(1),
        },
    }
}

impl Under {
    /// A call of this number, which ends or is open; pages may get copies, or not.
    pub fn new<A: Allocator>(
        objects: &Objects<A>,
        number: u32,
        timed: &Timed,
        is_open: bool,
        has_copies: bool,
    ) -> Under {
        let call = timed.call;
        let stores_to = match call.request {
            Request::Store { addr, .. } if has_copies => Some(page_of(addr)),
            _ => None,
        };
        let plan = check(objects, call.core, call.request);
        let changes = plan.is_ok() && matches!(call.reply, Reply::Done | Reply::Mapped(_));
        Under {
            number,
            count: 1,
            core: call.core,
            bit: 1u64.wrapping_shl(u32::from(call.core.index())),
            begin: timed.begin,
            end: timed.end,
            plan,
            reply: call.reply,
            stores_to,
            is_open,
            is_unsure: false,
            may_lag: false,
            by_kernel: false,
            changes,
            is_late: changes || stores_to.is_some(),
            pages: pages_of(plan),
            rivals: 0,
        }
    }

    /// The same call with so many parts.
    pub fn with_parts(self, count: u32) -> Under {
        Under {
            count,
            is_late: self.is_late || count > 1,
            ..self
        }
    }

    /// Its access, if it is one.
    pub fn touch(&self) -> Option<Touch> {
        match self.plan {
            Ok(Plan::Touch(touch)) => Some(touch),
            _ => None,
        }
    }

    /// Tells whether nothing shows of what its pages were before once it has taken effect.
    pub fn hides(&self) -> bool {
        self.changes
            && matches!(
                self.plan,
                Ok(Plan::Change(Change::Put { .. } | Change::Clear { .. }))
            )
    }

    /// Tells whether accesses may go as before it: it changes pages.
    pub fn keeps_old(&self) -> bool {
        self.may_lag && self.changes && self.touch().is_none() && !(self.by_kernel && self.maps())
    }

    // Tells whether it maps pages anew: by the kernels' rule nothing lags behind that.
    fn maps(&self) -> bool {
        matches!(
            self.plan,
            Ok(Plan::Place(_) | Plan::Change(Change::Put { .. }))
        )
    }

    /// Tells whether it is an `mprotect`: by the kernels' rule a page keeps its frame and bytes.
    pub fn protects(&self) -> bool {
        matches!(self.plan, Ok(Plan::Change(Change::Protect { .. })))
    }

    /// The call, by the kernels' rule.
    pub fn by_kernel(self) -> Under {
        let mut under = Under {
            by_kernel: true,
            ..self
        };
        under.is_late = under.is_late || under.front_range().is_some();
        under
    }

    /// The range and the protection of an `mprotect` that was refused, and may have changed the pages in front by the kernels' rule.
    pub fn front_range(&self) -> Option<(PageRange, Prot)> {
        match (self.reply, self.plan) {
            (
                Reply::Refused(Errno::ENOMEM | Errno::EACCES),
                Ok(Plan::Change(Change::Protect { range, prot })),
            ) if self.by_kernel => { Some((range, prot)) }
            _ => None,
        }
    }

    /// The number of its part that changes a page.
    pub fn part(&self, page: u64) -> u32 {
        if self.count <= 1 {
            return self.number;
        }
        let before = page.wrapping_sub(self.pages.first) & 0xffff_ffff;
        self.number.wrapping_add(before as u32)
    }

    /// The range of an `mprotect` that met a page that isn't mapped, and may have changed those in front of it, and their protection then.
    pub fn refused_range(&self) -> Option<(PageRange, Prot)> {
        match (self.reply, self.plan) {
            (Reply::Refused(Errno::ENOMEM), Ok(Plan::Change(Change::Protect { range, prot })))
                if self.count > 1 => { Some((range, prot)) }
            _ => None,
        }
    }

    /// Tells whether these two may lead elsewhere if they change places: one of them changes something, and they have a page in common, or
    /// pages may show files and both are accesses. Accesses at two offsets are none where pages get no copies, which have all bytes of a page:
    /// a byte of a file stands at one offset in all pages that show it.
    pub fn is_rival(&self, other: &Under, mapped: Mapped) -> bool {
        if !self.is_late && !other.is_late {
            return false;
        }
        if let (Ok(Plan::Touch(one)), Ok(Plan::Touch(two))) = (self.plan, other.plan) {
            if !mapped.has_copies && one.offset != two.offset {
                return false;
            }
            return mapped.has_files || one.page == two.page;
        }
        self.pages.first < other.pages.end && other.pages.first < self.pages.end
    }
}

/// Which mappings of files calls ask for.
#[derive(Clone, Copy)]
pub(crate) struct Mapped {
    /// Whether pages may show files: some mapping isn't anonymous.
    pub has_files: bool,
    /// Whether pages may get copies: some mapping of a file is private.
    pub has_copies: bool,
}

/// Those of a history.
pub(crate) fn mapped_by(history: &[Timed]) -> Mapped {
    let mut mapped = Mapped {
        has_files: false,
        has_copies: false,
    };
    for timed in history {
        if let Request::Mmap { flags, .. } = timed.call.request {
            if !flags.anon {
                mapped.has_files = true;
                mapped.has_copies = mapped.has_copies || flags.private;
            }
        }
    }
    mapped
}
