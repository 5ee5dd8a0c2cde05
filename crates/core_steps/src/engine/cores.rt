//! The engine's cores: their tables and TLBs, and the messages between them.
ghost use Rattle.std.specs.Prelude.{◌≡◌, ℕ, [], None, IfOk};
ghost use Rattle.core_steps.specs.Cores.{HaveInboxes, parts_of};

use mmu::{Cpu, Hardware, Inboxes, Took, Translated};
use slot_lock::Touch;
use std::alloc::Allocator;
use vm_base::{CoreId, CoreSet, NoMemory, PageRange, Prot};

/// The tables and the TLB of each core, and its inbox. A clause sees them as `parts`: how many
/// cores there are, and the hardware of the abstract machine. Only `new` and `install` take memory.
#[derive(Drop)]
pub(crate) struct Cores<H: Hardware, A: Allocator> {
    /// Of each core: its tables and its TLB.
    pub cpus: Vec<H, A>,
    /// The inboxes.
    pub inboxes: Inboxes<A>,
    ghost whole: { HaveInboxes (parts_of H.table H.tlb cpus.items inboxes) },
}

/// Hardware that can be made without translations.
pub(crate) trait Bare<A>: Hardware {
    /// A core whose tables and TLB are empty.
    fn bare(alloc: A) -> Result<Self, NoMemory>
    where
        Self: Sized,
        ensures table { IfOk result (λ made. (p : ℕ) → Self.table made p ≡ None) }
        ensures tlb { IfOk result (λ made. Self.tlb made ≡ []) };
}

impl<A: Allocator + Clone> Bare<A> for Cpu<A> {
    fn bare(alloc: A) -> Result<Self, NoMemory> {
        Cpu::new(alloc)
    }
}

impl<H: Bare<A>, A: Allocator + Clone> Cores<H, A> {
    ghost use Rattle.std.specs.Prelude.{◌≤◌};
    ghost use Rattle.machine_model.specs.World.{no_translations};
    ghost use Rattle.core_steps.specs.Parts.{parts};

    /// This many cores, whose tables, TLBs and inboxes are empty.
    pub fn new(alloc: A, cores: u8) -> Result<Self, NoMemory>
        requires { cores ≤ 64 }
        ensures count { IfOk result (λ made. (parts made).count ≡ cores) }
        ensures empty { IfOk result (λ made. (parts made).hardware ≡ no_translations) }
    {
        let mut cpus = Vec::with_capacity(alloc.clone()?, usize::from(cores))?;
        'cores: for _core in 0..cores {
            let cpu = H::bare(alloc.clone()?)?;
            cpus.push_reserved(cpu);
        }
        let inboxes = Inboxes::new(alloc, cores)?;
        Ok(Cores { cpus, inboxes })
    }
}

impl<H: Hardware, A: Allocator> Cores<H, A> {
    ghost use Rattle.std.specs.Prelude.{◌<◌, true, false, Some, is_some, if◌then◌else◌};
    ghost use Rattle.std.specs.Prelude.{IfNone, IfSome, OnOk, OnErr};
    ghost use Rattle.vm_base.specs.Cores.{members};
    ghost use Rattle.vm_base.specs.Functions.{put};
    ghost use Rattle.vm_base.specs.Pages.{is_page, are_pages};
    ghost use Rattle.mmu.specs.Entry.{has_right, translation_of};
    ghost use Rattle.mmu.specs.Tables.{IsEmptyBeside, word_of};
    ghost use Rattle.mmu.specs.Tlb.{tlb_at};
    ghost use Rattle.mmu.specs.Inboxes.{awaited};
    ghost use Rattle.mmu.specs.Messages.{asked, remaining};
    ghost use Rattle.machine_model.specs.Coherent.{HasDropped};
    ghost use Rattle.machine_model.specs.Changes.{AwaitsNobody, Awaits};
    ghost use Rattle.machine_model.specs.Translating.{translated_by, frame_reached, after_translating};
    ghost use Rattle.machine_model.specs.Translating.{can_walk, after_walk, after_eviction, after_shot};
    ghost use Rattle.machine_model.specs.Translating.{tables_cleared, tlb_invalidated};
    ghost use Rattle.machine_model.specs.Translating.{with_inbox, with_table};
    ghost use Rattle.core_steps.specs.PageChange.{IsAlone};
    ghost use Rattle.core_steps.specs.Parts.{parts};

    /// How the core translates the access. A hit is one look in its TLB.
    #[inline(always)]
    pub fn translate(&mut self, core: CoreId, touch: Touch) -> Translated
        requires here { core < (parts self.old).count }
        requires page { is_page touch.page ≡ true }
        ensures value { result ≡ translated_by (parts self.old).hardware core touch }
        ensures count { (parts self.new).count ≡ (parts self.old).count }
        ensures after { (parts self.new).hardware ≡ after_translating (parts self.old).hardware core touch }
    {
        self.cpus[core.index() as usize].translate(touch.page, touch.access)
    }

    /// The core's tables get the page's entry. Memory may be refused only where none of the 512
    /// pages has one that share the page's table of the last level; then nothing changes.
    pub fn install(
        &mut self,
        core: CoreId,
        page: u64,
        frame: u32,
        prot: Prot,
    ) -> Result<(), NoMemory>
        requires here { core < (parts self.old).count }
        requires page { is_page page ≡ true }
        requires some_right { has_right prot ≡ true }
        ensures count { (parts self.new).count ≡ (parts self.old).count }
        ensures ok { OnOk result ((parts self.new).hardware ≡ with_table (parts self.old).hardware core
            (put ((parts self.old).hardware.table core) page (Some (translation_of frame prot)))) }
        ensures err { OnErr result ((parts self.new).hardware ≡ (parts self.old).hardware) }
        ensures err_last { OnErr result (IsEmptyBeside ((parts self.old).hardware.table core) page) }
    {
        self.cpus[core.index() as usize].install(page, frame, prot)
    }

    /// The core's TLB gets the page's translation from its tables, if they have one and
    /// the TLB has none; tells whether it did.
    pub fn walk(&mut self, core: CoreId, page: u64) -> bool
        requires here { core < (parts self.old).count }
        requires page { is_page page ≡ true }
        ensures value { result ≡ can_walk (parts self.old).hardware core page }
        ensures count { (parts self.new).count ≡ (parts self.old).count }
        ensures after { (parts self.new).hardware ≡ after_walk (parts self.old).hardware core page }
    {
        self.cpus[core.index() as usize].walk(page)
    }

    /// The core's TLB drops its translation of the page; tells whether it had one.
    pub fn evict(&mut self, core: CoreId, page: u64) -> bool
        requires here { core < (parts self.old).count }
        ensures value { result ≡ is_some (tlb_at ((parts self.old).hardware.tlb core) page) }
        ensures count { (parts self.new).count ≡ (parts self.old).count }
        ensures after { (parts self.new).hardware ≡ (if result then after_eviction
            (parts self.old).hardware core page else (parts self.old).hardware) }
    {
        self.cpus[core.index() as usize].evict(page)
    }

    /// The core's tables lose their entries of the pages of the range.
    pub fn clear_tables(&mut self, core: CoreId, range: PageRange)
        requires here { core < (parts self.old).count }
        requires pages { are_pages range ≡ true }
        ensures count { (parts self.new).count ≡ (parts self.old).count }
        ensures after { (parts self.new).hardware ≡ tables_cleared (parts self.old).hardware core range }
    {
        self.cpus[core.index() as usize].clear_tables(range);
    }

    /// The core's TLB drops its translations of the pages of the range.
    pub fn invalidate(&mut self, core: CoreId, range: PageRange)
        requires { core < (parts self.old).count }
        ensures count { (parts self.new).count ≡ (parts self.old).count }
        ensures after { (parts self.new).hardware ≡ tlb_invalidated (parts self.old).hardware core range }
    {
        self.cpus[core.index() as usize].invalidate(range);
    }

    /// The core drops its own translations of the pages of the range.
    fn drop_own(&mut self, core: CoreId, range: PageRange)
        requires here { core < (parts self.old).count }
        requires pages { are_pages range ≡ true }
        ensures count { (parts self.new).count ≡ (parts self.old).count }
        ensures after { (parts self.new).hardware
            ≡ tlb_invalidated (tables_cleared (parts self.old).hardware core range) core range }
    {
        self.clear_tables(core, range);
        self.invalidate(core, range);
    }

    /// The core drops its own translations of the pages of the range, and every other
    /// core of the set is asked to drop its own. The core then waits for these.
    pub fn shoot(&mut self, core: CoreId, set: CoreSet, range: PageRange)
        requires here { core < (parts self.old).count }
        requires pages { are_pages range ≡ true }
        requires idle { AwaitsNobody (parts self.old).hardware core }
        requires within { (d : ℕ) → members set d ≡ true → d < (parts self.old).count }
        ensures count { (parts self.new).count ≡ (parts self.old).count }
        ensures after { (parts self.new).hardware ≡ after_shot (parts self.old).hardware core set range }
    {
        self.drop_own(core, range);
        self.inboxes.post(core, set.without(core), range);
    }

    /// What `shoot` does where no other core is in the set: none is asked, and none is waited for. A
    /// core that isn't in the set has nothing to drop.
    #[inline(always)]
    pub fn shoot_alone(&mut self, core: CoreId, set: CoreSet, range: PageRange)
        requires here { core < (parts self.old).count }
        requires pages { are_pages range ≡ true }
        requires alone { IsAlone set core }
        requires dropped { members set core ≡ false → HasDropped ((parts self.old).hardware.table core)
            ((parts self.old).hardware.tlb core) range None }
        ensures count { (parts self.new).count ≡ (parts self.old).count }
        ensures after { (parts self.new).hardware ≡ after_shot (parts self.old).hardware core set range }
    {
        if set.contains(core) {
            self.drop_own(core, range);
        }
    }

    /// What the oldest message of the core's inbox asks it to do. At the second take of a
    /// message it is acknowledged.
    pub fn take(&mut self, core: CoreId) -> Took
        requires { core < (parts self.old).count }
        ensures took { result ≡ asked ((parts self.old).hardware.inbox core) }
        ensures count { (parts self.new).count ≡ (parts self.old).count }
        ensures after { (parts self.new).hardware ≡ with_inbox (parts self.old).hardware core
            (remaining ((parts self.old).hardware.inbox core)) }
    {
        self.inboxes.take(core)
    }

    /// The cores that still have the core's message.
    pub fn waiting(&self, core: CoreId) -> CoreSet
        ensures { members result ≡ awaited (parts self.now).hardware.inbox core }
    {
        self.inboxes.waiting(core)
    }

    /// The cores that still have the core's message, if some do.
    pub fn awaited(&self, core: CoreId) -> Option<CoreSet>
        ensures none { IfNone result (AwaitsNobody (parts self.now).hardware core) }
        ensures some { IfSome result (λ set. Awaits (parts self.now).hardware core set) }
    {
        let waiting = self.waiting(core);
        match waiting.first() {
            Some(_) => Some(waiting),
            None => None,
        }
    }

    /// The 64 bits of the entry that the core's tables have of the page.
    pub fn entry(&self, core: CoreId, page: u64) -> Option<u64>
        requires here { core < (parts self.now).count }
        requires page { is_page page ≡ true }
        ensures { result ≡ word_of ((parts self.now).hardware.table core page) }
    {
        self.cpus[core.index() as usize].entry(page)
    }
}
