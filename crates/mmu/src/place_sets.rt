//! Sets of a TLB's 64 places: numbers whose bit `i` is 1 where place `i` is a member.
ghost use Rattle.std.specs.Prelude.{◌≡◌, ◌<◌, true, false};
ghost use Rattle.vm_base.specs.Functions.{put};
ghost use Rattle.vm_base.specs.Cores.{members};

/// The set and the place, which may be a member already.
pub(crate) fn with(set: u64, place: usize) -> u64
    requires { place < 64 }
    ensures { members result ≡ put (members set) place true }
{
    set | (1 << place)
}

/// The set without the place, which need not be a member.
pub(crate) fn without(set: u64, place: usize) -> u64
    requires { place < 64 }
    ensures members { members result ≡ put (members set) place false }
    ensures less { members set place ≡ true → result < set }
{
    set & !(1 << place)
}

/// A member of a set that has some.
pub(crate) fn first(set: u64) -> usize
    requires { 0 < set }
    ensures inside { result < 64 }
    ensures member { members set result ≡ true }
{
    set.trailing_zeros() as usize
}
