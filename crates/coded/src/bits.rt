//! Rights, flags and sets of cores as numbers whose bits C sets and reads.
ghost use Rattle.std.specs.Prelude.{◌≡◌, ◌<◌, ◌==◌, ◌*◌, ◌^◌, cond};
ghost use Rattle.std.specs.Int.{bit_at};
ghost use Rattle.coded.specs.Bits.{prot_of, flags_of, bits_of_prot, bits_of_flags};

use vm_base::{CoreId, CoreSet, Flags, Prot};

fn has_bit(bits: u32, place: u32) -> bool
    requires { place < 32 }
    ensures { result ≡ (bit_at bits place == 1) }
{
    (bits >> place) & 1 == 1
}

/// The rights of these bits, if no other bit is set.
pub fn prot_of(bits: u32) -> Option<Prot>
    ensures { result ≡ prot_of bits }
{
    if bits >= 8 {
        return None;
    }
    Some(Prot {
        read: has_bit(bits, 0),
        write: has_bit(bits, 1),
        exec: has_bit(bits, 2),
    })
}

/// The flags of these bits, if no other bit is set.
pub fn flags_of(bits: u32) -> Option<Flags>
    ensures { result ≡ flags_of bits }
{
    if bits >= 64 || has_bit(bits, 2) || has_bit(bits, 3) {
        return None;
    }
    Some(Flags {
        private: has_bit(bits, 1),
        shared: has_bit(bits, 0),
        fixed: has_bit(bits, 4),
        anon: has_bit(bits, 5),
    })
}

fn bit(is: bool, value: u32) -> u32
    ensures { result ≡ cond is value 0 }
{
    if is { value } else { 0 }
}

/// The bits of these rights.
pub fn bits_of_prot(prot: Prot) -> u32
    ensures { result ≡ bits_of_prot prot }
{
    bit(prot.read, 1) | bit(prot.write, 2) | bit(prot.exec, 4)
}

/// The bits of these flags.
pub fn bits_of_flags(flags: Flags) -> u32
    ensures { result ≡ bits_of_flags flags }
{
    bit(flags.shared, 1) | bit(flags.private, 2) | bit(flags.fixed, 16) | bit(flags.anon, 32)
}

// The core's bit where it is a member, else 0.
fn bit_of(cores: CoreSet, index: u8) -> u64
    requires { index < 64 }
    ensures { result ≡ bit_at cores index * 2 ^ index }
{
    if cores.contains(CoreId::new(index)) {
        1 << index
    } else {
        0
    }
}

/// The number whose bit `c` is 1 where core `c` is a member.
pub fn bits_of(cores: CoreSet) -> u64
    ensures { result ≡ cores }
{
    let mut bits = 0u64;
    'cores: for index in 0..64u8 {
        bits += bit_of(cores, index);
    }
    bits
}
