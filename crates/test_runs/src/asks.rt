//! What machines are asked for.
use vm_base::{Flags, Prot, Request};

/// The first byte of the first page that is mapped.
pub const FIRST: u64 = 0x10000;

/// The rights to read and to write.
pub const BOTH: Prot = Prot {
    read: true,
    write: true,
    exec: false,
};

/// Pages of zero bytes at the place that is asked for.
pub fn maps(len: u64) -> Request {
    Request::Mmap {
        addr: FIRST,
        len,
        prot: BOTH,
        flags: Flags {
            private: true,
            shared: false,
            fixed: true,
            anon: true,
        },
        file: 0,
        off: 0,
    }
}
