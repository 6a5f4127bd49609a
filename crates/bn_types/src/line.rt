use crate::{Digest, Finish, Gpn, Kind, ModId, Request, Vpn};

/// A line of the trace. `n` is the number of its event and `h` the hart.
#[derive(Clone, Copy, Debug, PartialEq, Eq)]
pub enum Line {
    /// The guest wrote the byte `b` to its console.
    Out {
        n: u64,
        h: u8,
        b: u8,
    },
    /// The admission rule refused an access of kind `w` at virtual page `v` by module `m`.
    Deny {
        n: u64,
        h: u8,
        m: ModId,
        w: Kind,
        v: Vpn,
    },
    /// Module `m` was stopped at `p`.
    Stop {
        n: u64,
        h: u8,
        m: ModId,
        p: u64,
    },
    /// The hart took a trap of cause `c`; `p` is its `sepc`.
    Trap {
        n: u64,
        h: u8,
        c: u64,
        p: u64,
    },
    /// A launch made module `m`, of identity `i`.
    Launch {
        n: u64,
        h: u8,
        m: ModId,
        i: Digest,
    },
    /// Module `f` called module `m` at its entry `e`.
    Call {
        n: u64,
        h: u8,
        f: ModId,
        m: ModId,
        e: u64,
    },
    /// Module `m` returned to module `f` at `p`.
    Ret {
        n: u64,
        h: u8,
        m: ModId,
        f: ModId,
        p: u64,
    },
    /// Module `m` goes on at `p`, where it was stopped.
    Resume {
        n: u64,
        h: u8,
        m: ModId,
        p: u64,
    },
    /// Module `m` was evicted; `k` rows went in all.
    Evict {
        n: u64,
        h: u8,
        m: ModId,
        k: u8,
    },
    /// Module `m` set word `k` of its identity.
    Sset {
        n: u64,
        h: u8,
        m: ModId,
        k: u8,
    },
    /// A request was refused with the code `r`, which is below 0.
    Refuse {
        n: u64,
        h: u8,
        w: Request,
        r: i64,
    },
    /// Hart `t` was started at `p`.
    Start {
        n: u64,
        h: u8,
        t: u8,
        p: u64,
    },
    /// A key waits now.
    Key {
        n: u64,
        b: u8,
    },
    /// A key was lost, since 256 keys wait.
    Nokey {
        n: u64,
        b: u8,
    },
    /// A device wrote the byte `b` at offset `o` of page `g`.
    Poke {
        n: u64,
        g: Gpn,
        o: u16,
        b: u8,
    },
    /// A device didn't write, since page `g` is outside RAM or owned.
    Nopoke {
        n: u64,
        g: Gpn,
        o: u16,
    },
    /// A device read the byte `b` at offset `o` of page `g`.
    Peek {
        n: u64,
        g: Gpn,
        o: u16,
        b: u8,
    },
    /// A device didn't read, since page `g` is outside RAM or owned.
    Nopeek {
        n: u64,
        g: Gpn,
        o: u16,
    },
    /// The run ended after `n` events, with the digest of the pages that no module owns.
    End {
        n: u64,
        w: Finish,
        d: Digest,
    },
}
