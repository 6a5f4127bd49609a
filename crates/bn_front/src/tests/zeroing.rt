//! Guests one of whose modules is zeroed before an event: while it rests nobody can tell.
//! Made by `tests/make` from their assembly; the traces are those of `tests/interpreter.py`.

use super::guest::Guest;
use super::zeroed_guest::{NO_LINES, Zeroed, ZeroedGuest, expect_zeroed_guest};

// A module that was called, and then is stopped, is evicted. Where it was zeroed before, that is
// the same: its pages are zeros, and a launch of its text gives the identity of a module of zeros.
const EVICTED_CODE: [u32; 43] = [
    0x00000f97, // auipc x31,0x0
    0x03cf8f93, // addi x31,x31,60
    0x105f9073, // csrrw x0,stvec,x31
    0x00008397, // auipc x7,0x8
    0xff438393, // addi x7,x7,-12
    0x0003840b, // b.launch x8,x7
    0x00100f93, // addi x31,x0,1
    0x07f41e63, // bne x8,x31,0x80000098
    0x00010497, // auipc x9,0x10
    0xfe048493, // addi x9,x9,-32
    0x00000513, // addi x10,x0,0
    0x0094128b, // b.call x5,x8,x9
    0x00100513, // addi x10,x0,1
    0x0094128b, // b.call x5,x8,x9
    0x0600006f, // jal x0,0x80000098
    0x00100413, // addi x8,x0,1
    0x0004328b, // b.evict x5,x8
    0x00000f93, // addi x31,x0,0
    0x05f29863, // bne x5,x31,0x80000098
    0x00010497, // auipc x9,0x10
    0xfb448493, // addi x9,x9,-76
    0x0004b283, // ld x5,0(x9)
    0x00000f93, // addi x31,x0,0
    0x03f29e63, // bne x5,x31,0x80000098
    0x00011497, // auipc x9,0x11
    0xfa048493, // addi x9,x9,-96
    0x0004b283, // ld x5,0(x9)
    0x00000f93, // addi x31,x0,0
    0x03f29463, // bne x5,x31,0x80000098
    0x0084b283, // ld x5,8(x9)
    0x00000f93, // addi x31,x0,0
    0x01f29e63, // bne x5,x31,0x80000098
    0x00008397, // auipc x7,0x8
    0xf8038393, // addi x7,x7,-128
    0x0003840b, // b.launch x8,x7
    0x00200f93, // addi x31,x0,2
    0x01f41463, // bne x8,x31,0x80000098
    0x0100006f, // jal x0,0x800000a4
    0x02100513, // addi x10,x0,33
    0x00100893, // addi x17,x0,1
    0x00000073, // ecall
    0x00800893, // addi x17,x0,8
    0x00000073, // ecall
];

const EVICTED_TABLES: [(usize, u64); 9] = [
    (32768, 0x201010147534e42),
    (32784, 0x80010000),
    (32848, 0x80010),
    (32856, 0x501),
    (32864, 0x80011),
    (32872, 0x301),
    (65536, 0x129700051863),
    (65544, 0x200bfe52be23),
    (69632, 0x1122334455667788),
];

const EVICTED_LINES: [&str; 9] = [
    "launch 5 0 1 d3668b61a2a6637c9a8f58e6e0a3b56e9ca5514337df34dc9fdc3c45fb95c77f\n",
    "call 11 0 0 1 0000000080010000\n",
    "ret 15 0 1 0 0000000080000030\n",
    "call 17 0 0 1 0000000080010000\n",
    "stop 19 0 1 0000000080010010\n",
    "trap 19 0 0000000000000002 0000000080010010\n",
    "evict 21 0 1 1\n",
    "launch 39 0 2 5668ca26752d5282d3c524160b686dd625553d34778be196e7d44adb600b36f5\n",
    "end 45 shutdown e79a4c639c5d9956f7a848cf4da00a0778cb2f115a577fd9da85b75014e2f013\n",
];

const EVICTED_1_16: [&str; 5] = [
    "stop 18 0 1 0000000080010000\n",
    "trap 18 0 0000000000000002 0000000080010000\n",
    "evict 20 0 1 1\n",
    "launch 38 0 2 5668ca26752d5282d3c524160b686dd625553d34778be196e7d44adb600b36f5\n",
    "end 44 shutdown e79a4c639c5d9956f7a848cf4da00a0778cb2f115a577fd9da85b75014e2f013\n",
];

const EVICTED_RUNS: [Zeroed<'static>; 4] = [
    Zeroed {
        place: "1@16",
        kept: 4,
        rest: &EVICTED_1_16,
    },
    Zeroed {
        place: "1@20",
        kept: 9,
        rest: &NO_LINES,
    },
    Zeroed {
        place: "1@21",
        kept: 9,
        rest: &NO_LINES,
    },
    Zeroed {
        place: "1@22",
        kept: 9,
        rest: &NO_LINES,
    },
];

const EVICTED: ZeroedGuest<'static> = ZeroedGuest {
    guest: Guest {
        code: &EVICTED_CODE,
        tables: &EVICTED_TABLES,
        steps: 60_000,
        lines: &EVICTED_LINES,
    },
    runs: &EVICTED_RUNS,
};

#[test]
fn a_zeroed_module_is_evicted_as_others_are(rt: HostRuntime) {
    expect_zeroed_guest(&rt, rt.alloc(), &EVICTED);
}

// A module keeps a number from one call to the next. Where it is zeroed in between, the kernel
// finds it as before: it is denied, and refused, and the module has its identity. The line of the
// call is the same, and then its code is zeros.
const IDLE_CODE: [u32; 48] = [
    0x00000f97, // auipc x31,0x0
    0x098f8f93, // addi x31,x31,152
    0x105f9073, // csrrw x0,stvec,x31
    0x00008417, // auipc x8,0x8
    0xff440413, // addi x8,x8,-12
    0x0004028b, // b.launch x5,x8
    0x00100f93, // addi x31,x0,1
    0x09f29863, // bne x5,x31,0x800000ac
    0x00010497, // auipc x9,0x10
    0xfe048493, // addi x9,x9,-32
    0x0002ca0b, // b.ident x20,x5,x0
    0x02800513, // addi x10,x0,40
    0x0092930b, // b.call x6,x5,x9
    0x02800f93, // addi x31,x0,40
    0x07f51a63, // bne x10,x31,0x800000ac
    0x00000f97, // auipc x31,0x0
    0x01cf8f93, // addi x31,x31,28
    0x140f9073, // csrrw x0,sscratch,x31
    0x00011397, // auipc x7,0x11
    0xfb838393, // addi x7,x7,-72
    0x0003b583, // ld x11,0(x7)
    0x0580006f, // jal x0,0x800000ac
    0x00008397, // auipc x7,0x8
    0xfa838393, // addi x7,x7,-88
    0x0003838b, // b.launch x7,x7
    0xffc00f93, // addi x31,x0,-4
    0x05f39263, // bne x7,x31,0x800000ac
    0x00448393, // addi x7,x9,4
    0x0072938b, // b.call x7,x5,x7
    0xffe00f93, // addi x31,x0,-2
    0x03f39a63, // bne x7,x31,0x800000ac
    0x0002ca8b, // b.ident x21,x5,x0
    0x035a1663, // bne x20,x21,0x800000ac
    0x00200513, // addi x10,x0,2
    0x0092930b, // b.call x6,x5,x9
    0x02a00f93, // addi x31,x0,42
    0x01f51e63, // bne x10,x31,0x800000ac
    0x0240006f, // jal x0,0x800000b8
    0x14202ff3, // csrrs x31,scause,x0
    0xffbf8f93, // addi x31,x31,-5
    0x000f9663, // bne x31,x0,0x800000ac
    0x14002ff3, // csrrs x31,sscratch,x0
    0x000f8067, // jalr x0,0(x31)
    0x02100513, // addi x10,x0,33
    0x00100893, // addi x17,x0,1
    0x00000073, // ecall
    0x00800893, // addi x17,x0,8
    0x00000073, // ecall
];

const IDLE_TABLES: [(usize, u64); 10] = [
    (32768, 0x201010147534e42),
    (32784, 0x80010000),
    (32848, 0x80010),
    (32856, 0x501),
    (32864, 0x80011),
    (32872, 0x301),
    (65536, 0x82b30300001297),
    (65544, 0xa2b42300650533),
    (65552, 0x200b),
    (69632, 0x1122334455667788),
];

const IDLE_LINES: [&str; 10] = [
    "launch 5 0 1 05b0f7ce79b0a991a474eedabe88fd8f461f94d166916332c43c2cefdb511730\n",
    "call 12 0 0 1 0000000080010000\n",
    "ret 17 0 1 0 0000000080000034\n",
    "deny 25 0 0 load 0000000080011\n",
    "trap 25 0 0000000000000005 0000000080000050\n",
    "refuse 33 0 launch -4\n",
    "refuse 37 0 call -2\n",
    "call 43 0 0 1 0000000080010000\n",
    "ret 48 0 1 0 000000008000008c\n",
    "end 54 shutdown 2ac3450ed087d59bd3ec5c788110861d2d4df15a7f63d528bad266f956ded789\n",
];

const IDLE_1_18: [&str; 4] = [
    "stop 44 0 1 0000000080010000\n",
    "trap 44 0 0000000000000002 0000000080010000\n",
    "out 50 0 21\n",
    "end 53 shutdown 2ac3450ed087d59bd3ec5c788110861d2d4df15a7f63d528bad266f956ded789\n",
];

const IDLE_1_43: [&str; 4] = [
    "stop 44 0 1 0000000080010000\n",
    "trap 44 0 0000000000000002 0000000080010000\n",
    "out 50 0 21\n",
    "end 53 shutdown 2ac3450ed087d59bd3ec5c788110861d2d4df15a7f63d528bad266f956ded789\n",
];

const IDLE_RUNS: [Zeroed<'static>; 4] = [
    Zeroed {
        place: "1@17",
        kept: 10,
        rest: &NO_LINES,
    },
    Zeroed {
        place: "1@18",
        kept: 8,
        rest: &IDLE_1_18,
    },
    Zeroed {
        place: "1@43",
        kept: 8,
        rest: &IDLE_1_43,
    },
    Zeroed {
        place: "1@44",
        kept: 10,
        rest: &NO_LINES,
    },
];

const IDLE: ZeroedGuest<'static> = ZeroedGuest {
    guest: Guest {
        code: &IDLE_CODE,
        tables: &IDLE_TABLES,
        steps: 60_000,
        lines: &IDLE_LINES,
    },
    runs: &IDLE_RUNS,
};

#[test]
fn a_module_is_zeroed_between_its_calls(rt: HostRuntime) {
    expect_zeroed_guest(&rt, rt.alloc(), &IDLE);
}

// A module's words are no secrets of its: zeroed while it is idle, or not, it is evicted and
// launched again, and reads what it stored.
const KEPT_WORDS_CODE: [u32; 39] = [
    0x00000f97, // auipc x31,0x0
    0x088f8f93, // addi x31,x31,136
    0x105f9073, // csrrw x0,stvec,x31
    0x00008397, // auipc x7,0x8
    0xff438393, // addi x7,x7,-12
    0x0003890b, // b.launch x18,x7
    0x00010997, // auipc x19,0x10
    0xfe898993, // addi x19,x19,-24
    0x00500513, // addi x10,x0,5
    0x03200593, // addi x11,x0,50
    0x00000613, // addi x12,x0,0
    0x0139128b, // b.call x5,x18,x19
    0x04029c63, // bne x5,x0,0x80000088
    0x00000f93, // addi x31,x0,0
    0x05f51863, // bne x10,x31,0x80000088
    0x0009328b, // b.evict x5,x18
    0x00000417, // auipc x8,0x0
    0x3c040413, // addi x8,x8,960
    0x00043a03, // ld x20,0(x8)
    0x00843a83, // ld x21,8(x8)
    0x01043b03, // ld x22,16(x8)
    0x0149b023, // sd x20,0(x19)
    0x0159b423, // sd x21,8(x19)
    0x0169b823, // sd x22,16(x19)
    0x0003890b, // b.launch x18,x7
    0x00200f93, // addi x31,x0,2
    0x03f91063, // bne x18,x31,0x80000088
    0x00500513, // addi x10,x0,5
    0x00100613, // addi x12,x0,1
    0x0139128b, // b.call x5,x18,x19
    0x00029863, // bne x5,x0,0x80000088
    0x03200f93, // addi x31,x0,50
    0x01f51463, // bne x10,x31,0x80000088
    0x0100006f, // jal x0,0x80000094
    0x02100513, // addi x10,x0,33
    0x00100893, // addi x17,x0,1
    0x00000073, // ecall
    0x00800893, // addi x17,x0,8
    0x00000073, // ecall
];

const KEPT_WORDS_TABLES: [(usize, u64); 10] = [
    (1024, 0x2b5050b00061663),
    (1032, 0x5750b0000200b),
    (1040, 0x200b),
    (32768, 0x101010147534e42),
    (32784, 0x80010000),
    (32848, 0x80010),
    (32856, 0x501),
    (65536, 0x2b5050b00061663),
    (65544, 0x5750b0000200b),
    (65552, 0x200b),
];

const KEPT_WORDS_LINES: [&str; 9] = [
    "launch 5 0 1 ff68d5e6e69dbded7d018bf67d4950f7ddb928499560d4b38d531fc319ae8ccd\n",
    "call 11 0 0 1 0000000080010000\n",
    "sset 13 0 1 5\n",
    "ret 14 0 1 0 0000000080000030\n",
    "evict 18 0 1 1\n",
    "launch 27 0 2 ff68d5e6e69dbded7d018bf67d4950f7ddb928499560d4b38d531fc319ae8ccd\n",
    "call 32 0 0 2 0000000080010000\n",
    "ret 35 0 2 0 0000000080000078\n",
    "end 42 shutdown cfaa3cc8b91e94f629cf7becc75f1edc3aab295756db762f34f6aa106e8416af\n",
];

const KEPT_WORDS_RUNS: [Zeroed<'static>; 2] = [
    Zeroed {
        place: "1@15",
        kept: 9,
        rest: &NO_LINES,
    },
    Zeroed {
        place: "1@18",
        kept: 9,
        rest: &NO_LINES,
    },
];

const KEPT_WORDS: ZeroedGuest<'static> = ZeroedGuest {
    guest: Guest {
        code: &KEPT_WORDS_CODE,
        tables: &KEPT_WORDS_TABLES,
        steps: 60_000,
        lines: &KEPT_WORDS_LINES,
    },
    runs: &KEPT_WORDS_RUNS,
};

#[test]
fn a_zeroed_module_keeps_its_words(rt: HostRuntime) {
    expect_zeroed_guest(&rt, rt.alloc(), &KEPT_WORDS);
}

// A run that ends at its limit, with a stopped module: it is zeroed before the last event, or not,
// since there is no such event. One can't tell.
const LIMIT_CODE: [u32; 25] = [
    0x00001f97, // auipc x31,0x1
    0x000f8f93, // addi x31,x31,0
    0x105f9073, // csrrw x0,stvec,x31
    0x00008397, // auipc x7,0x8
    0xff438393, // addi x7,x7,-12
    0x0003890b, // b.launch x18,x7
    0x00010497, // auipc x9,0x10
    0xfe848493, // addi x9,x9,-24
    0x10405073, // csrrwi x0,sie,0
    0x02000293, // addi x5,x0,32
    0x1042a073, // csrrs x0,sie,x5
    0x10016073, // csrrsi x0,sstatus,2
    0xc0102573, // csrrs x10,time,x0
    0x02650513, // addi x10,x10,38
    0x00000893, // addi x17,x0,0
    0x00000073, // ecall
    0x0099128b, // b.call x5,x18,x9
    0x00100f93, // addi x31,x0,1
    0x01f51463, // bne x10,x31,0x80000050
    0x0100006f, // jal x0,0x8000005c
    0x02100513, // addi x10,x0,33
    0x00100893, // addi x17,x0,1
    0x00000073, // ecall
    0x00800893, // addi x17,x0,8
    0x00000073, // ecall
];

const LIMIT_TABLES: [(usize, u64); 84] = [
    (4096, 0x30e0b30020e0b3),
    (4104, 0x50e0b30040e0b3),
    (4112, 0x70e0b30060e0b3),
    (4120, 0x90e0b30080e0b3),
    (4128, 0xb0e0b300a0e0b3),
    (4136, 0xd0e0b300c0e0b3),
    (4144, 0xf0e0b300e0e0b3),
    (4152, 0x110e0b30100e0b3),
    (4160, 0x130e0b30120e0b3),
    (4168, 0x150e0b30140e0b3),
    (4176, 0x170e0b30160e0b3),
    (4184, 0x190e0b30180e0b3),
    (4192, 0x1b0e0b301a0e0b3),
    (4200, 0x1d0e0b301c0e0b3),
    (4208, 0x1f0e0b301e0e0b3),
    (4216, 0xfd5fe06f00008463),
    (4224, 0x28463143022f3),
    (4232, 0x144022f3fc9fe06f),
    (4240, 0x1f2846302000f93),
    (4248, 0x100022f3fb9fe06f),
    (4256, 0x12000f931222f293),
    (4264, 0xfa5fe06f01f28463),
    (4272, 0x129313142022f3),
    (4280, 0x1f3046300a00f93),
    (4288, 0x2c463f91fe06f),
    (4296, 0xfff00513f89fe06f),
    (4304, 0x7300000893),
    (4312, 0x10200073),
    (32768, 0x201010147534e42),
    (32784, 0x80010000),
    (32848, 0x80010),
    (32856, 0x501),
    (32864, 0x80011),
    (32872, 0x301),
    (65536, 0x1100006f),
    (65544, 0xe009e63fff08093),
    (65552, 0xe011a63ffe10113),
    (65560, 0xe019663ffd18193),
    (65568, 0xe021263ffc20213),
    (65576, 0xc029e63ffb28293),
    (65584, 0xc031a63ffa30313),
    (65592, 0xc039663ff938393),
    (65600, 0xc041263ff840413),
    (65608, 0xa049e63ff748493),
    (65616, 0xa051a63ff650513),
    (65624, 0xa059663ff558593),
    (65632, 0xa061263ff460613),
    (65640, 0x8069e63ff368693),
    (65648, 0x8071a63ff270713),
    (65656, 0x8079663ff178793),
    (65664, 0x8081263ff080813),
    (65672, 0x6089e63fef88893),
    (65680, 0x6091a63fee90913),
    (65688, 0x6099663fed98993),
    (65696, 0x60a1263feca0a13),
    (65704, 0x40a9e63feba8a93),
    (65712, 0x40b1a63feab0b13),
    (65720, 0x40b9663fe9b8b93),
    (65728, 0x40c1263fe8c0c13),
    (65736, 0x20c9e63fe7c8c93),
    (65744, 0x20d1a63fe6d0d13),
    (65752, 0x20d9663fe5d8d93),
    (65760, 0x20e1263fe4e0e13),
    (65768, 0xe9e63fe3e8e93),
    (65776, 0xf1a63fe2f0f13),
    (65784, 0xf9663fe1f8f93),
    (65792, 0x200b00100513),
    (65800, 0x200bfff00513),
    (65808, 0x20011300100093),
    (65816, 0x40021300300193),
    (65824, 0x60031300500293),
    (65832, 0x80041300700393),
    (65840, 0xa0051300900493),
    (65848, 0xc0061300b00593),
    (65856, 0xe0071300d00693),
    (65864, 0x100081300f00793),
    (65872, 0x120091301100893),
    (65880, 0x1400a1301300993),
    (65888, 0x1600b1301500a93),
    (65896, 0x1800c1301700b93),
    (65904, 0x1a00d1301900c93),
    (65912, 0x1c00e1301b00d93),
    (65920, 0x1e00f1301d00e93),
    (65928, 0xe7dff06f01f00f93),
];

const LIMIT_LINES: [&str; 5] = [
    "launch 5 0 1 ac3b0b1ba3315fea0940e80a100ff9e7cd273831f3ebbb06b13ba2f543b426b9\n",
    "call 16 0 0 1 0000000080010000\n",
    "stop 50 0 1 0000000080010008\n",
    "trap 50 0 8000000000000005 0000000080010008\n",
    "end 52 limit 1216cc1ef022c3f5f27a4378fe1cfee8638fef92f5d1e6406154efccfa97f5f6\n",
];

const LIMIT_RUNS: [Zeroed<'static>; 3] = [
    Zeroed {
        place: "1@51",
        kept: 5,
        rest: &NO_LINES,
    },
    Zeroed {
        place: "1@52",
        kept: 5,
        rest: &NO_LINES,
    },
    Zeroed {
        place: "1@53",
        kept: 5,
        rest: &NO_LINES,
    },
];

const LIMIT: ZeroedGuest<'static> = ZeroedGuest {
    guest: Guest {
        code: &LIMIT_CODE,
        tables: &LIMIT_TABLES,
        steps: 52,
        lines: &LIMIT_LINES,
    },
    runs: &LIMIT_RUNS,
};

#[test]
fn zeroing_beside_the_limit_is_not_told(rt: HostRuntime) {
    expect_zeroed_guest(&rt, rt.alloc(), &LIMIT);
}

// A module offers a page, which another accepts. It isn't zeroed with the one, nor with the other:
// who still runs reads there what was written last.
const OFFERED_CODE: [u32; 98] = [
    0x00000f97, // auipc x31,0x0
    0x14cf8f93, // addi x31,x31,332
    0x105f9073, // csrrw x0,stvec,x31
    0x00008397, // auipc x7,0x8
    0xff438393, // addi x7,x7,-12
    0x0003828b, // b.launch x5,x7
    0x00100f93, // addi x31,x0,1
    0x15f29c63, // bne x5,x31,0x80000174
    0x00009397, // auipc x7,0x9
    0xfe038393, // addi x7,x7,-32
    0x0003830b, // b.launch x6,x7
    0x00200f93, // addi x31,x0,2
    0x15f31263, // bne x6,x31,0x80000174
    0x00010417, // auipc x8,0x10
    0xfcc40413, // addi x8,x8,-52
    0x00011497, // auipc x9,0x11
    0xfc448493, // addi x9,x9,-60
    0x00014917, // auipc x18,0x14
    0xfbc90913, // addi x18,x18,-68
    0x0b40006f, // jal x0,0x80000100
    0x00000000, // no instruction
    0x00000000, // no instruction
    0x00000000, // no instruction
    0x00000000, // no instruction
    0x00000000, // no instruction
    0x00000000, // no instruction
    0x00000000, // no instruction
    0x00000000, // no instruction
    0x00000000, // no instruction
    0x00000000, // no instruction
    0x00000000, // no instruction
    0x00000000, // no instruction
    0x00000000, // no instruction
    0x00000000, // no instruction
    0x00000000, // no instruction
    0x00000000, // no instruction
    0x00000000, // no instruction
    0x00000000, // no instruction
    0x00000000, // no instruction
    0x00000000, // no instruction
    0x00000000, // no instruction
    0x00000000, // no instruction
    0x00000000, // no instruction
    0x00000000, // no instruction
    0x00000000, // no instruction
    0x00000000, // no instruction
    0x00000000, // no instruction
    0x00000000, // no instruction
    0x00000000, // no instruction
    0x00000000, // no instruction
    0x00000000, // no instruction
    0x00000000, // no instruction
    0x00000000, // no instruction
    0x00000000, // no instruction
    0x00000000, // no instruction
    0x00000000, // no instruction
    0x00000000, // no instruction
    0x00000000, // no instruction
    0x00000000, // no instruction
    0x00000000, // no instruction
    0x00000000, // no instruction
    0x00000000, // no instruction
    0x00000000, // no instruction
    0x00000000, // no instruction
    0x00090513, // addi x10,x18,0
    0x03700593, // addi x11,x0,55
    0x0082938b, // b.call x7,x5,x8
    0x00000f93, // addi x31,x0,0
    0x07f51263, // bne x10,x31,0x80000174
    0x00090513, // addi x10,x18,0
    0x0093138b, // b.call x7,x6,x9
    0x03700f93, // addi x31,x0,55
    0x05f51a63, // bne x10,x31,0x80000174
    0x00090513, // addi x10,x18,0
    0x04200593, // addi x11,x0,66
    0x0082938b, // b.call x7,x5,x8
    0x03700f93, // addi x31,x0,55
    0x05f51063, // bne x10,x31,0x80000174
    0x00090513, // addi x10,x18,0
    0x0093138b, // b.call x7,x6,x9
    0x04200f93, // addi x31,x0,66
    0x03f51863, // bne x10,x31,0x80000174
    0x0380006f, // jal x0,0x80000180
    0x00200313, // addi x6,x0,2
    0x00011497, // auipc x9,0x11
    0xeb048493, // addi x9,x9,-336
    0x00014917, // auipc x18,0x14
    0xea890913, // addi x18,x18,-344
    0x00090513, // addi x10,x18,0
    0x0093138b, // b.call x7,x6,x9
    0x03700f93, // addi x31,x0,55
    0x01f51463, // bne x10,x31,0x80000174
    0x0100006f, // jal x0,0x80000180
    0x02100513, // addi x10,x0,33
    0x00100893, // addi x17,x0,1
    0x00000073, // ecall
    0x00800893, // addi x17,x0,8
    0x00000073, // ecall
];

const OFFERED_TABLES: [(usize, u64); 20] = [
    (32768, 0x201010147534e42),
    (32776, 0x1),
    (32784, 0x80010000),
    (32848, 0x80010),
    (32856, 0x501),
    (32864, 0x80014),
    (32872, 0x10302),
    (33872, 0x940b1648a4378afd),
    (33880, 0x882f19f66a84ae83),
    (33888, 0x31b6e93b39111e7b),
    (33896, 0x1783c977c94802ee),
    (36864, 0x201010147534e42),
    (36880, 0x80011000),
    (36944, 0x80011),
    (36952, 0x501),
    (36960, 0x80014),
    (36968, 0x103),
    (65536, 0xb5302300053283),
    (65544, 0x200b00028513),
    (69632, 0x200b00053503),
];

const OFFERED_LINES: [&str; 11] = [
    "launch 5 0 1 6b14eca33afc2407f97d88e05bb5eb5330bc90eaf662a28fa8580eb51da4d6cf\n",
    "launch 10 0 2 fd8a37a448160b9483ae846af6192f887b1e11393be9b631ee0248c977c98317\n",
    "call 22 0 0 1 0000000080010000\n",
    "ret 26 0 1 0 000000008000010c\n",
    "call 30 0 0 2 0000000080011000\n",
    "ret 32 0 2 0 000000008000011c\n",
    "call 37 0 0 1 0000000080010000\n",
    "ret 41 0 1 0 0000000080000130\n",
    "call 45 0 0 2 0000000080011000\n",
    "ret 47 0 2 0 0000000080000140\n",
    "end 53 shutdown 66545031f033f1430d27f7564ae9ee216f3a8932cf98af703c94e8e88c0487b9\n",
];

const OFFERED_1_27: [&str; 5] = [
    "stop 38 0 1 0000000080010000\n",
    "trap 38 0 0000000000000002 0000000080010000\n",
    "call 45 0 0 2 0000000080011000\n",
    "ret 47 0 2 0 0000000080000168\n",
    "end 53 shutdown 66545031f033f1430d27f7564ae9ee216f3a8932cf98af703c94e8e88c0487b9\n",
];

const OFFERED_1_31: [&str; 5] = [
    "stop 38 0 1 0000000080010000\n",
    "trap 38 0 0000000000000002 0000000080010000\n",
    "call 45 0 0 2 0000000080011000\n",
    "ret 47 0 2 0 0000000080000168\n",
    "end 53 shutdown 66545031f033f1430d27f7564ae9ee216f3a8932cf98af703c94e8e88c0487b9\n",
];

const OFFERED_2_33: [&str; 5] = [
    "stop 46 0 2 0000000080011000\n",
    "trap 46 0 0000000000000002 0000000080011000\n",
    "refuse 53 0 call -4\n",
    "out 58 0 21\n",
    "end 61 shutdown 66545031f033f1430d27f7564ae9ee216f3a8932cf98af703c94e8e88c0487b9\n",
];

const OFFERED_2_38: [&str; 5] = [
    "stop 46 0 2 0000000080011000\n",
    "trap 46 0 0000000000000002 0000000080011000\n",
    "refuse 53 0 call -4\n",
    "out 58 0 21\n",
    "end 61 shutdown 66545031f033f1430d27f7564ae9ee216f3a8932cf98af703c94e8e88c0487b9\n",
];

const OFFERED_RUNS: [Zeroed<'static>; 10] = [
    Zeroed {
        place: "1@27",
        kept: 7,
        rest: &OFFERED_1_27,
    },
    Zeroed {
        place: "1@31",
        kept: 7,
        rest: &OFFERED_1_31,
    },
    Zeroed {
        place: "1@38",
        kept: 11,
        rest: &NO_LINES,
    },
    Zeroed {
        place: "1@42",
        kept: 11,
        rest: &NO_LINES,
    },
    Zeroed {
        place: "1@46",
        kept: 11,
        rest: &NO_LINES,
    },
    Zeroed {
        place: "2@33",
        kept: 9,
        rest: &OFFERED_2_33,
    },
    Zeroed {
        place: "2@31",
        kept: 11,
        rest: &NO_LINES,
    },
    Zeroed {
        place: "2@46",
        kept: 11,
        rest: &NO_LINES,
    },
    Zeroed {
        place: "2@38",
        kept: 9,
        rest: &OFFERED_2_38,
    },
    Zeroed {
        place: "2@48",
        kept: 11,
        rest: &NO_LINES,
    },
];

const OFFERED: ZeroedGuest<'static> = ZeroedGuest {
    guest: Guest {
        code: &OFFERED_CODE,
        tables: &OFFERED_TABLES,
        steps: 60_000,
        lines: &OFFERED_LINES,
    },
    runs: &OFFERED_RUNS,
};

#[test]
fn shared_pages_are_not_zeroed(rt: HostRuntime) {
    expect_zeroed_guest(&rt, rt.alloc(), &OFFERED);
}

// The kernel gives a page of a module as its root. Every access traps, and none is denied, whatever
// is in the page.
const OWN_ROOT_CODE: [u32; 10] = [
    0x00001f97, // auipc x31,0x1
    0x000f8f93, // addi x31,x31,0
    0x105f9073, // csrrw x0,stvec,x31
    0x00008417, // auipc x8,0x8
    0xff440413, // addi x8,x8,-12
    0x0004028b, // b.launch x5,x8
    0x00000317, // auipc x6,0x0
    0x3e830313, // addi x6,x6,1000
    0x00033303, // ld x6,0(x6)
    0x18031073, // csrrw x0,satp,x6
];

const OWN_ROOT_TABLES: [(usize, u64); 9] = [
    (1024, 0x8000000000080011),
    (32768, 0x201010147534e42),
    (32784, 0x80010000),
    (32848, 0x80010),
    (32856, 0x501),
    (32864, 0x80011),
    (32872, 0x301),
    (65536, 0x200b00700513),
    (69632, 0x1122334455667788),
];

const OWN_ROOT_LINES: [&str; 5] = [
    "launch 5 0 1 a22aca9e914d1a17e9d49ca6d48af078e4a08f78d0973c262217865daba4cddc\n",
    "trap 10 0 0000000000000001 0000000080000028\n",
    "trap 11 0 0000000000000001 0000000080001000\n",
    "trap 12 0 0000000000000001 0000000080001000\n",
    "end 13 limit 133ec46e0a6fd82f99ce0cc2c662ce7742f89124ebdc19e6a26194beb3f7afd0\n",
];

const OWN_ROOT_RUNS: [Zeroed<'static>; 3] = [
    Zeroed {
        place: "1@6",
        kept: 5,
        rest: &NO_LINES,
    },
    Zeroed {
        place: "1@9",
        kept: 5,
        rest: &NO_LINES,
    },
    Zeroed {
        place: "1@10",
        kept: 5,
        rest: &NO_LINES,
    },
];

const OWN_ROOT: ZeroedGuest<'static> = ZeroedGuest {
    guest: Guest {
        code: &OWN_ROOT_CODE,
        tables: &OWN_ROOT_TABLES,
        steps: 13,
        lines: &OWN_ROOT_LINES,
    },
    runs: &OWN_ROOT_RUNS,
};

#[test]
fn a_zeroed_page_is_no_root(rt: HostRuntime) {
    expect_zeroed_guest(&rt, rt.alloc(), &OWN_ROOT);
}

// The kernel's root leads on to a page of a module, which has what would be a good leaf. Loads by
// that table trap, and none is denied, whatever is in the page.
const OWN_TABLES_CODE: [u32; 35] = [
    0x00000f97, // auipc x31,0x0
    0x070f8f93, // addi x31,x31,112
    0x105f9073, // csrrw x0,stvec,x31
    0x00008417, // auipc x8,0x8
    0xff440413, // addi x8,x8,-12
    0x00000f97, // auipc x31,0x0
    0x3ecf8f93, // addi x31,x31,1004
    0x000fbf83, // ld x31,0(x31)
    0x180f9073, // csrrw x0,satp,x31
    0x0004028b, // b.launch x5,x8
    0x00100f93, // addi x31,x0,1
    0x05f29663, // bne x5,x31,0x80000078
    0x40000337, // lui x6,0x40000
    0x00000f97, // auipc x31,0x0
    0x014f8f93, // addi x31,x31,20
    0x140f9073, // csrrw x0,sscratch,x31
    0x00033383, // ld x7,0(x6)
    0x0340006f, // jal x0,0x80000078
    0x00000f97, // auipc x31,0x0
    0x014f8f93, // addi x31,x31,20
    0x140f9073, // csrrw x0,sscratch,x31
    0x00033023, // sd x0,0(x6)
    0x0200006f, // jal x0,0x80000078
    0x00000f97, // auipc x31,0x0
    0x010f8f93, // addi x31,x31,16
    0x140f9073, // csrrw x0,sscratch,x31
    0x00030067, // jalr x0,0(x6)
    0x0180006f, // jal x0,0x80000084
    0x14002ff3, // csrrs x31,sscratch,x0
    0x000f8067, // jalr x0,0(x31)
    0x02100513, // addi x10,x0,33
    0x00100893, // addi x17,x0,1
    0x00000073, // ecall
    0x00800893, // addi x17,x0,8
    0x00000073, // ecall
];

const OWN_TABLES_TABLES: [(usize, u64); 11] = [
    (1024, 0x8000000000080001),
    (4104, 0x20004401),
    (4112, 0x200000cf),
    (32768, 0x201010147534e42),
    (32784, 0x80010000),
    (32848, 0x80010),
    (32856, 0x501),
    (32864, 0x80011),
    (32872, 0x301),
    (65536, 0x200b),
    (69632, 0x200000cf),
];

const OWN_TABLES_LINES: [&str; 5] = [
    "launch 9 0 1 73000006e3d01e8065e196e5ab9688f7a83c87889f32aff8e0498f8ba23208a5\n",
    "trap 16 0 0000000000000005 0000000080000040\n",
    "trap 22 0 0000000000000007 0000000080000054\n",
    "trap 29 0 0000000000000001 0000000040000000\n",
    "end 35 shutdown 2415dc7221a7d36e7af7031f1f8867c85625338a9edcac8935d79cbd1e2f4de4\n",
];

const OWN_TABLES_RUNS: [Zeroed<'static>; 2] = [
    Zeroed {
        place: "1@10",
        kept: 5,
        rest: &NO_LINES,
    },
    Zeroed {
        place: "1@16",
        kept: 5,
        rest: &NO_LINES,
    },
];

const OWN_TABLES: ZeroedGuest<'static> = ZeroedGuest {
    guest: Guest {
        code: &OWN_TABLES_CODE,
        tables: &OWN_TABLES_TABLES,
        steps: 60_000,
        lines: &OWN_TABLES_LINES,
    },
    runs: &OWN_TABLES_RUNS,
};

#[test]
fn a_zeroed_page_is_no_table(rt: HostRuntime) {
    expect_zeroed_guest(&rt, rt.alloc(), &OWN_TABLES);
}

// A timer stops a module, which is zeroed where it rests: nothing changes up to the line by which
// it goes on, and then its code is zeros. It isn't zeroed where it runs, nor where it doesn't live
// yet, nor where there is no such event or no such module.
const TIMER_CODE: [u32; 25] = [
    0x00001f97, // auipc x31,0x1
    0x000f8f93, // addi x31,x31,0
    0x105f9073, // csrrw x0,stvec,x31
    0x00008397, // auipc x7,0x8
    0xff438393, // addi x7,x7,-12
    0x0003890b, // b.launch x18,x7
    0x00010497, // auipc x9,0x10
    0xfe848493, // addi x9,x9,-24
    0x10405073, // csrrwi x0,sie,0
    0x02000293, // addi x5,x0,32
    0x1042a073, // csrrs x0,sie,x5
    0x10016073, // csrrsi x0,sstatus,2
    0xc0102573, // csrrs x10,time,x0
    0x02650513, // addi x10,x10,38
    0x00000893, // addi x17,x0,0
    0x00000073, // ecall
    0x0099128b, // b.call x5,x18,x9
    0x00100f93, // addi x31,x0,1
    0x01f51463, // bne x10,x31,0x80000050
    0x0100006f, // jal x0,0x8000005c
    0x02100513, // addi x10,x0,33
    0x00100893, // addi x17,x0,1
    0x00000073, // ecall
    0x00800893, // addi x17,x0,8
    0x00000073, // ecall
];

const TIMER_TABLES: [(usize, u64); 84] = [
    (4096, 0x30e0b30020e0b3),
    (4104, 0x50e0b30040e0b3),
    (4112, 0x70e0b30060e0b3),
    (4120, 0x90e0b30080e0b3),
    (4128, 0xb0e0b300a0e0b3),
    (4136, 0xd0e0b300c0e0b3),
    (4144, 0xf0e0b300e0e0b3),
    (4152, 0x110e0b30100e0b3),
    (4160, 0x130e0b30120e0b3),
    (4168, 0x150e0b30140e0b3),
    (4176, 0x170e0b30160e0b3),
    (4184, 0x190e0b30180e0b3),
    (4192, 0x1b0e0b301a0e0b3),
    (4200, 0x1d0e0b301c0e0b3),
    (4208, 0x1f0e0b301e0e0b3),
    (4216, 0xfd5fe06f00008463),
    (4224, 0x28463143022f3),
    (4232, 0x144022f3fc9fe06f),
    (4240, 0x1f2846302000f93),
    (4248, 0x100022f3fb9fe06f),
    (4256, 0x12000f931222f293),
    (4264, 0xfa5fe06f01f28463),
    (4272, 0x129313142022f3),
    (4280, 0x1f3046300a00f93),
    (4288, 0x2c463f91fe06f),
    (4296, 0xfff00513f89fe06f),
    (4304, 0x7300000893),
    (4312, 0x10200073),
    (32768, 0x201010147534e42),
    (32784, 0x80010000),
    (32848, 0x80010),
    (32856, 0x501),
    (32864, 0x80011),
    (32872, 0x301),
    (65536, 0x1100006f),
    (65544, 0xe009e63fff08093),
    (65552, 0xe011a63ffe10113),
    (65560, 0xe019663ffd18193),
    (65568, 0xe021263ffc20213),
    (65576, 0xc029e63ffb28293),
    (65584, 0xc031a63ffa30313),
    (65592, 0xc039663ff938393),
    (65600, 0xc041263ff840413),
    (65608, 0xa049e63ff748493),
    (65616, 0xa051a63ff650513),
    (65624, 0xa059663ff558593),
    (65632, 0xa061263ff460613),
    (65640, 0x8069e63ff368693),
    (65648, 0x8071a63ff270713),
    (65656, 0x8079663ff178793),
    (65664, 0x8081263ff080813),
    (65672, 0x6089e63fef88893),
    (65680, 0x6091a63fee90913),
    (65688, 0x6099663fed98993),
    (65696, 0x60a1263feca0a13),
    (65704, 0x40a9e63feba8a93),
    (65712, 0x40b1a63feab0b13),
    (65720, 0x40b9663fe9b8b93),
    (65728, 0x40c1263fe8c0c13),
    (65736, 0x20c9e63fe7c8c93),
    (65744, 0x20d1a63fe6d0d13),
    (65752, 0x20d9663fe5d8d93),
    (65760, 0x20e1263fe4e0e13),
    (65768, 0xe9e63fe3e8e93),
    (65776, 0xf1a63fe2f0f13),
    (65784, 0xf9663fe1f8f93),
    (65792, 0x200b00100513),
    (65800, 0x200bfff00513),
    (65808, 0x20011300100093),
    (65816, 0x40021300300193),
    (65824, 0x60031300500293),
    (65832, 0x80041300700393),
    (65840, 0xa0051300900493),
    (65848, 0xc0061300b00593),
    (65856, 0xe0071300d00693),
    (65864, 0x100081300f00793),
    (65872, 0x120091301100893),
    (65880, 0x1400a1301300993),
    (65888, 0x1600b1301500a93),
    (65896, 0x1800c1301700b93),
    (65904, 0x1a00d1301900c93),
    (65912, 0x1c00e1301b00d93),
    (65920, 0x1e00f1301d00e93),
    (65928, 0xe7dff06f01f00f93),
];

const TIMER_LINES: [&str; 7] = [
    "launch 5 0 1 ac3b0b1ba3315fea0940e80a100ff9e7cd273831f3ebbb06b13ba2f543b426b9\n",
    "call 16 0 0 1 0000000080010000\n",
    "stop 50 0 1 0000000080010008\n",
    "trap 50 0 8000000000000005 0000000080010008\n",
    "resume 100 0 1 0000000080010008\n",
    "ret 164 0 1 0 0000000080000044\n",
    "end 170 shutdown 1216cc1ef022c3f5f27a4378fe1cfee8638fef92f5d1e6406154efccfa97f5f6\n",
];

const TIMER_1_6: [&str; 4] = [
    "stop 17 0 1 0000000080010000\n",
    "trap 17 0 0000000000000002 0000000080010000\n",
    "out 65 0 21\n",
    "end 68 shutdown 1216cc1ef022c3f5f27a4378fe1cfee8638fef92f5d1e6406154efccfa97f5f6\n",
];

const TIMER_1_16: [&str; 4] = [
    "stop 17 0 1 0000000080010000\n",
    "trap 17 0 0000000000000002 0000000080010000\n",
    "out 65 0 21\n",
    "end 68 shutdown 1216cc1ef022c3f5f27a4378fe1cfee8638fef92f5d1e6406154efccfa97f5f6\n",
];

const TIMER_1_51: [&str; 4] = [
    "stop 101 0 1 0000000080010008\n",
    "trap 101 0 0000000000000002 0000000080010008\n",
    "out 141 0 21\n",
    "end 144 shutdown 1216cc1ef022c3f5f27a4378fe1cfee8638fef92f5d1e6406154efccfa97f5f6\n",
];

const TIMER_1_100: [&str; 4] = [
    "stop 101 0 1 0000000080010008\n",
    "trap 101 0 0000000000000002 0000000080010008\n",
    "out 141 0 21\n",
    "end 144 shutdown 1216cc1ef022c3f5f27a4378fe1cfee8638fef92f5d1e6406154efccfa97f5f6\n",
];

const TIMER_RUNS: [Zeroed<'static>; 17] = [
    Zeroed {
        place: "1@0",
        kept: 7,
        rest: &NO_LINES,
    },
    Zeroed {
        place: "1@5",
        kept: 7,
        rest: &NO_LINES,
    },
    Zeroed {
        place: "1@6",
        kept: 2,
        rest: &TIMER_1_6,
    },
    Zeroed {
        place: "1@16",
        kept: 2,
        rest: &TIMER_1_16,
    },
    Zeroed {
        place: "1@17",
        kept: 7,
        rest: &NO_LINES,
    },
    Zeroed {
        place: "1@50",
        kept: 7,
        rest: &NO_LINES,
    },
    Zeroed {
        place: "1@51",
        kept: 5,
        rest: &TIMER_1_51,
    },
    Zeroed {
        place: "1@100",
        kept: 5,
        rest: &TIMER_1_100,
    },
    Zeroed {
        place: "1@101",
        kept: 7,
        rest: &NO_LINES,
    },
    Zeroed {
        place: "1@164",
        kept: 7,
        rest: &NO_LINES,
    },
    Zeroed {
        place: "1@165",
        kept: 7,
        rest: &NO_LINES,
    },
    Zeroed {
        place: "1@169",
        kept: 7,
        rest: &NO_LINES,
    },
    Zeroed {
        place: "1@170",
        kept: 7,
        rest: &NO_LINES,
    },
    Zeroed {
        place: "1@60000",
        kept: 7,
        rest: &NO_LINES,
    },
    Zeroed {
        place: "1@1000000000",
        kept: 7,
        rest: &NO_LINES,
    },
    Zeroed {
        place: "2@51",
        kept: 7,
        rest: &NO_LINES,
    },
    Zeroed {
        place: "65535@51",
        kept: 7,
        rest: &NO_LINES,
    },
];

const TIMER: ZeroedGuest<'static> = ZeroedGuest {
    guest: Guest {
        code: &TIMER_CODE,
        tables: &TIMER_TABLES,
        steps: 60_000,
        lines: &TIMER_LINES,
    },
    runs: &TIMER_RUNS,
};

#[test]
fn a_stopped_module_is_zeroed(rt: HostRuntime) {
    expect_zeroed_guest(&rt, rt.alloc(), &TIMER);
}

// A module waits for another, which a timer stops. Where the first is zeroed, its pc stays: it goes
// on behind its call, where its code is zeros. Where the second is zeroed the first isn't.
const WAITING_CODE: [u32; 50] = [
    0x00000f97, // auipc x31,0x0
    0x078f8f93, // addi x31,x31,120
    0x105f9073, // csrrw x0,stvec,x31
    0x00008397, // auipc x7,0x8
    0xff438393, // addi x7,x7,-12
    0x0003828b, // b.launch x5,x7
    0x00100f93, // addi x31,x0,1
    0x09f29c63, // bne x5,x31,0x800000b4
    0x00009397, // auipc x7,0x9
    0xfe038393, // addi x7,x7,-32
    0x0003830b, // b.launch x6,x7
    0x00200f93, // addi x31,x0,2
    0x09f31263, // bne x6,x31,0x800000b4
    0x02000393, // addi x7,x0,32
    0x1043a073, // csrrs x0,sie,x7
    0x10016073, // csrrsi x0,sstatus,2
    0x00010497, // auipc x9,0x10
    0xfc048493, // addi x9,x9,-64
    0x00012597, // auipc x11,0x12
    0xfb858593, // addi x11,x11,-72
    0xc0102573, // csrrs x10,time,x0
    0x00a50513, // addi x10,x10,10
    0x00000893, // addi x17,x0,0
    0x00000073, // ecall
    0x0092938b, // b.call x7,x5,x9
    0x04d00f93, // addi x31,x0,77
    0x05f51663, // bne x10,x31,0x800000b4
    0x00100f93, // addi x31,x0,1
    0x05f29263, // bne x5,x31,0x800000b4
    0x04c0006f, // jal x0,0x800000c0
    0x142022f3, // csrrs x5,scause,x0
    0x0202dc63, // bge x5,x0,0x800000b4
    0xfff00513, // addi x10,x0,-1
    0x00000893, // addi x17,x0,0
    0x00000073, // ecall
    0x00100293, // addi x5,x0,1
    0x0002b30b, // b.evict x6,x5
    0xffe00f93, // addi x31,x0,-2
    0x01f31e63, // bne x6,x31,0x800000b4
    0x00010497, // auipc x9,0x10
    0xf6448493, // addi x9,x9,-156
    0x0092930b, // b.call x6,x5,x9
    0xffc00f93, // addi x31,x0,-4
    0x01f31463, // bne x6,x31,0x800000b4
    0x10200073, // sret
    0x02100513, // addi x10,x0,33
    0x00100893, // addi x17,x0,1
    0x00000073, // ecall
    0x00800893, // addi x17,x0,8
    0x00000073, // ecall
];

const WAITING_TABLES: [(usize, u64); 15] = [
    (32768, 0x201010147534e42),
    (32784, 0x80010000),
    (32848, 0x80010),
    (32856, 0x501),
    (32864, 0x80011),
    (32872, 0x301),
    (36864, 0x101010147534e42),
    (36880, 0x80012000),
    (36944, 0x80012),
    (36952, 0x501),
    (65536, 0x70049300200413),
    (65544, 0xb4128b00000013),
    (65552, 0x200b00950533),
    (69632, 0x1122334455667788),
    (73728, 0x200b04600513),
];

const WAITING_LINES: [&str; 12] = [
    "launch 5 0 1 b13fc2ec49646b432c82328461928d8ee8338f2047a2dd2e3addebbe31724f4e\n",
    "launch 10 0 2 8e736701653c1cd3430fbeaffe8af2b3ef3937595cfb4c7dd8d75cc8251baae5\n",
    "call 24 0 0 1 0000000080010000\n",
    "call 28 0 1 2 0000000080012000\n",
    "stop 30 0 2 0000000080012004\n",
    "trap 30 0 8000000000000005 0000000080012004\n",
    "refuse 37 0 evict -2\n",
    "refuse 42 0 call -4\n",
    "resume 46 0 2 0000000080012004\n",
    "ret 47 0 2 1 0000000080010010\n",
    "ret 49 0 1 0 0000000080000064\n",
    "end 57 shutdown 3e28ce5098eaa0f04877e918f1a8a7a475709db1a1799ff1e35c6ab9dba30a77\n",
];

const WAITING_1_29: [&str; 4] = [
    "stop 48 0 1 0000000080010010\n",
    "trap 48 0 0000000000000002 0000000080010010\n",
    "out 53 0 21\n",
    "end 56 shutdown 3e28ce5098eaa0f04877e918f1a8a7a475709db1a1799ff1e35c6ab9dba30a77\n",
];

const WAITING_1_31: [&str; 4] = [
    "stop 48 0 1 0000000080010010\n",
    "trap 48 0 0000000000000002 0000000080010010\n",
    "out 53 0 21\n",
    "end 56 shutdown 3e28ce5098eaa0f04877e918f1a8a7a475709db1a1799ff1e35c6ab9dba30a77\n",
];

const WAITING_1_47: [&str; 4] = [
    "stop 48 0 1 0000000080010010\n",
    "trap 48 0 0000000000000002 0000000080010010\n",
    "out 53 0 21\n",
    "end 56 shutdown 3e28ce5098eaa0f04877e918f1a8a7a475709db1a1799ff1e35c6ab9dba30a77\n",
];

const WAITING_2_28: [&str; 4] = [
    "stop 29 0 2 0000000080012000\n",
    "trap 29 0 0000000000000002 0000000080012000\n",
    "out 34 0 21\n",
    "end 37 shutdown 3e28ce5098eaa0f04877e918f1a8a7a475709db1a1799ff1e35c6ab9dba30a77\n",
];

const WAITING_2_31: [&str; 4] = [
    "stop 47 0 2 0000000080012004\n",
    "trap 47 0 0000000000000002 0000000080012004\n",
    "out 52 0 21\n",
    "end 55 shutdown 3e28ce5098eaa0f04877e918f1a8a7a475709db1a1799ff1e35c6ab9dba30a77\n",
];

const WAITING_RUNS: [Zeroed<'static>; 9] = [
    Zeroed {
        place: "1@28",
        kept: 12,
        rest: &NO_LINES,
    },
    Zeroed {
        place: "1@29",
        kept: 10,
        rest: &WAITING_1_29,
    },
    Zeroed {
        place: "1@31",
        kept: 10,
        rest: &WAITING_1_31,
    },
    Zeroed {
        place: "1@47",
        kept: 10,
        rest: &WAITING_1_47,
    },
    Zeroed {
        place: "1@48",
        kept: 12,
        rest: &NO_LINES,
    },
    Zeroed {
        place: "2@28",
        kept: 4,
        rest: &WAITING_2_28,
    },
    Zeroed {
        place: "2@29",
        kept: 12,
        rest: &NO_LINES,
    },
    Zeroed {
        place: "2@31",
        kept: 9,
        rest: &WAITING_2_31,
    },
    Zeroed {
        place: "2@48",
        kept: 12,
        rest: &NO_LINES,
    },
];

const WAITING: ZeroedGuest<'static> = ZeroedGuest {
    guest: Guest {
        code: &WAITING_CODE,
        tables: &WAITING_TABLES,
        steps: 60_000,
        lines: &WAITING_LINES,
    },
    runs: &WAITING_RUNS,
};

#[test]
fn a_waiting_module_is_zeroed(rt: HostRuntime) {
    expect_zeroed_guest(&rt, rt.alloc(), &WAITING);
}

// A stopped module that is zeroed goes on where it would have gone on: its pc and its mode stay.
// The word there is zero in its image too.
const WRONG_RESUMPTION_CODE: [u32; 96] = [
    0x00000f97, // auipc x31,0x0
    0x164f8f93, // addi x31,x31,356
    0x105f9073, // csrrw x0,stvec,x31
    0x00008397, // auipc x7,0x8
    0xff438393, // addi x7,x7,-12
    0x0003840b, // b.launch x8,x7
    0x00010497, // auipc x9,0x10
    0xfe848493, // addi x9,x9,-24
    0x00000f97, // auipc x31,0x0
    0x010f8f93, // addi x31,x31,16
    0x140f9073, // csrrw x0,sscratch,x31
    0x0094128b, // b.call x5,x8,x9
    0x00000f97, // auipc x31,0x0
    0x024f8f93, // addi x31,x31,36
    0x140f9073, // csrrw x0,sscratch,x31
    0x00010397, // auipc x7,0x10
    0xfd038393, // addi x7,x7,-48
    0x14139073, // csrrw x0,sepc,x7
    0x10000393, // addi x7,x0,256
    0x1003a073, // csrrs x0,sstatus,x7
    0x10200073, // sret
    0x00000f97, // auipc x31,0x0
    0x3acf8f93, // addi x31,x31,940
    0x000fbf83, // ld x31,0(x31)
    0x180f9073, // csrrw x0,satp,x31
    0x00000f97, // auipc x31,0x0
    0x024f8f93, // addi x31,x31,36
    0x140f9073, // csrrw x0,sscratch,x31
    0x00030397, // auipc x7,0x30
    0xf9838393, // addi x7,x7,-104
    0x14139073, // csrrw x0,sepc,x7
    0x10000393, // addi x7,x0,256
    0x1003a073, // csrrs x0,sstatus,x7
    0x10200073, // sret
    0x00003397, // auipc x7,0x3
    0xf7838393, // addi x7,x7,-136
    0x0a03b303, // ld x6,160(x7)
    0x0863b023, // sd x6,128(x7)
    0x00000f97, // auipc x31,0x0
    0x024f8f93, // addi x31,x31,36
    0x140f9073, // csrrw x0,sscratch,x31
    0x00010397, // auipc x7,0x10
    0xf6438393, // addi x7,x7,-156
    0x14139073, // csrrw x0,sepc,x7
    0x10000393, // addi x7,x0,256
    0x1003a073, // csrrs x0,sstatus,x7
    0x10200073, // sret
    0x01400f93, // addi x31,x0,20
    0x0bf51663, // bne x10,x31,0x8000016c
    0x00003397, // auipc x7,0x3
    0xf3c38393, // addi x7,x7,-196
    0x0a83b303, // ld x6,168(x7)
    0x0863b023, // sd x6,128(x7)
    0x00000f97, // auipc x31,0x0
    0x024f8f93, // addi x31,x31,36
    0x140f9073, // csrrw x0,sscratch,x31
    0x00010397, // auipc x7,0x10
    0xf2838393, // addi x7,x7,-216
    0x14139073, // csrrw x0,sepc,x7
    0x10000393, // addi x7,x0,256
    0x1003a073, // csrrs x0,sstatus,x7
    0x10200073, // sret
    0x00003397, // auipc x7,0x3
    0xf0838393, // addi x7,x7,-248
    0x0783b303, // ld x6,120(x7)
    0x0863b023, // sd x6,128(x7)
    0x00000f97, // auipc x31,0x0
    0x024f8f93, // addi x31,x31,36
    0x140f9073, // csrrw x0,sscratch,x31
    0x00010397, // auipc x7,0x10
    0xef438393, // addi x7,x7,-268
    0x14139073, // csrrw x0,sepc,x7
    0x10000393, // addi x7,x0,256
    0x1003b073, // csrrc x0,sstatus,x7
    0x10200073, // sret
    0x00003397, // auipc x7,0x3
    0xed438393, // addi x7,x7,-300
    0x1803b303, // ld x6,384(x7)
    0x0863b023, // sd x6,128(x7)
    0x00000f97, // auipc x31,0x0
    0x024f8f93, // addi x31,x31,36
    0x140f9073, // csrrw x0,sscratch,x31
    0x00010397, // auipc x7,0x10
    0xec038393, // addi x7,x7,-320
    0x14139073, // csrrw x0,sepc,x7
    0x10000393, // addi x7,x0,256
    0x1003a073, // csrrs x0,sstatus,x7
    0x10200073, // sret
    0x0180006f, // jal x0,0x80000178
    0x14002ff3, // csrrs x31,sscratch,x0
    0x000f8067, // jalr x0,0(x31)
    0x02100513, // addi x10,x0,33
    0x00100893, // addi x17,x0,1
    0x00000073, // ecall
    0x00800893, // addi x17,x0,8
    0x00000073, // ecall
];

const WRONG_RESUMPTION_TABLES: [(usize, u64); 21] = [
    (1024, 0x8000000000080001),
    (4112, 0x20000801),
    (8192, 0x20000c01),
    (12288, 0x200000cf),
    (12296, 0x200004cf),
    (12304, 0x200008cf),
    (12312, 0x20000ccf),
    (12408, 0x200040df),
    (12416, 0x200040cf),
    (12448, 0x200050cf),
    (12456, 0x200044cf),
    (12672, 0x200040cf),
    (32768, 0x201010147534e42),
    (32784, 0x80010000),
    (32848, 0x80010),
    (32856, 0x501),
    (32864, 0x80011),
    (32872, 0x301),
    (65536, 0x1300000013),
    (81928, 0x1301400513),
    (81936, 0x100073),
];

const WRONG_RESUMPTION_LINES: [&str; 17] = [
    "launch 5 0 1 aa2c6102dfb03cfb5899c0a77d9b7f46f38a6b106e408aa3c0f6097f7db5275a\n",
    "call 11 0 0 1 0000000080010000\n",
    "stop 14 0 1 0000000080010008\n",
    "trap 14 0 0000000000000002 0000000080010008\n",
    "deny 26 0 0 fetch 0000000080010\n",
    "trap 26 0 0000000000000001 000000008001000c\n",
    "deny 42 0 0 fetch 0000000080030\n",
    "trap 42 0 0000000000000001 0000000080030008\n",
    "trap 60 0 0000000000000003 0000000080010010\n",
    "deny 78 0 0 fetch 0000000080010\n",
    "trap 78 0 0000000000000001 0000000080010008\n",
    "deny 94 0 0 fetch 0000000080010\n",
    "trap 94 0 0000000000000001 0000000080010008\n",
    "resume 110 0 1 0000000080010008\n",
    "stop 111 0 1 0000000080010008\n",
    "trap 111 0 0000000000000002 0000000080010008\n",
    "end 117 shutdown f710794b7c9fbac4722b8353a24cb31b7604a68d2be2557eebe6eac43a24b941\n",
];

const WRONG_RESUMPTION_RUNS: [Zeroed<'static>; 1] = [Zeroed {
    place: "1@15",
    kept: 17,
    rest: &NO_LINES,
}];

const WRONG_RESUMPTION: ZeroedGuest<'static> = ZeroedGuest {
    guest: Guest {
        code: &WRONG_RESUMPTION_CODE,
        tables: &WRONG_RESUMPTION_TABLES,
        steps: 60_000,
        lines: &WRONG_RESUMPTION_LINES,
    },
    runs: &WRONG_RESUMPTION_RUNS,
};

#[test]
fn a_zeroed_module_keeps_its_pc_and_mode(rt: HostRuntime) {
    expect_zeroed_guest(&rt, rt.alloc(), &WRONG_RESUMPTION);
}
