//! Guests of several harts, with devices, each run by a script.
//! Made by `tests/make` from their assembly; the traces are those of `tests/interpreter.py`.

use super::guest::Guest;
use super::scripted_guest::{NO_RUNS, ScriptedGuest, expect_scripted_guest};
use super::zeroed_guest::{NO_LINES, Zeroed};

// Bytes that devices read and write: in RAM and on a page that nobody owns, also where it is a
// table or code, and nowhere else. The guest finds them at once. Each is an event, and no
// instruction.
const DEVICES_CODE: [u32; 144] = [
    0x00000f97, // auipc x31,0x0
    0x088f8f93, // addi x31,x31,136
    0x105f9073, // csrrw x0,stvec,x31
    0x00000f97, // auipc x31,0x0
    0x3f4f8f93, // addi x31,x31,1012
    0x000fbf83, // ld x31,0(x31)
    0x180f9073, // csrrw x0,satp,x31
    0x00008397, // auipc x7,0x8
    0xfe438393, // addi x7,x7,-28
    0x0003890b, // b.launch x18,x7
    0x00014417, // auipc x8,0x14
    0xfd840413, // addi x8,x8,-40
    0x00044283, // lbu x5,0(x8)
    0x00044303, // lbu x6,0(x8)
    0x00004383, // lbu x7,0(x0)
    0x05500493, // addi x9,x0,85
    0x009400a3, // sb x9,1(x8)
    0x00004983, // lbu x19,0(x0)
    0x00000f93, // addi x31,x0,0
    0x03f29e63, // bne x5,x31,0x80000088
    0x07f00f93, // addi x31,x0,127
    0x03f31a63, // bne x6,x31,0x80000088
    0x07f00f93, // addi x31,x0,127
    0x03f39663, // bne x7,x31,0x80000088
    0x03300f93, // addi x31,x0,51
    0x03f99263, // bne x19,x31,0x80000088
    0x00010497, // auipc x9,0x10
    0xf9848493, // addi x9,x9,-104
    0x0099128b, // b.call x5,x18,x9
    0x00003317, // auipc x6,0x3
    0xf9430313, // addi x6,x6,-108
    0x00033303, // ld x6,0(x6)
    0x00651463, // bne x10,x6,0x80000088
    0x17c0006f, // jal x0,0x80000200
    0x02100513, // addi x10,x0,33
    0x00100893, // addi x17,x0,1
    0x00000073, // ecall
    0x00800893, // addi x17,x0,8
    0x00000073, // ecall
    0x00000000, // no instruction
    0x00000000, // no instruction
    0x00000000, // no instruction
    0x00000000, // no instruction
    0x00000000, // no instruction
    0x00000000, // no instruction
    0x00000000, // no instruction
    0x00000000, // no instruction
    0x00000000, // no instruction
    0x00000000, // no instruction
    0x00000000, // no instruction
    0x00000000, // no instruction
    0x00000000, // no instruction
    0x00000000, // no instruction
    0x00000000, // no instruction
    0x00000000, // no instruction
    0x00000000, // no instruction
    0x00000000, // no instruction
    0x00000000, // no instruction
    0x00000000, // no instruction
    0x00000000, // no instruction
    0x00000000, // no instruction
    0x00000000, // no instruction
    0x00000000, // no instruction
    0x00000000, // no instruction
    0x00000000, // no instruction
    0x00000000, // no instruction
    0x00000000, // no instruction
    0x00000000, // no instruction
    0x00000000, // no instruction
    0x00000000, // no instruction
    0x00000000, // no instruction
    0x00000000, // no instruction
    0x00000000, // no instruction
    0x00000000, // no instruction
    0x00000000, // no instruction
    0x00000000, // no instruction
    0x00000000, // no instruction
    0x00000000, // no instruction
    0x00000000, // no instruction
    0x00000000, // no instruction
    0x00000000, // no instruction
    0x00000000, // no instruction
    0x00000000, // no instruction
    0x00000000, // no instruction
    0x00000000, // no instruction
    0x00000000, // no instruction
    0x00000000, // no instruction
    0x00000000, // no instruction
    0x00000000, // no instruction
    0x00000000, // no instruction
    0x00000000, // no instruction
    0x00000000, // no instruction
    0x00000000, // no instruction
    0x00000000, // no instruction
    0x00000000, // no instruction
    0x00000000, // no instruction
    0x00000000, // no instruction
    0x00000000, // no instruction
    0x00000000, // no instruction
    0x00000000, // no instruction
    0x00000000, // no instruction
    0x00000000, // no instruction
    0x00000000, // no instruction
    0x00000000, // no instruction
    0x00000000, // no instruction
    0x00000000, // no instruction
    0x00000000, // no instruction
    0x00000000, // no instruction
    0x00000000, // no instruction
    0x00000000, // no instruction
    0x00000000, // no instruction
    0x00000000, // no instruction
    0x00000000, // no instruction
    0x00000000, // no instruction
    0x00000000, // no instruction
    0x00000000, // no instruction
    0x00000000, // no instruction
    0x00000000, // no instruction
    0x00000000, // no instruction
    0x00000000, // no instruction
    0x00000000, // no instruction
    0x00000000, // no instruction
    0x00000000, // no instruction
    0x00000000, // no instruction
    0x00000000, // no instruction
    0x00000000, // no instruction
    0x00000000, // no instruction
    0x00000000, // no instruction
    0x00100293, // addi x5,x0,1
    0x00200f93, // addi x31,x0,2
    0xe9f290e3, // bne x5,x31,0x80000088
    0x0009328b, // b.evict x5,x18
    0x00011317, // auipc x6,0x11
    0xdf030313, // addi x6,x6,-528
    0x00033303, // ld x6,0(x6)
    0x06600f93, // addi x31,x0,102
    0xe7f314e3, // bne x6,x31,0x80000088
    0xc01022f3, // csrrs x5,time,x0
    0x04100f93, // addi x31,x0,65
    0xe5f29ee3, // bne x5,x31,0x80000088
    0xc0202373, // csrrs x6,instret,x0
    0x03100f93, // addi x31,x0,49
    0xe5f318e3, // bne x6,x31,0x80000088
    0xe59ff06f, // jal x0,0x80000094
];

const DEVICES_TABLES: [(usize, u64); 16] = [
    (1024, 0x8000000000080001),
    (4096, 0x20000801),
    (4112, 0x200000cf),
    (8192, 0x20000c01),
    (12288, 0x200050cf),
    (12296, 0x1122334455667788),
    (32768, 0x201010147534e42),
    (32784, 0x80010000),
    (32848, 0x80010),
    (32856, 0x501),
    (32864, 0x80011),
    (32872, 0x301),
    (65536, 0x2b50300001297),
    (65544, 0x200b),
    (69632, 0x1122334455667788),
    (86016, 0x33),
];

const DEVICES_LINES: [&str; 24] = [
    "launch 9 0 1 250c77ad7b31458397bd7f9ea218289e9b0f8c2327311462c24de018b4722f98\n",
    "poke 13 20 0 7f\n",
    "peek 18 20 1 55\n",
    "nopeek 19 16 0\n",
    "nopeek 20 17 0\n",
    "nopoke 21 16 0\n",
    "nopoke 22 17 0\n",
    "peek 23 8 0 42\n",
    "poke 24 31 4095 a5\n",
    "peek 25 31 4095 a5\n",
    "nopeek 26 32 0\n",
    "nopoke 27 32 0\n",
    "nopeek 28 4294967295 4095\n",
    "nopoke 29 4294967295 0\n",
    "poke 30 3 1 54\n",
    "call 42 0 0 1 0000000080010000\n",
    "nopoke 44 17 0\n",
    "nopeek 45 17 0\n",
    "ret 47 0 1 0 0000000080000074\n",
    "poke 53 0 514 20\n",
    "evict 57 0 1 1\n",
    "peek 58 17 0 00\n",
    "poke 59 17 0 66\n",
    "end 74 shutdown d32a33082081475a6cefa3ab023e9c92c4630261e0c86a9692d87685486d20c4\n",
];

const DEVICES_1_13: [&str; 6] = [
    "stop 43 0 1 0000000080010000\n",
    "trap 43 0 0000000000000002 0000000080010000\n",
    "nopoke 44 17 0\n",
    "nopeek 45 17 0\n",
    "out 48 0 21\n",
    "end 51 shutdown d9cd141e5736f71543e8dbc4361be694ac0e71932ceafe3998de8c7c167a73a7\n",
];

const DEVICES_1_19: [&str; 6] = [
    "stop 43 0 1 0000000080010000\n",
    "trap 43 0 0000000000000002 0000000080010000\n",
    "nopoke 44 17 0\n",
    "nopeek 45 17 0\n",
    "out 48 0 21\n",
    "end 51 shutdown d9cd141e5736f71543e8dbc4361be694ac0e71932ceafe3998de8c7c167a73a7\n",
];

const DEVICES_RUNS: [Zeroed<'static>; 4] = [
    Zeroed {
        place: "1@13",
        kept: 16,
        rest: &DEVICES_1_13,
    },
    Zeroed {
        place: "1@19",
        kept: 16,
        rest: &DEVICES_1_19,
    },
    Zeroed {
        place: "1@44",
        kept: 24,
        rest: &NO_LINES,
    },
    Zeroed {
        place: "1@57",
        kept: 24,
        rest: &NO_LINES,
    },
];

const DEVICES_SCRIPT: [&str; 24] = [
    "turn 0 13\n",
    "poke 20 0 7f\n",
    "turn 0 4\n",
    "peek 20 1\n",
    "peek 16 0\n",
    "peek 17 0\n",
    "poke 16 0 00\n",
    "poke 17 0 00\n",
    "peek 8 0\n",
    "poke 31 4095 a5\n",
    "peek 31 4095\n",
    "peek 32 0\n",
    "poke 32 0 01\n",
    "peek 4294967295 4095\n",
    "poke 4294967295 0 01\n",
    "poke 3 1 54\n",
    "turn 0 13\n",
    "poke 17 0 00\n",
    "peek 17 0\n",
    "turn 0 7\n",
    "poke 0 514 20\n",
    "turn 0 4\n",
    "peek 17 0\n",
    "poke 17 0 66\n",
];

const DEVICES: ScriptedGuest<'static> = ScriptedGuest {
    guest: Guest {
        code: &DEVICES_CODE,
        tables: &DEVICES_TABLES,
        steps: 60_000,
        lines: &DEVICES_LINES,
    },
    harts: "1",
    script: &DEVICES_SCRIPT,
    runs: &DEVICES_RUNS,
};

#[test]
fn devices_reach_the_pages_that_nobody_owns(rt: HostRuntime) {
    expect_scripted_guest(&rt, rt.alloc(), &DEVICES);
}

// Four harts add 1 to one number and write it. In step they read the same number, and so lose three
// of four sums; one after the other they lose none. Each `go` begins with the first hart, and so do
// the turns behind the script.
const FOUR_HARTS_CODE: [u32; 34] = [
    0x00100513, // addi x10,x0,1
    0x00000597, // auipc x11,0x0
    0x05c58593, // addi x11,x11,92
    0x00000613, // addi x12,x0,0
    0x004858b7, // lui x17,0x485
    0x34d88893, // addi x17,x17,845
    0x00000813, // addi x16,x0,0
    0x00000073, // ecall
    0x00200513, // addi x10,x0,2
    0x00000597, // auipc x11,0x0
    0x03c58593, // addi x11,x11,60
    0x00000613, // addi x12,x0,0
    0x004858b7, // lui x17,0x485
    0x34d88893, // addi x17,x17,845
    0x00000813, // addi x16,x0,0
    0x00000073, // ecall
    0x00300513, // addi x10,x0,3
    0x00000597, // auipc x11,0x0
    0x01c58593, // addi x11,x11,28
    0x00000613, // addi x12,x0,0
    0x004858b7, // lui x17,0x485
    0x34d88893, // addi x17,x17,845
    0x00000813, // addi x16,x0,0
    0x00000073, // ecall
    0x00000417, // auipc x8,0x0
    0x3a040413, // addi x8,x8,928
    0x00043283, // ld x5,0(x8)
    0x00128293, // addi x5,x5,1
    0x00543023, // sd x5,0(x8)
    0x00043503, // ld x10,0(x8)
    0x03050513, // addi x10,x10,48
    0x00100893, // addi x17,x0,1
    0x00000073, // ecall
    0xfe5ff06f, // jal x0,0x80000068
];

const FOUR_HARTS_TABLES: [(usize, u64); 0] = [];

const FOUR_HARTS_LINES: [&str; 16] = [
    "start 7 0 1 0000000080000060\n",
    "start 15 0 2 0000000080000060\n",
    "start 23 0 3 0000000080000060\n",
    "out 56 0 31\n",
    "out 57 1 31\n",
    "out 58 2 31\n",
    "out 59 3 31\n",
    "out 67 3 32\n",
    "out 75 2 33\n",
    "out 83 1 34\n",
    "out 91 0 35\n",
    "out 118 0 36\n",
    "out 119 1 36\n",
    "out 124 2 36\n",
    "out 125 3 36\n",
    "end 126 limit ed88feb5a62ec38a7b715ada4e1aa62f50c5510c83cfb5486a8afe037a4d2ef5\n",
];

const FOUR_HARTS_SCRIPT: [&str; 7] = [
    "turn 0 24\n",
    "go 36\n",
    "turn 3 8\n",
    "turn 2 8\n",
    "turn 1 8\n",
    "turn 0 8\n",
    "go 2\n",
];

const FOUR_HARTS: ScriptedGuest<'static> = ScriptedGuest {
    guest: Guest {
        code: &FOUR_HARTS_CODE,
        tables: &FOUR_HARTS_TABLES,
        steps: 126,
        lines: &FOUR_HARTS_LINES,
    },
    harts: "4",
    script: &FOUR_HARTS_SCRIPT,
    runs: &NO_RUNS,
};

#[test]
fn four_harts_take_turns(rt: HostRuntime) {
    expect_scripted_guest(&rt, rt.alloc(), &FOUR_HARTS);
}

// send_ipi reaches the harts that its mask and base name, or all, or none where one of them isn't
// there. A hart that isn't started has its software interrupt, and starts without it.
const IPIS_CODE: [u32; 144] = [
    0x00100513, // addi x10,x0,1
    0x00000597, // auipc x11,0x0
    0x21458593, // addi x11,x11,532
    0x00000613, // addi x12,x0,0
    0x004858b7, // lui x17,0x485
    0x34d88893, // addi x17,x17,845
    0x00000813, // addi x16,x0,0
    0x00000073, // ecall
    0x00200513, // addi x10,x0,2
    0x00000597, // auipc x11,0x0
    0x1f458593, // addi x11,x11,500
    0x00000613, // addi x12,x0,0
    0x004858b7, // lui x17,0x485
    0x34d88893, // addi x17,x17,845
    0x00000813, // addi x16,x0,0
    0x00000073, // ecall
    0x00600513, // addi x10,x0,6
    0x00000593, // addi x11,x0,0
    0x007358b7, // lui x17,0x735
    0x04988893, // addi x17,x17,73
    0x00000813, // addi x16,x0,0
    0x00000073, // ecall
    0x00000f93, // addi x31,x0,0
    0x1df51863, // bne x10,x31,0x8000022c
    0x1c059663, // bne x11,x0,0x8000022c
    0x00300513, // addi x10,x0,3
    0x00200593, // addi x11,x0,2
    0x007358b7, // lui x17,0x735
    0x04988893, // addi x17,x17,73
    0x00000813, // addi x16,x0,0
    0x00000073, // ecall
    0x00000f93, // addi x31,x0,0
    0x1bf51663, // bne x10,x31,0x8000022c
    0x1a059463, // bne x11,x0,0x8000022c
    0x00100513, // addi x10,x0,1
    0x00400593, // addi x11,x0,4
    0x007358b7, // lui x17,0x735
    0x04988893, // addi x17,x17,73
    0x00000813, // addi x16,x0,0
    0x00000073, // ecall
    0xffd00f93, // addi x31,x0,-3
    0x19f51463, // bne x10,x31,0x8000022c
    0x18059263, // bne x11,x0,0x8000022c
    0x01100513, // addi x10,x0,17
    0x00000593, // addi x11,x0,0
    0x007358b7, // lui x17,0x735
    0x04988893, // addi x17,x17,73
    0x00000813, // addi x16,x0,0
    0x00000073, // ecall
    0xffd00f93, // addi x31,x0,-3
    0x17f51263, // bne x10,x31,0x8000022c
    0x16059063, // bne x11,x0,0x8000022c
    0x00300513, // addi x10,x0,3
    0x00300593, // addi x11,x0,3
    0x007358b7, // lui x17,0x735
    0x04988893, // addi x17,x17,73
    0x00000813, // addi x16,x0,0
    0x00000073, // ecall
    0xffd00f93, // addi x31,x0,-3
    0x15f51063, // bne x10,x31,0x8000022c
    0x12059e63, // bne x11,x0,0x8000022c
    0xfff00513, // addi x10,x0,-1
    0x00000593, // addi x11,x0,0
    0x007358b7, // lui x17,0x735
    0x04988893, // addi x17,x17,73
    0x00000813, // addi x16,x0,0
    0x00000073, // ecall
    0xffd00f93, // addi x31,x0,-3
    0x11f51e63, // bne x10,x31,0x8000022c
    0x10059c63, // bne x11,x0,0x8000022c
    0x00400513, // addi x10,x0,4
    0xffe00593, // addi x11,x0,-2
    0x007358b7, // lui x17,0x735
    0x04988893, // addi x17,x17,73
    0x00000813, // addi x16,x0,0
    0x00000073, // ecall
    0xffd00f93, // addi x31,x0,-3
    0x0ff51c63, // bne x10,x31,0x8000022c
    0x0e059a63, // bne x11,x0,0x8000022c
    0x00000513, // addi x10,x0,0
    0x00900593, // addi x11,x0,9
    0x007358b7, // lui x17,0x735
    0x04988893, // addi x17,x17,73
    0x00000813, // addi x16,x0,0
    0x00000073, // ecall
    0x00000f93, // addi x31,x0,0
    0x0df51a63, // bne x10,x31,0x8000022c
    0x0c059863, // bne x11,x0,0x8000022c
    0x00100513, // addi x10,x0,1
    0x00100813, // addi x16,x0,1
    0x00000073, // ecall
    0xffe00f93, // addi x31,x0,-2
    0x0bf51e63, // bne x10,x31,0x8000022c
    0x0a059c63, // bne x11,x0,0x8000022c
    0x144012f3, // csrrw x5,sip,x0
    0x00000f93, // addi x31,x0,0
    0x0bf29663, // bne x5,x31,0x8000022c
    0x00300513, // addi x10,x0,3
    0x00000597, // auipc x11,0x0
    0x09058593, // addi x11,x11,144
    0x00000613, // addi x12,x0,0
    0x004858b7, // lui x17,0x485
    0x34d88893, // addi x17,x17,845
    0x00000813, // addi x16,x0,0
    0x00000073, // ecall
    0x00000513, // addi x10,x0,0
    0xfff00593, // addi x11,x0,-1
    0x007358b7, // lui x17,0x735
    0x04988893, // addi x17,x17,73
    0x00000813, // addi x16,x0,0
    0x00000073, // ecall
    0x00000f93, // addi x31,x0,0
    0x07f51663, // bne x10,x31,0x8000022c
    0x06059463, // bne x11,x0,0x8000022c
    0x144012f3, // csrrw x5,sip,x0
    0x00200f93, // addi x31,x0,2
    0x05f29e63, // bne x5,x31,0x8000022c
    0xfff00513, // addi x10,x0,-1
    0xfff00593, // addi x11,x0,-1
    0x007358b7, // lui x17,0x735
    0x04988893, // addi x17,x17,73
    0x00000813, // addi x16,x0,0
    0x00000073, // ecall
    0x00000f93, // addi x31,x0,0
    0x03f51e63, // bne x10,x31,0x8000022c
    0x02059c63, // bne x11,x0,0x8000022c
    0x00000f97, // auipc x31,0x0
    0x018f8f93, // addi x31,x31,24
    0x105f9073, // csrrw x0,stvec,x31
    0x10415073, // csrrwi x0,sie,2
    0x10016073, // csrrsi x0,sstatus,2
    0x0200006f, // jal x0,0x8000022c
    0x14405073, // csrrwi x0,sip,0
    0x0240006f, // jal x0,0x80000238
    0x14401573, // csrrw x10,sip,x0
    0x03050513, // addi x10,x10,48
    0x00100893, // addi x17,x0,1
    0x00000073, // ecall
    0xff1ff06f, // jal x0,0x80000218
    0x02100513, // addi x10,x0,33
    0x00100893, // addi x17,x0,1
    0x00000073, // ecall
    0x00800893, // addi x17,x0,8
    0x00000073, // ecall
];

const IPIS_TABLES: [(usize, u64); 0] = [];

const IPIS_LINES: [&str; 18] = [
    "start 7 0 1 0000000080000218\n",
    "start 15 0 2 0000000080000218\n",
    "out 28 1 32\n",
    "out 33 2 32\n",
    "out 47 1 30\n",
    "out 52 2 32\n",
    "out 122 1 30\n",
    "out 127 2 30\n",
    "start 136 0 3 0000000080000218\n",
    "out 140 3 30\n",
    "out 157 1 32\n",
    "out 162 2 32\n",
    "out 167 3 32\n",
    "out 181 1 32\n",
    "out 186 2 32\n",
    "out 191 3 32\n",
    "trap 198 0 8000000000000001 000000008000020c\n",
    "end 212 shutdown 0d25051c6e8303749006dc6838a0efab3514bc2ac122d73f73705ac6e5022a36\n",
];

const IPIS_SCRIPT: [&str; 22] = [
    "turn 0 16\n",
    "turn 0 9\n",
    "turn 1 5\n",
    "turn 2 5\n",
    "turn 0 9\n",
    "turn 1 5\n",
    "turn 2 5\n",
    "turn 3 2\n",
    "turn 0 63\n",
    "turn 1 5\n",
    "turn 2 5\n",
    "turn 0 8\n",
    "turn 3 5\n",
    "turn 0 12\n",
    "turn 1 5\n",
    "turn 2 5\n",
    "turn 3 5\n",
    "turn 0 9\n",
    "turn 1 5\n",
    "turn 2 5\n",
    "turn 3 5\n",
    "turn 0 6\n",
];

const IPIS: ScriptedGuest<'static> = ScriptedGuest {
    guest: Guest {
        code: &IPIS_CODE,
        tables: &IPIS_TABLES,
        steps: 60_000,
        lines: &IPIS_LINES,
    },
    harts: "4",
    script: &IPIS_SCRIPT,
    runs: &NO_RUNS,
};

#[test]
fn software_interrupts_reach_the_harts_that_are_named(rt: HostRuntime) {
    expect_scripted_guest(&rt, rt.alloc(), &IPIS);
}

// Keys wait in their order, and any hart takes the oldest. While one waits the first hart, and no
// other, has an external interrupt, which goes before a software interrupt, and that before the
// timer's; each goes to its own vector.
const KEYS_CODE: [u32; 87] = [
    0x00200893, // addi x17,x0,2
    0x00000073, // ecall
    0xfff00f93, // addi x31,x0,-1
    0x13f51e63, // bne x10,x31,0x80000148
    0x00100513, // addi x10,x0,1
    0x00000597, // auipc x11,0x0
    0x0ac58593, // addi x11,x11,172
    0x00000613, // addi x12,x0,0
    0x004858b7, // lui x17,0x485
    0x34d88893, // addi x17,x17,845
    0x00000813, // addi x16,x0,0
    0x00000073, // ecall
    0x144022f3, // csrrs x5,sip,x0
    0x20000f93, // addi x31,x0,512
    0x11f29863, // bne x5,x31,0x80000148
    0x00200893, // addi x17,x0,2
    0x00000073, // ecall
    0x04100f93, // addi x31,x0,65
    0x11f51063, // bne x10,x31,0x80000148
    0xfff00293, // addi x5,x0,-1
    0x14429073, // csrrw x0,sip,x5
    0x144022f3, // csrrs x5,sip,x0
    0x20200f93, // addi x31,x0,514
    0x0ff29663, // bne x5,x31,0x80000148
    0x00000513, // addi x10,x0,0
    0x00000893, // addi x17,x0,0
    0x00000073, // ecall
    0x144022f3, // csrrs x5,sip,x0
    0x22200f93, // addi x31,x0,546
    0x0df29a63, // bne x5,x31,0x80000148
    0x00000297, // auipc x5,0x0
    0x0a928293, // addi x5,x5,169
    0x10529073, // csrrw x0,stvec,x5
    0x22200293, // addi x5,x0,546
    0x10429073, // csrrw x0,sie,x5
    0x10016073, // csrrsi x0,sstatus,2
    0x0ff00f93, // addi x31,x0,255
    0x0bfa9a63, // bne x21,x31,0x80000148
    0x00300f93, // addi x31,x0,3
    0x0bfa1663, // bne x20,x31,0x80000148
    0x144022f3, // csrrs x5,sip,x0
    0x00000f93, // addi x31,x0,0
    0x0bf29063, // bne x5,x31,0x80000148
    0x00200893, // addi x17,x0,2
    0x00000073, // ecall
    0xfff00f93, // addi x31,x0,-1
    0x09f51863, // bne x10,x31,0x80000148
    0x0980006f, // jal x0,0x80000154
    0x22200293, // addi x5,x0,546
    0x10429073, // csrrw x0,sie,x5
    0x10016073, // csrrsi x0,sstatus,2
    0x14402373, // csrrs x6,sip,x0
    0x00000f93, // addi x31,x0,0
    0x07f31a63, // bne x6,x31,0x80000148
    0x00200893, // addi x17,x0,2
    0x00000073, // ecall
    0x00000f93, // addi x31,x0,0
    0x07f51263, // bne x10,x31,0x80000148
    0x0000006f, // jal x0,0x800000e8
    0x00200893, // addi x17,x0,2
    0x00000073, // ecall
    0x00050a93, // addi x21,x10,0
    0x001a0a13, // addi x20,x20,1
    0x10200073, // sret
    0x14405073, // csrrwi x0,sip,0
    0x001a0a13, // addi x20,x20,1
    0x10200073, // sret
    0xfff00513, // addi x10,x0,-1
    0x00000893, // addi x17,x0,0
    0x00000073, // ecall
    0x001a0a13, // addi x20,x20,1
    0x10200073, // sret
    0x0280006f, // jal x0,0x80000148
    0xfddff06f, // jal x0,0x80000100
    0x00000000, // no instruction
    0x00000000, // no instruction
    0x00000000, // no instruction
    0xfd9ff06f, // jal x0,0x8000010c
    0x00000000, // no instruction
    0x00000000, // no instruction
    0x00000000, // no instruction
    0xfa9ff06f, // jal x0,0x800000ec
    0x02100513, // addi x10,x0,33
    0x00100893, // addi x17,x0,1
    0x00000073, // ecall
    0x00800893, // addi x17,x0,8
    0x00000073, // ecall
];

const KEYS_TABLES: [(usize, u64); 0] = [];

const KEYS_LINES: [&str; 8] = [
    "start 11 0 1 00000000800000c0\n",
    "key 12 41\n",
    "key 14 00\n",
    "key 15 ff\n",
    "trap 50 0 8000000000000009 0000000080000090\n",
    "trap 57 0 8000000000000001 0000000080000090\n",
    "trap 62 0 8000000000000005 0000000080000090\n",
    "end 83 shutdown 2af3a130b748c6834e44df9445bbef156fa78f691af5461493d1aee32f449328\n",
];

const KEYS_SCRIPT: [&str; 8] = [
    "turn 0 12\n",
    "key 41\n",
    "turn 0 1\n",
    "key 00\n",
    "key ff\n",
    "turn 0 6\n",
    "turn 1 11\n",
    "turn 0 50\n",
];

const KEYS: ScriptedGuest<'static> = ScriptedGuest {
    guest: Guest {
        code: &KEYS_CODE,
        tables: &KEYS_TABLES,
        steps: 60_000,
        lines: &KEYS_LINES,
    },
    harts: "2",
    script: &KEYS_SCRIPT,
    runs: &NO_RUNS,
};

#[test]
fn waiting_keys_interrupt_the_first_hart_alone(rt: HostRuntime) {
    expect_scripted_guest(&rt, rt.alloc(), &KEYS);
}

// Three harts use three pages: one loads and stores, one executes, one has its tables there. A
// fourth launches a module of these pages, and each of the three is refused at once; when the
// module is evicted, they find zeros.
const LAUNCHED_ELSEWHERE_CODE: [u32; 68] = [
    0x00000f97, // auipc x31,0x0
    0x0fcf8f93, // addi x31,x31,252
    0x105f9073, // csrrw x0,stvec,x31
    0x00100513, // addi x10,x0,1
    0x00000597, // auipc x11,0x0
    0x07058593, // addi x11,x11,112
    0x00000613, // addi x12,x0,0
    0x004858b7, // lui x17,0x485
    0x34d88893, // addi x17,x17,845
    0x00000813, // addi x16,x0,0
    0x00000073, // ecall
    0x00200513, // addi x10,x0,2
    0x00000597, // auipc x11,0x0
    0x08c58593, // addi x11,x11,140
    0x00000613, // addi x12,x0,0
    0x004858b7, // lui x17,0x485
    0x34d88893, // addi x17,x17,845
    0x00000813, // addi x16,x0,0
    0x00000073, // ecall
    0x00300513, // addi x10,x0,3
    0x00000597, // auipc x11,0x0
    0x08c58593, // addi x11,x11,140
    0x00000613, // addi x12,x0,0
    0x004858b7, // lui x17,0x485
    0x34d88893, // addi x17,x17,845
    0x00000813, // addi x16,x0,0
    0x00000073, // ecall
    0x00008397, // auipc x7,0x8
    0xf9438393, // addi x7,x7,-108
    0x0003890b, // b.launch x18,x7
    0x0009328b, // b.evict x5,x18
    0x08c0006f, // jal x0,0x80000108
    0x00000f97, // auipc x31,0x0
    0x02cf8f93, // addi x31,x31,44
    0x105f9073, // csrrw x0,stvec,x31
    0x00011397, // auipc x7,0x11
    0xf7438393, // addi x7,x7,-140
    0x0003b503, // ld x10,0(x7)
    0x00a3b023, // sd x10,0(x7)
    0xfe051ce3, // bne x10,x0,0x80000094
    0x00100893, // addi x17,x0,1
    0x00000073, // ecall
    0x0000006f, // jal x0,0x800000a8
    0x141022f3, // csrrs x5,sepc,x0
    0x00428293, // addi x5,x5,4
    0x14129073, // csrrw x0,sepc,x5
    0x10200073, // sret
    0x00000f97, // auipc x31,0x0
    0x018f8f93, // addi x31,x31,24
    0x105f9073, // csrrw x0,stvec,x31
    0x00010297, // auipc x5,0x10
    0xf4828293, // addi x5,x5,-184
    0x00028067, // jalr x0,0(x5)
    0x14202373, // csrrs x6,scause,x0
    0x10200073, // sret
    0x00000f97, // auipc x31,0x0
    0x020f8f93, // addi x31,x31,32
    0x105f9073, // csrrw x0,stvec,x31
    0x00000317, // auipc x6,0x0
    0x31830313, // addi x6,x6,792
    0x00033303, // ld x6,0(x6)
    0x18031073, // csrrw x0,satp,x6
    0x0000006f, // jal x0,0x800000f8
    0x02100513, // addi x10,x0,33
    0x00100893, // addi x17,x0,1
    0x00000073, // ecall
    0x00800893, // addi x17,x0,8
    0x00000073, // ecall
];

const LAUNCHED_ELSEWHERE_TABLES: [(usize, u64); 12] = [
    (1024, 0x8000000000080012),
    (32768, 0x301010147534e42),
    (32784, 0x80010000),
    (32848, 0x80010),
    (32856, 0x501),
    (32864, 0x80011),
    (32872, 0x301),
    (32880, 0x80012),
    (32888, 0x301),
    (65552, 0x6f),
    (69632, 0x1122334455667788),
    (73744, 0x200000cf),
];

const LAUNCHED_ELSEWHERE_LINES: [&str; 17] = [
    "start 10 0 1 0000000080000080\n",
    "start 18 0 2 00000000800000bc\n",
    "start 26 0 3 00000000800000dc\n",
    "launch 52 0 1 5597eb46abb883437b9ad47a0e28c630c5b5eeba8f3152ad4ed1fc2ade0a01e9\n",
    "deny 53 1 0 load 0000000080011\n",
    "trap 53 1 0000000000000005 0000000080000094\n",
    "deny 58 1 0 store 0000000080011\n",
    "trap 58 1 0000000000000007 0000000080000098\n",
    "deny 59 2 0 fetch 0000000080010\n",
    "trap 59 2 0000000000000001 0000000080010010\n",
    "trap 60 3 0000000000000001 00000000800000f8\n",
    "trap 61 3 0000000000000001 00000000800000fc\n",
    "evict 62 0 1 1\n",
    "out 72 1 00\n",
    "trap 75 2 0000000000000002 0000000080010010\n",
    "trap 76 3 000000000000000c 00000000800000fc\n",
    "end 80 shutdown b62239c1f184c99d7ecf154022ba7bbdcdfa96a668187271052186883904e672\n",
];

const LAUNCHED_ELSEWHERE_SCRIPT: [&str; 13] = [
    "turn 0 27\n",
    "turn 1 8\n",
    "turn 2 7\n",
    "turn 3 8\n",
    "turn 0 3\n",
    "turn 1 6\n",
    "turn 2 1\n",
    "turn 3 2\n",
    "turn 0 1\n",
    "turn 1 10\n",
    "turn 2 3\n",
    "turn 3 1\n",
    "turn 0 3\n",
];

const LAUNCHED_ELSEWHERE: ScriptedGuest<'static> = ScriptedGuest {
    guest: Guest {
        code: &LAUNCHED_ELSEWHERE_CODE,
        tables: &LAUNCHED_ELSEWHERE_TABLES,
        steps: 60_000,
        lines: &LAUNCHED_ELSEWHERE_LINES,
    },
    harts: "4",
    script: &LAUNCHED_ELSEWHERE_SCRIPT,
    runs: &NO_RUNS,
};

#[test]
fn a_launch_takes_pages_from_all_harts(rt: HostRuntime) {
    expect_scripted_guest(&rt, rt.alloc(), &LAUNCHED_ELSEWHERE);
}

// The same two harts, but now the one that didn't call the module comes first: it resumes the
// module, and goes on as its caller, whose registers come back there.
const RESUMED_ELSEWHERE_CODE: [u32; 55] = [
    0x00000f97, // auipc x31,0x0
    0x0acf8f93, // addi x31,x31,172
    0x105f9073, // csrrw x0,stvec,x31
    0x00008397, // auipc x7,0x8
    0xff438393, // addi x7,x7,-12
    0x0003890b, // b.launch x18,x7
    0x00100513, // addi x10,x0,1
    0x00000597, // auipc x11,0x0
    0x06058593, // addi x11,x11,96
    0x00000613, // addi x12,x0,0
    0x004858b7, // lui x17,0x485
    0x34d88893, // addi x17,x17,845
    0x00000813, // addi x16,x0,0
    0x00000073, // ecall
    0x10415073, // csrrwi x0,sie,2
    0x10016073, // csrrsi x0,sstatus,2
    0x00010497, // auipc x9,0x10
    0xfc048493, // addi x9,x9,-64
    0x04d00a13, // addi x20,x0,77
    0x0099128b, // b.call x5,x18,x9
    0x00100f93, // addi x31,x0,1
    0x07f51a63, // bne x10,x31,0x800000c8
    0x00200f93, // addi x31,x0,2
    0x07f59663, // bne x11,x31,0x800000c8
    0x00000f93, // addi x31,x0,0
    0x07f29263, // bne x5,x31,0x800000c8
    0x00100f93, // addi x31,x0,1
    0x05f91e63, // bne x18,x31,0x800000c8
    0x04d00f93, // addi x31,x0,77
    0x05fa1a63, // bne x20,x31,0x800000c8
    0x05c0006f, // jal x0,0x800000d4
    0x00000f97, // auipc x31,0x0
    0x030f8f93, // addi x31,x31,48
    0x105f9073, // csrrw x0,stvec,x31
    0x00100513, // addi x10,x0,1
    0x00000593, // addi x11,x0,0
    0x007358b7, // lui x17,0x735
    0x04988893, // addi x17,x17,73
    0x00000813, // addi x16,x0,0
    0x00000073, // ecall
    0x00010297, // auipc x5,0x10
    0xf6828293, // addi x5,x5,-152
    0x00028067, // jalr x0,0(x5)
    0x142022f3, // csrrs x5,scause,x0
    0x0002d663, // bge x5,x0,0x800000bc
    0x14405073, // csrrwi x0,sip,0
    0x10200073, // sret
    0xfff28293, // addi x5,x5,-1
    0x00029463, // bne x5,x0,0x800000c8
    0x0000006f, // jal x0,0x800000c4
    0x02100513, // addi x10,x0,33
    0x00100893, // addi x17,x0,1
    0x00000073, // ecall
    0x00800893, // addi x17,x0,8
    0x00000073, // ecall
];

const RESUMED_ELSEWHERE_TABLES: [(usize, u64); 8] = [
    (32768, 0x201010147534e42),
    (32784, 0x80010000),
    (32848, 0x80010),
    (32856, 0x501),
    (32864, 0x80011),
    (32872, 0x301),
    (65536, 0x20059300100513),
    (65544, 0x200b),
];

const RESUMED_ELSEWHERE_LINES: [&str; 10] = [
    "launch 5 0 1 1d79d38d60683d09de29e253d31cd21ce4efa6e9dcc2b2d61fefd232b73ba6eb\n",
    "start 13 0 1 000000008000007c\n",
    "call 19 0 0 1 0000000080010000\n",
    "stop 31 0 1 0000000080010008\n",
    "trap 31 0 8000000000000001 0000000080010008\n",
    "resume 39 1 1 0000000080010008\n",
    "deny 40 0 0 fetch 0000000080010\n",
    "trap 40 0 0000000000000001 0000000080010008\n",
    "ret 42 1 1 0 0000000080000050\n",
    "end 69 shutdown 176baeee9dbb947611bacca28400a25df35f9c1beb24e5c91f397d5a824fc890\n",
];

const RESUMED_ELSEWHERE_1_39: [&str; 4] = [
    "stop 42 1 1 0000000080010008\n",
    "trap 42 1 0000000000000002 0000000080010008\n",
    "out 56 1 21\n",
    "end 61 shutdown 176baeee9dbb947611bacca28400a25df35f9c1beb24e5c91f397d5a824fc890\n",
];

const RESUMED_ELSEWHERE_RUNS: [Zeroed<'static>; 2] = [
    Zeroed {
        place: "1@39",
        kept: 8,
        rest: &RESUMED_ELSEWHERE_1_39,
    },
    Zeroed {
        place: "1@40",
        kept: 10,
        rest: &NO_LINES,
    },
];

const RESUMED_ELSEWHERE_SCRIPT: [&str; 6] = [
    "turn 0 22\n",
    "turn 1 9\n",
    "turn 0 5\n",
    "turn 1 3\n",
    "turn 1 1\n",
    "turn 0 1\n",
];

const RESUMED_ELSEWHERE: ScriptedGuest<'static> = ScriptedGuest {
    guest: Guest {
        code: &RESUMED_ELSEWHERE_CODE,
        tables: &RESUMED_ELSEWHERE_TABLES,
        steps: 60_000,
        lines: &RESUMED_ELSEWHERE_LINES,
    },
    harts: "2",
    script: &RESUMED_ELSEWHERE_SCRIPT,
    runs: &RESUMED_ELSEWHERE_RUNS,
};

#[test]
fn any_hart_resumes_a_module(rt: HostRuntime) {
    expect_scripted_guest(&rt, rt.alloc(), &RESUMED_ELSEWHERE);
}

// A module is stopped by a software interrupt from another hart. Then both harts stand where it was
// stopped: the one that comes first resumes it, and the other is denied the running module's page.
const RESUMED_ONCE_CODE: [u32; 55] = [
    0x00000f97, // auipc x31,0x0
    0x0acf8f93, // addi x31,x31,172
    0x105f9073, // csrrw x0,stvec,x31
    0x00008397, // auipc x7,0x8
    0xff438393, // addi x7,x7,-12
    0x0003890b, // b.launch x18,x7
    0x00100513, // addi x10,x0,1
    0x00000597, // auipc x11,0x0
    0x06058593, // addi x11,x11,96
    0x00000613, // addi x12,x0,0
    0x004858b7, // lui x17,0x485
    0x34d88893, // addi x17,x17,845
    0x00000813, // addi x16,x0,0
    0x00000073, // ecall
    0x10415073, // csrrwi x0,sie,2
    0x10016073, // csrrsi x0,sstatus,2
    0x00010497, // auipc x9,0x10
    0xfc048493, // addi x9,x9,-64
    0x04d00a13, // addi x20,x0,77
    0x0099128b, // b.call x5,x18,x9
    0x00100f93, // addi x31,x0,1
    0x07f51a63, // bne x10,x31,0x800000c8
    0x00200f93, // addi x31,x0,2
    0x07f59663, // bne x11,x31,0x800000c8
    0x00000f93, // addi x31,x0,0
    0x07f29263, // bne x5,x31,0x800000c8
    0x00100f93, // addi x31,x0,1
    0x05f91e63, // bne x18,x31,0x800000c8
    0x04d00f93, // addi x31,x0,77
    0x05fa1a63, // bne x20,x31,0x800000c8
    0x05c0006f, // jal x0,0x800000d4
    0x00000f97, // auipc x31,0x0
    0x030f8f93, // addi x31,x31,48
    0x105f9073, // csrrw x0,stvec,x31
    0x00100513, // addi x10,x0,1
    0x00000593, // addi x11,x0,0
    0x007358b7, // lui x17,0x735
    0x04988893, // addi x17,x17,73
    0x00000813, // addi x16,x0,0
    0x00000073, // ecall
    0x00010297, // auipc x5,0x10
    0xf6828293, // addi x5,x5,-152
    0x00028067, // jalr x0,0(x5)
    0x142022f3, // csrrs x5,scause,x0
    0x0002d663, // bge x5,x0,0x800000bc
    0x14405073, // csrrwi x0,sip,0
    0x10200073, // sret
    0xfff28293, // addi x5,x5,-1
    0x00029463, // bne x5,x0,0x800000c8
    0x0000006f, // jal x0,0x800000c4
    0x02100513, // addi x10,x0,33
    0x00100893, // addi x17,x0,1
    0x00000073, // ecall
    0x00800893, // addi x17,x0,8
    0x00000073, // ecall
];

const RESUMED_ONCE_TABLES: [(usize, u64); 8] = [
    (32768, 0x201010147534e42),
    (32784, 0x80010000),
    (32848, 0x80010),
    (32856, 0x501),
    (32864, 0x80011),
    (32872, 0x301),
    (65536, 0x20059300100513),
    (65544, 0x200b),
];

const RESUMED_ONCE_LINES: [&str; 10] = [
    "launch 5 0 1 1d79d38d60683d09de29e253d31cd21ce4efa6e9dcc2b2d61fefd232b73ba6eb\n",
    "start 13 0 1 000000008000007c\n",
    "call 19 0 0 1 0000000080010000\n",
    "stop 31 0 1 0000000080010008\n",
    "trap 31 0 8000000000000001 0000000080010008\n",
    "resume 39 0 1 0000000080010008\n",
    "deny 40 1 0 fetch 0000000080010\n",
    "trap 40 1 0000000000000001 0000000080010008\n",
    "ret 41 0 1 0 0000000080000050\n",
    "end 68 shutdown 176baeee9dbb947611bacca28400a25df35f9c1beb24e5c91f397d5a824fc890\n",
];

const RESUMED_ONCE_1_32: [&str; 4] = [
    "stop 41 0 1 0000000080010008\n",
    "trap 41 0 0000000000000002 0000000080010008\n",
    "out 55 0 21\n",
    "end 60 shutdown 176baeee9dbb947611bacca28400a25df35f9c1beb24e5c91f397d5a824fc890\n",
];

const RESUMED_ONCE_1_39: [&str; 4] = [
    "stop 41 0 1 0000000080010008\n",
    "trap 41 0 0000000000000002 0000000080010008\n",
    "out 55 0 21\n",
    "end 60 shutdown 176baeee9dbb947611bacca28400a25df35f9c1beb24e5c91f397d5a824fc890\n",
];

const RESUMED_ONCE_RUNS: [Zeroed<'static>; 4] = [
    Zeroed {
        place: "1@31",
        kept: 10,
        rest: &NO_LINES,
    },
    Zeroed {
        place: "1@32",
        kept: 8,
        rest: &RESUMED_ONCE_1_32,
    },
    Zeroed {
        place: "1@39",
        kept: 8,
        rest: &RESUMED_ONCE_1_39,
    },
    Zeroed {
        place: "1@40",
        kept: 10,
        rest: &NO_LINES,
    },
];

const RESUMED_ONCE_SCRIPT: [&str; 6] = [
    "turn 0 22\n",
    "turn 1 9\n",
    "turn 0 5\n",
    "turn 1 3\n",
    "turn 0 1\n",
    "turn 1 1\n",
];

const RESUMED_ONCE: ScriptedGuest<'static> = ScriptedGuest {
    guest: Guest {
        code: &RESUMED_ONCE_CODE,
        tables: &RESUMED_ONCE_TABLES,
        steps: 60_000,
        lines: &RESUMED_ONCE_LINES,
    },
    harts: "2",
    script: &RESUMED_ONCE_SCRIPT,
    runs: &RESUMED_ONCE_RUNS,
};

#[test]
fn of_two_harts_at_a_stopped_module_one_resumes_it(rt: HostRuntime) {
    expect_scripted_guest(&rt, rt.alloc(), &RESUMED_ONCE);
}

// hart_start and its refusals in their order. A hart that starts has its number and the given
// value, and else zeros in its registers; its CSRs are as at boot, whatever reached it before. It
// starts at any multiple of 4.
const STARTS_CODE: [u32; 213] = [
    0x00400413, // addi x8,x0,4
    0x00040513, // addi x10,x8,0
    0x00000597, // auipc x11,0x0
    0x21458593, // addi x11,x11,532
    0x004858b7, // lui x17,0x485
    0x34d88893, // addi x17,x17,845
    0x00000813, // addi x16,x0,0
    0x00000073, // ecall
    0xffd00f93, // addi x31,x0,-3
    0x31f51e63, // bne x10,x31,0x80000340
    0x30059c63, // bne x11,x0,0x80000340
    0x00040513, // addi x10,x8,0
    0x00000597, // auipc x11,0x0
    0x1ee58593, // addi x11,x11,494
    0x004858b7, // lui x17,0x485
    0x34d88893, // addi x17,x17,845
    0x00000813, // addi x16,x0,0
    0x00000073, // ecall
    0xffd00f93, // addi x31,x0,-3
    0x2ff51a63, // bne x10,x31,0x80000340
    0x2e059863, // bne x11,x0,0x80000340
    0xfff00413, // addi x8,x0,-1
    0x00040513, // addi x10,x8,0
    0x00000597, // auipc x11,0x0
    0x1c058593, // addi x11,x11,448
    0x004858b7, // lui x17,0x485
    0x34d88893, // addi x17,x17,845
    0x00000813, // addi x16,x0,0
    0x00000073, // ecall
    0xffd00f93, // addi x31,x0,-3
    0x2df51463, // bne x10,x31,0x80000340
    0x2c059263, // bne x11,x0,0x80000340
    0x00100413, // addi x8,x0,1
    0x02041413, // slli x8,x8,0x20
    0x00140413, // addi x8,x8,1
    0x00040513, // addi x10,x8,0
    0x00000597, // auipc x11,0x0
    0x18c58593, // addi x11,x11,396
    0x004858b7, // lui x17,0x485
    0x34d88893, // addi x17,x17,845
    0x00000813, // addi x16,x0,0
    0x00000073, // ecall
    0xffd00f93, // addi x31,x0,-3
    0x29f51a63, // bne x10,x31,0x80000340
    0x28059863, // bne x11,x0,0x80000340
    0x00100413, // addi x8,x0,1
    0x00040513, // addi x10,x8,0
    0x00000597, // auipc x11,0x0
    0x16258593, // addi x11,x11,354
    0x004858b7, // lui x17,0x485
    0x34d88893, // addi x17,x17,845
    0x00000813, // addi x16,x0,0
    0x00000073, // ecall
    0xffb00f93, // addi x31,x0,-5
    0x27f51463, // bne x10,x31,0x80000340
    0x26059263, // bne x11,x0,0x80000340
    0x00040513, // addi x10,x8,0
    0x00000597, // auipc x11,0x0
    0x13958593, // addi x11,x11,313
    0x004858b7, // lui x17,0x485
    0x34d88893, // addi x17,x17,845
    0x00000813, // addi x16,x0,0
    0x00000073, // ecall
    0xffb00f93, // addi x31,x0,-5
    0x25f51063, // bne x10,x31,0x80000340
    0x22059e63, // bne x11,x0,0x80000340
    0x00000413, // addi x8,x0,0
    0x00040513, // addi x10,x8,0
    0x00000597, // auipc x11,0x0
    0x10e58593, // addi x11,x11,270
    0x004858b7, // lui x17,0x485
    0x34d88893, // addi x17,x17,845
    0x00000813, // addi x16,x0,0
    0x00000073, // ecall
    0xffb00f93, // addi x31,x0,-5
    0x21f51a63, // bne x10,x31,0x80000340
    0x20059863, // bne x11,x0,0x80000340
    0x00040513, // addi x10,x8,0
    0x00000597, // auipc x11,0x0
    0xec858593, // addi x11,x11,-312
    0x004858b7, // lui x17,0x485
    0x34d88893, // addi x17,x17,845
    0x00000813, // addi x16,x0,0
    0x00000073, // ecall
    0xffa00f93, // addi x31,x0,-6
    0x1ff51663, // bne x10,x31,0x80000340
    0x1e059463, // bne x11,x0,0x80000340
    0x00100513, // addi x10,x0,1
    0x00000597, // auipc x11,0x0
    0x0bc58593, // addi x11,x11,188
    0x00100813, // addi x16,x0,1
    0x00000073, // ecall
    0xffe00f93, // addi x31,x0,-2
    0x1df51663, // bne x10,x31,0x80000340
    0x1c059463, // bne x11,x0,0x80000340
    0x00200513, // addi x10,x0,2
    0x00000593, // addi x11,x0,0
    0x007358b7, // lui x17,0x735
    0x04988893, // addi x17,x17,73
    0x00000813, // addi x16,x0,0
    0x00000073, // ecall
    0x00000f93, // addi x31,x0,0
    0x1bf51463, // bne x10,x31,0x80000340
    0x00700613, // addi x12,x0,7
    0x00100413, // addi x8,x0,1
    0x00040513, // addi x10,x8,0
    0x00000597, // auipc x11,0x0
    0x07458593, // addi x11,x11,116
    0x004858b7, // lui x17,0x485
    0x34d88893, // addi x17,x17,845
    0x00000813, // addi x16,x0,0
    0x00000073, // ecall
    0x00000f93, // addi x31,x0,0
    0x17f51e63, // bne x10,x31,0x80000340
    0x16059c63, // bne x11,x0,0x80000340
    0x00040513, // addi x10,x8,0
    0x00000597, // auipc x11,0x0
    0x04c58593, // addi x11,x11,76
    0x004858b7, // lui x17,0x485
    0x34d88893, // addi x17,x17,845
    0x00000813, // addi x16,x0,0
    0x00000073, // ecall
    0xffa00f93, // addi x31,x0,-6
    0x15f51a63, // bne x10,x31,0x80000340
    0x14059863, // bne x11,x0,0x80000340
    0x00200413, // addi x8,x0,2
    0x00040513, // addi x10,x8,0
    0x000015b7, // lui x11,0x1
    0x004858b7, // lui x17,0x485
    0x34d88893, // addi x17,x17,845
    0x00000813, // addi x16,x0,0
    0x00000073, // ecall
    0x00000f93, // addi x31,x0,0
    0x13f51663, // bne x10,x31,0x80000340
    0x1340006f, // jal x0,0x8000034c
    0x0020e0b3, // or x1,x1,x2
    0x0030e0b3, // or x1,x1,x3
    0x0040e0b3, // or x1,x1,x4
    0x0050e0b3, // or x1,x1,x5
    0x0060e0b3, // or x1,x1,x6
    0x0070e0b3, // or x1,x1,x7
    0x0080e0b3, // or x1,x1,x8
    0x0090e0b3, // or x1,x1,x9
    0x00c0e0b3, // or x1,x1,x12
    0x00d0e0b3, // or x1,x1,x13
    0x00e0e0b3, // or x1,x1,x14
    0x00f0e0b3, // or x1,x1,x15
    0x0100e0b3, // or x1,x1,x16
    0x0110e0b3, // or x1,x1,x17
    0x0120e0b3, // or x1,x1,x18
    0x0130e0b3, // or x1,x1,x19
    0x0140e0b3, // or x1,x1,x20
    0x0150e0b3, // or x1,x1,x21
    0x0160e0b3, // or x1,x1,x22
    0x0170e0b3, // or x1,x1,x23
    0x0180e0b3, // or x1,x1,x24
    0x0190e0b3, // or x1,x1,x25
    0x01a0e0b3, // or x1,x1,x26
    0x01b0e0b3, // or x1,x1,x27
    0x01c0e0b3, // or x1,x1,x28
    0x01d0e0b3, // or x1,x1,x29
    0x01e0e0b3, // or x1,x1,x30
    0x01f0e0b3, // or x1,x1,x31
    0xc0202373, // csrrs x6,instret,x0
    0xfe430313, // addi x6,x6,-28
    0x0060e0b3, // or x1,x1,x6
    0x10402373, // csrrs x6,sie,x0
    0x0060e0b3, // or x1,x1,x6
    0x10502373, // csrrs x6,stvec,x0
    0x0060e0b3, // or x1,x1,x6
    0x14002373, // csrrs x6,sscratch,x0
    0x0060e0b3, // or x1,x1,x6
    0x14102373, // csrrs x6,sepc,x0
    0x0060e0b3, // or x1,x1,x6
    0x14202373, // csrrs x6,scause,x0
    0x0060e0b3, // or x1,x1,x6
    0x14302373, // csrrs x6,stval,x0
    0x0060e0b3, // or x1,x1,x6
    0x14402373, // csrrs x6,sip,x0
    0x0060e0b3, // or x1,x1,x6
    0x18002373, // csrrs x6,satp,x0
    0x0060e0b3, // or x1,x1,x6
    0x06009463, // bne x1,x0,0x80000340
    0x10002373, // csrrs x6,sstatus,x0
    0x00200393, // addi x7,x0,2
    0x02039393, // slli x7,x7,0x20
    0x04731c63, // bne x6,x7,0x80000340
    0x00050413, // addi x8,x10,0
    0x00100393, // addi x7,x0,1
    0x00740863, // beq x8,x7,0x80000304
    0x00300f93, // addi x31,x0,3
    0x05f41263, // bne x8,x31,0x80000340
    0x00858593, // addi x11,x11,8
    0x00700f93, // addi x31,x0,7
    0x03f59c63, // bne x11,x31,0x80000340
    0x03040513, // addi x10,x8,48
    0x00100893, // addi x17,x0,1
    0x00000073, // ecall
    0x00741063, // bne x8,x7,0x80000318
    0x00300513, // addi x10,x0,3
    0x00000597, // auipc x11,0x0
    0xefc58593, // addi x11,x11,-260
    0xfff00613, // addi x12,x0,-1
    0x004858b7, // lui x17,0x485
    0x34d88893, // addi x17,x17,845
    0x00000813, // addi x16,x0,0
    0x00000073, // ecall
    0x0000006f, // jal x0,0x8000033c
    0x02100513, // addi x10,x0,33
    0x00100893, // addi x17,x0,1
    0x00000073, // ecall
    0x00800893, // addi x17,x0,8
    0x00000073, // ecall
];

const STARTS_TABLES: [(usize, u64); 0] = [];

const STARTS_LINES: [&str; 8] = [
    "start 111 0 1 000000008000021c\n",
    "start 131 0 2 0000000000001000\n",
    "out 193 1 31\n",
    "trap 194 2 0000000000000001 0000000000001000\n",
    "trap 195 2 0000000000000001 0000000000000000\n",
    "start 204 1 3 000000008000021c\n",
    "out 267 3 33\n",
    "end 271 shutdown 9bc0845198d4cc9ce30b66abb4d8189c0d2ce9538463c58a2db31d483233aea1\n",
];

const STARTS_SCRIPT: [&str; 6] = [
    "turn 0 134\n",
    "turn 1 60\n",
    "turn 2 2\n",
    "turn 1 9\n",
    "turn 3 63\n",
    "turn 0 3\n",
];

const STARTS: ScriptedGuest<'static> = ScriptedGuest {
    guest: Guest {
        code: &STARTS_CODE,
        tables: &STARTS_TABLES,
        steps: 60_000,
        lines: &STARTS_LINES,
    },
    harts: "4",
    script: &STARTS_SCRIPT,
    runs: &NO_RUNS,
};

#[test]
fn a_hart_is_started_as_at_boot(rt: HostRuntime) {
    expect_scripted_guest(&rt, rt.alloc(), &STARTS);
}

// A module stores a word on one hart. On another it reads that and stores a second, is evicted and
// launched again, and on the first it reads both.
const STORED_ELSEWHERE_CODE: [u32; 74] = [
    0x00000f97, // auipc x31,0x0
    0x114f8f93, // addi x31,x31,276
    0x105f9073, // csrrw x0,stvec,x31
    0x00100513, // addi x10,x0,1
    0x00000597, // auipc x11,0x0
    0x08458593, // addi x11,x11,132
    0x00000613, // addi x12,x0,0
    0x004858b7, // lui x17,0x485
    0x34d88893, // addi x17,x17,845
    0x00000813, // addi x16,x0,0
    0x00000073, // ecall
    0x00010997, // auipc x19,0x10
    0xfd498993, // addi x19,x19,-44
    0x00008397, // auipc x7,0x8
    0xfcc38393, // addi x7,x7,-52
    0x0003890b, // b.launch x18,x7
    0x00000513, // addi x10,x0,0
    0x00b00593, // addi x11,x0,11
    0x00000613, // addi x12,x0,0
    0x0139128b, // b.call x5,x18,x19
    0x0c029263, // bne x5,x0,0x80000114
    0x00000f93, // addi x31,x0,0
    0x0bf51e63, // bne x10,x31,0x80000114
    0x00200913, // addi x18,x0,2
    0x00000513, // addi x10,x0,0
    0x00100613, // addi x12,x0,1
    0x0139128b, // b.call x5,x18,x19
    0x0a029463, // bne x5,x0,0x80000114
    0x00b00f93, // addi x31,x0,11
    0x0bf51063, // bne x10,x31,0x80000114
    0x01f00513, // addi x10,x0,31
    0x00100613, // addi x12,x0,1
    0x0139128b, // b.call x5,x18,x19
    0x08029863, // bne x5,x0,0x80000114
    0x00c00f93, // addi x31,x0,12
    0x09f51463, // bne x10,x31,0x80000114
    0x0900006f, // jal x0,0x80000120
    0x00000f97, // auipc x31,0x0
    0x080f8f93, // addi x31,x31,128
    0x105f9073, // csrrw x0,stvec,x31
    0x00010997, // auipc x19,0x10
    0xf6098993, // addi x19,x19,-160
    0x00008397, // auipc x7,0x8
    0xf5838393, // addi x7,x7,-168
    0x00100913, // addi x18,x0,1
    0x00000513, // addi x10,x0,0
    0x00100613, // addi x12,x0,1
    0x0139128b, // b.call x5,x18,x19
    0x04029a63, // bne x5,x0,0x80000114
    0x00b00f93, // addi x31,x0,11
    0x05f51663, // bne x10,x31,0x80000114
    0x01f00513, // addi x10,x0,31
    0x00c00593, // addi x11,x0,12
    0x00000613, // addi x12,x0,0
    0x0139128b, // b.call x5,x18,x19
    0x02029c63, // bne x5,x0,0x80000114
    0x00000f93, // addi x31,x0,0
    0x03f51863, // bne x10,x31,0x80000114
    0x0009328b, // b.evict x5,x18
    0x00000417, // auipc x8,0x0
    0x31440413, // addi x8,x8,788
    0x00043a03, // ld x20,0(x8)
    0x00843a83, // ld x21,8(x8)
    0x01043b03, // ld x22,16(x8)
    0x0149b023, // sd x20,0(x19)
    0x0159b423, // sd x21,8(x19)
    0x0169b823, // sd x22,16(x19)
    0x0003890b, // b.launch x18,x7
    0x0000006f, // jal x0,0x80000110
    0x02100513, // addi x10,x0,33
    0x00100893, // addi x17,x0,1
    0x00000073, // ecall
    0x00800893, // addi x17,x0,8
    0x00000073, // ecall
];

const STORED_ELSEWHERE_TABLES: [(usize, u64); 10] = [
    (1024, 0x2b5050b00061663),
    (1032, 0x5750b0000200b),
    (1040, 0x200b),
    (32768, 0x101010147534e42),
    (32784, 0x80010000),
    (32848, 0x80010),
    (32856, 0x501),
    (65536, 0x2b5050b00061663),
    (65544, 0x5750b0000200b),
    (65552, 0x200b),
];

const STORED_ELSEWHERE_LINES: [&str; 17] = [
    "start 10 0 1 0000000080000094\n",
    "launch 15 0 1 ff68d5e6e69dbded7d018bf67d4950f7ddb928499560d4b38d531fc319ae8ccd\n",
    "call 19 0 0 1 0000000080010000\n",
    "sset 21 0 1 0\n",
    "ret 22 0 1 0 0000000080000050\n",
    "call 33 1 0 1 0000000080010000\n",
    "ret 36 1 1 0 00000000800000c0\n",
    "call 43 1 0 1 0000000080010000\n",
    "sset 45 1 1 31\n",
    "ret 46 1 1 0 00000000800000dc\n",
    "evict 50 1 1 1\n",
    "launch 59 1 2 ff68d5e6e69dbded7d018bf67d4950f7ddb928499560d4b38d531fc319ae8ccd\n",
    "call 74 0 0 2 0000000080010000\n",
    "ret 80 0 2 0 000000008000006c\n",
    "call 92 0 0 2 0000000080010000\n",
    "ret 98 0 2 0 0000000080000084\n",
    "end 111 shutdown e325f7ac002ca646c969328f8710203f488a7c1bc8b4acefbd423db25dc5e0fb\n",
];

const STORED_ELSEWHERE_SCRIPT: [&str; 2] = ["turn 0 23\n", "turn 1 39\n"];

const STORED_ELSEWHERE: ScriptedGuest<'static> = ScriptedGuest {
    guest: Guest {
        code: &STORED_ELSEWHERE_CODE,
        tables: &STORED_ELSEWHERE_TABLES,
        steps: 60_000,
        lines: &STORED_ELSEWHERE_LINES,
    },
    harts: "2",
    script: &STORED_ELSEWHERE_SCRIPT,
    runs: &NO_RUNS,
};

#[test]
fn words_are_those_of_the_module_on_any_hart(rt: HostRuntime) {
    expect_scripted_guest(&rt, rt.alloc(), &STORED_ELSEWHERE);
}

// A module runs on one hart: on another it can't be called, evicted or launched again, and its
// pages are denied. A second module runs there at the same time, and to each the other's page is
// denied.
const TWO_MODULES_CODE: [u32; 60] = [
    0x00000f97, // auipc x31,0x0
    0x0c8f8f93, // addi x31,x31,200
    0x105f9073, // csrrw x0,stvec,x31
    0x00008397, // auipc x7,0x8
    0xff438393, // addi x7,x7,-12
    0x0003890b, // b.launch x18,x7
    0x00009397, // auipc x7,0x9
    0xfe838393, // addi x7,x7,-24
    0x0003898b, // b.launch x19,x7
    0x00100513, // addi x10,x0,1
    0x00000597, // auipc x11,0x0
    0x03458593, // addi x11,x11,52
    0x00000613, // addi x12,x0,0
    0x004858b7, // lui x17,0x485
    0x34d88893, // addi x17,x17,845
    0x00000813, // addi x16,x0,0
    0x00000073, // ecall
    0x00010497, // auipc x9,0x10
    0xfbc48493, // addi x9,x9,-68
    0x00012597, // auipc x11,0x12
    0xfb458593, // addi x11,x11,-76
    0x0099128b, // b.call x5,x18,x9
    0x0840006f, // jal x0,0x800000dc
    0x00000f97, // auipc x31,0x0
    0x040f8f93, // addi x31,x31,64
    0x105f9073, // csrrw x0,stvec,x31
    0x00100913, // addi x18,x0,1
    0x00010497, // auipc x9,0x10
    0xf9448493, // addi x9,x9,-108
    0x00048613, // addi x12,x9,0
    0x0099128b, // b.call x5,x18,x9
    0x0009330b, // b.evict x6,x18
    0x00008397, // auipc x7,0x8
    0xf8038393, // addi x7,x7,-128
    0x0003838b, // b.launch x7,x7
    0x00011597, // auipc x11,0x11
    0xf7458593, // addi x11,x11,-140
    0x0005ba03, // ld x20,0(x11)
    0x0440006f, // jal x0,0x800000dc
    0xffc00f93, // addi x31,x0,-4
    0x03f29e63, // bne x5,x31,0x800000dc
    0xffe00f93, // addi x31,x0,-2
    0x03f31a63, // bne x6,x31,0x800000dc
    0xffc00f93, // addi x31,x0,-4
    0x03f39663, // bne x7,x31,0x800000dc
    0x00200993, // addi x19,x0,2
    0x00012497, // auipc x9,0x12
    0xf4848493, // addi x9,x9,-184
    0x0099928b, // b.call x5,x19,x9
    0x0180006f, // jal x0,0x800000dc
    0x00100293, // addi x5,x0,1
    0x0002b30b, // b.evict x6,x5
    0x00200293, // addi x5,x0,2
    0x0002b30b, // b.evict x6,x5
    0x0100006f, // jal x0,0x800000e8
    0x02100513, // addi x10,x0,33
    0x00100893, // addi x17,x0,1
    0x00000073, // ecall
    0x00800893, // addi x17,x0,8
    0x00000073, // ecall
];

const TWO_MODULES_TABLES: [(usize, u64); 13] = [
    (32768, 0x201010147534e42),
    (32784, 0x80010000),
    (32848, 0x80010),
    (32856, 0x501),
    (32864, 0x80011),
    (32872, 0x301),
    (36864, 0x101010147534e42),
    (36880, 0x80012000),
    (36944, 0x80012),
    (36952, 0x501),
    (65536, 0x5b28300000293),
    (73728, 0xc2938b00100293),
    (73736, 0x5b283),
];

const TWO_MODULES_LINES: [&str; 20] = [
    "launch 5 0 1 767cac8e6afc5d51b8a00ea777b7c80e1c4a0e1170af0c5e993a83381859d376\n",
    "launch 8 0 2 a60e749c4f4f3799e3af8f2c0a731082ce947282972ea3725826107f2d047d22\n",
    "start 16 0 1 000000008000005c\n",
    "call 21 0 0 1 0000000080010000\n",
    "refuse 30 1 call -4\n",
    "refuse 31 1 evict -2\n",
    "refuse 34 1 launch -4\n",
    "deny 37 1 0 load 0000000080011\n",
    "trap 37 1 0000000000000005 0000000080000094\n",
    "call 47 1 0 2 0000000080012000\n",
    "deny 48 0 1 load 0000000080012\n",
    "stop 48 0 1 0000000080010004\n",
    "trap 48 0 0000000000000005 0000000080010004\n",
    "refuse 50 1 call -4\n",
    "deny 51 1 2 load 0000000080011\n",
    "stop 51 1 2 0000000080012008\n",
    "trap 51 1 0000000000000005 0000000080012008\n",
    "evict 53 0 1 1\n",
    "evict 55 0 2 1\n",
    "end 59 shutdown 6767acae081ea7095266a2d699ecf1e63f1108f13f70a55e2c8c696ba7b939b0\n",
];

const TWO_MODULES_2_30: [&str; 5] = [
    "stop 49 1 2 0000000080012000\n",
    "trap 49 1 0000000000000002 0000000080012000\n",
    "evict 53 0 1 1\n",
    "evict 55 0 2 1\n",
    "end 59 shutdown 6767acae081ea7095266a2d699ecf1e63f1108f13f70a55e2c8c696ba7b939b0\n",
];

const TWO_MODULES_RUNS: [Zeroed<'static>; 6] = [
    Zeroed {
        place: "1@40",
        kept: 20,
        rest: &NO_LINES,
    },
    Zeroed {
        place: "1@49",
        kept: 20,
        rest: &NO_LINES,
    },
    Zeroed {
        place: "1@53",
        kept: 20,
        rest: &NO_LINES,
    },
    Zeroed {
        place: "2@30",
        kept: 13,
        rest: &TWO_MODULES_2_30,
    },
    Zeroed {
        place: "2@48",
        kept: 20,
        rest: &NO_LINES,
    },
    Zeroed {
        place: "2@52",
        kept: 20,
        rest: &NO_LINES,
    },
];

const TWO_MODULES_SCRIPT: [&str; 5] = [
    "turn 0 23\n",
    "turn 1 25\n",
    "turn 0 1\n",
    "turn 1 3\n",
    "turn 0 7\n",
];

const TWO_MODULES: ScriptedGuest<'static> = ScriptedGuest {
    guest: Guest {
        code: &TWO_MODULES_CODE,
        tables: &TWO_MODULES_TABLES,
        steps: 60_000,
        lines: &TWO_MODULES_LINES,
    },
    harts: "2",
    script: &TWO_MODULES_SCRIPT,
    runs: &TWO_MODULES_RUNS,
};

#[test]
fn a_module_that_runs_elsewhere_is_busy(rt: HostRuntime) {
    expect_scripted_guest(&rt, rt.alloc(), &TWO_MODULES);
}
