//! Guests that call modules, whose modules call and return, are stopped, go on and are evicted.
//! Made by `tests/make` from their assembly; the traces are those of `tests/interpreter.py`.

use super::guest::{Guest, expect_guests};

// A module loads from a page that it accepts, and is told whose it is; it may not store there with
// the right to load alone.
const ACCEPTED_CODE: [u32; 33] = [
    0x00000f97, // auipc x31,0x0
    0x05cf8f93, // addi x31,x31,92
    0x105f9073, // csrrw x0,stvec,x31
    0x00008397, // auipc x7,0x8
    0xff438393, // addi x7,x7,-12
    0x0003828b, // b.launch x5,x7
    0x00100f93, // addi x31,x0,1
    0x05f29a63, // bne x5,x31,0x80000070
    0x00009397, // auipc x7,0x9
    0xfe038393, // addi x7,x7,-32
    0x0003830b, // b.launch x6,x7
    0x00200f93, // addi x31,x0,2
    0x05f31063, // bne x6,x31,0x80000070
    0x00014517, // auipc x10,0x14
    0xfcc50513, // addi x10,x10,-52
    0x03700593, // addi x11,x0,55
    0x00010497, // auipc x9,0x10
    0xfc048493, // addi x9,x9,-64
    0x0092938b, // b.call x7,x5,x9
    0x00011497, // auipc x9,0x11
    0xfb448493, // addi x9,x9,-76
    0x0093138b, // b.call x7,x6,x9
    0x0180006f, // jal x0,0x80000070
    0x143022f3, // csrrs x5,stval,x0
    0x00014317, // auipc x6,0x14
    0xfa030313, // addi x6,x6,-96
    0x00629463, // bne x5,x6,0x80000070
    0x0100006f, // jal x0,0x8000007c
    0x02100513, // addi x10,x0,33
    0x00100893, // addi x17,x0,1
    0x00000073, // ecall
    0x00800893, // addi x17,x0,8
    0x00000073, // ecall
];

const ACCEPTED_TABLES: [(usize, u64); 22] = [
    (32768, 0x201010147534e42),
    (32776, 0x1),
    (32784, 0x80010000),
    (32848, 0x80010),
    (32856, 0x501),
    (32864, 0x80014),
    (32872, 0x10302),
    (33872, 0x2f43552d586d3c7c),
    (33880, 0x48b2e5106b2d25b4),
    (33888, 0xb1c6d9df57c59935),
    (33896, 0x855bee070cc1564b),
    (36864, 0x201010147534e42),
    (36880, 0x80011000),
    (36944, 0x80011),
    (36952, 0x501),
    (36960, 0x80014),
    (36968, 0x103),
    (65536, 0x200b00b53023),
    (69632, 0x370031300053283),
    (69640, 0x5638b00629a63),
    (69648, 0x39463fff38393),
    (69656, 0x50423),
];

const ACCEPTED_LINES: [&str; 9] = [
    "launch 5 0 1 cdccef21f8e19cc361be01f6e7ff371c988f2fdc8f8217ba2a4b2b17264ce32d\n",
    "launch 10 0 2 7c3c6d582d55432fb4252d6b10e5b2483599c557dfd9c6b14b56c10c07ee5b85\n",
    "call 18 0 0 1 0000000080010000\n",
    "ret 20 0 1 0 000000008000004c\n",
    "call 23 0 0 2 0000000080011000\n",
    "deny 30 0 2 store 0000000080014\n",
    "stop 30 0 2 0000000080011018\n",
    "trap 30 0 0000000000000007 0000000080011018\n",
    "end 38 shutdown 59bb9dc387fa6b9c00bc54861409361cf39a382b7486660cf20cb5d7a6872ffa\n",
];

// An idle module that accepts a page is evicted: the page keeps its bytes, and its owner its
// access; the module's own page is zeros.
const ACCEPTER_GONE_CODE: [u32; 47] = [
    0x00000f97, // auipc x31,0x0
    0x0a0f8f93, // addi x31,x31,160
    0x105f9073, // csrrw x0,stvec,x31
    0x00008397, // auipc x7,0x8
    0xff438393, // addi x7,x7,-12
    0x0003828b, // b.launch x5,x7
    0x00100f93, // addi x31,x0,1
    0x09f29663, // bne x5,x31,0x800000a8
    0x00009397, // auipc x7,0x9
    0xfe038393, // addi x7,x7,-32
    0x0003830b, // b.launch x6,x7
    0x00200f93, // addi x31,x0,2
    0x07f31c63, // bne x6,x31,0x800000a8
    0x0003330b, // b.evict x6,x6
    0x00000f93, // addi x31,x0,0
    0x07f31663, // bne x6,x31,0x800000a8
    0x00011397, // auipc x7,0x11
    0xfc038393, // addi x7,x7,-64
    0x0003b303, // ld x6,0(x7)
    0x00000f93, // addi x31,x0,0
    0x05f31c63, // bne x6,x31,0x800000a8
    0x0103b303, // ld x6,16(x7)
    0x00000f93, // addi x31,x0,0
    0x05f31663, // bne x6,x31,0x800000a8
    0x00014517, // auipc x10,0x14
    0xfa050513, // addi x10,x10,-96
    0x00000f97, // auipc x31,0x0
    0x014f8f93, // addi x31,x31,20
    0x140f9073, // csrrw x0,sscratch,x31
    0x00053303, // ld x6,0(x10)
    0x0300006f, // jal x0,0x800000a8
    0x00010497, // auipc x9,0x10
    0xf8448493, // addi x9,x9,-124
    0x04200593, // addi x11,x0,66
    0x0092938b, // b.call x7,x5,x9
    0x03700f93, // addi x31,x0,55
    0x01f51c63, // bne x10,x31,0x800000a8
    0x04200f93, // addi x31,x0,66
    0x01f59863, // bne x11,x31,0x800000a8
    0x0180006f, // jal x0,0x800000b4
    0x14002ff3, // csrrs x31,sscratch,x0
    0x000f8067, // jalr x0,0(x31)
    0x02100513, // addi x10,x0,33
    0x00100893, // addi x17,x0,1
    0x00000073, // ecall
    0x00800893, // addi x17,x0,8
    0x00000073, // ecall
];

const ACCEPTER_GONE_TABLES: [(usize, u64); 23] = [
    (32768, 0x201010147534e42),
    (32776, 0x1),
    (32784, 0x80010000),
    (32848, 0x80010),
    (32856, 0x501),
    (32864, 0x80014),
    (32872, 0x10302),
    (33872, 0xc5a5a0ff5f23766f),
    (33880, 0xb414bbad8c0172e3),
    (33888, 0x5a4ea0781efa7c6a),
    (33896, 0x26604ccd095faa1e),
    (36864, 0x201010147534e42),
    (36880, 0x80011000),
    (36944, 0x80011),
    (36952, 0x701),
    (36960, 0x80014),
    (36968, 0x303),
    (65536, 0xb5342300053283),
    (65544, 0x2851300853583),
    (65552, 0x200b),
    (69632, 0x200b),
    (69648, 0x4d),
    (81920, 0x37),
];

const ACCEPTER_GONE_LINES: [&str; 8] = [
    "launch 5 0 1 bfde30c003853cd460a22c12885074d55c3a70bfaf5147d844717e2cd96f6b8c\n",
    "launch 10 0 2 6f76235fffa0a5c5e372018cadbb14b46a7cfa1e78a04e5a1eaa5f09cd4c6026\n",
    "evict 13 0 2 1\n",
    "deny 29 0 0 load 0000000080014\n",
    "trap 29 0 0000000000000005 0000000080000074\n",
    "call 35 0 0 1 0000000080010000\n",
    "ret 40 0 1 0 000000008000008c\n",
    "end 48 shutdown caee67f70472d4b7f1fcb9175ae99735607315fe613eb9e0ca56d8d53da8ff0b\n",
];

// A running module calls itself; one that it calls calls it back: neither is idle. Who calls and
// who is called, and words of identities.
const CALL_AGAIN_CODE: [u32; 52] = [
    0x00008397, // auipc x7,0x8
    0x00038393, // addi x7,x7,0
    0x0003828b, // b.launch x5,x7
    0x00100f93, // addi x31,x0,1
    0x09f29c63, // bne x5,x31,0x800000a8
    0x00009397, // auipc x7,0x9
    0xfec38393, // addi x7,x7,-20
    0x0003828b, // b.launch x5,x7
    0x00200f93, // addi x31,x0,2
    0x09f29263, // bne x5,x31,0x800000a8
    0x00100413, // addi x8,x0,1
    0x00010517, // auipc x10,0x10
    0xfd450513, // addi x10,x10,-44
    0x00012597, // auipc x11,0x12
    0xfcc58593, // addi x11,x11,-52
    0x00a41f0b, // b.call x30,x8,x10
    0x00100f93, // addi x31,x0,1
    0x07f51263, // bne x10,x31,0x800000a8
    0x00000f93, // addi x31,x0,0
    0x05f59e63, // bne x11,x31,0x800000a8
    0x00400493, // addi x9,x0,4
    0x0094428b, // b.ident x5,x8,x9
    0x00000f93, // addi x31,x0,0
    0x05f29663, // bne x5,x31,0x800000a8
    0x00900493, // addi x9,x0,9
    0x0004c28b, // b.ident x5,x9,x0
    0x00000f93, // addi x31,x0,0
    0x03f29e63, // bne x5,x31,0x800000a8
    0x0000428b, // b.ident x5,x0,x0
    0x00000f93, // addi x31,x0,0
    0x03f29863, // bne x5,x31,0x800000a8
    0x00300493, // addi x9,x0,3
    0x0094428b, // b.ident x5,x8,x9
    0x00000317, // auipc x6,0x0
    0x03c30313, // addi x6,x6,60
    0x00033383, // ld x7,0(x6)
    0x00729c63, // bne x5,x7,0x800000a8
    0x00200493, // addi x9,x0,2
    0x0004c28b, // b.ident x5,x9,x0
    0x00833383, // ld x7,8(x6)
    0x00729463, // bne x5,x7,0x800000a8
    0x0100006f, // jal x0,0x800000b4
    0x02100513, // addi x10,x0,33
    0x00100893, // addi x17,x0,1
    0x00000073, // ecall
    0x00800893, // addi x17,x0,8
    0x00000073, // ecall
    0x00000013, // addi x0,x0,0
    0x658f9481, // no instruction
    0x279c94ec, // no instruction
    0x8257dde4, // no instruction
    0x648f2e41, // no instruction
];

const CALL_AGAIN_TABLES: [(usize, u64); 19] = [
    (32768, 0x201010147534e42),
    (32784, 0x80010000),
    (32848, 0x80010),
    (32856, 0x501),
    (32864, 0x80011),
    (32872, 0x301),
    (36864, 0x101010147534e42),
    (36880, 0x80012000),
    (36944, 0x80012),
    (36952, 0x501),
    (65536, 0xa4128b00100413),
    (65544, 0x629a63ffc00313),
    (65552, 0xb4128b00200413),
    (65560, 0x200b0000558b),
    (65568, 0x200bfff00513),
    (73728, 0xa4128b00100413),
    (73736, 0x629663ffc00313),
    (73744, 0x200b0000550b),
    (73752, 0x200bfff00513),
];

const CALL_AGAIN_LINES: [&str; 9] = [
    "launch 2 0 1 a2b24f9b49e0256c5db97a40fbad50dd4cd50dc8a36498e581948f65ec949c27\n",
    "launch 7 0 2 e4dd5782412e8f644ca7e11b4f4f05bc9386bfb5cba340081fe3832ab390cbee\n",
    "call 15 0 0 1 0000000080010000\n",
    "refuse 17 0 call -4\n",
    "call 21 0 1 2 0000000080012000\n",
    "refuse 23 0 call -4\n",
    "ret 27 0 2 1 0000000080010018\n",
    "ret 29 0 1 0 0000000080000040\n",
    "end 58 shutdown a3176fa5cc69b655cbfb6912ecc0bef3dbebef57507b7aaf6dfee3b94666dea8\n",
];

// The untrusted world calls A, which calls B; both return. A callee gets a0 to a7 and nothing else,
// and its caller gets back what it had, but for a0, a1 and the destination.
const CALL_AND_RETURN_CODE: [u32; 94] = [
    0x00008397, // auipc x7,0x8
    0x00038393, // addi x7,x7,0
    0x0003828b, // b.launch x5,x7
    0x00100f93, // addi x31,x0,1
    0x15f29a63, // bne x5,x31,0x80000164
    0x00009397, // auipc x7,0x9
    0xfec38393, // addi x7,x7,-20
    0x0003828b, // b.launch x5,x7
    0x00200f93, // addi x31,x0,2
    0x15f29063, // bne x5,x31,0x80000164
    0x06500093, // addi x1,x0,101
    0x06600113, // addi x2,x0,102
    0x00a00513, // addi x10,x0,10
    0x01400593, // addi x11,x0,20
    0x01e00613, // addi x12,x0,30
    0x04600893, // addi x17,x0,70
    0x07600913, // addi x18,x0,118
    0x08300f93, // addi x31,x0,131
    0x00100413, // addi x8,x0,1
    0x00010497, // auipc x9,0x10
    0xfb448493, // addi x9,x9,-76
    0x03c00813, // addi x16,x0,60
    0x0a80006f, // jal x0,0x80000100
    0x00000000, // no instruction
    0x00000000, // no instruction
    0x00000000, // no instruction
    0x00000000, // no instruction
    0x00000000, // no instruction
    0x00000000, // no instruction
    0x00000000, // no instruction
    0x00000000, // no instruction
    0x00000000, // no instruction
    0x00000000, // no instruction
    0x00000000, // no instruction
    0x00000000, // no instruction
    0x00000000, // no instruction
    0x00000000, // no instruction
    0x00000000, // no instruction
    0x00000000, // no instruction
    0x00000000, // no instruction
    0x00000000, // no instruction
    0x00000000, // no instruction
    0x00000000, // no instruction
    0x00000000, // no instruction
    0x00000000, // no instruction
    0x00000000, // no instruction
    0x00000000, // no instruction
    0x00000000, // no instruction
    0x00000000, // no instruction
    0x00000000, // no instruction
    0x00000000, // no instruction
    0x00000000, // no instruction
    0x00000000, // no instruction
    0x00000000, // no instruction
    0x00000000, // no instruction
    0x00000000, // no instruction
    0x00000000, // no instruction
    0x00000000, // no instruction
    0x00000000, // no instruction
    0x00000000, // no instruction
    0x00000000, // no instruction
    0x00000000, // no instruction
    0x00000000, // no instruction
    0x00000000, // no instruction
    0x00941f0b, // b.call x30,x8,x9
    0x000f8e13, // addi x28,x31,0
    0x46a00f93, // addi x31,x0,1130
    0x05f51c63, // bne x10,x31,0x80000164
    0x01500f93, // addi x31,x0,21
    0x05f59863, // bne x11,x31,0x80000164
    0x01e00f93, // addi x31,x0,30
    0x05f61463, // bne x12,x31,0x80000164
    0x04600f93, // addi x31,x0,70
    0x05f89063, // bne x17,x31,0x80000164
    0x03c00f93, // addi x31,x0,60
    0x03f81c63, // bne x16,x31,0x80000164
    0x06500f93, // addi x31,x0,101
    0x03f09863, // bne x1,x31,0x80000164
    0x06600f93, // addi x31,x0,102
    0x03f11463, // bne x2,x31,0x80000164
    0x07600f93, // addi x31,x0,118
    0x03f91063, // bne x18,x31,0x80000164
    0x00000f93, // addi x31,x0,0
    0x01ff1c63, // bne x30,x31,0x80000164
    0x00100f93, // addi x31,x0,1
    0x01f41863, // bne x8,x31,0x80000164
    0x08300f93, // addi x31,x0,131
    0x01fe1463, // bne x28,x31,0x80000164
    0x0100006f, // jal x0,0x80000170
    0x02100513, // addi x10,x0,33
    0x00100893, // addi x17,x0,1
    0x00000073, // ecall
    0x00800893, // addi x17,x0,8
    0x00000073, // ecall
];

const CALL_AND_RETURN_TABLES: [(usize, u64); 35] = [
    (32768, 0x201010147534e42),
    (32784, 0x80010000),
    (32848, 0x80010),
    (32856, 0x501),
    (32864, 0x80011),
    (32872, 0x301),
    (36864, 0x101010147534e42),
    (36880, 0x80012000),
    (36944, 0x80012),
    (36952, 0x501),
    (65536, 0x300006f),
    (65552, 0x29a630073128b),
    (65560, 0x83166300200413),
    (65568, 0x200b00961463),
    (65576, 0x200bfff00513),
    (65584, 0x30e0b30020e0b3),
    (65592, 0x50e0b30040e0b3),
    (65600, 0x70e0b30060e0b3),
    (65608, 0x90e0b30080e0b3),
    (65616, 0x130e0b30120e0b3),
    (65624, 0x150e0b30140e0b3),
    (65632, 0x170e0b30160e0b3),
    (65640, 0x190e0b30180e0b3),
    (65648, 0x1b0e0b301a0e0b3),
    (65656, 0x1d0e0b301c0e0b3),
    (65664, 0x1f0e0b301e0e0b3),
    (65672, 0xb50533fa0090e3),
    (65680, 0x115053300c50533),
    (65688, 0x50029300060493),
    (65696, 0x800123b700200313),
    (65704, 0x203d39302039393),
    (65712, 0xf61ff06f),
    (73728, 0x3e85051300049463),
    (73736, 0x630061300158593),
    (73744, 0x200b),
];

const CALL_AND_RETURN_LINES: [&str; 7] = [
    "launch 2 0 1 2b00f02b5034c930fd9d8c27fa46d64b3a0ceac8e5feca39c67bdcaecbe22bc4\n",
    "launch 7 0 2 be28fee1ea18d0d081ba0755d228022a545433be37a540dc36a82023122c4034\n",
    "call 23 0 0 1 0000000080010000\n",
    "call 58 0 1 2 0000000080012000\n",
    "ret 63 0 2 1 0000000080010014\n",
    "ret 68 0 1 0 0000000080000104\n",
    "end 95 shutdown a6a95a819fc1691c3496e1dda87f42d5eddd7bedea02d251059978bc48a51d61\n",
];

// Refused calls, in their order: no such module, no entry of it, another mode, not idle. The
// register gets the code, and the next instruction is executed.
const CALL_REFUSALS_CODE: [u32; 69] = [
    0x00000f97, // auipc x31,0x0
    0x0f8f8f93, // addi x31,x31,248
    0x105f9073, // csrrw x0,stvec,x31
    0x00008397, // auipc x7,0x8
    0xff438393, // addi x7,x7,-12
    0x0003828b, // b.launch x5,x7
    0x00100f93, // addi x31,x0,1
    0x0ff29263, // bne x5,x31,0x80000100
    0x00009397, // auipc x7,0x9
    0xfe038393, // addi x7,x7,-32
    0x0003828b, // b.launch x5,x7
    0x00200f93, // addi x31,x0,2
    0x0df29863, // bne x5,x31,0x80000100
    0x00100413, // addi x8,x0,1
    0x00010497, // auipc x9,0x10
    0xfcc48493, // addi x9,x9,-52
    0x0094128b, // b.call x5,x8,x9
    0xffe00f93, // addi x31,x0,-2
    0x0bf29c63, // bne x5,x31,0x80000100
    0x00900413, // addi x8,x0,9
    0x0094128b, // b.call x5,x8,x9
    0xfff00f93, // addi x31,x0,-1
    0x0bf29463, // bne x5,x31,0x80000100
    0xffc48493, // addi x9,x9,-4
    0x0094128b, // b.call x5,x8,x9
    0xfff00f93, // addi x31,x0,-1
    0x09f29c63, // bne x5,x31,0x80000100
    0x00200413, // addi x8,x0,2
    0x00012497, // auipc x9,0x12
    0xf9048493, // addi x9,x9,-112
    0x0094128b, // b.call x5,x8,x9
    0xffd00f93, // addi x31,x0,-3
    0x09f29063, // bne x5,x31,0x80000100
    0x00448493, // addi x9,x9,4
    0x0094128b, // b.call x5,x8,x9
    0xffe00f93, // addi x31,x0,-2
    0x07f29863, // bne x5,x31,0x80000100
    0x00100413, // addi x8,x0,1
    0x03f41493, // slli x9,x8,0x3f
    0x00010397, // auipc x7,0x10
    0xf6438393, // addi x7,x7,-156
    0x007484b3, // add x9,x9,x7
    0x0094128b, // b.call x5,x8,x9
    0xffe00f93, // addi x31,x0,-2
    0x05f29863, // bne x5,x31,0x80000100
    0x00038493, // addi x9,x7,0
    0x00000f97, // auipc x31,0x0
    0x014f8f93, // addi x31,x31,20
    0x140f9073, // csrrw x0,sscratch,x31
    0x0094128b, // b.call x5,x8,x9
    0x0380006f, // jal x0,0x80000100
    0x00100413, // addi x8,x0,1
    0x00010497, // auipc x9,0x10
    0xf3048493, // addi x9,x9,-208
    0x0094128b, // b.call x5,x8,x9
    0xffc00f93, // addi x31,x0,-4
    0x03f29063, // bne x5,x31,0x80000100
    0x00448493, // addi x9,x9,4
    0x0094128b, // b.call x5,x8,x9
    0xffe00f93, // addi x31,x0,-2
    0x01f29863, // bne x5,x31,0x80000100
    0x0180006f, // jal x0,0x8000010c
    0x14002ff3, // csrrs x31,sscratch,x0
    0x000f8067, // jalr x0,0(x31)
    0x02100513, // addi x10,x0,33
    0x00100893, // addi x17,x0,1
    0x00000073, // ecall
    0x00800893, // addi x17,x0,8
    0x00000073, // ecall
];

const CALL_REFUSALS_TABLES: [(usize, u64); 11] = [
    (32768, 0x201010147534e42),
    (32784, 0x80010000),
    (32848, 0x80010),
    (32856, 0x501),
    (32864, 0x80011),
    (32872, 0x301),
    (36864, 0x101000147534e42),
    (36880, 0x80012000),
    (36944, 0x80012),
    (36952, 0x501),
    (65536, 0x100073),
];

const CALL_REFUSALS_LINES: [&str; 14] = [
    "launch 5 0 1 3b69c700a06abe96697dc0c79969aada6ab869becfe547ea582ad4f4791fd20d\n",
    "launch 10 0 2 8b13e986e4829f65c162bc104d30e7d4a6a467cec54e902d723d7ff2e022da00\n",
    "refuse 16 0 call -2\n",
    "refuse 20 0 call -1\n",
    "refuse 24 0 call -1\n",
    "refuse 30 0 call -3\n",
    "refuse 34 0 call -2\n",
    "refuse 42 0 call -2\n",
    "call 49 0 0 1 0000000080010000\n",
    "stop 50 0 1 0000000080010000\n",
    "trap 50 0 0000000000000002 0000000080010000\n",
    "refuse 56 0 call -4\n",
    "refuse 60 0 call -2\n",
    "end 66 shutdown 62e39c0b5a57793ba24db0d798c50acf91946a90cab038a5aa48a88b964fa707\n",
];

// A module that another waits for is stopped, and evicted with it: their own pages become zeros and
// anyone's, and their ids don't come again.
const EVICT_CHAIN_CODE: [u32; 56] = [
    0x00000f97, // auipc x31,0x0
    0x04cf8f93, // addi x31,x31,76
    0x105f9073, // csrrw x0,stvec,x31
    0x00008397, // auipc x7,0x8
    0xff438393, // addi x7,x7,-12
    0x0003828b, // b.launch x5,x7
    0x00009397, // auipc x7,0x9
    0xfe838393, // addi x7,x7,-24
    0x0003830b, // b.launch x6,x7
    0x00900413, // addi x8,x0,9
    0x0004338b, // b.evict x7,x8
    0xfff00f93, // addi x31,x0,-1
    0x09f39e63, // bne x7,x31,0x800000cc
    0x00010497, // auipc x9,0x10
    0xfcc48493, // addi x9,x9,-52
    0x00012517, // auipc x10,0x12
    0xfc450513, // addi x10,x10,-60
    0x0092938b, // b.call x7,x5,x9
    0x0840006f, // jal x0,0x800000cc
    0x00100293, // addi x5,x0,1
    0x0002b30b, // b.evict x6,x5
    0xffe00f93, // addi x31,x0,-2
    0x07f31a63, // bne x6,x31,0x800000cc
    0x00200293, // addi x5,x0,2
    0x0002b28b, // b.evict x5,x5
    0x00000f93, // addi x31,x0,0
    0x07f29263, // bne x5,x31,0x800000cc
    0x00010497, // auipc x9,0x10
    0xf9448493, // addi x9,x9,-108
    0x0004b283, // ld x5,0(x9)
    0x00000f93, // addi x31,x0,0
    0x05f29863, // bne x5,x31,0x800000cc
    0x00001337, // lui x6,0x1
    0x006484b3, // add x9,x9,x6
    0x0004b283, // ld x5,0(x9)
    0x00000f93, // addi x31,x0,0
    0x03f29e63, // bne x5,x31,0x800000cc
    0x006484b3, // add x9,x9,x6
    0x0004b283, // ld x5,0(x9)
    0x00000f93, // addi x31,x0,0
    0x03f29663, // bne x5,x31,0x800000cc
    0x00100293, // addi x5,x0,1
    0x0002b28b, // b.evict x5,x5
    0xfff00f93, // addi x31,x0,-1
    0x01f29e63, // bne x5,x31,0x800000cc
    0x00008397, // auipc x7,0x8
    0xf4c38393, // addi x7,x7,-180
    0x0003828b, // b.launch x5,x7
    0x00300f93, // addi x31,x0,3
    0x01f29463, // bne x5,x31,0x800000cc
    0x0100006f, // jal x0,0x800000d8
    0x02100513, // addi x10,x0,33
    0x00100893, // addi x17,x0,1
    0x00000073, // ecall
    0x00800893, // addi x17,x0,8
    0x00000073, // ecall
];

const EVICT_CHAIN_TABLES: [(usize, u64); 13] = [
    (32768, 0x201010147534e42),
    (32784, 0x80010000),
    (32848, 0x80010),
    (32856, 0x501),
    (32864, 0x80011),
    (32872, 0x301),
    (36864, 0x101010147534e42),
    (36880, 0x80012000),
    (36944, 0x80012),
    (36952, 0x501),
    (65536, 0xa4128b00200413),
    (69632, 0x1122334455667788),
    (73728, 0x100073),
];

const EVICT_CHAIN_LINES: [&str; 12] = [
    "launch 5 0 1 064acf2ff7db48c158656662724119126dee380f7d613634913c3a85c723e634\n",
    "launch 8 0 2 7e29aafeb61093b4be0f34b5561bd41b4cf8433343b923dd613f06af273fa102\n",
    "refuse 10 0 evict -1\n",
    "call 17 0 0 1 0000000080010000\n",
    "call 19 0 1 2 0000000080012000\n",
    "stop 20 0 2 0000000080012000\n",
    "trap 20 0 0000000000000002 0000000080012000\n",
    "refuse 22 0 evict -2\n",
    "evict 26 0 2 2\n",
    "refuse 44 0 evict -1\n",
    "launch 49 0 3 5668ca26752d5282d3c524160b686dd625553d34778be196e7d44adb600b36f5\n",
    "end 55 shutdown 55ea9bbf3bf2b4aee567afb958fd953f0f4cc7629a2ce89a5ebfc463bfc4f744\n",
];

// What the calls to the hypervisor leave with one hart: the timer, which keeps a1; a key, of which
// none waits; the start of a hart, refused as it is no hart, at no multiple of 4, or started; and
// software interrupts, which come to hart 0 by its number and by all harts, and to no other.
const HYPERVISOR_CODE: [u32; 93] = [
    0x00000813, // addi x16,x0,0
    0x000008b7, // lui x17,0x0
    0x00088893, // addi x17,x17,0
    0xfff00513, // addi x10,x0,-1
    0x00700593, // addi x11,x0,7
    0x00000073, // ecall
    0x00000f93, // addi x31,x0,0
    0x15f51263, // bne x10,x31,0x80000160
    0x00700f93, // addi x31,x0,7
    0x13f59e63, // bne x11,x31,0x80000160
    0x000008b7, // lui x17,0x0
    0x00288893, // addi x17,x17,2
    0x00900513, // addi x10,x0,9
    0x00700593, // addi x11,x0,7
    0x00000073, // ecall
    0xfff00f93, // addi x31,x0,-1
    0x13f51063, // bne x10,x31,0x80000160
    0x00700f93, // addi x31,x0,7
    0x11f59c63, // bne x11,x31,0x80000160
    0x004858b7, // lui x17,0x485
    0x34d88893, // addi x17,x17,845
    0x00100513, // addi x10,x0,1
    0x00000593, // addi x11,x0,0
    0x00000073, // ecall
    0xffd00f93, // addi x31,x0,-3
    0x0ff51e63, // bne x10,x31,0x80000160
    0x00000f93, // addi x31,x0,0
    0x0ff59a63, // bne x11,x31,0x80000160
    0x004858b7, // lui x17,0x485
    0x34d88893, // addi x17,x17,845
    0x00000513, // addi x10,x0,0
    0x00200593, // addi x11,x0,2
    0x00000073, // ecall
    0xffb00f93, // addi x31,x0,-5
    0x0df51c63, // bne x10,x31,0x80000160
    0x004858b7, // lui x17,0x485
    0x34d88893, // addi x17,x17,845
    0x00000513, // addi x10,x0,0
    0x00400593, // addi x11,x0,4
    0x00000073, // ecall
    0xffa00f93, // addi x31,x0,-6
    0x0bf51e63, // bne x10,x31,0x80000160
    0x007358b7, // lui x17,0x735
    0x04988893, // addi x17,x17,73
    0x00200513, // addi x10,x0,2
    0x00000593, // addi x11,x0,0
    0x00000073, // ecall
    0xffd00f93, // addi x31,x0,-3
    0x0bf51063, // bne x10,x31,0x80000160
    0x144022f3, // csrrs x5,sip,x0
    0x00000f93, // addi x31,x0,0
    0x09f29a63, // bne x5,x31,0x80000160
    0x007358b7, // lui x17,0x735
    0x04988893, // addi x17,x17,73
    0x00100513, // addi x10,x0,1
    0x00000593, // addi x11,x0,0
    0x00000073, // ecall
    0x00000f93, // addi x31,x0,0
    0x07f51c63, // bne x10,x31,0x80000160
    0x00000f93, // addi x31,x0,0
    0x07f59863, // bne x11,x31,0x80000160
    0x144022f3, // csrrs x5,sip,x0
    0x00200f93, // addi x31,x0,2
    0x07f29263, // bne x5,x31,0x80000160
    0x14401073, // csrrw x0,sip,x0
    0x007358b7, // lui x17,0x735
    0x04988893, // addi x17,x17,73
    0x00000513, // addi x10,x0,0
    0xfff00593, // addi x11,x0,-1
    0x00000073, // ecall
    0x00000f93, // addi x31,x0,0
    0x05f51263, // bne x10,x31,0x80000160
    0x144022f3, // csrrs x5,sip,x0
    0x00200f93, // addi x31,x0,2
    0x03f29c63, // bne x5,x31,0x80000160
    0x14401073, // csrrw x0,sip,x0
    0x00100813, // addi x16,x0,1
    0x007358b7, // lui x17,0x735
    0x04988893, // addi x17,x17,73
    0x00100513, // addi x10,x0,1
    0x00000593, // addi x11,x0,0
    0x00000073, // ecall
    0xffe00f93, // addi x31,x0,-2
    0x01f51a63, // bne x10,x31,0x80000160
    0x144022f3, // csrrs x5,sip,x0
    0x00000f93, // addi x31,x0,0
    0x01f29463, // bne x5,x31,0x80000160
    0x0100006f, // jal x0,0x8000016c
    0x02100513, // addi x10,x0,33
    0x00100893, // addi x17,x0,1
    0x00000073, // ecall
    0x00800893, // addi x17,x0,8
    0x00000073, // ecall
];

const HYPERVISOR_TABLES: [(usize, u64); 0] = [];

const HYPERVISOR_LINES: [&str; 1] = [
    "end 90 shutdown 91fa5a6088c6eec49c5f1c60e22daa13b821a324514d57027f808bd1fb2068fe\n",
];

// What a module may not execute: every SYSTEM instruction, launch, evict, and words that are none.
// Each is tried by a module of its own.
const ILLEGAL_CODE: [u32; 49] = [
    0x00000f97, // auipc x31,0x0
    0x06cf8f93, // addi x31,x31,108
    0x105f9073, // csrrw x0,stvec,x31
    0x14002473, // csrrs x8,sscratch,x0
    0x00b00f93, // addi x31,x0,11
    0x07f40e63, // beq x8,x31,0x80000090
    0x00241493, // slli x9,x8,0x2
    0x00000397, // auipc x7,0x0
    0x07c38393, // addi x7,x7,124
    0x009383b3, // add x7,x7,x9
    0x0003e303, // lwu x6,0(x7)
    0x00c41493, // slli x9,x8,0xc
    0x00010397, // auipc x7,0x10
    0xfd038393, // addi x7,x7,-48
    0x009383b3, // add x7,x7,x9
    0x0063a223, // sw x6,4(x7)
    0x00008497, // auipc x9,0x8
    0xfc048493, // addi x9,x9,-64
    0x0074b823, // sd x7,16(x9)
    0x00c3d313, // srli x6,x7,0xc
    0x0464b823, // sd x6,80(x9)
    0x0004828b, // b.launch x5,x9
    0x00140413, // addi x8,x8,1
    0x02829463, // bne x5,x8,0x80000084
    0x14041073, // csrrw x0,sscratch,x8
    0x0072930b, // b.call x6,x5,x7
    0x01c0006f, // jal x0,0x80000084
    0x142022f3, // csrrs x5,scause,x0
    0x00200f93, // addi x31,x0,2
    0x01f29863, // bne x5,x31,0x80000084
    0x143022f3, // csrrs x5,stval,x0
    0x00029463, // bne x5,x0,0x80000084
    0xf8dff06f, // jal x0,0x8000000c
    0x02100513, // addi x10,x0,33
    0x00100893, // addi x17,x0,1
    0x00000073, // ecall
    0x00800893, // addi x17,x0,8
    0x00000073, // ecall
    0x00000073, // ecall
    0x00100073, // ebreak
    0x10200073, // sret
    0x10500073, // wfi
    0x12000073, // sfence.vma x0,x0
    0xc01022f3, // csrrs x5,time,x0
    0x14001073, // csrrw x0,sscratch,x0
    0x0003028b, // b.launch x5,x6
    0x0003328b, // b.evict x5,x6
    0x00000000, // no instruction
    0xffffffff, // no instruction
];

const ILLEGAL_TABLES: [(usize, u64); 13] = [
    (32768, 0x101010147534e42),
    (32856, 0x501),
    (65536, 0x13),
    (69632, 0x13),
    (73728, 0x13),
    (77824, 0x13),
    (81920, 0x13),
    (86016, 0x13),
    (90112, 0x13),
    (94208, 0x13),
    (98304, 0x13),
    (102400, 0x13),
    (106496, 0x13),
];

const ILLEGAL_LINES: [&str; 45] = [
    "launch 21 0 1 2ea58bd4a18fee733411534257d8a0d16305374e57089f7f99beef2b671ff8d9\n",
    "call 25 0 0 1 0000000080010000\n",
    "stop 27 0 1 0000000080010004\n",
    "trap 27 0 0000000000000002 0000000080010004\n",
    "launch 52 0 2 72e7a2932d1c52e62f105baea201479420853865ce1991325681687ffa4b66e1\n",
    "call 56 0 0 2 0000000080011000\n",
    "stop 58 0 2 0000000080011004\n",
    "trap 58 0 0000000000000002 0000000080011004\n",
    "launch 83 0 3 ca3384896b973f3bb18ae6f86769293c74c6ba4235b621ea2b0ee91c8107e8b3\n",
    "call 87 0 0 3 0000000080012000\n",
    "stop 89 0 3 0000000080012004\n",
    "trap 89 0 0000000000000002 0000000080012004\n",
    "launch 114 0 4 f97e7047fb21b21eb8fc2d1f15c001ce0072b5f1aaeeaf064558e1ea4de25a74\n",
    "call 118 0 0 4 0000000080013000\n",
    "stop 120 0 4 0000000080013004\n",
    "trap 120 0 0000000000000002 0000000080013004\n",
    "launch 145 0 5 7a1810058944e4b11d0cdef6ea557ce908f570d7e9b30870e4638767815f4522\n",
    "call 149 0 0 5 0000000080014000\n",
    "stop 151 0 5 0000000080014004\n",
    "trap 151 0 0000000000000002 0000000080014004\n",
    "launch 176 0 6 1167ea1651663ab8615bf23322b31033c8bb65f8aaa6e2b05218cdb2161748a2\n",
    "call 180 0 0 6 0000000080015000\n",
    "stop 182 0 6 0000000080015004\n",
    "trap 182 0 0000000000000002 0000000080015004\n",
    "launch 207 0 7 b8f8257c092c9f87469ff7eb749208c3708f2b0118f197375bababfffb58e241\n",
    "call 211 0 0 7 0000000080016000\n",
    "stop 213 0 7 0000000080016004\n",
    "trap 213 0 0000000000000002 0000000080016004\n",
    "launch 238 0 8 9e0db2ff9fe4b401e728a1e9b5711c79d266436bfe0b8fc3c26cb36fccab27c1\n",
    "call 242 0 0 8 0000000080017000\n",
    "stop 244 0 8 0000000080017004\n",
    "trap 244 0 0000000000000002 0000000080017004\n",
    "launch 269 0 9 0a41633d2cc670eb782dc908185d2f2b1cb14d4d82fbfb067e9881e2fcf2252c\n",
    "call 273 0 0 9 0000000080018000\n",
    "stop 275 0 9 0000000080018004\n",
    "trap 275 0 0000000000000002 0000000080018004\n",
    "launch 300 0 10 422a64d99e50fb44faafff077ce350bd5eafb89ae1f25a9d6405afbd2abcf492\n",
    "call 304 0 0 10 0000000080019000\n",
    "stop 306 0 10 0000000080019004\n",
    "trap 306 0 0000000000000002 0000000080019004\n",
    "launch 331 0 11 3aca593cd43db01cf984146c22554b11b10863ed6e448098d65639fc3d732d4f\n",
    "call 335 0 0 11 000000008001a000\n",
    "stop 337 0 11 000000008001a004\n",
    "trap 337 0 0000000000000002 000000008001a004\n",
    "end 349 shutdown 4386c2f54b7529f3b9f1b312b7154b60f1390a53107817bbbb813877f639d485\n",
];

// A module's declared page is led to a page that is nobody's: the module doesn't get it.
const LED_ELSEWHERE_CODE: [u32; 38] = [
    0x00000f97, // auipc x31,0x0
    0x060f8f93, // addi x31,x31,96
    0x105f9073, // csrrw x0,stvec,x31
    0x00000f97, // auipc x31,0x0
    0x3f4f8f93, // addi x31,x31,1012
    0x000fbf83, // ld x31,0(x31)
    0x180f9073, // csrrw x0,satp,x31
    0x00008397, // auipc x7,0x8
    0xfe438393, // addi x7,x7,-28
    0x0003840b, // b.launch x8,x7
    0x00100f93, // addi x31,x0,1
    0x05f41c63, // bne x8,x31,0x80000084
    0x00003397, // auipc x7,0x3
    0xfd038393, // addi x7,x7,-48
    0x0a03b303, // ld x6,160(x7)
    0x0863b423, // sd x6,136(x7)
    0x00010497, // auipc x9,0x10
    0xfc048493, // addi x9,x9,-64
    0x00012517, // auipc x10,0x12
    0xfb050513, // addi x10,x10,-80
    0x0094128b, // b.call x5,x8,x9
    0x06300f93, // addi x31,x0,99
    0x03f51663, // bne x10,x31,0x80000084
    0x0340006f, // jal x0,0x80000090
    0x143022f3, // csrrs x5,stval,x0
    0x00011317, // auipc x6,0x11
    0xf9c30313, // addi x6,x6,-100
    0x00629c63, // bne x5,x6,0x80000084
    0x00003397, // auipc x7,0x3
    0xf9038393, // addi x7,x7,-112
    0x0a83b303, // ld x6,168(x7)
    0x0863b423, // sd x6,136(x7)
    0x10200073, // sret
    0x02100513, // addi x10,x0,33
    0x00100893, // addi x17,x0,1
    0x00000073, // ecall
    0x00800893, // addi x17,x0,8
    0x00000073, // ecall
];

const LED_ELSEWHERE_TABLES: [(usize, u64); 21] = [
    (1024, 0x8000000000080001),
    (4112, 0x20000801),
    (8192, 0x20000c01),
    (12288, 0x200000cf),
    (12296, 0x200004cf),
    (12304, 0x200008cf),
    (12312, 0x20000ccf),
    (12352, 0x200020cf),
    (12416, 0x200040cf),
    (12424, 0x200044cf),
    (12448, 0x200050cf),
    (12456, 0x200044cf),
    (32768, 0x201010147534e42),
    (32784, 0x80010000),
    (32848, 0x80010),
    (32856, 0x501),
    (32864, 0x80011),
    (32872, 0x301),
    (65536, 0x200b00053503),
    (73720, 0x63),
    (86008, 0xb),
];

const LED_ELSEWHERE_LINES: [&str; 8] = [
    "launch 9 0 1 09d2767ab1020b2c2fc8165130d7b608991f735ec39981f54d00dc49ad09637c\n",
    "call 20 0 0 1 0000000080010000\n",
    "deny 21 0 1 load 0000000080011\n",
    "stop 21 0 1 0000000080010000\n",
    "trap 21 0 0000000000000005 0000000080010000\n",
    "resume 31 0 1 0000000080010000\n",
    "ret 33 0 1 0 0000000080000054\n",
    "end 39 shutdown 39ec5a8670ccd9605f1b34977af187fc167802072fc35193882d033e0e8c06a2\n",
];

// A misaligned load in a module: it is stopped, and of its address only the page is told.
const MISALIGNED_LOAD_CODE: [u32; 25] = [
    0x00000f97, // auipc x31,0x0
    0x030f8f93, // addi x31,x31,48
    0x105f9073, // csrrw x0,stvec,x31
    0x00008397, // auipc x7,0x8
    0xff438393, // addi x7,x7,-12
    0x0003828b, // b.launch x5,x7
    0x00010497, // auipc x9,0x10
    0xfe848493, // addi x9,x9,-24
    0x10000517, // auipc x10,0x10000
    0x10350513, // addi x10,x10,259
    0x0092928b, // b.call x5,x5,x9
    0x0240006f, // jal x0,0x80000050
    0x143022f3, // csrrs x5,stval,x0
    0x10000317, // auipc x6,0x10000
    0xfcc30313, // addi x6,x6,-52
    0x00629a63, // bne x5,x6,0x80000050
    0x142022f3, // csrrs x5,scause,x0
    0x00400f93, // addi x31,x0,4
    0x01f29463, // bne x5,x31,0x80000050
    0x0100006f, // jal x0,0x8000005c
    0x02100513, // addi x10,x0,33
    0x00100893, // addi x17,x0,1
    0x00000073, // ecall
    0x00800893, // addi x17,x0,8
    0x00000073, // ecall
];

const MISALIGNED_LOAD_TABLES: [(usize, u64); 8] = [
    (32768, 0x201010147534e42),
    (32784, 0x80010000),
    (32848, 0x80010),
    (32856, 0x501),
    (32864, 0x80011),
    (32872, 0x301),
    (65536, 0x1300000013),
    (65544, 0x53283),
];

const MISALIGNED_LOAD_LINES: [&str; 5] = [
    "launch 5 0 1 62ea6d59c0905be541e5c538516e0b9e67b872fe793a2f64c61d3f92164f45bb\n",
    "call 10 0 0 1 0000000080010000\n",
    "stop 13 0 1 0000000080010008\n",
    "trap 13 0 0000000000000004 0000000080010008\n",
    "end 24 shutdown a5eb2e513e914df46e04ee744d4ef4f0ee31439d99b7a7c6639f805aa12e60a9\n",
];

// What a module reaches: its own pages by their rights, and to load and store all that is nobody's.
// It executes its own code alone.
const MODULE_ACCESSES_CODE: [u32; 51] = [
    0x00000f97, // auipc x31,0x0
    0x0b0f8f93, // addi x31,x31,176
    0x105f9073, // csrrw x0,stvec,x31
    0x00008397, // auipc x7,0x8
    0xff438393, // addi x7,x7,-12
    0x0003828b, // b.launch x5,x7
    0x00009397, // auipc x7,0x9
    0xfe838393, // addi x7,x7,-24
    0x0003830b, // b.launch x6,x7
    0x00200f93, // addi x31,x0,2
    0x09f31863, // bne x6,x31,0x800000b8
    0x00010497, // auipc x9,0x10
    0xfd448493, // addi x9,x9,-44
    0x00011517, // auipc x10,0x11
    0xfcc50513, // addi x10,x10,-52
    0x00018597, // auipc x11,0x18
    0xfc458593, // addi x11,x11,-60
    0x00012617, // auipc x12,0x12
    0xfbc60613, // addi x12,x12,-68
    0x00000f97, // auipc x31,0x0
    0x014f8f93, // addi x31,x31,20
    0x140f9073, // csrrw x0,sscratch,x31
    0x0092938b, // b.call x7,x5,x9
    0x05c0006f, // jal x0,0x800000b8
    0x00018397, // auipc x7,0x18
    0xfa038393, // addi x7,x7,-96
    0x0003b303, // ld x6,0(x7)
    0x05800f93, // addi x31,x0,88
    0x05f31463, // bne x6,x31,0x800000b8
    0x00200313, // addi x6,x0,2
    0x00012497, // auipc x9,0x12
    0xf8848493, // addi x9,x9,-120
    0x00000517, // auipc x10,0x0
    0xf8050513, // addi x10,x10,-128
    0x00000f97, // auipc x31,0x0
    0x014f8f93, // addi x31,x31,20
    0x140f9073, // csrrw x0,sscratch,x31
    0x0093138b, // b.call x7,x6,x9
    0x0200006f, // jal x0,0x800000b8
    0x143022f3, // csrrs x5,stval,x0
    0x00000317, // auipc x6,0x0
    0xf6030313, // addi x6,x6,-160
    0x00629863, // bne x5,x6,0x800000b8
    0x0180006f, // jal x0,0x800000c4
    0x14002ff3, // csrrs x31,sscratch,x0
    0x000f8067, // jalr x0,0(x31)
    0x02100513, // addi x10,x0,33
    0x00100893, // addi x17,x0,1
    0x00000073, // ecall
    0x00800893, // addi x17,x0,8
    0x00000073, // ecall
];

const MODULE_ACCESSES_TABLES: [(usize, u64); 16] = [
    (32768, 0x201010147534e42),
    (32784, 0x80010000),
    (32848, 0x80010),
    (32856, 0x501),
    (32864, 0x80011),
    (32872, 0x301),
    (36864, 0x101010147534e42),
    (36880, 0x80012000),
    (36944, 0x80012),
    (36952, 0x401),
    (65536, 0xb3031300053303),
    (65544, 0x5338300653023),
    (65552, 0x4970075b023),
    (65560, 0x54a0230004a283),
    (69632, 0x4d),
    (73728, 0x50067),
];

const MODULE_ACCESSES_LINES: [&str; 11] = [
    "launch 5 0 1 0fafddad3afc466f1a56b4d6eebe2d39456b16f724b53ecfae2d3894ad34b6ab\n",
    "launch 8 0 2 24513128ecf1e6eee796ee96c48532c94a33bb17d13a42857539ed1a500a50b2\n",
    "call 22 0 0 1 0000000080010000\n",
    "deny 30 0 1 store 0000000080010\n",
    "stop 30 0 1 000000008001001c\n",
    "trap 30 0 0000000000000007 000000008001001c\n",
    "call 46 0 0 2 0000000080012000\n",
    "deny 48 0 2 fetch 0000000080000\n",
    "stop 48 0 2 0000000080000000\n",
    "trap 48 0 0000000000000001 0000000080000000\n",
    "end 58 shutdown 1105d5ad6351a7f0fd3610da98f6890ca8f1f6097142704f97cc0769b9955dc5\n",
];

// The module that offers a page is evicted: who accepted it has it no more, is told that nobody
// offers it, and keeps it from others until it goes too. The page has been zeros since.
const OFFERER_GONE_CODE: [u32; 50] = [
    0x00000f97, // auipc x31,0x0
    0x06cf8f93, // addi x31,x31,108
    0x105f9073, // csrrw x0,stvec,x31
    0x00008397, // auipc x7,0x8
    0xff438393, // addi x7,x7,-12
    0x0003828b, // b.launch x5,x7
    0x00100f93, // addi x31,x0,1
    0x09f29c63, // bne x5,x31,0x800000b4
    0x00009397, // auipc x7,0x9
    0xfe038393, // addi x7,x7,-32
    0x0003830b, // b.launch x6,x7
    0x00200f93, // addi x31,x0,2
    0x09f31263, // bne x6,x31,0x800000b4
    0x0002b28b, // b.evict x5,x5
    0x00000f93, // addi x31,x0,0
    0x07f29c63, // bne x5,x31,0x800000b4
    0x00008397, // auipc x7,0x8
    0x49038393, // addi x7,x7,1168
    0x0003828b, // b.launch x5,x7
    0xffc00f93, // addi x31,x0,-4
    0x07f29263, // bne x5,x31,0x800000b4
    0x00014517, // auipc x10,0x14
    0xfac50513, // addi x10,x10,-84
    0x00011497, // auipc x9,0x11
    0xfa448493, // addi x9,x9,-92
    0x0093138b, // b.call x7,x6,x9
    0x04c0006f, // jal x0,0x800000b4
    0x00008397, // auipc x7,0x8
    0x46438393, // addi x7,x7,1124
    0x0003828b, // b.launch x5,x7
    0xffc00f93, // addi x31,x0,-4
    0x03f29c63, // bne x5,x31,0x800000b4
    0x00200293, // addi x5,x0,2
    0x0002b28b, // b.evict x5,x5
    0x00000f93, // addi x31,x0,0
    0x03f29463, // bne x5,x31,0x800000b4
    0x00014317, // auipc x6,0x14
    0xf7030313, // addi x6,x6,-144
    0x00033283, // ld x5,0(x6)
    0x00000f93, // addi x31,x0,0
    0x01f29a63, // bne x5,x31,0x800000b4
    0x0003828b, // b.launch x5,x7
    0x00300f93, // addi x31,x0,3
    0x01f29463, // bne x5,x31,0x800000b4
    0x0100006f, // jal x0,0x800000c0
    0x02100513, // addi x10,x0,33
    0x00100893, // addi x17,x0,1
    0x00000073, // ecall
    0x00800893, // addi x17,x0,8
    0x00000073, // ecall
];

const OFFERER_GONE_TABLES: [(usize, u64); 26] = [
    (32768, 0x201010147534e42),
    (32776, 0x1),
    (32784, 0x80010000),
    (32848, 0x80010),
    (32856, 0x501),
    (32864, 0x80014),
    (32872, 0x10302),
    (33872, 0xe32cb182c2a6d3a8),
    (33880, 0xa7abe3c1a91eceab),
    (33888, 0x554efb3f053139eb),
    (33896, 0x5303f1ec2099de4a),
    (34000, 0x201010147534e42),
    (34016, 0x80012000),
    (34080, 0x80012),
    (34088, 0x501),
    (34096, 0x80014),
    (34104, 0x301),
    (36864, 0x201010147534e42),
    (36880, 0x80011000),
    (36944, 0x80011),
    (36952, 0x501),
    (36960, 0x80014),
    (36968, 0x103),
    (69632, 0x396630005638b),
    (69640, 0x5328300000013),
    (81920, 0x5555),
];

const OFFERER_GONE_LINES: [&str; 12] = [
    "launch 5 0 1 222bb5a8dc9e5a0b5dfea241e60ee1a224cb011edb761a354a045424ed00174e\n",
    "launch 10 0 2 a8d3a6c282b12ce3abce1ea9c1e3aba7eb3931053ffb4e554ade9920ecf10353\n",
    "evict 13 0 1 1\n",
    "refuse 18 0 launch -4\n",
    "call 25 0 0 2 0000000080011000\n",
    "deny 29 0 2 load 0000000080014\n",
    "stop 29 0 2 000000008001100c\n",
    "trap 29 0 0000000000000005 000000008001100c\n",
    "refuse 32 0 launch -4\n",
    "evict 36 0 2 1\n",
    "launch 44 0 3 35c97703495ffce6667478e945fdccfbafbcf4cc0b7cb8535284752342805d6c\n",
    "end 50 shutdown 5306d2e14b714e1f56c91ae792494e275fafb7c63fe4654251c70a4aadf7c9bc\n",
];

// A module jumps to its data, and another to nobody's page: neither may be executed by it, so it is
// stopped there. A return to that place doesn't resume it: the data stay denied, and nobody's page
// is just executed. A module that was stopped there can only be evicted.
const STOPPED_OUTSIDE_CODE: [u32; 56] = [
    0x00000f97, // auipc x31,0x0
    0x0c4f8f93, // addi x31,x31,196
    0x105f9073, // csrrw x0,stvec,x31
    0x00008397, // auipc x7,0x8
    0xff438393, // addi x7,x7,-12
    0x0003828b, // b.launch x5,x7
    0x00100f93, // addi x31,x0,1
    0x0bf29863, // bne x5,x31,0x800000cc
    0x00009397, // auipc x7,0x9
    0xfe038393, // addi x7,x7,-32
    0x0003830b, // b.launch x6,x7
    0x00200f93, // addi x31,x0,2
    0x09f31e63, // bne x6,x31,0x800000cc
    0x00010497, // auipc x9,0x10
    0xfcc48493, // addi x9,x9,-52
    0x00011517, // auipc x10,0x11
    0xfc450513, // addi x10,x10,-60
    0x00000f97, // auipc x31,0x0
    0x010f8f93, // addi x31,x31,16
    0x140f9073, // csrrw x0,sscratch,x31
    0x0092938b, // b.call x7,x5,x9
    0x00000f97, // auipc x31,0x0
    0x010f8f93, // addi x31,x31,16
    0x140f9073, // csrrw x0,sscratch,x31
    0x10200073, // sret
    0x00200313, // addi x6,x0,2
    0x00012497, // auipc x9,0x12
    0xf9848493, // addi x9,x9,-104
    0x00013517, // auipc x10,0x13
    0xf9050513, // addi x10,x10,-112
    0x00000f97, // auipc x31,0x0
    0x010f8f93, // addi x31,x31,16
    0x140f9073, // csrrw x0,sscratch,x31
    0x0093138b, // b.call x7,x6,x9
    0x00000f97, // auipc x31,0x0
    0x010f8f93, // addi x31,x31,16
    0x140f9073, // csrrw x0,sscratch,x31
    0x10200073, // sret
    0x02100f93, // addi x31,x0,33
    0x03f91863, // bne x18,x31,0x800000cc
    0x00100293, // addi x5,x0,1
    0x0002b28b, // b.evict x5,x5
    0x00000f93, // addi x31,x0,0
    0x03f29063, // bne x5,x31,0x800000cc
    0x00200293, // addi x5,x0,2
    0x0002b28b, // b.evict x5,x5
    0x00000f93, // addi x31,x0,0
    0x01f29863, // bne x5,x31,0x800000cc
    0x0180006f, // jal x0,0x800000d8
    0x14002ff3, // csrrs x31,sscratch,x0
    0x000f8067, // jalr x0,0(x31)
    0x02100513, // addi x10,x0,33
    0x00100893, // addi x17,x0,1
    0x00000073, // ecall
    0x00800893, // addi x17,x0,8
    0x00000073, // ecall
];

const STOPPED_OUTSIDE_TABLES: [(usize, u64); 14] = [
    (32768, 0x201010147534e42),
    (32784, 0x80010000),
    (32848, 0x80010),
    (32856, 0x501),
    (32864, 0x80011),
    (32872, 0x301),
    (36864, 0x101010147534e42),
    (36880, 0x80012000),
    (36944, 0x80012),
    (36952, 0x501),
    (65536, 0x50067),
    (69632, 0x2c00913),
    (73728, 0x50067),
    (77824, 0x10007302100913),
];

const STOPPED_OUTSIDE_LINES: [&str; 16] = [
    "launch 5 0 1 db7fa4850328f666a11318072ac5d1e7f82ac76c344a57533dd66717044aac80\n",
    "launch 10 0 2 f533d19647adc4b5b2aff4ffb7491341c951470c0cda346884ca3178d31e3c55\n",
    "call 20 0 0 1 0000000080010000\n",
    "deny 22 0 1 fetch 0000000080011\n",
    "stop 22 0 1 0000000080011000\n",
    "trap 22 0 0000000000000001 0000000080011000\n",
    "deny 29 0 0 fetch 0000000080011\n",
    "trap 29 0 0000000000000001 0000000080011000\n",
    "call 40 0 0 2 0000000080012000\n",
    "deny 42 0 2 fetch 0000000080013\n",
    "stop 42 0 2 0000000080013000\n",
    "trap 42 0 0000000000000001 0000000080013000\n",
    "trap 50 0 0000000000000003 0000000080013004\n",
    "evict 56 0 1 1\n",
    "evict 60 0 2 1\n",
    "end 66 shutdown 3057a1f6a9caceb4f9d05607b7f085703484a4a7868493c8e913bfcf42369ea9\n",
];

// A timer stops a module whose registers are their numbers. No register is left, and the status
// tells that interrupts were enabled in mode S. A return to the module's pc resumes it, and every
// register is back.
const TIMER_CODE: [u32; 25] = [
    0x00001f97, // auipc x31,0x1
    0x000f8f93, // addi x31,x31,0
    0x105f9073, // csrrw x0,stvec,x31
    0x00008397, // auipc x7,0x8
    0xff438393, // addi x7,x7,-12
    0x0003890b, // b.launch x18,x7
    0x00010497, // auipc x9,0x10
    0xfe848493, // addi x9,x9,-24
    0x10405073, // csrrwi x0,sie,0
    0x02000293, // addi x5,x0,32
    0x1042a073, // csrrs x0,sie,x5
    0x10016073, // csrrsi x0,sstatus,2
    0xc0102573, // csrrs x10,time,x0
    0x02650513, // addi x10,x10,38
    0x00000893, // addi x17,x0,0
    0x00000073, // ecall
    0x0099128b, // b.call x5,x18,x9
    0x00100f93, // addi x31,x0,1
    0x01f51463, // bne x10,x31,0x80000050
    0x0100006f, // jal x0,0x8000005c
    0x02100513, // addi x10,x0,33
    0x00100893, // addi x17,x0,1
    0x00000073, // ecall
    0x00800893, // addi x17,x0,8
    0x00000073, // ecall
];

const TIMER_TABLES: [(usize, u64); 84] = [
    (4096, 0x30e0b30020e0b3),
    (4104, 0x50e0b30040e0b3),
    (4112, 0x70e0b30060e0b3),
    (4120, 0x90e0b30080e0b3),
    (4128, 0xb0e0b300a0e0b3),
    (4136, 0xd0e0b300c0e0b3),
    (4144, 0xf0e0b300e0e0b3),
    (4152, 0x110e0b30100e0b3),
    (4160, 0x130e0b30120e0b3),
    (4168, 0x150e0b30140e0b3),
    (4176, 0x170e0b30160e0b3),
    (4184, 0x190e0b30180e0b3),
    (4192, 0x1b0e0b301a0e0b3),
    (4200, 0x1d0e0b301c0e0b3),
    (4208, 0x1f0e0b301e0e0b3),
    (4216, 0xfd5fe06f00008463),
    (4224, 0x28463143022f3),
    (4232, 0x144022f3fc9fe06f),
    (4240, 0x1f2846302000f93),
    (4248, 0x100022f3fb9fe06f),
    (4256, 0x12000f931222f293),
    (4264, 0xfa5fe06f01f28463),
    (4272, 0x129313142022f3),
    (4280, 0x1f3046300a00f93),
    (4288, 0x2c463f91fe06f),
    (4296, 0xfff00513f89fe06f),
    (4304, 0x7300000893),
    (4312, 0x10200073),
    (32768, 0x201010147534e42),
    (32784, 0x80010000),
    (32848, 0x80010),
    (32856, 0x501),
    (32864, 0x80011),
    (32872, 0x301),
    (65536, 0x1100006f),
    (65544, 0xe009e63fff08093),
    (65552, 0xe011a63ffe10113),
    (65560, 0xe019663ffd18193),
    (65568, 0xe021263ffc20213),
    (65576, 0xc029e63ffb28293),
    (65584, 0xc031a63ffa30313),
    (65592, 0xc039663ff938393),
    (65600, 0xc041263ff840413),
    (65608, 0xa049e63ff748493),
    (65616, 0xa051a63ff650513),
    (65624, 0xa059663ff558593),
    (65632, 0xa061263ff460613),
    (65640, 0x8069e63ff368693),
    (65648, 0x8071a63ff270713),
    (65656, 0x8079663ff178793),
    (65664, 0x8081263ff080813),
    (65672, 0x6089e63fef88893),
    (65680, 0x6091a63fee90913),
    (65688, 0x6099663fed98993),
    (65696, 0x60a1263feca0a13),
    (65704, 0x40a9e63feba8a93),
    (65712, 0x40b1a63feab0b13),
    (65720, 0x40b9663fe9b8b93),
    (65728, 0x40c1263fe8c0c13),
    (65736, 0x20c9e63fe7c8c93),
    (65744, 0x20d1a63fe6d0d13),
    (65752, 0x20d9663fe5d8d93),
    (65760, 0x20e1263fe4e0e13),
    (65768, 0xe9e63fe3e8e93),
    (65776, 0xf1a63fe2f0f13),
    (65784, 0xf9663fe1f8f93),
    (65792, 0x200b00100513),
    (65800, 0x200bfff00513),
    (65808, 0x20011300100093),
    (65816, 0x40021300300193),
    (65824, 0x60031300500293),
    (65832, 0x80041300700393),
    (65840, 0xa0051300900493),
    (65848, 0xc0061300b00593),
    (65856, 0xe0071300d00693),
    (65864, 0x100081300f00793),
    (65872, 0x120091301100893),
    (65880, 0x1400a1301300993),
    (65888, 0x1600b1301500a93),
    (65896, 0x1800c1301700b93),
    (65904, 0x1a00d1301900c93),
    (65912, 0x1c00e1301b00d93),
    (65920, 0x1e00f1301d00e93),
    (65928, 0xe7dff06f01f00f93),
];

const TIMER_LINES: [&str; 7] = [
    "launch 5 0 1 ac3b0b1ba3315fea0940e80a100ff9e7cd273831f3ebbb06b13ba2f543b426b9\n",
    "call 16 0 0 1 0000000080010000\n",
    "stop 50 0 1 0000000080010008\n",
    "trap 50 0 8000000000000005 0000000080010008\n",
    "resume 100 0 1 0000000080010008\n",
    "ret 164 0 1 0 0000000080000044\n",
    "end 170 shutdown 1216cc1ef022c3f5f27a4378fe1cfee8638fef92f5d1e6406154efccfa97f5f6\n",
];

// A module is called while its code is mapped nowhere: it is stopped at its entry by a page fault.
// Once the code is mapped, a return to the entry resumes it.
const UNMAPPED_ENTRY_CODE: [u32; 34] = [
    0x00000f97, // auipc x31,0x0
    0x054f8f93, // addi x31,x31,84
    0x105f9073, // csrrw x0,stvec,x31
    0x00000f97, // auipc x31,0x0
    0x3f4f8f93, // addi x31,x31,1012
    0x000fbf83, // ld x31,0(x31)
    0x180f9073, // csrrw x0,satp,x31
    0x00009397, // auipc x7,0x9
    0xfe438393, // addi x7,x7,-28
    0x0003840b, // b.launch x8,x7
    0x00100f93, // addi x31,x0,1
    0x05f41463, // bne x8,x31,0x80000074
    0x00003397, // auipc x7,0x3
    0x05038393, // addi x7,x7,80
    0x0003b303, // ld x6,0(x7)
    0x0003b023, // sd x0,0(x7)
    0x000104b7, // lui x9,0x10
    0x0094128b, // b.call x5,x8,x9
    0x00700f93, // addi x31,x0,7
    0x03f51463, // bne x10,x31,0x80000074
    0x0300006f, // jal x0,0x80000080
    0x143022f3, // csrrs x5,stval,x0
    0x00010337, // lui x6,0x10
    0x00629c63, // bne x5,x6,0x80000074
    0x00003397, // auipc x7,0x3
    0x02038393, // addi x7,x7,32
    0x0083b303, // ld x6,8(x7)
    0x0063b023, // sd x6,0(x7)
    0x10200073, // sret
    0x02100513, // addi x10,x0,33
    0x00100893, // addi x17,x0,1
    0x00000073, // ecall
    0x00800893, // addi x17,x0,8
    0x00000073, // ecall
];

const UNMAPPED_ENTRY_TABLES: [(usize, u64); 11] = [
    (1024, 0x8000000000080001),
    (4096, 0x20000801),
    (4112, 0x200000cf),
    (8192, 0x20000c01),
    (12416, 0x200040cf),
    (12424, 0x200040cf),
    (36864, 0x101010147534e42),
    (36880, 0x10000),
    (36944, 0x10),
    (36952, 0x501),
    (65536, 0x200b00700513),
];

const UNMAPPED_ENTRY_LINES: [&str; 7] = [
    "launch 9 0 1 20e3a0403d0fd06614019efa080efeff8c5471cdfe399b343e25590c6392ccdc\n",
    "call 17 0 0 1 0000000000010000\n",
    "stop 18 0 1 0000000000010000\n",
    "trap 18 0 000000000000000c 0000000000010000\n",
    "resume 27 0 1 0000000000010000\n",
    "ret 29 0 1 0 0000000080000048\n",
    "end 35 shutdown f9741e0f703bdd8cd5eda696f6f7ca7d987c0a0448d876773d0810797f7f1504\n",
];

// Mode U may use b.call, and is refused as there is no such module.
const USER_CALL_CODE: [u32; 7] = [
    0x00000417, // auipc x8,0x0
    0x00000297, // auipc x5,0x0
    0x01028293, // addi x5,x5,16
    0x14129073, // csrrw x0,sepc,x5
    0x10200073, // sret
    0x0073128b, // b.call x5,x6,x7
    0x00000073, // ecall
];

const USER_CALL_TABLES: [(usize, u64); 0] = [];

const USER_CALL_LINES: [&str; 5] = [
    "refuse 5 0 call -1\n",
    "trap 6 0 0000000000000008 0000000080000018\n",
    "trap 7 0 0000000000000001 0000000000000000\n",
    "trap 8 0 0000000000000001 0000000000000000\n",
    "end 9 limit 4be4c08e061e14e48132a0cc76cff5f57ad695eeb674470027c23f1c25600e42\n",
];

// Mode U may use b.ident, and gets 0 as there is no such module.
const USER_IDENT_CODE: [u32; 7] = [
    0x00000417, // auipc x8,0x0
    0x00000297, // auipc x5,0x0
    0x01028293, // addi x5,x5,16
    0x14129073, // csrrw x0,sepc,x5
    0x10200073, // sret
    0x0073428b, // b.ident x5,x6,x7
    0x00000073, // ecall
];

const USER_IDENT_TABLES: [(usize, u64); 0] = [];

const USER_IDENT_LINES: [&str; 4] = [
    "trap 6 0 0000000000000008 0000000080000018\n",
    "trap 7 0 0000000000000001 0000000000000000\n",
    "trap 8 0 0000000000000001 0000000000000000\n",
    "end 9 limit 5f3462e9baee37815542e46c109e0efb60261d52725e5e478e3e59493a27674e\n",
];

// A stopped module is resumed at its pc, in its mode, by its page at the page's own address, and
// not otherwise: elsewhere the fetch is denied, and another page there is just executed.
const WRONG_RESUMPTION_CODE: [u32; 96] = [
    0x00000f97, // auipc x31,0x0
    0x164f8f93, // addi x31,x31,356
    0x105f9073, // csrrw x0,stvec,x31
    0x00008397, // auipc x7,0x8
    0xff438393, // addi x7,x7,-12
    0x0003840b, // b.launch x8,x7
    0x00010497, // auipc x9,0x10
    0xfe848493, // addi x9,x9,-24
    0x00000f97, // auipc x31,0x0
    0x010f8f93, // addi x31,x31,16
    0x140f9073, // csrrw x0,sscratch,x31
    0x0094128b, // b.call x5,x8,x9
    0x00000f97, // auipc x31,0x0
    0x024f8f93, // addi x31,x31,36
    0x140f9073, // csrrw x0,sscratch,x31
    0x00010397, // auipc x7,0x10
    0xfd038393, // addi x7,x7,-48
    0x14139073, // csrrw x0,sepc,x7
    0x10000393, // addi x7,x0,256
    0x1003a073, // csrrs x0,sstatus,x7
    0x10200073, // sret
    0x00000f97, // auipc x31,0x0
    0x3acf8f93, // addi x31,x31,940
    0x000fbf83, // ld x31,0(x31)
    0x180f9073, // csrrw x0,satp,x31
    0x00000f97, // auipc x31,0x0
    0x024f8f93, // addi x31,x31,36
    0x140f9073, // csrrw x0,sscratch,x31
    0x00030397, // auipc x7,0x30
    0xf9838393, // addi x7,x7,-104
    0x14139073, // csrrw x0,sepc,x7
    0x10000393, // addi x7,x0,256
    0x1003a073, // csrrs x0,sstatus,x7
    0x10200073, // sret
    0x00003397, // auipc x7,0x3
    0xf7838393, // addi x7,x7,-136
    0x0a03b303, // ld x6,160(x7)
    0x0863b023, // sd x6,128(x7)
    0x00000f97, // auipc x31,0x0
    0x024f8f93, // addi x31,x31,36
    0x140f9073, // csrrw x0,sscratch,x31
    0x00010397, // auipc x7,0x10
    0xf6438393, // addi x7,x7,-156
    0x14139073, // csrrw x0,sepc,x7
    0x10000393, // addi x7,x0,256
    0x1003a073, // csrrs x0,sstatus,x7
    0x10200073, // sret
    0x01400f93, // addi x31,x0,20
    0x0bf51663, // bne x10,x31,0x8000016c
    0x00003397, // auipc x7,0x3
    0xf3c38393, // addi x7,x7,-196
    0x0a83b303, // ld x6,168(x7)
    0x0863b023, // sd x6,128(x7)
    0x00000f97, // auipc x31,0x0
    0x024f8f93, // addi x31,x31,36
    0x140f9073, // csrrw x0,sscratch,x31
    0x00010397, // auipc x7,0x10
    0xf2838393, // addi x7,x7,-216
    0x14139073, // csrrw x0,sepc,x7
    0x10000393, // addi x7,x0,256
    0x1003a073, // csrrs x0,sstatus,x7
    0x10200073, // sret
    0x00003397, // auipc x7,0x3
    0xf0838393, // addi x7,x7,-248
    0x0783b303, // ld x6,120(x7)
    0x0863b023, // sd x6,128(x7)
    0x00000f97, // auipc x31,0x0
    0x024f8f93, // addi x31,x31,36
    0x140f9073, // csrrw x0,sscratch,x31
    0x00010397, // auipc x7,0x10
    0xef438393, // addi x7,x7,-268
    0x14139073, // csrrw x0,sepc,x7
    0x10000393, // addi x7,x0,256
    0x1003b073, // csrrc x0,sstatus,x7
    0x10200073, // sret
    0x00003397, // auipc x7,0x3
    0xed438393, // addi x7,x7,-300
    0x1803b303, // ld x6,384(x7)
    0x0863b023, // sd x6,128(x7)
    0x00000f97, // auipc x31,0x0
    0x024f8f93, // addi x31,x31,36
    0x140f9073, // csrrw x0,sscratch,x31
    0x00010397, // auipc x7,0x10
    0xec038393, // addi x7,x7,-320
    0x14139073, // csrrw x0,sepc,x7
    0x10000393, // addi x7,x0,256
    0x1003a073, // csrrs x0,sstatus,x7
    0x10200073, // sret
    0x0180006f, // jal x0,0x80000178
    0x14002ff3, // csrrs x31,sscratch,x0
    0x000f8067, // jalr x0,0(x31)
    0x02100513, // addi x10,x0,33
    0x00100893, // addi x17,x0,1
    0x00000073, // ecall
    0x00800893, // addi x17,x0,8
    0x00000073, // ecall
];

const WRONG_RESUMPTION_TABLES: [(usize, u64); 21] = [
    (1024, 0x8000000000080001),
    (4112, 0x20000801),
    (8192, 0x20000c01),
    (12288, 0x200000cf),
    (12296, 0x200004cf),
    (12304, 0x200008cf),
    (12312, 0x20000ccf),
    (12408, 0x200040df),
    (12416, 0x200040cf),
    (12448, 0x200050cf),
    (12456, 0x200044cf),
    (12672, 0x200040cf),
    (32768, 0x201010147534e42),
    (32784, 0x80010000),
    (32848, 0x80010),
    (32856, 0x501),
    (32864, 0x80011),
    (32872, 0x301),
    (65536, 0x1300000013),
    (81928, 0x1301400513),
    (81936, 0x100073),
];

const WRONG_RESUMPTION_LINES: [&str; 17] = [
    "launch 5 0 1 aa2c6102dfb03cfb5899c0a77d9b7f46f38a6b106e408aa3c0f6097f7db5275a\n",
    "call 11 0 0 1 0000000080010000\n",
    "stop 14 0 1 0000000080010008\n",
    "trap 14 0 0000000000000002 0000000080010008\n",
    "deny 26 0 0 fetch 0000000080010\n",
    "trap 26 0 0000000000000001 000000008001000c\n",
    "deny 42 0 0 fetch 0000000080030\n",
    "trap 42 0 0000000000000001 0000000080030008\n",
    "trap 60 0 0000000000000003 0000000080010010\n",
    "deny 78 0 0 fetch 0000000080010\n",
    "trap 78 0 0000000000000001 0000000080010008\n",
    "deny 94 0 0 fetch 0000000080010\n",
    "trap 94 0 0000000000000001 0000000080010008\n",
    "resume 110 0 1 0000000080010008\n",
    "stop 111 0 1 0000000080010008\n",
    "trap 111 0 0000000000000002 0000000080010008\n",
    "end 117 shutdown f710794b7c9fbac4722b8353a24cb31b7604a68d2be2557eebe6eac43a24b941\n",
];

const GUESTS: [Guest<'static>; 18] = [
    Guest {
        code: &ACCEPTED_CODE,
        tables: &ACCEPTED_TABLES,
        steps: 60_000,
        lines: &ACCEPTED_LINES,
    },
    Guest {
        code: &ACCEPTER_GONE_CODE,
        tables: &ACCEPTER_GONE_TABLES,
        steps: 60_000,
        lines: &ACCEPTER_GONE_LINES,
    },
    Guest {
        code: &CALL_AGAIN_CODE,
        tables: &CALL_AGAIN_TABLES,
        steps: 60_000,
        lines: &CALL_AGAIN_LINES,
    },
    Guest {
        code: &CALL_AND_RETURN_CODE,
        tables: &CALL_AND_RETURN_TABLES,
        steps: 60_000,
        lines: &CALL_AND_RETURN_LINES,
    },
    Guest {
        code: &CALL_REFUSALS_CODE,
        tables: &CALL_REFUSALS_TABLES,
        steps: 60_000,
        lines: &CALL_REFUSALS_LINES,
    },
    Guest {
        code: &EVICT_CHAIN_CODE,
        tables: &EVICT_CHAIN_TABLES,
        steps: 60_000,
        lines: &EVICT_CHAIN_LINES,
    },
    Guest {
        code: &HYPERVISOR_CODE,
        tables: &HYPERVISOR_TABLES,
        steps: 60_000,
        lines: &HYPERVISOR_LINES,
    },
    Guest {
        code: &ILLEGAL_CODE,
        tables: &ILLEGAL_TABLES,
        steps: 60_000,
        lines: &ILLEGAL_LINES,
    },
    Guest {
        code: &LED_ELSEWHERE_CODE,
        tables: &LED_ELSEWHERE_TABLES,
        steps: 60_000,
        lines: &LED_ELSEWHERE_LINES,
    },
    Guest {
        code: &MISALIGNED_LOAD_CODE,
        tables: &MISALIGNED_LOAD_TABLES,
        steps: 60_000,
        lines: &MISALIGNED_LOAD_LINES,
    },
    Guest {
        code: &MODULE_ACCESSES_CODE,
        tables: &MODULE_ACCESSES_TABLES,
        steps: 60_000,
        lines: &MODULE_ACCESSES_LINES,
    },
    Guest {
        code: &OFFERER_GONE_CODE,
        tables: &OFFERER_GONE_TABLES,
        steps: 60_000,
        lines: &OFFERER_GONE_LINES,
    },
    Guest {
        code: &STOPPED_OUTSIDE_CODE,
        tables: &STOPPED_OUTSIDE_TABLES,
        steps: 60_000,
        lines: &STOPPED_OUTSIDE_LINES,
    },
    Guest {
        code: &TIMER_CODE,
        tables: &TIMER_TABLES,
        steps: 60_000,
        lines: &TIMER_LINES,
    },
    Guest {
        code: &UNMAPPED_ENTRY_CODE,
        tables: &UNMAPPED_ENTRY_TABLES,
        steps: 60_000,
        lines: &UNMAPPED_ENTRY_LINES,
    },
    Guest {
        code: &USER_CALL_CODE,
        tables: &USER_CALL_TABLES,
        steps: 9,
        lines: &USER_CALL_LINES,
    },
    Guest {
        code: &USER_IDENT_CODE,
        tables: &USER_IDENT_TABLES,
        steps: 9,
        lines: &USER_IDENT_LINES,
    },
    Guest {
        code: &WRONG_RESUMPTION_CODE,
        tables: &WRONG_RESUMPTION_TABLES,
        steps: 60_000,
        lines: &WRONG_RESUMPTION_LINES,
    },
];

#[test]
fn modules_are_called_stopped_resumed_and_evicted(rt: HostRuntime) {
    expect_guests(&rt, rt.alloc(), &GUESTS);
}
