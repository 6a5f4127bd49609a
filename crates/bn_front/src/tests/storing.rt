//! Guests whose modules keep words by their identities, without a store beside the machine.
//! Made by `tests/make` from their assembly; the traces are those of `tests/interpreter.py`.

use super::guest::{Guest, expect_digest, expect_guest};

// A module stores all 32 of its words, each of 64 bits, and reads them back; it stores the first
// and the last anew, and the others stay.
const ALL_WORDS_CODE: [u32; 19] = [
    0x00000f97, // auipc x31,0x0
    0x038f8f93, // addi x31,x31,56
    0x105f9073, // csrrw x0,stvec,x31
    0x00008397, // auipc x7,0x8
    0xff438393, // addi x7,x7,-12
    0x0003828b, // b.launch x5,x7
    0x00010497, // auipc x9,0x10
    0xfe848493, // addi x9,x9,-24
    0x00000513, // addi x10,x0,0
    0x0092930b, // b.call x6,x5,x9
    0x00031863, // bne x6,x0,0x80000038
    0x02000f93, // addi x31,x0,32
    0x01f51463, // bne x10,x31,0x80000038
    0x0100006f, // jal x0,0x80000044
    0x02100513, // addi x10,x0,33
    0x00100893, // addi x17,x0,1
    0x00000073, // ecall
    0x00800893, // addi x17,x0,8
    0x00000073, // ecall
];

const ALL_WORDS_TABLES: [(usize, u64); 22] = [
    (32768, 0x201010147534e42),
    (32784, 0x80010000),
    (32848, 0x80010),
    (32856, 0x501),
    (32864, 0x80011),
    (32872, 0x301),
    (65536, 0xfff3031302000313),
    (65544, 0x60390630003738b),
    (65552, 0x2000293fe031ae3),
    (65560, 0x814041303831413),
    (65568, 0x283038b00500393),
    (65576, 0x13031304039263),
    (65584, 0xfff00413fe5314e3),
    (65592, 0x283038b01f00313),
    (65600, 0x738b0280038b),
    (65608, 0x3738b02839263),
    (65616, 0xfff3031300839e63),
    (65624, 0x383141300030e63),
    (65632, 0x3738b08140413),
    (65640, 0xfff00513fe8386e3),
    (65648, 0x285130000200b),
    (65656, 0x200b),
];

const ALL_WORDS_LINES: [&str; 38] = [
    "launch 5 0 1 cea63aefbb774cf1c92a4ed26bd6073dd408e566aa361bc55bf9d06d13b48cbd\n",
    "call 9 0 0 1 0000000080010000\n",
    "sset 143 0 1 0\n",
    "sset 150 0 1 1\n",
    "sset 157 0 1 2\n",
    "sset 164 0 1 3\n",
    "sset 171 0 1 4\n",
    "sset 178 0 1 5\n",
    "sset 185 0 1 6\n",
    "sset 192 0 1 7\n",
    "sset 199 0 1 8\n",
    "sset 206 0 1 9\n",
    "sset 213 0 1 10\n",
    "sset 220 0 1 11\n",
    "sset 227 0 1 12\n",
    "sset 234 0 1 13\n",
    "sset 241 0 1 14\n",
    "sset 248 0 1 15\n",
    "sset 255 0 1 16\n",
    "sset 262 0 1 17\n",
    "sset 269 0 1 18\n",
    "sset 276 0 1 19\n",
    "sset 283 0 1 20\n",
    "sset 290 0 1 21\n",
    "sset 297 0 1 22\n",
    "sset 304 0 1 23\n",
    "sset 311 0 1 24\n",
    "sset 318 0 1 25\n",
    "sset 325 0 1 26\n",
    "sset 332 0 1 27\n",
    "sset 339 0 1 28\n",
    "sset 346 0 1 29\n",
    "sset 353 0 1 30\n",
    "sset 360 0 1 31\n",
    "sset 366 0 1 31\n",
    "sset 367 0 1 0\n",
    "ret 555 0 1 0 0000000080000028\n",
    "end 562 shutdown ba212421636c7269eb1b12cf1efc59f3dbb9c458d967c8af727e999f0a13a9b0\n",
];

const ALL_WORDS: Guest<'static> = Guest {
    code: &ALL_WORDS_CODE,
    tables: &ALL_WORDS_TABLES,
    steps: 60_000,
    lines: &ALL_WORDS_LINES,
};

#[test]
fn a_module_keeps_32_words(rt: HostRuntime) {
    expect_guest(&rt, rt.alloc(), &ALL_WORDS);
}

// Sixty-four modules, one after the other, store a word each, and the first of them the number 0:
// all 64 identities have words then. One more is refused, for a word that there isn't with -1
// first, and reads zeros. The others have their words and may store more. The module that was
// refused a word that there isn't, before all, took no place.
const FULL_CODE: [u32; 149] = [
    0x00000f97, // auipc x31,0x0
    0x240f8f93, // addi x31,x31,576
    0x105f9073, // csrrw x0,stvec,x31
    0x00008397, // auipc x7,0x8
    0xff438393, // addi x7,x7,-12
    0x00010997, // auipc x19,0x10
    0xfec98993, // addi x19,x19,-20
    0x00000417, // auipc x8,0x0
    0x3e440413, // addi x8,x8,996
    0x00043a03, // ld x20,0(x8)
    0x00843a83, // ld x21,8(x8)
    0x01043b03, // ld x22,16(x8)
    0x04000c93, // addi x25,x0,64
    0x1f0000ef, // jal x1,0x80000224
    0x02000513, // addi x10,x0,32
    0x00100593, // addi x11,x0,1
    0x00000613, // addi x12,x0,0
    0x0139128b, // b.call x5,x18,x19
    0x1e029c63, // bne x5,x0,0x80000240
    0xfff00f93, // addi x31,x0,-1
    0x1ff51863, // bne x10,x31,0x80000240
    0x0009328b, // b.evict x5,x18
    0x00000c93, // addi x25,x0,0
    0x04000d13, // addi x26,x0,64
    0x1c4000ef, // jal x1,0x80000224
    0x01fcf513, // andi x10,x25,31
    0x000c8593, // addi x11,x25,0
    0x00000613, // addi x12,x0,0
    0x0139128b, // b.call x5,x18,x19
    0x1c051663, // bne x10,x0,0x80000240
    0x0009328b, // b.evict x5,x18
    0x001c8c93, // addi x25,x25,1
    0xffac90e3, // bne x25,x26,0x80000060
    0x1a0000ef, // jal x1,0x80000224
    0x00000513, // addi x10,x0,0
    0x00100593, // addi x11,x0,1
    0x00000613, // addi x12,x0,0
    0x0139128b, // b.call x5,x18,x19
    0x1a029463, // bne x5,x0,0x80000240
    0xffe00f93, // addi x31,x0,-2
    0x1bf51063, // bne x10,x31,0x80000240
    0x01f00513, // addi x10,x0,31
    0x00100593, // addi x11,x0,1
    0x00000613, // addi x12,x0,0
    0x0139128b, // b.call x5,x18,x19
    0x18029663, // bne x5,x0,0x80000240
    0xffe00f93, // addi x31,x0,-2
    0x19f51263, // bne x10,x31,0x80000240
    0x02000513, // addi x10,x0,32
    0x00100593, // addi x11,x0,1
    0x00000613, // addi x12,x0,0
    0x0139128b, // b.call x5,x18,x19
    0x16029863, // bne x5,x0,0x80000240
    0xfff00f93, // addi x31,x0,-1
    0x17f51463, // bne x10,x31,0x80000240
    0xfff00513, // addi x10,x0,-1
    0x00100593, // addi x11,x0,1
    0x00000613, // addi x12,x0,0
    0x0139128b, // b.call x5,x18,x19
    0x14029a63, // bne x5,x0,0x80000240
    0xfff00f93, // addi x31,x0,-1
    0x15f51663, // bne x10,x31,0x80000240
    0x00000513, // addi x10,x0,0
    0x00100613, // addi x12,x0,1
    0x0139128b, // b.call x5,x18,x19
    0x12029e63, // bne x5,x0,0x80000240
    0x00000f93, // addi x31,x0,0
    0x13f51a63, // bne x10,x31,0x80000240
    0x01f00513, // addi x10,x0,31
    0x00100613, // addi x12,x0,1
    0x0139128b, // b.call x5,x18,x19
    0x12029263, // bne x5,x0,0x80000240
    0x00000f93, // addi x31,x0,0
    0x11f51e63, // bne x10,x31,0x80000240
    0x0009328b, // b.evict x5,x18
    0x00000c93, // addi x25,x0,0
    0x0f4000ef, // jal x1,0x80000224
    0x00000513, // addi x10,x0,0
    0x00100613, // addi x12,x0,1
    0x0139128b, // b.call x5,x18,x19
    0x10029063, // bne x5,x0,0x80000240
    0x00000f93, // addi x31,x0,0
    0x0ff51c63, // bne x10,x31,0x80000240
    0x00000513, // addi x10,x0,0
    0x00500593, // addi x11,x0,5
    0x00000613, // addi x12,x0,0
    0x0139128b, // b.call x5,x18,x19
    0x0e029263, // bne x5,x0,0x80000240
    0x00000f93, // addi x31,x0,0
    0x0df51e63, // bne x10,x31,0x80000240
    0x01f00513, // addi x10,x0,31
    0x00600593, // addi x11,x0,6
    0x00000613, // addi x12,x0,0
    0x0139128b, // b.call x5,x18,x19
    0x0c029463, // bne x5,x0,0x80000240
    0x00000f93, // addi x31,x0,0
    0x0df51063, // bne x10,x31,0x80000240
    0x02000513, // addi x10,x0,32
    0x00100593, // addi x11,x0,1
    0x00000613, // addi x12,x0,0
    0x0139128b, // b.call x5,x18,x19
    0x0a029663, // bne x5,x0,0x80000240
    0xfff00f93, // addi x31,x0,-1
    0x0bf51263, // bne x10,x31,0x80000240
    0x00000513, // addi x10,x0,0
    0x00100613, // addi x12,x0,1
    0x0139128b, // b.call x5,x18,x19
    0x08029a63, // bne x5,x0,0x80000240
    0x00500f93, // addi x31,x0,5
    0x09f51663, // bne x10,x31,0x80000240
    0x0009328b, // b.evict x5,x18
    0x03f00c93, // addi x25,x0,63
    0x064000ef, // jal x1,0x80000224
    0x01f00513, // addi x10,x0,31
    0x00100613, // addi x12,x0,1
    0x0139128b, // b.call x5,x18,x19
    0x06029863, // bne x5,x0,0x80000240
    0x03f00f93, // addi x31,x0,63
    0x07f51463, // bne x10,x31,0x80000240
    0x01f00513, // addi x10,x0,31
    0x00000593, // addi x11,x0,0
    0x00000613, // addi x12,x0,0
    0x0139128b, // b.call x5,x18,x19
    0x04029a63, // bne x5,x0,0x80000240
    0x00000f93, // addi x31,x0,0
    0x05f51663, // bne x10,x31,0x80000240
    0x0009328b, // b.evict x5,x18
    0x04000c93, // addi x25,x0,64
    0x024000ef, // jal x1,0x80000224
    0x00000513, // addi x10,x0,0
    0x00100593, // addi x11,x0,1
    0x00000613, // addi x12,x0,0
    0x0139128b, // b.call x5,x18,x19
    0x02029663, // bne x5,x0,0x80000240
    0xffe00f93, // addi x31,x0,-2
    0x03f51263, // bne x10,x31,0x80000240
    0x02c0006f, // jal x0,0x8000024c
    0x0149b023, // sd x20,0(x19)
    0x0159b423, // sd x21,8(x19)
    0x0169b823, // sd x22,16(x19)
    0x0199aa23, // sw x25,20(x19)
    0x0003890b, // b.launch x18,x7
    0x01205463, // bge x0,x18,0x80000240
    0x00008067, // jalr x0,0(x1)
    0x02100513, // addi x10,x0,33
    0x00100893, // addi x17,x0,1
    0x00000073, // ecall
    0x00800893, // addi x17,x0,8
    0x00000073, // ecall
];

const FULL_TABLES: [(usize, u64); 7] = [
    (1024, 0x2b5050b00061663),
    (1032, 0x5750b0000200b),
    (1040, 0x200b),
    (32768, 0x101010147534e42),
    (32784, 0x80010000),
    (32848, 0x80010),
    (32856, 0x501),
];

/// The digest of its trace, of 370 lines.
const FULL_DIGEST: [u8; 32] = [
    0x18, 0xe0, 0x3c, 0x37, 0x9d, 0xac, 0x37, 0x72, 0xb5, 0xff, 0xeb, 0x16, 0xc1, 0x1d, 0xe7, 0xac,
    0x52, 0xc8, 0x10, 0x38, 0xeb, 0x2e, 0x63, 0xdf, 0x3e, 0x95, 0xc7, 0xf7, 0xe4, 0x8f, 0x89, 0x51,
];

#[test]
fn a_module_of_a_65th_identity_keeps_no_words(rt: HostRuntime) {
    let (code, tables) = (&FULL_CODE, &FULL_TABLES);
    expect_digest(&rt, rt.alloc(), code, tables, &FULL_DIGEST);
}

// A module has the words 0 to 31. To store any other is refused, whichever bit of the index is the
// one too many, and leaves all words as they were; to read any other gives 0.
const INDEX_TOO_LARGE_CODE: [u32; 18] = [
    0x00000f97, // auipc x31,0x0
    0x034f8f93, // addi x31,x31,52
    0x105f9073, // csrrw x0,stvec,x31
    0x00008397, // auipc x7,0x8
    0xff438393, // addi x7,x7,-12
    0x0003828b, // b.launch x5,x7
    0x00010497, // auipc x9,0x10
    0xfe848493, // addi x9,x9,-24
    0x0092930b, // b.call x6,x5,x9
    0x00031863, // bne x6,x0,0x80000034
    0x00100f93, // addi x31,x0,1
    0x01f51463, // bne x10,x31,0x80000034
    0x0100006f, // jal x0,0x80000040
    0x02100513, // addi x10,x0,33
    0x00100893, // addi x17,x0,1
    0x00000073, // ecall
    0x00800893, // addi x17,x0,8
    0x00000073, // ecall
];

const INDEX_TOO_LARGE_TABLES: [(usize, u64); 71] = [
    (32768, 0x201010147534e42),
    (32784, 0x80010000),
    (32848, 0x80010),
    (32856, 0x501),
    (32864, 0x80011),
    (32872, 0x301),
    (65536, 0x90041302000293),
    (65544, 0xfff00f130282848b),
    (65552, 0x9004931fe49863),
    (65560, 0x1e0492630002f48b),
    (65568, 0x1c649e630000748b),
    (65576, 0xf748b01f00f13),
    (65584, 0x42003131c749863),
    (65592, 0x1c0492630260048b),
    (65600, 0x1f0029304d00393),
    (65608, 0x1a049a630272848b),
    (65616, 0x90041302000293),
    (65624, 0xfff00f130282848b),
    (65632, 0x9004931be49063),
    (65640, 0x18049a630002f48b),
    (65648, 0x186496630000748b),
    (65656, 0xf748b01f00f13),
    (65664, 0x3f0029318749063),
    (65672, 0x282848b00900413),
    (65680, 0x17e49663fff00f13),
    (65688, 0x2f48b00900493),
    (65696, 0x748b16049063),
    (65704, 0x1f00f1314649c63),
    (65712, 0x14749663000f748b),
    (65720, 0x90041304000293),
    (65728, 0xfff00f130282848b),
    (65736, 0x90049313e49c63),
    (65744, 0x120496630002f48b),
    (65752, 0x126492630000748b),
    (65760, 0xf748b01f00f13),
    (65768, 0x1000029310749c63),
    (65776, 0x282848b00900413),
    (65784, 0x11e49263fff00f13),
    (65792, 0x2f48b00900493),
    (65800, 0x748b0e049c63),
    (65808, 0x1f00f130e649863),
    (65816, 0xe749263000f748b),
    (65824, 0x202929300100293),
    (65832, 0x282848b00900413),
    (65840, 0xde49663fff00f13),
    (65848, 0x2f48b00900493),
    (65856, 0x748b0c049063),
    (65864, 0x1f00f130a649c63),
    (65872, 0xa749663000f748b),
    (65880, 0x3f2929300100293),
    (65888, 0x282848b00900413),
    (65896, 0x9e49a63fff00f13),
    (65904, 0x2f48b00900493),
    (65912, 0x748b08049463),
    (65920, 0x1f00f1308649063),
    (65928, 0x6749a63000f748b),
    (65936, 0x900413fe000293),
    (65944, 0xfff00f130282848b),
    (65952, 0x90049307e49063),
    (65960, 0x4049a630002f48b),
    (65968, 0x46496630000748b),
    (65976, 0xf748b01f00f13),
    (65984, 0xfff0029304749063),
    (65992, 0x282848b00900413),
    (66000, 0x3e49663fff00f13),
    (66008, 0x2f48b00900493),
    (66016, 0x748b02049063),
    (66024, 0x1f00f1300649c63),
    (66032, 0x749663000f748b),
    (66040, 0x200b00100513),
    (66048, 0x200bfff00513),
];

const INDEX_TOO_LARGE_LINES: [&str; 15] = [
    "launch 5 0 1 b56f1f837386a43cfedb18d8d063a717260fd2cbfbc265649a910b2ad9815ff6\n",
    "call 8 0 0 1 0000000080010000\n",
    "refuse 11 0 sset -1\n",
    "sset 23 0 1 0\n",
    "sset 27 0 1 31\n",
    "refuse 31 0 sset -1\n",
    "refuse 44 0 sset -1\n",
    "refuse 57 0 sset -1\n",
    "refuse 70 0 sset -1\n",
    "refuse 84 0 sset -1\n",
    "refuse 98 0 sset -1\n",
    "refuse 111 0 sset -1\n",
    "refuse 124 0 sset -1\n",
    "ret 136 0 1 0 0000000080000024\n",
    "end 143 shutdown d7922402ef8fb3487e6d2e8dc2425eaf1f60658e84b05bf7ba47d08dec0ab0df\n",
];

const INDEX_TOO_LARGE: Guest<'static> = Guest {
    code: &INDEX_TOO_LARGE_CODE,
    tables: &INDEX_TOO_LARGE_TABLES,
    steps: 60_000,
    lines: &INDEX_TOO_LARGE_LINES,
};

#[test]
fn a_word_that_is_not_there_is_not_stored(rt: HostRuntime) {
    expect_guest(&rt, rt.alloc(), &INDEX_TOO_LARGE);
}

// A module is evicted and launched again from the same text and page: with another id it has the
// words that it kept. With one bit of its page changed it is another module, without words; and it
// is the first again where the bit is back.
const LAUNCHED_AGAIN_CODE: [u32; 101] = [
    0x00000f97, // auipc x31,0x0
    0x180f8f93, // addi x31,x31,384
    0x105f9073, // csrrw x0,stvec,x31
    0x00008397, // auipc x7,0x8
    0xff438393, // addi x7,x7,-12
    0x00010997, // auipc x19,0x10
    0xfec98993, // addi x19,x19,-20
    0x0009ba03, // ld x20,0(x19)
    0x0089ba83, // ld x21,8(x19)
    0x0109bb03, // ld x22,16(x19)
    0x0003890b, // b.launch x18,x7
    0x00100f93, // addi x31,x0,1
    0x15f91863, // bne x18,x31,0x80000180
    0x00700513, // addi x10,x0,7
    0x04600593, // addi x11,x0,70
    0x00000613, // addi x12,x0,0
    0x0139128b, // b.call x5,x18,x19
    0x12029e63, // bne x5,x0,0x80000180
    0x00000f93, // addi x31,x0,0
    0x13f51a63, // bne x10,x31,0x80000180
    0x0009328b, // b.evict x5,x18
    0x00000f93, // addi x31,x0,0
    0x13f29463, // bne x5,x31,0x80000180
    0x0009b283, // ld x5,0(x19)
    0x12029063, // bne x5,x0,0x80000180
    0x0149b023, // sd x20,0(x19)
    0x0159b423, // sd x21,8(x19)
    0x0169b823, // sd x22,16(x19)
    0x0003890b, // b.launch x18,x7
    0x00200f93, // addi x31,x0,2
    0x11f91463, // bne x18,x31,0x80000180
    0x00700513, // addi x10,x0,7
    0x00100613, // addi x12,x0,1
    0x0139128b, // b.call x5,x18,x19
    0x0e029c63, // bne x5,x0,0x80000180
    0x04600f93, // addi x31,x0,70
    0x0ff51863, // bne x10,x31,0x80000180
    0x00800513, // addi x10,x0,8
    0x05000593, // addi x11,x0,80
    0x00000613, // addi x12,x0,0
    0x0139128b, // b.call x5,x18,x19
    0x0c029e63, // bne x5,x0,0x80000180
    0x00000f93, // addi x31,x0,0
    0x0df51a63, // bne x10,x31,0x80000180
    0x00100b93, // addi x23,x0,1
    0x03fb9b93, // slli x23,x23,0x3f
    0x017b4b33, // xor x22,x22,x23
    0x0009328b, // b.evict x5,x18
    0x00000f93, // addi x31,x0,0
    0x0bf29e63, // bne x5,x31,0x80000180
    0x0009b283, // ld x5,0(x19)
    0x0a029a63, // bne x5,x0,0x80000180
    0x0149b023, // sd x20,0(x19)
    0x0159b423, // sd x21,8(x19)
    0x0169b823, // sd x22,16(x19)
    0x0003890b, // b.launch x18,x7
    0x00300f93, // addi x31,x0,3
    0x09f91e63, // bne x18,x31,0x80000180
    0x00700513, // addi x10,x0,7
    0x00100613, // addi x12,x0,1
    0x0139128b, // b.call x5,x18,x19
    0x08029663, // bne x5,x0,0x80000180
    0x00000f93, // addi x31,x0,0
    0x09f51263, // bne x10,x31,0x80000180
    0x00700513, // addi x10,x0,7
    0x04700593, // addi x11,x0,71
    0x00000613, // addi x12,x0,0
    0x0139128b, // b.call x5,x18,x19
    0x06029863, // bne x5,x0,0x80000180
    0x00000f93, // addi x31,x0,0
    0x07f51463, // bne x10,x31,0x80000180
    0x017b4b33, // xor x22,x22,x23
    0x0009328b, // b.evict x5,x18
    0x00000f93, // addi x31,x0,0
    0x05f29c63, // bne x5,x31,0x80000180
    0x0009b283, // ld x5,0(x19)
    0x04029863, // bne x5,x0,0x80000180
    0x0149b023, // sd x20,0(x19)
    0x0159b423, // sd x21,8(x19)
    0x0169b823, // sd x22,16(x19)
    0x0003890b, // b.launch x18,x7
    0x00400f93, // addi x31,x0,4
    0x03f91c63, // bne x18,x31,0x80000180
    0x00700513, // addi x10,x0,7
    0x00100613, // addi x12,x0,1
    0x0139128b, // b.call x5,x18,x19
    0x02029463, // bne x5,x0,0x80000180
    0x04600f93, // addi x31,x0,70
    0x03f51063, // bne x10,x31,0x80000180
    0x00800513, // addi x10,x0,8
    0x00100613, // addi x12,x0,1
    0x0139128b, // b.call x5,x18,x19
    0x00029863, // bne x5,x0,0x80000180
    0x05000f93, // addi x31,x0,80
    0x01f51463, // bne x10,x31,0x80000180
    0x0100006f, // jal x0,0x8000018c
    0x02100513, // addi x10,x0,33
    0x00100893, // addi x17,x0,1
    0x00000073, // ecall
    0x00800893, // addi x17,x0,8
    0x00000073, // ecall
];

const LAUNCHED_AGAIN_TABLES: [(usize, u64); 7] = [
    (32768, 0x101010147534e42),
    (32784, 0x80010000),
    (32848, 0x80010),
    (32856, 0x501),
    (65536, 0x2b5050b00061663),
    (65544, 0x5750b0000200b),
    (65552, 0x200b),
];

const LAUNCHED_AGAIN_LINES: [&str; 25] = [
    "launch 10 0 1 ff68d5e6e69dbded7d018bf67d4950f7ddb928499560d4b38d531fc319ae8ccd\n",
    "call 16 0 0 1 0000000080010000\n",
    "sset 18 0 1 7\n",
    "ret 19 0 1 0 0000000080000044\n",
    "evict 23 0 1 1\n",
    "launch 31 0 2 ff68d5e6e69dbded7d018bf67d4950f7ddb928499560d4b38d531fc319ae8ccd\n",
    "call 36 0 0 2 0000000080010000\n",
    "ret 39 0 2 0 0000000080000088\n",
    "call 46 0 0 2 0000000080010000\n",
    "sset 48 0 2 8\n",
    "ret 49 0 2 0 00000000800000a4\n",
    "evict 56 0 2 1\n",
    "launch 64 0 3 947f64d760accb243ce792cf6f0f1266450117f83424b23c92ba63a4ce347221\n",
    "call 69 0 0 3 0000000080010000\n",
    "ret 72 0 3 0 00000000800000f4\n",
    "call 79 0 0 3 0000000080010000\n",
    "sset 81 0 3 7\n",
    "ret 82 0 3 0 0000000080000110\n",
    "evict 87 0 3 1\n",
    "launch 95 0 4 ff68d5e6e69dbded7d018bf67d4950f7ddb928499560d4b38d531fc319ae8ccd\n",
    "call 100 0 0 4 0000000080010000\n",
    "ret 103 0 4 0 0000000080000158\n",
    "call 109 0 0 4 0000000080010000\n",
    "ret 112 0 4 0 0000000080000170\n",
    "end 119 shutdown 12568a5125cd4c9449ce14883ca0f45f5180700bc425adfa10618b54c9a6e2f4\n",
];

const LAUNCHED_AGAIN: Guest<'static> = Guest {
    code: &LAUNCHED_AGAIN_CODE,
    tables: &LAUNCHED_AGAIN_TABLES,
    steps: 60_000,
    lines: &LAUNCHED_AGAIN_LINES,
};

#[test]
fn a_module_that_is_launched_again_has_its_words(rt: HostRuntime) {
    expect_guest(&rt, rt.alloc(), &LAUNCHED_AGAIN);
}

// Outside the modules nobody stores or reads words, in mode S or U, also where a module has some
// and the word is one that there isn't: each try is an illegal instruction, which leaves its
// register and the words.
const OUTSIDE_CODE: [u32; 59] = [
    0x00000f97, // auipc x31,0x0
    0x088f8f93, // addi x31,x31,136
    0x105f9073, // csrrw x0,stvec,x31
    0x00008397, // auipc x7,0x8
    0xff438393, // addi x7,x7,-12
    0x0003890b, // b.launch x18,x7
    0x00010997, // auipc x19,0x10
    0xfe898993, // addi x19,x19,-24
    0x00000513, // addi x10,x0,0
    0x00b00593, // addi x11,x0,11
    0x00000613, // addi x12,x0,0
    0x0139128b, // b.call x5,x18,x19
    0x0a029463, // bne x5,x0,0x800000d8
    0x00000f93, // addi x31,x0,0
    0x0bf51063, // bne x10,x31,0x800000d8
    0x03700293, // addi x5,x0,55
    0x0000728b, // b.sget x5,x0
    0x0260028b, // b.sset x5,x0,x6
    0x02000313, // addi x6,x0,32
    0x0003728b, // b.sget x5,x6
    0x0263028b, // b.sset x5,x6,x6
    0x03700f93, // addi x31,x0,55
    0x09f29063, // bne x5,x31,0x800000d8
    0x00000397, // auipc x7,0x0
    0x01038393, // addi x7,x7,16
    0x14139073, // csrrw x0,sepc,x7
    0x10200073, // sret
    0x03700293, // addi x5,x0,55
    0x0000728b, // b.sget x5,x0
    0x0260028b, // b.sset x5,x0,x6
    0x02000313, // addi x6,x0,32
    0x0003728b, // b.sget x5,x6
    0x0263028b, // b.sset x5,x6,x6
    0x00000073, // ecall
    0x142023f3, // csrrs x7,scause,x0
    0xff838393, // addi x7,x7,-8
    0x02038263, // beq x7,x0,0x800000b4
    0x00638393, // addi x7,x7,6
    0x04039063, // bne x7,x0,0x800000d8
    0x143023f3, // csrrs x7,stval,x0
    0x02039c63, // bne x7,x0,0x800000d8
    0x141023f3, // csrrs x7,sepc,x0
    0x00438393, // addi x7,x7,4
    0x14139073, // csrrw x0,sepc,x7
    0x10200073, // sret
    0x03700f93, // addi x31,x0,55
    0x03f29063, // bne x5,x31,0x800000d8
    0x00000513, // addi x10,x0,0
    0x00100613, // addi x12,x0,1
    0x0139128b, // b.call x5,x18,x19
    0x00029863, // bne x5,x0,0x800000d8
    0x00b00f93, // addi x31,x0,11
    0x01f51463, // bne x10,x31,0x800000d8
    0x0100006f, // jal x0,0x800000e4
    0x02100513, // addi x10,x0,33
    0x00100893, // addi x17,x0,1
    0x00000073, // ecall
    0x00800893, // addi x17,x0,8
    0x00000073, // ecall
];

const OUTSIDE_TABLES: [(usize, u64); 7] = [
    (32768, 0x101010147534e42),
    (32784, 0x80010000),
    (32848, 0x80010),
    (32856, 0x501),
    (65536, 0x2b5050b00061663),
    (65544, 0x5750b0000200b),
    (65552, 0x200b),
];

const OUTSIDE_LINES: [&str; 16] = [
    "launch 5 0 1 ff68d5e6e69dbded7d018bf67d4950f7ddb928499560d4b38d531fc319ae8ccd\n",
    "call 11 0 0 1 0000000080010000\n",
    "sset 13 0 1 0\n",
    "ret 14 0 1 0 0000000080000030\n",
    "trap 19 0 0000000000000002 0000000080000040\n",
    "trap 31 0 0000000000000002 0000000080000044\n",
    "trap 44 0 0000000000000002 000000008000004c\n",
    "trap 56 0 0000000000000002 0000000080000050\n",
    "trap 75 0 0000000000000002 0000000080000070\n",
    "trap 87 0 0000000000000002 0000000080000074\n",
    "trap 100 0 0000000000000002 000000008000007c\n",
    "trap 112 0 0000000000000002 0000000080000080\n",
    "trap 124 0 0000000000000008 0000000080000084\n",
    "call 132 0 0 1 0000000080010000\n",
    "ret 135 0 1 0 00000000800000c8\n",
    "end 142 shutdown fb0f2dcb06b4a6acbabbab048d7a62ff9f749506fffd5ee28dd829e46ec3c455\n",
];

const OUTSIDE: Guest<'static> = Guest {
    code: &OUTSIDE_CODE,
    tables: &OUTSIDE_TABLES,
    steps: 60_000,
    lines: &OUTSIDE_LINES,
};

#[test]
fn code_outside_the_modules_keeps_no_words(rt: HostRuntime) {
    expect_guest(&rt, rt.alloc(), &OUTSIDE);
}

// A module that stores and reads by registers which are one and the same, or x0: a word is stored
// by what they held before, and rd gets 0 or the refusal, or the word.
const REGISTERS_CODE: [u32; 18] = [
    0x00000f97, // auipc x31,0x0
    0x034f8f93, // addi x31,x31,52
    0x105f9073, // csrrw x0,stvec,x31
    0x00008397, // auipc x7,0x8
    0xff438393, // addi x7,x7,-12
    0x0003828b, // b.launch x5,x7
    0x00010497, // auipc x9,0x10
    0xfe848493, // addi x9,x9,-24
    0x0092930b, // b.call x6,x5,x9
    0x00031863, // bne x6,x0,0x80000034
    0x00100f93, // addi x31,x0,1
    0x01f51463, // bne x10,x31,0x80000034
    0x0100006f, // jal x0,0x80000040
    0x02100513, // addi x10,x0,33
    0x00100893, // addi x17,x0,1
    0x00000073, // ecall
    0x00800893, // addi x17,x0,8
    0x00000073, // ecall
];

const REGISTERS_TABLES: [(usize, u64); 44] = [
    (32768, 0x201010147534e42),
    (32784, 0x80010000),
    (32848, 0x80010),
    (32856, 0x501),
    (32864, 0x80011),
    (32872, 0x301),
    (65536, 0x90031300300293),
    (65544, 0xf130262828b),
    (65552, 0x900f1311e29c63),
    (65560, 0x300e9311e31863),
    (65568, 0x900f13000efe0b),
    (65576, 0x40029311ee1063),
    (65584, 0xf130262830b),
    (65592, 0x400e930fe31863),
    (65600, 0x900f13000efe0b),
    (65608, 0x5002930fee1063),
    (65616, 0x252830b04d00313),
    (65624, 0xde3166300000f13),
    (65632, 0xefe0b00500e93),
    (65640, 0xbee1e6300500f13),
    (65648, 0x200030b04d00313),
    (65656, 0xbe3166300000f13),
    (65664, 0xefe0b00000e93),
    (65672, 0x9ee1e6300000f13),
    (65680, 0xff90009301f00f93),
    (65688, 0xf13021f808b),
    (65696, 0xff08b09e09463),
    (65704, 0x7e09e63ff900f13),
    (65712, 0xff900f13000fff8b),
    (65720, 0x60029307ef9863),
    (65728, 0x262800b00c00313),
    (65736, 0x600e9306001063),
    (65744, 0xc00f13000efe0b),
    (65752, 0x2f00b05ee1863),
    (65760, 0x200029304001463),
    (65768, 0xfff00f130262828b),
    (65776, 0x262830b03e29c63),
    (65784, 0x3e31663fff00f13),
    (65792, 0x20012630262800b),
    (65800, 0x1e29e63fff00f13),
    (65808, 0xefe0b00600e93),
    (65816, 0x1ee166300c00f13),
    (65824, 0x200b00100513),
    (65832, 0x200bfff00513),
];

const REGISTERS_LINES: [&str; 13] = [
    "launch 5 0 1 ed9fb801ceb01b7528396aa8f3d8ea2a2a61b7b01d593355f60e93ad71293aaa\n",
    "call 8 0 0 1 0000000080010000\n",
    "sset 11 0 1 3\n",
    "sset 21 0 1 4\n",
    "sset 30 0 1 5\n",
    "sset 38 0 1 0\n",
    "sset 47 0 1 31\n",
    "sset 58 0 1 6\n",
    "refuse 67 0 sset -1\n",
    "refuse 70 0 sset -1\n",
    "refuse 73 0 sset -1\n",
    "ret 82 0 1 0 0000000080000024\n",
    "end 89 shutdown d7922402ef8fb3487e6d2e8dc2425eaf1f60658e84b05bf7ba47d08dec0ab0df\n",
];

const REGISTERS: Guest<'static> = Guest {
    code: &REGISTERS_CODE,
    tables: &REGISTERS_TABLES,
    steps: 60_000,
    lines: &REGISTERS_LINES,
};

#[test]
fn words_go_by_any_registers(rt: HostRuntime) {
    expect_guest(&rt, rt.alloc(), &REGISTERS);
}

// A timer stops a module between its b.sget and its b.sset, which isn't made then. While it is
// stopped another module stores, and it goes on with what it read. What it stored stays when it
// traps, and when it is evicted and launched again.
const STOPPED_CODE: [u32; 85] = [
    0x00000f97, // auipc x31,0x0
    0x090f8f93, // addi x31,x31,144
    0x105f9073, // csrrw x0,stvec,x31
    0x00008397, // auipc x7,0x8
    0xff438393, // addi x7,x7,-12
    0x0003890b, // b.launch x18,x7
    0x00009397, // auipc x7,0x9
    0xfe838393, // addi x7,x7,-24
    0x0003828b, // b.launch x5,x7
    0x00200f93, // addi x31,x0,2
    0x11f29c63, // bne x5,x31,0x80000140
    0x00010997, // auipc x19,0x10
    0xfd498993, // addi x19,x19,-44
    0x00000613, // addi x12,x0,0
    0x0139128b, // b.call x5,x18,x19
    0x10029263, // bne x5,x0,0x80000140
    0x00000f93, // addi x31,x0,0
    0x0ff51e63, // bne x10,x31,0x80000140
    0x00100f93, // addi x31,x0,1
    0x0ff59a63, // bne x11,x31,0x80000140
    0x02000293, // addi x5,x0,32
    0x1042a073, // csrrs x0,sie,x5
    0x10016073, // csrrsi x0,sstatus,2
    0xc0102573, // csrrs x10,time,x0
    0x00750513, // addi x10,x10,7
    0x00000893, // addi x17,x0,0
    0x00000073, // ecall
    0x0139128b, // b.call x5,x18,x19
    0x0c029863, // bne x5,x0,0x80000140
    0x00000f93, // addi x31,x0,0
    0x0df51463, // bne x10,x31,0x80000140
    0x00200f93, // addi x31,x0,2
    0x0df59063, // bne x11,x31,0x80000140
    0x00100613, // addi x12,x0,1
    0x0139128b, // b.call x5,x18,x19
    0x0b40006f, // jal x0,0x80000140
    0x142022f3, // csrrs x5,scause,x0
    0x0402d863, // bge x5,x0,0x800000e4
    0xfff00513, // addi x10,x0,-1
    0x00000893, // addi x17,x0,0
    0x00000073, // ecall
    0x00100913, // addi x18,x0,1
    0x00010997, // auipc x19,0x10
    0xf5898993, // addi x19,x19,-168
    0x0139128b, // b.call x5,x18,x19
    0xffc00f93, // addi x31,x0,-4
    0x09f29463, // bne x5,x31,0x80000140
    0x00200913, // addi x18,x0,2
    0x00012997, // auipc x19,0x12
    0xf4098993, // addi x19,x19,-192
    0x0139128b, // b.call x5,x18,x19
    0x06029a63, // bne x5,x0,0x80000140
    0x00000f93, // addi x31,x0,0
    0x07f51663, // bne x10,x31,0x80000140
    0x00100f93, // addi x31,x0,1
    0x07f59263, // bne x11,x31,0x80000140
    0x10200073, // sret
    0x00100913, // addi x18,x0,1
    0x0009328b, // b.evict x5,x18
    0x00010997, // auipc x19,0x10
    0xf1498993, // addi x19,x19,-236
    0x00000417, // auipc x8,0x0
    0x30c40413, // addi x8,x8,780
    0x00043283, // ld x5,0(x8)
    0x0059b023, // sd x5,0(x19)
    0x00843283, // ld x5,8(x8)
    0x0059b423, // sd x5,8(x19)
    0x01043283, // ld x5,16(x8)
    0x0059b823, // sd x5,16(x19)
    0x00008397, // auipc x7,0x8
    0xeec38393, // addi x7,x7,-276
    0x0003890b, // b.launch x18,x7
    0x00000613, // addi x12,x0,0
    0x0139128b, // b.call x5,x18,x19
    0x00029c63, // bne x5,x0,0x80000140
    0x00000f93, // addi x31,x0,0
    0x01f51863, // bne x10,x31,0x80000140
    0x00400f93, // addi x31,x0,4
    0x01f59463, // bne x11,x31,0x80000140
    0x0100006f, // jal x0,0x8000014c
    0x02100513, // addi x10,x0,33
    0x00100893, // addi x17,x0,1
    0x00000073, // ecall
    0x00800893, // addi x17,x0,8
    0x00000073, // ecall
];

const STOPPED_TABLES: [(usize, u64); 17] = [
    (1024, 0x1285930000728b),
    (1032, 0x6146302b0050b),
    (1040, 0x200b),
    (32768, 0x101010147534e42),
    (32784, 0x80010000),
    (32848, 0x80010),
    (32856, 0x501),
    (36864, 0x101010147534e42),
    (36880, 0x80012000),
    (36944, 0x80012),
    (36952, 0x501),
    (65536, 0x1285930000728b),
    (65544, 0x6146302b0050b),
    (65552, 0x200b),
    (73728, 0x1285930000728b),
    (73736, 0x6146302b0050b),
    (73744, 0x200b),
];

const STOPPED_LINES: [&str; 25] = [
    "launch 5 0 1 df27ba65202b84e6d284b0b7c7f581928b366cbf6463b7066d81526bec9fb693\n",
    "launch 8 0 2 7328fcdbea513412a313070b993fed972ee42e24c44162f33fe8bea8d8ff86a1\n",
    "call 14 0 0 1 0000000080010000\n",
    "sset 17 0 1 0\n",
    "ret 19 0 1 0 000000008000003c\n",
    "call 32 0 0 1 0000000080010000\n",
    "stop 35 0 1 0000000080010008\n",
    "trap 35 0 8000000000000005 0000000080010008\n",
    "refuse 44 0 call -4\n",
    "call 50 0 0 2 0000000080012000\n",
    "sset 53 0 2 0\n",
    "ret 55 0 2 0 00000000800000cc\n",
    "resume 62 0 1 0000000080010008\n",
    "sset 63 0 1 0\n",
    "ret 65 0 1 0 0000000080000070\n",
    "call 72 0 0 1 0000000080010000\n",
    "sset 75 0 1 0\n",
    "stop 77 0 1 0000000080010014\n",
    "trap 77 0 0000000000000002 0000000080010014\n",
    "evict 81 0 1 1\n",
    "launch 94 0 3 df27ba65202b84e6d284b0b7c7f581928b366cbf6463b7066d81526bec9fb693\n",
    "call 96 0 0 3 0000000080010000\n",
    "sset 99 0 3 0\n",
    "ret 101 0 3 0 0000000080000128\n",
    "end 110 shutdown 9ebd9a3aac1389eff5019c3bb67c825fc0a6d35b233db2b9abfb2d6b47fab16f\n",
];

const STOPPED: Guest<'static> = Guest {
    code: &STOPPED_CODE,
    tables: &STOPPED_TABLES,
    steps: 60_000,
    lines: &STOPPED_LINES,
};

#[test]
fn a_module_that_is_stopped_stores_when_it_goes_on(rt: HostRuntime) {
    expect_guest(&rt, rt.alloc(), &STOPPED);
}

// Two modules of one code, whose pages have another number each: neither reads or changes what the
// other keeps, also where one calls the other. What counts is which module runs, and not who called
// it.
const TWO_MODULES_CODE: [u32; 106] = [
    0x00000f97, // auipc x31,0x0
    0x194f8f93, // addi x31,x31,404
    0x105f9073, // csrrw x0,stvec,x31
    0x00008397, // auipc x7,0x8
    0xff438393, // addi x7,x7,-12
    0x0003828b, // b.launch x5,x7
    0x00009397, // auipc x7,0x9
    0xfe838393, // addi x7,x7,-24
    0x0003830b, // b.launch x6,x7
    0x00200f93, // addi x31,x0,2
    0x17f31663, // bne x6,x31,0x80000194
    0x00100913, // addi x18,x0,1
    0x00010997, // auipc x19,0x10
    0xfd098993, // addi x19,x19,-48
    0x00000513, // addi x10,x0,0
    0x00b00593, // addi x11,x0,11
    0x00000613, // addi x12,x0,0
    0x0139128b, // b.call x5,x18,x19
    0x14029663, // bne x5,x0,0x80000194
    0x00000f93, // addi x31,x0,0
    0x15f51263, // bne x10,x31,0x80000194
    0x00200913, // addi x18,x0,2
    0x00012997, // auipc x19,0x12
    0xfa898993, // addi x19,x19,-88
    0x00000513, // addi x10,x0,0
    0x00100613, // addi x12,x0,1
    0x0139128b, // b.call x5,x18,x19
    0x12029463, // bne x5,x0,0x80000194
    0x00000f93, // addi x31,x0,0
    0x13f51063, // bne x10,x31,0x80000194
    0x01f00513, // addi x10,x0,31
    0x01d00593, // addi x11,x0,29
    0x00000613, // addi x12,x0,0
    0x0139128b, // b.call x5,x18,x19
    0x10029663, // bne x5,x0,0x80000194
    0x00000f93, // addi x31,x0,0
    0x11f51263, // bne x10,x31,0x80000194
    0x00000513, // addi x10,x0,0
    0x01600593, // addi x11,x0,22
    0x00000613, // addi x12,x0,0
    0x0139128b, // b.call x5,x18,x19
    0x0e029863, // bne x5,x0,0x80000194
    0x00000f93, // addi x31,x0,0
    0x0ff51463, // bne x10,x31,0x80000194
    0x00100913, // addi x18,x0,1
    0x00010997, // auipc x19,0x10
    0xf4c98993, // addi x19,x19,-180
    0x00000513, // addi x10,x0,0
    0x00100613, // addi x12,x0,1
    0x0139128b, // b.call x5,x18,x19
    0x0c029663, // bne x5,x0,0x80000194
    0x00b00f93, // addi x31,x0,11
    0x0df51263, // bne x10,x31,0x80000194
    0x01f00513, // addi x10,x0,31
    0x00100613, // addi x12,x0,1
    0x0139128b, // b.call x5,x18,x19
    0x0a029a63, // bne x5,x0,0x80000194
    0x00000f93, // addi x31,x0,0
    0x0bf51663, // bne x10,x31,0x80000194
    0x00000513, // addi x10,x0,0
    0x02100593, // addi x11,x0,33
    0x00000613, // addi x12,x0,0
    0x00200693, // addi x13,x0,2
    0x00012717, // auipc x14,0x12
    0xf0470713, // addi x14,x14,-252
    0x01498993, // addi x19,x19,20
    0x0139128b, // b.call x5,x18,x19
    0x08029463, // bne x5,x0,0x80000194
    0x00000f93, // addi x31,x0,0
    0x09f51063, // bne x10,x31,0x80000194
    0x00100913, // addi x18,x0,1
    0x00010997, // auipc x19,0x10
    0xee498993, // addi x19,x19,-284
    0x00000513, // addi x10,x0,0
    0x00100613, // addi x12,x0,1
    0x0139128b, // b.call x5,x18,x19
    0x06029263, // bne x5,x0,0x80000194
    0x00b00f93, // addi x31,x0,11
    0x05f51e63, // bne x10,x31,0x80000194
    0x00100513, // addi x10,x0,1
    0x00100613, // addi x12,x0,1
    0x0139128b, // b.call x5,x18,x19
    0x04029663, // bne x5,x0,0x80000194
    0x00b00f93, // addi x31,x0,11
    0x05f51263, // bne x10,x31,0x80000194
    0x00200913, // addi x18,x0,2
    0x00012997, // auipc x19,0x12
    0xea898993, // addi x19,x19,-344
    0x00000513, // addi x10,x0,0
    0x00100613, // addi x12,x0,1
    0x0139128b, // b.call x5,x18,x19
    0x02029463, // bne x5,x0,0x80000194
    0x02100f93, // addi x31,x0,33
    0x03f51063, // bne x10,x31,0x80000194
    0x00100513, // addi x10,x0,1
    0x00100613, // addi x12,x0,1
    0x0139128b, // b.call x5,x18,x19
    0x00029863, // bne x5,x0,0x80000194
    0x00000f93, // addi x31,x0,0
    0x01f51463, // bne x10,x31,0x80000194
    0x0100006f, // jal x0,0x800001a0
    0x02100513, // addi x10,x0,33
    0x00100893, // addi x17,x0,1
    0x00000073, // ecall
    0x00800893, // addi x17,x0,8
    0x00000073, // ecall
];

const TWO_MODULES_TABLES: [(usize, u64); 18] = [
    (32768, 0x102010147534e42),
    (32784, 0x80010000),
    (32792, 0x80010014),
    (32848, 0x80010),
    (32856, 0x501),
    (36864, 0x101010147534e42),
    (36880, 0x80012000),
    (36944, 0x80012),
    (36952, 0x501),
    (65536, 0x2b5050b00061663),
    (65544, 0x5750b0000200b),
    (65552, 0xe6928b0000200b),
    (65560, 0x10031300051863),
    (65568, 0x273050b0000738b),
    (65576, 0x200b),
    (73728, 0x2b5050b00061663),
    (73736, 0x5750b0000200b),
    (73744, 0x200b),
];

const TWO_MODULES_LINES: [&str; 32] = [
    "launch 5 0 1 3f3a48ae6ed66d0a9d82197685721333903b5d360854d06ab4a71b4976eac788\n",
    "launch 8 0 2 6c9b1d4c3a95278b36c1f829a316c9767ac00006850bfb136257ef423b457c5c\n",
    "call 17 0 0 1 0000000080010000\n",
    "sset 19 0 1 0\n",
    "ret 20 0 1 0 0000000080000048\n",
    "call 29 0 0 2 0000000080012000\n",
    "ret 32 0 2 0 000000008000006c\n",
    "call 39 0 0 2 0000000080012000\n",
    "sset 41 0 2 31\n",
    "ret 42 0 2 0 0000000080000088\n",
    "call 49 0 0 2 0000000080012000\n",
    "sset 51 0 2 0\n",
    "ret 52 0 2 0 00000000800000a4\n",
    "call 61 0 0 1 0000000080010000\n",
    "ret 64 0 1 0 00000000800000c8\n",
    "call 70 0 0 1 0000000080010000\n",
    "ret 73 0 1 0 00000000800000e0\n",
    "call 84 0 0 1 0000000080010014\n",
    "call 85 0 1 2 0000000080012000\n",
    "sset 87 0 2 0\n",
    "ret 88 0 2 1 0000000080010018\n",
    "sset 92 0 1 1\n",
    "ret 93 0 1 0 000000008000010c\n",
    "call 102 0 0 1 0000000080010000\n",
    "ret 105 0 1 0 0000000080000130\n",
    "call 111 0 0 1 0000000080010000\n",
    "ret 114 0 1 0 0000000080000148\n",
    "call 123 0 0 2 0000000080012000\n",
    "ret 126 0 2 0 000000008000016c\n",
    "call 132 0 0 2 0000000080012000\n",
    "ret 135 0 2 0 0000000080000184\n",
    "end 142 shutdown eae8ece890faa1f492374960b59cd68e55f45be85abd8ce32ddb91037b68d623\n",
];

const TWO_MODULES: Guest<'static> = Guest {
    code: &TWO_MODULES_CODE,
    tables: &TWO_MODULES_TABLES,
    steps: 60_000,
    lines: &TWO_MODULES_LINES,
};

#[test]
fn modules_do_not_reach_the_words_of_others(rt: HostRuntime) {
    expect_guest(&rt, rt.alloc(), &TWO_MODULES);
}

// A process in mode U calls a module of mode U, which stores and reads words, and is refused as one
// of mode S is.
const USER_MODE_CODE: [u32; 57] = [
    0x00000f97, // auipc x31,0x0
    0x0d0f8f93, // addi x31,x31,208
    0x105f9073, // csrrw x0,stvec,x31
    0x00008397, // auipc x7,0x8
    0xff438393, // addi x7,x7,-12
    0x0003890b, // b.launch x18,x7
    0x00010997, // auipc x19,0x10
    0xfe898993, // addi x19,x19,-24
    0x00000397, // auipc x7,0x0
    0x01c38393, // addi x7,x7,28
    0x14139073, // csrrw x0,sepc,x7
    0x00000f97, // auipc x31,0x0
    0x098f8f93, // addi x31,x31,152
    0x105f9073, // csrrw x0,stvec,x31
    0x10200073, // sret
    0x01f00513, // addi x10,x0,31
    0x00100613, // addi x12,x0,1
    0x0139128b, // b.call x5,x18,x19
    0x08029463, // bne x5,x0,0x800000d0
    0x00000f93, // addi x31,x0,0
    0x09f51063, // bne x10,x31,0x800000d0
    0x01f00513, // addi x10,x0,31
    0xffd00593, // addi x11,x0,-3
    0x00000613, // addi x12,x0,0
    0x0139128b, // b.call x5,x18,x19
    0x06029663, // bne x5,x0,0x800000d0
    0x00000f93, // addi x31,x0,0
    0x07f51263, // bne x10,x31,0x800000d0
    0x01f00513, // addi x10,x0,31
    0x00100613, // addi x12,x0,1
    0x0139128b, // b.call x5,x18,x19
    0x04029a63, // bne x5,x0,0x800000d0
    0xffd00f93, // addi x31,x0,-3
    0x05f51663, // bne x10,x31,0x800000d0
    0x02000513, // addi x10,x0,32
    0x00100593, // addi x11,x0,1
    0x00000613, // addi x12,x0,0
    0x0139128b, // b.call x5,x18,x19
    0x02029c63, // bne x5,x0,0x800000d0
    0xfff00f93, // addi x31,x0,-1
    0x03f51863, // bne x10,x31,0x800000d0
    0x02000513, // addi x10,x0,32
    0x00100613, // addi x12,x0,1
    0x0139128b, // b.call x5,x18,x19
    0x02029063, // bne x5,x0,0x800000d0
    0x00000f93, // addi x31,x0,0
    0x01f51c63, // bne x10,x31,0x800000d0
    0x00100a13, // addi x20,x0,1
    0x00000073, // ecall
    0x00100f93, // addi x31,x0,1
    0x01fa1463, // bne x20,x31,0x800000d0
    0x0100006f, // jal x0,0x800000dc
    0x02100513, // addi x10,x0,33
    0x00100893, // addi x17,x0,1
    0x00000073, // ecall
    0x00800893, // addi x17,x0,8
    0x00000073, // ecall
];

const USER_MODE_TABLES: [(usize, u64); 7] = [
    (32768, 0x101000147534e42),
    (32784, 0x80010000),
    (32848, 0x80010),
    (32856, 0x501),
    (65536, 0x2b5050b00061663),
    (65544, 0x5750b0000200b),
    (65552, 0x200b),
];

const USER_MODE_LINES: [&str; 15] = [
    "launch 5 0 1 b8d08470d45213e1ae913efe387594ee49f5e9c15152fcb6d8384dc4566fb25a\n",
    "call 17 0 0 1 0000000080010000\n",
    "ret 20 0 1 0 0000000080000048\n",
    "call 27 0 0 1 0000000080010000\n",
    "sset 29 0 1 31\n",
    "ret 30 0 1 0 0000000080000064\n",
    "call 36 0 0 1 0000000080010000\n",
    "ret 39 0 1 0 000000008000007c\n",
    "call 46 0 0 1 0000000080010000\n",
    "refuse 48 0 sset -1\n",
    "ret 49 0 1 0 0000000080000098\n",
    "call 55 0 0 1 0000000080010000\n",
    "ret 58 0 1 0 00000000800000b0\n",
    "trap 63 0 0000000000000008 00000000800000c0\n",
    "end 69 shutdown 4ae8302113dbdae7df835bd3e5cac51da1003805090bbe5db767ff2f7656aa1e\n",
];

const USER_MODE: Guest<'static> = Guest {
    code: &USER_MODE_CODE,
    tables: &USER_MODE_TABLES,
    steps: 60_000,
    lines: &USER_MODE_LINES,
};

#[test]
fn a_module_of_mode_u_keeps_words(rt: HostRuntime) {
    expect_guest(&rt, rt.alloc(), &USER_MODE);
}
