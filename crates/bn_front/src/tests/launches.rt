//! Guests that launch modules: what a module is known by, and each refusal in its order.
//! Made by `tests/make` from their assembly; the traces are those of `tests/interpreter.py`.

use super::guest::{Guest, expect_guests};

// A module that accepts a page is launched again over another page of its own with the same bytes:
// that is a duplicate, but first it is not offered where the accepted page isn't.
const ACCEPTED_TWICE_CODE: [u32; 34] = [
    0x00000f97, // auipc x31,0x0
    0x400f8f93, // addi x31,x31,1024
    0x000fbf83, // ld x31,0(x31)
    0x180f9073, // csrrw x0,satp,x31
    0x00008417, // auipc x8,0x8
    0xff040413, // addi x8,x8,-16
    0x0004028b, // b.launch x5,x8
    0x00100f93, // addi x31,x0,1
    0x05f29a63, // bne x5,x31,0x80000074
    0x00008417, // auipc x8,0x8
    0x4ac40413, // addi x8,x8,1196
    0x0004028b, // b.launch x5,x8
    0x00200f93, // addi x31,x0,2
    0x05f29063, // bne x5,x31,0x80000074
    0x00003497, // auipc x9,0x3
    0x04848493, // addi x9,x9,72
    0x0104b303, // ld x6,16(x9)
    0x0184b383, // ld x7,24(x9)
    0x0064b023, // sd x6,0(x9)
    0x0084b303, // ld x6,8(x9)
    0x0074b423, // sd x7,8(x9)
    0x0004028b, // b.launch x5,x8
    0xffa00f93, // addi x31,x0,-6
    0x01f29c63, // bne x5,x31,0x80000074
    0x0064b423, // sd x6,8(x9)
    0x0004028b, // b.launch x5,x8
    0xff900f93, // addi x31,x0,-7
    0x01f29463, // bne x5,x31,0x80000074
    0x0100006f, // jal x0,0x80000080
    0x02100513, // addi x10,x0,33
    0x00100893, // addi x17,x0,1
    0x00000073, // ecall
    0x00800893, // addi x17,x0,8
    0x00000073, // ecall
];

const ACCEPTED_TWICE_TABLES: [(usize, u64); 26] = [
    (1024, 0x8000000000080001),
    (4096, 0x20000801),
    (4112, 0x200000cf),
    (8192, 0x20000c01),
    (12416, 0x200048cf),
    (12424, 0x200050cf),
    (12432, 0x20004ccf),
    (12440, 0x200054cf),
    (12448, 0x200058cf),
    (32768, 0x201010147534e42),
    (32776, 0x1),
    (32784, 0x14000),
    (32848, 0x11),
    (32856, 0x10302),
    (32864, 0x14),
    (32872, 0x401),
    (33872, 0xab2f9cb434a2107e),
    (33880, 0x342d906516308d9b),
    (33888, 0x81f53274ac04d50c),
    (33896, 0x33bf013a44259e23),
    (34000, 0x201000147534e42),
    (34016, 0x10000),
    (34080, 0x10),
    (34088, 0x701),
    (34096, 0x11),
    (34104, 0x303),
];

const ACCEPTED_TWICE_LINES: [&str; 5] = [
    "launch 6 0 1 04689eadfe833437695adbbc9da7f4238efa35d7b585a0b0cca48b2781ef701b\n",
    "launch 11 0 2 7e10a234b49c2fab9b8d301665902d340cd504ac7432f581239e25443a01bf33\n",
    "refuse 21 0 launch -6\n",
    "refuse 25 0 launch -7\n",
    "end 31 shutdown 9f584077bc47b90910fff1fd99e998065105fbead582b6d8fdbafb0faba4a044\n",
];

// Where a text may stand, without translation: at a multiple of 8 with room for it in its page, and
// in RAM. The last place of a page is one, and has no text.
const ADDRESSES_CODE: [u32; 60] = [
    0x00008497, // auipc x9,0x8
    0x00048493, // addi x9,x9,0
    0x00448413, // addi x8,x9,4
    0x0004028b, // b.launch x5,x8
    0xfff00f93, // addi x31,x0,-1
    0x0df29463, // bne x5,x31,0x800000dc
    0x16700393, // addi x7,x0,359
    0x00339393, // slli x7,x7,0x3
    0x00748433, // add x8,x9,x7
    0x0004028b, // b.launch x5,x8
    0xfff00f93, // addi x31,x0,-1
    0x0bf29863, // bne x5,x31,0x800000dc
    0x00009417, // auipc x8,0x9
    0xfc840413, // addi x8,x8,-56
    0x0004028b, // b.launch x5,x8
    0xfff00f93, // addi x31,x0,-1
    0x09f29e63, // bne x5,x31,0x800000dc
    0xb3840413, // addi x8,x8,-1224
    0x0004028b, // b.launch x5,x8
    0xff000f93, // addi x31,x0,-16
    0x09f29663, // bne x5,x31,0x800000dc
    0x00048413, // addi x8,x9,0
    0x0004028b, // b.launch x5,x8
    0xff000f93, // addi x31,x0,-16
    0x07f29e63, // bne x5,x31,0x800000dc
    0x0001f417, // auipc x8,0x1f
    0xf9c40413, // addi x8,x8,-100
    0x0004028b, // b.launch x5,x8
    0xff000f93, // addi x31,x0,-16
    0x07f29463, // bne x5,x31,0x800000dc
    0x00020417, // auipc x8,0x20
    0xf8840413, // addi x8,x8,-120
    0x0004028b, // b.launch x5,x8
    0xffe00f93, // addi x31,x0,-2
    0x05f29a63, // bne x5,x31,0x800000dc
    0xfffff417, // auipc x8,0xfffff
    0xf7440413, // addi x8,x8,-140
    0x0004028b, // b.launch x5,x8
    0xffe00f93, // addi x31,x0,-2
    0x05f29063, // bne x5,x31,0x800000dc
    0x00000413, // addi x8,x0,0
    0x0004028b, // b.launch x5,x8
    0xffe00f93, // addi x31,x0,-2
    0x03f29863, // bne x5,x31,0x800000dc
    0x00100393, // addi x7,x0,1
    0x03839393, // slli x7,x7,0x38
    0x00748433, // add x8,x9,x7
    0x0004028b, // b.launch x5,x8
    0xffe00f93, // addi x31,x0,-2
    0x01f29c63, // bne x5,x31,0x800000dc
    0x00400413, // addi x8,x0,4
    0x0004028b, // b.launch x5,x8
    0xfff00f93, // addi x31,x0,-1
    0x01f29463, // bne x5,x31,0x800000dc
    0x0100006f, // jal x0,0x800000e8
    0x02100513, // addi x10,x0,33
    0x00100893, // addi x17,x0,1
    0x00000073, // ecall
    0x00800893, // addi x17,x0,8
    0x00000073, // ecall
];

const ADDRESSES_TABLES: [(usize, u64); 0] = [];

const ADDRESSES_LINES: [&str; 12] = [
    "refuse 3 0 launch -1\n",
    "refuse 9 0 launch -1\n",
    "refuse 14 0 launch -1\n",
    "refuse 18 0 launch -16\n",
    "refuse 22 0 launch -16\n",
    "refuse 27 0 launch -16\n",
    "refuse 32 0 launch -2\n",
    "refuse 37 0 launch -2\n",
    "refuse 41 0 launch -2\n",
    "refuse 47 0 launch -2\n",
    "refuse 51 0 launch -1\n",
    "end 57 shutdown fc10f41702184169daf19314d6a9229d7fc560ceba9087cc95ad6499d09e4be1\n",
];

// Two virtual pages of one guest page; a page that a live module has; both at once; both and no
// magic. An accepted page may have an owner, but isn't offered here.
const ALIAS_AND_OWNED_CODE: [u32; 46] = [
    0x00000f97, // auipc x31,0x0
    0x400f8f93, // addi x31,x31,1024
    0x000fbf83, // ld x31,0(x31)
    0x180f9073, // csrrw x0,satp,x31
    0x00008417, // auipc x8,0x8
    0xff040413, // addi x8,x8,-16
    0x0004028b, // b.launch x5,x8
    0x00100f93, // addi x31,x0,1
    0x09f29263, // bne x5,x31,0x800000a4
    0x00009417, // auipc x8,0x9
    0xfdc40413, // addi x8,x8,-36
    0x0004028b, // b.launch x5,x8
    0xffb00f93, // addi x31,x0,-5
    0x07f29863, // bne x5,x31,0x800000a4
    0x00009417, // auipc x8,0x9
    0x49840413, // addi x8,x8,1176
    0x0004028b, // b.launch x5,x8
    0xffc00f93, // addi x31,x0,-4
    0x05f29e63, // bne x5,x31,0x800000a4
    0x0000a417, // auipc x8,0xa
    0x95440413, // addi x8,x8,-1708
    0x0004028b, // b.launch x5,x8
    0xffc00f93, // addi x31,x0,-4
    0x05f29463, // bne x5,x31,0x800000a4
    0x00040023, // sb x0,0(x8)
    0x0000a417, // auipc x8,0xa
    0x93c40413, // addi x8,x8,-1732
    0x0004028b, // b.launch x5,x8
    0xff000f93, // addi x31,x0,-16
    0x03f29863, // bne x5,x31,0x800000a4
    0x0000a417, // auipc x8,0xa
    0xf8840413, // addi x8,x8,-120
    0x0004028b, // b.launch x5,x8
    0xffb00f93, // addi x31,x0,-5
    0x01f29e63, // bne x5,x31,0x800000a4
    0x0000a417, // auipc x8,0xa
    0x44440413, // addi x8,x8,1092
    0x0004028b, // b.launch x5,x8
    0xffa00f93, // addi x31,x0,-6
    0x01f29463, // bne x5,x31,0x800000a4
    0x0100006f, // jal x0,0x800000b0
    0x02100513, // addi x10,x0,33
    0x00100893, // addi x17,x0,1
    0x00000073, // ecall
    0x00800893, // addi x17,x0,8
    0x00000073, // ecall
];

const ALIAS_AND_OWNED_TABLES: [(usize, u64); 48] = [
    (1024, 0x8000000000080001),
    (4096, 0x20000801),
    (4112, 0x200000cf),
    (8192, 0x20000c01),
    (12416, 0x200048cf),
    (12424, 0x200048cf),
    (12432, 0x200040cf),
    (12440, 0x20004ccf),
    (32768, 0x201010147534e42),
    (32784, 0x80010000),
    (32848, 0x80010),
    (32856, 0x501),
    (32864, 0x80011),
    (32872, 0x301),
    (36864, 0x201010147534e42),
    (36880, 0x10000),
    (36944, 0x10),
    (36952, 0x501),
    (36960, 0x11),
    (36968, 0x301),
    (38096, 0x201010147534e42),
    (38112, 0x13000),
    (38176, 0x12),
    (38184, 0x301),
    (38192, 0x13),
    (38200, 0x501),
    (39328, 0x301010147534e42),
    (39344, 0x10000),
    (39408, 0x10),
    (39416, 0x501),
    (39424, 0x11),
    (39432, 0x301),
    (39440, 0x12),
    (39448, 0x301),
    (40960, 0x201010147534e42),
    (40976, 0x10000),
    (41040, 0x10),
    (41048, 0x501),
    (41056, 0x11),
    (41064, 0x303),
    (42192, 0x201010147534e42),
    (42208, 0x13000),
    (42272, 0x12),
    (42280, 0x103),
    (42288, 0x13),
    (42296, 0x501),
    (65536, 0x200b00700513),
    (69632, 0x1122334455667788),
];

const ALIAS_AND_OWNED_LINES: [&str; 8] = [
    "launch 6 0 1 a22aca9e914d1a17e9d49ca6d48af078e4a08f78d0973c262217865daba4cddc\n",
    "refuse 11 0 launch -5\n",
    "refuse 16 0 launch -4\n",
    "refuse 21 0 launch -4\n",
    "refuse 27 0 launch -16\n",
    "refuse 32 0 launch -5\n",
    "refuse 37 0 launch -6\n",
    "end 43 shutdown 420ed5534f303c307119f1792542b004d49da1a04bc6f7ea416bbce7922010af\n",
];

// The same text over other pages with the same bytes is the same identity, and refused; with
// another byte in a page it is another.
const DUPLICATE_CODE: [u32; 31] = [
    0x00000f97, // auipc x31,0x0
    0x400f8f93, // addi x31,x31,1024
    0x000fbf83, // ld x31,0(x31)
    0x180f9073, // csrrw x0,satp,x31
    0x00009417, // auipc x8,0x9
    0xff040413, // addi x8,x8,-16
    0x0004028b, // b.launch x5,x8
    0x00100f93, // addi x31,x0,1
    0x05f29463, // bne x5,x31,0x80000068
    0x00003497, // auipc x9,0x3
    0x05c48493, // addi x9,x9,92
    0x0104b303, // ld x6,16(x9)
    0x0184b383, // ld x7,24(x9)
    0x0064b023, // sd x6,0(x9)
    0x0074b423, // sd x7,8(x9)
    0x0004028b, // b.launch x5,x8
    0xff900f93, // addi x31,x0,-7
    0x03f29263, // bne x5,x31,0x80000068
    0x00014497, // auipc x9,0x14
    0xfb748493, // addi x9,x9,-73
    0x00100313, // addi x6,x0,1
    0x00648023, // sb x6,0(x9)
    0x0004028b, // b.launch x5,x8
    0x00200f93, // addi x31,x0,2
    0x01f29463, // bne x5,x31,0x80000068
    0x0100006f, // jal x0,0x80000074
    0x02100513, // addi x10,x0,33
    0x00100893, // addi x17,x0,1
    0x00000073, // ecall
    0x00800893, // addi x17,x0,8
    0x00000073, // ecall
];

const DUPLICATE_TABLES: [(usize, u64); 16] = [
    (1024, 0x8000000000080001),
    (4096, 0x20000801),
    (4112, 0x200000cf),
    (8192, 0x20000c01),
    (12416, 0x200040cf),
    (12424, 0x200044cf),
    (12432, 0x200048cf),
    (12440, 0x20004ccf),
    (36864, 0x201010147534e42),
    (36880, 0x10000),
    (36944, 0x10),
    (36952, 0x501),
    (36960, 0x11),
    (36968, 0x301),
    (69632, 0x1122334455667788),
    (77824, 0x1122334455667788),
];

const DUPLICATE_LINES: [&str; 4] = [
    "launch 6 0 1 598c09d2939718efa7b56a815379cdcad3dd590f8cfeaf16aedc0c294d70caa7\n",
    "refuse 15 0 launch -7\n",
    "launch 22 0 2 c8875bf69291982a7ecb09c0c4e2033fa7541c0268a37c551d2194e85623f818\n",
    "end 28 shutdown 1c23a4fdf780b3a07f9949c51b4deaaf0358a269dfa87edebcd52aee685a03f3\n",
];

// Fifteen modules of one text, each over a page with another number. The sixteenth finds the table
// full, and is refused as a duplicate first where it is one.
const FULL_CODE: [u32; 38] = [
    0x00000f97, // auipc x31,0x0
    0x400f8f93, // addi x31,x31,1024
    0x000fbf83, // ld x31,0(x31)
    0x180f9073, // csrrw x0,satp,x31
    0x00009417, // auipc x8,0x9
    0xff040413, // addi x8,x8,-16
    0x00003497, // auipc x9,0x3
    0x06848493, // addi x9,x9,104
    0x00010a17, // auipc x20,0x10
    0xfe0a0a13, // addi x20,x20,-32
    0x00001ab7, // lui x21,0x1
    0x0004b303, // ld x6,0(x9)
    0x00100913, // addi x18,x0,1
    0x01000993, // addi x19,x0,16
    0x0064b023, // sd x6,0(x9)
    0x012a3023, // sd x18,0(x20)
    0x0004028b, // b.launch x5,x8
    0x05229063, // bne x5,x18,0x80000084
    0x40030313, // addi x6,x6,1024
    0x015a0a33, // add x20,x20,x21
    0x00190913, // addi x18,x18,1
    0xff3912e3, // bne x18,x19,0x80000038
    0x0064b023, // sd x6,0(x9)
    0x00300913, // addi x18,x0,3
    0x012a3023, // sd x18,0(x20)
    0x0004028b, // b.launch x5,x8
    0xff900f93, // addi x31,x0,-7
    0x01f29c63, // bne x5,x31,0x80000084
    0x000a3023, // sd x0,0(x20)
    0x0004028b, // b.launch x5,x8
    0xff800f93, // addi x31,x0,-8
    0x01f29463, // bne x5,x31,0x80000084
    0x0100006f, // jal x0,0x80000090
    0x02100513, // addi x10,x0,33
    0x00100893, // addi x17,x0,1
    0x00000073, // ecall
    0x00800893, // addi x17,x0,8
    0x00000073, // ecall
];

const FULL_TABLES: [(usize, u64); 9] = [
    (1024, 0x8000000000080001),
    (4096, 0x20000801),
    (4112, 0x200000cf),
    (8192, 0x20000c01),
    (12416, 0x200040cf),
    (36864, 0x101010147534e42),
    (36880, 0x10000),
    (36944, 0x10),
    (36952, 0x501),
];

const FULL_LINES: [&str; 18] = [
    "launch 16 0 1 6ed05c980f8d2d8aba35cb7a89ad666da1446c47f8be71ae3d449633ff2f108a\n",
    "launch 24 0 2 7707990be21f4a97b400ffa2b9334955584141c3905fa3bcb9f783d3c207770e\n",
    "launch 32 0 3 0be9a50ca0ac61f3c8dc38c915481c19984e83c2647e1cf25219abcca0ea28e2\n",
    "launch 40 0 4 b55e42828636d6c735d0d6314b1a7c0ab7b5bcf283bb72816cba80d7fb7eed51\n",
    "launch 48 0 5 9174a1fe7f405244352666ab1029ecdb686b1d50d788c8152017abdb860514ad\n",
    "launch 56 0 6 2d062b92b9c943bd7aabe68356626b55ca5dd2bccced753d3cc082bf5578f342\n",
    "launch 64 0 7 b47bd1347d12ec8e3cef4f0da1669917a1f47620fd0e3d87e2dc897905f1d708\n",
    "launch 72 0 8 b8b3273857bbbea6c1702e11c43eddc565022f2f8a494a96e2f8fc254ed0c95d\n",
    "launch 80 0 9 54d16096ac1da2e5d0432c06e15f49158ae07b3853e130ac7253af37862a16e9\n",
    "launch 88 0 10 6c3a2c0b04cf210abd985ee79c21891e6073c65e1bce6f9937ae3c4391c9afa8\n",
    "launch 96 0 11 dd6af333add768652f804126e7895ac01c8e621cc31a6714407d4c0dee4fc5d0\n",
    "launch 104 0 12 a31ef9e66b84891f493fc902213c93137ee1f2e13a9c72ad09334d2b74114592\n",
    "launch 112 0 13 2a78bc868355152de18c8821ef32908e45460906d23c4e15636dbe986e01e6ce\n",
    "launch 120 0 14 4740157c9b78f2effdd8774209cf65b89731af0585b980bfbd76977f1df7e6ba\n",
    "launch 128 0 15 1c9aff2d87bdd5c3f47eeb2d330729ad1c058a1d6b3d80f3ba31f8f66fb82b53\n",
    "refuse 137 0 launch -7\n",
    "refuse 141 0 launch -8\n",
    "end 147 shutdown bd0f13eddde4e10b56323295490c8206f2353af05cfe5e924fe2a3dd2101ad10\n",
];

// A launch gives an id, and an identity that is SHA-256 of the text and of both pages. A second one
// of the same text finds the pages owned.
const IDENTITY_CODE: [u32; 14] = [
    0x00008417, // auipc x8,0x8
    0x00040413, // addi x8,x8,0
    0x0004028b, // b.launch x5,x8
    0x00100f93, // addi x31,x0,1
    0x01f29a63, // bne x5,x31,0x80000024
    0x0004030b, // b.launch x6,x8
    0xffc00f93, // addi x31,x0,-4
    0x01f31463, // bne x6,x31,0x80000024
    0x0100006f, // jal x0,0x80000030
    0x02100513, // addi x10,x0,33
    0x00100893, // addi x17,x0,1
    0x00000073, // ecall
    0x00800893, // addi x17,x0,8
    0x00000073, // ecall
];

const IDENTITY_TABLES: [(usize, u64); 8] = [
    (32768, 0x201010147534e42),
    (32784, 0x80010000),
    (32848, 0x80010),
    (32856, 0x501),
    (32864, 0x80011),
    (32872, 0x301),
    (65536, 0x200b00700513),
    (69632, 0x1122334455667788),
];

const IDENTITY_LINES: [&str; 3] = [
    "launch 2 0 1 a22aca9e914d1a17e9d49ca6d48af078e4a08f78d0973c262217865daba4cddc\n",
    "refuse 5 0 launch -4\n",
    "end 11 shutdown ac0ba899ddfa5255bc93d929a27514540860338fa691629a161bbf4a3c6fddca\n",
];

// A module offers two pages to partners, and another accepts them. Until then they aren't offered;
// nor is one with more rights than it is offered with, to no partner, or to a partner that the mask
// of the page doesn't name. The offered pages have owners.
const OFFERS_CODE: [u32; 72] = [
    0x00000f97, // auipc x31,0x0
    0x108f8f93, // addi x31,x31,264
    0x105f9073, // csrrw x0,stvec,x31
    0x00009417, // auipc x8,0x9
    0xff440413, // addi x8,x8,-12
    0x0004028b, // b.launch x5,x8
    0xffa00f93, // addi x31,x0,-6
    0x0ff29863, // bne x5,x31,0x8000010c
    0x00008417, // auipc x8,0x8
    0xfe040413, // addi x8,x8,-32
    0x0004028b, // b.launch x5,x8
    0x00100f93, // addi x31,x0,1
    0x0df29e63, // bne x5,x31,0x8000010c
    0x00009417, // auipc x8,0x9
    0x49c40413, // addi x8,x8,1180
    0x0004028b, // b.launch x5,x8
    0xffa00f93, // addi x31,x0,-6
    0x0df29463, // bne x5,x31,0x8000010c
    0x0000a417, // auipc x8,0xa
    0x95840413, // addi x8,x8,-1704
    0x0004028b, // b.launch x5,x8
    0xffa00f93, // addi x31,x0,-6
    0x0bf29a63, // bne x5,x31,0x8000010c
    0x0000a417, // auipc x8,0xa
    0xfa440413, // addi x8,x8,-92
    0x0004028b, // b.launch x5,x8
    0xffa00f93, // addi x31,x0,-6
    0x0bf29063, // bne x5,x31,0x8000010c
    0x0000a417, // auipc x8,0xa
    0x46040413, // addi x8,x8,1120
    0x0004028b, // b.launch x5,x8
    0xffa00f93, // addi x31,x0,-6
    0x09f29663, // bne x5,x31,0x8000010c
    0x00009417, // auipc x8,0x9
    0xf7c40413, // addi x8,x8,-132
    0x0004028b, // b.launch x5,x8
    0x00200f93, // addi x31,x0,2
    0x07f29c63, // bne x5,x31,0x8000010c
    0x00009417, // auipc x8,0x9
    0xf6840413, // addi x8,x8,-152
    0x0004028b, // b.launch x5,x8
    0xffc00f93, // addi x31,x0,-4
    0x07f29263, // bne x5,x31,0x8000010c
    0x00008417, // auipc x8,0x8
    0x42440413, // addi x8,x8,1060
    0x0004028b, // b.launch x5,x8
    0xffc00f93, // addi x31,x0,-4
    0x05f29863, // bne x5,x31,0x8000010c
    0x00009417, // auipc x8,0x9
    0x8e040413, // addi x8,x8,-1824
    0x0004028b, // b.launch x5,x8
    0xffc00f93, // addi x31,x0,-4
    0x03f29e63, // bne x5,x31,0x8000010c
    0x00014417, // auipc x8,0x14
    0xf2c40413, // addi x8,x8,-212
    0x00015497, // auipc x9,0x15
    0xf2448493, // addi x9,x9,-220
    0x00000e97, // auipc x29,0x0
    0x00ce8e93, // addi x29,x29,12
    0x00043303, // ld x6,0(x8)
    0x00000e97, // auipc x29,0x0
    0x00ce8e93, // addi x29,x29,12
    0x0084b023, // sd x8,0(x9)
    0x00000f93, // addi x31,x0,0
    0x01f31663, // bne x6,x31,0x8000010c
    0x0140006f, // jal x0,0x80000118
    0x000e8067, // jalr x0,0(x29)
    0x02100513, // addi x10,x0,33
    0x00100893, // addi x17,x0,1
    0x00000073, // ecall
    0x00800893, // addi x17,x0,8
    0x00000073, // ecall
];

const OFFERS_TABLES: [(usize, u64); 71] = [
    (32768, 0x301010147534e42),
    (32776, 0x3),
    (32784, 0x80010000),
    (32848, 0x80010),
    (32856, 0x501),
    (32864, 0x80014),
    (32872, 0x30302),
    (32880, 0x80015),
    (32888, 0x70102),
    (33872, 0xad4ae95fea6c60a2),
    (33880, 0xc5dab67f12540d79),
    (33888, 0xb2719690f4a801a6),
    (33896, 0xcef02389fd395781),
    (33904, 0xc8e1db113d9dc699),
    (33912, 0x430091b65ee02a04),
    (33920, 0x62257f90c0e17ed4),
    (33928, 0x5a31ea6b489dcee5),
    (33936, 0xa8b7482a9923437f),
    (33944, 0x675eec227c2aea52),
    (33952, 0xd29f6ae4ce495f8e),
    (33960, 0xb928edadba47e6b),
    (34000, 0x201010147534e42),
    (34016, 0x80012000),
    (34080, 0x80012),
    (34088, 0x501),
    (34096, 0x80014),
    (34104, 0x301),
    (35232, 0x201010147534e42),
    (35240, 0x1),
    (35248, 0x80012000),
    (35312, 0x80012),
    (35320, 0x501),
    (35328, 0x80015),
    (35336, 0x10102),
    (36336, 0x1),
    (36344, 0x2),
    (36352, 0x3),
    (36360, 0x4),
    (36864, 0x301010147534e42),
    (36880, 0x80011000),
    (36944, 0x80011),
    (36952, 0x501),
    (36960, 0x80014),
    (36968, 0x103),
    (36976, 0x80015),
    (36984, 0x103),
    (38096, 0x201010147534e42),
    (38112, 0x80012000),
    (38176, 0x80012),
    (38184, 0x501),
    (38192, 0x80015),
    (38200, 0x303),
    (39328, 0x201000147534e42),
    (39344, 0x80012000),
    (39408, 0x80012),
    (39416, 0x501),
    (39424, 0x80015),
    (39432, 0x103),
    (40960, 0x201010147534e42),
    (40976, 0x80012000),
    (41040, 0x80012),
    (41048, 0x501),
    (41056, 0x80014),
    (41064, 0x103),
    (42192, 0x201010147534e42),
    (42208, 0x80012000),
    (42272, 0x80012),
    (42280, 0x501),
    (42288, 0x80016),
    (42296, 0x103),
    (81920, 0x5555),
];

const OFFERS_LINES: [&str; 15] = [
    "refuse 5 0 launch -6\n",
    "launch 10 0 1 1e3035ed3ce6b0114e1d4a90723d6f8ae7960ecfc6c3151c048844f5dfefe1ac\n",
    "refuse 15 0 launch -6\n",
    "refuse 20 0 launch -6\n",
    "refuse 25 0 launch -6\n",
    "refuse 30 0 launch -6\n",
    "launch 35 0 2 a2606cea5fe94aad790d54127fb6dac5a601a8f4909671b2815739fd8923f0ce\n",
    "refuse 40 0 launch -4\n",
    "refuse 45 0 launch -4\n",
    "refuse 50 0 launch -4\n",
    "deny 59 0 0 load 0000000080014\n",
    "trap 59 0 0000000000000005 00000000800000ec\n",
    "deny 63 0 0 store 0000000080015\n",
    "trap 63 0 0000000000000007 00000000800000f8\n",
    "end 70 shutdown 3b33a7184414648237ba20adb27aee4df2f81b1de4d993790d63909e0898d803\n",
];

// A declared page that is nowhere, outside RAM, at no address, or behind a table that a module
// owns. That is tested over all pages before any page's owners are.
const PLACES_CODE: [u32; 64] = [
    0x00000f97, // auipc x31,0x0
    0x400f8f93, // addi x31,x31,1024
    0x000fbf83, // ld x31,0(x31)
    0x180f9073, // csrrw x0,satp,x31
    0x00008417, // auipc x8,0x8
    0xff040413, // addi x8,x8,-16
    0x0004028b, // b.launch x5,x8
    0x00100f93, // addi x31,x0,1
    0x0df29663, // bne x5,x31,0x800000ec
    0x00009497, // auipc x9,0x9
    0xfdc48493, // addi x9,x9,-36
    0x01200393, // addi x7,x0,18
    0x0674b023, // sd x7,96(x9)
    0x0004828b, // b.launch x5,x9
    0xffd00f93, // addi x31,x0,-3
    0x0bf29863, // bne x5,x31,0x800000ec
    0x01300393, // addi x7,x0,19
    0x0674b023, // sd x7,96(x9)
    0x0004828b, // b.launch x5,x9
    0xffd00f93, // addi x31,x0,-3
    0x09f29e63, // bne x5,x31,0x800000ec
    0x60000393, // addi x7,x0,1536
    0x0674b023, // sd x7,96(x9)
    0x0004828b, // b.launch x5,x9
    0xffd00f93, // addi x31,x0,-3
    0x09f29463, // bne x5,x31,0x800000ec
    0x00048023, // sb x0,0(x9)
    0x0674b023, // sd x7,96(x9)
    0x0004828b, // b.launch x5,x9
    0xff000f93, // addi x31,x0,-16
    0x07f29a63, // bne x5,x31,0x800000ec
    0x04200313, // addi x6,x0,66
    0x00648023, // sb x6,0(x9)
    0x00100393, // addi x7,x0,1
    0x01a39393, // slli x7,x7,0x1a
    0x0674b023, // sd x7,96(x9)
    0x0004828b, // b.launch x5,x9
    0xffd00f93, // addi x31,x0,-3
    0x05f29a63, // bne x5,x31,0x800000ec
    0x01200393, // addi x7,x0,18
    0x01100313, // addi x6,x0,17
    0x0464b823, // sd x6,80(x9)
    0x00c31313, // slli x6,x6,0xc
    0x0064b823, // sd x6,16(x9)
    0x0674b023, // sd x7,96(x9)
    0x0004828b, // b.launch x5,x9
    0xffd00f93, // addi x31,x0,-3
    0x03f29863, // bne x5,x31,0x800000ec
    0x01000313, // addi x6,x0,16
    0x0464b823, // sd x6,80(x9)
    0x00c31313, // slli x6,x6,0xc
    0x0064b823, // sd x6,16(x9)
    0xfff00393, // addi x7,x0,-1
    0x00c3d393, // srli x7,x7,0xc
    0x0674b023, // sd x7,96(x9)
    0x0004828b, // b.launch x5,x9
    0x00200f93, // addi x31,x0,2
    0x01f29463, // bne x5,x31,0x800000ec
    0x0100006f, // jal x0,0x800000f8
    0x02100513, // addi x10,x0,33
    0x00100893, // addi x17,x0,1
    0x00000073, // ecall
    0x00800893, // addi x17,x0,8
    0x00000073, // ecall
];

const PLACES_TABLES: [(usize, u64); 25] = [
    (1024, 0x8000000000080001),
    (4096, 0x20000801),
    (4112, 0x200000cf),
    (8184, 0x20001001),
    (8192, 0x20000c01),
    (8216, 0x20004401),
    (12416, 0x200048cf),
    (12424, 0x200040cf),
    (12440, 0x200080cf),
    (20472, 0x20001401),
    (24568, 0x20004ccf),
    (32768, 0x201010147534e42),
    (32784, 0x80010000),
    (32848, 0x80010),
    (32856, 0x501),
    (32864, 0x80011),
    (32872, 0x301),
    (36864, 0x201010147534e42),
    (36880, 0x10000),
    (36944, 0x10),
    (36952, 0x501),
    (36960, 0x11),
    (36968, 0x301),
    (65536, 0x200b00700513),
    (69632, 0x1122334455667788),
];

const PLACES_LINES: [&str; 9] = [
    "launch 6 0 1 a22aca9e914d1a17e9d49ca6d48af078e4a08f78d0973c262217865daba4cddc\n",
    "refuse 13 0 launch -3\n",
    "refuse 18 0 launch -3\n",
    "refuse 23 0 launch -3\n",
    "refuse 28 0 launch -16\n",
    "refuse 36 0 launch -3\n",
    "refuse 45 0 launch -3\n",
    "launch 55 0 2 56fb3ada8945cbe0329ad92e637bfdf8bc4988ab6fa94ac8abe2b801687de5f7\n",
    "end 61 shutdown 5532840c077461eb3a488147ca78e52b9f44279013f00b907aa7f43d9c25235b\n",
];

// Each test of a text: two bytes of a good one are changed, and the launch is refused by the first
// test that fails.
const TEXTS_CODE: [u32; 32] = [
    0x00008417, // auipc x8,0x8
    0x00040413, // addi x8,x8,0
    0x00000497, // auipc x9,0x0
    0x3f848493, // addi x9,x9,1016
    0x00000917, // auipc x18,0x0
    0x58090913, // addi x18,x18,1408
    0x0004da03, // lhu x20,0(x9)
    0x0024da83, // lhu x21,2(x9)
    0x008a0a33, // add x20,x20,x8
    0x008a8ab3, // add x21,x21,x8
    0x000a4b03, // lbu x22,0(x20)
    0x000acb83, // lbu x23,0(x21)
    0x0044cc03, // lbu x24,4(x9)
    0x0054cc83, // lbu x25,5(x9)
    0x018a0023, // sb x24,0(x20)
    0x019a8023, // sb x25,0(x21)
    0x0004028b, // b.launch x5,x8
    0x016a0023, // sb x22,0(x20)
    0x017a8023, // sb x23,0(x21)
    0x00648303, // lb x6,6(x9)
    0x00629e63, // bne x5,x6,0x8000006c
    0x00848493, // addi x9,x9,8
    0xfd2490e3, // bne x9,x18,0x80000018
    0x0004028b, // b.launch x5,x8
    0x00100f93, // addi x31,x0,1
    0x01f29463, // bne x5,x31,0x8000006c
    0x0100006f, // jal x0,0x80000078
    0x02100513, // addi x10,x0,33
    0x00100893, // addi x17,x0,1
    0x00000073, // ecall
    0x00800893, // addi x17,x0,8
    0x00000073, // ecall
];

const TEXTS_TABLES: [(usize, u64); 58] = [
    (1024, 0xf0424800000003),
    (1032, 0xf0414800000003),
    (1040, 0xef420000000004),
    (1048, 0xef420200000004),
    (1056, 0xf0000200030004),
    (1064, 0xee420200000005),
    (1072, 0xef020200040005),
    (1080, 0xed420000000006),
    (1088, 0xed420900000006),
    (1096, 0xee020900050006),
    (1104, 0xec420000000007),
    (1112, 0xec424100000007),
    (1120, 0xed094100060007),
    (1128, 0xeb421000000060),
    (1136, 0xeb420f00000060),
    (1144, 0xeb421000000066),
    (1152, 0xec411000070060),
    (1160, 0xea420000000058),
    (1168, 0xea420400000068),
    (1176, 0xeb100400600068),
    (1184, 0xe9420000000059),
    (1192, 0xe9420200000059),
    (1200, 0xe9420600000059),
    (1208, 0xe9420800000059),
    (1216, 0xe9050200690068),
    (1224, 0xe9020300690068),
    (1232, 0xea000200580069),
    (1240, 0xe8420200000010),
    (1248, 0xe8421000000011),
    (1256, 0xe8422000000011),
    (1264, 0xe8010300590058),
    (1272, 0xe9060200590010),
    (1280, 0xe7420500000008),
    (1288, 0xe7420200000068),
    (1296, 0xe70102006a0068),
    (1304, 0xe742010000005a),
    (1312, 0xe70103006a0068),
    (1320, 0xe8020500100008),
    (1328, 0xe6420100000009),
    (1336, 0xe642010000000f),
    (1344, 0xe6420100000018),
    (1352, 0xe642010000004f),
    (1360, 0xe642010000005b),
    (1368, 0xe642010000006f),
    (1376, 0xe6420100000070),
    (1384, 0xe642010000044f),
    (1392, 0xe6420100000450),
    (1400, 0xe64201000004cf),
    (1408, 0xe7050100080009),
    (1416, 0xe6010104700008),
    (32768, 0x201010147534e42),
    (32784, 0x80010000),
    (32848, 0x80010),
    (32856, 0x501),
    (32864, 0x80011),
    (32872, 0x301),
    (65536, 0x200b00700513),
    (69632, 0x1122334455667788),
];

const TEXTS_LINES: [&str; 52] = [
    "refuse 16 0 launch -16\n",
    "refuse 33 0 launch -16\n",
    "refuse 50 0 launch -17\n",
    "refuse 67 0 launch -17\n",
    "refuse 84 0 launch -16\n",
    "refuse 101 0 launch -18\n",
    "refuse 118 0 launch -17\n",
    "refuse 135 0 launch -19\n",
    "refuse 152 0 launch -19\n",
    "refuse 169 0 launch -18\n",
    "refuse 186 0 launch -20\n",
    "refuse 203 0 launch -20\n",
    "refuse 220 0 launch -19\n",
    "refuse 237 0 launch -21\n",
    "refuse 254 0 launch -21\n",
    "refuse 271 0 launch -21\n",
    "refuse 288 0 launch -20\n",
    "refuse 305 0 launch -22\n",
    "refuse 322 0 launch -22\n",
    "refuse 339 0 launch -21\n",
    "refuse 356 0 launch -23\n",
    "refuse 373 0 launch -23\n",
    "refuse 390 0 launch -23\n",
    "refuse 407 0 launch -23\n",
    "refuse 424 0 launch -23\n",
    "refuse 441 0 launch -23\n",
    "refuse 458 0 launch -22\n",
    "refuse 475 0 launch -24\n",
    "refuse 492 0 launch -24\n",
    "refuse 509 0 launch -24\n",
    "refuse 526 0 launch -24\n",
    "refuse 543 0 launch -23\n",
    "refuse 560 0 launch -25\n",
    "refuse 577 0 launch -25\n",
    "refuse 594 0 launch -25\n",
    "refuse 611 0 launch -25\n",
    "refuse 628 0 launch -25\n",
    "refuse 645 0 launch -24\n",
    "refuse 662 0 launch -26\n",
    "refuse 679 0 launch -26\n",
    "refuse 696 0 launch -26\n",
    "refuse 713 0 launch -26\n",
    "refuse 730 0 launch -26\n",
    "refuse 747 0 launch -26\n",
    "refuse 764 0 launch -26\n",
    "refuse 781 0 launch -26\n",
    "refuse 798 0 launch -26\n",
    "refuse 815 0 launch -26\n",
    "refuse 832 0 launch -25\n",
    "refuse 849 0 launch -26\n",
    "launch 856 0 1 a22aca9e914d1a17e9d49ca6d48af078e4a08f78d0973c262217865daba4cddc\n",
    "end 862 shutdown 66e76b698f2fcf6fd9d87caee8ba86ff5970a85904bbfb6f7232c950852d6432\n",
];

// Where the walk of a text's address finds no page of its own: no leaf, no address, a leaf outside
// RAM, a page or a table that a module owns. A leaf needs no permission and no bit A.
const UNMAPPED_CODE: [u32; 52] = [
    0x00000f97, // auipc x31,0x0
    0x400f8f93, // addi x31,x31,1024
    0x000fbf83, // ld x31,0(x31)
    0x180f9073, // csrrw x0,satp,x31
    0x00008417, // auipc x8,0x8
    0xff040413, // addi x8,x8,-16
    0x0004028b, // b.launch x5,x8
    0x00100f93, // addi x31,x0,1
    0x09f29e63, // bne x5,x31,0x800000bc
    0x00010437, // lui x8,0x10
    0x0004028b, // b.launch x5,x8
    0xffe00f93, // addi x31,x0,-2
    0x09f29663, // bne x5,x31,0x800000bc
    0x00011437, // lui x8,0x11
    0x0004028b, // b.launch x5,x8
    0xffe00f93, // addi x31,x0,-2
    0x07f29e63, // bne x5,x31,0x800000bc
    0x00012437, // lui x8,0x12
    0x0004028b, // b.launch x5,x8
    0xffe00f93, // addi x31,x0,-2
    0x07f29663, // bne x5,x31,0x800000bc
    0x00400437, // lui x8,0x400
    0x0004028b, // b.launch x5,x8
    0xffe00f93, // addi x31,x0,-2
    0x05f29e63, // bne x5,x31,0x800000bc
    0x00600437, // lui x8,0x600
    0x0004028b, // b.launch x5,x8
    0xffe00f93, // addi x31,x0,-2
    0x05f29663, // bne x5,x31,0x800000bc
    0x00800437, // lui x8,0x800
    0x0004028b, // b.launch x5,x8
    0xffe00f93, // addi x31,x0,-2
    0x03f29e63, // bne x5,x31,0x800000bc
    0x00013437, // lui x8,0x13
    0x0004028b, // b.launch x5,x8
    0xffe00f93, // addi x31,x0,-2
    0x03f29663, // bne x5,x31,0x800000bc
    0x00100413, // addi x8,x0,1
    0x02641413, // slli x8,x8,0x26
    0x0004028b, // b.launch x5,x8
    0xffe00f93, // addi x31,x0,-2
    0x01f29c63, // bne x5,x31,0x800000bc
    0x00014437, // lui x8,0x14
    0x0004028b, // b.launch x5,x8
    0x00200f93, // addi x31,x0,2
    0x01f29463, // bne x5,x31,0x800000bc
    0x0100006f, // jal x0,0x800000c8
    0x02100513, // addi x10,x0,33
    0x00100893, // addi x17,x0,1
    0x00000073, // ecall
    0x00800893, // addi x17,x0,8
    0x00000073, // ecall
];

const UNMAPPED_TABLES: [(usize, u64); 24] = [
    (1024, 0x8000000000080001),
    (4096, 0x20000801),
    (4112, 0x200000cf),
    (8192, 0x20000c01),
    (8208, 0x200020cf),
    (8216, 0x20004401),
    (8224, 0x20000c41),
    (12424, 0x200080cf),
    (12432, 0x200044cf),
    (12440, 0x200024c5),
    (12448, 0x20002409),
    (12456, 0x20004809),
    (32768, 0x201010147534e42),
    (32784, 0x80010000),
    (32848, 0x80010),
    (32856, 0x501),
    (32864, 0x80011),
    (32872, 0x301),
    (36864, 0x101010147534e42),
    (36880, 0x15000),
    (36944, 0x15),
    (36952, 0x401),
    (65536, 0x200b00700513),
    (69632, 0x1122334455667788),
];

const UNMAPPED_LINES: [&str; 11] = [
    "launch 6 0 1 a22aca9e914d1a17e9d49ca6d48af078e4a08f78d0973c262217865daba4cddc\n",
    "refuse 10 0 launch -2\n",
    "refuse 14 0 launch -2\n",
    "refuse 18 0 launch -2\n",
    "refuse 22 0 launch -2\n",
    "refuse 26 0 launch -2\n",
    "refuse 30 0 launch -2\n",
    "refuse 34 0 launch -2\n",
    "refuse 39 0 launch -2\n",
    "launch 43 0 2 6796d45d53875557ed9953ce94c46379220dcaf519f520f86afc2eed91d8cd73\n",
    "end 49 shutdown 5c2466bed45ea4db5a60c795a3fb1872cb195cba121981ba7a481706879b4522\n",
];

// Without translation each page is at its own address: one outside RAM, and one at an address of
// more bits, are nowhere. Nobody but the module has its pages then, in either mode.
const UNTRANSLATED_CODE: [u32; 28] = [
    0x00008417, // auipc x8,0x8
    0x00040413, // addi x8,x8,0
    0x000803b7, // lui x7,0x80
    0x02038393, // addi x7,x7,32
    0x06743023, // sd x7,96(x8)
    0x0004028b, // b.launch x5,x8
    0xffd00f93, // addi x31,x0,-3
    0x05f29063, // bne x5,x31,0x8000005c
    0x00100393, // addi x7,x0,1
    0x03339393, // slli x7,x7,0x33
    0x00080337, // lui x6,0x80
    0x006383b3, // add x7,x7,x6
    0x01138393, // addi x7,x7,17
    0x06743023, // sd x7,96(x8)
    0x0004028b, // b.launch x5,x8
    0xffd00f93, // addi x31,x0,-3
    0x01f29e63, // bne x5,x31,0x8000005c
    0x01130313, // addi x6,x6,17
    0x06643023, // sd x6,96(x8)
    0x0004028b, // b.launch x5,x8
    0x00100f93, // addi x31,x0,1
    0x01f29463, // bne x5,x31,0x8000005c
    0x0100006f, // jal x0,0x80000068
    0x02100513, // addi x10,x0,33
    0x00100893, // addi x17,x0,1
    0x00000073, // ecall
    0x00800893, // addi x17,x0,8
    0x00000073, // ecall
];

const UNTRANSLATED_TABLES: [(usize, u64); 8] = [
    (32768, 0x201010147534e42),
    (32784, 0x80010000),
    (32848, 0x80010),
    (32856, 0x501),
    (32864, 0x80011),
    (32872, 0x301),
    (65536, 0x200b00700513),
    (69632, 0x1122334455667788),
];

const UNTRANSLATED_LINES: [&str; 4] = [
    "refuse 5 0 launch -3\n",
    "refuse 14 0 launch -3\n",
    "launch 19 0 1 a22aca9e914d1a17e9d49ca6d48af078e4a08f78d0973c262217865daba4cddc\n",
    "end 25 shutdown 508d50b309cbaf56e61b366a7afaa3bb5cff92e1078a4af1ef5330509aabeb3e\n",
];

const GUESTS: [Guest<'static>; 11] = [
    Guest {
        code: &ACCEPTED_TWICE_CODE,
        tables: &ACCEPTED_TWICE_TABLES,
        steps: 60_000,
        lines: &ACCEPTED_TWICE_LINES,
    },
    Guest {
        code: &ADDRESSES_CODE,
        tables: &ADDRESSES_TABLES,
        steps: 60_000,
        lines: &ADDRESSES_LINES,
    },
    Guest {
        code: &ALIAS_AND_OWNED_CODE,
        tables: &ALIAS_AND_OWNED_TABLES,
        steps: 60_000,
        lines: &ALIAS_AND_OWNED_LINES,
    },
    Guest {
        code: &DUPLICATE_CODE,
        tables: &DUPLICATE_TABLES,
        steps: 60_000,
        lines: &DUPLICATE_LINES,
    },
    Guest {
        code: &FULL_CODE,
        tables: &FULL_TABLES,
        steps: 60_000,
        lines: &FULL_LINES,
    },
    Guest {
        code: &IDENTITY_CODE,
        tables: &IDENTITY_TABLES,
        steps: 60_000,
        lines: &IDENTITY_LINES,
    },
    Guest {
        code: &OFFERS_CODE,
        tables: &OFFERS_TABLES,
        steps: 60_000,
        lines: &OFFERS_LINES,
    },
    Guest {
        code: &PLACES_CODE,
        tables: &PLACES_TABLES,
        steps: 60_000,
        lines: &PLACES_LINES,
    },
    Guest {
        code: &TEXTS_CODE,
        tables: &TEXTS_TABLES,
        steps: 60_000,
        lines: &TEXTS_LINES,
    },
    Guest {
        code: &UNMAPPED_CODE,
        tables: &UNMAPPED_TABLES,
        steps: 60_000,
        lines: &UNMAPPED_LINES,
    },
    Guest {
        code: &UNTRANSLATED_CODE,
        tables: &UNTRANSLATED_TABLES,
        steps: 60_000,
        lines: &UNTRANSLATED_LINES,
    },
];

#[test]
fn modules_are_launched_or_refused(rt: HostRuntime) {
    expect_guests(&rt, rt.alloc(), &GUESTS);
}
