// The last blocks of the rows that are hashed most, and their schedules. These are constants, since such a block is padding and no more than a number that is 0 or 1; that each schedule is its block's is proved.
ghost use Rattle.std.specs.Prelude.{◌≡◌, ◌↔◌, IsTrue, MatchOption, ⊤};
ghost use Rattle.compression.specs.Fips180.{schedule};

use crate::schedule::message_schedule;

// What is shown of a secret number is the hash of 64 bytes: the last block is padding alone.
const SHOWN: [u8; 64] = [
    0x80, 0, 0, 0, 0, 0, 0, 0, 0, 0, 0, 0, 0, 0, 0, 0, 0, 0, 0, 0, 0, 0, 0, 0, 0, 0, 0, 0, 0, 0, 0,
    0, 0, 0, 0, 0, 0, 0, 0, 0, 0, 0, 0, 0, 0, 0, 0, 0, 0, 0, 0, 0, 0, 0, 0, 0, 0, 0, 0, 0, 0, 0, 2,
    0,
];

const SHOWN_SCHEDULE: [u32; 64] = [
    0x8000_0000,
    0x0000_0000,
    0x0000_0000,
    0x0000_0000,
    0x0000_0000,
    0x0000_0000,
    0x0000_0000,
    0x0000_0000,
    0x0000_0000,
    0x0000_0000,
    0x0000_0000,
    0x0000_0000,
    0x0000_0000,
    0x0000_0000,
    0x0000_0000,
    0x0000_0200,
    0x8000_0000,
    0x0140_0000,
    0x0020_5000,
    0x0000_5088,
    0x2200_0800,
    0x2255_0014,
    0x0508_9742,
    0xa000_0020,
    0x5a88_0000,
    0x005c_9400,
    0x0016_d49d,
    0xfa80_1f00,
    0xd332_25d0,
    0x1167_5959,
    0xf6e6_bfda,
    0xb30c_1549,
    0x08b2_b050,
    0x9d7c_4c27,
    0x0ce2_a393,
    0x88e6_e1ea,
    0xa52b_4335,
    0x67a1_6f49,
    0xd732_016f,
    0x4eeb_2e91,
    0x5dbf_55e5,
    0x8eee_2335,
    0xe2bc_5ec2,
    0xa83f_4394,
    0x45ad_78f7,
    0x36f3_d0cd,
    0xd99c_05e8,
    0xb051_1dc7,
    0x69bc_7ac4,
    0xbd11_375b,
    0xe3ba_71e5,
    0x3b20_9ff2,
    0x18fe_ee17,
    0xe25a_d9e7,
    0x1337_5046,
    0x0515_089d,
    0x4f0d_0f04,
    0x2627_484e,
    0x3101_28d2,
    0xc668_b434,
    0x4208_41cc,
    0x62d3_11b8,
    0xe59b_a771,
    0x85a7_a484,
];

// A secret number is the hash of 160 bytes, of which the last block has 32: the number 0 where the bit is not set,
const UNSET: [u8; 64] = [
    0, 0, 0, 0, 0, 0, 0, 0, 0, 0, 0, 0, 0, 0, 0, 0, 0, 0, 0, 0, 0, 0, 0, 0, 0, 0, 0, 0, 0, 0, 0, 0,
    0x80, 0, 0, 0, 0, 0, 0, 0, 0, 0, 0, 0, 0, 0, 0, 0, 0, 0, 0, 0, 0, 0, 0, 0, 0, 0, 0, 0, 0, 0, 5,
    0,
];

const UNSET_SCHEDULE: [u32; 64] = [
    0x0000_0000,
    0x0000_0000,
    0x0000_0000,
    0x0000_0000,
    0x0000_0000,
    0x0000_0000,
    0x0000_0000,
    0x0000_0000,
    0x8000_0000,
    0x0000_0000,
    0x0000_0000,
    0x0000_0000,
    0x0000_0000,
    0x0000_0000,
    0x0000_0000,
    0x0000_0500,
    0x0000_0000,
    0x0220_0001,
    0x0000_0000,
    0x0000_2954,
    0x0000_0000,
    0x1180_800a,
    0x0000_0500,
    0x6100_4ad0,
    0x8440_0002,
    0x2c2a_7cb2,
    0x0020_2bfc,
    0x71c4_590f,
    0x2202_0828,
    0xa7ba_2ccc,
    0xa759_e13d,
    0xd816_2ea3,
    0xfafb_2e79,
    0xd4f3_be7f,
    0x06e6_db70,
    0xcac7_5d84,
    0x94a3_7c46,
    0xff5a_afdd,
    0x67fa_f54c,
    0x73a6_3146,
    0x7c3b_90a5,
    0x04a3_bb6d,
    0x8bd9_88e0,
    0x8750_2d15,
    0x1d36_7328,
    0x3aa9_af94,
    0xea10_72b0,
    0x5dbc_dcdf,
    0x417c_3bcb,
    0xacbd_891e,
    0xf06f_f7de,
    0x9e32_09af,
    0xe458_8913,
    0x5894_85a7,
    0x2a0c_8153,
    0x28ea_29c5,
    0x2dc8_fe5d,
    0xf938_6028,
    0xbb9b_981d,
    0x772e_8999,
    0x79b3_ed2e,
    0x5ad2_a3ee,
    0x2062_70d6,
    0x2181_dd28,
];

// and 1 where it is.
const SET: [u8; 64] = [
    0, 0, 0, 0, 0, 0, 0, 0, 0, 0, 0, 0, 0, 0, 0, 0, 0, 0, 0, 0, 0, 0, 0, 0, 0, 0, 0, 0, 0, 0, 0, 1,
    0x80, 0, 0, 0, 0, 0, 0, 0, 0, 0, 0, 0, 0, 0, 0, 0, 0, 0, 0, 0, 0, 0, 0, 0, 0, 0, 0, 0, 0, 0, 5,
    0,
];

const SET_SCHEDULE: [u32; 64] = [
    0x0000_0000,
    0x0000_0000,
    0x0000_0000,
    0x0000_0000,
    0x0000_0000,
    0x0000_0000,
    0x0000_0000,
    0x0000_0001,
    0x8000_0000,
    0x0000_0000,
    0x0000_0000,
    0x0000_0000,
    0x0000_0000,
    0x0000_0000,
    0x0000_0000,
    0x0000_0500,
    0x0000_0000,
    0x0220_0001,
    0x0000_0000,
    0x0000_2954,
    0x0000_0000,
    0x1180_800a,
    0x0200_4500,
    0x6100_4ad1,
    0xac40_8152,
    0x2c2a_dcb2,
    0x50a8_3cdc,
    0x35c4_5927,
    0x2b62_0858,
    0xa9ba_524c,
    0xa76e_13da,
    0x0f86_35d0,
    0xfa2a_ba18,
    0x2f1a_249b,
    0xe28b_479d,
    0x8237_6693,
    0xaad1_d772,
    0x29ad_d912,
    0x9f5a_80a6,
    0x4350_79b6,
    0xc2ac_75f8,
    0x0036_a5f3,
    0xe5ee_4474,
    0x9e0a_ae10,
    0x5894_8bc8,
    0x7158_68e8,
    0xebe5_593a,
    0x8bdf_4922,
    0xbc7d_ecff,
    0x5913_5333,
    0xbb4b_8f09,
    0x2488_a9ce,
    0x2997_e384,
    0x5667_6a0e,
    0xb373_fcda,
    0x4cd0_c5d9,
    0xed15_164b,
    0x9a32_1e3c,
    0xcdc8_23cb,
    0xcdf3_92b7,
    0x899f_84c5,
    0x1ef0_a4d1,
    0xf1b3_2671,
    0x53b2_1955,
];

fn same(block: &[u8; 64], other: &[u8; 64]) -> bool
    ensures { IsTrue result ↔ (block.now ≡ other.now) }
{
    block == other
}

fn known_schedule(block: &[u8; 64]) -> Option<[u32; 64]>
    ensures { MatchOption result ⊤ (λ w. w ≡ schedule 48 block.now) }
{
    if same(block, &SHOWN) {
        Some(SHOWN_SCHEDULE)
    } else if same(block, &UNSET) {
        Some(UNSET_SCHEDULE)
    } else if same(block, &SET) {
        Some(SET_SCHEDULE)
    } else {
        None
    }
}

// The schedule of a block. Worth the look only where it serves several hash values, since most blocks are none of these.
pub fn schedule_of(block: &[u8; 64]) -> [u32; 64]
    ensures { result ≡ schedule 48 block.now }
{
    if let Some(schedule) = known_schedule(block) {
        return schedule;
    }
    let mut w = [0; 64];
    message_schedule(block, &mut w);
    w
}
