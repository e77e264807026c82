use crate::Ghash;
use crate::plain::product;

// A subkey, blocks and their GHASH, each block written as the number that its bits are.
struct Case {
    subkey: u128,
    blocks: &'static [u128],
    hash: u128,
}

// The hash subkeys, the blocks and the hashes of AES-GCM: nothing hashed; test cases 1, 2, 13 and 14 of
// the GCM specification of McGrew and Viega, which NIST prints; and eight sealings by the Python package
// cryptography 48.0.0 under random keys and nonces, of texts of 0, 1, 16, 40, 64, 17, 63 and 100 bytes
// with associated data of 8, 8, 8, 8, 20, 0, 1 and 8. The subkey is that package's AES of the zero
// block, and the hash its tag plus its AES of the first counter block.
static CASES: [Case; 13] = [
    Case {
        subkey: 0x66e94bd4_ef8a2c3b_884cfa59_ca342b2e,
        blocks: &[],
        hash: 0x00000000_00000000_00000000_00000000,
    },
    Case {
        subkey: 0x66e94bd4_ef8a2c3b_884cfa59_ca342b2e,
        blocks: &[0x00000000_00000000_00000000_00000000],
        hash: 0x00000000_00000000_00000000_00000000,
    },
    Case {
        subkey: 0x66e94bd4_ef8a2c3b_884cfa59_ca342b2e,
        blocks: &[
            0x0388dace_60b6a392_f328c2b9_71b2fe78,
            0x00000000_00000000_00000000_00000080,
        ],
        hash: 0xf38cbb1a_d69223dc_c3457ae5_b6b0f885,
    },
    Case {
        subkey: 0xdc95c078_a2408989_ad48a214_92842087,
        blocks: &[0x00000000_00000000_00000000_00000000],
        hash: 0x00000000_00000000_00000000_00000000,
    },
    Case {
        subkey: 0xdc95c078_a2408989_ad48a214_92842087,
        blocks: &[
            0xcea7403d_4d606b6e_074ec5d3_baf39d18,
            0x00000000_00000000_00000000_00000080,
        ],
        hash: 0x83de425c_5edc5d49_8f382c44_1041ca92,
    },
    Case {
        subkey: 0x4bd44ae0_ae7dc9c1_aa89fb60_f9a45846,
        blocks: &[
            0x44eb6659_d942b0fc_00000000_00000000,
            0x00000000_00000040_00000000_00000000,
        ],
        hash: 0xb2ed479d_65c1360f_243820d2_aabb7a4e,
    },
    Case {
        subkey: 0x6ca46b72_8967cf08_a13d32c7_d7f52f26,
        blocks: &[
            0x055c2ddf_236096a3_00000000_00000000,
            0x14000000_00000000_00000000_00000000,
            0x00000000_00000040_00000000_00000008,
        ],
        hash: 0x9e3b19c4_9dd374ae_5e575e50_f0fe9fab,
    },
    Case {
        subkey: 0x079b9d28_e5abffc3_b39d506d_4e560769,
        blocks: &[
            0x8a8e4219_980e6ce6_00000000_00000000,
            0xe9eb84f3_4aaac162_7c0ec681_b38d7889,
            0x00000000_00000040_00000000_00000080,
        ],
        hash: 0xd4897db7_0a0acc5a_0dabd592_5cd99f37,
    },
    Case {
        subkey: 0xe7cd69b6_99d5d11e_01b1d659_6963b1a1,
        blocks: &[
            0xc134f012_dda4bacf_00000000_00000000,
            0xf13e76d0_92a037ea_8a2ba3ed_b2b30c9a,
            0x461a896e_a995d8dc_b0bf2bdb_13b54c80,
            0x30a956dc_278f1a9b_00000000_00000000,
            0x00000000_00000040_00000000_00000140,
        ],
        hash: 0x9bed51cb_7ce88f31_1e982981_aa3cd6fc,
    },
    Case {
        subkey: 0x65ff34e9_2515dd96_67aaebd1_81bdae73,
        blocks: &[
            0x3f000137_38313933_24f27958_727d92ca,
            0x288cb917_00000000_00000000_00000000,
            0xb968dabf_0960e430_999ce2e8_96e84608,
            0x6f2deb8c_76e8b979_94b80caa_a2314cfa,
            0x053002eb_316e4a16_6d475967_5897def1,
            0x99172cb8_1a006c4d_49c20959_bd877c9d,
            0x00000000_000000a0_00000000_00000200,
        ],
        hash: 0x59c9be98_d9b01510_0d98ce40_f31cb1eb,
    },
    Case {
        subkey: 0xfb7d3e1a_6bb18c83_d6001b2d_684be06e,
        blocks: &[
            0x6b7c127c_2cfed7fa_2589a866_84ead401,
            0x2c000000_00000000_00000000_00000000,
            0x00000000_00000000_00000000_00000088,
        ],
        hash: 0xf7af0b6d_0e4ed569_fac85661_255c9ecc,
    },
    Case {
        subkey: 0xb9ea9ded_e9e918d8_6ec25760_e2b8dae4,
        blocks: &[
            0x8d000000_00000000_00000000_00000000,
            0xd5832cc6_a226d328_7c46e0a5_b26c5337,
            0x88837b77_93688911_5bebdbdc_ee991164,
            0xdc89096b_9a5ff8e2_361d0dd4_8a1be04d,
            0xb7ea180e_fb5ce3c3_059fb745_5906e200,
            0x00000000_00000008_00000000_000001f8,
        ],
        hash: 0xea3e855c_44677258_34ad1aed_6d339224,
    },
    Case {
        subkey: 0xb1f1b0b2_8d8632a5_aa472b6a_fbab1d5f,
        blocks: &[
            0x4d6c207a_6a065c9f_00000000_00000000,
            0x052934e0_8b9babc6_ee7d79f5_de058cd3,
            0xf4245180_0c8fc25c_f38a6a2d_b3c23f87,
            0xb793c0bf_960383b3_58f55101_7ee26a41,
            0xb4fbb8cd_e9aad7a9_0ec55c03_7c868e4f,
            0x4d05579c_3e55cbe8_87e9a461_334671aa,
            0xcfbb946a_4db2487b_abba497b_1e7fd112,
            0x0a19c26d_00000000_00000000_00000000,
            0x00000000_00000040_00000000_00000320,
        ],
        hash: 0x5e16f024_adc140d0_f6606045_a4fbf3c0,
    },
];

fn hash(subkey: u128, blocks: &[u128]) -> u128 {
    let mut ghash = Ghash::new(subkey.to_be_bytes());
    for block in blocks {
        ghash.update(block.to_be_bytes());
    }
    u128::from_be_bytes(ghash.finish())
}

#[test]
fn hashes_of_sealed_texts_come_out(rt: HostRuntime) {
    for (i, case) in CASES.iter().enumerate() {
        assert_eq!(rt; hash(case.subkey, case.blocks), case.hash, "case {i}");
    }
}

// A linear congruential generator, its high half folded into the low one.
fn next(state: &mut u128) -> u128 {
    *state = state
        .wrapping_mul(0x2360_ed05_1fc6_5da4_4385_df64_9fcc_f645)
        .wrapping_add(0x5851_f42d_4c95_7f2d_1405_7b7e_f767_814f);
    *state ^ (*state >> 64)
}

#[test]
fn tables_give_the_products_of_the_plain_body(rt: HostRuntime) {
    let mut state = 1;
    let mut subkey = next(&mut state);
    for i in 0..4000u32 {
        let block = next(&mut state);
        assert_eq!(rt; hash(subkey, &[block]), product(block, subkey), "block {i}");
        if i % 16 == 0 {
            subkey = next(&mut state);
        }
    }
}

#[test]
fn a_copy_goes_its_own_way(rt: HostRuntime) {
    let mut ghash = Ghash::new([0x80, 0, 0, 0, 0, 0, 0, 0, 0, 0, 0, 0, 0, 0, 0, 0]);
    let fresh = ghash;
    ghash.update([7; 16]);
    assert_eq!(rt; ghash.finish(), [7; 16]);
    assert_eq!(rt; fresh.finish(), [0; 16]);
}
