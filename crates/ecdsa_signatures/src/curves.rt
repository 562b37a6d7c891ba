//! The curves P-256 and P-384 (SP 800-186, section 3.2.1).

use crate::points::CurvePoint;

/// A curve over the numbers modulo a prime.
#[derive(Clone, Copy)]
pub enum Curve {
    /// P-256.
    P256,
    /// P-384.
    P384,
}

/// What a curve is given by: its prime, the `b` of its equation, its base point and how many points it has.
pub(crate) struct Domain<const N: usize> {
    pub(crate) prime: [u64; N],
    pub(crate) b: [u64; N],
    pub(crate) base: CurvePoint<N>,
    pub(crate) order: [u64; N],
}

/// P-256.
pub(crate) const P256: Domain<4> = Domain {
    prime: [
        0xFFFF_FFFF_FFFF_FFFF,
        0x0000_0000_FFFF_FFFF,
        0x0000_0000_0000_0000,
        0xFFFF_FFFF_0000_0001,
    ],
    b: [
        0x3BCE_3C3E_27D2_604B,
        0x651D_06B0_CC53_B0F6,
        0xB3EB_BD55_7698_86BC,
        0x5AC6_35D8_AA3A_93E7,
    ],
    base: CurvePoint {
        x: [
            0xF4A1_3945_D898_C296,
            0x7703_7D81_2DEB_33A0,
            0xF8BC_E6E5_63A4_40F2,
            0x6B17_D1F2_E12C_4247,
        ],
        y: [
            0xCBB6_4068_37BF_51F5,
            0x2BCE_3357_6B31_5ECE,
            0x8EE7_EB4A_7C0F_9E16,
            0x4FE3_42E2_FE1A_7F9B,
        ],
        is_infinite: false,
    },
    order: [
        0xF3B9_CAC2_FC63_2551,
        0xBCE6_FAAD_A717_9E84,
        0xFFFF_FFFF_FFFF_FFFF,
        0xFFFF_FFFF_0000_0000,
    ],
};

/// P-384.
pub(crate) const P384: Domain<6> = Domain {
    prime: [
        0x0000_0000_FFFF_FFFF,
        0xFFFF_FFFF_0000_0000,
        0xFFFF_FFFF_FFFF_FFFE,
        0xFFFF_FFFF_FFFF_FFFF,
        0xFFFF_FFFF_FFFF_FFFF,
        0xFFFF_FFFF_FFFF_FFFF,
    ],
    b: [
        0x2A85_C8ED_D3EC_2AEF,
        0xC656_398D_8A2E_D19D,
        0x0314_088F_5013_875A,
        0x181D_9C6E_FE81_4112,
        0x988E_056B_E3F8_2D19,
        0xB331_2FA7_E23E_E7E4,
    ],
    base: CurvePoint {
        x: [
            0x3A54_5E38_7276_0AB7,
            0x5502_F25D_BF55_296C,
            0x59F7_41E0_8254_2A38,
            0x6E1D_3B62_8BA7_9B98,
            0x8EB1_C71E_F320_AD74,
            0xAA87_CA22_BE8B_0537,
        ],
        y: [
            0x7A43_1D7C_90EA_0E5F,
            0x0A60_B1CE_1D7E_819D,
            0xE9DA_3113_B5F0_B8C0,
            0xF8F4_1DBD_289A_147C,
            0x5D9E_98BF_9292_DC29,
            0x3617_DE4A_9626_2C6F,
        ],
        is_infinite: false,
    },
    order: [
        0xECEC_196A_CCC5_2973,
        0x581A_0DB2_48B0_A77A,
        0xC763_4D81_F437_2DDF,
        0xFFFF_FFFF_FFFF_FFFF,
        0xFFFF_FFFF_FFFF_FFFF,
        0xFFFF_FFFF_FFFF_FFFF,
    ],
};
