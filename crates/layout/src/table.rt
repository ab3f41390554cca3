//! The parts of each type and the fields of each part, in the order in which they are sent.
use crate::{Field, Part};

// Macros and no functions, since a constant's value can call none.
/// A field without a sign, of so many bits, from a least to a greatest count.
macro_rules! ranged {
    ($width:literal, $least:literal, $most:literal) => {
        Field {
            width: $width,
            signed: false,
            least: $least,
            most: $most,
        }
    };
}

/// A field without a sign that may hold every count of its width.
macro_rules! whole {
    ($width:literal) => {
        Field {
            width: $width,
            signed: false,
            least: 0,
            most: (1 << $width) - 1,
        }
    };
}

/// A field of two's complement that may hold every count of its width.
macro_rules! twos {
    ($width:literal) => {
        Field {
            width: $width,
            signed: true,
            least: -(1 << ($width - 1)),
            most: (1 << ($width - 1)) - 1,
        }
    };
}

/// A bit that must be 0.
const ZERO: Field = ranged!(1, 0, 0);

/// The kind of a satellite's orbit; 0 stands for none.
const SATELLITE_TYPE: Field = ranged!(2, 1, 3);

/// A time of the week in units of 300 s.
const TIME_11: Field = ranged!(11, 0, 2015);

/// A time of the week in units of 16 s.
const TIME_16: Field = ranged!(16, 0, 37799);

/// Four bits that must be 0.
pub const RESERVED: [Field; 4] = [
    ZERO, // the first bit
    ZERO, // the second bit
    ZERO, // the third bit
    ZERO, // the fourth bit
];

/// The first half of the orbit: shape, mean motion and perigee.
pub const EPHEMERIS_1: [Field; 9] = [
    TIME_11, // t_oe
    SATELLITE_TYPE, // SatType
    twos!(26), // DeltaA
    twos!(25), // A_dot
    twos!(17), // Delta_n0
    twos!(23), // Delta_n0_dot
    twos!(33), // M0
    whole!(33), // e
    twos!(33), // omega
];

/// The second half of the orbit: its plane and the harmonic corrections.
pub const EPHEMERIS_2: [Field; 10] = [
    twos!(33), // Omega0
    twos!(33), // i0
    twos!(19), // Omega_dot
    twos!(15), // i0_dot
    twos!(16), // Cis
    twos!(16), // Cic
    twos!(24), // Crs
    twos!(24), // Crc
    twos!(21), // Cus
    twos!(21), // Cuc
];

/// The integrity flags and the index of the monitoring accuracy.
pub const INTEGRITY: [Field; 4] = [
    whole!(1), // DIF
    whole!(1), // SIF
    whole!(1), // AIF
    whole!(4), // SISMAI
];

/// The week number.
pub const WEEK: [Field; 1] = [
    whole!(13), // WN
];

/// The clock correction.
pub const CLOCK: [Field; 4] = [
    TIME_11, // t_oc
    twos!(25), // a0
    twos!(22), // a1
    twos!(11), // a2
];

/// The group delay.
pub const GROUP_DELAY: [Field; 1] = [
    twos!(12), // TGD
];

/// The coefficients of the ionosphere model.
pub const IONOSPHERE: [Field; 9] = [
    whole!(10), // alpha1
    twos!(8), // alpha2
    whole!(8), // alpha3
    whole!(8), // alpha4
    whole!(8), // alpha5
    twos!(8), // alpha6
    twos!(8), // alpha7
    twos!(8), // alpha8
    twos!(8), // alpha9
];

/// The offset of BDT from UTC, and the leap seconds.
pub const BDT_UTC: [Field; 9] = [
    twos!(16), // A0_UTC
    twos!(13), // A1_UTC
    twos!(7), // A2_UTC
    twos!(8), // dt_LS
    TIME_16, // t_ot
    whole!(13), // WN_ot
    whole!(13), // WN_LSF
    whole!(3), // DN
    twos!(8), // dt_LSF
];

/// The motion of the pole, and UT1.
pub const EARTH_ORIENTATION: [Field; 7] = [
    TIME_16, // t_EOP
    twos!(21), // PM_X
    twos!(15), // PM_X_dot
    twos!(21), // PM_Y
    twos!(15), // PM_Y_dot
    twos!(31), // dUT1
    twos!(19), // dUT1_dot
];

/// The indexes of the signal's accuracy.
pub const ACCURACY: [Field; 5] = [
    whole!(11), // t_op
    whole!(5), // SISAI_ocb
    whole!(3), // SISAI_oc1
    whole!(3), // SISAI_oc2
    whole!(5), // SISAI_oe
];

/// The health of the satellite.
pub const HEALTH: [Field; 1] = [
    whole!(2), // HS
];

/// The parts of type 10.
pub const TYPE_10: [Part; 4] = [
    Part::Reserved,
    Part::Ephemeris1,
    Part::Ephemeris2,
    Part::Integrity,
];

/// The parts of type 30.
pub const TYPE_30: [Part; 9] = [
    Part::Week,
    Part::Reserved,
    Part::Clock,
    Part::GroupDelay,
    Part::Ionosphere,
    Part::BdtUtc,
    Part::EarthOrientation,
    Part::Accuracy,
    Part::Health,
];

/// The one part of type 40.
pub const TYPE_40: [Part; 1] = [Part::Opaque];
