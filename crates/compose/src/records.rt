//! The records of a whole message.
use type10::ephemeris1::Ephemeris1Record;
use type10::ephemeris2::Ephemeris2Record;
use type10::integrity::IntegrityRecord;
use type30::accuracy::AccuracyRecord;
use type30::bdt_utc::BdtUtcRecord;
use type30::clock::ClockRecord;
use type30::earth_orientation::EarthOrientationRecord;
use type30::group_delay::GroupDelayRecord;
use type30::health::HealthRecord;
use type30::ionosphere::IonosphereRecord;
use type30::week::WeekRecord;

/// A record for every block of a message of type 10.
#[derive(Clone, Copy)]
pub struct Type10Records {
    pub ephemeris1: Ephemeris1Record,
    pub ephemeris2: Ephemeris2Record,
    pub integrity: IntegrityRecord,
}

/// A record for every block of a message of type 30.
#[derive(Clone, Copy)]
pub struct Type30Records {
    pub week: WeekRecord,
    pub clock: ClockRecord,
    pub group_delay: GroupDelayRecord,
    pub ionosphere: IonosphereRecord,
    pub bdt_utc: BdtUtcRecord,
    pub earth_orientation: EarthOrientationRecord,
    pub accuracy: AccuracyRecord,
    pub health: HealthRecord,
}

/// A record for every block of a message.
#[derive(Clone, Copy)]
pub enum Records {
    Type10(Type10Records),
    Type30(Type30Records),
}

/// What a message says: its second of the week, and a record for every block.
#[derive(Clone, Copy)]
pub struct Contents {
    pub second: u32,
    pub records: Records,
}
