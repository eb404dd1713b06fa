// Sizes and offsets of an itinerary's records in the narrow form, in bytes.
// Any record.
#[derive(Clone, Copy)]
pub struct RecordLayout;

impl RecordLayout {
    pub const SIZE_BYTES: usize = 32;

    pub const MAX_RECORDS: usize = 2048;

    pub const NEXT: u8 = 0;
}

// Record 0.
#[derive(Clone, Copy)]
pub struct HeadLayout;

impl HeadLayout {
    pub const ZEROS: u8 = 2;

    pub const ZEROS_BYTES: u8 = 30;
}

#[derive(Clone, Copy)]
pub struct StationLayout;

impl StationLayout {
    pub const ARRIVAL: u8 = 2;

    pub const FIRST_INTERFACE: u8 = 4;

    pub const ZEROS: u8 = 6;

    pub const ZEROS_BYTES: u8 = 2;

    pub const KEY: u8 = 8;

    pub const LAST_ZEROS: u8 = 24;

    pub const LAST_ZEROS_BYTES: u8 = 8;
}

#[derive(Clone, Copy)]
pub struct InterfaceRecordLayout;

impl InterfaceRecordLayout {
    pub const NUMBER: u8 = 2;

    pub const STATE: u8 = 4;

    pub const ZEROS: u8 = 5;

    pub const ZEROS_BYTES: u8 = 27;
}
