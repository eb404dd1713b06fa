// The form of an itinerary's records: their sizes, and where their fields stand.
ghost use Rattle.std.specs.Prelude.{◌≡◌, ◌<◌};
ghost use Rattle.records.specs.Layout.{layout_of, offset};

use crate::layout::{InterfaceRecordLayout, RecordLayout, StationLayout};

#[derive(Clone, Copy)]
pub enum Form {
    Narrow,
}

// What differs by form: sizes, and where fields start in a record.
#[derive(Clone, Copy)]
pub struct FormLayout {
    pub record_bytes: usize,
    pub max_records: usize,
    // a station's fields
    pub arrival: u8,
    pub first_interface: u8,
    pub key: u8,
    // an interface record's fields
    pub number: u8,
    pub state: u8,
}

impl Form {
    // The bounds keep an offset within 64 bits, in every form.
    pub fn layout(self) -> FormLayout
        ensures record_bytes { result.record_bytes ≡ (layout_of self).record_bytes }
        ensures bounds { (0 < result.record_bytes) × (result.record_bytes < 256) }
        ensures max_records { result.max_records ≡ (layout_of self).max_records }
        ensures arrival { result.arrival ≡ (layout_of self).arrival }
        ensures first_interface { result.first_interface ≡ (layout_of self).first_interface }
        ensures key { result.key ≡ (layout_of self).key }
        ensures number { result.number ≡ (layout_of self).number }
        ensures state { result.state ≡ (layout_of self).state }
    {
        match self {
            Form::Narrow => FormLayout {
                record_bytes: RecordLayout::SIZE_BYTES,
                max_records: RecordLayout::MAX_RECORDS,
                arrival: StationLayout::ARRIVAL,
                first_interface: StationLayout::FIRST_INTERFACE,
                key: StationLayout::KEY,
                number: InterfaceRecordLayout::NUMBER,
                state: InterfaceRecordLayout::STATE,
            },
        }
    }

    // Where a field of the record with this index stands.
    pub fn offset(self, index: u32, field: u8) -> usize
        ensures { (result ≡ offset (layout_of self) index field) × (result < 1099511627776) }
    {
        // By `as`: `usize` is not `From<u32>`, and a `try_from` would have an error that never comes.
        self.layout().record_bytes * (index as usize) + usize::from(field)
    }
}
