// The fields of an itinerary's records, one method for each, on all inputs: a byte past the end counts as 0. A chain is an iterator.
#![tactic(auto)]

pub mod form;
pub mod layout;

ghost use Rattle.std.specs.Prelude.{◌≡◌};
ghost use Rattle.std.specs.Iterator.{YieldsFirst, item_count};
ghost use Rattle.octets.specs.Bytes.{be16_at};
ghost use Rattle.records.specs.Layout.{layout_of, offset};
ghost use Rattle.records.specs.Records.{record_count, next_of, arrival_of, first_interface_of, key_of};
ghost use Rattle.records.specs.Records.{interface_number_of, interface_state_of};
ghost use Rattle.records.specs.Records.{chain_within, station_records, table_records};
ghost use Rattle.records.specs.Inner.{station_records_within, table_records_within};
ghost use Rattle.records.specs.Chain.{records_left};

use form::Form;
use layout::RecordLayout;

#[derive(Clone, Copy)]
pub struct Itinerary<'a> {
    pub form: Form,
    pub bytes: &'a [u8],
}

impl<'a> Itinerary<'a> {
    #[tactic(auto, unfolding(crate::specs::Records::record_count))]
    pub fn record_count(self) -> usize
        ensures { result ≡ record_count (layout_of self.entry.form) self.entry.bytes.now }
    {
        self.bytes.len() / self.form.layout().record_bytes
    }

    fn u16_field(self, index: u32, field: u8) -> u16
        ensures { result ≡ be16_at self.entry.bytes.now (offset (layout_of self.entry.form) index field) }
    {
        octets::be16_at(self.bytes, self.form.offset(index, field))
    }

    // How an index is read differs by form.
    fn index_field(self, index: u32, field: u8) -> u32
        ensures { result ≡ (layout_of self.entry.form).index_at self.entry.bytes.now (offset (layout_of self.entry.form) index field) }
    {
        match self.form {
            Form::Narrow => u32::from(self.u16_field(index, field)),
        }
    }

    // ---- any record. A reader takes an index beside the plan: a struct of both would be made anew for each record of a chain

    // The record after this one in its chain, 0 after the last; the first station's for record 0. Here and below an index of 0 stays a
    // number and is no `None`: it is 01's own, and is compared and followed as one.
    #[tactic(auto, unfolding(crate::specs::Records::next_of))]
    pub fn next(self, index: u32) -> u32
        ensures { result ≡ next_of (layout_of self.entry.form) self.entry.bytes.now index }
    {
        self.index_field(index, RecordLayout::NEXT)
    }

    // ---- a station

    #[tactic(auto, unfolding(crate::specs::Records::arrival_of))]
    pub fn arrival(self, station: u32) -> u16
        ensures { result ≡ arrival_of (layout_of self.entry.form) self.entry.bytes.now station }
    {
        self.u16_field(station, self.form.layout().arrival)
    }

    // Where the station's table starts, 0 for an empty one.
    #[tactic(auto, unfolding(crate::specs::Records::first_interface_of))]
    pub fn first_interface(self, station: u32) -> u32
        ensures { result ≡ first_interface_of (layout_of self.entry.form) self.entry.bytes.now station }
    {
        self.index_field(station, self.form.layout().first_interface)
    }

    pub fn key(self, station: u32) -> [u8; 16]
        ensures { result ≡ key_of (layout_of self.entry.form) self.entry.bytes.now station }
    {
        let at = self.form.offset(station, self.form.layout().key);
        std::array::from_fn(|i| octets::byte_at(self.bytes, at + i))
    }

    // ---- an interface record

    #[tactic(auto, unfolding(crate::specs::Records::interface_number_of))]
    pub fn interface_number(self, index: u32) -> u16
        ensures { result ≡ interface_number_of (layout_of self.entry.form) self.entry.bytes.now index }
    {
        self.u16_field(index, self.form.layout().number)
    }

    #[tactic(auto, unfolding(crate::specs::Records::interface_state_of))]
    pub fn interface_state(self, index: u32) -> u8
        ensures { result ≡ interface_state_of (layout_of self.entry.form) self.entry.bytes.now index }
    {
        octets::byte_at(
            self.bytes,
            self.form.offset(index, self.form.layout().state),
        )
    }

    // ---- the records of a chain: the whole of it, or no more of it than a limit. The stations' and a table's differ in where they start

    // The limit can be greater than the number of records, where the whole of a chain that goes round ends: it is not `take` of the whole.
    fn chain_within(self, first: u32, limit: usize) -> Chain<'a>
        ensures { records_left result ≡ chain_within (layout_of self.entry.form) self.entry.bytes.now limit first }
    {
        Chain {
            itinerary: self,
            index: first,
            left: limit,
        }
    }

    pub fn station_records(self) -> Chain<'a>
        ensures { records_left result ≡ station_records (layout_of self.entry.form) self.entry.bytes.now }
    {
        self.station_records_within(self.record_count())
    }

    pub fn station_records_within(self, limit: usize) -> Chain<'a>
        ensures { records_left result ≡ station_records_within (layout_of self.entry.form) self.entry.bytes.now limit }
    {
        self.chain_within(self.next(0), limit)
    }

    pub fn table_records(self, station: u32) -> Chain<'a>
        ensures { records_left result ≡ table_records (layout_of self.entry.form) self.entry.bytes.now station }
    {
        self.table_records_within(station, self.record_count())
    }

    pub fn table_records_within(self, station: u32, limit: usize) -> Chain<'a>
        ensures { records_left result ≡ table_records_within (layout_of self.entry.form) self.entry.bytes.now limit station }
    {
        self.chain_within(self.first_interface(station), limit)
    }
}

// The records of a chain. It may still go through so many, whatever the bytes.
#[derive(Clone, Drop)]
pub struct Chain<'a> {
    itinerary: Itinerary<'a>,
    index: u32,
    left: usize,
}

impl<'a> Iterator for Chain<'a> {
    type Item = u32;

    ghost next_gives = { YieldsFirst records_left };

    ghost remaining = { item_count records_left };

    #[tactic(auto, using(crate::proofs::Walks::chain_end, crate::proofs::Walks::chain_out, crate::proofs::Walks::chain_on))]
    fn next(&mut self) -> Option<u32> {
        let index = self.index;
        if self.left == 0 || index == 0 {
            return None;
        }
        self.index = self.itinerary.next(index);
        self.left -= 1;
        Some(index)
    }
}
