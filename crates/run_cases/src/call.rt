// The exported calls.
use crate::command::{number, words_from};
use crate::given::{Given, MAX_IDS};
use exports::{calls, editions};
use reply::Reply;

#[derive(Clone, Copy)]
enum Name {
    Step,
    Ingress,
    Egress,
    Reverse,
    Expiration,
    Index,
    Journey,
}

// By the third letter of its name.
impl From<u8> for Name {
    fn from(letter: u8) -> Name {
        match letter {
            b'e' => Name::Step,
            b'g' => Name::Ingress,
            b'r' => Name::Egress,
            b'v' => Name::Reverse,
            b'p' => Name::Expiration,
            b'd' => Name::Index,
            _ => Name::Journey,
        }
    }
}

// A call with the words of its line, which has the same places for each call.
#[derive(Clone, Copy)]
pub(crate) struct Call<'a> {
    pub(crate) words: &'a [u8],
    name: Name,
    is_second: bool,
    first: u32,
    second: u32,
    ignore_macs: bool,
}

impl<'a> From<&'a [u8]> for Call<'a> {
    fn from(words: &'a [u8]) -> Call<'a> {
        Call {
            words,
            name: Name::from(octets::byte_at(words, 2)),
            is_second: number(words_from(words, 1)) == 2,
            first: number(words_from(words, 2)),
            second: number(words_from(words, 3)),
            ignore_macs: number(words_from(words, 4)) == 1,
        }
    }
}

impl Call<'_> {
    pub(crate) fn make(self, given: &Given, path: &mut [u8]) -> Reply {
        // A script's first number is a time, an interface or a hop, as the call has it, and its low bits are read.
        let interface = (self.first % 0x1_0000) as u16;
        let hop = (self.first % 0x100) as u8;
        let mut ids = [0; MAX_IDS];
        given.copy_ids(&mut ids);
        let key = given.key();
        // The three take the same. A function for C is no `impl Fn`, so a macro has it once.
        macro_rules! on_table {
            ($call:ident) => {
                editions::$call(
                    self.is_second,
                    &ids[..given.id_count()],
                    given.states(),
                    path,
                    interface,
                    self.second,
                    &key,
                    self.ignore_macs,
                )
            };
        }
        match self.name {
            Name::Step => on_table!(scion_handle_standard_path_in_edition),
            Name::Ingress => on_table!(scion_standard_path_ingress_in_edition),
            Name::Egress => on_table!(scion_standard_path_egress_in_edition),
            Name::Reverse => calls::scion_try_reverse(path),
            Name::Expiration => calls::scion_expiration(path),
            Name::Index => calls::scion_calculate_segment_index(path, hop),
            Name::Journey => editions::scion_check_journey_in_edition(
                self.is_second,
                path,
                given.itinerary(),
                self.first,
                self.second,
            ),
        }
    }
}
