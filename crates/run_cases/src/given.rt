// What a call is given.
ghost use Rattle.std.specs.Prelude.{◌≤◌};

use crate::command::hex_digit;
use std::array;

// Where in the memory each part stands, and where it ends.
const PATH: usize = 0;

const KEY: usize = 1024;

const STATES: usize = 2048;

const NUMBERS: usize = 3072;

const ITINERARY: usize = 4096;

const MEMORY_BYTES: usize = 69664;

// What a script names.
#[derive(Clone, Copy)]
pub(crate) enum Part {
    Path,
    Key,
    States,
    Numbers,
    Itinerary,
    // No name: its bytes go where the itinerary's do, and the itinerary is as long as it was.
    Unnamed,
}

// By the first letter of its name.
impl From<u8> for Part {
    fn from(letter: u8) -> Part {
        match letter {
            b'p' => Part::Path,
            b'k' => Part::Key,
            b's' => Part::States,
            b'n' => Part::Numbers,
            b'i' => Part::Itinerary,
            _ => Part::Unnamed,
        }
    }
}

impl Part {
    pub(crate) fn place(self) -> u32 {
        let place = match self {
            Part::Path => PATH,
            Part::Key => KEY,
            Part::States => STATES,
            Part::Numbers => NUMBERS,
            Part::Itinerary | Part::Unnamed => ITINERARY,
        };
        place as u32
    }
}

pub(crate) const MAX_PATH_BYTES: usize = 1024;

pub(crate) const MAX_IDS: usize = 512;

const MAX_STATES: usize = 512;

const MAX_ITINERARY_BYTES: usize = MEMORY_BYTES - ITINERARY;

// The parts, and how many bytes of each are in use. What is written behind a part's end stands in the next one.
#[derive(Drop)]
pub(crate) struct Given {
    memory: [u8; MEMORY_BYTES],
    path: u32,
    states: u32,
    numbers: u32,
    itinerary: u32,
}

impl Given {
    pub(crate) fn new() -> Given {
        Given {
            memory: [0; MEMORY_BYTES],
            path: 0,
            states: 0,
            numbers: 0,
            itinerary: 0,
        }
    }

    // The bytes that the digits spell, then zeros.
    pub(crate) fn fill(&mut self, part: Part, size: u32, digits: &[u8]) {
        let place = part.place();
        for byte in self
            .memory
            .iter_mut()
            .skip(place as usize)
            .take(size as usize)
        {
            *byte = 0;
        }
        self.edit(place, digits);
        match part {
            Part::Path => self.path = size,
            Part::States => self.states = size,
            Part::Numbers => self.numbers = size,
            Part::Itinerary => self.itinerary = size,
            Part::Key | Part::Unnamed => {}
        }
    }

    // Each digit goes behind the one that a byte has in its lower half.
    pub(crate) fn edit(&mut self, at: u32, digits: &[u8]) {
        for (count, digit) in digits
            .iter()
            .filter_map(|digit| hex_digit(*digit))
            .enumerate()
        {
            if let Some(byte) = self.memory.get_mut((at as usize) + count / 2) {
                *byte = *byte % 16 * 16 + digit % 16;
            }
        }
    }

    pub(crate) fn path(&self) -> &[u8] {
        &self.memory[..self.path_len()]
    }

    // As much as a path may have, whatever stands behind it.
    pub(crate) fn copy_path(&self, to: &mut [u8; MAX_PATH_BYTES]) {
        to.copy_from_slice(&self.memory[..MAX_PATH_BYTES]);
    }

    pub(crate) fn path_len(&self) -> usize
        ensures { result ≤ 1024 }
    {
        (self.path as usize).min(MAX_PATH_BYTES)
    }

    // As many as there may be, of which the first `id_count` are given.
    pub(crate) fn copy_ids(&self, to: &mut [u16; MAX_IDS]) {
        for (at, id) in to.iter_mut().enumerate() {
            *id = octets::be16_at(&self.memory, NUMBERS + 2 * at);
        }
    }

    pub(crate) fn id_count(&self) -> usize
        ensures { result ≤ 512 }
    {
        ((self.numbers / 2) as usize).min(MAX_IDS)
    }

    pub(crate) fn states(&self) -> &[u8] {
        let len = (self.states as usize).min(MAX_STATES);
        &self.memory[STATES..STATES + len]
    }

    pub(crate) fn itinerary(&self) -> &[u8] {
        let len = (self.itinerary as usize).min(MAX_ITINERARY_BYTES);
        &self.memory[ITINERARY..ITINERARY + len]
    }

    pub(crate) fn key(&self) -> [u8; 16] {
        array::from_fn(|at| self.memory[KEY + at])
    }
}
