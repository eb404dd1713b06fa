// The lines of a script. A line always means something: what is no number is 0, what is no hex digit is passed over, a name counts by
// its first letter, or by its third where it is a call's.
use crate::call::Call;
use crate::given::Part;

#[derive(Clone, Copy)]
pub(crate) enum Command<'a> {
    Comment,
    Fill {
        part: Part,
        size: u32,
        digits: &'a [u8],
    },
    Edit {
        at: u32,
        digits: &'a [u8],
    },
    Call(Call<'a>),
}

impl<'a> From<&'a [u8]> for Command<'a> {
    fn from(line: &'a [u8]) -> Command<'a> {
        let name = first(line);
        match name {
            b'#' => Command::Comment,
            b'c' => Command::Call(Call::from(words_from(line, 1))),
            b'e' => Command::Edit {
                at: Part::from(first(words_from(line, 1)))
                    .place()
                    .wrapping_add(number(words_from(line, 2))),
                digits: words_from(line, 3),
            },
            b'r' => Command::Edit {
                at: Part::Itinerary
                    .place()
                    .wrapping_add(32 * (number(words_from(line, 1)) % 2049)),
                digits: words_from(line, 2),
            },
            _ => Command::Fill {
                part: Part::from(name),
                size: number(words_from(line, 1)),
                digits: words_from(line, 2),
            },
        }
    }
}

fn first(word: &[u8]) -> u8 {
    octets::byte_at(word, 0)
}

// A line from this word on, of those that single spaces set apart.
pub(crate) fn words_from(line: &[u8], index: u8) -> &[u8] {
    let before = usize::from(index);
    line.splitn(before + 1, |byte| *byte == b' ')
        .nth(before)
        .unwrap_or(&[])
}

// What the first digits spell, its low 32 bits.
pub(crate) fn number(words: &[u8]) -> u32 {
    words
        .iter()
        .map_while(|digit| char::from(*digit).to_digit(10))
        .fold(0, |number: u32, digit| {
            number.wrapping_mul(10).wrapping_add(digit)
        })
}

pub(crate) fn hex_digit(digit: u8) -> Option<u8> {
    match digit {
        b'0'..=b'9' => Some(digit - b'0'),
        b'a'..=b'f' => Some(digit - b'a' + 10),
        _ => None,
    }
}
