// AES-CMAC, RFC 4493, equal to its definition on all inputs.
#![tactic(auto)]

ghost use Rattle.std.specs.Prelude.{◌≡◌, ◌-◌, ◌*◌, ◌≤◌, length};
ghost use Rattle.aes_words.specs.Block.{xor_block};
ghost use Rattle.aes.specs.ByTable.{cipher_by};
ghost use Rattle.cmac.specs.Cmac.{shift_left, doubled, subkey1, block_count, padded_byte, padding_at};
ghost use Rattle.cmac.specs.Cmac.{last_block, chained, mac_with, aes_cmac};

use aes::{encrypt_with, encrypt_words, round_table};
use aes_keys::expand_key;
use aes_words::{words, xor_words};
use std::array;

// Not one function with aes_words' `xor_words`: the reason is beside that.
fn xor_block(left: [u8; 16], right: [u8; 16]) -> [u8; 16]
    ensures { result ≡ xor_block left right }
{
    array::from_fn(|i| left[i] ^ right[i])
}

#[tactic(auto, using(crate::proofs::Doubling::shift_written))]
fn shift_left(block: &[u8; 16]) -> [u8; 16]
    ensures { result ≡ shift_left block.now }
{
    (u128::from_be_bytes(*block) << 1).to_be_bytes()
}

// From L to K1, and from K1 to K2.
#[tactic(auto, unfolding(crate::specs::Cmac::doubled))]
pub fn double(block: [u8; 16]) -> [u8; 16]
    ensures { result ≡ doubled block }
{
    let shifted = shift_left(&block);
    if block[0] < 0x80 {
        shifted
    } else {
        xor_block(shifted, [0, 0, 0, 0, 0, 0, 0, 0, 0, 0, 0, 0, 0, 0, 0, 0x87])
    }
}

// A byte of the message followed by its padding.
#[tactic(auto, unfolding(crate::specs::Cmac::padded_byte))]
fn padded_byte(message: &[u8], at: usize) -> u8
    ensures { result ≡ padded_byte message.now at }
{
    match message.get(at) {
        Some(byte) => *byte,
        None if at == message.len() => 0x80,
        None => 0,
    }
}

fn padding_at(message: &[u8], at: usize) -> [u8; 16]
    requires { at ≤ length message.now }
    ensures { result ≡ padding_at message.now at }
{
    array::from_fn(|i| padded_byte(message, at + i))
}

// How many blocks stand before the last.
fn blocks_before_last(len: usize) -> usize
    ensures { result ≡ block_count len - 1 }
{
    len.saturating_sub(1) / 16
}

// M_last.
#[tactic(auto, using(crate::proofs::CmacLaws::last_complete, crate::proofs::CmacLaws::last_padded))]
fn last_block(k1: [u8; 16], message: &[u8]) -> [u8; 16]
    ensures { result ≡ last_block k1 message.now }
{
    let at = 16 * blocks_before_last(message.len());
    match message[at..].first_chunk::<16>() {
        Some(block) => xor_block(*block, k1),
        None => xor_block(padding_at(message, at), double(k1)),
    }
}

// What the MACs under one key share: a round table and the round keys, both lent, and K1. For a call that takes it the compiler copies the
// round keys by `memcpy`, so what it is handed through in a step is put in line, from `aes_cmac_block` up to validator's `validate_mac`.
#[derive(Clone, Copy)]
pub struct KeySchedule<'a> {
    pub table: &'a [u8; 1024],
    pub round_keys: &'a [[u8; 16]; 11],
    pub k1: [u8; 16],
}

impl<'a> KeySchedule<'a> {
    // Any round keys may be given. With `round_table()` the cipher is AES. Who has a key lends the table and the round keys from its own
    // frame, as `aes_cmac` below: a function can't return a schedule of its own locals, and one that hands it to a closure would have to
    // say in its contract what the closure answers.
    #[tactic(auto, unfolding(crate::specs::Cmac::subkey1))]
    pub fn new(table: &'a [u8; 1024], round_keys: &'a [[u8; 16]; 11]) -> KeySchedule<'a>
        ensures table { result.table.now ≡ table.now }
        ensures round_keys { result.round_keys.now ≡ round_keys.now }
        ensures k1 { result.k1 ≡ subkey1 (cipher_by result.table.now result.round_keys.now) }
    {
        let k1 = double(encrypt_with(table, *round_keys, [0u8; 16]));
        KeySchedule {
            table,
            round_keys,
            k1,
        }
    }

    fn encrypt(self, block: [u8; 16]) -> [u8; 16]
        ensures { result ≡ cipher_by self.entry.table.now self.entry.round_keys.now block }
    {
        encrypt_with(self.table, *self.round_keys, block)
    }

    // X after the message's first `count` blocks.
    #[tactic(auto, unfolding(crate::specs::Cmac::chained), using(crate::proofs::Blocks::block_in_turn))]
    fn chain(self, message: &[u8], count: usize) -> [u8; 16]
        requires { 16 * count ≤ length message.now }
        ensures { result ≡ chained (cipher_by self.entry.table.now self.entry.round_keys.now) message.now count }
    {
        let (blocks, _) = message.as_chunks::<16>();
        let mut state = [0u8; 16];
        for block in &blocks[..count] {
            state = self.encrypt(xor_block(state, *block));
        }
        state
    }

    #[tactic(auto, unfolding(crate::specs::Cmac::mac_with))]
    pub fn aes_cmac(self, message: &[u8]) -> [u8; 16]
        ensures { result ≡ mac_with (cipher_by self.entry.table.now self.entry.round_keys.now) self.entry.k1 message.now }
    {
        let state = self.chain(message, blocks_before_last(message.len()));
        self.encrypt(xor_block(state, last_block(self.k1, message)))
    }

    // The same for a message of one block. By words: a block that was put together byte by byte is slow to read back. As
    // `self.aes_cmac(&block)` a hop MAC takes 0.5 % longer, and three take 1.8 % longer; they are to be no slower than they were.
    #[tactic(auto, using(crate::proofs::CmacLaws::one_block, aes_words::proofs::WordBytes::xor_words))]
    #[inline(always)]
    pub fn aes_cmac_block(self, block: [u8; 16]) -> [u8; 16]
        ensures { result ≡ mac_with (cipher_by self.entry.table.now self.entry.round_keys.now) self.entry.k1 block }
    {
        encrypt_words(
            self.table,
            *self.round_keys,
            xor_words(words(block), words(self.k1)),
        )
    }
}

#[tactic(auto, using(crate::proofs::CmacLaws::cmac_from_schedule))]
pub fn aes_cmac(key: [u8; 16], message: &[u8]) -> [u8; 16]
    ensures { result ≡ aes_cmac key message.now }
{
    let table = round_table();
    let round_keys = expand_key(key);
    KeySchedule::new(&table, &round_keys).aes_cmac(message)
}

// The same for a message of one block, by words.
#[tactic(auto, using(crate::proofs::CmacLaws::cmac_from_schedule))]
pub fn aes_cmac_block(key: [u8; 16], block: [u8; 16]) -> [u8; 16]
    ensures { result ≡ aes_cmac key block }
{
    let table = round_table();
    let round_keys = expand_key(key);
    KeySchedule::new(&table, &round_keys).aes_cmac_block(block)
}
