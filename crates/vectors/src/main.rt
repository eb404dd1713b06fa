// Known answers of FIPS 197 and RFC 4493, and hop MACs that Python worked out, each on a line.
#![tactic(auto)]

use aes_keys::expand_key;
use cmac::KeySchedule;
use std::{fmt, io};

// The key of FIPS 197, appendices A.1 and B, and of RFC 4493, section 4.
const KEY: [u8; 16] = *b"\x2b\x7e\x15\x16\x28\xae\xd2\xa6\xab\xf7\x15\x88\x09\xcf\x4f\x3c";

// FIPS 197, appendix B: the input.
const INPUT_B: [u8; 16] = *b"\x32\x43\xf6\xa8\x88\x5a\x30\x8d\x31\x31\x98\xa2\xe0\x37\x07\x34";

// FIPS 197, appendix C.1: the key and the input.
const KEY_C: [u8; 16] = *b"\x00\x01\x02\x03\x04\x05\x06\x07\x08\x09\x0a\x0b\x0c\x0d\x0e\x0f";

const INPUT_C: [u8; 16] = *b"\x00\x11\x22\x33\x44\x55\x66\x77\x88\x99\xaa\xbb\xcc\xdd\xee\xff";

// RFC 4493, section 4: the longest message, of which the others are the first bytes.
const MESSAGE: [u8; 64] = *b"\
\x6b\xc1\xbe\xe2\x2e\x40\x9f\x96\xe9\x3d\x7e\x11\x73\x93\x17\x2a\
\xae\x2d\x8a\x57\x1e\x03\xac\x9c\x9e\xb7\x6f\xac\x45\xaf\x8e\x51\
\x30\xc8\x1c\x46\xa3\x5c\xe4\x11\xe5\xfb\xc1\x19\x1a\x0a\x52\xef\
\xf6\x9f\x24\x45\xdf\x4f\x9b\x17\xad\x2b\x41\x7b\xe6\x6c\x37\x10";

// Bytes in hex. Not by the kit's `hex`: its text stands on the heap, or in a slice of twice the length, which is no plainer.
#[derive(Clone, Copy)]
struct Hex<'a>(&'a [u8]);

impl fmt::Display for Hex<'_> {
    fn fmt<W: fmt::Write>(&self, f: &mut fmt::Formatter<W>) -> fmt::Result {
        for byte in self.0 {
            write!(f, "{byte:02x}")?;
        }
        Ok(())
    }
}

// Writes a line: the label, and the value in hex.
fn put(rt: &impl Print, label: &str, value: &[u8]) -> io::Result<()> {
    println!(rt; "{label} {}", Hex(value))
}

fn last_round_key(key: [u8; 16]) -> [u8; 16] {
    let round_keys = expand_key(key);
    round_keys[10]
}

fn put_cipher(rt: &impl Print, label: &str, key: [u8; 16], input: [u8; 16]) -> io::Result<()> {
    put(rt, label, &aes::encrypt_block(expand_key(key), input))
}

fn put_fips_197(rt: &impl Print) -> io::Result<()> {
    put(rt, "FIPS 197 A.1 last round key", &last_round_key(KEY))?;
    put_cipher(rt, "FIPS 197 B cipher", KEY, INPUT_B)?;
    put_cipher(rt, "FIPS 197 C.1 cipher", KEY_C, INPUT_C)
}

fn put_mac(rt: &impl Print, label: &str, message: &[u8]) -> io::Result<()> {
    put(rt, label, &cmac::aes_cmac(KEY, message))
}

fn put_rfc_4493(rt: &impl Print) -> io::Result<()> {
    put_cipher(rt, "RFC 4493 AES-128(key,0)", KEY, [0u8; 16])?;
    let table = aes::round_table();
    let round_keys = expand_key(KEY);
    let schedule = KeySchedule::new(&table, &round_keys);
    put(rt, "RFC 4493 K1", &schedule.k1)?;
    put(rt, "RFC 4493 K2", &cmac::double(schedule.k1))?;
    let message = MESSAGE;
    put_mac(rt, "RFC 4493 MAC of 0 bytes", &message[..0])?;
    put_mac(rt, "RFC 4493 MAC of 16 bytes", &message[..16])?;
    put_mac(rt, "RFC 4493 MAC of 40 bytes", &message[..40])?;
    put_mac(rt, "RFC 4493 MAC of 64 bytes", &message)
}

// A hop MAC by both ways, a line for each. Its numbers go one by one, as both calls take them.
fn put_hop_mac(
    rt: &impl Print,
    label: &str,
    key: [u8; 16],
    segment_id: u16,
    timestamp: u32,
    exp_time: u8,
    cons_ingress: u16,
    cons_egress: u16,
) -> io::Result<()> {
    let from_key = hop_mac::calculate_hop_mac(
        segment_id,
        timestamp,
        exp_time,
        cons_ingress,
        cons_egress,
        key,
    );
    put(rt, label, &from_key)?;
    let table = aes::round_table();
    let round_keys = expand_key(key);
    let from_schedule = hop_mac::calculate_hop_mac_with(
        KeySchedule::new(&table, &round_keys),
        segment_id,
        timestamp,
        exp_time,
        cons_ingress,
        cons_egress,
    );
    println!(rt; "{label} with schedule {}", Hex(&from_schedule))
}

// The answers were worked out by hop_macs.py, with the CMAC of Python's package `cryptography`.
fn put_hop_macs(rt: &impl Print) -> io::Result<()> {
    put_hop_mac(rt, "hop MAC of all zeros", [0u8; 16], 0, 0, 0, 0, 0)?;
    put_hop_mac(
        rt,
        "hop MAC of all ones",
        [0xff; 16],
        0xffff,
        0xffff_ffff,
        0xff,
        0xffff,
        0xffff,
    )?;
    put_hop_mac(rt, "hop MAC of a SegID", KEY, 0x1234, 0, 0, 0, 0)?;
    put_hop_mac(rt, "hop MAC of a timestamp", KEY, 0, 0x1234_5678, 0, 0, 0)?;
    put_hop_mac(rt, "hop MAC of an ExpTime", KEY, 0, 0, 0x12, 0, 0)?;
    put_hop_mac(rt, "hop MAC of a ConsIngress", KEY, 0, 0, 0, 0x1234, 0)?;
    put_hop_mac(rt, "hop MAC of a ConsEgress", KEY, 0, 0, 0, 0, 0x1234)?;
    put_hop_mac(
        rt,
        "hop MAC of every field",
        KEY_C,
        0x8a5f,
        1_700_000_000,
        63,
        41,
        258,
    )
}

// Writes a line: what the accumulator 1234 becomes after a hop MAC.
fn put_beta_step(rt: &impl Print, hop_mac: [u8; 6]) -> io::Result<()> {
    let next = hop_mac::mac_beta_step(0x1234, hop_mac);
    println!(rt; "SegID 1234 after MAC {} {next:04x}", Hex(&hop_mac))
}

fn put_beta_steps(rt: &impl Print) -> io::Result<()> {
    put_beta_step(rt, *b"\xab\xcd\x01\x02\x03\x04")?;
    put_beta_step(rt, [0u8; 6])?;
    put_beta_step(rt, [0xff; 6])
}

fn main(rt: HostRuntime) -> io::Result<()> {
    put_fips_197(&rt)?;
    put_rfc_4493(&rt)?;
    put_hop_macs(&rt)?;
    put_beta_steps(&rt)
}
