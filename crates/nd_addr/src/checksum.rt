ghost use Rattle.std.specs.Prelude.{◌≡◌, ◌↔◌, ◌≤◌, ◌<◌, ◌+◌, ◌*◌, ◌^◌, [], ◌∷◌, length, IsTrue};
ghost use Rattle.byteorder.specs.Endian.{big_bytes};
ghost use Rattle.nd_addr.specs.Checksum.{word_sum, pseudo_header, total, HasRestOf, IsGoodSum, with_sum, sum_to_write};

use crate::addr::Addr;
use crate::ip6::NEXT_HEADER_ICMPV6;

/// The place of the checksum in an ICMPv6 message, in 2 bytes (RFC 4443, section 2.1).
pub const SUM_AT: usize = 2;

/// The end of the checksum in a message, in bytes.
const SUM_END: usize = SUM_AT + 2;

/// Returns a word of two bytes.
fn word(high: u8, low: u8) -> u64
    ensures { result ≡ 256 * high + low }
{
    256 * high as u64 + low as u64
}

/// What the upper two of four words are multiplied by in the number that the four make.
const TWO_WORDS: u64 = 1 << 32;

/// The most bytes that are added before the carries of their sum are added, so that no sum overflows (our choice).
const PIECE: usize = 65536;

/// Returns a sum plus the words of at most three bytes.
fn add_end(so_far: u64, bytes: &[u8]) -> u64
    requires sum { so_far < 2 ^ 63 }
    requires short { length bytes.now < 4 }
    ensures exact { result ≡ so_far + word_sum bytes.now }
    ensures small { result ≤ so_far + 2 ^ 30 * length bytes.now }
{
    match bytes {
        [a, b, c] => so_far + word(*a, *b) + word(*c, 0),
        [a, b] => so_far + word(*a, *b),
        [a] => so_far + word(*a, 0),
        _ => so_far,
    }
}

/// Returns a sum plus the words of some bytes, four words a step. The carries are left in it.
fn add_piece(start: u64, bytes: &[u8]) -> u64
    requires start { start < 2 ^ 62 }
    requires piece { length bytes.now ≤ 2 ^ 16 }
    ensures rest { HasRestOf result (start + word_sum bytes.now) }
    ensures small { result ≤ start + 2 ^ 30 * length bytes.now }
{
    let mut so_far = start;
    let mut rest = bytes;
    while let [a, b, c, d, e, f, g, h, after @ ..] = rest {
        let four = u64::from_be_bytes([*a, *b, *c, *d, *e, *f, *g, *h]);
        so_far += four / TWO_WORDS + four % TWO_WORDS;
        rest = after;
    }
    match rest {
        [a, b, c, d, after @ ..] => {
            let two = u32::from_be_bytes([*a, *b, *c, *d]);
            add_end(so_far + two as u64, after)
        }
        _ => add_end(so_far, rest),
    }
}

/// Returns a sum plus the words of any number of bytes.
fn add_words(start: u64, bytes: &[u8]) -> u64
    requires { start < 2 ^ 40 }
    ensures { HasRestOf result (start + word_sum bytes.now) }
{
    let mut so_far = start;
    let mut rest = bytes;
    while rest.len() > PIECE {
        let (piece, after) = rest.split_at(PIECE);
        so_far = add_piece(so_far, piece) % 65535;
        rest = after;
    }
    add_piece(so_far, rest)
}

/// Returns the sum of two words, the upper one shifted: the rest by 65535 is the same.
#[inline(always)]
fn two_words(a: u8, b: u8, c: u8, d: u8) -> u64
    ensures rest { HasRestOf result (256 * a + b + (256 * c + d)) }
    ensures small { result < 2 ^ 32 }
{
    u32::from_be_bytes([a, b, c, d]) as u64
}

/// Returns the sum of the words of an address. The carries are left in it.
#[inline(always)]
fn address_sum(address: Addr) -> u64
    ensures rest { HasRestOf result (word_sum address.0) }
    ensures small { result < 2 ^ 34 }
{
    let [a, b, c, d, e, f, g, h, i, j, k, l, m, n, o, p] = address.0;
    two_words(a, b, c, d) + two_words(e, f, g, h) + two_words(i, j, k, l) + two_words(m, n, o, p)
}

/// Returns the sum of the pseudo-header of a message of this length.
#[inline(always)]
fn header_sum(source: Addr, destination: Addr, length: usize) -> u64
    ensures rest { HasRestOf result (word_sum (pseudo_header source.0 destination.0 length)) }
    ensures small { result < 2 ^ 36 }
{
    let start = (length % (1 << 32)) as u64 + NEXT_HEADER_ICMPV6 as u64;
    start + address_sum(source) + address_sum(destination)
}

/// Returns true if the checksum of a message, which includes its field, is good (RFC 4443, section 2.3). Both spellings of zero in the field are
/// good.
pub fn sum_is_good(source: Addr, destination: Addr, message: &[u8]) -> bool
    ensures { IsTrue result ↔ IsGoodSum source.0 destination.0 message.now }
{
    add_words(header_sum(source, destination, message.len()), message) % 65535 == 0
}

/// Returns the sum of a message with its checksum field, if it has one, taken as zero.
fn sum_without_field(source: Addr, destination: Addr, message: &[u8]) -> u64
    ensures { HasRestOf result (total source.0 destination.0 (with_sum (0 ∷ 0 ∷ []) message.now)) }
{
    let start = header_sum(source, destination, message.len());
    if message.len() < SUM_END {
        return add_words(start, message);
    }
    add_words(add_piece(start, &message[..SUM_AT]), &message[SUM_END..])
}

/// Returns the checksum to write into a message, for any value of its field (RFC 4443, section 2.3). A message shorter than four bytes has no such
/// field, and is summed as it is (our choice).
pub fn sum_for(source: Addr, destination: Addr, message: &[u8]) -> u16
    ensures exact { result ≡ sum_to_write source.0 destination.0 message.now }
    ensures good { 4 ≤ length message.now → IsGoodSum source.0 destination.0 (with_sum (big_bytes 2 result) message.now) }
{
    let rest = sum_without_field(source, destination, message) % 65535;
    (65535 - rest as u16) % 65535
}
