// Layer 4: the header of a message, and the message's tests.
ghost use Rattle.std.specs.Prelude.{◌&&◌, ◌≡◌, ◌*◌, ◌≤◌, ◌<◌, ◌^◌, eqb, length, drop};
ghost use Rattle.channel.specs.Headers.{message_or};
ghost use Rattle.channel.specs.Layer4.{where_ext, size_of, opened, opened_at, right_form, blocks_for, message_of, is_padding};

use crate::{DATA_IN_BLOCK, Header, MOST_GATHERED};
use answers::Refusal;

// A header as it stands in the bytes, before its tests.
#[derive(Clone, Copy)]
pub struct Opened {
    pub header: Header,
    pub rfa: u8,
    pub caf: bool,
    pub checked: bool,
}

impl Opened {
    // RFA is zero. A number below 512 is written without EXT, and a greater one needs it: without EXT there are nine bits.
    fn is_formed(&self) -> bool
        ensures { result ≡ (eqb self.now.rfa 0 && right_form self.now.header.ext self.now.header.number) }
    {
        self.rfa == 0 && (!self.header.ext || 512 <= self.header.number)
    }
}

// What the gathered bytes are: the message, or why they are none.
pub(crate) fn read(bytes: &[u8]) -> Result<Header, Refusal>
    requires { (20 ≤ length bytes.now) × (length bytes.now ≤ 260) }
    ensures { message_or result ≡ message_of bytes.now }
{
    let opened = header_at(bytes);
    if opened.caf {
        return Err(Refusal::HeaderForm);
    }
    if !opened.checked {
        return Err(Refusal::HeaderCheck);
    }
    if !opened.is_formed() {
        return Err(Refusal::HeaderForm);
    }
    let header = opened.header;
    let end = header.size + header.length;
    if MOST_GATHERED < end {
        return Err(Refusal::TooLong);
    }
    if !padded(bytes, end) {
        return Err(Refusal::CountOrPadding);
    }
    Ok(header)
}

fn header_at(bytes: &[u8]) -> Opened
    requires { 20 ≤ length bytes.now }
    ensures { result ≡ opened_at bytes.now }
{
    let ext = bytes[0] / 2 % 2 == 1;
    parted(crate::header_from(&bytes[..crate::header_size(ext)]), ext)
}

// A header, taken apart.
fn parted(h: u64, ext: bool) -> Opened
    requires { h < 2 ^ (8 * size_of ext) }
    ensures { result ≡ opened ext h }
{
    let fields = h / 64;
    Opened {
        header: reported(h, ext),
        rfa: where_ext(ext, (fields >> 10) % 8) as u8,
        caf: (fields >> 8) % 2 == 1,
        checked: header::check(fields) == h % 64,
    }
}

// The fields that are reported: RI to ADD are the first sixteen bits of a header, the others stand above its end.
fn reported(h: u64, ext: bool) -> Header
    ensures { result ≡ (opened ext h).header }
{
    let size = crate::header_size(ext);
    let fields = h / 64;
    let front = fields >> (8 * size - 22);
    let upper = where_ext(ext, (fields >> 13) % 32);
    Header {
        ri: ((front >> 14) % 4) as u8,
        ci: ((front >> 12) % 4) as u8,
        first: (front >> 11) % 2 == 1,
        last: (front >> 10) % 2 == 1,
        ext,
        number: (512 * upper + front % 512) as u16,
        command: (fields >> 9) % 2 == 1,
        length: (fields % 256) as usize,
        size,
    }
}

// A field that a header has with EXT only.
fn where_ext(ext: bool, field: u64) -> u64
    ensures { (result ≡ where_ext ext field) × (result ≤ field) }
{
    if ext { field } else { 0 }
}

// Whether the bytes are the least number of blocks that holds a message up to `end`, and zero behind it.
fn padded(bytes: &[u8], end: usize) -> bool
    requires { end ≤ 260 }
    ensures { result ≡ (eqb (blocks_for end * 20) (length bytes.now) && is_padding (drop end bytes.now)) }
{
    crate::blocks_for(end) * DATA_IN_BLOCK == bytes.len()
        && bytes[end..].iter().all(|byte| *byte == 0)
}
