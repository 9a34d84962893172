// A line and its fields.
ghost use Rattle.std.specs.Prelude.{◌≡◌, ◌≤◌, length};
ghost use Rattle.text.specs.Find.{index_of};
ghost use Rattle.text.specs.Fields.{same_as, tabs, field_of};

use memchr::memchr;

// Whether a and b hold the same bytes: `==`, with its public promise (`same_as`).
pub fn same(a: &[u8], b: &[u8]) -> bool
    ensures { result ≡ same_as a.now b.now }
{
    a == b
}

// How many bytes stand before the first that is this one, and all where there is none: a place to cut at in either case.
pub fn find(bytes: &[u8], byte: u8) -> usize
    ensures first { result ≡ index_of byte bytes.now }
    ensures within { result ≤ length bytes.now }
{
    memchr(byte, bytes).unwrap_or(bytes.len())
}

// The number of arguments of a line: one behind each tab, since the command stands before the first.
pub fn arguments(line: &[u8]) -> usize
    ensures { result ≡ tabs line.now }
{
    let mut count = 0;
    for byte in line {
        if *byte == b'\t' {
            count += 1;
        }
    }
    count
}

// The field with an index, 0 for the command; where the line has no such field, nothing, as `field_of` has it: an argument
// that is empty can't be read either. A tab is looked for by `find`, many bytes at a time: `split` takes them one by one, and of
// long fields twenty times as long.
pub fn field(line: &[u8], index: usize) -> &[u8]
    ensures { result.now ≡ field_of index line.now }
{
    let mut rest = line;
    for _ in 0..index {
        let (_, from_tab) = rest.split_at(find(rest, b'\t'));
        let Some((_, behind)) = from_tab.split_first() else {
            return &[];
        };
        rest = behind;
    }
    &rest[..find(rest, b'\t')]
}
