//! The lines of a text, which line feeds end, and where a place stands in them.

ghost use Rattle.std.specs.Prelude.{◌≡◌, ◌≤◌, drop, length, take};
ghost use Rattle.text_parts.specs.Lines as spec;

/// The line feed, which ends a line.
const FEED: u8 = b'\n';

/// Where a place stands in its text: its line and its column, both counted from 1. A column counts bytes; a tab is one.
#[derive(Clone, Copy, PartialEq, Eq)]
pub struct LineColumn {
    pub line: usize,
    pub column: usize,
}

/// The line and the column of a place, which may be the length of the text. What is past it is taken as that.
pub fn position(bytes: &[u8], place: usize) -> LineColumn
    ensures line { result.line ≡ spec.line bytes.now place }
    ensures column { result.column ≡ spec.column bytes.now place }
{
    let (before, _) = halves(bytes, place);
    LineColumn {
        line: feeds(before) + 1,
        column: since_feed(before).len() + 1,
    }
}

/// The bytes before a place, and those from it on.
pub fn halves(bytes: &[u8], place: usize) -> (&[u8], &[u8])
    ensures before { result.0.now ≡ take place bytes.now }
    ensures behind { result.1.now ≡ drop place bytes.now }
{
    if place < bytes.len() {
        bytes.split_at(place)
    } else {
        (bytes, &[])
    }
}

/// How many line feeds there are.
fn feeds(bytes: &[u8]) -> usize
    ensures count { result ≡ spec.feeds bytes.now }
    ensures most { result ≤ length bytes.now }
{
    let mut count = 0;
    for byte in bytes {
        if *byte == FEED {
            count += 1;
        }
    }
    count
}

/// The bytes behind the last line feed; all where there is none.
pub fn since_feed(bytes: &[u8]) -> &[u8]
    ensures behind { result.now ≡ spec.since_feed bytes.now }
    ensures most { length result.now ≤ length bytes.now }
{
    let mut start = 0;
    for (i, byte) in bytes.iter().enumerate() {
        if *byte == FEED {
            start = i + 1;
        }
    }
    &bytes[start..]
}

/// The bytes in front of the first line feed; all where there is none.
pub fn to_feed(bytes: &[u8]) -> &[u8]
    ensures { result.now ≡ spec.to_feed bytes.now }
{
    for (i, byte) in bytes.iter().enumerate() {
        if *byte == FEED {
            return &bytes[..i];
        }
    }
    bytes
}
