ghost use Rattle.std.specs.Prelude.{◌≡◌, ℕ, ◌-◌, ◌<◌, ◌≤◌, List, length, take, slice_range};
ghost use Rattle.std.specs.Io.KnownBytes.{Keeps, prepend_known};
ghost use Rattle.edge_traits.specs.Causes.{Rose};
ghost use Rattle.httparse.specs.Grammar.{RequestHead, ReadsRequest};
ghost use Rattle.http_wire.specs.Found.{IsFound, IsEnded};
ghost use Rattle.http_wire.specs.LineReads.{IsLineRead};
ghost use Rattle.http_wire.specs.declared.line_read.LineRead.TheVariants as line;

use crate::found::Found;
use crate::limits::{FIELD_LIMIT, HEAD_LIMIT};
use crate::line_read::{LineRead, read_line};
use crate::parse::{Standing, parse};
use edge_traits::Source;
use httparse::spans::HeaderSpan;

/// A found head or end, and the range of the unused bytes in the buffer.
#[derive(Clone, Copy)]
pub struct Search {
    pub found: Found,
    pub start: usize,
    pub end: usize,
}

/// Finds what stands at the front of the unused bytes, `start` to `end` of `bytes`, and of what the source has left.
/// It reads only while the unused bytes do not decide that.
pub fn find_head<S: Source>(
    source: &mut S,
    bytes: &mut [u8],
    headers: &mut [HeaderSpan],
    start: usize,
    end: usize,
) -> Search
    requires room { length bytes.old ≡ HEAD_LIMIT }
    requires header_room { length headers.old ≡ FIELD_LIMIT }
    requires ordered { start ≤ end }
    requires within { end ≤ length bytes.old }
    ensures ordered { result.start ≤ result.end }
    ensures within { result.end ≤ length bytes.new }
    ensures kept { Keeps (prepend_known (slice_range bytes.old start end) (S.left source.old))
        (prepend_known (slice_range bytes.new result.start result.end) (S.left source.new)) }
    ensures found { IsFound (slice_range bytes.new result.start result.end) headers.new
        (S.left source.new) result.found }
    ensures beside { S.beside source.new ≡ S.beside source.old }
    ensures names { S.names source.new ≡ S.names source.old }
    ensures later { S.faults source.old ≤ S.faults source.new }
    ensures fault { result.found ≡ Found.Fault → Rose (S.faults source.old) (S.faults source.new) }
    ensures unread { (h : RequestHead) (rest : List ℕ)
        → ReadsRequest (slice_range bytes.old start end) h rest
        → (source.new ≡ source.old)
        × (slice_range bytes.new result.start result.end ≡ slice_range bytes.old start end) }
{
    let mut start = start;
    let mut end = end;
    'reads: loop {
        match parse(&bytes[start..end], headers) {
            Standing::Whole(spans) => {
                return Search {
                    found: Found::Head(spans),
                    start,
                    end,
                };
            }
            Standing::Bad => return Search {
                found: Found::BadHead,
                start,
                end,
            },
            Standing::Long => return Search {
                found: Found::HeadTooLong,
                start,
                end,
            },
            Standing::Unfinished => match fill(source, bytes, start, end) {
                LineRead::Fault(count) => return Search {
                    found: Found::Fault,
                    start: 0,
                    end: end - start + count,
                },
                LineRead::End => return ended(end - start),
                LineRead::More(count) => {
                    end = end - start + count;
                    start = 0;
                }
            },
        }
    }
}

// The input ended, with that many unused bytes.
fn ended(unused: usize) -> Search
    ensures start { result.start ≡ 0 }
    ensures end { result.end ≡ unused }
    ensures found { IsEnded unused result.found }
{
    let found = if unused == 0 { Found::End } else { Found::Cut };
    Search {
        found,
        start: 0,
        end: unused,
    }
}

// Moves the unused bytes to the front, and reads behind them up to a line's end.
fn fill<S: Source>(source: &mut S, bytes: &mut [u8], start: usize, end: usize) -> LineRead
    requires ordered { start ≤ end }
    requires within { end ≤ length bytes.old }
    requires room { end - start < length bytes.old }
    ensures stays { take (end - start) bytes.new ≡ slice_range bytes.old start end }
    ensures read { IsLineRead (S.left source.old) (S.left source.new) (end - start) bytes.new
        result }
    ensures beside { S.beside source.new ≡ S.beside source.old }
    ensures names { S.names source.new ≡ S.names source.old }
    ensures later { S.faults source.old ≤ S.faults source.new }
    ensures fault { (n : _) → result ≡ line.Fault n
        → Rose (S.faults source.old) (S.faults source.new) }
{
    bytes[..end].rotate_left(start);
    read_line(source, bytes, end - start)
}
