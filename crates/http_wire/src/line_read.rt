ghost use Rattle.std.specs.Prelude.{◌≡◌, false, ◌+◌, ◌-◌, ◌<◌, ◌≤◌, length, take, drop};
ghost use Rattle.std.specs.List.{list_any};
ghost use Rattle.edge_traits.specs.Causes.{Rose, HasCause};
ghost use Rattle.std.specs.Io.KnownBytes.{ReadConsumes};
ghost use Rattle.http_wire.specs.Heads.{is_feed};
ghost use Rattle.http_wire.specs.LineReads.{IsLineRead};
ghost use Rattle.http_wire.specs.declared.line_read.LineRead.TheVariants.{Fault};
ghost use Rattle.std.specs.Prelude.{IfOk};

use edge_traits::{Failed, Source};

/// How far the source was read.
#[derive(Clone, Copy)]
pub enum LineRead {
    /// So many bytes came, at least one: up to a line's end, the end of the room or the end of the input.
    More(usize),
    /// The input has ended, and no byte came.
    End,
    /// The source had a fault. So many bytes came before, and no line's end among them.
    Fault(usize),
}

/// Reads behind the first `at` bytes until a line's end came, or no room is left.
pub fn read_line<S: Source>(source: &mut S, bytes: &mut [u8], at: usize) -> LineRead
    requires { at < length bytes.old }
    ensures stays { take at bytes.new ≡ take at bytes.old }
    ensures read { IsLineRead (S.left source.old) (S.left source.new) at bytes.new result }
    ensures beside { S.beside source.new ≡ S.beside source.old }
    ensures names { S.names source.new ≡ S.names source.old }
    ensures later { S.faults source.old ≤ S.faults source.new }
    ensures fault { (n : _) → result ≡ Fault n → Rose (S.faults source.old) (S.faults source.new) }
{
    let mut end = at;
    'pieces: while end < bytes.len() {
        match read_behind(source, bytes, end) {
            Err(Failed) => return LineRead::Fault(end - at),
            Ok(0) => return if end == at {
                LineRead::End
            } else {
                LineRead::More(end - at)
            },
            Ok(count) => {
                let line = has_feed(&bytes[end..end + count]);
                end += count;
                if line {
                    return LineRead::More(end - at);
                }
            }
        }
    }
    LineRead::More(end - at)
}

/// Whether a line ends in these bytes.
fn has_feed(bytes: &[u8]) -> bool
    ensures { result ≡ list_any is_feed bytes.now }
{
    bytes.iter().any(|byte| *byte == b'\n')
}

/// Reads as many bytes as the source gives behind the first `at`.
pub fn read_behind<S: Source>(source: &mut S, bytes: &mut [u8], at: usize) -> Result<usize, Failed>
    requires { at ≤ length bytes.old }
    ensures bound { IfOk result (λ n. at + n ≤ length bytes.new) }
    ensures stays { take at bytes.new ≡ take at bytes.old }
    ensures given { ReadConsumes (S.left source.old) (S.left source.new) result
        (drop at bytes.new) }
    ensures beside { S.beside source.new ≡ S.beside source.old }
    ensures names { S.names source.new ≡ S.names source.old }
    ensures cause { HasCause (S.faults source.old) (S.faults source.new) result }
{
    source.read(&mut bytes[at..])
}
