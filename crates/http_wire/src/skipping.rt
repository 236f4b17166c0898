ghost use Rattle.std.specs.Prelude.{◌≡◌, ◌<◌, ◌≤◌, length, IfOk};
ghost use Rattle.edge_traits.specs.Causes.{Rose, HasCause};
ghost use Rattle.http_wire.specs.Skipping.{IsDropped, IsPiece};
ghost use Rattle.http_wire.specs.declared.skipping.Dropped.TheVariants.{Fault};

use edge_traits::{Failed, Source};

/// How far bytes were dropped.
#[derive(Clone, Copy)]
pub enum Dropped {
    Full,
    /// The input ended, with as many bytes dropped.
    Cut(usize),
    Fault,
}

/// Reads and drops so many bytes, by pieces of at most the length of `room`.
pub fn drop_bytes<S: Source>(source: &mut S, room: &mut [u8], count: usize) -> Dropped
    requires { 0 < length room.old }
    ensures dropped { IsDropped (S.left source.old) (S.left source.new) count result }
    ensures beside { S.beside source.new ≡ S.beside source.old }
    ensures names { S.names source.new ≡ S.names source.old }
    ensures later { S.faults source.old ≤ S.faults source.new }
    ensures fault { result ≡ Fault → Rose (S.faults source.old) (S.faults source.new) }
{
    let mut done = 0;
    'pieces: while done < count {
        match read_piece(source, room, count - done) {
            Err(Failed) => return Dropped::Fault,
            Ok(0) => return Dropped::Cut(done),
            Ok(piece) => done += piece,
        }
    }
    Dropped::Full
}

/// Reads a piece of at most `most` bytes.
fn read_piece<S: Source>(source: &mut S, room: &mut [u8], most: usize) -> Result<usize, Failed>
    requires room { 0 < length room.old }
    requires some { 0 < most }
    ensures bound { IfOk result (λ n. n ≤ most) }
    ensures given { IsPiece (S.left source.old) (S.left source.new) result }
    ensures beside { S.beside source.new ≡ S.beside source.old }
    ensures names { S.names source.new ≡ S.names source.old }
    ensures cause { HasCause (S.faults source.old) (S.faults source.new) result }
{
    let end = most.min(room.len());
    source.read(&mut room[..end])
}
