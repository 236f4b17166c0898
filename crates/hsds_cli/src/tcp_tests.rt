//! Doors and links over TCP, at the loopback address.

use crate::doors_for;
use crate::exchanges::column;
use crate::tcp_door::{TcpDoor, doors_at};
use crate::trials::words_of;
use edge_traits::{Door, Source, write_all};
use std::io;
use std::io::{Read, Write};
use std::net::{Shutdown, TcpListener, TcpStream};
use std::test::Fail;
use std::time::Duration;

/// More than is read before the answer, and less than is dropped at the end.
const LATE: usize = 40_000;

// A row is a line, and the number of its doors.
static DOORS: &str = "serve --listen 127.0.0.1:0|4
serve --workers 1 --listen=127.0.0.1:0|1
serve --listen 127.0.0.1:0 --workers 16 --links 1|16
serve --listen nowhere --workers 3|3
serve --listen 127.0.0.1:0 --workers 17|0
session|0
verify|0";

/// The door at what is listened at.
fn door_at(rt: &HostRuntime, listener: Option<&TcpListener>) -> Result<TcpDoor<HostRuntime>, Fail> {
    let mut doors = doors_at(rt.alloc(), listener, *rt, 1)?;
    Ok(doors.pop().ok_or("no door")?)
}

/// A client that asks, and sends more behind it.
fn asking(rt: &HostRuntime, listener: &TcpListener) -> io::Result<TcpStream> {
    let mut client = TcpStream::connect(rt, listener.local_addr()?)?;
    client.write_all(b"ask")?;
    client.write_all(&[b'x'; LATE])?;
    client.shutdown(Shutdown::Write)?;
    Ok(client)
}

/// Serves one link of a door, which is answered once it asked: whether that was done.
fn is_served(door: &mut TcpDoor<HostRuntime>) -> bool {
    let Ok(Some(mut link)) = door.next() else {
        return false;
    };
    let mut asked = [0u8; 3];
    let read = link.read(&mut asked).is_ok();
    let answered = write_all(&mut link, b"answer").is_ok();
    door.give_back(link);
    read && &asked == b"ask" && answered
}

#[test]
fn an_answer_comes_whole_though_more_was_sent(rt: HostRuntime) -> Result<(), Fail> {
    let listener = TcpListener::bind(&rt, "127.0.0.1:0")?;
    let mut door = door_at(&rt, Some(&listener))?;
    let mut client = asking(&rt, &listener)?;
    assert!(rt; is_served(&mut door));
    let mut answer = [0u8; 6];
    client.read_exact(&mut answer)?;
    assert!(rt; &answer == b"answer" && client.read(&mut [0u8; 1])? == 0);
    Ok(())
}

#[test]
fn a_link_sends_at_once_and_waits_for_thirty_seconds(rt: HostRuntime) -> Result<(), Fail> {
    let listener = TcpListener::bind(&rt, "127.0.0.1:0")?;
    let mut door = door_at(&rt, Some(&listener))?;
    let _client = TcpStream::connect(&rt, listener.local_addr()?)?;
    let Ok(Some(link)) = door.next() else {
        return Err(Fail::from("no link"));
    };
    let (at_once, read, written) = link.options()?;
    door.give_back(link);
    let wait = Some(Duration::from_secs(30));
    assert!(rt; at_once && read == wait && written == wait);
    Ok(())
}

#[test]
fn a_door_where_nothing_is_listened_at_has_faults(rt: HostRuntime) -> Result<(), Fail> {
    let mut door = door_at(&rt, None)?;
    assert!(rt; door.next().is_err());
    let listener = TcpListener::bind(&rt, "127.0.0.1:0")?;
    assert!(rt; TcpListener::bind(&rt, listener.local_addr()?).is_err());
    Ok(())
}

#[test]
fn each_worker_of_a_command_has_a_door(rt: HostRuntime) -> Result<(), Fail> {
    let alloc = rt.alloc();
    for row in DOORS.split('\n') {
        let words = words_of(alloc, column(row, 0))?;
        let doors = doors_for(&rt, words.as_slice())?;
        let count = format!(in alloc; "{}", doors.len())?;
        assert!(rt; count.as_str() == column(row, 1), "{row}");
    }
    Ok(())
}
