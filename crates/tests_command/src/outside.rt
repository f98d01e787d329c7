// The sink, the shelf and the link by themselves: those that never fail, what is cut, what comes and goes a byte at a time, and
// time that passes while datagrams come.
ghost use Rattle.std.specs.Prelude.{◌≡◌, IfOk};

use circus_outside::{
    Arrival, Arrivals, Failing, File, Files, Link, MemLink, Shelf, ShelfFault, Sink, SinkFault,
    SureShelf, SureSink, TakenFrom, UdpLink, read_contents, write_piece,
};
use circus_value::{Message, NoMemory, Octets};
use std::alloc::Global;
use std::io::{self, ErrorKind, Read, Write};
use std::net::{Ipv4Addr, Net, UdpSocket};
use std::test::Fail;

fn octets(alloc: Global, bytes: &[u8]) -> Result<Octets, NoMemory>
    ensures { IfOk result (λ all. all ≡ bytes.now) }
{
    let mut all = Octets::new(alloc);
    all.append(bytes)?;
    Ok(all)
}

// With one file.
fn sure_shelf(alloc: Global) -> Result<SureShelf, NoMemory> {
    let name = octets(alloc, b"p")?;
    let contents = octets(alloc, b"one")?;
    let mut files = Files::new(alloc);
    files.push(File { name, contents })?;
    Ok(SureShelf::new(alloc, files))
}

#[test]
fn a_sure_shelf_has_no_absent_name(rt: HostRuntime) -> Result<(), Fail> {
    let mut shelf = sure_shelf(rt.alloc())?;
    assert_eq!(rt; shelf.fetch("p")?.as_slice(), b"one".as_slice());
    assert!(rt; shelf.fetch("q")?.is_empty());
    Ok(())
}

#[test]
fn a_sure_sink_takes_all(rt: HostRuntime) -> Result<(), Fail> {
    let mut sink = SureSink::new(rt.alloc());
    assert_eq!(rt; sink.put(b"ab")?, 2);
    assert_eq!(rt; sink.written().as_slice(), b"ab".as_slice());
    Ok(())
}

// A link at which so many bytes arrive at once.
fn link(alloc: Global, length: usize) -> Result<MemLink, NoMemory> {
    let mut bytes = Message::new(alloc);
    for _ in 0..length {
        bytes.push(7)?;
    }
    let mut arrivals = Arrivals::new(alloc);
    arrivals.push(Arrival { port: 9001, bytes })?;
    Ok(MemLink::new(alloc, arrivals, Failing::new(alloc)))
}

// How many bytes were taken.
fn length_of(answer: &TakenFrom) -> Option<usize> {
    match answer {
        TakenFrom::From(_, bytes) => Some(bytes.len()),
        TakenFrom::Nothing => None,
    }
}

#[test]
fn a_link_cuts_what_arrives(rt: HostRuntime) -> Result<(), Fail> {
    let mut link = link(rt.alloc(), 2049)?;
    assert_eq!(rt; length_of(&link.take()?), Some(2048));
    assert_eq!(rt; length_of(&link.take()?), None);
    Ok(())
}

// Gives or takes one byte a call, and fails once no calls are left.
#[derive(Drop)]
struct Slowly<'a> {
    calls: u64,
    left: &'a [u8],
}

impl Slowly<'_> {
    fn call(&mut self) -> io::Result<()> {
        if self.calls == 0 {
            return Err(io::Error::from(ErrorKind::TimedOut));
        }
        self.calls -= 1;
        Ok(())
    }
}

impl Read for Slowly<'_> {
    fn read(&mut self, buf: &mut [u8]) -> io::Result<usize> {
        self.call()?;
        match (self.left.split_first(), buf.first_mut()) {
            (Some((byte, left)), Some(place)) => {
                *place = *byte;
                self.left = left;
                Ok(1)
            }
            _ => Ok(0),
        }
    }
}

impl Write for Slowly<'_> {
    fn write(&mut self, buf: &[u8]) -> io::Result<usize> {
        self.call()?;
        Ok(buf.len().min(1))
    }

    fn flush(&mut self) -> io::Result<()> {
        Ok(())
    }
}

#[test]
fn contents_come_a_byte_at_a_time(rt: HostRuntime) -> Result<(), Fail> {
    for calls in 0..5 {
        let left = b"abc".as_slice();
        match read_contents(rt.alloc(), Slowly { calls, left }) {
            Ok(contents) => assert!(rt; calls == 4 && contents.as_slice() == left),
            Err(fault) => assert!(rt; calls < 4 && matches!(fault, ShelfFault::Failed)),
        }
    }
    Ok(())
}

#[test]
fn a_piece_goes_a_byte_at_a_time(rt: HostRuntime) -> Result<(), Fail> {
    let mut writer = Slowly {
        calls: 2,
        left: b"",
    };
    assert_eq!(rt; write_piece(&mut writer, b"abc")?, 1);
    assert_eq!(rt; write_piece(&mut writer, b"")?, 0);
    assert_eq!(rt; write_piece(&mut writer, b"bc")?, 1);
    assert!(rt; matches!(write_piece(&mut writer, b"c"), Err(SinkFault::Failed)));
    Ok(())
}

// A port at which nobody listens.
fn free_port<R: Net>(net: &R) -> io::Result<u16> {
    let socket = UdpSocket::bind(net, (Ipv4Addr::LOCALHOST, 0))?;
    Ok(socket.local_addr()?.port())
}

// Whether nothing is answered though datagrams come all the time, which a link sends itself.
fn time_passes<L: Link>(link: &mut L, port: u16) -> Result<bool, Fail> {
    link.bind(port)?;
    for _ in 0..1_000_000 {
        link.give(port, b"more")?;
        if length_of(&link.take()?).is_none() {
            return Ok(true);
        }
    }
    Ok(false)
}

#[test]
fn time_passes_under_load(rt: HostRuntime) -> Result<(), Fail> {
    let port = free_port(&rt)?;
    let mut link = UdpLink::new(rt.alloc(), &rt);
    assert!(rt; time_passes(&mut link, port)?);
    Ok(())
}
