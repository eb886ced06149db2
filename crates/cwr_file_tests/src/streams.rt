//! Bytes in and out, each cut and each failure, and the lines of small texts.

ghost use Rattle.std.specs.Prelude.{◌≡◌, ◌<◌, false};

use cwr_file::{Failed, Feed, Lines, Memory, Room, Sink, Source, Through, WriteStopped, write_out};
use std::alloc::Global;
use std::test::Fail;
use std::{io, str};
use test_comparisons::{same, same_bytes, same_lists, same_text};

/// What a source gives in reads of four bytes, up to its end or its failure, and the number of reads that answered.
fn drained<R: Source>(alloc: Global, source: &mut R) -> Result<(Vec<u8>, u64), Fail> {
    let mut bytes = Vec::new(alloc);
    let mut room = [b'?'; 4];
    for reads in 0..1000 {
        if source.failed() {
            return Ok((bytes, reads));
        }
        match source.read_some(&mut room) {
            Ok(0) => return Ok((bytes, reads + 1)),
            Ok(n) => bytes.extend_from_slice(&room[..n])?,
            Err(Failed) => return Ok((bytes, reads)),
        }
    }
    Ok((bytes, 1000))
}

/// The bytes 0, 1, .., 149.
fn long_text() -> [u8; 150] {
    let mut text = [0; 150];
    for (i, byte) in text.iter_mut().enumerate() {
        *byte = (i % 150) as u8;
    }
    text
}

/// What a source gives up to its end or its failure. `alloc` allocates, and `source` is read. `bytes` is what it must
/// give, and `reads` the number of reads that must answer. `failed` says whether it must have failed then.
fn expect_drained<R: Source>(
    alloc: Global,
    source: &mut R,
    bytes: &[u8],
    reads: u64,
    failed: bool,
) -> Result<(), Fail> {
    let (given, answered) = drained(alloc, source)?;
    same_bytes("what was read", &given, bytes)?;
    same("reads", &(answered, source.failed()), &(reads, failed))
}

/// A feed of this text gives all of it, at most `chunk` bytes in a read.
fn expect_fed(alloc: Global, text: &[u8], chunk: usize, reads: u64) -> Result<(), Fail>
    requires { 0 < chunk }
{
    expect_drained(alloc, &mut Feed::new(text, chunk, None), text, reads, false)
}

const TEXT: &[u8] = b"HDRPB 1234";

#[test]
fn feeds_in_chunks(rt: HostRuntime) -> Result<(), Fail> {
    let alloc = rt.alloc();
    expect_fed(alloc, TEXT, 1, 11)?;
    expect_fed(alloc, TEXT, 3, 5)?;
    expect_fed(alloc, TEXT, 4, 4)?;
    expect_fed(alloc, TEXT, 100, 4)?;
    expect_fed(alloc, b"", 1, 1)
}

#[test]
fn feeds_up_to_the_read_that_fails(rt: HostRuntime) -> Result<(), Fail> {
    for before in 0..=10 {
        let front = TEXT.get(..before).ok_or("a front")?;
        let reads = before as u64;
        let mut feed = Feed::new(TEXT, 1, Some(reads + 1));
        expect_drained(rt.alloc(), &mut feed, front, reads, true)?;
    }
    Ok(())
}

/// Its twelfth read is never made, and there is no read 0.
#[test]
fn feeds_past_a_read_that_is_not_made(rt: HostRuntime) -> Result<(), Fail> {
    let alloc = rt.alloc();
    expect_drained(alloc, &mut Feed::new(TEXT, 1, Some(12)), TEXT, 11, false)?;
    expect_drained(alloc, &mut Feed::new(TEXT, 1, Some(0)), TEXT, 11, false)
}

#[test]
fn a_failed_read_moves_nothing() -> Result<(), Fail> {
    let mut feed = Feed::new(b"HDR", 2, Some(2));
    expect_one_read(&mut feed)
}

/// A feed gives two bytes in its first read, and fails at the second.
fn expect_one_read(feed: &mut Feed) -> Result<(), Fail>
    requires { feed.old.has_failed ≡ false }
{
    let mut room = *b"????";
    same("a read", &feed.read_some(&mut room), &Ok(2))?;
    same("the room", &room, b"HD??")?;
    same("it has failed", &feed.failed(), &false)?;
    same("the next read", &feed.read_some(&mut room), &Err(Failed))?;
    same("the room after it", &room, b"HD??")?;
    same("it has failed then", &feed.failed(), &true)
}

#[test]
fn reads_into_no_room() -> Result<(), Fail> {
    let mut room = *b"????";
    let mut feed = Feed::new(b"HDR", 2, None);
    same("no room", &feed.read_some(&mut []), &Ok(0))?;
    same("room", &feed.read_some(&mut room), &Ok(2))
}

/// A room of this size takes the front of a text, and has failed then.
fn expect_stopped(alloc: Global, size: usize, fails: bool) -> Result<(), Fail> {
    let text = long_text();
    let front = text.get(..size).ok_or("a front")?;
    let mut room = Room::new(alloc, size, fails)?;
    let result = write_out(&mut room, &text);
    let stopped = WriteStopped { sent: size as u64 };
    same("a write", &result, &Err(stopped))?;
    expect_room(&room, front, true)
}

/// A room of this size takes all of a text.
fn expect_written(alloc: Global, size: usize, fails: bool) -> Result<(), Fail> {
    let text = long_text();
    let mut room = Room::new(alloc, size, fails)?;
    same("a write", &write_out(&mut room, &text), &Ok(()))?;
    expect_room(&room, &text, false)
}

/// What a room has taken, and whether it has failed.
fn expect_room(room: &Room, bytes: &[u8], failed: bool) -> Result<(), Fail> {
    same_bytes("what was written", room.bytes(), bytes)?;
    same("it has failed", &room.failed(), &failed)
}

#[test]
fn writes_up_to_the_room(rt: HostRuntime) -> Result<(), Fail> {
    for fails in [true, false] {
        for size in [0, 1, 100, 149] {
            expect_stopped(rt.alloc(), size, fails)?;
        }
        for size in [150, 151] {
            expect_written(rt.alloc(), size, fails)?;
        }
    }
    Ok(())
}

#[test]
fn writes_one_text_after_another(rt: HostRuntime) -> Result<(), Fail> {
    let mut room = Room::new(rt.alloc(), 6, true)?;
    expect_two_texts(&mut room)
}

/// A room of six bytes takes two texts of three, and no third.
fn expect_two_texts(room: &mut Room) -> Result<(), Fail>
    requires { room.old.has_failed ≡ false }
{
    write_out(room, b"")?;
    write_out(room, b"HDR")?;
    write_out(room, b"GRH")?;
    // No bytes go into a full room too.
    write_out(room, b"")?;
    same_bytes("what was written", room.bytes(), b"HDRGRH")?;
    let result = write_out(room, b"NWR");
    same("a write", &result, &Err(WriteStopped { sent: 0 }))?;
    same_bytes("what is there then", room.bytes(), b"HDRGRH")
}

/// A room of two bytes, which are in it, answers one more byte like this, and has failed then.
fn expect_full(alloc: Global, fails: bool, wanted: Result<usize, Failed>) -> Result<(), Fail> {
    let mut room = Room::new(alloc, 2, fails)?;
    expect_one_byte_more(&mut room, wanted)
}

fn expect_one_byte_more(room: &mut Room, wanted: Result<usize, Failed>) -> Result<(), Fail>
    requires { room.old.has_failed ≡ false }
{
    same("a write", &room.write_some(b"HDR"), &Ok(2))?;
    same("it has failed", &room.failed(), &false)?;
    same("the next write", &room.write_some(b"R"), &wanted)?;
    same("it has failed then", &room.failed(), &true)?;
    same_bytes("what was written", room.bytes(), b"HD")
}

#[test]
fn a_full_room_fails_or_takes_nothing(rt: HostRuntime) -> Result<(), Fail> {
    expect_full(rt.alloc(), true, Err(Failed))?;
    expect_full(rt.alloc(), false, Ok(0))
}

#[test]
fn memory_is_refused_as_memory(rt: HostRuntime) -> Result<(), Fail> {
    let refused = Room::new(rt.alloc(), usize::MAX, true).map(|room| room.failed());
    same("a room", &refused, &Err(Memory))
}

/// A reader and a writer of std that gives an error each time.
#[derive(Drop)]
struct Broken;

impl io::Read for Broken {
    fn read(&mut self, _buf: &mut [u8]) -> io::Result<usize> {
        Err(io::Error::from(io::ErrorKind::BrokenPipe))
    }
}

impl io::Write for Broken {
    fn write(&mut self, _buf: &[u8]) -> io::Result<usize> {
        Err(io::Error::from(io::ErrorKind::BrokenPipe))
    }

    fn flush(&mut self) -> io::Result<()> {
        Ok(())
    }
}

#[test]
fn reads_through_a_reader(rt: HostRuntime) -> Result<(), Fail> {
    let mut source = Through::new(TEXT);
    expect_drained(rt.alloc(), &mut source, TEXT, 4, false)?;
    same_bytes("what is left", source.into_inner(), b"")
}

#[test]
fn fails_through_a_reader() -> Result<(), Fail> {
    let mut source = Through::new(Broken);
    let mut room = *b"????";
    same("a read", &source.read_some(&mut room), &Err(Failed))?;
    same("it has failed", &Source::failed(&source), &true)
}

#[test]
fn writes_through_a_writer(rt: HostRuntime) -> Result<(), Fail> {
    let text = long_text();
    let mut sink = Through::new(Vec::new(rt.alloc()));
    let result = write_out(&mut sink, &text);
    same("a write", &(result, sink.failed()), &(Ok(()), false))?;
    same_bytes("what was written", &sink.into_inner(), &text)
}

/// A slice takes no byte past its end, and that is a failure.
#[test]
fn fails_through_a_full_writer() -> Result<(), Fail> {
    let mut first = [b'?'; 100];
    let mut sink = Through::new(first.as_mut_slice());
    let result = write_out(&mut sink, &long_text());
    let stopped = Err(WriteStopped { sent: 100 });
    same("a write", &(result, sink.failed()), &(stopped, true))
}

#[test]
fn fails_through_a_broken_writer() -> Result<(), Fail> {
    let mut sink = Through::new(Broken);
    let result = write_out(&mut sink, &long_text());
    let stopped = Err(WriteStopped { sent: 0 });
    same("a write", &(result, Sink::failed(&sink)), &(stopped, true))
}

/// A text has these lines.
fn expect_lines(alloc: Global, text: &str, wanted: &[&str]) -> Result<(), Fail> {
    let mut lines = Vec::new(alloc);
    for line in Lines::of(text.as_bytes()) {
        lines.push(str::from_utf8(line).ok().ok_or("no text")?)?;
    }
    same_lists(text, &lines, wanted)
}

#[test]
fn cuts_lines(rt: HostRuntime) -> Result<(), Fail> {
    let alloc = rt.alloc();
    expect_lines(alloc, "", &[])?;
    expect_lines(alloc, "a", &["a"])?;
    expect_lines(alloc, "a\n", &["a"])?;
    expect_lines(alloc, "a\r\nb", &["a", "b"])?;
    expect_lines(alloc, "\r\n", &[""])?;
    expect_lines(alloc, "\n\n", &["", ""])?;
    expect_lines(alloc, "HDR\r\nGRH\nTRL\r\n", &["HDR", "GRH", "TRL"])
}

/// CR is a byte like others unless LF follows it.
#[test]
fn cuts_no_lines_at_cr(rt: HostRuntime) -> Result<(), Fail> {
    let alloc = rt.alloc();
    expect_lines(alloc, "a\r", &["a\r"])?;
    expect_lines(alloc, "\r", &["\r"])?;
    expect_lines(alloc, "\r\r\n", &["\r"])?;
    expect_lines(alloc, "a\rb\n\r", &["a\rb", "\r"])
}

#[test]
fn lines_end_for_good() -> Result<(), Fail> {
    let mut lines = Lines::of(b"a\nb");
    same_bytes("the first", lines.next().ok_or("a line")?, b"a")?;
    same("the rest", &lines.by_ref().count(), &1)?;
    same("a third", &lines.next().is_some(), &false)?;
    same("a fourth", &lines.next().is_some(), &false)
}

/// Takes only what may go to another thread, as a job's reader and writer do.
fn sent<T: Send + Drop>(value: T) -> T {
    value
}

#[test]
fn sources_and_sinks_are_send(rt: HostRuntime) -> Result<(), Fail> {
    let room = sent(Room::new(rt.alloc(), 1, true)?);
    same("a room has failed", &room.failed(), &false)?;
    let feed = sent(Feed::new(b"HDR", 1, None));
    same("a feed has failed", &feed.failed(), &false)?;
    same("what it reads", &sent(Through::new(7)).into_inner(), &7)
}

#[test]
fn failures_have_texts(rt: HostRuntime) -> Result<(), Fail> {
    let told = format!(in rt.alloc(); "{Failed}")?;
    same_text("a failure", &told, "failed")?;
    let stopped = WriteStopped { sent: 424 };
    let told = format!(in rt.alloc(); "{stopped}")?;
    same_text("a stopped write", &told, "write after 424 bytes")
}
