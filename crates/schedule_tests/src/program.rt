//! Tries the program over memory and over std's readers and writers.

use phase_run::{
    Failed, MemSink, MemSource, Sink, Source, Status, StdSink, StdSource, run_program,
};
use std::alloc::{AllocError, Global};
use std::io;
use std::io::{Read, Write};
use std::process::Abort;
use std::test::Fail;

/// A schedule of one party and one cell.
const INPUT: &[u8] =
    b"schedule 1\nparties 1\ncell LockedLazy spin\nsteps\n0 read 0\n0 made 22\n0 look 1\n0 release 1\n0 write 0\n0 set 4 33\n0 release 4\n0 read 0\n0 look 7\nend\n";

/// Its transcript.
const OUTPUT: &[u8] =
    b"transcript 1\n0 running\n1 read-guard\n2 value 22\n3 done\n4 write-guard\n5 done\n6 done\n7 read-guard\n8 value 33\ncell 0 Phase (Initialized) 33\nend\n";

/// A schedule whose phase is published when the write guard is given back, and not before.
const PUBLISHED_AT_RELEASE: &[u8] =
    b"schedule 1\nparties 2\ncell LockedLazy spin\nsteps\n0 write 0\n0 made 7\n1 phase 0\n0 look 1\n0 release 1\n1 phase 0\nend\n";

/// Its transcript.
const PUBLISHED_AT_RELEASE_OUTPUT: &[u8] =
    b"transcript 1\n0 running\n1 write-guard\n2 phase Phase (not initialized)\n3 value 7\n4 done\n5 phase Phase (Initialized)\ncell 0 Phase (Initialized) 7\nend\n";

/// A schedule whose cell has its turn in the exit while its generator runs, so that it is never finalized.
const SKIPPED: &[u8] =
    b"schedule 1\nparties 2\ncell LockedLazyFinalize park\nsteps\n0 read 0\n1 exit\n1 exit\n0 made 4\n0 release 3\n1 exit\n1 phase 0\n1 exit\nend\n";

/// Its transcript.
const SKIPPED_OUTPUT: &[u8] =
    b"transcript 1\n0 running\n1 round 1\n2 skipped 0\n3 read-guard\n4 done\n5 closed\n6 phase Phase (Initialized | Registered)\n7 refused 10 ExitBegun\ncell 0 Phase (Initialized | Registered) 4\nexit 0 skipped\nend\n";

/// Gives three bytes at a time, and fails once there were so many calls.
#[derive(Drop)]
struct Trickle<'a> {
    rest: &'a [u8],
    calls_left: usize,
}

impl Read for Trickle<'_> {
    fn read(&mut self, buf: &mut [u8]) -> io::Result<usize> {
        if self.calls_left == 0 {
            return Err(io::Error::from(io::ErrorKind::Other));
        }
        self.calls_left -= 1;
        let n = buf.len().min(self.rest.len()).min(3);
        let (now, later) = self.rest.split_at(n);
        buf[..n].copy_from_slice(now);
        self.rest = later;
        Ok(n)
    }
}

/// Takes seven bytes at a time, and fails once there were so many calls.
#[derive(Drop)]
struct Drip {
    taken: Vec<u8>,
    calls_left: usize,
}

impl Write for Drip {
    fn write(&mut self, buf: &[u8]) -> io::Result<usize> {
        if self.calls_left == 0 {
            return Err(io::Error::from(io::ErrorKind::Other));
        }
        self.calls_left -= 1;
        let n = buf.len().min(7);
        self.taken.extend_from_slice(&buf[..n])?;
        Ok(n)
    }

    fn flush(&mut self) -> io::Result<()> {
        Ok(())
    }
}

/// The words as owned texts.
fn owned(alloc: Global, words: &[&str]) -> Result<Vec<String>, AllocError> {
    let mut all = Vec::new(alloc);
    for word in words {
        all.push(String::from_str(alloc, word)?)?;
    }
    Ok(all)
}

/// Runs a text without words, into a sink with enough room.
fn run_text(alloc: Global, text: &[u8], fails: Vec<u64>) -> Result<(Status, MemSink), AllocError> {
    let mut source = MemSource::new(text.to_vec(alloc)?, fails);
    let mut sink = MemSink::new(alloc, 4096, Vec::new(alloc))?;
    let status = run_program(alloc, &[], &mut source, &mut sink);
    Ok((status, sink))
}

/// Asserts that a text is answered so, and that this much was written.
fn expect_text(
    rt: &(impl Abort + AllocGlobal),
    text: &[u8],
    want: Status,
    written: &[u8],
) -> Result<(), AllocError> {
    let alloc = rt.alloc();
    let (status, sink) = run_text(alloc, text, Vec::new(alloc))?;
    assert_eq!(rt; status, want);
    assert_eq!(rt; sink.given(), written);
    Ok(())
}

#[test]
fn writes_transcripts(rt: HostRuntime) -> Result<(), Fail> {
    let nothing: &[u8] = b"schedule 1\nparties 0\nsteps\nend\n";
    let worked: [(&[u8], &[u8]); 4] = [
        (nothing, b"transcript 1\nend\n"),
        (INPUT, OUTPUT),
        (PUBLISHED_AT_RELEASE, PUBLISHED_AT_RELEASE_OUTPUT),
        (SKIPPED, SKIPPED_OUTPUT),
    ];
    for (text, transcript) in worked {
        expect_text(&rt, text, Status::Done, transcript)?;
    }
    let words = owned(rt.alloc(), &["schedule"])?;
    let mut written = Vec::new(rt.alloc());
    let status = run_program(
        rt.alloc(),
        &words,
        &mut StdSource::new(INPUT),
        &mut StdSink::new(&mut written),
    );
    assert_eq!(rt; status, Status::Done);
    assert_eq!(rt; written.as_slice(), OUTPUT);
    Ok(())
}

/// Runs the first text in small pieces, with so many calls before a read or a write fails.
fn run_in_pieces(alloc: Global, reads: usize, writes: usize) -> (Status, Vec<u8>) {
    let mut reader = Trickle {
        rest: INPUT,
        calls_left: reads,
    };
    let mut writer = Drip {
        taken: Vec::new(alloc),
        calls_left: writes,
    };
    let status = run_program(
        alloc,
        &[],
        &mut StdSource::new(&mut reader),
        &mut StdSink::new(&mut writer),
    );
    (status, writer.taken)
}

#[test]
fn works_in_pieces(rt: HostRuntime) {
    let (status, taken) = run_in_pieces(rt.alloc(), 100, 100);
    assert_eq!(rt; status, Status::Done);
    assert_eq!(rt; taken.as_slice(), OUTPUT);
    for reads in 0..INPUT.len() / 3 {
        let (status, taken) = run_in_pieces(rt.alloc(), reads, 100);
        assert_eq!(rt; status, Status::ReadFault, "after {reads}");
        assert!(rt; taken.is_empty(), "after {reads}");
    }
    for writes in 0..OUTPUT.len() / 7 {
        let (status, taken) = run_in_pieces(rt.alloc(), 100, writes);
        assert_eq!(rt; status, Status::WriteFault, "after {writes}");
        assert_eq!(rt; taken.len(), 7 * writes, "after {writes}");
        assert!(rt; OUTPUT.starts_with(&taken), "after {writes}");
    }
}

#[test]
fn refuses_bad_texts(rt: HostRuntime) -> Result<(), Fail> {
    for end in 0..INPUT.len() {
        expect_text(&rt, &INPUT[..end], Status::BadLine, b"")?;
    }
    let bad: [&[u8]; 3] = [
        b"schedule 1\nparties 1048576\nsteps\nend\n",
        b"schedule 1\nparties 1\ncell LockedLazy spin\nsteps\n1 read 0\nend\n",
        b"schedule 1\nparties 1\ncell LockedLazy spin\nsteps\n0 read 1\nend\n",
    ];
    for text in bad {
        expect_text(&rt, text, Status::BadLine, b"")?;
    }
    Ok(())
}

#[test]
fn tells_of_faults(rt: HostRuntime) -> Result<(), Fail> {
    let alloc = rt.alloc();
    for call in 0..2 {
        let (status, sink) = run_text(alloc, INPUT, vec![in alloc; call]?)?;
        assert_eq!(rt; status, Status::ReadFault, "at {call}");
        assert!(rt; sink.given().is_empty(), "at {call}");
    }
    for room in 0..OUTPUT.len() {
        let mut source = MemSource::new(INPUT.to_vec(alloc)?, Vec::new(alloc));
        let mut sink = MemSink::new(alloc, room, Vec::new(alloc))?;
        let status = run_program(alloc, &[], &mut source, &mut sink);
        assert_eq!(rt; status, Status::WriteFault, "with {room}");
        assert_eq!(rt; sink.given(), &OUTPUT[..room], "with {room}");
    }
    let mut source = MemSource::new(INPUT.to_vec(alloc)?, Vec::new(alloc));
    let mut sink = MemSink::new(alloc, 4096, vec![in alloc; 0]?)?;
    let status = run_program(alloc, &[], &mut source, &mut sink);
    assert_eq!(rt; status, Status::WriteFault);
    assert!(rt; sink.given().is_empty());
    Ok(())
}

#[test]
fn refuses_other_words(rt: HostRuntime) -> Result<(), Fail> {
    let alloc = rt.alloc();
    let calls: [&[&str]; 5] = [
        &["schedul"],
        &["schedule", "x"],
        &["schedule", "--words"],
        &["gen"],
        &[""],
    ];
    for call in calls {
        let words = owned(alloc, call)?;
        let mut source = MemSource::new(INPUT.to_vec(alloc)?, Vec::new(alloc));
        let mut sink = MemSink::new(alloc, 4096, Vec::new(alloc))?;
        let status = run_program(alloc, &words, &mut source, &mut sink);
        assert_eq!(rt; status, Status::Usage, "for {call:?}");
        assert!(rt; sink.given().is_empty(), "for {call:?}");
        let mut first = [0u8; 1];
        assert_eq!(rt; source.take(&mut first), Ok(1), "for {call:?}");
        assert_eq!(rt; first[0], b's', "for {call:?}");
    }
    Ok(())
}

#[test]
fn fails_at_listed_calls(rt: HostRuntime) -> Result<(), Fail> {
    let alloc = rt.alloc();
    let mut source = MemSource::new(b"abcd".to_vec(alloc)?, vec![in alloc; 1]?);
    let mut buf = [0u8; 3];
    for want in [Ok(3), Err(Failed), Ok(1), Ok(0)] {
        assert_eq!(rt; source.take(&mut buf), want);
    }
    assert_eq!(rt; buf.as_slice(), b"dbc".as_slice());
    let mut sink = MemSink::new(alloc, 3, vec![in alloc; 1]?)?;
    for want in [Ok(2), Err(Failed), Ok(1), Err(Failed)] {
        assert_eq!(rt; sink.give(b"xy"), want);
    }
    assert_eq!(rt; sink.given(), b"xyx".as_slice());
    Ok(())
}

#[test]
fn ends_with_numbers(rt: HostRuntime) {
    for (status, code) in [
        (Status::Done, 0),
        (Status::Usage, 1),
        (Status::BadLine, 2),
        (Status::ReadFault, 5),
        (Status::WriteFault, 6),
        (Status::Memory, 7),
    ] {
        assert_eq!(rt; status.code(), code, "for {status:?}");
    }
}

/// How many steps fill some pages.
const MANY: usize = 5_000;

/// A schedule of one party that looks at a phase many times.
fn long_schedule(alloc: Global) -> Result<Vec<u8>, AllocError> {
    let mut text = b"schedule 1\nparties 1\ncell LockedLazy spin\nsteps\n".to_vec(alloc)?;
    for _ in 0..MANY {
        text.extend_from_slice(b"0 phase 0\n")?;
    }
    text.extend_from_slice(b"end\n")?;
    Ok(text)
}

/// Its transcript.
fn long_transcript(alloc: Global) -> Result<Vec<u8>, AllocError> {
    let mut text = b"transcript 1\n".to_vec(alloc)?;
    for step in 0..MANY {
        let line = format!(in alloc; "{step} phase Phase (not initialized)\n")?;
        text.extend_from_slice(line.as_bytes())?;
    }
    text.extend_from_slice(b"cell 0 Phase (not initialized) none\nend\n")?;
    Ok(text)
}

/// Runs the long schedule into a sink with so much room, whose listed calls fail.
fn run_long(alloc: Global, room: usize, fails: Vec<u64>) -> Result<(Status, MemSink), AllocError> {
    let mut source = MemSource::new(long_schedule(alloc)?, Vec::new(alloc));
    let mut sink = MemSink::new(alloc, room, fails)?;
    let status = run_program(alloc, &[], &mut source, &mut sink);
    Ok((status, sink))
}

#[test]
fn writes_page_by_page(rt: HostRuntime) -> Result<(), Fail> {
    let alloc = rt.alloc();
    let transcript = long_transcript(alloc)?;
    for room in [0, 1, 65_000, 65_536, 66_000, 131_071] {
        let (status, sink) = run_long(alloc, room, Vec::new(alloc))?;
        assert_eq!(rt; status, Status::WriteFault, "with {room}");
        assert_eq!(rt; sink.given().len(), room, "with {room}");
        assert!(rt; transcript.starts_with(sink.given()), "with {room}");
    }
    let (status, sink) = run_long(alloc, transcript.len(), Vec::new(alloc))?;
    assert_eq!(rt; status, Status::Done);
    assert_eq!(rt; sink.given(), transcript.as_slice());
    Ok(())
}

#[test]
fn stops_at_the_page_that_fails(rt: HostRuntime) -> Result<(), Fail> {
    let alloc = rt.alloc();
    let transcript = long_transcript(alloc)?;
    for call in 0..3 {
        let (status, sink) = run_long(alloc, transcript.len(), vec![in alloc; call]?)?;
        assert_eq!(rt; status, Status::WriteFault, "at {call}");
        assert_eq!(rt; sink.given().is_empty(), call == 0, "at {call}");
        assert!(rt; transcript.starts_with(sink.given()), "at {call}");
    }
    Ok(())
}

/// Is interrupted at every other call.
#[derive(Drop)]
struct Stutter<T> {
    inner: T,
    calls: usize,
}

impl<T> Stutter<T> {
    /// Whether this call is interrupted.
    fn interrupts(&mut self) -> bool {
        self.calls = self.calls.wrapping_add(1);
        self.calls % 2 == 1
    }
}

impl<T: Read> Read for Stutter<T> {
    fn read(&mut self, buf: &mut [u8]) -> io::Result<usize> {
        if self.interrupts() {
            return Err(io::Error::from(io::ErrorKind::Interrupted));
        }
        self.inner.read(buf)
    }
}

impl<T: Write> Write for Stutter<T> {
    fn write(&mut self, buf: &[u8]) -> io::Result<usize> {
        if self.interrupts() {
            return Err(io::Error::from(io::ErrorKind::Interrupted));
        }
        self.inner.write(buf)
    }

    fn flush(&mut self) -> io::Result<()> {
        Ok(())
    }
}

#[test]
fn tries_again_where_interrupted(rt: HostRuntime) {
    let mut reader = Stutter {
        inner: INPUT,
        calls: 0,
    };
    let mut writer = Stutter {
        inner: Vec::new(rt.alloc()),
        calls: 0,
    };
    let status = run_program(
        rt.alloc(),
        &[],
        &mut StdSource::new(&mut reader),
        &mut StdSink::new(&mut writer),
    );
    assert_eq!(rt; status, Status::Done);
    assert_eq!(rt; writer.inner.as_slice(), OUTPUT);
}
