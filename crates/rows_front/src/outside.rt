//! Folders and sinks, with their faults. The files of the system and a writer that fails are tried for real.

use std::alloc::Global;
use std::io;
use std::io::{ErrorKind, Write};
use std::process::Abort;
use std::test::Fail;
use t_ports::memory::{MemFolder, MemSink};
use t_ports::one::OneFolder;
use t_ports::pieces::put_all;
use t_ports::ports::{Failed, FetchFault, Folder, KeepFault, NullSink, Sink};
use t_ports::real::{DiskFolder, StdSink};

#[test]
fn one_folder_has_its_bytes_under_each_name(rt: HostRuntime) -> Result<(), Fail> {
    let alloc = rt.alloc();
    let mut folder = OneFolder::new(alloc, b"(+ 1 2)".to_vec(alloc)?);
    for name in ["a.t", "", "b/c"] {
        assert_eq!(rt; folder.keep(alloc, name, b"dropped"), Ok(()));
        let bytes = folder.fetch(alloc, name, 7);
        assert_eq!(rt; bytes.as_deref(), Ok(b"(+ 1 2)".as_slice()));
        let fault = folder.fetch(alloc, name, 6);
        assert_eq!(rt; fault.as_deref(), Err(&FetchFault::Long { read: 7 }));
    }
    Ok(())
}

#[test]
fn null_sink_takes_each_piece(rt: HostRuntime) {
    let mut sink = NullSink;
    assert_eq!(rt; sink.put(b""), Ok(()));
    assert_eq!(rt; sink.put(b"abc"), Ok(()));
}

/// What the folder gives under the name at most.
fn fetched(alloc: Global, folder: &mut MemFolder, name: &str) -> Result<Vec<u8>, FetchFault> {
    folder.fetch(alloc, name, 3)
}

#[test]
fn bytes_are_replaced(rt: HostRuntime) -> Result<(), Fail> {
    let alloc = rt.alloc();
    let mut folder = MemFolder::new(alloc, Vec::new(alloc));
    folder.add("a", b"one")?;
    folder.add("b", b"two")?;
    folder.add("a", b"six")?;
    assert_eq!(rt;
        fetched(alloc, &mut folder, "a").as_deref(),
        Ok(b"six".as_slice())
    );
    assert_eq!(rt; folder.keep(alloc, "b", b"four"), Ok(()));
    let long = Err(&FetchFault::Long { read: 4 });
    assert_eq!(rt; fetched(alloc, &mut folder, "b").as_deref(), long);
    let fault = Err(&FetchFault::Failed);
    assert_eq!(rt; fetched(alloc, &mut folder, "c").as_deref(), fault);
    Ok(())
}

#[test]
fn listed_calls_of_a_folder_fail(rt: HostRuntime) -> Result<(), Fail> {
    let alloc = rt.alloc();
    let mut folder = MemFolder::new(alloc, [2u32, 3].to_vec(alloc)?);
    folder.add("a", b"one")?;
    let fault = Err(&FetchFault::Failed);
    assert_eq!(rt;
        fetched(alloc, &mut folder, "a").as_deref(),
        Ok(b"one".as_slice())
    );
    assert_eq!(rt; folder.keep(alloc, "a", b"two"), Err(KeepFault::Failed));
    assert_eq!(rt; fetched(alloc, &mut folder, "a").as_deref(), fault);
    folder.add("b", b"")?;
    assert_eq!(rt;
        fetched(alloc, &mut folder, "a").as_deref(),
        Ok(b"one".as_slice())
    );
    Ok(())
}

/// The number of a call that fails with the bytes that it takes, and how a sink with room 5 takes four pieces.
type Puts = ((u32, u32), [Result<(), Failed>; 4], &'static [u8]);

/// The pieces are of 2, 0, 2 and 2 bytes.
static PIECES: [&[u8]; 4] = [b"ab", b"", b"cd", b"ef"];

static PUTS: [Puts; 5] = [
    (
        (9, 0),
        [Ok(()), Ok(()), Ok(()), Err(Failed { taken: 1 })],
        b"abcde",
    ),
    (
        (1, 0),
        [Err(Failed { taken: 0 }), Ok(()), Ok(()), Ok(())],
        b"cdef",
    ),
    (
        (2, 9),
        [
            Ok(()),
            Err(Failed { taken: 0 }),
            Ok(()),
            Err(Failed { taken: 1 }),
        ],
        b"abcde",
    ),
    (
        (3, 1),
        [Ok(()), Ok(()), Err(Failed { taken: 1 }), Ok(())],
        b"abcef",
    ),
    (
        (4, 2),
        [Ok(()), Ok(()), Ok(()), Err(Failed { taken: 1 })],
        b"abcde",
    ),
];

#[test]
fn listed_calls_of_a_sink_fail(rt: HostRuntime) -> Result<(), Fail> {
    let alloc = rt.alloc();
    for (entry, answers, held) in &PUTS {
        let mut sink = MemSink::new(alloc, 5, [*entry].to_vec(alloc)?)?;
        for (piece, answer) in PIECES.iter().zip(answers) {
            assert_eq!(rt; sink.put(piece), *answer);
        }
        assert_eq!(rt; sink.bytes(), *held);
    }
    Ok(())
}

#[test]
fn pieces_are_counted_together(rt: HostRuntime) -> Result<(), Fail> {
    let alloc = rt.alloc();
    for (room, answer, held) in [
        (6, Ok(()), b"abcdef".as_slice()),
        (5, Err(Failed { taken: 5 }), b"abcde".as_slice()),
        (1, Err(Failed { taken: 1 }), b"a".as_slice()),
    ] {
        let mut sink = MemSink::new(alloc, room, Vec::new(alloc))?;
        assert_eq!(rt; put_all(&mut sink, &PIECES), answer);
        assert_eq!(rt; sink.bytes(), held);
    }
    Ok(())
}

/// A file of the folder where the test runs.
const FILE: &str = "rows_front.bytes";

#[test]
fn files_of_the_system(rt: HostRuntime) -> Result<(), Fail> {
    let alloc = rt.alloc();
    let bytes = vec![in alloc; b'x'; 10_000]?;
    let mut folder = DiskFolder::new(&rt);
    let fault = Err(&FetchFault::Failed);
    assert_eq!(rt; folder.keep(alloc, FILE, &bytes), Ok(()));
    assert_eq!(rt;
        folder.fetch(alloc, FILE, 10_000).as_deref(),
        Ok(bytes.as_slice())
    );
    assert!(rt;
        matches!(folder.fetch(alloc, FILE, 9_999), Err(FetchFault::Long { read }) if 9_999 < read)
    );
    assert_eq!(rt; folder.keep(alloc, FILE, b""), Ok(()));
    assert_eq!(rt; folder.fetch(alloc, FILE, 0).as_deref(), Ok(b"".as_slice()));
    std::fs::remove_file(&rt, FILE)?;
    assert_eq!(rt; folder.fetch(alloc, FILE, 0).as_deref(), fault);
    assert_eq!(rt;
        folder.keep(alloc, "no/folder", b"x"),
        Err(KeepFault::Failed)
    );
    Ok(())
}

#[test]
fn a_folder_is_no_file(rt: HostRuntime) {
    let alloc = rt.alloc();
    let mut folder = DiskFolder::new(&rt);
    let fetched = folder.fetch(alloc, ".", 10);
    assert_eq!(rt; fetched.as_deref(), Err(&FetchFault::Failed));
    assert_eq!(rt; folder.keep(alloc, ".", b"x"), Err(KeepFault::Failed));
}

/// Whether the folder has these bytes under the name, nine at most.
fn holds<F: Folder>(alloc: Global, folder: &mut F, name: &str, bytes: &[u8]) -> bool {
    match folder.fetch(alloc, name, 9) {
        Ok(fetched) => fetched.as_slice() == bytes,
        Err(_) => false,
    }
}

#[test]
fn names_are_different_files(rt: HostRuntime) -> Result<(), Fail> {
    let alloc = rt.alloc();
    let mut folder = DiskFolder::new(&rt);
    assert_eq!(rt; folder.keep(alloc, "one", b"1"), Ok(()));
    assert_eq!(rt; folder.keep(alloc, "two", b"22"), Ok(()));
    assert!(rt; holds(alloc, &mut folder, "one", b"1"));
    assert!(rt; holds(alloc, &mut folder, "two", b"22"));
    std::fs::remove_file(&rt, "one")?;
    std::fs::remove_file(&rt, "two")?;
    Ok(())
}

// A device that opens and takes nothing, and a file that nobody may write.
#[test]
fn what_takes_nothing_is_not_written(rt: HostRuntime) {
    let alloc = rt.alloc();
    let mut folder = DiskFolder::new(&rt);
    assert_eq!(rt;
        folder.keep(alloc, "/dev/full", b"x"),
        Err(KeepFault::Failed)
    );
    assert_eq!(rt;
        folder.keep(alloc, "/proc/version", b"x"),
        Err(KeepFault::Failed)
    );
}

/// How a write ends that has no room.
#[derive(Clone, Copy)]
enum Full {
    TakesNone,
    Fails,
}

/// A writer that takes two bytes at a time.
#[derive(Drop)]
struct Slow<'a> {
    taken: &'a mut Vec<u8>,
    room: usize,
    full: Full,
}

impl Write for Slow<'_> {
    fn write(&mut self, buf: &[u8]) -> io::Result<usize> {
        let count = self.room.min(2).min(buf.len());
        if count == 0 && matches!(self.full, Full::Fails) {
            return Err(io::Error::from(ErrorKind::Other));
        }
        self.taken.extend_from_slice(&buf[..count])?;
        self.room -= count;
        Ok(count)
    }

    fn flush(&mut self) -> io::Result<()> {
        Ok(())
    }
}

fn check_slow(
    rt: &impl Abort,
    alloc: Global,
    room: usize,
    full: Full,
    answer: Result<(), Failed>,
) -> Result<(), Fail> {
    let mut taken = Vec::new(alloc);
    let mut sink = StdSink::new(Slow {
        taken: &mut taken,
        room,
        full,
    });
    assert_eq!(rt; sink.put(b"abcde"), answer);
    assert_eq!(rt; sink.put(b""), Ok(()));
    let count = answer.map_or_else(|failed| failed.taken, |_| 5);
    assert_eq!(rt; Some(taken.as_slice()), b"abcde".get(..count));
    Ok(())
}

#[test]
fn a_stream_of_the_system(rt: HostRuntime) -> Result<(), Fail> {
    let alloc = rt.alloc();
    check_slow(&rt, alloc, 5, Full::Fails, Ok(()))?;
    check_slow(&rt, alloc, 3, Full::Fails, Err(Failed { taken: 3 }))?;
    check_slow(&rt, alloc, 4, Full::TakesNone, Err(Failed { taken: 4 }))?;
    check_slow(&rt, alloc, 0, Full::TakesNone, Err(Failed { taken: 0 }))?;
    assert_eq!(rt; StdSink::new(rt.stdout()).put(b""), Ok(()));
    Ok(())
}
