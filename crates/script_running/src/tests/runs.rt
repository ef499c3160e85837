//! Runs over readers and writers that cut and fail.
use super::streams::{Asking, Flushed, Halt, Interrupted, Pieces, Taker};
use crate::{RunFault, Summary, run};
use std::alloc::Global;
use std::io::Read;
use std::process::Abort;
use std::test::Fail;

const WIRE: &[u8] = b"mvfs 1 1 1 1 0 0 0\nmev @1 @1 1 2 5 0 0\nlist\n";

const WIRE_TOLD: &[u8] =
    b"ok\nok\nsolid 1\nface 1 1 1\nloop 1 +1 -1\nedge 1 1 2\nvertex 1 0 0 0\nvertex 2 5 0 0\n";

const FAULTS: &[u8] = b"mevv\nkvfs x\nmvfs 1 1\nkvfs 1 2\n# note\n\n\xc3\n";

const FAULTS_TOLD: &[u8] = b"fault 1\nfault 2\nfault 3\nfault 4\nfault 5\n";

/// A script that cuts a wire in two rings and moves them.
const RINGS: &[u8] =
    b"mvfs 1 1 1 1 0 0 0\nmev @1 @1 1 2 5 0 0\nkemr +1 2\nringmv 2 1 out\nringmv 1 1 in\nlist\nundo\nmfkrh 2 2\nlist\n";

/// Asserts how a run over this reader ends, and what it wrote.
fn ends<R: Read + Drop>(
    rt: &impl Abort,
    alloc: Global,
    reader: R,
    fault: Option<RunFault>,
    wanted: &[u8],
) {
    let mut out = Vec::new(alloc);
    let ended = run(alloc, reader, &mut out, false);
    assert!(rt; ended.err() == fault);
    assert!(rt; out.as_slice() == wanted);
}

/// What a run writes.
fn told(alloc: Global, script: &[u8]) -> Result<Vec<u8>, Fail> {
    let mut out = Vec::new(alloc);
    run(alloc, script, &mut out, false)?;
    Ok(out)
}

/// A reader that asks for the answers to its whole lines before each read gets them.
#[test]
fn answers_before_reads(rt: HostRuntime) {
    let mut out = Vec::new(rt.alloc());
    let lines = Asking {
        bytes: b"kvfs 1\nlist\n",
    };
    let ended = run(rt.alloc(), lines, &mut out, false);
    assert!(rt; ended.is_ok());
    assert!(rt; out.as_slice() == b"refused 2 1\nempty\n".as_slice());
}

/// Asserts what a run counts.
fn counts(rt: &impl Abort, alloc: Global, script: &[u8], stop: bool, wanted: Summary) {
    let mut out = Vec::new(alloc);
    let counted = run(alloc, script, &mut out, stop);
    assert!(rt; counted == Ok(wanted));
}

/// So many lines, replies `refused` and replies `fault`.
fn summary(lines: u64, refused: u64, faults: u64) -> Summary {
    Summary {
        lines,
        refused,
        faults,
        memory: 0,
    }
}

#[test]
fn lines_counted(rt: HostRuntime) {
    counts(&rt, rt.alloc(), WIRE, false, summary(3, 0, 0));
    counts(&rt, rt.alloc(), FAULTS, false, summary(7, 0, 5));
    counts(&rt, rt.alloc(), b"kvfs 1\nlist\n", true, summary(1, 1, 0));
    counts(&rt, rt.alloc(), b"list\n\nlist\n", true, summary(3, 0, 0));
}

/// A reader of so many bytes at a time.
fn pieces(bytes: &[u8], most: usize) -> Pieces<'_> {
    Pieces {
        bytes,
        most,
        left: 1000,
    }
}

#[test]
fn reads_in_pieces(rt: HostRuntime) {
    for most in [1, 2, 3, 7] {
        ends(&rt, rt.alloc(), pieces(WIRE, most), None, WIRE_TOLD);
        ends(&rt, rt.alloc(), pieces(FAULTS, most), None, FAULTS_TOLD);
    }
}

/// A reader of a wire that signals interrupt so many times before each read.
fn interrupted(times: u32) -> Interrupted<'static> {
    Interrupted {
        bytes: WIRE,
        times,
        left: times,
    }
}

/// A read that is interrupted is tried again, but not more than a million times in a row.
#[test]
fn reads_interrupted(rt: HostRuntime) {
    for times in [1, 1_000, 999_999] {
        ends(&rt, rt.alloc(), interrupted(times), None, WIRE_TOLD);
    }
    ends(
        &rt,
        rt.alloc(),
        interrupted(1_000_000),
        Some(RunFault::Read),
        b"",
    );
}

/// The lines of a text whose newlines are there.
fn whole_lines(text: &[u8]) -> &[u8] {
    match text.iter().rposition(|byte| *byte == b'\n') {
        Some(at) => &text[..=at],
        None => &text[..0],
    }
}

/// If a read fails, the replies to the lines before it are written, and no more.
fn read_fails(rt: &impl Abort, alloc: Global, reads: u32) -> Result<(), Fail> {
    let given = RINGS.len().min(7 * reads as usize);
    let wanted = told(alloc, whole_lines(&RINGS[..given]))?;
    let reader = Pieces {
        bytes: RINGS,
        most: 7,
        left: reads,
    };
    ends(rt, alloc, reader, Some(RunFault::Read), wanted.as_slice());
    Ok(())
}

/// The sixteenth read gives the end.
#[test]
fn each_read_fails(rt: HostRuntime) -> Result<(), Fail> {
    for reads in 0..16 {
        read_fails(&rt, rt.alloc(), reads)?;
    }
    Ok(())
}

/// Asserts that a writer that halts after so many writes has a prefix of the text, or all of it if nothing failed.
fn halts(rt: &impl Abort, alloc: Global, whole: &[u8], most: usize, left: u32, halt: Halt) {
    let mut writer = Taker {
        taken: Vec::new(alloc),
        most,
        left,
        halt,
    };
    let fault = run(alloc, RINGS, &mut writer, false).err();
    let taken = writer.taken.as_slice();
    assert!(rt; whole.starts_with(taken));
    if taken.len() < whole.len() {
        assert!(rt; fault == Some(RunFault::Write) && writer.left == 0);
    } else {
        assert!(rt; fault == None);
    }
}

/// The replies have 190 bytes, so the last runs are answered to their end.
#[test]
fn each_write_fails(rt: HostRuntime) -> Result<(), Fail> {
    let whole = told(rt.alloc(), RINGS)?;
    for writes in 0..40 {
        for halt in [Halt::Fails, Halt::TakesNothing] {
            halts(&rt, rt.alloc(), whole.as_slice(), usize::MAX, writes, halt);
            halts(&rt, rt.alloc(), whole.as_slice(), 1, 5 * writes, halt);
        }
    }
    Ok(())
}

/// Asserts how a run ends whose writer fails after so many flushes.
fn flush_fails(rt: &impl Abort, alloc: Global, left: u32, fault: Option<RunFault>) {
    let mut writer = Flushed { left };
    let ended = run(alloc, WIRE, &mut writer, false);
    assert!(rt; ended.err() == fault);
}

/// A run flushes before each of its two reads and at its end.
#[test]
fn each_flush_fails(rt: HostRuntime) {
    for left in 0..3 {
        flush_fails(&rt, rt.alloc(), left, Some(RunFault::Write));
    }
    flush_fails(&rt, rt.alloc(), 3, None);
}
