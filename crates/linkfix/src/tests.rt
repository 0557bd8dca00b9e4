//! Runs over readers and writers in memory. The words are worked by hand from the encoding of `jal`
//! in the RISC-V unprivileged ISA.

use crate::program::run;
use std::io;
use std::io::{ErrorKind, Read, Write};
use std::process::Abort;

/// A writer into a fixed buffer, whose `write` fails after `writes_left` calls.
#[derive(Drop)]
struct Page {
    bytes: [u8; 128],
    len: usize,
    writes_left: u32,
    failed_writes: u32,
}

impl Page {
    fn new(writes_left: u32) -> Page {
        Page {
            bytes: [0; 128],
            len: 0,
            writes_left,
            failed_writes: 0,
        }
    }

    fn written(&self) -> &str {
        match self.bytes.get(..self.len).map(str::from_utf8) {
            Some(Ok(text)) => text,
            _ => "too much, or no text",
        }
    }
}

impl Write for Page {
    fn write(&mut self, buf: &[u8]) -> io::Result<usize> {
        if self.writes_left == 0 {
            self.failed_writes = self.failed_writes.saturating_add(1);
            return Err(io::Error::from(ErrorKind::Other));
        }
        self.writes_left -= 1;
        for byte in buf {
            let at = self.len;
            if let Some(place) = self.bytes.get_mut(at) {
                *place = *byte;
            }
            self.len = at.saturating_add(1);
        }
        Ok(buf.len())
    }

    fn flush(&mut self) -> io::Result<()> {
        Ok(())
    }
}

/// A reader whose first reads give `bytes`, and then `blank_lines` LF, one each; then it fails.
#[derive(Drop)]
struct Failing<'a> {
    bytes: &'a [u8],
    blank_lines: u32,
    reads: u32,
}

impl Read for Failing<'_> {
    fn read(&mut self, buf: &mut [u8]) -> io::Result<usize> {
        self.reads = self.reads.saturating_add(1);
        if !self.bytes.is_empty() {
            return self.bytes.read(buf);
        }
        match buf.first_mut() {
            Some(place) if self.blank_lines > 0 => {
                self.blank_lines -= 1;
                *place = b'\n';
                Ok(1)
            }
            _ => Err(io::Error::from(ErrorKind::Other)),
        }
    }
}

/// An input, what is printed, and the status.
type Row = (&'static [u8], &'static str, u8);

static ROWS: [Row; 67] = [
    // calls become jumps
    (
        b"97000000e780000013000000\ncall 0 8\nshow\n",
        "ok\nef008000e780000013000000\n",
        0,
    ),
    (
        b"97000000e780000013000000\ncall 8 0\nshow\n",
        "ok\n97000000e78000006ff09fff\n",
        0,
    ),
    (
        b"97000000e780000013000000\ncall 8 0\ncall 0 8\nshow\nshow\n",
        "ok\nok\nef008000e78000006ff09fff\nef008000e78000006ff09fff\n",
        0,
    ),
    // rejected calls end the run
    (
        b"97000000e780000013000000\ncall 10 0\nshow\n",
        "OutOfSection\n",
        1,
    ),
    (
        b"97000000e780000013000000\nshow\ncall 0 3\nshow\n",
        "97000000e780000013000000\nOddDistance\n",
        1,
    ),
    (
        b"97000000e780000013000000\ncall 0 1048576\n",
        "OutOfSection\n",
        1,
    ),
    (b"\ncall 0 0\n", "OutOfSection\n", 1),
    // calls go through deletions
    (
        b"97000000e780000013000000\ndel 4 4\ncall 0 8\nshow\n",
        "ok\nok\nef004000e780000013000000\n",
        0,
    ),
    (
        b"97000000e780000013000000\ndel 4 4\ncall 0 12\nshow\n",
        "ok\nok\nef008000e780000013000000\n",
        0,
    ),
    (
        b"97000000e780000013000000\ndel 2 0\ncall 0 8\nshow\n",
        "ok\nok\nef008000e780000013000000\n",
        0,
    ),
    (
        b"97000000e780000013000000\ndel 0 4\ncall 0 8\n",
        "ok\nSiteDeleted\n",
        1,
    ),
    (
        b"97000000e780000013000000\ndel 4 4\ncall 3 8\n",
        "ok\nSiteDeleted\n",
        1,
    ),
    (
        b"97000000e780000013000000\ndel 4 4\ncall 0 6\nshow\n",
        "ok\nok\nef004000e780000013000000\n",
        0,
    ),
    (
        b"97000000e780000013000000\ndel 4 1\ncall 0 8\n",
        "ok\nOddDistance\n",
        1,
    ),
    (
        b"97000000e780000013000000\ndel 10 4\ncall 0 12\nshow\n",
        "ok\nok\nef00a000e780000013000000\n",
        0,
    ),
    (
        b"97000000e780000013000000\ncall 0 13\n",
        "OutOfSection\n",
        1,
    ),
    // packed sections lack the deleted bytes
    (
        b"97000000e780000013000000\ncall 0 8\ndel 4 4\nshow\npack\n",
        "ok\nok\nef008000e780000013000000\nef00400013000000\n",
        0,
    ),
    (
        b"97000000e780000013000000\ndel 4 4\nin 6\ncall 0 6\npack\n",
        "ok\n4\nok\nef00400013000000\n",
        0,
    ),
    (
        b"97000000e780000097000000e780000013000000\ndel 4 4\ncall 8 0\ndel 12 4\ncall 0 16\npack\n",
        "ok\nok\nok\nok\nef008000eff0dfff13000000\n",
        0,
    ),
    (
        b"97000000e780000013000000\ndel 10 4\npack\n",
        "ok\n97000000e78000001300\n",
        0,
    ),
    (
        b"97000000e780000013000000\ndel 12 4\npack\n",
        "ok\n97000000e780000013000000\n",
        0,
    ),
    (b"\npack\n", "\n", 0),
    (
        b"97000000e780000013000000\ncall 4 8\ndel 4 4\npack\n",
        "ok\nok\nSiteDeleted\n",
        1,
    ),
    // accepted calls are 4 apart
    (
        b"97000000e780000013000000\ncall 0 8\ncall 2 8\n",
        "ok\nbad call\n",
        1,
    ),
    (
        b"97000000e780000013000000\ncall 8 0\ncall 4 0\ncall 11 99\n",
        "ok\nok\nbad call\n",
        1,
    ),
    // offsets are translated both ways
    (
        b"\ndel 4 4\nin 0\nin 4\nin 8\nout 3\nout 4\n",
        "ok\n0\n4\n4\n3\n8\n",
        0,
    ),
    (
        b"\ndel 8 4\ndel 16 4\ndel 0 2\nin 20\nout 0\n",
        "ok\nok\nok\n10\n2\n",
        0,
    ),
    (b"97000000e780000013000000\ndel 4 4\nin 6\n", "ok\n4\n", 0),
    (b"\ndel 4 4\ndel 6 1\n", "ok\nbad deletion\n", 1),
    (b"\ndel 4 4\ndel 4 0\n", "ok\nbad deletion\n", 1),
    (b"\ndel 0 4294967296\n", "bad line\n", 1),
    (
        b"\ndel 9223372036854775807 4294967295\nin 9223372036854775807\n",
        "ok\n9223372036854775807\n",
        0,
    ),
    (
        b"\ndel 9223372036854775807 4294967295\nout 9223372036854775807\n",
        "ok\n9223372041149743102\n",
        0,
    ),
    // the first line is the section
    (b"", "", 0),
    (b"\n", "", 0),
    (b"\nshow\n", "\n", 0),
    (b"aBcDeF09\r\nshow", "abcdef09\n", 0),
    (b"9", "bad section\n", 1),
    (b"9g\nshow\n", "bad section\n", 1),
    (b" 97\nshow\n", "bad section\n", 1),
    (b"97 \nshow\n", "bad section\n", 1),
    (b"97\r\r\nshow\n", "bad section\n", 1),
    (b"97\r", "bad section\n", 1),
    // lines are words parted by spaces
    (b"97\r\nshow\r\n", "97\n", 0),
    (b"97\n\n  \n\r\n \r\n  show  \n", "97\n", 0),
    (b"97\nshow", "97\n", 0),
    (b"97000000\n  call   0  0 \nshow\n", "ok\nef000000\n", 0),
    (b"97\nshow\r\r\n", "bad line\n", 1),
    (b"97\nshow\r", "bad line\n", 1),
    (b"97\n\tshow\n", "bad line\n", 1),
    (b"97\nshow\xc3\xa9\n", "bad line\n", 1),
    (b"97\n\xa0\n", "bad line\n", 1),
    (b"97\nSHOW\n", "bad line\n", 1),
    (b"97\nshow show\n", "bad line\n", 1),
    (b"97\nhide\n", "bad line\n", 1),
    // numbers are decimal and below two to the 63
    (b"97000000\ncall 000 0000000000000000000000000\n", "ok\n", 0),
    (
        b"97000000\ncall 9223372036854775807 0\n",
        "OutOfSection\n",
        1,
    ),
    (
        b"97000000\ncall 0 9223372036854775807\n",
        "OutOfSection\n",
        1,
    ),
    (b"97000000\ncall 0 9223372036854775808\n", "bad line\n", 1),
    (b"97000000\ncall 18446744073709551616 0\n", "bad line\n", 1),
    (b"97000000\ncall 0\n", "bad line\n", 1),
    (b"97000000\ncall\n", "bad line\n", 1),
    (b"97000000\ncall 0 0 0\n", "bad line\n", 1),
    (b"97000000\ncall +0 0\n", "bad line\n", 1),
    (b"97000000\ncall 0 -0\n", "bad line\n", 1),
    (b"97000000\ncall 0x0 0\n", "bad line\n", 1),
    (b"97000000\ncall 0 a\n", "bad line\n", 1),
];

fn expect_run(rt: &impl Abort, row: &[u8], page: &Page, printed: &str, found: u8, status: u8) {
    assert_eq!(rt; page.written(), printed, "output for {row:?}");
    assert_eq!(rt; found, status, "status for {row:?}");
}

#[test]
fn inputs_are_answered(rt: HostRuntime) {
    for (input, printed, status) in &ROWS {
        let mut page = Page::new(u32::MAX);
        let found = run(rt.alloc(), *input, &mut page);
        expect_run(&rt, input, &page, printed, found, *status);
    }
}

#[test]
fn a_failed_read_ends_the_run(rt: HostRuntime) {
    let rows: [Row; 2] = [(b"", "", 1), (b"97000000\ncall 0 0\nshow", "ok\n", 1)];
    for (bytes, printed, status) in rows {
        let mut page = Page::new(u32::MAX);
        let input = Failing {
            bytes,
            blank_lines: 0,
            reads: 0,
        };
        let found = run(rt.alloc(), input, &mut page);
        expect_run(&rt, bytes, &page, printed, found, status);
    }
}

#[test]
fn the_reads_of_an_input_are_limited(rt: HostRuntime) {
    let mut page = Page::new(u32::MAX);
    let mut input = Failing {
        bytes: b"",
        blank_lines: u32::MAX,
        reads: 0,
    };
    let found = run(rt.alloc(), &mut input, &mut page);
    expect_run(&rt, b"", &page, "", found, 1);
    assert_eq!(rt; input.reads, 1 << 20);
}

#[test]
fn a_failed_write_is_the_last_one(rt: HostRuntime) {
    for (writes, printed) in [(0, ""), (1, "ok\n")] {
        for input in [
            b"97000000\ncall 0 0\nshow\nshow\n".as_slice(),
            b"97000000\ncall 0 0\nhide\n".as_slice(),
        ] {
            let mut page = Page::new(writes);
            let found = run(rt.alloc(), input, &mut page);
            expect_run(&rt, input, &page, printed, found, 1);
            assert_eq!(rt; page.failed_writes, 1);
        }
    }
}
