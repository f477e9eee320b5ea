//! Each text of a dialogue is written before the next line is read.

use crate::dialogue_tests::play;
use crate::expect::expect;
use play_dialogues::End;
use std::io;
use std::io::{Error, ErrorKind, Read, Write};
use std::sync::atomic::AtomicBool;
use std::sync::atomic::Ordering::SeqCst;
use streams::{ReaderSource, WriterSink};

/// How a text ends that asks for a line.
const ASKS: &[u8] = b" to play\n";

/// A screen. It notes when a line is asked for.
#[derive(Drop)]
struct Screen<'a> {
    asked: &'a AtomicBool,
    text: Vec<u8>,
}

impl Write for Screen<'_> {
    fn write(&mut self, buf: &[u8]) -> io::Result<usize> {
        if self.text.extend_from_slice(buf).is_err() {
            return Err(Error::from(ErrorKind::OutOfMemory));
        }
        if self.text.as_slice().ends_with(ASKS) {
            self.asked.store(true, SeqCst);
        }
        Ok(buf.len())
    }

    fn flush(&mut self) -> io::Result<()> {
        Ok(())
    }
}

/// A player who types these lines, and is asked for each. To read one before it was asked for fails.
#[derive(Drop)]
struct Player<'a> {
    asked: &'a AtomicBool,
    lines: &'a [u8],
}

impl Read for Player<'_> {
    fn read(&mut self, buf: &mut [u8]) -> io::Result<usize> {
        let mut count = 0usize;
        let mut is_whole = false;
        for (spot, byte) in buf.iter_mut().zip(self.lines.iter()) {
            *spot = *byte;
            count = count.saturating_add(1);
            if *byte == b'\n' {
                is_whole = true;
                break;
            }
        }
        let Some(later) = self.lines.get(count..) else {
            return Err(Error::from(ErrorKind::Other));
        };
        self.lines = later;
        if count == 0 || !self.asked.load(SeqCst) {
            return Err(Error::from(ErrorKind::Other));
        }
        if is_whole {
            self.asked.store(false, SeqCst);
        }
        Ok(count.min(buf.len()))
    }
}

/// The player is asked before each line, and never for one more.
#[test]
fn asked_before_each_line(rt: HostRuntime) {
    let alloc = rt.alloc();
    let asked = &AtomicBool::new(false);
    let lines = b"S4\nS4\nundo\nS4\nS5\nS6\nSK\n".as_slice();
    let input = ReaderSource::new(Player { asked, lines });
    let text = Vec::new(alloc);
    let mut output = WriterSink::new(Screen { asked, text });
    let (ended, played) = play(&rt, alloc, input, &mut output);
    expect(&rt, ended == End::Played && played == 8);
}
