// What is answered of a write that takes less than a piece, and which writes to a stream fail.
use ap_files::{Failed, OutSink, Sink, StreamSink, write_some};
use std::io;
use std::io::{ErrorKind, Write};
use std::test::Fail;

/// A writer that takes so many bytes of each piece at most, or refuses, and keeps what it took.
#[derive(Drop)]
struct Taker {
    takes: Option<usize>,
    taken: Vec<u8>,
}

impl Write for Taker {
    fn write(&mut self, buf: &[u8]) -> io::Result<usize> {
        let Some(most) = self.takes else {
            return Err(io::Error::from(ErrorKind::BrokenPipe));
        };
        let count = most.min(buf.len());
        self.taken.extend_from_slice(&buf[..count])?;
        Ok(count)
    }

    fn flush(&mut self) -> io::Result<()> {
        Ok(())
    }
}

fn new_taker(rt: HostRuntime, takes: Option<usize>) -> Taker {
    Taker {
        takes,
        taken: Vec::new(rt.alloc()),
    }
}

#[test]
fn a_write_that_takes_nothing_fails(rt: HostRuntime) {
    for (takes, whole, empty) in [
        (Some(9), Ok(3), Ok(0)),
        (Some(2), Ok(2), Ok(0)),
        (Some(0), Err(Failed), Ok(0)),
        (None, Err(Failed), Err(Failed)),
    ] {
        let mut sink = StreamSink::new(new_taker(rt, takes));
        assert!(rt; sink.write(b"abc") == whole);
        assert!(rt; sink.write(b"") == empty);
    }
    assert!(rt; OutSink::new(rt.stdout()).write(b"line\n") == Ok(5));
}

#[test]
fn a_text_arrives_whole_in_parts(rt: HostRuntime) -> Result<(), Fail> {
    let mut text = [0u8; 250];
    for (number, place) in text.iter_mut().enumerate() {
        *place = number as u8;
    }
    for (most, writes) in [(1, 250), (7, 36), (100, 3)] {
        let mut writer = new_taker(rt, Some(most));
        let last = write_parts(&mut writer, &text)?;
        assert!(rt; writer.taken.as_slice() == text.as_slice(), "{most}");
        assert!(rt; last == writes, "{most}");
    }
    Ok(())
}

/// Writes a text from where the writer stopped each time, and answers how many writes that took.
fn write_parts(writer: &mut Taker, text: &[u8]) -> io::Result<usize> {
    let mut at = 0;
    let mut last = 0;
    for write in 1..=text.len() {
        if at < text.len() {
            at += write_some(writer, &text[at..])?;
            last = write;
        }
    }
    Ok(last)
}
