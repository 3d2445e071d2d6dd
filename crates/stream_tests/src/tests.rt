// The calls with ample memory, texts cut at every place, faults by number, and the streams of a
// runtime.
ghost use Rattle.std.specs.Prelude.{◌<◌};

use io_edge::{
    IoError, LineError, LineReader, MOST_LINE_BYTES, MOST_LINES, MemSink, MemSource, Sink, Source,
    StdSink, StdSource, push_all,
};
use std::alloc::{AllocError, Allocator, Global};
use std::cell::Cell;
use std::fmt::Display;
use std::io;
use std::io::{BufRead, Lines, Read};
use std::process::Abort;
use std::time::{CpuClock, Duration};

fn source_of(alloc: Global, text: &[u8], piece: u32, fails: &[u64]) -> Result<MemSource, AllocError>
    requires { 0 < piece }
{
    let text = Vec::from_slice(alloc, text)?;
    let fails = Vec::from_slice(alloc, fails)?;
    Ok(MemSource::new(text, piece, fails))
}

// The first answers of a reader, up to the end or an error.
fn answers(alloc: Global, text: &[u8], piece: u32, fails: &[u64]) -> Result<String, AllocError>
    requires { 0 < piece }
{
    let mut source = source_of(alloc, text, piece, fails)?;
    let mut reader = LineReader::new(alloc)?;
    let mut said = String::new(alloc);
    for _ in 0..9u8 {
        match reader.next_line(&mut source) {
            Ok(Some(line)) => write!(said, "{} {:?}, ", line.number, line.text)?,
            Ok(None) => {
                said.push_str("end")?;
                break;
            }
            Err(error) => {
                write!(said, "{error:?}")?;
                break;
            }
        }
    }
    Ok(said)
}

#[test]
fn gives_the_same_lines_wherever_a_text_is_cut(rt: HostRuntime) {
    let alloc = rt.alloc();
    let table: [(&[u8], &str); 14] = [
        (b"", "end"),
        (b"a\r\nb", "1 \"a\", 2 \"b\", end"),
        (b"a", "1 \"a\", end"),
        (b"a\n", "1 \"a\", end"),
        (b"\n", "1 \"\", end"),
        (b"\r\n", "1 \"\", end"),
        (b"a\n\n\nb", "1 \"a\", 2 \"\", 3 \"\", 4 \"b\", end"),
        (b"a\r", "1 \"a\\r\", end"),
        (b"a\r\r\n", "1 \"a\\r\", end"),
        (b"a\rb\nc\r\n", "1 \"a\\rb\", 2 \"c\", end"),
        (b"a\n\r", "1 \"a\", 2 \"\\r\", end"),
        (b"\xc3\xa4\nb", "1 \"\u{e4}\", 2 \"b\", end"),
        (b"a\n\xff\nb", "1 \"a\", NotText(2)"),
        (b"\xc3\n\xa4", "NotText(1)"),
    ];
    for (text, want) in table {
        for piece in 1..=9u32 {
            let said = answers(alloc, text, piece, &[]).expect(&rt, "memory");
            assert_eq!(&rt; said.as_str(), want, "in pieces of {piece}");
        }
    }
}

#[test]
fn answers_a_fault_again_and_leaves_the_source_alone(rt: HostRuntime) {
    let alloc = rt.alloc();
    let mut source = source_of(alloc, b"a\nbc\n", 2, &[1]).expect(&rt, "memory");
    let mut reader = LineReader::new(alloc).expect(&rt, "memory");
    let first = reader.next_line(&mut source).expect(&rt, "a line");
    assert!(&rt; first.is_some_and(|line| line.text.as_str() == "a"));
    for _ in 0..3u8 {
        let failed = reader.next_line(&mut source);
        assert!(&rt; failed.is_err_and(|error| error == LineError::Failed));
    }
    let next = source.pull(9).expect(&rt, "bytes");
    assert_eq!(&rt; next.as_slice(), b"bc".as_slice());
}

#[test]
fn asks_the_source_only_for_what_a_line_needs(rt: HostRuntime) {
    let alloc = rt.alloc();
    let mut source = source_of(alloc, b"ab\ncd\n", 1, &[]).expect(&rt, "memory");
    let mut reader = LineReader::new(alloc).expect(&rt, "memory");
    let first = reader.next_line(&mut source).expect(&rt, "a line");
    assert!(&rt; first.is_some_and(|line| line.text.as_str() == "ab"));
    let next = source.pull(9).expect(&rt, "bytes");
    assert_eq!(&rt; next.as_slice(), b"c".as_slice());
}

// A byte so many times, and an end.
fn repeated(alloc: Global, byte: u8, count: usize, end: &[u8]) -> Result<Vec<u8>, AllocError> {
    let mut text = vec![in alloc; byte; count]?;
    text.extend_from_slice(end)?;
    Ok(text)
}

#[test]
fn refuses_a_line_of_more_than_4096_bytes(rt: HostRuntime) {
    let alloc = rt.alloc();
    let table: [(usize, &[u8], Option<usize>); 6] = [
        (4096, b"", Some(4096)),
        (4096, b"\n", Some(4096)),
        (4095, b"\r\n", Some(4095)),
        (4097, b"", None),
        (4097, b"\n", None),
        (4096, b"\r\n", None),
    ];
    for (count, end, want) in table {
        for piece in [1u32, 4095, 4096, 4097, 70_000] {
            let text = repeated(alloc, b'x', count, end).expect(&rt, "memory");
            let mut source = MemSource::new(text, piece, Vec::new(alloc));
            let mut reader = LineReader::new(alloc).expect(&rt, "memory");
            match reader.next_line(&mut source) {
                Ok(line) => assert!(&rt; line.map(|line| line.text.len()) == want, "{count}"),
                Err(error) => {
                    assert!(&rt; want.is_none(), "{count}");
                    assert!(&rt; error == LineError::TooLong(1), "{count}");
                }
            }
        }
    }
}

// How many lines a reader gives, and how it ends.
fn count_lines(
    alloc: Global,
    text: Vec<u8>,
    piece: u32,
) -> Result<(u32, Option<LineError>), AllocError>
    requires { 0 < piece }
{
    let mut source = MemSource::new(text, piece, Vec::new(alloc));
    let mut reader = LineReader::new(alloc)?;
    let mut last = 0;
    for _ in 0..=MOST_LINES {
        match reader.next_line(&mut source) {
            Ok(Some(line)) => last = line.number,
            Ok(None) => return Ok((last, None)),
            Err(error) => return Ok((last, Some(error))),
        }
    }
    Ok((last, None))
}

#[test]
fn refuses_line_10001_before_its_length_and_its_bytes(rt: HostRuntime) {
    let alloc = rt.alloc();
    let too_long = repeated(alloc, b'x', MOST_LINE_BYTES + 1, b"").expect(&rt, "memory");
    let table: [(&[u8], Option<LineError>); 5] = [
        (b"", None),
        (b"x", Some(LineError::TooMany)),
        (b"\n", Some(LineError::TooMany)),
        (b"\xff", Some(LineError::TooMany)),
        (&too_long, Some(LineError::TooMany)),
    ];
    for (after, want) in table {
        let text = repeated(alloc, b'\n', 10_000, after).expect(&rt, "memory");
        let (last, end) = count_lines(alloc, text, 65_536).expect(&rt, "memory");
        assert_eq!(&rt; last, 10_000);
        assert!(&rt; end == want);
    }
}

// So many lines, each of so many bytes before its LF.
fn equal_lines(alloc: Global, lines: u32, bytes: usize) -> Result<Vec<u8>, AllocError> {
    let line = repeated(alloc, b'x', bytes, b"\n")?;
    let mut text = Vec::new(alloc);
    for _ in 0..lines {
        text.extend_from_slice(&line)?;
    }
    Ok(text)
}

// The least processor time, of three tries, in which so many equal lines were read.
fn least_time<R: AllocGlobal + CpuClock + Abort>(
    rt: &R,
    lines: u32,
    bytes: usize,
    piece: u32,
) -> Duration
    requires { 0 < piece }
{
    let mut least = Duration::MAX;
    for _ in 0..3u8 {
        let text = equal_lines(rt.alloc(), lines, bytes).expect(rt, "memory");
        let start = rt.thread_cpu_time().expect(rt, "a clock");
        let (last, end) = count_lines(rt.alloc(), text, piece).expect(rt, "memory");
        let now = rt.thread_cpu_time().expect(rt, "a clock");
        least = least.min(now.saturating_sub(start));
        assert_eq!(rt; last, lines);
        assert!(rt; end.is_none());
    }
    least
}

// How many lines, and the bytes of each before its LF.
type Size = (u32, usize);

// Whether the larger text takes at most nine times as long as the smaller in one of ten rounds: other
// work on the machine may slow down some of them. A tenth of a second isn't counted, since a clock may
// tick in hundredths.
fn takes_linear_time<R: AllocGlobal + CpuClock + Abort>(
    rt: &R,
    small: Size,
    large: Size,
    piece: u32,
) -> bool
    requires { 0 < piece }
{
    let ((few, short), (many, long)) = (small, large);
    for _ in 0..10u8 {
        let less = least_time(rt, few, short, piece);
        let more = least_time(rt, many, long, piece);
        let beyond_ticks = more.saturating_sub(Duration::from_millis(100));
        if beyond_ticks.as_nanos() / 9 <= less.as_nanos() {
            return true;
        }
    }
    false
}

// Four times the bytes take four times as long where time is linear in them, and sixteen times
// where it is quadratic.
#[test]
fn reads_four_times_the_bytes_in_less_than_nine_times_the_time(rt: HostRuntime) {
    // Fewer bytes and more; the most bytes of a piece.
    let table: [(Size, Size, u32); 5] = [
        ((500, 99), (2_000, 99), 1),
        ((2_500, 99), (10_000, 99), 99),
        ((2_500, 99), (10_000, 99), 65_536),
        ((2_500, 5), (10_000, 5), 65_536),
        ((25, 1_000), (25, 4_000), 1),
    ];
    for (small, large, piece) in table {
        assert!(&rt;
            takes_linear_time(&rt, small, large, piece),
            "{large:?} in pieces of {piece}"
        );
    }
}

#[test]
fn fails_at_the_pushes_that_are_named(rt: HostRuntime) {
    let alloc = rt.alloc();
    let fails = Vec::from_slice(alloc, &[1, 3]).expect(&rt, "memory");
    let mut sink = MemSink::new(fails);
    for (piece, fails) in [
        ("a", false),
        ("b", true),
        ("c", false),
        ("d", true),
        ("e", false),
    ] {
        let result = push_all(&mut sink, piece.as_bytes());
        assert_eq!(&rt; result.is_err(), fails, "{piece}");
    }
    assert_eq!(&rt; sink.written(), b"ace".as_slice());
}

// Output that is interrupted so often, and then takes at most so many bytes a call, or fails.
#[derive(Drop)]
struct Narrow(Cell<u8>, Option<usize>);

fn interrupted(most: Option<usize>) -> Narrow {
    Narrow(Cell::new(2), most)
}

impl Print for Narrow {
    fn print<D: Display + Drop>(&self, _: D) -> io::Result<()> {
        Err(io::Error::from(io::ErrorKind::Unsupported))
    }

    fn println<D: Display + Drop>(&self, _: D) -> io::Result<()> {
        Err(io::Error::from(io::ErrorKind::Unsupported))
    }

    fn write_all(&self, _: &[u8]) -> io::Result<()> {
        Err(io::Error::from(io::ErrorKind::Unsupported))
    }

    fn write_some(&self, bytes: &[u8]) -> io::Result<usize> {
        let interrupts = self.0.get();
        self.0.set(interrupts.saturating_sub(1));
        match self.1 {
            _ if interrupts > 0 => Err(io::Error::from(io::ErrorKind::Interrupted)),
            Some(most) => Ok(most.min(bytes.len())),
            None => Err(io::Error::from(io::ErrorKind::StorageFull)),
        }
    }
}

#[test]
fn pushes_on_where_output_takes_little_and_fails_where_it_takes_nothing(rt: HostRuntime) {
    for most in [1, 2, 9] {
        let mut sink = StdSink::new(interrupted(Some(most)));
        assert_eq!(&rt; sink.push(b"abc"), Ok(most.min(3)));
        assert!(&rt; push_all(&mut sink, b"abcdefgh").is_ok());
        assert_eq!(&rt; sink.push(b""), Ok(0));
    }
    for most in [Some(0), None] {
        let mut sink = StdSink::new(interrupted(most));
        assert_eq!(&rt; sink.push(b"abc"), Err(IoError::Failed));
        assert_eq!(&rt; push_all(&mut sink, b"abc"), Err(IoError::Failed));
        assert!(&rt; push_all(&mut sink, b"").is_ok());
    }
}

// A reader that is interrupted so often, and then gives these bytes.
#[derive(Drop)]
struct Shaky(u8, &'static [u8]);

impl Read for Shaky {
    fn read(&mut self, buf: &mut [u8]) -> io::Result<usize> {
        if self.0 > 0 {
            self.0 -= 1;
            return Err(io::Error::from(io::ErrorKind::Interrupted));
        }
        self.1.read(buf)
    }
}

impl BufRead for Shaky {
    fn fill_buf(&mut self) -> io::Result<&[u8]> {
        Ok(self.1)
    }

    fn consume(&mut self, amount: usize) {
        self.1 = self.1.get(amount..).unwrap_or(b"");
    }
}

// Input that begins with two interrupts and these bytes at each call.
#[derive(Drop)]
struct Always(&'static [u8]);

impl Input for Always {
    type Reader = Shaky;

    fn read_line<A: Allocator + Clone>(&self, buf: &mut String<A>) -> io::Result<usize> {
        self.reader().read_line(buf)
    }

    fn lines<A: Allocator>(&self, alloc: A) -> Lines<Shaky, A> {
        self.reader().lines(alloc)
    }

    fn reader(&self) -> Shaky {
        Shaky(2, self.0)
    }
}

#[test]
fn pulls_what_the_input_gives_after_interrupts(rt: HostRuntime) {
    let table: [(&[u8], u32, &[u8]); 3] = [
        (b"abc", 2, b"ab"),
        (b"abc", u32::MAX, b"abc"),
        (b"", 2, b""),
    ];
    for (bytes, most, want) in table {
        let mut source = StdSource::new((Always(bytes), rt.alloc()));
        let piece = source.pull(most).expect(&rt, "bytes");
        assert_eq!(&rt; piece.as_slice(), want);
    }
}
