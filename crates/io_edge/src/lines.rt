// The lines of what comes in.
ghost use Rattle.std.specs.Prelude.{◌≡◌, ◌≢◌, ◌+◌, ◌<◌, ◌≤◌, ◌↔◌, ◌++◌, [], Bool, true, false, length, nat_lt, drop};
ghost use Rattle.std.specs.Prelude.{position, if◌then◌else◌, vec_len, is_some, option_map, option_to_list, IsTrue};
ghost use Rattle.std.specs.Prelude.{IfOk, IfSome, IfErr, OnOk, OnErr, IsErrOf, None, Some, Err, Ok};
ghost use Rattle.std.specs.List.{position_or_len};
ghost use Rattle.std.specs.Str.{is_utf8};
ghost use Rattle.std.specs.String.{string_bytes};
ghost use Rattle.std.specs.Str.Lines.{strip_carriage_return, lines};
ghost use Rattle.std.specs.Result.{result_err};
ghost use Rattle.fault_count.specs.Rose.{Rose};
ghost use Rattle.fault_count.specs.Causes.{HasCause};
ghost use Rattle.io_edge.specs.Lines.{is_lf, has_lf, line_bytes, through_line, after_line, without_end, TakesNoEnd};
ghost use Rattle.io_edge.specs.Pulls.{PullsForALine};
ghost use Rattle.io_edge.specs.Reader.{next_of, texts_of, line_error, IsUnlessBroken};
ghost use Rattle.io_edge.specs.declared.lines.LineError.TheVariants.{Memory};

use crate::{IoError, Source};
use std::alloc::{AllocError, Global};
use std::marker::Model;
use std::str;
use thiserror::Error;

/// The most lines that a reader gives.
pub const MOST_LINES: u32 = 10_000;

/// The most bytes of a line, its LF not counted.
pub const MOST_LINE_BYTES: usize = 4_096;

// The most bytes of one pull.
const PIECE: u32 = 65_536;

/// A line of the input. A contract sees its number and the bytes of its text.
#[derive(Debug, Drop)]
pub struct Line {
    /// Which line it is, counted from 1.
    pub number: u32,
    /// Its bytes, without its LF and without a CR before that.
    pub text: String,
}

impl Model for Line {
    ghost use Rattle.std.specs.String.{string_bytes};
    ghost use Rattle.io_edge.specs.Reader.{LineText};

    ghost Value = { LineText };

    ghost view = { λ a. record { number = a.number; text = string_bytes a.text } };
}

/// Why there is no line. Of `TooMany`, `TooLong` and `NotText` the first that fits is told.
#[derive(Clone, Copy, Debug, PartialEq, Eq, Error)]
pub enum LineError {
    /// The line of this number has over 4,096 bytes before its LF, or before the end of input.
    #[error("line {0} is too long")]
    TooLong(u32),
    /// Line 10,001 has a byte.
    #[error("there are too many lines")]
    TooMany,
    /// The line of this number isn't UTF-8.
    #[error("line {0} isn't UTF-8")]
    NotText(u32),
    /// The source failed.
    #[error("the input failed")]
    Failed,
    /// Memory ran out.
    #[error("out of memory")]
    Memory,
}

impl From<AllocError> for LineError {
    ghost from_gives = { λ _ e. e ≡ Memory };

    fn from(_: AllocError) -> Self {
        LineError::Memory
    }
}

impl From<IoError> for LineError {
    ghost from_gives = { λ x e. e ≡ line_error x };

    fn from(error: IoError) -> Self {
        match error {
            IoError::Failed => LineError::Failed,
            IoError::Memory => LineError::Memory,
        }
    }
}

// A line that is being gathered, and the bytes that were pulled and are in no line yet.
#[derive(Drop)]
struct Gathered {
    line: Vec<u8>,
    piece: Vec<u8>,
    start: usize,
}

impl Model for Gathered {
    ghost use Rattle.std.specs.Prelude.{◌≤◌, ◌+◌, drop, vec_len};
    ghost use Rattle.io_edge.specs.declared.lines.TheConstants.{MOST_LINE_BYTES};
    ghost use Rattle.io_edge.specs.Gathered.{LineAndHeld};

    ghost Value = { LineAndHeld };

    ghost view = { λ a. record { line = a.line.items; held = drop a.start a.piece.items } };

    ghost invariant = { λ a. (a.start ≤ vec_len a.piece) × (vec_len a.piece ≤ 65536)
        × (vec_len a.line ≤ MOST_LINE_BYTES + 1) };
}

impl Gathered {
    fn new(alloc: Global) -> Result<Gathered, AllocError>
        ensures { IfOk result (λ a. a ≡ record { line = []; held = [] }) }
    {
        Ok(Gathered {
            line: Vec::with_capacity(alloc, MOST_LINE_BYTES + 1)?,
            piece: Vec::new(alloc),
            start: 0,
        })
    }

    // Lets go of the line.
    fn clear_line(&mut self)
        ensures cleared { self.new ≡ record self.old { line = [] } }
        ensures small { length self.new.held ≤ 65536 }
    {
        self.line.clear();
    }

    // Pulls a piece where no bytes are held, and answers whether there is a byte.
    fn fill<S: Source>(&mut self, source: &mut S) -> Result<bool, IoError>
        ensures more { IfOk result (λ more. (more ≡ false) ↔ (self.new.held ≡ [])) }
        ensures ahead { S.tells → OnOk result (self.new.held ++ S.left source.new
            ≡ self.old.held ++ S.left source.old) }
        ensures end { S.tells → IfOk result (λ more. more ≡ false → S.left source.new ≡ []) }
        ensures line { self.new.line ≡ self.old.line }
        ensures quiet { self.old.held ≢ []
            → (source.new ≡ source.old) × (self.new ≡ self.old) × (result ≡ Ok true) }
        ensures pull { self.old.held ≡ []
            → OnOk result (S.gives source.old self.new.held source.new) }
        ensures failed_pull { OnErr result
            ((self.old.held ≡ []) × S.gives source.old [] source.new) }
        ensures kept { S.tells → OnErr result (S.left source.new ≡ S.left source.old) }
        ensures small { length self.new.held ≤ 65536 }
        ensures cause { HasCause IoError.Failed (S.faults source.old) (S.faults source.new) result }
    {
        if !rest(&self.piece, self.start).is_empty() {
            return Ok(true);
        }
        self.piece = source.pull(PIECE)?;
        self.start = 0;
        Ok(!self.piece.is_empty())
    }

    // Moves held bytes to the line, through the first LF or all, and answers whether an LF is
    // among them.
    fn move_line(&mut self, number: u32) -> Result<bool, LineError>
        ensures line { OnOk result (self.new.line ≡ self.old.line ++ through_line self.old.held) }
        ensures held { OnOk result (self.new.held ≡ after_line self.old.held) }
        ensures ended { IfOk result (λ ended. ended ≡ has_lf self.old.held) }
        ensures short { OnOk result
            (length self.old.line + position_or_len is_lf self.old.held ≤ MOST_LINE_BYTES) }
        ensures small { length self.new.held ≤ 65536 }
        ensures err { IfErr result (λ e. e ≢ LineError.Memory → (e ≡ LineError.TooLong number)
            × (MOST_LINE_BYTES < length self.old.line + position_or_len is_lf self.old.held)) }
    {
        let held = rest(&self.piece, self.start);
        let end = line_end(held);
        if self.line.len() + end > MOST_LINE_BYTES {
            return Err(LineError::TooLong(number));
        }
        let count = held.len().min(end + 1);
        let ended = end < held.len();
        self.line.extend_from_slice(&held[..count])?;
        self.start += count;
        Ok(ended)
    }

    // Moves bytes to the line, through its LF or to the end of input.
    fn gather<S: Source>(&mut self, source: &mut S, number: u32) -> Result<(), LineError>
        requires no_line { self.old.line ≡ [] }
        requires some { self.old.held ≢ [] }
        ensures line { S.tells
            → OnOk result (self.new.line ≡ through_line (self.old.held ++ S.left source.old)) }
        ensures rest { S.tells → OnOk result (self.new.held ++ S.left source.new
            ≡ after_line (self.old.held ++ S.left source.old)) }
        ensures text { OnOk result (length (without_end self.new.line) ≤ MOST_LINE_BYTES) }
        ensures short { S.tells → OnOk result
            (length (line_bytes (self.old.held ++ S.left source.old)) ≤ MOST_LINE_BYTES) }
        ensures err { S.tells → IfErr result (λ e. e ≢ LineError.Failed → e ≢ LineError.Memory
            → (e ≡ LineError.TooLong number)
            × (MOST_LINE_BYTES < length (line_bytes (self.old.held ++ S.left source.old)))) }
        ensures quiet { has_lf self.old.held ≡ true → source.new ≡ source.old }
        ensures pulls { PullsForALine S.gives self.old.held source.old source.new }
        ensures unfinished { S.tells → IsErrOf result LineError.Failed
            → TakesNoEnd (self.old.held ++ S.left source.old) (S.left source.new) }
        ensures small { length self.new.held ≤ 65536 }
        ensures cause { HasCause LineError.Failed (S.faults source.old) (S.faults source.new) result }
    {
        loop {
            if self.move_line(number)? {
                return Ok(());
            }
            if !self.fill(source)? {
                return Ok(());
            }
        }
    }

    // The text of the line.
    fn text(&self, number: u32) -> Result<String, LineError>
        ensures ok { IfOk result (λ text. (string_bytes text ≡ without_end self.now.line)
            × (is_utf8 (without_end self.now.line) ≡ true)) }
        ensures err { IfErr result (λ e. e ≢ LineError.Memory
            → (e ≡ LineError.NotText number) × (is_utf8 (without_end self.now.line) ≡ false)) }
    {
        text_of(*self.line.allocator(), &self.line, number)
    }
}

fn text_of(alloc: Global, line: &[u8], number: u32) -> Result<String, LineError>
    ensures ok { IfOk result (λ text. (string_bytes text ≡ without_end line.now)
        × (is_utf8 (without_end line.now) ≡ true)) }
    ensures err { IfErr result (λ e. e ≢ LineError.Memory
        → (e ≡ LineError.NotText number) × (is_utf8 (without_end line.now) ≡ false)) }
{
    match str::from_utf8(without_line_end(line)) {
        Ok(text) => Ok(String::from_str(alloc, text)?),
        Err(_) => Err(LineError::NotText(number)),
    }
}

fn rest(bytes: &[u8], start: usize) -> &[u8]
    requires { start ≤ length bytes.now }
    ensures { result.now ≡ drop start bytes.now }
{
    &bytes[start..]
}

// How many bytes stand before the first LF.
fn line_end(bytes: &[u8]) -> usize
    ensures end { result ≡ position_or_len is_lf bytes.now }
    ensures within { result ≤ length bytes.now }
    ensures found { nat_lt result (length bytes.now) ≡ has_lf bytes.now }
{
    first_lf(bytes).unwrap_or(bytes.len())
}

fn first_lf(bytes: &[u8]) -> Option<usize>
    ensures { result ≡ position is_lf bytes.now }
{
    bytes.iter().position(|b| *b == b'\n')
}

fn without_line_end(line: &[u8]) -> &[u8]
    ensures { result.now ≡ without_end line.now }
{
    match line {
        [text @ .., b'\n'] => without_cr(text),
        _ => line,
    }
}

fn without_cr(text: &[u8]) -> &[u8]
    ensures { result.now ≡ strip_carriage_return text.now }
{
    match text {
        [front @ .., b'\r'] => front,
        _ => text,
    }
}

/// Gives the lines of a source, one by one, however the source cuts its bytes.
///
/// A line ends at an LF or at the end of input. A CR before the LF is no part of its text; a CR at
/// the end of input is. Lines are counted from 1, empty ones too. At most one line and one piece
/// of 65,536 bytes are held, and the source is asked only where the bytes at hand, those that the
/// same call pulled among them, have no LF.
///
/// A contract sees the bytes held, how many lines were given, and the error that was answered.
#[derive(Drop)]
pub struct LineReader {
    gathered: Gathered,
    given: u32,
    stuck: Option<LineError>,
}

impl Model for LineReader {
    ghost use Rattle.std.specs.Prelude.{◌≤◌, length};
    ghost use Rattle.io_edge.specs.Reader.{ReaderState};

    ghost Value = { ReaderState };

    ghost view = { λ a. record { held = a.gathered.held; given = a.given; stuck = a.stuck } };

    ghost invariant = { λ a. length a.gathered.held ≤ 65536 };
}

impl LineReader {
    /// A reader that has given no line.
    pub fn new(alloc: Global) -> Result<LineReader, AllocError>
        ensures { IfOk result (λ reader. reader ≡ record { held = []; given = 0; stuck = None }) }
    {
        Ok(LineReader {
            gathered: Gathered::new(alloc)?,
            given: 0,
            stuck: None,
        })
    }

    /// The next line of what was held and what the source has left, or None at the end of input.
    ///
    /// After an error it answers the same error again, and leaves the source alone. `Failed` comes
    /// for the first time only where the source's count of faults rose, and then no line is lost
    /// whose end was read: what this call took off the bytes ahead has no LF.
    pub fn next_line<S: Source>(&mut self, source: &mut S) -> Result<Option<Line>, LineError>
        ensures answer { S.tells → self.old.stuck ≡ None
            → IsUnlessBroken result (next_of self.old.given (self.old.held ++ S.left source.old)) }
        ensures rest { S.tells → OnOk result (self.new.held ++ S.left source.new
            ≡ after_line (self.old.held ++ S.left source.old)) }
        ensures lines { S.tells → IfOk result (λ line. lines (self.old.held ++ S.left source.old)
            ≡ texts_of line ++ lines (self.new.held ++ S.left source.new)) }
        ensures number { IfOk result
            (λ line. IfSome line (λ line. line.number ≡ self.old.given + 1)) }
        ensures within { IfOk result (λ line. IfSome line (λ line. line.number ≤ MOST_LINES)) }
        ensures short { IfOk result (λ line. IfSome line
            (λ line. length line.text ≤ MOST_LINE_BYTES)) }
        ensures given { IfOk result (λ line. self.new.given
            ≡ (if is_some line then self.old.given + 1 else self.old.given)) }
        ensures stuck { self.new.stuck ≡ result_err result }
        ensures again { IfSome self.old.stuck (λ e. result ≡ Err e) }
        ensures alone { IfSome self.old.stuck (λ _. source.new ≡ source.old) }
        ensures quiet { has_lf self.old.held ≡ true → source.new ≡ source.old }
        ensures pulls { PullsForALine S.gives self.old.held source.old source.new }
        ensures unfinished { S.tells → self.old.stuck ≡ None → IsErrOf result LineError.Failed
            → TakesNoEnd (self.old.held ++ S.left source.old) (S.left source.new) }
        ensures small { length self.new.held ≤ 65536 }
        ensures later { S.faults source.old ≤ S.faults source.new }
        ensures failed { self.old.stuck ≡ None → IsErrOf result LineError.Failed
            → Rose (S.faults source.old) (S.faults source.new) }
    {
        if let Some(error) = self.stuck {
            return Err(error);
        }
        let answer = self.read_line(source);
        if let Err(error) = &answer {
            self.stuck = Some(*error);
        }
        answer
    }

    // The next line, where no error was answered.
    fn read_line<S: Source>(&mut self, source: &mut S) -> Result<Option<Line>, LineError>
        ensures answer { S.tells
            → IsUnlessBroken result (next_of self.old.given (self.old.held ++ S.left source.old)) }
        ensures rest { S.tells → OnOk result (self.new.held ++ S.left source.new
            ≡ after_line (self.old.held ++ S.left source.old)) }
        ensures lines { S.tells → IfOk result (λ line. lines (self.old.held ++ S.left source.old)
            ≡ texts_of line ++ lines (self.new.held ++ S.left source.new)) }
        ensures number { IfOk result
            (λ line. IfSome line (λ line. line.number ≡ self.old.given + 1)) }
        ensures within { IfOk result (λ line. IfSome line (λ line. line.number ≤ MOST_LINES)) }
        ensures short { IfOk result (λ line. IfSome line
            (λ line. length line.text ≤ MOST_LINE_BYTES)) }
        ensures given { IfOk result (λ line. self.new.given
            ≡ (if is_some line then self.old.given + 1 else self.old.given)) }
        ensures stuck { self.new.stuck ≡ self.old.stuck }
        ensures quiet { has_lf self.old.held ≡ true → source.new ≡ source.old }
        ensures pulls { PullsForALine S.gives self.old.held source.old source.new }
        ensures unfinished { S.tells → IsErrOf result LineError.Failed
            → TakesNoEnd (self.old.held ++ S.left source.old) (S.left source.new) }
        ensures cause { HasCause LineError.Failed (S.faults source.old) (S.faults source.new) result }
    {
        self.gathered.clear_line();
        if !self.gathered.fill(source)? {
            return Ok(None);
        }
        if self.given >= MOST_LINES {
            return Err(LineError::TooMany);
        }
        let number = self.given + 1;
        self.gathered.gather(source, number)?;
        let text = self.gathered.text(number)?;
        self.given = number;
        Ok(Some(Line { number, text }))
    }
}
