// How a program says what it answers, and ends.
ghost use Rattle.std.specs.Prelude.{◌≡◌, ◌++◌, take};
ghost use Rattle.io.specs.Counts.{IsPrefixLen};
ghost use Rattle.support_rejection.specs.Rejections.{rejection_number};
ghost use Rattle.support_buffer.specs.Abstract.{written_of};
ghost use Rattle.model_base.specs.Decimal.{newline, line_of};
ghost use Rattle.support_cli.specs.Streams.{output_of, Puts};
ghost use Rattle.support_cli.specs.Answers.{status_code, status_by, failure_line, refused_word, prints, tells, says, says_refused, hands_over, Answered};

use crate::{Output, Status};
use std::io::Write;
use support_buffer::append_line;
use support_buffer::cursor::Cursor;
use support_rejection::Rejection;

/// Writes one line: `what`, `word` and a newline.
pub fn say<W: Write>(errors: &mut Output<W>, what: &[u8], word: &[u8])
    ensures { Puts (what.now ++ (word.now ++ newline)) (output_of W.contents errors.old) (output_of W.contents errors.new) }
{
    errors.put(what);
    errors.put(word);
    errors.put(b"\n");
}

/// Returns the status of a program that has written all its answer. Where standard output has
/// failed, it writes `cannot write` on standard error and returns [`Status::NotWritten`].
pub fn end<W: Write, E: Write>(output: &Output<W>, errors: &mut Output<E>, status: Status) -> Status
    ensures said { Puts (failure_line (output_of W.contents output.now).failed) (output_of E.contents errors.old) (output_of E.contents errors.new) }
    ensures status { status_code result ≡ status_by (output_of W.contents output.now).failed (status_code status) }
{
    if output.has_failed() {
        errors.put(b"cannot write\n");
        Status::NotWritten
    } else {
        status
    }
}

/// Ends a program that answers on standard output alone: writes `text` there and ends as by
/// [`end`]. The answer is `prints` of specs/Answers.antt.
pub fn print<W: Write, E: Write>(
    output: &mut Output<W>,
    errors: &mut Output<E>,
    text: &[u8],
    status: Status,
) -> Status
    ensures { Answered (prints text.now (status_code status)) (output_of W.contents output.old) (output_of W.contents output.new) (output_of E.contents errors.old) (output_of E.contents errors.new) (status_code result) }
{
    output.put(text);
    end(output, errors, status)
}

/// Ends a program that answers on standard error alone: writes `text` there and ends as by [`end`].
/// The answer is `tells` of specs/Answers.antt.
pub fn tell<W: Write, E: Write>(
    output: &Output<W>,
    errors: &mut Output<E>,
    text: &[u8],
    status: Status,
) -> Status
    ensures { Answered (tells text.now (status_code status)) (output_of W.contents output.now) (output_of W.contents output.now) (output_of E.contents errors.old) (output_of E.contents errors.new) (status_code result) }
{
    errors.put(text);
    end(output, errors, status)
}

/// Ends a program that answers with one line on standard error: writes `what`, `word` and a newline
/// there and ends as by [`end`]. The answer is `says` of specs/Answers.antt.
pub fn complain<W: Write, E: Write>(
    output: &Output<W>,
    errors: &mut Output<E>,
    what: &[u8],
    word: &[u8],
    status: Status,
) -> Status
    ensures { Answered (says what.now word.now (status_code status)) (output_of W.contents output.now) (output_of W.contents output.now) (output_of E.contents errors.old) (output_of E.contents errors.new) (status_code result) }
{
    say(errors, what, word);
    end(output, errors, status)
}

// Writes the line that has a rejection's number, and returns its length.
fn refusal_line(rejection: Rejection, line: &mut [u8; 29]) -> usize
    ensures text { take result line.new ≡ line_of refused_word (rejection_number rejection) }
    ensures prefix_len { IsPrefixLen result line.new }
{
    let mut next = Cursor {
        buffer: line,
        at: 0,
    };
    append_line(&mut next, b"refused ", u64::from(rejection.number()));
    next.at
}

/// Ends a program that answers with one line on standard error: writes `refused ` and the
/// rejection's number there and ends as by [`end`], with [`Status::Refused`]. The answer is
/// `says_refused` of specs/Answers.antt.
pub fn refuse<W: Write, E: Write>(
    output: &Output<W>,
    errors: &mut Output<E>,
    rejection: Rejection,
) -> Status
    ensures { Answered (says_refused (rejection_number rejection)) (output_of W.contents output.now) (output_of W.contents output.now) (output_of E.contents errors.old) (output_of E.contents errors.new) (status_code result) }
{
    let mut line = [0u8; 29];
    let count = refusal_line(rejection, &mut line);
    tell(output, errors, &line[..count], Status::Refused)
}

/// Ends a program that has written into a lent buffer. `Ok(n)`: writes the buffer's first `n` bytes
/// on standard output, all of them where it has fewer, and the status is [`Status::Done`]. `Err`:
/// ends as by [`refuse`]. The answer is `hands_over` of specs/Answers.antt.
pub fn hand_over<W: Write, E: Write>(
    output: &mut Output<W>,
    errors: &mut Output<E>,
    length: Result<usize, Rejection>,
    buffer: &[u8],
) -> Status
    ensures { Answered (hands_over (written_of length buffer.now)) (output_of W.contents output.old) (output_of W.contents output.new) (output_of E.contents errors.old) (output_of E.contents errors.new) (status_code result) }
{
    match length {
        Ok(n) => print(output, errors, &buffer[..n.min(buffer.len())], Status::Done),
        Err(rejection) => refuse(output, errors, rejection),
    }
}
