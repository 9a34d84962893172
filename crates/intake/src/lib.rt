// A log from standard input, for the programs that report on one (document 01, "The log and its report").
#![tactic(auto)]

ghost use Rattle.logs.specs.Reader.{told_log};
ghost use Rattle.logs.specs.Pieces.{Reached};
ghost use Rattle.std.specs.Prelude.{ℕ, ◌≤◌, List, Result, length, IfOk};
ghost use Rattle.std.specs.Borrow.{MutBor};
ghost use Rattle.answers.specs.declared.Refusal.{Refusal};
ghost use Rattle.logs.specs.declared.LogRead.{LogRead};
ghost use Rattle.summary.specs.Report.{report_log_of};
ghost use Rattle.summary.specs.Export.{export_log_of};
ghost use Rattle.summary.specs.Building.{Wrote};
ghost use Rattle.intake.specs.Intake.{Came, Answered};

use answers::Refusal;
use logs::{LogRead, Reader};
use std::io::{Eprint, ErrorKind, Read};

// What came, read as a log; and why reading failed before its end, where it did.
#[derive(Clone, Copy)]
pub struct Intake {
    pub log: LogRead,
    pub cause: Option<ErrorKind>,
}

// Reads a log on standard input to its end, in pieces of the room that is lent; of a room without bytes nothing comes. Where reading
// fails, the log is what came until then.
pub fn read_log<R: Input>(rt: &R, room: &mut [u8]) -> Intake
    ensures { Came (told_log result.log) }
{
    let mut input = rt.reader();
    let mut reader = logs::start();
    let mut cause = None;
    // A proved loop has to end: no input comes in so many pieces.
    for _ in 0..u64::MAX {
        match input.read(room) {
            Ok(0) => break,
            Ok(count) => reader = take_piece(reader, &room[..count]),
            Err(error) => {
                cause = Some(error.kind());
                break;
            }
        }
    }
    let end = logs::end(reader);
    Intake {
        log: LogRead {
            answer: end.answer,
            line: end.line,
            counts: end.reader.counts,
        },
        cause,
    }
}

// A function of its own, since the piece that is lent to it is known to be bytes.
fn take_piece(reader: Reader, piece: &[u8]) -> Reader
    requires { Reached reader }
    ensures { Reached result }
{
    logs::feed(reader, piece).reader
}

// The program `report`: answers a log on standard input with what `summary::report_log` writes, which is left in the room that is lent.
// Fails where reading does.
pub fn report<R: Input + Print + Eprint>(rt: &R, room: &mut [u8]) -> Result<LogRead, ErrorKind>
    ensures came { IfOk result (λ log. Came (told_log log)) }
    ensures told { IfOk result (λ log. Answered (report_log_of log) room.new) }
{
    answer(rt, "report", room, summary::report_log)
}

// The program `sheet`: likewise with what `summary::export_log` writes.
pub fn sheet<R: Input + Print + Eprint>(rt: &R, room: &mut [u8]) -> Result<LogRead, ErrorKind>
    ensures came { IfOk result (λ log. Came (told_log log)) }
    ensures told { IfOk result (λ log. Answered (export_log_of log) room.new) }
{
    answer(rt, "sheet", room, summary::export_log)
}

// Reads a log on standard input to its end, and writes what `write` makes of it to standard output. What fails is said on standard error.
fn answer<R: Input + Print + Eprint, F: FnOnce(LogRead, &mut [u8]) -> Result<usize, Refusal>>(
    rt: &R,
    program: &str,
    room: &mut [u8],
    write: F,
) -> Result<LogRead, ErrorKind>
    requires callable { F.IsAlwaysCallable write }
    requires in_bounds { (log : LogRead) (lent back : MutBor (List ℕ)) (n : ℕ) → F.post write log lent (Ok n) back → n ≤ length back.now }
    ensures came { IfOk result (λ log. Came (told_log log)) }
    ensures told { IfOk result (λ log. (old : List ℕ) × (written : Result ℕ Refusal) × Wrote F.FnOnce write log old written room.new) }
{
    let intake = read_log(rt, room);
    if let Some(cause) = intake.cause {
        let _ = eprintln!(rt; "{program}: standard input: {cause}");
        return Err(cause);
    }
    if let Ok(length) = write(intake.log, room) {
        if let Err(error) = rt.write_all(&room[..length]) {
            let _ = eprintln!(rt; "{program}: standard output: {error}");
        }
    }
    Ok(intake.log)
}
