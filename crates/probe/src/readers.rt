// The commands of a log in pieces.
use crate::arguments::{Argument, Arguments, FromArguments, Unanswered};
use crate::shown::{Bytes, Outcome, Shown};
use logs::{Phase, Reader};
use std::fmt;
use std::fmt::{Display, Formatter};

pub(crate) fn start(arguments: Arguments<'_>) -> Result<String, Unanswered> {
    arguments.end()?;
    Ok(format!(in arguments.alloc; "{}", Shown(&logs::start()))?)
}

pub(crate) fn feed(mut arguments: Arguments<'_>) -> Result<String, Unanswered> {
    let reader = Reader::read(&mut arguments)?;
    let piece = arguments.log()?;
    arguments.end()?;
    let fed = logs::feed(reader, &piece);
    Ok(format!(in arguments.alloc;
        "{}\t{}\t{}",
        Outcome("taken", &fed.answer),
        fed.line,
        Shown(&fed.reader)
    )?)
}

pub(crate) fn end(mut arguments: Arguments<'_>) -> Result<String, Unanswered> {
    let reader = Reader::read(&mut arguments)?;
    arguments.end()?;
    let fed = logs::end(reader);
    Ok(format!(in arguments.alloc;
        "{}\t{}\t{}",
        Outcome("log", &fed.answer),
        fed.line,
        Shown(&fed.reader)
    )?)
}

impl FromArguments for Reader {
    fn read(arguments: &mut Arguments<'_>) -> Result<Self, Unanswered> {
        Ok(Reader {
            phase: arguments.one()?,
            counts: FromArguments::read(arguments)?,
            held: arguments.one()?,
            length: arguments.number()?,
        })
    }
}

impl Display for Shown<'_, Reader> {
    fn fmt<W: fmt::Write>(&self, f: &mut Formatter<W>) -> fmt::Result {
        let reader = self.0;
        write!(
            f,
            "{}\t{}\t{}\t{}",
            Shown(&reader.phase),
            Shown(&reader.counts),
            Bytes(&reader.held),
            reader.length
        )
    }
}

impl Argument for Phase {
    fn spelled(field: &[u8]) -> Option<Self> {
        match field {
            b"open" => Some(Phase::Open),
            b"refused" => Some(Phase::Refused),
            b"ended" => Some(Phase::Ended),
            _ => None,
        }
    }
}

impl Display for Shown<'_, Phase> {
    fn fmt<W: fmt::Write>(&self, f: &mut Formatter<W>) -> fmt::Result {
        f.write_str(match self.0 {
            Phase::Open => "open",
            Phase::Refused => "refused",
            Phase::Ended => "ended",
        })
    }
}
