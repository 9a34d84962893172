// The long message channel's commands.
use crate::arguments::{Argument, Arguments, FromArguments, Unanswered};
use crate::shown;
use crate::shown::{Bytes, Shown};
use channel::{Channel, Fields, Header, Phase, Step};
use std::fmt;
use std::fmt::{Display, Formatter};

pub(crate) fn new_channel(arguments: Arguments<'_>) -> Result<String, Unanswered> {
    arguments.end()?;
    Ok(format!(in arguments.alloc; "{}", Shown(&Channel::new()))?)
}

pub(crate) fn step(mut arguments: Arguments<'_>) -> Result<String, Unanswered> {
    let channel = Channel::read(&mut arguments)?;
    let information = arguments.bytes()?;
    arguments.end()?;
    let stepped = channel.step(&information);
    let state = Shown(&stepped.channel);
    let line = match stepped.answer {
        Ok(Step::Taken) => format!(in arguments.alloc; "taken\t{state}"),
        Ok(Step::Message(header)) => {
            format!(in arguments.alloc; "message\t{}\t{state}", Shown(&header))
        }
        Err(refusal) => format!(in arguments.alloc; "{refusal}\t{state}"),
    };
    Ok(line?)
}

pub(crate) fn write_message(mut arguments: Arguments<'_>) -> Result<String, Unanswered> {
    let fields = Fields::read(&mut arguments)?;
    let di = arguments.one()?;
    let sc = arguments.number()?;
    let data = arguments.bytes()?;
    let mut output = arguments.bytes()?;
    arguments.end()?;
    let told = writer::write_message(fields, di, sc, &data, &mut output);
    Ok(shown::written(arguments.alloc, "written", told, &output)?)
}

impl FromArguments for Channel {
    fn read(arguments: &mut Arguments<'_>) -> Result<Self, Unanswered> {
        Ok(Channel {
            bytes: arguments.one()?,
            gathered: arguments.number()?,
            phase: arguments.one()?,
            expected: arguments.number()?,
        })
    }
}

impl Display for Shown<'_, Channel> {
    fn fmt<W: fmt::Write>(&self, f: &mut Formatter<W>) -> fmt::Result {
        let channel = self.0;
        write!(
            f,
            "{}\t{}\t{}\t{}",
            Bytes(&channel.bytes),
            channel.gathered,
            Shown(&channel.phase),
            channel.expected
        )
    }
}

impl Argument for Phase {
    fn spelled(field: &[u8]) -> Option<Self> {
        match field {
            b"waiting" => Some(Phase::Waiting),
            b"ready" => Some(Phase::Ready),
            b"gathering" => Some(Phase::Gathering),
            _ => None,
        }
    }
}

impl Display for Shown<'_, Phase> {
    fn fmt<W: fmt::Write>(&self, f: &mut Formatter<W>) -> fmt::Result {
        f.write_str(match self.0 {
            Phase::Waiting => "waiting",
            Phase::Ready => "ready",
            Phase::Gathering => "gathering",
        })
    }
}

impl FromArguments for Fields {
    fn read(arguments: &mut Arguments<'_>) -> Result<Self, Unanswered> {
        Ok(Fields {
            ri: arguments.number()?,
            ci: arguments.number()?,
            first: arguments.one()?,
            last: arguments.one()?,
            number: arguments.number()?,
            command: arguments.one()?,
        })
    }
}

impl Display for Shown<'_, Header> {
    fn fmt<W: fmt::Write>(&self, f: &mut Formatter<W>) -> fmt::Result {
        let header = self.0;
        write!(
            f,
            "{}\t{}\t{}\t{}\t{}\t{}\t{}\t{}\t{}",
            header.ri,
            header.ci,
            Shown(&header.first),
            Shown(&header.last),
            Shown(&header.ext),
            header.number,
            Shown(&header.command),
            header.length,
            header.size
        )
    }
}
