// The groups' commands.
use crate::arguments::{Argument, Arguments, FromArguments, Unanswered};
use crate::shown;
use crate::shown::{Bytes, Outcome, Shown};
use channel::Fields;
use group::{Group, Phase, Step};
use std::fmt;
use std::fmt::{Display, Formatter};
use writer::Series;

pub(crate) fn new_group(mut arguments: Arguments<'_>) -> Result<String, Unanswered> {
    let number = arguments.number()?;
    arguments.end()?;
    let made = Group::new(number);
    let outcome = Outcome("fresh", &made.answer);
    Ok(format!(in arguments.alloc; "{outcome}\t{}", Shown(&made.group))?)
}

pub(crate) fn join(mut arguments: Arguments<'_>) -> Result<String, Unanswered> {
    let group = Group::read(&mut arguments)?;
    let message = Fields::read(&mut arguments)?;
    let data = arguments.bytes()?;
    let mut buffer = arguments.bytes()?;
    arguments.end()?;
    let stepped = group.join(message, &data, &mut buffer);
    let state = Shown(&stepped.group);
    let buffer = Bytes(&buffer);
    let line = match stepped.answer {
        Ok(Step::Taken) => format!(in arguments.alloc; "taken\t{state}\t{buffer}"),
        Ok(Step::Repeat) => format!(in arguments.alloc; "repeat\t{state}\t{buffer}"),
        Ok(Step::Whole(length)) => {
            format!(in arguments.alloc; "group\t{length}\t{state}\t{buffer}")
        }
        Err(refusal) => format!(in arguments.alloc; "{refusal}\t{state}\t{buffer}"),
    };
    Ok(line?)
}

pub(crate) fn write_group(mut arguments: Arguments<'_>) -> Result<String, Unanswered> {
    let series = Series::read(&mut arguments)?;
    let data = arguments.bytes()?;
    let mut output = arguments.bytes()?;
    arguments.end()?;
    let told = writer::write_group(series, &data, &mut output);
    Ok(shown::written(arguments.alloc, "written", told, &output)?)
}

impl FromArguments for Group {
    fn read(arguments: &mut Arguments<'_>) -> Result<Self, Unanswered> {
        Ok(Group {
            number: arguments.number()?,
            phase: arguments.one()?,
            held: arguments.number()?,
            messages: arguments.number()?,
            ci: arguments.number()?,
            last_length: arguments.number()?,
        })
    }
}

impl Display for Shown<'_, Group> {
    fn fmt<W: fmt::Write>(&self, f: &mut Formatter<W>) -> fmt::Result {
        let group = self.0;
        write!(
            f,
            "{}\t{}\t{}\t{}\t{}\t{}",
            group.number,
            Shown(&group.phase),
            group.held,
            group.messages,
            group.ci,
            group.last_length
        )
    }
}

impl Argument for Phase {
    fn spelled(field: &[u8]) -> Option<Self> {
        match field {
            b"idle" => Some(Phase::Idle),
            b"gathering" => Some(Phase::Gathering),
            _ => None,
        }
    }
}

impl Display for Shown<'_, Phase> {
    fn fmt<W: fmt::Write>(&self, f: &mut Formatter<W>) -> fmt::Result {
        f.write_str(match self.0 {
            Phase::Idle => "idle",
            Phase::Gathering => "gathering",
        })
    }
}

impl FromArguments for Series {
    fn read(arguments: &mut Arguments<'_>) -> Result<Self, Unanswered> {
        Ok(Series {
            number: arguments.number()?,
            ri: arguments.number()?,
            di: arguments.one()?,
            sc: arguments.number()?,
            ci: arguments.number()?,
        })
    }
}
