// The survey's commands.
use crate::arguments::{Arguments, FromArguments, Unanswered};
use crate::shown;
use crate::shown::{Outcome, Shown};
use band::{Channel, Kilohertz};
use logs::Counts;
use std::fmt;
use std::fmt::{Display, Formatter};
use summary::Summary;

// What is told of counts that have no summary.
const NONE: Summary = Summary {
    mean_exists: false,
    mean: 0.0,
    missing_exists: false,
    missing: 0.0,
};

pub(crate) fn khz(mut arguments: Arguments<'_>) -> Result<String, Unanswered> {
    let number = arguments.number::<u16>()?;
    arguments.end()?;
    // Where the number is refused, the reserved channel 0 is asked for, so that its refusal is tested too.
    let channel = Channel::try_from(u32::from(number)).unwrap_or(Channel(0));
    let told = Kilohertz::try_from(channel);
    let outcome = Outcome("khz", &told);
    let kilohertz = told.map_or(0, |kilohertz| kilohertz.0);
    Ok(format!(in arguments.alloc; "{outcome}\t{kilohertz}")?)
}

pub(crate) fn channel(mut arguments: Arguments<'_>) -> Result<String, Unanswered> {
    let kilohertz = Kilohertz(arguments.number()?);
    arguments.end()?;
    let told = Channel::try_from(kilohertz);
    let outcome = Outcome("channel", &told);
    let channel = told.map_or(0, |channel| channel.0);
    Ok(format!(in arguments.alloc; "{outcome}\t{channel}")?)
}

pub(crate) fn read_log(mut arguments: Arguments<'_>) -> Result<String, Unanswered> {
    let log = arguments.log()?;
    arguments.end()?;
    let read = logs::read(&log);
    Ok(format!(in arguments.alloc;
        "{}\t{}\t{}",
        Outcome("log", &read.answer),
        read.line,
        Shown(&read.counts)
    )?)
}

pub(crate) fn summarise(mut arguments: Arguments<'_>) -> Result<String, Unanswered> {
    let counts = Counts::read(&mut arguments)?;
    arguments.end()?;
    let told = summary::summarise(counts);
    let summary = told.unwrap_or(NONE);
    let outcome = Outcome("summary", &told);
    Ok(format!(in arguments.alloc; "{outcome}\t{}", Shown(&summary))?)
}

pub(crate) fn report(mut arguments: Arguments<'_>) -> Result<String, Unanswered> {
    let counts = Counts::read(&mut arguments)?;
    let mut output = arguments.bytes()?;
    arguments.end()?;
    let told = summary::report(counts, &mut output);
    Ok(shown::written(arguments.alloc, "report", told, &output)?)
}

pub(crate) fn export(mut arguments: Arguments<'_>) -> Result<String, Unanswered> {
    let counts = Counts::read(&mut arguments)?;
    let summary = Summary::read(&mut arguments)?;
    let mut output = arguments.bytes()?;
    arguments.end()?;
    let told = summary::export(counts, summary, &mut output);
    Ok(shown::written(arguments.alloc, "row", told, &output)?)
}

impl FromArguments for Counts {
    fn read(arguments: &mut Arguments<'_>) -> Result<Self, Unanswered> {
        Ok(Counts {
            channel: arguments.number()?,
            slots: arguments.number()?,
            read: arguments.number()?,
            clean: arguments.number()?,
            bits: arguments.number()?,
            noword: arguments.number()?,
            check: arguments.number()?,
            missing: arguments.number()?,
        })
    }
}

impl Display for Shown<'_, Counts> {
    fn fmt<W: fmt::Write>(&self, f: &mut Formatter<W>) -> fmt::Result {
        let counts = self.0;
        write!(
            f,
            "{}\t{}\t{}\t{}\t{}\t{}\t{}\t{}",
            counts.channel,
            counts.slots,
            counts.read,
            counts.clean,
            counts.bits,
            counts.noword,
            counts.check,
            counts.missing
        )
    }
}

impl FromArguments for Summary {
    fn read(arguments: &mut Arguments<'_>) -> Result<Self, Unanswered> {
        Ok(Summary {
            mean_exists: arguments.one()?,
            mean: arguments.one()?,
            missing_exists: arguments.one()?,
            missing: arguments.one()?,
        })
    }
}

impl Display for Shown<'_, Summary> {
    fn fmt<W: fmt::Write>(&self, f: &mut Formatter<W>) -> fmt::Result {
        let summary = self.0;
        write!(
            f,
            "{}\t{}\t{}\t{}",
            Shown(&summary.mean_exists),
            Shown(&summary.mean),
            Shown(&summary.missing_exists),
            Shown(&summary.missing)
        )
    }
}
