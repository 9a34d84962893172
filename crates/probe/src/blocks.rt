// The block's commands.
use crate::arguments::{Arguments, Unanswered};
use crate::shown::{Bytes, Outcome, Shown};
use answers::Refusal;
use block::{BLOCK_WORDS, Corrected, Unread};
use std::alloc::{AllocError, Global};

// What is told of a block in which nothing was corrected. The library has no such value, so that nobody takes it for a reading.
const NONE: Corrected = Corrected {
    count: 0,
    changed: [0; BLOCK_WORDS],
};

pub(crate) fn correct(mut arguments: Arguments<'_>) -> Result<String, Unanswered> {
    let received = arguments.bytes()?;
    let mut output = arguments.bytes()?;
    arguments.end()?;
    let told = block::correct(&received, &mut output);
    let corrected = told.unwrap_or(NONE);
    let outcome = Outcome("word", &told);
    Ok(line(arguments.alloc, outcome, corrected, &output)?)
}

pub(crate) fn read_block(mut arguments: Arguments<'_>) -> Result<String, Unanswered> {
    let received = arguments.bytes()?;
    let mut output = arguments.bytes()?;
    arguments.end()?;
    let read = block::read_block(&received, &mut output);
    let corrected = match read {
        Ok(corrected) | Err(Unread::CheckBits(corrected)) => corrected,
        Err(Unread::WrongLength | Unread::NoCodeWord) => NONE,
    };
    let told = read.map_err(Refusal::from);
    let outcome = Outcome("information", &told);
    Ok(line(arguments.alloc, outcome, corrected, &output)?)
}

fn line(
    alloc: Global,
    outcome: Outcome<'_, Corrected>,
    corrected: Corrected,
    output: &[u8],
) -> Result<String, AllocError> {
    let row = Shown(&corrected.changed);
    format!(in alloc; "{outcome}\t{}\t{row}\t{}", corrected.count, Bytes(output))
}

pub(crate) fn write_block(mut arguments: Arguments<'_>) -> Result<String, Unanswered> {
    let information = arguments.bytes()?;
    let mut output = arguments.bytes()?;
    arguments.end()?;
    let told = block::write_block(&information, &mut output);
    let outcome = Outcome("block", &told);
    Ok(format!(in arguments.alloc; "{outcome}\t{}", Bytes(&output))?)
}
