// The frame's command.
use crate::arguments::{Arguments, Unanswered};
use crate::shown::{Bytes, Outcome};

pub(crate) fn correct_frame(mut arguments: Arguments<'_>) -> Result<String, Unanswered> {
    let mut buffer = arguments.bytes()?;
    arguments.end()?;
    let told = frame::correct_frame(&mut buffer);
    let outcome = Outcome("frame", &told);
    let (rows, columns) = match told {
        Ok(frame) => (frame.refused_rows, frame.refused_columns),
        Err(_) => (0, 0),
    };
    Ok(format!(in arguments.alloc; "{outcome}\t{rows}\t{columns}\t{}", Bytes(&buffer))?)
}
