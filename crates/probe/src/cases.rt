// Answers a case, by the function of its command. One match and no table of functions, which would have to be searched.
use crate::arguments::{Arguments, Unanswered};
use crate::{blocks, frames, groups, messages, readers, surveys};
use std::alloc::Global;

pub(crate) fn answer(line: &[u8], alloc: Global) -> Result<String, Unanswered> {
    let arguments = Arguments::of(line, alloc);
    match text::field(line, 0) {
        b"correct" => blocks::correct(arguments),
        b"read-block" => blocks::read_block(arguments),
        b"write-block" => blocks::write_block(arguments),
        b"frame" => frames::correct_frame(arguments),
        b"new-channel" => messages::new_channel(arguments),
        b"step" => messages::step(arguments),
        b"write-message" => messages::write_message(arguments),
        b"new-group" => groups::new_group(arguments),
        b"join" => groups::join(arguments),
        b"write-group" => groups::write_group(arguments),
        b"khz" => surveys::khz(arguments),
        b"channel" => surveys::channel(arguments),
        b"log" => surveys::read_log(arguments),
        b"start" => readers::start(arguments),
        b"feed" => readers::feed(arguments),
        b"end" => readers::end(arguments),
        b"summary" => surveys::summarise(arguments),
        b"report" => surveys::report(arguments),
        b"export" => surveys::export(arguments),
        _ => Err(Unanswered::NoCase),
    }
}
