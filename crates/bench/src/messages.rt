// Messages through one group, each as a record: RI, CI, a byte with First, Last and COM as its last bits, the service
// number and the data length, two bytes each with the lower one first, a zero, and 256 bytes that begin with the data.
use crate::records;
use channel::Fields;
use group::{Group, Step, Stepped};

const RECORD_BYTES: usize = 264;

const DATA_AT: usize = 8;

// The group's service number.
const NUMBER: u16 = 1000;

// What a repeat adds to the sum: no group is so long.
const REPEATED: u64 = 3826;

// The state and the buffer stand here, so that nothing copies them.
pub(crate) fn take(input: &[u8], count: usize) -> u32 {
    let (messages, _) = input.as_chunks::<RECORD_BYTES>();
    let mut group = Group::new(NUMBER).group;
    let mut buffer = [0; Group::MOST_BYTES];
    let mut sum = 0;
    records::each(messages, count, |message| {
        let stepped = join(group, message, &mut buffer);
        group = stepped.group;
        sum = match stepped.answer {
            Ok(Step::Taken) => records::add(sum, 0),
            Ok(Step::Repeat) => records::add(sum, REPEATED),
            Ok(Step::Whole(length)) => records::add(sum, length as u64),
            Err(refusal) => records::add(sum, u64::from(u8::from(refusal))),
        };
    });
    records::add_bytes(add_counts(sum, group), &buffer)
}

// A record holds at most 256 bytes of data.
fn join(group: Group, message: &[u8; RECORD_BYTES], buffer: &mut [u8]) -> Stepped {
    let [ri, ci, flags, lower, upper, length_lower, length_upper, ..] = *message;
    let length = u16::from_le_bytes([length_lower, length_upper]) % 257;
    let end = DATA_AT + usize::from(length);
    let fields = Fields {
        ri,
        ci,
        first: flags & 1 != 0,
        last: flags & 2 != 0,
        number: u16::from_le_bytes([lower, upper]),
        command: flags & 4 != 0,
    };
    group.join(fields, &message[DATA_AT..end], buffer)
}

// The phase follows from the answers.
fn add_counts(sum: u32, group: Group) -> u32 {
    records::add_all(
        sum,
        &[
            group.held as u64,
            u64::from(group.messages),
            u64::from(group.ci),
            group.last_length as u64,
        ],
    )
}
