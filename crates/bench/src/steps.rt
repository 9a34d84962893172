// Information blocks of 22 bytes through one channel: what comes of them.
use crate::records;
use channel::{Channel, Header, INFORMATION_BYTES, Step};

// The state stands here, so that nothing copies it but the function that is timed.
pub(crate) fn take(input: &[u8], count: usize) -> u32 {
    let (blocks, _) = input.as_chunks::<INFORMATION_BYTES>();
    let mut channel = Channel::new();
    let mut sum = 0;
    records::each(blocks, count, |block| {
        let stepped = channel.step(block);
        channel = stepped.channel;
        sum = match stepped.answer {
            Ok(Step::Taken) => records::add(sum, 0),
            Ok(Step::Message(header)) => add_header(sum, header),
            Err(refusal) => records::add(sum, u64::from(u8::from(refusal))),
        };
    });
    add_state(sum, &channel)
}

fn add_header(sum: u32, header: Header) -> u32 {
    records::add_all(
        sum,
        &[
            u64::from(header.ri),
            u64::from(header.ci),
            u64::from(header.number),
            header.length as u64,
            header.size as u64,
            u64::from(header.first),
            u64::from(header.last),
            u64::from(header.ext),
            u64::from(header.command),
        ],
    )
}

// The phase follows from the answers.
fn add_state(sum: u32, channel: &Channel) -> u32 {
    let numbers = [channel.gathered as u64, u64::from(channel.expected)];
    records::add_bytes(records::add_all(sum, &numbers), &channel.bytes)
}
