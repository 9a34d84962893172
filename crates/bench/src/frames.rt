// Whole frames of 9,248 bytes through the frame corrector.
use crate::records;
use frame::FRAME_BYTES;

// A frame is corrected where it stands, so it is copied first, to its own place in `written`.
pub(crate) fn correct(input: &[u8], written: &mut [u8], count: usize) -> u32 {
    let (frames, _) = input.as_chunks::<FRAME_BYTES>();
    let (places, _) = written.as_chunks_mut();
    let sum = records::sum_over(frames, places, count, |sum, frame, place| {
        place.copy_from_slice(frame);
        told(sum, place)
    });
    records::add_bytes(sum, written)
}

fn told(sum: u32, frame: &mut [u8]) -> u32 {
    match frame::correct_frame(frame) {
        Ok(corrected) => records::add_all(
            sum,
            &[
                u64::from(corrected.refused_rows),
                u64::from(corrected.refused_columns),
            ],
        ),
        Err(refusal) => records::add_all(sum, &[0, 0, u64::from(u8::from(refusal))]),
    }
}
