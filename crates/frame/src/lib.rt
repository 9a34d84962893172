// Document 02, ticket 5: whole frames, 272 rows in code order, of which every row and every column is meant to be a code word.
#![tactic(auto)]

ghost use Rattle.std.specs.Prelude.{◌≡◌, length};
ghost use Rattle.gf2.specs.Poly.{bit};
ghost use Rattle.words.specs.Bytes.{row_of};
ghost use Rattle.frame.specs.Frames.{frame_of, turned_round, Becomes, Stage, told_frame, CorrectsFrame};

mod tiles;

use answers::Refusal;
use block::BLOCK_BYTES;

// 272 rows of 34 bytes: 190 information rows, then 82 parity rows.
pub const FRAME_BYTES: usize = 9248;

const ROWS: usize = 272;

// How many rows and how many columns were refused.
#[derive(Clone, Copy)]
pub struct CorrectedFrame {
    pub refused_rows: u16,
    pub refused_columns: u16,
}

// Corrects each row of the frame, and then each column of what the rows have become: each becomes the code word that differs
// from it in at most eight places. One that has none is refused and counted: a row stays as received, a column as the rows
// left it.
// Refusal 1: `frame` has another length than 9,248; it is as it was.
pub fn correct_frame(frame: &mut [u8]) -> Result<CorrectedFrame, Refusal>
    ensures { CorrectsFrame frame.old frame.new (told_frame result) }
{
    let Some(frame) = frame.as_mut_array::<FRAME_BYTES>() else {
        return Err(Refusal::WrongLength);
    };
    let refused_rows = correct_rows(frame);
    let refused_columns = correct_columns(frame);
    Ok(CorrectedFrame {
        refused_rows,
        refused_columns,
    })
}

// Corrects each column, a row of the frame turned round, and counts those that were refused. Where no column has changed, as
// in most frames, the frame is not turned back.
fn correct_columns(frame: &mut [u8; FRAME_BYTES]) -> u16
    ensures { Stage (turned_round (frame_of frame.old)) (turned_round (frame_of frame.new)) 272 result }
{
    let mut turned = [0; FRAME_BYTES];
    tiles::turn_round(frame, &mut turned);
    let before = turned;
    let refused = correct_rows(&mut turned);
    if turned != before {
        tiles::turn_round(&turned, frame);
    }
    refused
}

// Corrects each row, and counts those that were refused.
fn correct_rows(frame: &mut [u8; FRAME_BYTES]) -> u16
    ensures { Stage (frame_of frame.old) (frame_of frame.new) 272 result }
{
    let mut refused = 0;
    // By number: after `chunks_exact_mut` a proof knows the frame's length alone.
    for n in 0..ROWS {
        let at = BLOCK_BYTES * n;
        refused += u16::from(correct_row(&mut frame[at..at + BLOCK_BYTES]));
    }
    refused
}

// Corrects one row, and tells whether it was refused.
fn correct_row(row: &mut [u8]) -> bool
    requires { length row.old ≡ 34 }
    ensures { Becomes (row_of row.old) (row_of row.new) (bit result) }
{
    let mut received = [0; BLOCK_BYTES];
    received.copy_from_slice(row);
    block::correct(&received, row).is_err()
}
