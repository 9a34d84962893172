// A frame in tiles of eight rows and eight positions, each of which is turned round as one word: byte j of a tile is what its
// row j has there.
ghost use Rattle.std.specs.Prelude.{◌≡◌, ℕ, ◌+◌, ◌*◌, ◌<◌, length};
ghost use Rattle.words.specs.Bytes.{bit_of};
ghost use Rattle.frame.specs.Tiles.{exchanged, TileOf, PutsTile, TurnedRound};

use super::FRAME_BYTES;
use block::BLOCK_BYTES;

// The tiles of a frame, 34 one below the other and 34 along.
const TILES: usize = 1156;

const TILE_ROWS: usize = 8;

// The places that are exchanged, in each square of two, four and eight a side those of its upper right quarter: a byte is a
// row, and its lowest bit stands first.
const OF_TWO: u64 = 0x00aa_00aa_00aa_00aa;

const OF_FOUR: u64 = 0x0000_cccc_0000_cccc;

const OF_EIGHT: u64 = 0x0000_0000_f0f0_f0f0;

// Fills `turned` with the frame turned round: position p of its row n is position n of row p.
pub(crate) fn turn_round(frame: &[u8; FRAME_BYTES], turned: &mut [u8; FRAME_BYTES])
    ensures { TurnedRound frame.now turned.new }
{
    for t in 0..TILES {
        let down = t / BLOCK_BYTES;
        let along = t % BLOCK_BYTES;
        let tile = turned_tile(tile_at(frame, along, down));
        put_tile(turned, down, along, tile);
    }
}

// The tile in eight rows from 8 x `down` on, at eight positions from 8 x `along` on.
fn tile_at(frame: &[u8; FRAME_BYTES], down: usize, along: usize) -> u64
    requires { (down < 34) × (along < 34) }
    ensures { TileOf frame.now down along result }
{
    let mut tile = 0;
    for j in 0..TILE_ROWS {
        let at = BLOCK_BYTES * (TILE_ROWS * down + j) + along;
        tile |= u64::from(frame[at]) << (8 * j);
    }
    tile
}

// Puts a tile in its place.
fn put_tile(frame: &mut [u8; FRAME_BYTES], down: usize, along: usize, tile: u64)
    requires { (down < 34) × (along < 34) }
    ensures { PutsTile down along tile frame.old frame.new }
{
    for j in 0..TILE_ROWS {
        let at = BLOCK_BYTES * (TILE_ROWS * down + j) + along;
        frame[at] = ((tile >> (8 * j)) % 256) as u8;
    }
}

// A tile turned round: in each square of two the upper right place is exchanged with the lower left one, then in each square
// of four the two quarters, then in the whole.
fn turned_tile(tile: u64) -> u64
    ensures { (j i : ℕ) → j < 8 → i < 8 → bit_of result (8 * j + i) ≡ bit_of tile (8 * i + j) }
{
    let twos = exchange(tile, 7, OF_TWO);
    let fours = exchange(twos, 14, OF_FOUR);
    exchange(fours, 28, OF_EIGHT)
}

// The tile with each chosen place exchanged with the one so far on.
#[tactic(auto, unfolding(crate::specs::Tiles::exchanged))]
fn exchange(tile: u64, far: usize, chosen: u64) -> u64
    requires { far < 64 }
    ensures { result ≡ exchanged far chosen tile }
{
    let differing = chosen & (tile ^ (tile >> far));
    tile ^ (differing ^ (differing << far))
}
