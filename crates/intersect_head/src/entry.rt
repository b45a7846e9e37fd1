// The entry of a configuration among those reached, by its record in a row.
ghost use Rattle.std.specs.Prelude.{◌≡◌, ◌+◌, ◌*◌, ◌≤◌, ◌<◌, length};
ghost use Rattle.intersect_config.specs.Configs.{config_at};
ghost use Rattle.intersect_head.specs.Searching.{row_hash, Enterable, EntersConfig};
ghost use Rattle.automata.specs.Layout.{config_size};

use intersect_config::leftover::LEFTOVER_SIZE;
use search_chains::{Shape, bucket_of, enter, hash_words};
use search_rows::Entered;
use table::layout::CONFIG_SIZE;

// The hash of the record of a configuration of `used` pairs: of its state, and of what counts of its leftovers.
fn hash_row(row: &[u8], used: usize) -> u64
    requires { Enterable used row.now }
    ensures { (result ≡ row_hash used row.now) × (result < 8589934592) }
{
    let mut hash = hash_words(row, 0, 1, 0);
    for i in 0..used {
        let at = 2 + LEFTOVER_SIZE * i;
        hash = hash_words(row, at, (usize::from(row[at + 1]) + 9) / 8, hash);
    }
    hash
}

// The number of the configuration in the row among those reached, entered behind them if it is not there.
pub fn enter_config(
    work: &mut [u8],
    reached: usize,
    room: usize,
    used: usize,
    row: &[u8],
) -> Entered
    requires { (config_size * room ≤ length work.old) × (reached ≤ room) × (room ≤ 1024)
        × Enterable used row.now }
    ensures { EntersConfig reached room used (config_at 0 row.now) work.old result
        work.new }
{
    if room == 0 {
        return Entered::Full;
    }
    let bucket = bucket_of(hash_row(row, used), room);
    let shape = Shape {
        head: 2,
        pitch: LEFTOVER_SIZE,
        parts: 1 + used,
    };
    enter(
        work,
        CONFIG_SIZE,
        reached as u16,
        room as u16,
        bucket,
        shape,
        row,
    )
}
