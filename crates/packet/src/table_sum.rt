// The sum of the lookup tables that a rate packet carries.
ghost use Rattle.std.specs.Prelude.{◌≡◌, ◌+◌, ◌≤◌, ◌<◌};
ghost use Rattle.wire.specs.Lists.{EachBelow};
ghost use Rattle.packet.specs.TableSum.{added_row, word_sum, table_sum};

use tables::Tables;
use wire::read::u24_at;

// A row is sixteen words, 48 columns of a byte. Columns of 16 bits hold the sums of 164 rows, a block, and are added eight at once:
// a close needs less than half the instructions that adding words takes.
const COLUMNS: usize = 48;

const ROWS: usize = 164;

// Eight blocks leave three words.
const BLOCK: usize = COLUMNS * ROWS;

// The row from `at` on joins the columns, by place: zipped with the row it takes five times as many instructions.
fn add_row(columns: &mut [u16; COLUMNS], block: &[u8; BLOCK], at: usize)
    requires { EachBelow 65281 columns.old × (at + 48 ≤ 7872) }
    ensures { columns.new ≡ added_row columns.old block.now at }
{
    for (j, column) in columns.iter_mut().enumerate() {
        *column += u16::from(block[at + j]);
    }
}

// The sum of the words that the columns are the sums of.
fn weighed(columns: &[u16; COLUMNS]) -> u64
    ensures { (result ≡ word_sum columns.now 0 16) × (result < 1099511627776) }
{
    let mut sum: u64 = 0;
    let (words, _) = columns.as_chunks::<3>();
    for word in words {
        let high = u64::from(word[0]);
        let middle = u64::from(word[1]);
        sum += 65536 * high + 256 * middle + u64::from(word[2]);
    }
    sum
}

// The sum of the words of the block. A row goes by its place, as the definition of what it adds does: by chunks its proof would have
// to join them again.
fn block_sum(block: &[u8; BLOCK]) -> u64
    ensures { (result ≡ word_sum block.now 0 2624) × (result < 1099511627776) }
{
    let mut columns = [0u16; COLUMNS];
    for r in 0..ROWS {
        add_row(&mut columns, block, COLUMNS * r);
    }
    weighed(&columns)
}

// The sum of all words modulo 2^24. Three words are left behind the last block. Compiled into its callers, the columns would not
// stay in registers: 27 instructions a row, where this takes 15.
#[inline(never)]
pub fn table_sum(tables: &Tables) -> u32
    ensures { (result ≡ table_sum tables.now) × (result < 16777216) }
{
    let mut sum: u64 = 0;
    let (blocks, rest) = tables.as_chunks::<BLOCK>();
    for block in blocks {
        sum += block_sum(block);
    }
    sum += u64::from(u24_at(rest, 0));
    sum += u64::from(u24_at(rest, 3));
    sum += u64::from(u24_at(rest, 6));
    (sum % 16777216) as u32
}
