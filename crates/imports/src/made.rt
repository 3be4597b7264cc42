// What is made of rows: the bits of a byte that are rows of a table, and the record of the table.
ghost use Rattle.std.specs.Prelude.{◌≡◌, ◌&&◌, ◌≤◌, ltb};
ghost use Rattle.numbers.specs.Packed.{packed, bit_in};
ghost use Rattle.table.specs.Table.{rows_of};
ghost use Rattle.writers.specs.Calls.{Wrote};

use records::record::Record;
use results::result::short_length;
use table::table::row_count;
use types::refusal::Refusal;
use types::table::Table;
use writers::write::write_table;

// Returns the bits of a byte that are rows of a table of n inputs: all where there are eight rows or more.
pub fn kept_bits(byte: u8, n: u8) -> u8
    requires { n ≤ 8 }
    ensures { result ≡ packed 8 (λ j. ltb j (rows_of n) && bit_in byte j) }
{
    if n < 3 {
        return byte % (1u8 << row_count(n));
    }
    byte
}

// Writes the record of a table. Returns the length. Refusals: those of the table, 12.
pub fn put_table_record(table: Table, out: &mut [u8]) -> Result<u32, Refusal>
    requires { table.n ≤ 8 }
    ensures { Wrote (Record.Table table) out.old result out.new }
{
    short_length(write_table(table, out))
}
