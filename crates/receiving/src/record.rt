// A record read by a reader that travels from the start of the bytes. The parameters are plain, so that a caller has no reader.
ghost use Rattle.std.specs.Prelude.{◌≡◌};
ghost use Rattle.codec.specs.TableField.{table_record_at};
ghost use Rattle.records.specs.Record.{read_record};

use heads::kind::Takes;
use readers::reader::Reader;
use records::record::Record;
use types::field::Field;
use types::refusal::Refusal;
use types::table::Table;

// Reads a single record: its kind byte, what follows it, and the end. Refusals: 1 to 9, 16.
#[tactic(auto, unfolding(records::specs::Record::record_at, records::specs::Record::single_at))]
pub fn read(bytes: &[u8]) -> Result<Record, Refusal>
    ensures { result ≡ read_record bytes.now }
{
    let first = Reader::start(bytes);
    let kind = first.kind(Takes::Every)?;
    let second = first.moved(kind.next);
    let body = second.body(Ok(kind))?;
    second.moved(body.next).end(Ok(body))
}

// Reads the record of a table alone from a position on, as a report's reader travels from one to the next. Refusals: 1, 5, 4, 2, 3, 16.
#[tactic(auto, unfolding(codec::specs::TableField::table_record_at))]
pub fn table_at(bytes: &[u8], at: usize) -> Result<Field<Table>, Refusal>
    ensures { result ≡ table_record_at bytes.now at }
{
    let first = Reader::start(bytes).moved(at);
    let kind = first.kind(Takes::Tables)?;
    first.moved(kind.next).table(Ok(kind))
}
