// The reader: the sender's bytes together with the position reached. Each method leaves the work to a function on a slice and a number;
// `moved` takes the reader on to where a field ended.
ghost use Rattle.std.specs.Prelude.{◌≡◌, [], ◌∷◌, Ok};
ghost use Rattle.refusal.specs.Refusal.{and_then, checked};
ghost use Rattle.codec.specs.Kind.{kind_at};
ghost use Rattle.codec.specs.TableField.{table_at};
ghost use Rattle.heads.specs.Heads.{taken_by};
ghost use Rattle.records.specs.Record.{body_at, bytes_left};
ghost use Rattle.readers.specs.Reader.{MovedTo, Starts};

use heads::kind::{Takes, read_kind};
use reading::tables::read_table;
use records::read::{body_at, end_at};
use records::record::Record;
use types::field::Field;
use types::kind::Head;
use types::refusal::Refusal;
use types::table::Table;

#[derive(Clone, Copy)]
pub struct Reader<'a> {
    pub src: &'a [u8],
    pub at: usize,
}

impl<'a> Reader<'a> {
    // Returns the reader at the start of the bytes.
    pub fn start(src: &'a [u8]) -> Self
        ensures { Starts src.entry result }
    {
        Reader { src, at: 0 }
    }

    // Returns the reader at another position.
    pub fn moved(self, at: usize) -> Self
        ensures { MovedTo self.entry at result }
    {
        Reader { src: self.src, at }
    }

    // Reads the kind byte where the reader stands, among the kinds that the caller takes. Refusals: 1, 5.
    pub fn kind(self, takes: Takes) -> Result<Field<Head>, Refusal>
        ensures { result ≡ kind_at (taken_by takes) self.entry.src.now self.entry.at }
    {
        read_kind(self.src, self.at, takes)
    }

    // Reads what follows a kind byte, of which `kind` is what reading it gave. Refusals: the kind's; 1, 4, 2, 3, 16 of the table; 7, 8 or 9 by
    // the family.
    pub fn body(self, kind: Result<Field<Head>, Refusal>) -> Result<Field<Record>, Refusal>
        ensures { result ≡ and_then kind (λ head. body_at head.value self.entry.src.now self.entry.at) }
    {
        body_at(self.src, self.at, kind)
    }

    // Returns the record that was read, of which `body` is what reading it gave, if the reader has reached the end. Refusals: the record's; 6.
    pub fn end(self, body: Result<Field<Record>, Refusal>) -> Result<Record, Refusal>
        ensures { result ≡ and_then body (λ read. checked (bytes_left self.entry.src.now self.entry.at ∷ []) (Ok read.value)) }
    {
        end_at(self.src, self.at, body)
    }

    // Reads the table that follows a kind byte, of which `kind` is what reading it gave. Refusals: the kind's; 1, 4, 2, 3, 16 of the table.
    pub fn table(self, kind: Result<Field<Head>, Refusal>) -> Result<Field<Table>, Refusal>
        ensures { result ≡ and_then kind (λ head. table_at head.value.cares self.entry.src.now self.entry.at) }
    {
        let head = kind?.value;
        read_table(self.src, self.at, head.cares)
    }
}
