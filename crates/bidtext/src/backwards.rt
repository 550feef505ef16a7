ghost use Rattle.std.specs.Prelude.{◌≡◌, ◌≤◌, List, [], ◌++◌, length, IfOk, None, string_bytes, OnOk};
ghost use Rattle.bidfile.specs.Found.{found};
ghost use Rattle.bidfile.specs.Items.{Item, item_of};
ghost use Rattle.bidfile.specs.Layout.{Fits, layout};
ghost use Rattle.std.specs.List.{flat_map, AllByRecursion};
ghost use Rattle.bidfile.specs.Reading.{told, Moved};
ghost use Rattle.bidtext.specs.Kept.{handed_any, kept, file_kept, text_line, with_text, listed_said};

use crate::listed::Listed;
use crate::texts::record_text;
use bidfile::{Due, FileFault, FileQuestion, Placed, Reader, Record, layout_holds};
use std::alloc::{AllocError, Global};

// The next record, whoever's turn it is: the terms are in turn where all others are not.
fn next_record<'a>(reader: &mut Reader<'a>) -> Result<Option<Placed<'a>>, FileFault>
    ensures answer { told result ≡ handed_any (found reader.old.file.now reader.old.at) }
    ensures file { reader.new.file ≡ reader.old.file }
    ensures bytes { reader.new.file.now ≡ reader.old.file.now }
    ensures place { Moved reader.old.file.now reader.old.at reader.new.at result }
{
    match reader.next(Due::Corners) {
        Err(fault) if fault.question == FileQuestion::Turn => reader.next(Due::Terms),
        read => read,
    }
}

// Adds the line of a record.
fn add_record(heap: Global, text: &mut String, record: Record<&[u8]>) -> Result<(), AllocError>
    ensures { OnOk result (string_bytes text.new ≡ string_bytes text.old ++ text_line (item_of «record».entry)) }
{
    let line = record_text(heap, record)?;
    text.push_str(line.as_str())?;
    text.push('\n')
}

// The lines of the records that a reader hands out, from the front of a file on.
fn list(heap: Global, file: &[u8]) -> Result<Listed, AllocError>
    ensures { IfOk result (λ l. listed_said l ≡ with_text [] (kept (found file.now 0))) }
{
    let mut text = String::new(heap);
    let mut reader = Reader::new(file);
    loop {
        match next_record(&mut reader) {
            Ok(Some(placed)) => add_record(heap, &mut text, placed.record)?,
            Ok(None) => return Ok(Listed { text, fault: None }),
            Err(fault) => {
                let fault = Some(fault);
                return Ok(Listed { text, fault });
            }
        }
    }
}

// The text of a file of words, a record a line, up to its damage.
pub fn words_text(heap: Global, file: &[u8]) -> Result<Listed, AllocError>
    ensures value { IfOk result (λ l. listed_said l ≡ with_text [] (file_kept file.now)) }
    ensures back { (items : List Item) → AllByRecursion Fits items → file.now ≡ flat_map layout items → length file.now ≤ 65532 → IfOk result (λ l. listed_said l ≡ (flat_map text_line items, None)) }
{
    layout_holds();
    let reader = Reader::new(file);
    match reader.check() {
        Ok(()) => list(heap, file),
        Err(fault) => Ok(Listed {
            text: String::new(heap),
            fault: Some(fault),
        }),
    }
}
