ghost use Rattle.std.specs.Prelude.{◌≡◌, ◌+◌, ◌<◌, ◌≤◌, []};
ghost use Rattle.curve.specs.Questions.{refused, first_no};
ghost use Rattle.bidfile.specs.Found.{found, found_at, item_at, handed, length_questions};
ghost use Rattle.bidfile.specs.Reading.{fault_number, told, told_one, told_record, asked, read_out, Laid, Moved, TakenOrNot, There, WholeFile};
ghost use Rattle.bidfile.specs.Items.{kind_number, size};
ghost use Rattle.bidfile.specs.Words.{words};

use crate::fault::{FileFault, FileQuestion};
use crate::head::Head;
use crate::kind::Kind;
use crate::records::{Due, Placed, Record};
use crate::words::count;

// The length of the longest bid file.
pub const MOST_BYTES: usize = 65_532;

// The record at a place, after all its questions.
fn read<'a>(file: &'a [u8], at: usize, due: Due) -> Result<Record<&'a [u8]>, FileQuestion>
    requires { at < words file.now }
    ensures answer { told_record result ≡ read_out (asked due (found_at file.now at)) (item_at file.now at) }
    ensures there { There file.now at result }
{
    Head::find(file, at, due)?.record()
}

// The record at a place with its place, or the fault there.
fn take<'a>(file: &'a [u8], place: usize, due: Due) -> Result<Placed<'a>, FileFault>
    requires { place < words file.now }
    ensures answer { told_one result ≡ handed due (found file.now place) }
    ensures taken { TakenOrNot file.now place result }
{
    let record = read(file, place, due).map_err(|question| FileFault { question, place })?;
    Ok(Placed { place, record })
}

// Where the file ends.
fn end<'a>(due: Due) -> Result<Option<Placed<'a>>, FileFault>
    ensures { told result ≡ handed due [] }
{
    if due.admits_end() {
        Ok(None)
    } else {
        Err(FileFault {
            question: FileQuestion::Turn,
            place: 0,
        })
    }
}

// A bid file, and the place of the record that comes next.
#[derive(Drop)]
pub struct Reader<'a> {
    file: &'a [u8],
    at: usize,
}

impl<'a> Reader<'a> {
    pub fn new(file: &'a [u8]) -> Reader<'a>
        ensures file { result.file ≡ file.entry }
        ensures bytes { result.file.now ≡ file.now }
        ensures start { result.at ≡ 0 }
    {
        Reader { file, at: 0 }
    }

    // Question 23, of the whole file.
    pub fn check(&self) -> Result<(), FileFault>
        ensures refusal { refused fault_number result ≡ first_no (length_questions self.now.file.now) }
        ensures place { WholeFile result }
    {
        if self.file.len() % 4 == 0 && self.file.len() <= MOST_BYTES {
            Ok(())
        } else {
            Err(FileFault {
                question: FileQuestion::Length,
                place: 0,
            })
        }
    }

    // Goes on behind a record of a kind.
    fn pass(&mut self, kind: Kind)
        requires { self.old.at + size (kind_number kind) ≤ words self.old.file.now }
        ensures file { self.new.file ≡ self.old.file }
        ensures bytes { self.new.file.now ≡ self.old.file.now }
        ensures place { self.new.at ≡ self.old.at + size (kind_number kind) }
    {
        self.at += kind.size();
    }

    // The next record, where those that are due are in turn, or none at the end.
    pub fn next(&mut self, due: Due) -> Result<Option<Placed<'a>>, FileFault>
        ensures answer { told result ≡ handed due (found self.old.file.now self.old.at) }
        ensures file { self.new.file ≡ self.old.file }
        ensures bytes { self.new.file.now ≡ self.old.file.now }
        ensures place { Moved self.old.file.now self.old.at self.new.at result }
        ensures laid { Laid self.old.file.now result }
    {
        if self.at >= count(self.file) {
            return end(due);
        }
        let placed = take(self.file, self.at, due)?;
        self.pass(placed.record.kind());
        Ok(Some(placed))
    }
}
