ghost use Rattle.std.specs.Prelude.{◌≡◌, ◌+◌, ◌<◌, ◌≤◌};
ghost use Rattle.bidfile.specs.Items.{kind_number, size};
ghost use Rattle.bidfile.specs.Words.{words, kind_at};

use crate::fault::FileQuestion;
use crate::kind::Kind;
use crate::records::{
    CurveChoice, Due, ExitRecord, OrderChoice, Record, SideChoice, TermsRecord, UnitRecord,
    YearsRecord,
};
use crate::words::{are_plain, count, kind, value};
use curve::Corner;

// The head word of a record, whose words are all there.
#[derive(Clone, Copy)]
pub(crate) struct Head<'a> {
    file: &'a [u8],
    at: usize,
    kind: Kind,
    ghost is: { kind_number kind ≡ kind_at file.now at },
    ghost whole: { at + size (kind_number kind) ≤ words file.now },
}

impl<'a> Head<'a> {
    ghost use Rattle.std.specs.Prelude.{IfOk, Ok, Err};
    ghost use Rattle.bidfile.specs.Found.{terms_at, unit_at, bare_at, found_at, item_at};
    ghost use Rattle.bidfile.specs.Items.{item_of};
    ghost use Rattle.bidfile.specs.Reading.{asked, read_out, told_record};
    ghost use Rattle.bidfile.specs.Words.{value_at};

    // Questions 24, 25 and 26 of the record at a place.
    pub(crate) fn find(file: &'a [u8], at: usize, due: Due) -> Result<Head<'a>, FileQuestion>
        requires { at < words file.now }
        ensures answer { elim result [ Ok head ↦ Ok tt | Err question ↦ Err question ] ≡ asked due (found_at file.now at) }
        ensures file { IfOk result (λ head. head.file ≡ file.entry) }
        ensures place { IfOk result (λ head. head.at ≡ at) }
    {
        let kind = Kind::try_from(kind(file, at))?;
        let operands = at + 1;
        if kind.size() > count(file) - at
            || !are_plain(file, operands, operands + kind.operands())
        {
            return Err(FileQuestion::Words);
        }
        if !due.admits(kind) {
            return Err(FileQuestion::Turn);
        }
        Ok(Head { file, at, kind })
    }

    // The value of one of its words.
    fn value(self, n: usize) -> u32
        requires { n < size (kind_number self.kind) }
        ensures { result ≡ value_at self.entry.file.now (self.entry.at + n) }
    {
        value(self.file, self.at + n)
    }

    fn terms(self) -> Result<Record<&'a [u8]>, FileQuestion>
        requires { size (kind_number self.kind) ≡ 5 }
        ensures { told_record result ≡ read_out (Ok tt) (terms_at self.entry.file.now self.entry.at) }
    {
        let curve = CurveChoice::try_from(self.value(3))?;
        let order = OrderChoice::try_from(self.value(4))?;
        Ok(Record::Terms(TermsRecord {
            cap: self.value(0),
            spread: self.value(1),
            threshold: self.value(2),
            curve,
            order,
        }))
    }

    fn unit(self) -> Result<Record<&'a [u8]>, FileQuestion>
        requires { size (kind_number self.kind) ≡ 7 }
        ensures { told_record result ≡ read_out (Ok tt) (unit_at self.entry.file.now self.entry.at) }
    {
        let side = SideChoice::try_from(self.value(2))?;
        let first = 4 * (self.at + 5);
        Ok(Record::Unit(UnitRecord {
            capacity: self.value(0),
            class: self.value(1),
            side,
            years: self.value(3),
            random: self.value(4),
            name: &self.file[first..first + 8],
        }))
    }

    // The values of a record of two words.
    fn pair(self) -> (u32, u32)
        requires { size (kind_number self.kind) ≡ 2 }
        ensures { result ≡ (value_at self.entry.file.now self.entry.at, value_at self.entry.file.now (self.entry.at + 1)) }
    {
        (self.value(0), self.value(1))
    }

    // A record of one word, whose value is 0.
    fn bare(self, record: Record<&'a [u8]>) -> Result<Record<&'a [u8]>, FileQuestion>
        ensures { told_record result ≡ read_out (Ok tt) (bare_at (item_of «record».entry) self.entry.file.now self.entry.at) }
    {
        if self.value(0) == 0 {
            Ok(record)
        } else {
            Err(FileQuestion::Fields)
        }
    }

    // Question 27: the record, if its fields are right.
    pub(crate) fn record(self) -> Result<Record<&'a [u8]>, FileQuestion>
        ensures { told_record result ≡ read_out (Ok tt) (item_at self.entry.file.now self.entry.at) }
    {
        match self.kind {
            Kind::Terms => self.terms(),
            Kind::Corner => {
                let (quantity, price) = self.pair();
                Ok(Record::Corner(Corner { quantity, price }))
            }
            Kind::Unit => self.unit(),
            Kind::Exit => {
                let (unit, price) = self.pair();
                Ok(Record::Exit(ExitRecord { unit, price }))
            }
            Kind::Years => {
                let (unit, years) = self.pair();
                Ok(Record::Years(YearsRecord { unit, years }))
            }
            Kind::StepBack => self.bare(Record::StepBack),
            Kind::Close => self.bare(Record::Close),
        }
    }
}
