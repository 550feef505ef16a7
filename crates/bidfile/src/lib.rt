// Bid files: their words, their records, and the reader that hands the records out.
#![tactic(auto)]

mod choices;
mod fault;
mod head;
mod kind;
mod layout;
mod reader;
mod records;
mod words;

pub use fault::{FileFault, FileQuestion};
pub use kind::Kind;
pub use layout::layout_holds;
pub use reader::{MOST_BYTES, Reader};
pub use records::{
    CurveChoice, Due, ExitRecord, OrderChoice, Placed, Record, SideChoice, TermsRecord, UnitRecord,
    YearsRecord,
};

#[cfg(test)]
mod tests {
    use super::*;

    // Head value and last operand.
    fn ends_of(record: &Record<&[u8]>) -> (u32, Option<u32>) {
        match record {
            Record::Terms(terms) => (terms.cap, Some(u32::from(terms.order))),
            Record::Corner(corner) => (corner.quantity, Some(corner.price)),
            Record::Unit(unit) => (unit.capacity, Some(unit.random)),
            Record::Exit(exit) => (exit.unit, Some(exit.price)),
            Record::Years(years) => (years.unit, Some(years.years)),
            Record::StepBack | Record::Close => (0, None),
        }
    }

    fn is_next(reader: &mut Reader<'_>, step: &Step) -> bool {
        let Ok(Some(placed)) = reader.next(step.due) else {
            return false;
        };
        placed.record.kind() == step.kind
            && placed.place == step.place
            && ends_of(&placed.record) == (step.head, step.last)
    }

    // The number of the fault at the front of a file.
    fn fault(file: &[u8], due: Due) -> Option<u32> {
        Reader::new(file).next(due).err().map(u32::from)
    }

    const FILE: [u8; 80] = [
        0x10, 0x00, 0x1B, 0x58, 0, 0, 0x0B, 0xB8, 0, 0, 0x09, 0xC4, 0, 0, 0, 1, 0, 0, 0, 1, // terms
        0x20, 0x00, 0x27, 0x10, 0, 0, 0x1B, 0x58, // corner
        0x30, 0x00, 0x23, 0x28, 0, 0, 0, 0, 0, 0, 0, 1, 0, 0, 0, 1, 0, 0, 0, 4, // unit
        0x48, 0x4F, 0x4C, 0x54, 0xFF, 0x31, 0x20, 0x20, // its name
        0x40, 0, 0, 4, 0, 0, 0x13, 0x88, // exit
        0x50, 0, 0, 2, 0, 0, 0, 0x0A, // years
        0x60, 0, 0, 0, 0x70, 0, 0, 0, // step back and close
    ];

    // What comes next, by kind, place, head value and last operand.
    #[derive(Clone, Copy)]
    struct Step {
        due: Due,
        kind: Kind,
        place: usize,
        head: u32,
        last: Option<u32>,
    }

    fn expected(due: Due, kind: Kind, place: usize, head: u32, last: Option<u32>) -> Step {
        Step {
            due,
            kind,
            place,
            head,
            last,
        }
    }

    #[test]
    fn one_record_of_each_kind(rt: HostRuntime) {
        let steps = [
            expected(Due::Terms, Kind::Terms, 0, 7_000, Some(1)),
            expected(Due::Corners, Kind::Corner, 5, 10_000, Some(7_000)),
            expected(Due::Corners, Kind::Unit, 7, 9_000, Some(4)),
            expected(Due::Units, Kind::Exit, 14, 4, Some(5_000)),
            expected(Due::Entries, Kind::Years, 16, 2, Some(10)),
            expected(Due::Entries, Kind::StepBack, 18, 0, None),
            expected(Due::Entries, Kind::Close, 19, 0, None),
        ];
        let mut reader = Reader::new(&FILE);
        for step in &steps {
            assert!(rt; is_next(&mut reader, step));
        }
        assert!(rt; matches!(reader.next(Due::Nothing), Ok(None)));
    }

    // A file of two words, what is due, and the number of the fault.
    #[derive(Clone, Copy)]
    struct Front {
        file: [u8; 8],
        due: Due,
        fault: Option<u32>,
    }

    fn case(file: [u8; 8], due: Due, fault: Option<u32>) -> Front {
        Front { file, due, fault }
    }

    #[test]
    fn faults_at_the_front(rt: HostRuntime) {
        let fronts = [
            case([0; 8], Due::Nothing, Some(24)),
            case([0x80, 0, 0, 0, 0, 0, 0, 0], Due::Entries, Some(24)),
            // an operand of kind 1, and 25 before the turn
            case([0x20, 0, 0, 1, 0x10, 0, 0, 0], Due::Nothing, Some(25)),
            case([0x20, 0, 0, 1, 0, 0, 0, 0], Due::Units, Some(26)),
            case([0x20, 0, 0, 1, 0, 0, 0, 0], Due::Corners, None),
            // a close with value 1
            case([0x70, 0, 0, 1, 0, 0, 0, 0], Due::Nothing, Some(26)),
            case([0x70, 0, 0, 1, 0, 0, 0, 0], Due::Entries, Some(27)),
            case([0x70, 0, 0, 0, 0, 0, 0, 0], Due::Entries, None),
        ];
        for front in &fronts {
            assert_eq!(rt; fault(&front.file, front.due), front.fault);
        }
    }

    #[test]
    fn lengths_and_ends(rt: HostRuntime) {
        assert_eq!(rt; fault(&[], Due::Terms), Some(26));
        assert_eq!(rt; fault(&[], Due::Corners), None);
        assert_eq!(rt; fault(&[0x20, 0, 0, 1], Due::Nothing), Some(25));
        let long = [0; 65_536];
        assert!(rt; Reader::new(&long[0..65_532]).check().is_ok());
        assert!(rt; Reader::new(&long).check().is_err());
        assert!(rt; Reader::new(&long[0..3]).check().is_err());
    }
}
