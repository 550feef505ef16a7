// The lines of a listing, and the faults that end a run.
#![tactic(auto)]

mod carried;
mod fault;
mod line;
mod results;
mod text;

pub use fault::{AuctionFault, Fault, Layer, Unopenable};
pub use line::Line;

#[cfg(test)]
mod tests {
    use super::*;
    use auction::Refusal;
    use bidfile::{FileFault, FileQuestion};
    use clearing::Ground;
    use curve::CurveRefusal;
    use ranking::Name;
    use std::alloc::Global;
    use std::process::Abort;
    use std::test::Fail;

    fn check_line(rt: &impl Abort, heap: Global, line: Line, text: &str) -> Result<(), Fail> {
        let printed = line.to_string(heap)?;
        assert!(rt; printed.as_str() == text);
        Ok(())
    }

    fn award(name: Name) -> Line {
        Line::Award {
            name,
            capacity: 10_000,
            years: 1,
        }
    }

    #[test]
    fn lines_as_text(rt: HostRuntime) -> Result<(), Fail> {
        let round = Line::Round {
            round: 1,
            cap: 7000,
            floor: 4000,
            capacity_in: 21400,
            demand: 20000,
        };
        let refused = Line::Refused {
            question: 18,
            place: 49,
        };
        let cleared = Line::Cleared {
            price: 3600,
            ground: Ground::NextTaken,
        };
        let table = [
            (round, "ROUND 1 CAP 7000 FLOOR 4000 IN 21400 DEMAND 20000"),
            (refused, "REFUSED 18 WORD 49"),
            (cleared, "CLEARED 3600 GROUND 4"),
            (award(*b"BECK-2  "), "AWARD BECK-2 10000 1"),
            (award(*b"LONGNAME"), "AWARD LONGNAME 10000 1"),
            (award(*b"        "), "AWARD  10000 1"),
            (Line::Unsettled, "UNSETTLED"),
        ];
        for (line, text) in table {
            check_line(&rt, rt.alloc(), line, text)?;
        }
        Ok(())
    }

    #[test]
    fn faults_as_text(rt: HostRuntime) -> Result<(), Fail> {
        let file = FileFault {
            question: FileQuestion::Kind,
            place: 12,
        };
        let table = [
            (Fault::from(file), "FAULT FILE 24 WORD 12"),
            (
                Fault::from(Unopenable::from(CurveRefusal::CornerCount)),
                "FAULT CURVE 1 WORD 0",
            ),
            (
                Fault::from(Unopenable::from(Refusal::Threshold)),
                "FAULT AUCTION 8 WORD 0",
            ),
            (
                Fault::from(AuctionFault::from(CurveRefusal::CornerCount)),
                "FAULT CURVE 1 WORD 0",
            ),
            (
                Fault::from(AuctionFault::from(Refusal::Threshold)),
                "FAULT AUCTION 8 WORD 0",
            ),
            (
                Fault::from(AuctionFault {
                    why: Unopenable::from(Refusal::Threshold),
                    place: 7,
                }),
                "FAULT AUCTION 8 WORD 7",
            ),
        ];
        for (fault, text) in table {
            check_line(&rt, rt.alloc(), Line::from(fault), text)?;
        }
        Ok(())
    }
}
