// Tests of the auction at both sides of the edge of each question, in a crate of their own so that the auction is not
// proved twice.
#![tactic(auto)]

#[cfg(test)]
mod tests {
    use auction::{
        Auction, Closed, EnrolmentClock, OpenClock, Prices, Refusal, Setting, SettledClock,
        check_open,
    };
    use book::{Application, Room, Side};
    use curve::{Corner, Stepped};
    use ranking::{ByName, Exit, Name, RollRow};
    use std::alloc::Global;
    use std::process::Abort;
    use std::test::Fail;

    type Rehearsal = Auction<Stepped, ByName<Exit>>;

    const UNIT: Application = Application {
        capacity: 1_000,
        class: 2,
        side: Side::Maker,
        years: 15,
        random: 0,
        name: *b"UNIT    ",
    };

    // The number of the question that was answered "no", if any.
    fn refused<T: Drop>(answer: Result<T, Refusal>) -> Option<u32> {
        answer.err().map(u32::from)
    }

    // 100,000,000 kW are wanted up to a price.
    fn curve_up_to(heap: Global, price: u32) -> Result<Stepped, Fail> {
        let corners = [Corner {
            quantity: 100_000_000,
            price,
        }];
        Stepped::make(corners.to_vec(heap)?).map_err(|_| Fail::new("no curve"))
    }

    fn curve(heap: Global) -> Result<Stepped, Fail> {
        curve_up_to(heap, 9_000)
    }

    fn prices(cap: u32, spread: u32, threshold: u32) -> Prices {
        Prices {
            cap,
            spread,
            threshold,
        }
    }

    fn open(heap: Global, number: u16) -> Result<(Rehearsal, EnrolmentClock), Fail> {
        let setting = Setting {
            curve: curve(heap)?,
            order: ByName::default(),
            room: Room::new(heap)?,
        };
        Auction::open(number, prices(9_000, 1_000, 8_500), setting).map_err(|_| Fail::new(
            "not opened",
        ))
    }

    fn begin(
        mut auction: Rehearsal,
        clock: EnrolmentClock,
    ) -> Result<(Rehearsal, OpenClock), Fail> {
        let open = auction.begin(clock).map_err(|_| Fail::new("not begun"))?;
        Ok((auction, open))
    }

    // An auction in round 1 with a maker of 15 years, unit 0, and a taker, unit 1.
    fn begun(rt: &impl Abort, heap: Global) -> Result<(Rehearsal, OpenClock), Fail> {
        let (mut auction, clock) = open(heap, 7)?;
        let taker = Application {
            side: Side::Taker,
            name: *b"TAKER   ",
            ..UNIT
        };
        assert_eq!(rt; refused(auction.enrol(&clock, &UNIT)), None);
        assert_eq!(rt; refused(auction.enrol(&clock, &taker)), None);
        begin(auction, clock)
    }

    #[test]
    fn opening(rt: HostRuntime) -> Result<(), Fail> {
        let wanted = curve(rt.alloc())?;
        assert_eq!(rt; refused(check_open(prices(0, 1, 0), &wanted)), Some(6));
        assert_eq!(rt; refused(check_open(prices(1, 1, 0), &wanted)), None);
        assert_eq!(rt;
            refused(check_open(prices(9_000, 9_000, 9_000), &wanted)),
            None
        );
        assert_eq!(rt; refused(check_open(prices(9_001, 1, 0), &wanted)), Some(6));
        assert_eq!(rt; refused(check_open(prices(9_000, 0, 0), &wanted)), Some(7));
        assert_eq!(rt;
            refused(check_open(prices(9_000, 9_001, 0), &wanted)),
            Some(7)
        );
        assert_eq!(rt;
            refused(check_open(prices(9_000, 1, 9_001), &wanted)),
            Some(8)
        );
        Ok(())
    }

    #[test]
    fn another_auctions_clock(rt: HostRuntime) -> Result<(), Fail> {
        let (mut auction, clock) = open(rt.alloc(), 7)?;
        let (_, foreign) = open(rt.alloc(), 8)?;
        assert_eq!(rt; refused(auction.enrol(&foreign, &UNIT)), Some(9));
        assert_eq!(rt; refused(auction.enrol(&clock, &UNIT)), None);
        Ok(())
    }

    // A maker that applies so.
    fn maker(capacity: u32, class: u32, years: u32, name: Name) -> Application {
        Application {
            capacity,
            class,
            years,
            name,
            ..UNIT
        }
    }

    // Enrols these units, and checks what each call answers.
    fn check_enrols(
        rt: &impl Abort,
        auction: &mut Rehearsal,
        clock: &EnrolmentClock,
        cases: &[(Application, Option<u32>)],
    ) {
        for (unit, due) in cases {
            assert_eq!(rt; refused(auction.enrol(clock, unit)), *due);
        }
    }

    #[test]
    fn enrolling(rt: HostRuntime) -> Result<(), Fail> {
        let (mut auction, clock) = open(rt.alloc(), 7)?;
        let cases = [
            (maker(999, 2, 15, UNIT.name), Some(11)),
            (maker(5_000_001, 2, 15, UNIT.name), Some(11)),
            (maker(5_000_000, 4, 15, UNIT.name), Some(13)),
            (maker(5_000_000, 1, 4, UNIT.name), Some(13)),
            (maker(5_000_000, 1, 0, UNIT.name), Some(13)),
            (maker(5_000_000, 1, 3, *b"A B     "), Some(14)),
            (maker(5_000_000, 1, 3, *b"        "), Some(14)),
            (maker(5_000_000, 1, 3, *b"A-9     "), None),
            (maker(5_000_000, 1, 3, *b"A-9     "), Some(14)),
        ];
        check_enrols(&rt, &mut auction, &clock, &cases);
        Ok(())
    }

    #[test]
    fn leaving(rt: HostRuntime) -> Result<(), Fail> {
        let (mut auction, clock) = begun(&rt, rt.alloc())?;
        assert_eq!(rt; refused(auction.exit(&clock, 2, 9_000)), Some(15));
        assert_eq!(rt; refused(auction.exit(&clock, 0, 8_000)), Some(17));
        assert_eq!(rt; refused(auction.exit(&clock, 0, 9_001)), Some(17));
        assert_eq!(rt; refused(auction.exit(&clock, 1, 8_501)), Some(18));
        assert_eq!(rt; refused(auction.exit(&clock, 1, 8_500)), None);
        assert_eq!(rt; refused(auction.exit(&clock, 1, 8_500)), Some(16));
        assert_eq!(rt; refused(auction.exit(&clock, 0, 8_001)), None);
        assert_eq!(rt; refused(auction.step_back(&clock)), None);
        assert_eq!(rt; refused(auction.exit(&clock, 0, 9_000)), None);
        Ok(())
    }

    #[test]
    fn fewer_years_and_back(rt: HostRuntime) -> Result<(), Fail> {
        let (mut auction, clock) = begun(&rt, rt.alloc())?;
        assert_eq!(rt; refused(auction.step_back(&clock)), Some(21));
        assert_eq!(rt; refused(auction.years(&clock, 2, 1)), Some(15));
        assert_eq!(rt; refused(auction.years(&clock, 0, 0)), Some(19));
        assert_eq!(rt; refused(auction.years(&clock, 0, 15)), Some(19));
        assert_eq!(rt; refused(auction.years(&clock, 0, 10)), None);
        assert_eq!(rt; refused(auction.years(&clock, 0, 5)), None);
        assert_eq!(rt; refused(auction.step_back(&clock)), None);
        // ten years again, not fifteen
        assert_eq!(rt; refused(auction.years(&clock, 0, 10)), Some(19));
        assert_eq!(rt; refused(auction.years(&clock, 0, 9)), None);
        Ok(())
    }

    // A name of its own for each number below 1,000.
    fn name_of(n: u32) -> Name {
        let digit = |k: u32| b'0' + (k % 10) as u8;
        let mut name = *b"UNIT000 ";
        name[4] = digit(n / 100);
        name[5] = digit(n / 10);
        name[6] = digit(n);
        name
    }

    // Enrols units of this capacity under the names of the numbers from 0 on, and checks that each is accepted.
    fn enrol_many(
        rt: &impl Abort,
        auction: &mut Rehearsal,
        clock: &EnrolmentClock,
        count: u32,
        capacity: u32,
    ) {
        for n in 0..count {
            let unit = maker(capacity, UNIT.class, UNIT.years, name_of(n));
            check_enrols(rt, auction, clock, &[(unit, None)]);
        }
    }

    // Makes a call for each case, of a unit with a price or with years, and checks what it answers.
    fn check_calls<F: FnMut(usize, u32) -> Result<(), Refusal>>(
        rt: &impl Abort,
        mut call: F,
        cases: &[(usize, u32, Option<u32>)],
    )
        requires { F.IsAlwaysCallable call }
    {
        for (unit, number, due) in cases.iter().copied() {
            assert_eq!(rt; refused(call(unit, number)), due);
        }
    }

    #[test]
    fn opening_at_the_highest_cap(rt: HostRuntime) -> Result<(), Fail> {
        let wanted = curve_up_to(rt.alloc(), 10_000)?;
        assert_eq!(rt; refused(check_open(prices(10_000, 1, 0), &wanted)), None);
        assert_eq!(rt; refused(check_open(prices(10_001, 1, 0), &wanted)), Some(6));
        Ok(())
    }

    #[test]
    fn least_capacity_and_most_years(rt: HostRuntime) -> Result<(), Fail> {
        let (mut auction, clock) = open(rt.alloc(), 7)?;
        let cases = [
            (maker(1_000, 1, 1, *b"B       "), None),
            (maker(1_000, 2, 16, *b"C       "), Some(13)),
            (maker(1_000, 2, 15, *b"C       "), None),
            (maker(1_000, 0, 2, *b"D       "), Some(13)),
            (maker(1_000, 0, 1, *b"D       "), None),
            (maker(1_000, 3, 2, *b"E       "), Some(13)),
            (maker(1_000, 3, 1, *b"E       "), None),
        ];
        check_enrols(&rt, &mut auction, &clock, &cases);
        Ok(())
    }

    #[test]
    fn as_much_as_the_ceiling(rt: HostRuntime) -> Result<(), Fail> {
        let (mut auction, clock) = open(rt.alloc(), 7)?;
        enrol_many(&rt, &mut auction, &clock, 39, 5_000_000);
        let cases = [
            (maker(4_999_000, 2, 15, *b"A       "), None),
            (maker(1_001, 2, 15, *b"B       "), Some(12)),
            (maker(1_000, 2, 15, *b"B       "), None),
            (maker(1_000, 2, 15, *b"C       "), Some(12)),
        ];
        check_enrols(&rt, &mut auction, &clock, &cases);
        Ok(())
    }

    #[test]
    fn as_many_as_there_is_room_for(rt: HostRuntime) -> Result<(), Fail> {
        let (mut auction, clock) = open(rt.alloc(), 7)?;
        enrol_many(&rt, &mut auction, &clock, 512, 1_000);
        assert_eq!(rt; refused(auction.enrol(&clock, &UNIT)), Some(10));
        let (mut auction, clock) = begin(auction, clock)?;
        for unit in 0..512 {
            let years = |unit: usize, years: u32| auction.years(&clock, unit, years);
            check_calls(&rt, years, &[(unit, 14, None), (unit, 13, None)]);
        }
        // with 1,024 entries a wrong price is still a wrong price
        assert_eq!(rt; refused(auction.years(&clock, 0, 12)), Some(20));
        let exit = |unit: usize, price: u32| auction.exit(&clock, unit, price);
        check_calls(&rt, exit, &[(0, 9_001, Some(17)), (0, 9_000, Some(20))]);
        assert_eq!(rt; refused(auction.step_back(&clock)), None);
        let exit = |unit: usize, price: u32| auction.exit(&clock, unit, price);
        check_calls(&rt, exit, &[(0, 9_000, None), (1, 9_000, Some(20))]);
        Ok(())
    }

    #[test]
    fn fewest_years(rt: HostRuntime) -> Result<(), Fail> {
        let (mut auction, clock) = begun(&rt, rt.alloc())?;
        let years = |unit: usize, years: u32| auction.years(&clock, unit, years);
        check_calls(&rt, years, &[(0, 1, None), (0, 1, Some(19))]);
        Ok(())
    }

    // What stands in the rows that are lent for a roll.
    const UNWRITTEN: RollRow = RollRow {
        name: [0; 8],
        capacity: 0,
        years: 0,
        unit: 9,
    };

    // Asks for the roll with these rows, and checks what it answers and how many of them were written.
    fn check_roll(
        rt: &impl Abort,
        auction: &Rehearsal,
        clock: &SettledClock,
        rows: &mut [RollRow],
        due: Option<u32>,
        written: usize,
    ) {
        assert_eq!(rt; refused(auction.roll(clock, rows)), due);
        let count = rows.iter().filter(|row| **row != UNWRITTEN).count();
        assert_eq!(rt; count, written);
    }

    #[test]
    fn a_roll_of_two(rt: HostRuntime) -> Result<(), Fail> {
        let (mut auction, clock) = begun(&rt, rt.alloc())?;
        let Ok((_, Closed::Settled(settled))) = auction.close(clock) else {
            return Err(Fail::new("not settled"));
        };
        let mut rows = [UNWRITTEN; 1];
        check_roll(&rt, &auction, &settled, &mut rows, Some(22), 0);
        let mut rows = [UNWRITTEN; 2];
        check_roll(&rt, &auction, &settled, &mut rows, None, 2);
        let mut rows = [UNWRITTEN; 3];
        check_roll(&rt, &auction, &settled, &mut rows, None, 2);
        Ok(())
    }
}
