ghost use Rattle.std.specs.Prelude.{◌≡◌};

use crate::kind::Kind;
use curve::Corner;

// The demand curve that a file selects.
#[derive(Clone, Copy, PartialEq, Eq, Debug)]
pub enum CurveChoice {
    Straight,
    Stepped,
}

// The order of ties that a file selects.
#[derive(Clone, Copy, PartialEq, Eq, Debug)]
pub enum OrderChoice {
    ByRule,
    ByName,
}

// The side of a unit.
#[derive(Clone, Copy, PartialEq, Eq, Debug)]
pub enum SideChoice {
    Taker,
    Maker,
}

#[derive(Clone, Copy, PartialEq, Eq, Debug)]
pub struct TermsRecord {
    pub cap: u32,
    pub spread: u32,
    pub threshold: u32,
    pub curve: CurveChoice,
    pub order: OrderChoice,
}

// A unit, by what holds the eight bytes of its name: the file that it was read from, or an array.
#[derive(Clone, Copy, PartialEq, Eq, Debug)]
pub struct UnitRecord<N> {
    pub capacity: u32,
    pub class: u32,
    pub side: SideChoice,
    pub years: u32,
    pub random: u32,
    pub name: N,
}

#[derive(Clone, Copy, PartialEq, Eq, Debug)]
pub struct ExitRecord {
    pub unit: u32,
    pub price: u32,
}

#[derive(Clone, Copy, PartialEq, Eq, Debug)]
pub struct YearsRecord {
    pub unit: u32,
    pub years: u32,
}

// A record of a bid file, by what holds the name of a unit.
#[derive(Clone, Copy, PartialEq, Eq, Debug)]
pub enum Record<N> {
    Terms(TermsRecord),
    Corner(Corner),
    Unit(UnitRecord<N>),
    Exit(ExitRecord),
    Years(YearsRecord),
    StepBack,
    Close,
}

// A record with the place of its head word; its name is the eight bytes that stand in the file.
#[derive(Clone, Copy, PartialEq, Eq, Debug)]
pub struct Placed<'a> {
    pub place: usize,
    pub record: Record<&'a [u8]>,
}

impl<N> Record<N> {
    ghost use Rattle.std.specs.Prelude.{ℕ, List};
    ghost use Rattle.bidfile.specs.Items.{kind_number, item_with, item_kind};

    // Its kind.
    pub fn kind(&self) -> Kind
        ensures { (bytes : N → List ℕ) → kind_number result ≡ item_kind (item_with bytes self.now) }
    {
        match self {
            Record::Terms(_) => Kind::Terms,
            Record::Corner(_) => Kind::Corner,
            Record::Unit(_) => Kind::Unit,
            Record::Exit(_) => Kind::Exit,
            Record::Years(_) => Kind::Years,
            Record::StepBack => Kind::StepBack,
            Record::Close => Kind::Close,
        }
    }
}

// Which records are in turn: the terms alone; corners and all that comes later; units and all that comes later; exits,
// years, steps back and closes; or none.
#[derive(Clone, Copy, PartialEq, Eq, Debug)]
pub enum Due {
    Terms,
    Corners,
    Units,
    Entries,
    Nothing,
}

impl Due {
    ghost use Rattle.bidfile.specs.Items.{kind_number, in_turn, may_end};

    // Whether a record of a kind is in turn.
    pub(crate) fn admits(self, kind: Kind) -> bool
        ensures { result ≡ in_turn self (kind_number kind) }
    {
        match self {
            Due::Terms => kind == Kind::Terms,
            Due::Corners => kind >= Kind::Corner,
            Due::Units => kind >= Kind::Unit,
            Due::Entries => kind >= Kind::Exit,
            Due::Nothing => false,
        }
    }

    // Whether the file may end.
    pub(crate) fn admits_end(self) -> bool
        ensures { result ≡ may_end self }
    {
        self != Due::Terms
    }
}
