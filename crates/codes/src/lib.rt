// The codes of document 01, "Codes": what a G or an M number means.
#![tactic(auto)]

mod printing;

ghost use Rattle.std.specs.Prelude.{◌≡◌};
ghost use Rattle.codes.specs.Codes.{code_of, misc_of, group_of, cycle_number, plane_number, NumbersPlane};

#[derive(Clone, Copy, PartialEq, Eq)]
pub enum Cycle {
    G81,
    G82,
    G85,
    G89,
}

// Group A. Off is what G80 leaves, and what a run starts with.
#[derive(Clone, Copy, PartialEq, Eq)]
pub enum Motion {
    Off,
    G00,
    G01,
    G02,
    G03,
    Drilling(Cycle),
}

// Group B.
#[derive(Clone, Copy, PartialEq, Eq)]
pub enum Plane {
    G17,
    G18,
    G19,
}

// Group C: G20 and G21.
#[derive(Clone, Copy, PartialEq, Eq)]
pub enum Unit {
    Inch,
    Millimetre,
}

// Group D: G90 and G91.
#[derive(Clone, Copy, PartialEq, Eq)]
pub enum Distance {
    Absolute,
    Incremental,
}

// Group F: G98 and G99, where a cycle's passes end.
#[derive(Clone, Copy, PartialEq, Eq)]
pub enum Return {
    ToInitial,
    ToR,
}

// A G number: its group, and in it its meaning. Group E is the place in the table of origins, from 0.
#[derive(Clone, Copy, PartialEq, Eq)]
pub enum Code {
    GroupA(Motion),
    GroupB(Plane),
    GroupC(Unit),
    GroupD(Distance),
    GroupE(usize),
    GroupF(Return),
    G04,
    Unknown,
}

// An M number.
#[derive(Clone, Copy, PartialEq, Eq)]
pub enum Misc {
    M00,
    M02,
    M03,
    M05,
    M30,
    M98,
    M99,
    Other,
}

// Group B in the order of its numbers.
const PLANES: [Plane; 3] = [Plane::G17, Plane::G18, Plane::G19];

// What a G number means.
pub fn code_of(n: u64) -> Code
    ensures { result ≡ code_of n }
{
    match n {
        0 => Code::GroupA(Motion::G00),
        1 => Code::GroupA(Motion::G01),
        2 => Code::GroupA(Motion::G02),
        3 => Code::GroupA(Motion::G03),
        80 => Code::GroupA(Motion::Off),
        81 => Code::GroupA(Motion::Drilling(Cycle::G81)),
        82 => Code::GroupA(Motion::Drilling(Cycle::G82)),
        85 => Code::GroupA(Motion::Drilling(Cycle::G85)),
        89 => Code::GroupA(Motion::Drilling(Cycle::G89)),
        17..=19 => Code::GroupB(PLANES[(n - 17) as usize]),
        20 => Code::GroupC(Unit::Inch),
        21 => Code::GroupC(Unit::Millimetre),
        90 => Code::GroupD(Distance::Absolute),
        91 => Code::GroupD(Distance::Incremental),
        54..=59 => Code::GroupE((n - 54) as usize),
        98 => Code::GroupF(Return::ToInitial),
        99 => Code::GroupF(Return::ToR),
        4 => Code::G04,
        _ => Code::Unknown,
    }
}

// What an M number means.
pub fn misc_of(n: u64) -> Misc
    ensures { result ≡ misc_of n }
{
    match n {
        0 => Misc::M00,
        2 => Misc::M02,
        3 => Misc::M03,
        5 => Misc::M05,
        30 => Misc::M30,
        98 => Misc::M98,
        99 => Misc::M99,
        _ => Misc::Other,
    }
}

// The group as a number: its place in the reader's array of the groups that stood. An unknown code is in none and has 0.
pub fn group_of(c: Code) -> u64
    ensures { result ≡ group_of c }
{
    match c {
        Code::GroupA(_) => 1,
        Code::GroupB(_) => 2,
        Code::GroupC(_) => 3,
        Code::GroupD(_) => 4,
        Code::GroupE(_) => 5,
        Code::GroupF(_) => 6,
        Code::G04 => 7,
        Code::Unknown => 0,
    }
}

pub fn cycle_number(c: Cycle) -> u64
    ensures { result ≡ cycle_number c }
{
    match c {
        Cycle::G81 => 81,
        Cycle::G82 => 82,
        Cycle::G85 => 85,
        Cycle::G89 => 89,
    }
}

// The number of a plane's code.
impl From<Plane> for u8 {
    ghost from_gives = { λ plane n. n ≡ plane_number plane };

    fn from(plane: Plane) -> u8 {
        match plane {
            Plane::G17 => 17,
            Plane::G18 => 18,
            Plane::G19 => 19,
        }
    }
}

// A number that no plane's code has.
#[derive(Clone, Copy, PartialEq, Eq)]
pub struct NoPlane(pub u8);

impl TryFrom<u8> for Plane {
    type Error = NoPlane;

    ghost try_from_gives = { NumbersPlane };

    fn try_from(n: u8) -> Result<Plane, NoPlane> {
        match n {
            17 => Ok(Plane::G17),
            18 => Ok(Plane::G18),
            19 => Ok(Plane::G19),
            _ => Err(NoPlane(n)),
        }
    }
}
