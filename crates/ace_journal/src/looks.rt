// What is looked for among the rows of the line where a clause is broken.
ghost use Rattle.std.specs.Prelude.{◌≡◌};
ghost use Rattle.ace_journal.specs.Looks.{k11_looks, k12_looks, k13_looks, k15_looks, k16_looks, k17_looks, k18_looks, k19_looks, k20_looks, k21_looks, k23_looks, k24_looks, k25_looks, k26_looks, k28_looks, k29_looks, k30_looks, k31_looks, k32_looks, k33_looks, k5_looks, k6_looks, k8_looks, later_looks, looks_of, middle_looks, nothing, one, two};

use ace_clauses::Letter;

/// What is looked for among the rows of the line, by the port of the event.
#[derive(Clone, Copy)]
pub enum Look {
    /// The AR or AW of the port.
    Issue,
    /// An AR or AW, whoever's it is.
    OtherUse,
    /// A grant of the line.
    Grant,
    /// A snoop of the port.
    Snoop,
    /// A snoop that no CR of its port has answered since.
    Unanswered,
    /// An answer of the port with data.
    DataAnswer,
    /// An answer under the grant that passes the dirty line.
    PassedDirty,
    /// An answer under the grant that keeps the line.
    Kept,
    /// A transfer to the granted read.
    Begun,
    /// A transfer to the port since its AR.
    Transfer,
    /// Write data of the port since its AW.
    Sent,
    /// A B of the port since its AW.
    Response,
    /// A write of memory for the port since its AR or AW.
    OwnWrite,
    /// A write of memory.
    MemoryWrite,
    /// A store of the port.
    Store,
    /// What leaves the line in its state at the port, if no store of it came since.
    State,
    /// An exclusive load of the port.
    ExclusiveLoad,
    /// An exclusive store of the port since its exclusive load.
    ExclusiveStore,
    /// What leaves the line in I at the port since its exclusive load.
    Lost,
}

/// At most two looks.
#[derive(Clone, Copy)]
pub struct Looks {
    pub first: Option<Look>,
    pub second: Option<Look>,
}

fn nothing() -> Looks
    ensures { result ≡ nothing }
{
    Looks {
        first: None,
        second: None,
    }
}

fn one(look: Look) -> Looks
    ensures { result ≡ one look }
{
    Looks {
        first: Some(look),
        second: None,
    }
}

fn two(look: Look, other: Look) -> Looks
    ensures { result ≡ two look other }
{
    Looks {
        first: Some(look),
        second: Some(other),
    }
}

/// Of a clause of rule 5.
fn k5_looks(letter: Letter) -> Looks
    ensures { result ≡ k5_looks letter }
{
    match letter {
        Letter::A => one(Look::Issue),
        _ => nothing(),
    }
}

/// Of a clause of rule 6.
fn k6_looks(letter: Letter) -> Looks
    ensures { result ≡ k6_looks letter }
{
    match letter {
        Letter::A => one(Look::State),
        _ => nothing(),
    }
}

/// Of a clause of rule 8.
fn k8_looks(letter: Letter) -> Looks
    ensures { result ≡ k8_looks letter }
{
    match letter {
        Letter::A => one(Look::OtherUse),
        _ => nothing(),
    }
}

/// Of a clause of rule 11.
fn k11_looks(letter: Letter) -> Looks
    ensures { result ≡ k11_looks letter }
{
    match letter {
        Letter::B => one(Look::Sent),
        Letter::C => one(Look::Issue),
        Letter::D => two(Look::Issue, Look::Store),
        _ => nothing(),
    }
}

/// Of a clause of rule 12.
fn k12_looks(letter: Letter) -> Looks
    ensures { result ≡ k12_looks letter }
{
    match letter {
        Letter::B => one(Look::Issue),
        Letter::C | Letter::D => one(Look::Grant),
        _ => nothing(),
    }
}

/// Of a clause of rule 13.
fn k13_looks(letter: Letter) -> Looks
    ensures { result ≡ k13_looks letter }
{
    match letter {
        Letter::B | Letter::C | Letter::D => one(Look::Grant),
        Letter::E => two(Look::Grant, Look::Begun),
        Letter::F => one(Look::Snoop),
        Letter::G => one(Look::Response),
        _ => nothing(),
    }
}

/// Of a clause of rule 15.
fn k15_looks(letter: Letter) -> Looks
    ensures { result ≡ k15_looks letter }
{
    match letter {
        Letter::A | Letter::B | Letter::D => two(Look::Snoop, Look::State),
        _ => nothing(),
    }
}

/// Of a clause of rule 16.
fn k16_looks(letter: Letter) -> Looks
    ensures { result ≡ k16_looks letter }
{
    match letter {
        Letter::A | Letter::B | Letter::C => two(Look::Snoop, Look::Issue),
        _ => nothing(),
    }
}

/// Of a clause of rule 17.
fn k17_looks(letter: Letter) -> Looks
    ensures { result ≡ k17_looks letter }
{
    match letter {
        Letter::B | Letter::C => one(Look::DataAnswer),
        _ => nothing(),
    }
}

/// Of a clause of rule 18.
fn k18_looks(letter: Letter) -> Looks
    ensures { result ≡ k18_looks letter }
{
    match letter {
        Letter::B => one(Look::Transfer),
        Letter::C => two(Look::Issue, Look::Transfer),
        Letter::D => one(Look::Issue),
        Letter::E => two(Look::Grant, Look::Unanswered),
        Letter::F | Letter::G => one(Look::Grant),
        Letter::H | Letter::I => two(Look::Grant, Look::PassedDirty),
        _ => nothing(),
    }
}

/// Of a clause of rule 19.
fn k19_looks(letter: Letter) -> Looks
    ensures { result ≡ k19_looks letter }
{
    match letter {
        Letter::B | Letter::C => one(Look::Issue),
        Letter::E => two(Look::Grant, Look::Kept),
        Letter::F => one(Look::Transfer),
        _ => nothing(),
    }
}

/// Of a clause of rule 20.
fn k20_looks(letter: Letter) -> Looks
    ensures { result ≡ k20_looks letter }
{
    match letter {
        Letter::A => one(Look::Issue),
        Letter::B => two(Look::Issue, Look::MemoryWrite),
        _ => nothing(),
    }
}

/// Of a clause of rule 21.
fn k21_looks(letter: Letter) -> Looks
    ensures { result ≡ k21_looks letter }
{
    match letter {
        Letter::A | Letter::C => one(Look::Issue),
        Letter::B => two(Look::Issue, Look::Grant),
        _ => nothing(),
    }
}

/// Of a clause of rule 23.
fn k23_looks(letter: Letter) -> Looks
    ensures { result ≡ k23_looks letter }
{
    match letter {
        Letter::A => two(Look::Transfer, Look::State),
        Letter::B => one(Look::Issue),
        _ => nothing(),
    }
}

/// Of a clause of rule 24.
fn k24_looks(letter: Letter) -> Looks
    ensures { result ≡ k24_looks letter }
{
    match letter {
        Letter::B | Letter::F => one(Look::Issue),
        Letter::C | Letter::I => one(Look::PassedDirty),
        Letter::D => one(Look::Transfer),
        Letter::E => one(Look::Sent),
        Letter::G => two(Look::Grant, Look::Unanswered),
        Letter::H => one(Look::OwnWrite),
        _ => nothing(),
    }
}

/// Of a clause of rule 25.
fn k25_looks(letter: Letter) -> Looks
    ensures { result ≡ k25_looks letter }
{
    match letter {
        Letter::A => one(Look::PassedDirty),
        Letter::B | Letter::D => one(Look::Sent),
        Letter::C => two(Look::Sent, Look::PassedDirty),
        _ => nothing(),
    }
}

/// Of a clause of rule 26.
fn k26_looks(letter: Letter) -> Looks
    ensures { result ≡ k26_looks letter }
{
    match letter {
        Letter::B | Letter::C => one(Look::Issue),
        _ => nothing(),
    }
}

/// Of a clause of rule 28.
fn k28_looks(letter: Letter) -> Looks
    ensures { result ≡ k28_looks letter }
{
    match letter {
        Letter::A => two(Look::Issue, Look::State),
        _ => nothing(),
    }
}

/// Of a clause of rule 29.
fn k29_looks(letter: Letter) -> Looks
    ensures { result ≡ k29_looks letter }
{
    match letter {
        Letter::A => one(Look::State),
        Letter::B => one(Look::Issue),
        _ => nothing(),
    }
}

/// Of a clause of rule 30.
fn k30_looks(letter: Letter) -> Looks
    ensures { result ≡ k30_looks letter }
{
    match letter {
        Letter::A => one(Look::State),
        _ => nothing(),
    }
}

/// Of a clause of rule 31.
fn k31_looks(letter: Letter) -> Looks
    ensures { result ≡ k31_looks letter }
{
    match letter {
        Letter::A => one(Look::Store),
        _ => nothing(),
    }
}

/// Of a clause of rule 32.
fn k32_looks(letter: Letter) -> Looks
    ensures { result ≡ k32_looks letter }
{
    match letter {
        Letter::A => one(Look::State),
        Letter::B | Letter::D | Letter::E => one(Look::Issue),
        Letter::C => one(Look::Store),
        _ => nothing(),
    }
}

/// Of a clause of rule 33.
fn k33_looks(letter: Letter) -> Looks
    ensures { result ≡ k33_looks letter }
{
    match letter {
        Letter::C => two(Look::ExclusiveLoad, Look::ExclusiveStore),
        Letter::D => two(Look::ExclusiveLoad, Look::Lost),
        _ => nothing(),
    }
}

/// Of rules 24 to 33.
fn later_looks(rule: u8, letter: Letter) -> Looks
    ensures { result ≡ later_looks rule letter }
{
    match rule {
        24 => k24_looks(letter),
        25 => k25_looks(letter),
        26 => k26_looks(letter),
        28 => k28_looks(letter),
        29 => k29_looks(letter),
        30 => k30_looks(letter),
        31 => k31_looks(letter),
        32 => k32_looks(letter),
        33 => k33_looks(letter),
        _ => nothing(),
    }
}

/// Of rules 15 to 33.
fn middle_looks(rule: u8, letter: Letter) -> Looks
    ensures { result ≡ middle_looks rule letter }
{
    match rule {
        15 => k15_looks(letter),
        16 => k16_looks(letter),
        17 => k17_looks(letter),
        18 => k18_looks(letter),
        19 => k19_looks(letter),
        20 => k20_looks(letter),
        21 => k21_looks(letter),
        23 => k23_looks(letter),
        _ => later_looks(rule, letter),
    }
}

/// What is looked for where the clause of the rule is broken.
pub(crate) fn looks_of(rule: u8, letter: Letter) -> Looks
    ensures { result ≡ looks_of rule letter }
{
    match rule {
        5 => k5_looks(letter),
        6 => k6_looks(letter),
        8 => k8_looks(letter),
        11 => k11_looks(letter),
        12 => k12_looks(letter),
        13 => k13_looks(letter),
        _ => middle_looks(rule, letter),
    }
}
