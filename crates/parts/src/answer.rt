// Steps and their answers.
ghost use Rattle.std.specs.Prelude.{◌≡◌};
ghost use Rattle.parts.specs.Answer.{whose, number_of};

use ticket::{CoreNo, Grant, UnitNo};

// A step of a script, by its letter.
#[derive(Clone, Copy, Debug, PartialEq, Eq)]
pub enum Step {
    // Asks for a unit.
    R(CoreNo, UnitNo),
    // Asks for a second unit while holding a first.
    N(CoreNo, UnitNo),
    // Polls the flag that the core waits for.
    P(CoreNo),
    // Is called off by an interrupt.
    I(CoreNo),
    // Comes back.
    C(CoreNo),
    // Leaves all that it holds.
    L(CoreNo),
}

// What a step, or building a table, is answered.
#[derive(Clone, Copy, Debug, PartialEq, Eq)]
pub enum Answer {
    // 0: the step is done.
    Done,
    // 1: the poll found the flag set.
    Granted,
    // 2: the poll found it clear.
    NotYet,
    // 10: the core is not in the table.
    NoCore,
    // 11: the unit is not in the table.
    NoUnit,
    // 12: the core's state does not allow the step.
    WrongState,
    // 13: the units are not of the classes that N wants.
    WrongClass,
    // 14: an interrupt of a core that holds and does not wait.
    Masked,
    // 15: some live ticket lies half the circle behind the counter.
    Stretched,
    // 16: the table is not sound.
    Unsound,
    // 20: counts out of range.
    OutOfRange,
}

// The grants of a step, by rising unit.
#[derive(Clone, Copy, Debug, PartialEq, Eq)]
pub enum Grants {
    None,
    One(Grant),
    Two(Grant, Grant),
}

// The core that a step names.
pub fn whose(s: Step) -> CoreNo
    ensures { result ≡ whose s }
{
    match s {
        Step::R(k, _) | Step::N(k, _) => k,
        Step::P(k) | Step::I(k) | Step::C(k) | Step::L(k) => k,
    }
}

// The number that document 01 gives an answer.
pub fn number(a: Answer) -> u16
    ensures { result ≡ number_of a }
{
    match a {
        Answer::Done => 0,
        Answer::Granted => 1,
        Answer::NotYet => 2,
        Answer::NoCore => 10,
        Answer::NoUnit => 11,
        Answer::WrongState => 12,
        Answer::WrongClass => 13,
        Answer::Masked => 14,
        Answer::Stretched => 15,
        Answer::Unsound => 16,
        Answer::OutOfRange => 20,
    }
}
