//! Which of the next calls fail, and when the power is cut.
ghost use Rattle.std.specs.Prelude.{◌≡◌};
ghost use Rattle.nor_memory.specs.Ways.{asked_way, read_way, write_way, power_after, way_of, plan_after, plan_failing, plan_cut, no_plan};

/// A kind of call that a device in memory can be told to fail.
#[derive(Clone, Copy, Debug, PartialEq, Eq)]
pub enum CallKind {
    /// A call of `read`.
    Read,
    /// A call of `program`.
    Program,
    /// A call of `erase`.
    Erase,
    /// A call of `say`.
    Say,
}

/// The power of a device in memory.
#[derive(Clone, Copy, Debug, PartialEq, Eq)]
pub enum Power {
    /// It stays on.
    On,
    /// After `passed` more programs, erases and says it goes off inside the next one.
    CutAfter { passed: u64, pick: u64 },
    /// It is off, and each call fails.
    Off,
}

/// How a call goes.
#[derive(Clone, Copy, Debug, PartialEq, Eq)]
pub enum Way {
    /// It does all that it was asked.
    Whole,
    /// It fails as was asked for, and does nothing.
    Fails,
    /// The power goes off inside it, and the pick says what it has done by then.
    Cut(u64),
    /// It finds the power off, and does nothing.
    Unpowered,
}

/// The failures that were asked for: of each kind of call 0 for none, or n for the nth from now on.
#[derive(Clone, Copy, Debug, PartialEq, Eq)]
pub struct Plan {
    pub read: u64,
    pub program: u64,
    pub erase: u64,
    pub say: u64,
    pub power: Power,
}

impl Plan {
    /// The plan under which nothing fails.
    pub fn none() -> Plan
        ensures { result ≡ no_plan }
    {
        Plan {
            read: 0,
            program: 0,
            erase: 0,
            say: 0,
            power: Power::On,
        }
    }

    /// How the next call of a kind goes, which counts as made from then on.
    pub fn next(&mut self, kind: CallKind) -> Way
        ensures goes { result ≡ way_of kind self.old }
        ensures counted { self.new ≡ plan_after kind self.old }
    {
        let now = *self;
        *self = now.after(kind);
        now.way_of(kind)
    }

    fn way_of(self, kind: CallKind) -> Way
        ensures { result ≡ way_of kind self }
    {
        match kind {
            CallKind::Read => read_way(self.power, self.read),
            CallKind::Program => write_way(self.power, self.program),
            CallKind::Erase => write_way(self.power, self.erase),
            CallKind::Say => write_way(self.power, self.say),
        }
    }

    fn after(self, kind: CallKind) -> Plan
        ensures { result ≡ plan_after kind self }
    {
        match kind {
            CallKind::Read => Plan {
                read: self.read.saturating_sub(1),
                ..self
            },
            CallKind::Program => Plan {
                program: self.program.saturating_sub(1),
                power: power_after(self.power),
                ..self
            },
            CallKind::Erase => Plan {
                erase: self.erase.saturating_sub(1),
                power: power_after(self.power),
                ..self
            },
            CallKind::Say => Plan {
                say: self.say.saturating_sub(1),
                power: power_after(self.power),
                ..self
            },
        }
    }

    /// The plan under which the nth call of a kind from now on fails too, or none of it where `nth` is 0.
    pub fn failing(self, kind: CallKind, nth: u64) -> Plan
        ensures { result ≡ plan_failing kind nth self }
    {
        match kind {
            CallKind::Read => Plan { read: nth, ..self },
            CallKind::Program => Plan {
                program: nth,
                ..self
            },
            CallKind::Erase => Plan { erase: nth, ..self },
            CallKind::Say => Plan { say: nth, ..self },
        }
    }

    /// The plan under which the power goes off, unless it is off already.
    pub fn cut(self, passed: u64, pick: u64) -> Plan
        ensures { result ≡ plan_cut passed pick self }
    {
        match self.power {
            Power::On => Plan {
                power: Power::CutAfter { passed, pick },
                ..self
            },
            Power::CutAfter { .. } => Plan {
                power: Power::CutAfter { passed, pick },
                ..self
            },
            Power::Off => self,
        }
    }
}

// A read with the power on fails where that was asked for.
fn read_way(power: Power, failing: u64) -> Way
    ensures { result ≡ read_way power failing }
{
    match power {
        Power::On => asked_way(failing),
        Power::CutAfter { .. } => asked_way(failing),
        Power::Off => Way::Unpowered,
    }
}

// A program, an erase or a say is cut where none is to pass before it.
fn write_way(power: Power, failing: u64) -> Way
    ensures { result ≡ write_way power failing }
{
    match power {
        Power::On => asked_way(failing),
        Power::CutAfter { passed, pick } => {
            if passed == 0 {
                Way::Cut(pick)
            } else {
                asked_way(failing)
            }
        }
        Power::Off => Way::Unpowered,
    }
}

fn asked_way(failing: u64) -> Way
    ensures { result ≡ asked_way failing }
{
    if failing == 1 { Way::Fails } else { Way::Whole }
}

fn power_after(power: Power) -> Power
    ensures { result ≡ power_after power }
{
    match power {
        Power::On => Power::On,
        Power::CutAfter { passed, pick } => {
            if passed == 0 {
                Power::Off
            } else {
                Power::CutAfter {
                    passed: passed - 1,
                    pick,
                }
            }
        }
        Power::Off => Power::Off,
    }
}
