//! What a line is answered, and what a run counts.
ghost use Rattle.std.specs.Prelude.{◌≡◌, ◌<◌, ◌≤◌};
ghost use Rattle.script_running.specs.script_judging.Judging.{one_line, counted};
ghost use Rattle.script_running.specs.Outs.{complains, is_clean};
ghost use Rattle.script_running.specs.script_judging.Consoles.{status_of};

use solid_listing::Told;

/// What C is told of a call or a line that was told this.
pub fn status(answer: &Told) -> u32
    ensures { result ≡ status_of answer.now }
{
    match answer {
        Told::Silent => 0,
        Told::Done => 1,
        Told::Refused(_) => 2,
        Told::Fault(_) => 3,
        Told::Memory => 4,
        Told::Plane(_, _) => 5,
        Told::Volume(_) => 6,
        Told::Counts(_) => 7,
        Told::Listing => 8,
        Told::InDraft => 11,
        Told::NoDraft => 12,
        Told::Steps(_) => 0,
    }
}

/// What a run counted.
#[derive(Clone, Copy, Debug, Default, PartialEq, Eq)]
pub struct Summary {
    /// The lines judged, blank and comment lines and a last line without newline included.
    pub lines: u64,
    /// The replies that begin with `refused`.
    pub refused: u64,
    /// The replies that begin with `fault`.
    pub faults: u64,
    /// The replies that begin with `memory`.
    pub memory: u64,
}

impl Summary {
    /// Whether no reply begins with `refused`, `fault` or `memory`.
    pub fn is_clean(&self) -> bool
        ensures { result ≡ is_clean self.now }
    {
        self.refused == 0 && self.faults == 0 && self.memory == 0
    }

    /// Counts one more line, with its answer.
    pub fn count(&mut self, answer: &Told)
        requires lines { self.old.lines < 67108865 }
        requires refused { self.old.refused ≤ self.old.lines }
        requires faults { self.old.faults ≤ self.old.lines }
        requires memory { self.old.memory ≤ self.old.lines }
        ensures { self.new ≡ counted self.old (one_line answer.now) }
    {
        self.lines += 1;
        match answer {
            Told::Refused(_) => self.refused += 1,
            Told::Fault(_) => self.faults += 1,
            Told::Memory => self.memory += 1,
            _ => {}
        }
    }
}

/// Whether the reply begins with `refused`, `fault` or `memory`.
pub(crate) fn complains(answer: &Told) -> bool
    ensures { result ≡ complains answer.now }
{
    matches!(answer, Told::Refused(_) | Told::Fault(_) | Told::Memory)
}
