// What a run is given and what is demanded of it, as definitions (specs/): a run is a fold of the rules. Here stands what a run answers.
#![tactic(auto)]

ghost use Rattle.std.specs.Prelude.{◌≡◌};
ghost use Rattle.demands.specs.Input.{number_of_run_refusal};
ghost use Rattle.demands.specs.declared.RunRefusal.TheVariants.{BadImage, BadSchedule};

use image::Refusal;
use schedule::Malformed;

// Why a whole run is refused: the first of its tests that is met.
#[derive(Clone, Copy, Debug, PartialEq, Eq)]
pub enum RunRefusal {
    // 23: not 1 to 4 cores
    BadCores,
    // 1 to 8: the image's own
    BadImage(Refusal),
    // 24: not as many arguments as routine 0 has
    BadArguments,
    // 13: unknown byte, cut entry, or over 32,768 bytes
    BadSchedule,
    // 25: not 32 parameter words, not 992 memory words, or log shorter than the entries
    BadLengths,
}

impl RunRefusal {
    // Document 01's number.
    pub fn number(self) -> u8
        ensures { result ≡ number_of_run_refusal self }
    {
        match self {
            RunRefusal::BadCores => 23,
            RunRefusal::BadImage(refusal) => refusal.number(),
            RunRefusal::BadArguments => 24,
            RunRefusal::BadSchedule => 13,
            RunRefusal::BadLengths => 25,
        }
    }
}

impl From<Refusal> for RunRefusal {
    ghost from_gives = { λ refusal why. why ≡ BadImage refusal };

    fn from(refusal: Refusal) -> RunRefusal {
        RunRefusal::BadImage(refusal)
    }
}

impl From<Malformed> for RunRefusal {
    ghost from_gives = { λ _ why. why ≡ BadSchedule };

    fn from(_malformed: Malformed) -> RunRefusal {
        RunRefusal::BadSchedule
    }
}

// What a run answers.
#[derive(Clone, Copy, Debug, PartialEq, Eq)]
pub enum RunAnswer {
    // a whole-run test is met; nothing was written
    Refused(RunRefusal),
    Finished { result: u32, units: u32 },
    // the number as the tables hold it, where any byte may stand
    Faulted { number: u8, thread: u8, offset: u16 },
    Open { units: u32 },
}
