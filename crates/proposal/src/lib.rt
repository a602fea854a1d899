// A book and a proposal on it, in specs/, and what is found of them.
#![tactic(auto)]

ghost use Rattle.std.specs.Prelude.{◌≡◌};
ghost use Rattle.proposal.specs.Outcome.{make_fault};

use refusals::Refusal;

// A refusal at two places: by its name, or in another form, as by its number.
#[derive(Clone, Copy)]
pub struct Fault<R = Refusal> {
    pub refusal: R,
    pub place: u64,
    pub second: u64,
}

// A refusal with its two places, as numbers of the answer.
pub fn fault_at<R>(refusal: R, place: usize, second: usize) -> Fault<R>
    ensures { result ≡ make_fault refusal place second }
{
    Fault {
        refusal,
        place: place as u64,
        second: second as u64,
    }
}

// A refusal of the whole submission: its places are 0.
impl From<Refusal> for Fault {
    ghost from_gives = { λ refusal fault. fault ≡ make_fault refusal 0 0 };

    fn from(refusal: Refusal) -> Fault {
        fault_at(refusal, 0, 0)
    }
}
