// Why a call is not done, and the answer that says so.
ghost use Rattle.std.specs.Prelude.{◌≡◌};
ghost use Rattle.mutator.specs.Refusals.{said, answer_of};

use crate::Told;

// The reasons, in the order of their codes: 0, 2, 3 and 4.
#[derive(Clone, Copy, PartialEq, Eq, Debug)]
pub enum Refusal {
    Full,
    NoSlot,
    Nothing,
    NoPlace,
}

// A call that is done says a number; one that is refused says why.
impl From<Result<u64, Refusal>> for Told {
    ghost from_gives = { λ res t. answer_of t ≡ said res };

    fn from(res: Result<u64, Refusal>) -> Told {
        match res {
            Ok(val) => Told { code: 1, val },
            Err(Refusal::Full) => Told { code: 0, val: 0 },
            Err(Refusal::NoSlot) => Told { code: 2, val: 0 },
            Err(Refusal::Nothing) => Told { code: 3, val: 0 },
            Err(Refusal::NoPlace) => Told { code: 4, val: 0 },
        }
    }
}
