// What a call leaves of the record that it met, and what it answers.
ghost use Rattle.std.specs.Prelude.{◌≡◌, Ok};
ghost use Rattle.status.specs.Number.{refusal_number};
ghost use Rattle.status.specs.Answer.{Said, Left, ◌saying◌, unless};
ghost use Rattle.status.specs.Stepped.{stepped};
ghost use Rattle.status.specs.declared.stepped.Stepped.{Stepped};

use crate::answer::Answer;
use crate::words::Refusal;

// The record as the call leaves it, and the answer.
#[derive(Clone, Copy)]
pub struct Stepped<X> {
    pub left: X,
    pub answer: Answer,
}

impl<X> Stepped<X> {
    // 1 to 8: the record stays as it was.
    pub fn refused(left: X, why: Refusal) -> Stepped<X>
        ensures { stepped result ≡ (left saying Said.refused (refusal_number why)) }
    {
        Stepped {
            left,
            answer: Answer::Refused(why),
        }
    }

    // The step, unless the call is refused before its own work.
    pub fn unless<F: FnOnce(X) -> Stepped<X>>(
        entry: Result<(), Refusal>,
        x: X,
        step: F,
    ) -> Stepped<X>
        requires { entry ≡ Ok tt → F.pre step x }
        ensures { (y : Left X) → ((r : Stepped X) → F.post step x r → stepped r ≡ y) → stepped result ≡ unless entry x y }
    {
        match entry {
            Ok(()) => step(x),
            Err(why) => Stepped::refused(x, why),
        }
    }
}
