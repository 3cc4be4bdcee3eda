// What stops a press: what comes before the facts of a procap, and the first of them that does not hold.
ghost use Rattle.std.specs.Prelude.{◌≡◌, ◌<◌, List, ℕ, Ok};
ghost use Rattle.procap.specs.Tells.{Tells};
ghost use Rattle.procap.specs.Facts.{Spelled};
ghost use Rattle.procap.specs.Outcome.{answer_of, go_on};
ghost use Rattle.door.specs.Door.{GivesFacts, NamesMissing, before_facts, request_in};

use crate::holding::holds_at;
use procap::answer::Answer;
use procap::fact::Fact;
use procap::procap::Request;
use procap::time::LATEST_SECOND;
use state::well_formed;

// The request of a press: three numbers, which may be no names.
#[derive(Clone, Copy)]
pub(crate) struct RequestNumbers {
    pub who: u64,
    pub what: u64,
    pub right: u64,
}

impl RequestNumbers {
    // Whether the three numbers are those of the request.
    fn ask_for(self, request: Request) -> bool
        ensures { Tells result (request_in self ≡ request) }
    {
        self.who == u64::from(request.who)
            && self.what == u64::from(request.what)
            && self.right == u64::from(request.right)
    }
}

// What stops a press before the door looks at the facts of a procap with this request and these moments: 11, 7, 8 or 9.
pub(crate) fn before_facts(
    asked: Request,
    from: u64,
    to: u64,
    request: RequestNumbers,
    moment: u64,
    state: &[u8],
) -> Result<(), Answer>
    ensures { result ≡ go_on (before_facts asked from to (request_in request) moment state.now) (λ _. Ok tt) }
{
    if LATEST_SECOND < moment {
        return Err(Answer::MomentAboveLatest);
    }
    if !well_formed(state) {
        return Err(Answer::StateMalformed);
    }
    if !request.ask_for(asked) {
        return Err(Answer::RequestDiffers);
    }
    if moment < from {
        return Err(Answer::MomentOutside);
    }
    if to < moment {
        return Err(Answer::MomentOutside);
    }
    Ok(())
}

// What stops a press at the facts, of which there are so many, each given by its index: 10 at the first that does not hold.
pub(crate) fn first_missing<F: Fn(usize) -> Fact>(
    count: usize,
    fact: F,
    moment: u64,
    state: &[u8],
) -> Result<(), Answer>
    requires { (i : ℕ) → i < count → F.pre fact i }
    ensures { (fs : List Spelled) → GivesFacts (F.post fact) count fs → NamesMissing moment state.now fs result }
{
    for i in 0..count {
        if !holds_at(state, fact(i), moment) {
            return Err(Answer::FactMissing(i));
        }
    }
    Ok(())
}

// The answer that is given back: what stops the press, or that the door opens.
#[tactic(auto, unfolding(procap::specs::Outcome::answer_of))]
pub(crate) fn answer_of(stopped: Result<(), Answer>) -> Answer
    ensures { result ≡ answer_of stopped }
{
    match stopped {
        Ok(()) => Answer::Granted,
        Err(answer) => answer,
    }
}
