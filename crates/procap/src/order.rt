// The order of two times: one table by the kind of the left and of the right time, with the page's rows in the page's order. It is
// read at a moment, and with the clock still open.
ghost use Rattle.std.specs.Prelude.{◌≡◌};
ghost use Rattle.procap.specs.Tells.{Tells};
ghost use Rattle.procap.specs.Order.{AtMost, decided};

use crate::time::Time;

// What verify makes of an order: it holds, it fails, or it narrows the moments at which the procap opens.
#[derive(Clone, Copy, Debug, PartialEq, Eq)]
pub enum Decision {
    Holds,
    Fails,
    RaisesFrom(u64),
    LowersTo(u64),
}

// Whether left <= right, with ctime read as the moment: what is decided with the clock open, with the moment put in.
#[tactic(auto, using(crate::proofs::Decided::decided_right))]
pub fn at_most(moment: u64, left: Time, right: Time) -> bool
    ensures { Tells result (AtMost moment left right) }
{
    match decide(left, right) {
        Decision::Holds => true,
        Decision::Fails => false,
        Decision::RaisesFrom(second) => second <= moment,
        Decision::LowersTo(second) => moment <= second,
    }
}

// What verify makes of left <= right, with the clock still open.
pub fn decide(left: Time, right: Time) -> Decision
    ensures { result ≡ decided left right }
{
    match (left, right) {
        // Ctime is not involved: decided at once.
        (Time::Moment(one), Time::Moment(other)) => {
            if one <= other {
                Decision::Holds
            } else {
                Decision::Fails
            }
        }
        (Time::Moment(_), Time::MinusInfinity) => Decision::Fails,
        (Time::Moment(_), Time::PlusInfinity) => Decision::Holds,
        (Time::MinusInfinity, Time::Moment(_)) => Decision::Holds,
        (Time::MinusInfinity, Time::MinusInfinity) => Decision::Holds,
        (Time::MinusInfinity, Time::PlusInfinity) => Decision::Holds,
        (Time::PlusInfinity, Time::Moment(_)) => Decision::Fails,
        (Time::PlusInfinity, Time::MinusInfinity) => Decision::Fails,
        (Time::PlusInfinity, Time::PlusInfinity) => Decision::Holds,
        // An infinity settles it.
        (Time::MinusInfinity, Time::Ctime) => Decision::Holds,
        (Time::PlusInfinity, Time::Ctime) => Decision::Fails,
        (Time::Ctime, Time::MinusInfinity) => Decision::Fails,
        (Time::Ctime, Time::PlusInfinity) => Decision::Holds,
        // Ctime <= ctime holds.
        (Time::Ctime, Time::Ctime) => Decision::Holds,
        // Otherwise from is raised or to is lowered.
        (Time::Moment(second), Time::Ctime) => Decision::RaisesFrom(second),
        (Time::Ctime, Time::Moment(second)) => Decision::LowersTo(second),
    }
}
