// The walk over a proof: steps that infer and steps that check, in one cycle of calls. At each call levels fall, or, where a tag was
// read and is handed on, bytes.
#![tactic(auto)]

ghost use Rattle.std.specs.Prelude.{◌≡◌, ◌-◌, ◌<◌};
ghost use Rattle.ledger.specs.Books.{misfitted};
ghost use Rattle.walk.specs.WalkCalls.{sources, Infers, InfersTagged, Checks, ChecksTagged, ChecksPut, ChecksTaken, ShowsAll, TagStands, KeepsRows};
ghost use Rattle.bl.specs.declared.CheckTag.TheVariants.{PairTag, OrOutTag};
ghost use Rattle.bl.specs.declared.InferTag.TheVariants.{ApplyTag};

pub mod numbers; // the same walk over plain numbers that a caller lends

use bl::{CheckTag, FormulaTag, InferTag};
use formula::parts::Judgement;
use judging::either::{from_falsity, side_on};
use judging::judge::{
    Checked, Inferred, Scope, Shell, Side, assume, certificate, checked_by, conjunct,
    inside_inferred, inside_of, instance, local, nothing, order, part_at, put_to_use,
    sides_inferred, sides_of, state_fact, top,
};
use ledger::Ledger;
use ledger::facts::FactList;
use procap::bytes::past;
use steps::ends::end_in;
use steps::{check_tag_at, infer_tag_at, term_if_any};
use strength::table::Strengths;

// What is lent all through a walk: formulas, proof and state in bytes, certificates in rows, strengths if there are any, and where
// second parts end. The bytes are lent by the caller of verify, tables and strengths by its parts: each has a lifetime of its own.
#[derive(Clone, Copy)]
pub struct Sources<'bytes, 'tables, 'pairs> {
    pub buffer: &'bytes [u8],
    pub proof: &'bytes [u8],
    pub state: &'bytes [u8],
    pub certificates: &'tables [u64],
    pub strengths: Option<&'pairs Strengths>,
    pub ends: &'tables [u16],
}

// A judgement to check, and the bytes that its formula stands in.
#[derive(Clone, Copy)]
pub struct Goal<'a> {
    pub bytes: &'a [u8],
    pub judgement: Judgement,
}

// Where the walk stands: in which scope, at which step, with what ledger, and how many levels are left there.
#[derive(Clone, Copy)]
pub struct Here {
    pub scope: Scope,
    pub at: usize,
    pub ledger: Ledger,
    pub left: u64,
}

impl Here {
    // A part of the step here, at another place and with another ledger: one level less is left.
    fn part(self, at: usize, ledger: Ledger) -> Here
        requires { 0 < self.left }
        ensures { result ≡ record { scope = self.scope; at = at; ledger = ledger; left = self.left - 1 } }
    {
        Here {
            at,
            ledger,
            left: self.left - 1,
            ..self
        }
    }

    // No step that checks stands here, or none of so few levels.
    fn misfit(self) -> Checked
        ensures { result ≡ record { ledger = misfitted self.ledger self.at; next = self.at } }
    {
        Checked {
            ledger: self.ledger.misfit(self.at),
            next: self.at,
        }
    }
}

impl Sources<'_, '_, '_> {
    // What the step at a place infers, of at most so many levels.
    // It reads a tag and calls on: put in its callers' place, it takes no frame of its own at each level.
    #[inline(always)]
    #[cycle(walk)]
    fn infer(&self, facts: &mut FactList, assumptions: &mut [u64], here: Here) -> Inferred
        ensures walks { Infers (sources self.now) facts assumptions here result }
        ensures keeps { KeepsRows here assumptions }
    {
        let Here { at, ledger, .. } = here;
        if here.left == 0 {
            return nothing(ledger.misfit(at));
        }
        let Some(tag) = infer_tag_at(self.proof, at) else {
            return nothing(ledger.misfit(at));
        };
        self.infer_by(facts, assumptions, tag, here)
    }

    // The same by its tag, which was read there.
    #[cycle(walk)]
    fn infer_by(
        &self,
        facts: &mut FactList,
        assumptions: &mut [u64],
        tag: InferTag,
        here: Here,
    ) -> Inferred
        requires { 0 < here.left }
        ensures walks { InfersTagged (sources self.now) facts assumptions tag here result }
        ensures keeps { KeepsRows here assumptions }
    {
        let Here {
            scope,
            at,
            ledger,
            ..
        } = here;
        let begin = past(self.proof, at);
        match tag {
            InferTag::LocalTag => local(self.proof, assumptions, self.strengths, scope, at, ledger),
            InferTag::CertificateTag => {
                certificate(
                    self.proof,
                    self.certificates,
                    self.strengths,
                    scope,
                    at,
                    ledger,
                )
            }
            InferTag::FirstTag => {
                let part = self.infer(facts, assumptions, here.part(begin, ledger));
                conjunct(self.buffer, at, Side::First, part)
            }
            InferTag::SecondTag => {
                let part = self.infer(facts, assumptions, here.part(begin, ledger));
                conjunct(self.buffer, at, Side::Second, part)
            }
            InferTag::ApplyTag => self.apply(facts, assumptions, here),
            InferTag::InstanceTag => {
                let Some((term, next)) = term_if_any(self.proof, begin) else {
                    return nothing(ledger.misfit(at));
                };
                let part = self.infer(facts, assumptions, here.part(next, ledger));
                instance(self.buffer, at, part, term)
            }
        }
    }

    // 26: what the first part infers is put to use, and its premise is checked by the second.
    #[cycle(walk)]
    fn apply(&self, facts: &mut FactList, assumptions: &mut [u64], here: Here) -> Inferred
        requires { 0 < here.left }
        ensures walks { InfersTagged (sources self.now) facts assumptions ApplyTag here result }
        ensures keeps { KeepsRows here assumptions }
    {
        let Here { at, ledger, .. } = here;
        let begin = past(self.proof, at);
        let part = self.infer(facts, assumptions, here.part(begin, ledger));
        let second_end = end_in(self.ends, part.next);
        let used = put_to_use(self.buffer, self.proof, at, part, second_end);
        if !used.ledger.goes_on() {
            return nothing(used.ledger);
        }
        let premise = Goal {
            bytes: self.buffer,
            judgement: used.premise,
        };
        let second = here.part(used.middle, used.ledger);
        let checked = self.check(facts, assumptions, &premise, second);
        Inferred {
            ledger: checked.ledger,
            judgement: part_at(used.premise, used.conclusion),
            next: used.next,
        }
    }

    // Whether the step at a place, of at most so many levels, checks the goal.
    #[cycle(walk)]
    pub fn check(
        &self,
        facts: &mut FactList,
        assumptions: &mut [u64],
        goal: &Goal<'_>,
        here: Here,
    ) -> Checked
        ensures walks { Checks (sources self.now) facts assumptions goal.now here result }
        ensures keeps { KeepsRows here assumptions }
    {
        if here.left == 0 {
            return here.misfit();
        }
        let Some(tag) = check_tag_at(self.proof, here.at) else {
            return here.misfit();
        };
        self.check_by(facts, assumptions, tag, goal, here)
    }

    // The same by its tag, which was read there.
    #[cycle(walk)]
    fn check_by(
        &self,
        facts: &mut FactList,
        assumptions: &mut [u64],
        tag: CheckTag,
        goal: &Goal<'_>,
        here: Here,
    ) -> Checked
        requires more { 0 < here.left }
        requires read { TagStands self.now.proof.now here tag }
        ensures walks { ChecksTagged (sources self.now) facts assumptions goal.now here result tag }
        ensures keeps { KeepsRows here assumptions }
    {
        let Here { at, ledger, .. } = here;
        let next = past(self.proof, at);
        match tag {
            CheckTag::PairTag => self.pair(facts, assumptions, goal, here),
            CheckTag::TopStepTag => Checked {
                ledger: top(goal.bytes, at, goal.judgement, ledger),
                next,
            },
            CheckTag::AtInTag => self.put_in(facts, assumptions, Shell::AtShell, goal, here),
            CheckTag::AtOutTag => self.take_out(facts, assumptions, Shell::AtShell, goal, here),
            CheckTag::SaysInTag => self.put_in(facts, assumptions, Shell::SaysShell, goal, here),
            CheckTag::SaysOutTag => self.take_out(facts, assumptions, Shell::SaysShell, goal, here),
            CheckTag::StateTag => Checked {
                ledger: state_fact(goal.bytes, self.state, facts, at, goal.judgement, ledger),
                next,
            },
            CheckTag::OrderStepTag => Checked {
                ledger: order(goal.bytes, at, goal.judgement, ledger),
                next,
            },
            CheckTag::OrLeftTag => self.put_in(facts, assumptions, Shell::LeftShell, goal, here),
            CheckTag::OrRightTag => self.put_in(facts, assumptions, Shell::RightShell, goal, here),
            CheckTag::OrOutTag => self.by_cases(facts, assumptions, goal, here),
            CheckTag::FalsityOutTag => self.by_falsity(facts, assumptions, here),
            CheckTag::InferredTag(tag) => {
                let inferred = self.infer_by(facts, assumptions, tag, here);
                checked_by(self.buffer, goal.bytes, at, inferred, goal.judgement)
            }
        }
    }

    // 22: both sides of a conjunction.
    #[cycle(walk)]
    fn pair(
        &self,
        facts: &mut FactList,
        assumptions: &mut [u64],
        goal: &Goal<'_>,
        here: Here,
    ) -> Checked
        requires { 0 < here.left }
        ensures walks { ChecksTagged (sources self.now) facts assumptions goal.now here result PairTag }
        ensures keeps { KeepsRows here assumptions }
    {
        let Here { at, ledger, .. } = here;
        let Goal { bytes, judgement } = *goal;
        let parts = sides_of(bytes, at, FormulaTag::AndTag, judgement, ledger);
        if !parts.ledger.goes_on() {
            return Checked {
                ledger: parts.ledger,
                next: at,
            };
        }
        let first = Goal {
            bytes,
            judgement: part_at(judgement, parts.first),
        };
        let begin = past(self.proof, at);
        let one = self.check(facts, assumptions, &first, here.part(begin, parts.ledger));
        if !one.ledger.goes_on() {
            return one;
        }
        let second = Goal {
            bytes,
            judgement: part_at(judgement, parts.second),
        };
        self.check(facts, assumptions, &second, here.part(one.next, one.ledger))
    }

    // 28, 2A, 2E and 2F: what stands inside of the goal's shell is checked, in the scope inside of it.
    #[cycle(walk)]
    fn put_in(
        &self,
        facts: &mut FactList,
        assumptions: &mut [u64],
        shell: Shell,
        goal: &Goal<'_>,
        here: Here,
    ) -> Checked
        requires { 0 < here.left }
        ensures walks { ChecksPut (sources self.now) facts assumptions goal.now here result shell }
        ensures keeps { KeepsRows here assumptions }
    {
        let Here {
            scope,
            at,
            ledger,
            ..
        } = here;
        let inside = inside_of(goal.bytes, at, shell, goal.judgement, ledger);
        if !inside.ledger.goes_on() {
            return Checked {
                ledger: inside.ledger,
                next: at,
            };
        }
        let held = Goal {
            bytes: goal.bytes,
            judgement: inside.row.judgement,
        };
        let inner = Here {
            scope: scope.inside(inside.row),
            ..here.part(past(self.proof, at), inside.ledger)
        };
        self.check(facts, assumptions, &held, inner)
    }

    // 29 and 2B: what stands inside of the shell that was inferred becomes an assumption: a plain one, or a claim of who says it.
    #[cycle(walk)]
    fn take_out(
        &self,
        facts: &mut FactList,
        assumptions: &mut [u64],
        shell: Shell,
        goal: &Goal<'_>,
        here: Here,
    ) -> Checked
        requires { 0 < here.left }
        ensures walks { ChecksTaken (sources self.now) facts assumptions goal.now here result shell }
        ensures keeps { KeepsRows here assumptions }
    {
        let Here {
            scope,
            at,
            ledger,
            ..
        } = here;
        let begin = past(self.proof, at);
        let inferred = self.infer(facts, assumptions, here.part(begin, ledger));
        let inside = inside_inferred(self.buffer, at, shell, inferred);
        if !inside.ledger.goes_on() {
            return Checked {
                ledger: inside.ledger,
                next: at,
            };
        }
        let inner = Here {
            scope: assume(assumptions, scope, inside.row),
            ..here.part(inferred.next, inside.ledger)
        };
        self.check(facts, assumptions, goal, inner)
    }

    // 30: the goal is shown with each side of the "or" that was inferred as a plain assumption on its interval.
    #[cycle(walk)]
    fn by_cases(
        &self,
        facts: &mut FactList,
        assumptions: &mut [u64],
        goal: &Goal<'_>,
        here: Here,
    ) -> Checked
        requires { 0 < here.left }
        ensures walks { ChecksTagged (sources self.now) facts assumptions goal.now here result OrOutTag }
        ensures keeps { KeepsRows here assumptions }
    {
        let Here {
            scope,
            at,
            ledger,
            ..
        } = here;
        let begin = past(self.proof, at);
        let inferred = self.infer(facts, assumptions, here.part(begin, ledger));
        let sides = sides_inferred(self.buffer, at, FormulaTag::OrTag, inferred);
        if !sides.ledger.goes_on() {
            return Checked {
                ledger: sides.ledger,
                next: at,
            };
        }
        let either = inferred.judgement;
        let Judgement { from, to, .. } = either;
        let on_left = Here {
            scope: assume(assumptions, scope, side_on(either, sides.first, from, to)),
            ..here.part(inferred.next, sides.ledger)
        };
        let one = self.check(facts, assumptions, goal, on_left);
        if !one.ledger.goes_on() {
            return one;
        }
        let on_right = Here {
            scope: assume(assumptions, scope, side_on(either, sides.second, from, to)),
            ..here.part(one.next, one.ledger)
        };
        self.check(facts, assumptions, goal, on_right)
    }

    // 31: any goal is shown where what was inferred is falsity.
    // A level has room for all that is put in its place: this stays a call.
    #[inline(never)]
    #[cycle(walk)]
    fn by_falsity(&self, facts: &mut FactList, assumptions: &mut [u64], here: Here) -> Checked
        requires { 0 < here.left }
        ensures walks { ShowsAll (sources self.now) facts assumptions here result }
        ensures keeps { KeepsRows here assumptions }
    {
        let Here { at, ledger, .. } = here;
        let begin = past(self.proof, at);
        let inferred = self.infer(facts, assumptions, here.part(begin, ledger));
        from_falsity(self.buffer, at, inferred)
    }
}
