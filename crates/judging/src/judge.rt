// What one step makes of a goal, or of what its parts inferred. Nothing here looks at other steps.
ghost use Rattle.std.specs.Prelude.{◌≡◌};
ghost use Rattle.procap.specs.Writable.{TermInForm};
ghost use Rattle.bl.specs.Walk as walk;
ghost use Rattle.ledger.specs.Books.{misfitted, Leads};
ghost use Rattle.judging.specs.Judging.{outermost, scope_inside, scope_with, part_of, nothing_inferred, top_goal, order_goal, side_of, put_in};
ghost use Rattle.judging.specs.StepPromises.{NeedsView, UsesRow, UsesLocal, UsesCertificate, TakesSides, TakesSidesInferred, StaysStopped, TakesTimes, TakesAt, TakesSays, TakesInside, TakesInsideInferred, Continues, PutsToUse, MeetsGoal, MeetsFact, FitsGoal, ChecksInferred};
ghost use Rattle.judging.specs.Pieces.{binder_of};
ghost use Rattle.judging.specs.RowNumbers.{rows_with};

use crate::either::side_inside;
use crate::rows::{MOST_ROWS, Row, put_row, row_at};
use bl::FormulaTag;
use formula::compare::{LentFormula, same};
use formula::parts::{FormulaAt, Judgement, fact_at, is_a, past_formula_if_any, place_if_any};
use formula::terms::{MOST_FORMULA_LEVELS, Place, Terms};
use ledger::facts::FactList;
use ledger::{Ledger, ask_fact, ask_order};
use procap::bytes::past;
use procap::fact::Term;
use procap::time::Time;
use steps::reader::index_at;
use steps::time_if_any;
use strength::table::{Strengths, as_strong};

// The view of a principal, and on which interval.
#[derive(Clone, Copy)]
pub struct View {
    pub principal: u64,
    pub from: Time,
    pub to: Time,
}

// Where a step stands: how many assumptions are around it, below which of them the plain ones are shut out, and in whose view, if
// in anybody's.
#[derive(Clone, Copy)]
pub struct Scope {
    pub count: usize,
    pub shut: usize,
    pub view: Option<View>,
}

// What a step infers, and where it ends. Where the ledger has stopped, the rest says nothing.
#[derive(Clone, Copy)]
pub struct Inferred {
    pub ledger: Ledger,
    pub judgement: Judgement,
    pub next: usize,
}

// What a step that checks leaves: the ledger, and where it ends. Where the ledger has stopped, the end says nothing.
#[derive(Clone, Copy)]
pub struct Checked {
    pub ledger: Ledger,
    pub next: usize,
}

// Where the two sides of a formula begin, each on the interval of the whole. Where the ledger has stopped, the rest says nothing.
#[derive(Clone, Copy)]
pub struct Sides {
    pub ledger: Ledger,
    pub first: usize,
    pub second: usize,
}

// A side of a formula with two.
#[derive(Clone, Copy, Debug, PartialEq, Eq)]
pub enum Side {
    First,
    Second,
}

// What stands around a formula that a step takes out, or puts in: an "at", a "says", or an "or" around its left or its right side.
#[derive(Clone, Copy)]
pub enum Shell {
    AtShell,
    SaysShell,
    LeftShell,
    RightShell,
}

// A judgement inside of another, as the row that it is assumed by: a plain one, or a claim of who says it.
#[derive(Clone, Copy)]
pub struct Inside {
    pub ledger: Ledger,
    pub row: Row,
}

// Two times that stand one after the other, and where they end. Where the ledger has stopped, the rest says nothing.
#[derive(Clone, Copy)]
struct Span {
    pub ledger: Ledger,
    pub from: Time,
    pub to: Time,
    pub next: usize,
}

// What a 26 has to check, where on the same interval begins what it then infers, and where its second step begins and it ends.
#[derive(Clone, Copy)]
pub struct Application {
    pub ledger: Ledger,
    pub premise: Judgement,
    pub conclusion: usize,
    pub middle: usize,
    pub next: usize,
}

// The part of a judgement that begins at another place, on the same interval.
pub fn part_at(judgement: Judgement, at: usize) -> Judgement
    ensures { result ≡ part_of judgement at }
{
    Judgement {
        formula: FormulaAt {
            at,
            ..judgement.formula
        },
        ..judgement
    }
}

// Nothing is inferred: the ledger has stopped, and the judgement says nothing.
pub fn nothing(ledger: Ledger) -> Inferred
    ensures { result ≡ nothing_inferred ledger }
{
    Inferred {
        ledger,
        judgement: Judgement::front_on_ctime(),
        next: 0,
    }
}

impl Scope {
    // The scope at the start of a walk: nothing is assumed, and the view is nobody's.
    pub fn outermost() -> Scope
        ensures { result ≡ outermost }
    {
        Scope {
            count: 0,
            shut: 0,
            view: None,
        }
    }

    // The scope inside of a shell, by the row that stands there: the same in an "at"; in a "says" the view of who says it, on the row's
    // interval, with the plain assumptions from outside shut out.
    pub fn inside(self, row: Row) -> Scope
        ensures { result ≡ scope_inside self row }
    {
        match row.whose {
            None => self,
            Some(principal) => Scope {
                count: self.count,
                shut: self.count,
                view: Some(View {
                    principal,
                    from: row.judgement.from,
                    to: row.judgement.to,
                }),
            },
        }
    }
}

// One assumption more: its row is put past those that are there. Where no row has room any more, the scope stays as it was.
#[tactic(auto, unfolding(crate::specs::Judging::scope_with))]
pub fn assume(assumptions: &mut [u64], scope: Scope, row: Row) -> Scope
    ensures rows { assumptions.new ≡ rows_with assumptions.old scope.count row }
    ensures scope { result ≡ scope_with scope }
{
    put_row(assumptions, scope.count, row);
    if MOST_ROWS <= scope.count {
        return scope;
    }
    Scope {
        count: scope.count + 1,
        ..scope
    }
}

// The interval of a judgement must cover another: it begins no later, and then it ends no earlier.
fn covers(ledger: Ledger, offset: usize, judgement: Judgement, from: Time, to: Time) -> Ledger
    ensures { Leads ledger (walk.need_cover offset judgement.from judgement.to from to) result }
{
    let asked = ask_order(ledger, offset, judgement.from, from);
    ask_order(asked, offset, to, judgement.to)
}

// What a principal claims or certifies must be usable in the view: the principal must be at least as strong as the view's, and
// then the judgement's interval must cover the view's.
fn in_view(
    strengths: Option<&Strengths>,
    ledger: Ledger,
    offset: usize,
    view: Option<View>,
    principal: u64,
    judgement: Judgement,
) -> Ledger
    ensures { NeedsView strengths.entry ledger offset view principal judgement result }
{
    let unfit = ledger.misfit(offset);
    let Some(view) = view else {
        return unfit;
    };
    if !as_strong(strengths, principal, view.principal) {
        return unfit;
    }
    covers(ledger, offset, judgement, view.from, view.to)
}

// A row, used as it stands: a plain assumption unless it is shut out, a claim in a view that it covers, of somebody whom its
// principal is as strong as.
fn row_used(
    rows: &[u64],
    strengths: Option<&Strengths>,
    index: usize,
    scope: Scope,
    offset: usize,
    ledger: Ledger,
    next: usize,
) -> Inferred
    ensures { UsesRow rows.now strengths.entry index scope offset ledger next result }
{
    if MOST_ROWS <= index {
        return nothing(ledger.misfit(offset));
    }
    let Row { whose, judgement } = row_at(rows, index);
    match whose {
        None => {
            if index < scope.shut {
                return nothing(ledger.misfit(offset));
            }
            Inferred {
                ledger,
                judgement,
                next,
            }
        }
        Some(principal) => Inferred {
            ledger: in_view(strengths, ledger, offset, scope.view, principal, judgement),
            judgement,
            next,
        },
    }
}

// 20: an assumption as it stands, counted from the latest.
pub fn local(
    proof: &[u8],
    assumptions: &[u64],
    strengths: Option<&Strengths>,
    scope: Scope,
    offset: usize,
    ledger: Ledger,
) -> Inferred
    ensures { UsesLocal proof.now assumptions.now strengths.entry scope offset ledger result }
{
    let back = index_at(proof, offset) as usize;
    if scope.count <= back {
        return nothing(ledger.misfit(offset));
    }
    let index = scope.count - back - 1;
    let next = past(proof, past(proof, offset));
    row_used(assumptions, strengths, index, scope, offset, ledger, next)
}

// 21: a certificate; its row is a claim of its principal, and needs the view that a claim needs.
pub fn certificate(
    proof: &[u8],
    certificates: &[u64],
    strengths: Option<&Strengths>,
    scope: Scope,
    offset: usize,
    ledger: Ledger,
) -> Inferred
    ensures { UsesCertificate proof.now certificates.now strengths.entry scope offset ledger result }
{
    let index = index_at(proof, offset) as usize;
    let next = past(proof, past(proof, offset));
    row_used(certificates, strengths, index, scope, offset, ledger, next)
}

// Where the two sides of a conjunction, of an implication or of an "or" begin, by the tag wanted.
pub fn sides_of(
    bytes: &[u8],
    offset: usize,
    wanted: FormulaTag,
    judgement: Judgement,
    ledger: Ledger,
) -> Sides
    ensures { TakesSides bytes.now offset wanted judgement ledger result }
{
    if !is_a(bytes, judgement.formula.at, wanted) {
        return no_sides(ledger, offset);
    }
    let first = past(bytes, judgement.formula.at);
    let Some(second) = past_formula_if_any(bytes, first, MOST_FORMULA_LEVELS) else {
        return no_sides(ledger, offset);
    };
    Sides {
        ledger,
        first,
        second,
    }
}

// The formula has no such sides.
fn no_sides(ledger: Ledger, offset: usize) -> Sides
    ensures { result.ledger ≡ misfitted ledger offset }
{
    Sides {
        ledger: ledger.misfit(offset),
        first: 0,
        second: 0,
    }
}

// The same of what was inferred, where the walk goes on.
pub fn sides_inferred(buffer: &[u8], offset: usize, wanted: FormulaTag, inferred: Inferred) -> Sides
    ensures going { TakesSidesInferred buffer.now offset wanted inferred result }
    ensures stopped { StaysStopped inferred result.ledger }
{
    let ledger = inferred.ledger;
    if !ledger.goes_on() {
        return Sides {
            ledger,
            first: 0,
            second: 0,
        };
    }
    sides_of(buffer, offset, wanted, inferred.judgement, ledger)
}

// 23 and 24: a side of the conjunction that was inferred.
pub fn conjunct(buffer: &[u8], offset: usize, side: Side, inferred: Inferred) -> Inferred
    ensures { Continues buffer.now inferred (side_of side offset) result }
{
    let sides = sides_inferred(buffer, offset, FormulaTag::AndTag, inferred);
    match side {
        Side::First => part_inferred(inferred, sides.ledger, sides.first),
        Side::Second => part_inferred(inferred, sides.ledger, sides.second),
    }
}

// The part of what was inferred that begins at a place, beside a ledger.
fn part_inferred(inferred: Inferred, ledger: Ledger, at: usize) -> Inferred
    ensures { result ≡ record { ledger = ledger; judgement = part_of inferred.judgement at; next = inferred.next } }
{
    Inferred {
        ledger,
        judgement: part_at(inferred.judgement, at),
        next: inferred.next,
    }
}

// 26, before its second step: the implication that was inferred is put to use, where the walk goes on, on the times that stand after
// that step, which ends at a place.
pub fn put_to_use(
    buffer: &[u8],
    proof: &[u8],
    offset: usize,
    inferred: Inferred,
    second_end: usize,
) -> Application
    ensures going { PutsToUse buffer.now proof.now offset inferred second_end result }
    ensures stopped { StaysStopped inferred result.ledger }
{
    let ledger = inferred.ledger;
    if !ledger.goes_on() {
        return unused(inferred.judgement, ledger);
    }
    applied(buffer, proof, offset, inferred, second_end)
}

// What is handed back where no implication is put to use.
fn unused(judgement: Judgement, ledger: Ledger) -> Application
    ensures { result ≡ record { ledger = ledger; premise = judgement; conclusion = 0; middle = 0; next = 0 } }
{
    Application {
        ledger,
        premise: judgement,
        conclusion: 0,
        middle: 0,
        next: 0,
    }
}

// Both sides of the implication that was inferred, on the times that stand at a place, and the two orders that they must be in.
fn applied(
    buffer: &[u8],
    proof: &[u8],
    offset: usize,
    inferred: Inferred,
    second_end: usize,
) -> Application
    ensures { PutsToUse buffer.now proof.now offset inferred second_end result }
{
    let judgement = inferred.judgement;
    let Some((begin, between)) = time_if_any(proof, second_end) else {
        return unused(judgement, inferred.ledger.misfit(offset));
    };
    let Some((end, next)) = time_if_any(proof, between) else {
        return unused(judgement, inferred.ledger.misfit(offset));
    };
    let parts = sides_of(
        buffer,
        offset,
        FormulaTag::ImpliesTag,
        judgement,
        inferred.ledger,
    );
    Application {
        ledger: covers(parts.ledger, offset, judgement, begin, end),
        premise: Judgement {
            from: begin,
            to: end,
            ..part_at(judgement, parts.first)
        },
        conclusion: parts.second,
        middle: inferred.next,
        next,
    }
}

// 27: the for-all that was inferred, with a term of its sort put in.
pub fn instance(buffer: &[u8], offset: usize, inferred: Inferred, term: Term) -> Inferred
    ensures { TermInForm term → Continues buffer.now inferred (put_in offset term) result }
{
    let Inferred {
        ledger,
        judgement,
        next,
    } = inferred;
    let formula = judgement.formula;
    if !ledger.goes_on() {
        return inferred;
    }
    if !is_a(buffer, formula.at, binder_of(term)) {
        return nothing(ledger.misfit(offset));
    }
    let body = FormulaAt {
        at: past(buffer, formula.at),
        terms: formula.terms.with(term),
    };
    Inferred {
        ledger,
        judgement: Judgement {
            formula: body,
            ..judgement
        },
        next,
    }
}

// The binder that a term may be put in for.
fn binder_of(term: Term) -> FormulaTag
    ensures { result ≡ binder_of term }
{
    match term {
        Term::Name(_) => FormulaTag::AllNamesTag,
        Term::When(_) => FormulaTag::AllTimesTag,
    }
}

// 28, 29, 2A, 2B, 2E and 2F: what stands inside of the shell that is wanted.
pub fn inside_of(
    bytes: &[u8],
    offset: usize,
    shell: Shell,
    judgement: Judgement,
    ledger: Ledger,
) -> Inside
    ensures { TakesInside bytes.now offset shell judgement ledger result }
{
    match shell {
        Shell::AtShell => lifted(bytes, offset, judgement, ledger),
        Shell::SaysShell => said(bytes, offset, judgement, ledger),
        Shell::LeftShell => {
            let sides = sides_of(bytes, offset, FormulaTag::OrTag, judgement, ledger);
            side_inside(judgement, sides, sides.first)
        }
        Shell::RightShell => {
            let sides = sides_of(bytes, offset, FormulaTag::OrTag, judgement, ledger);
            side_inside(judgement, sides, sides.second)
        }
    }
}

// 29 and 2B: what stands inside of the shell that was inferred, where the walk goes on.
pub fn inside_inferred(buffer: &[u8], offset: usize, shell: Shell, inferred: Inferred) -> Inside
    ensures going { TakesInsideInferred buffer.now offset shell inferred result }
    ensures stopped { StaysStopped inferred result.ledger }
{
    let Inferred {
        ledger,
        judgement,
        ..
    } = inferred;
    if !ledger.goes_on() {
        let row = Row {
            whose: None,
            judgement,
        };
        return Inside { ledger, row };
    }
    inside_of(buffer, offset, shell, judgement, ledger)
}

// 28 and 29: the formula of an "at", on its own interval.
fn lifted(bytes: &[u8], offset: usize, judgement: Judgement, ledger: Ledger) -> Inside
    ensures { TakesAt bytes.now offset judgement ledger result }
{
    let formula = judgement.formula;
    if !is_a(bytes, formula.at, FormulaTag::AtTag) {
        return not_inside(judgement, ledger, offset);
    }
    let span = span_at(
        bytes,
        past(bytes, formula.at),
        formula.terms,
        offset,
        ledger,
    );
    let inside = Judgement {
        formula: FormulaAt {
            at: span.next,
            ..formula
        },
        from: span.from,
        to: span.to,
    };
    Inside {
        ledger: span.ledger,
        row: Row {
            whose: None,
            judgement: inside,
        },
    }
}

// Two times that stand one after the other.
fn span_at(bytes: &[u8], at: usize, terms: Terms, offset: usize, ledger: Ledger) -> Span
    ensures { TakesTimes bytes.now at terms offset ledger result }
{
    let Some((one_place, between)) = place_if_any(bytes, at, terms, 0) else {
        return no_span(ledger, offset);
    };
    let Some((other_place, next)) = place_if_any(bytes, between, terms, 0) else {
        return no_span(ledger, offset);
    };
    let Place::Fixed(one_term) = one_place else {
        return no_span(ledger, offset);
    };
    let Place::Fixed(other_term) = other_place else {
        return no_span(ledger, offset);
    };
    let Term::When(from) = one_term else {
        return no_span(ledger, offset);
    };
    let Term::When(to) = other_term else {
        return no_span(ledger, offset);
    };
    Span {
        ledger,
        from,
        to,
        next,
    }
}

// What stands there is not two times.
fn no_span(ledger: Ledger, offset: usize) -> Span
    ensures { result.ledger ≡ misfitted ledger offset }
{
    Span {
        ledger: ledger.misfit(offset),
        from: Time::ctime(),
        to: Time::ctime(),
        next: 0,
    }
}

// 2A and 2B: who says, and the formula that is said, on the same interval.
fn said(bytes: &[u8], offset: usize, judgement: Judgement, ledger: Ledger) -> Inside
    ensures { TakesSays bytes.now offset judgement ledger result }
{
    let formula = judgement.formula;
    let terms = formula.terms;
    if !is_a(bytes, formula.at, FormulaTag::SaysTag) {
        return not_inside(judgement, ledger, offset);
    }
    let Some((place, next)) = place_if_any(bytes, past(bytes, formula.at), terms, 0) else {
        return not_inside(judgement, ledger, offset);
    };
    let Place::Fixed(term) = place else {
        return not_inside(judgement, ledger, offset);
    };
    let Term::Name(principal) = term else {
        return not_inside(judgement, ledger, offset);
    };
    let row = Row {
        whose: Some(principal as u64),
        judgement: part_at(judgement, next),
    };
    Inside { ledger, row }
}

// The judgement is not of the kind that the step needs.
fn not_inside(judgement: Judgement, ledger: Ledger, offset: usize) -> Inside
    ensures { result.ledger ≡ misfitted ledger offset }
{
    let row = Row {
        whose: None,
        judgement,
    };
    Inside {
        ledger: ledger.misfit(offset),
        row,
    }
}

// 25: the goal must be top.
pub fn top(bytes: &[u8], offset: usize, goal: Judgement, ledger: Ledger) -> Ledger
    ensures { MeetsGoal bytes.now goal ledger (top_goal offset) result }
{
    if is_a(bytes, goal.formula.at, FormulaTag::TopTag) {
        ledger
    } else {
        ledger.misfit(offset)
    }
}

// 2C: the goal must be a state fact, and hold.
pub fn state_fact(
    bytes: &[u8],
    state: &[u8],
    facts: &mut FactList,
    offset: usize,
    goal: Judgement,
    ledger: Ledger,
) -> Ledger
    ensures { MeetsFact bytes.now state.now facts.old offset goal ledger result facts.new }
{
    if !is_a(bytes, goal.formula.at, FormulaTag::FactTag) {
        return ledger.misfit(offset);
    }
    let Some(fact) = fact_at(bytes, goal.formula) else {
        return ledger.misfit(offset);
    };
    ask_fact(state, facts, ledger, offset, fact)
}

// 2D: the goal must be an order, and hold.
pub fn order(bytes: &[u8], offset: usize, goal: Judgement, ledger: Ledger) -> Ledger
    ensures { MeetsGoal bytes.now goal ledger (order_goal offset) result }
{
    let formula = goal.formula;
    if !is_a(bytes, formula.at, FormulaTag::OrderTag) {
        return ledger.misfit(offset);
    }
    let span = span_at(
        bytes,
        past(bytes, formula.at),
        formula.terms,
        offset,
        ledger,
    );
    ask_order(span.ledger, offset, span.from, span.to)
}

// An inferring step where one is checked: the same formula, on an interval around the goal's.
fn within(buffer: &[u8], bytes: &[u8], offset: usize, inferred: Inferred, goal: Judgement) -> Ledger
    ensures { FitsGoal buffer.now bytes.now offset inferred goal result }
{
    let inferred_side = LentFormula {
        bytes: buffer,
        formula: inferred.judgement.formula,
    };
    let goal_side = LentFormula {
        bytes,
        formula: goal.formula,
    };
    let compared = same(
        inferred_side,
        goal_side,
        0,
        offset,
        inferred.ledger,
        MOST_FORMULA_LEVELS,
    );
    covers(
        compared.ledger,
        offset,
        inferred.judgement,
        goal.from,
        goal.to,
    )
}

// An inferring step where one is checked: where it has stopped, so has the whole.
pub fn checked_by(
    buffer: &[u8],
    goal_bytes: &[u8],
    at: usize,
    inferred: Inferred,
    goal: Judgement,
) -> Checked
    ensures { ChecksInferred buffer.now goal_bytes.now at inferred goal result }
{
    let ledger = inferred.ledger;
    if !ledger.goes_on() {
        return Checked { ledger, next: at };
    }
    Checked {
        ledger: within(buffer, goal_bytes, at, inferred, goal),
        next: inferred.next,
    }
}
