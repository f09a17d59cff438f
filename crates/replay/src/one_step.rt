// The cases of one step and one subject, both by value: matching, weights, and the owned subject.
use crate::say::numbers;
use lent::Refusal;
use lines::text;
use owned::SelectorInputsOwned;
use screen::labelled;
use selector::Specificity;
use steps::SelectorStep;
use typed::SelectorInputs;

fn refused(out: &mut [u8], at: usize, refusal: Refusal) -> usize {
    labelled(out, at, b" refused ", u64::from(refusal.number()))
}

fn matching(out: &mut [u8], at: usize, fits: Result<bool, Refusal>) -> usize {
    match fits {
        Ok(true) => text(out, at, b" yes"),
        Ok(false) => text(out, at, b" no"),
        Err(refusal) => refused(out, at, refusal),
    }
}

// The four counts of ranking 0, or the refusal.
fn weight(out: &mut [u8], at: usize, weighing: Result<Specificity, Refusal>) -> usize {
    match weighing {
        Ok(s) => numbers(out, at, &[s.0, s.1, s.2, s.3]),
        Err(refusal) => refused(out, at, refusal),
    }
}

// The two counts of ranking 1; nothing more where it is refused, as ranking 0 was then.
fn weight3(out: &mut [u8], at: usize, weighing: Result<Specificity, Refusal>) -> usize {
    match weighing {
        Ok(s) => numbers(out, at, &[s.0, s.1]),
        Err(_) => at,
    }
}

// The step of the row at the beginning, written once and read back.
fn step_of(body: &[u32]) -> SelectorStep {
    let row = SelectorStep::from_row(body, 0).row();
    SelectorStep::from_row(&row, 0)
}

// The subject of the row after it, the same way.
fn subject_of(body: &[u32]) -> SelectorInputs {
    let row = SelectorInputs::from_row(body, 22).row();
    SelectorInputs::from_row(&row, 0)
}

// The subject with the ids of `x` sorted and made unique.
fn owned(x: SelectorInputs) -> Result<SelectorInputsOwned, Refusal> {
    SelectorInputsOwned::with_part(
        x.type_tag,
        x.part_tag,
        x.classes,
        x.class_count,
        x.pseudos,
        x.pseudo_count,
    )
}

// Whether the owned subject matches the step, or why there is none.
fn matches_owned(step: SelectorStep, subject: SelectorInputs) -> Result<bool, Refusal> {
    step.matches(owned(subject)?.inputs)
}

// ` w`, and the step's weight in both rankings.
fn weights(out: &mut [u8], at: usize, step: SelectorStep) -> usize {
    let start = text(out, at, b" w");
    let used = weight(out, start, step.specificity());
    weight3(out, used, step.level3_specificity())
}

// ` owned`, and whether the subject with its ids sorted and made unique matches.
fn owned_match(out: &mut [u8], at: usize, step: SelectorStep, subject: SelectorInputs) -> usize {
    let used = text(out, at, b" owned");
    matching(out, used, matches_owned(step, subject))
}

// `step yes w 0 2 0 1 2 1 owned yes`
pub(crate) fn step(body: &[u32], out: &mut [u8], at: usize) -> usize {
    let step = step_of(body);
    let subject = subject_of(body);
    let start = text(out, at, b"step");
    let first = matching(out, start, step.matches(subject));
    let then = weights(out, first, step);
    let last = owned_match(out, then, step, subject);
    text(out, last, b"\n")
}
