//! A trace's objects with their answers.

ghost use Rattle.std.specs.Prelude.{◌≡◌, ◌≤◌, ◌^◌, ◌↔◌, IfErr, IfOk, MatchBool};
ghost use Rattle.cycle_history.specs.declared.Answer.TheVariants.{Zero};
ghost use Rattle.cycle_history.specs.Before.{IsLimited};
ghost use Rattle.cycle_history.specs.Sound.{HasAnswers};
ghost use Rattle.report_check.specs.Answers.{BreaksAnswers};
ghost use Rattle.report_check.specs.Fault.{IsFaultOf};
ghost use Rattle.report_check.specs.Items.{objects_of};

use crate::CheckFault;
use crate::asked::{Asked, asked_of};
use crate::lines::end_of;
use crate::view::ReportView;
use cycle_history::Answer;
use edge_io::List;
use size_classes::{Kind, PAGE_SIZE, class_of, slot_size, span_class, span_objects, span_pages};
use std::alloc::Global;
use trace_reader::Trace;

/// An object with its answer, what it needs of a span, and where it sits. The fields stand by their widths, so that a long list of
/// objects takes the least memory.
#[derive(Clone, Copy, Debug)]
pub struct Item {
    /// The answer that the report prints.
    pub answer: Answer,
    /// The bytes of a slot of the span that it needs.
    pub slot: u64,
    /// The number of the Take line of the span in which it sits, once its seat is known.
    pub life: u64,
    /// Its index there.
    pub index: u32,
    /// The processor that asks.
    pub proc: u32,
    /// The cycle in which it is asked for.
    pub cycle: u32,
    /// The pages of that span.
    pub pages: u32,
    /// The number of that span's slots.
    pub count: u32,
    /// That span's class.
    pub class: u8,
}

impl Item {
    ghost use Rattle.report_check.specs.Items.{IsItem, request_of};

    /// The object of a request with its answer, which is zero exactly where the size is 0.
    pub fn new(asked: Asked, answer: Answer) -> Item
        requires size { asked.event.size ≤ 2 ^ 40 }
        requires zero { (answer ≡ Zero) ↔ (asked.event.size ≡ 0) }
        ensures item { IsItem (request_of asked) result }
        ensures answer { result.answer ≡ answer }
    {
        let event = asked.event;
        let (class, pages, slot, count) = match class_of(event.size) {
            Kind::Zero => (0, 0, 0, 0),
            Kind::Small(class) => (
                span_class(class, event.scan),
                span_pages(class),
                u64::from(slot_size(class)),
                span_objects(class),
            ),
            Kind::Large(pages) => (
                span_class(0, event.scan),
                pages,
                PAGE_SIZE * u64::from(pages),
                1,
            ),
        };
        Item {
            answer,
            slot,
            life: 0,
            index: 0,
            proc: u32::from(event.proc),
            cycle: asked.cycle,
            pages,
            count,
            class,
        }
    }
}

/// The objects of a trace with their answers, which the report prints: rule 1.
pub fn items_of(alloc: Global, trace: &Trace, report: &ReportView) -> Result<List<Item>, CheckFault>
    requires limited { IsLimited trace.now }
    ensures answers { IfOk result (λ items. HasAnswers trace.now report.now (objects_of items)) }
    ensures fault { IfErr result (IsFaultOf 1 (BreaksAnswers trace.now report.now)) }
{
    let asked = asked_of(alloc, trace)?;
    let answers = report.answers();
    let mut items = List::new(alloc);
    for request in asked.as_slice() {
        let number = items.len();
        if number == answers.len() {
            let line = end_of(report);
            return Err(CheckFault::Broken { rule: 1, line });
        }
        let answer = answers[number];
        if !is_right(answer, request.event.size) {
            let line = number as u64 + 1;
            return Err(CheckFault::Broken { rule: 1, line });
        }
        items.push(Item::new(*request, answer))?;
    }
    if items.len() < answers.len() {
        let line = items.len() as u64 + 1;
        return Err(CheckFault::Broken { rule: 1, line });
    }
    Ok(items)
}

/// Whether an answer is zero exactly where the size is 0.
pub fn is_right(answer: Answer, size: u64) -> bool
    ensures { MatchBool result ((answer ≡ Zero) ↔ (size ≡ 0)) (¬ ((answer ≡ Zero) ↔ (size ≡ 0))) }
{
    match answer {
        Answer::Zero => size == 0,
        _ => size != 0,
    }
}
