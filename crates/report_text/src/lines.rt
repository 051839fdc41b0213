//! The lines of a report, one at a time.

ghost use Rattle.std.specs.Prelude.{◌≡◌, ℕ, ◌+◌, ◌≤◌, List, [], ◌∷◌, ◌++◌, decimal, length};
ghost use Rattle.cycle_history.specs.Text.{answer_text, journal_line, journal_text, profile_line, sweep_line, total_line};

use cycle_history::{Answer, Prof, Total};
use page_bitmap::Line;
use span_state::SweepNote;
use text_line::{Counter, TextLine};

/// What has a line of its own in a report.
pub(crate) trait ReportLine {
    // the line of the item with this number, without its line feed
    ghost printed: { ℕ → Self → List ℕ };

    /// Puts together the line of the item whose number is counted. Some kinds of lines don't show the number.
    fn push_line(&self, text: &mut TextLine, counter: &Counter)
        requires { text.old ≡ [] }
        ensures text { (number : ℕ) → counter.now ≡ decimal number → text.new ≡ printed number self.now ++ 10 ∷ [] }
        ensures short { length text.new ≤ 128 };
}

impl ReportLine for Line {
    ghost printed = { journal_line };

    fn push_line(&self, text: &mut TextLine, counter: &Counter) {
        text.push(b"j ");
        text.push_counter(counter);
        text.push(b" ");
        push_journal(text, *self);
        text.push(b"\n");
    }
}

impl ReportLine for SweepNote {
    ghost printed = { λ _ note. sweep_line note };

    fn push_line(&self, text: &mut TextLine, _counter: &Counter) {
        text.push(b"s ");
        text.push_decimal(u64::from(self.cycle));
        push_field(text, u64::from(self.page));
        push_field(text, u64::from(self.kept));
        push_field(text, u64::from(self.freed));
        text.push(b"\n");
    }
}

impl ReportLine for Total {
    ghost printed = { λ _ total. total_line total };

    fn push_line(&self, text: &mut TextLine, _counter: &Counter) {
        text.push(b"t ");
        text.push_decimal(u64::from(self.class));
        push_field(text, self.mallocs);
        push_field(text, self.frees);
        text.push(b"\n");
    }
}

impl ReportLine for Prof {
    ghost printed = { λ _ prof. profile_line prof };

    fn push_line(&self, text: &mut TextLine, _counter: &Counter) {
        text.push(b"p ");
        text.push_decimal(u64::from(self.mark));
        push_field(text, u64::from(self.stack));
        push_field(text, self.size);
        push_field(text, self.allocs);
        push_field(text, self.frees);
        text.push(b"\n");
    }
}

/// Appends what stands behind the number of an answer.
pub(crate) fn push_answer(text: &mut TextLine, answer: Answer)
    requires { length text.old ≤ 24 }
    ensures text { text.new ≡ text.old ++ answer_text answer }
    ensures short { length text.new ≤ 96 }
{
    match answer {
        Answer::Placed(address) => {
            text.push(b" 0x");
            text.push_hexadecimal(address);
        }
        Answer::Zero => text.push(b" zero"),
        Answer::Missed(number) => {
            text.push(b" miss ");
            text.push_decimal(number);
        }
    }
}

// Appends what stands behind the number of a journal line.
fn push_journal(text: &mut TextLine, line: Line)
    requires { length text.old ≤ 24 }
    ensures text { text.new ≡ text.old ++ journal_text line }
    ensures short { length text.new ≤ 112 }
{
    match line {
        Line::Take {
            cycle,
            page,
            pages,
            class,
        } => push_take(text, cycle, page, pages, class),
        Line::Miss {
            cycle,
            pages,
            class,
        } => push_run(text, cycle, b" miss ", pages, u32::from(class)),
        Line::Give { cycle, page, pages } => push_run(text, cycle, b" give ", page, pages),
        Line::Scav { cycle, page, pages } => push_run(text, cycle, b" scav ", page, pages),
        Line::Pull {
            cycle,
            proc,
            page,
            pages,
        } => push_block(text, cycle, b" pull ", proc, page, pages),
        Line::Cut {
            cycle,
            proc,
            page,
            pages,
            class,
        } => push_cut(text, cycle, proc, page, pages, class),
        Line::Drop {
            cycle,
            proc,
            page,
            pages,
        } => push_block(text, cycle, b" drop ", proc, page, pages),
    }
}

// The same of a Take line.
fn push_take(text: &mut TextLine, cycle: u32, page: u32, pages: u32, class: u8)
    requires { length text.old ≤ 24 }
    ensures text { text.new ≡ text.old ++ journal_text (Line.Take cycle page pages class) }
    ensures short { length text.new ≤ 112 }
{
    push_run(text, cycle, b" take ", page, pages);
    push_field(text, u64::from(class));
}

// The same of a Cut line.
fn push_cut(text: &mut TextLine, cycle: u32, proc: u32, page: u32, pages: u32, class: u8)
    requires { length text.old ≤ 24 }
    ensures text { text.new ≡ text.old ++ journal_text (Line.Cut cycle proc page pages class) }
    ensures short { length text.new ≤ 112 }
{
    push_block(text, cycle, b" cut ", proc, page, pages);
    push_field(text, u64::from(class));
}

// Appends a cycle, a word and two numbers.
fn push_run(text: &mut TextLine, cycle: u32, word: &[u8], first: u32, second: u32)
    requires room { length text.old ≤ 24 }
    requires word { length word.now ≤ 6 }
    ensures text { text.new ≡ text.old ++ (decimal cycle ++ (word.now ++ (decimal first ++ (32 ∷ decimal second)))) }
    ensures short { length text.new ≤ length text.old + 37 }
{
    text.push_short(cycle);
    text.push(word);
    push_pair(text, first, second);
}

// Appends a cycle, a word, a processor and the pages of its page cache.
fn push_block(text: &mut TextLine, cycle: u32, word: &[u8], proc: u32, page: u32, pages: u32)
    requires room { length text.old ≤ 24 }
    requires word { length word.now ≤ 6 }
    ensures text { text.new ≡ text.old ++ (decimal cycle ++ (word.now ++ (decimal proc ++ (32 ∷ (decimal page ++ (32 ∷ decimal pages)))))) }
    ensures short { length text.new ≤ length text.old + 48 }
{
    text.push_short(cycle);
    text.push(word);
    push_pair(text, proc, page);
    text.push(b" ");
    text.push_short(pages);
}

// Appends two numbers with a space between them.
fn push_pair(text: &mut TextLine, first: u32, second: u32)
    requires { length text.old ≤ 64 }
    ensures text { text.new ≡ text.old ++ (decimal first ++ (32 ∷ decimal second)) }
    ensures short { length text.new ≤ length text.old + 21 }
{
    text.push_short(first);
    text.push(b" ");
    text.push_short(second);
}

// Appends a space and a number.
fn push_field(text: &mut TextLine, number: u64)
    requires { length text.old ≤ 105 }
    ensures text { text.new ≡ text.old ++ 32 ∷ decimal number }
    ensures short { length text.new ≤ length text.old + 21 }
{
    text.push(b" ");
    text.push_decimal(number);
}
