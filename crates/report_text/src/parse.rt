//! What a line says, whatever stands before it.

ghost use Rattle.std.specs.Prelude.{◌≡◌, ◌≢◌, ◌∷◌, ◌++◌, ℕ, MatchOption, decimal};
ghost use Rattle.page_bitmap.specs.declared.line.Line.{Line as ALine};
ghost use Rattle.span_state.specs.declared.sweep.SweepNote.{SweepNote as ANote};
ghost use Rattle.cycle_history.specs.declared.Answer.{Answer as AnAnswer};
ghost use Rattle.cycle_history.specs.declared.Total.{Total as ATotal};
ghost use Rattle.cycle_history.specs.declared.Prof.{Prof as AProf};
ghost use Rattle.cycle_history.specs.Text.{answer_text, journal_text};
ghost use Rattle.report_text.specs.declared.item.Item.{Item as Said};
ghost use Rattle.report_text.specs.declared.item.Item.TheVariants.{Bucket, Class, Journal, Object, Sweep};
ghost use Rattle.report_text.specs.Items.{Says};
ghost use Rattle.report_text.specs.Unique.{AnswerFits, LineFits};
ghost use Rattle.report_text.specs.Words.{IsBlock, IsCutOut, IsMissed, IsNoCacheChange, IsNoPlainChange, IsRunOfPages, IsTaken};

use crate::item::Item;
use crate::words::{address, byte_head, byte_last, head, last, short_head, short_last};
use cycle_history::{Answer, Prof, Total};
use page_bitmap::Line;
use span_state::SweepNote;
use trace_reader::words::after;

/// What the line says, if it has the form of any. Most lines are those of objects, which are tried first.
pub(crate) fn item_of(line: &[u8]) -> Option<Item>
    ensures { MatchOption result ((item : Said) → ¬ Says line.now item) (λ item. Says line.now item) }
{
    if let Some((number, answer)) = object_of(line) {
        return Some(Item::Object(number, answer));
    }
    if let Some(note) = sweep_of(line) {
        return Some(Item::Sweep(note));
    }
    if let Some((number, change)) = journal_of(line) {
        return Some(Item::Journal(number, change));
    }
    if let Some(total) = class_of(line) {
        return Some(Item::Class(total));
    }
    if let Some(prof) = bucket_of(line) {
        return Some(Item::Bucket(prof));
    }
    if line == b"end".as_slice() {
        return Some(Item::End);
    }
    None
}

// The answer of an object, with the object's number.
fn object_of(line: &[u8]) -> Option<(u64, Answer)>
    ensures { MatchOption result
        ((n : ℕ) (answer : AnAnswer) → ¬ Says line.now (Object n answer))
        (λ found. Says line.now (Object found.0 found.1)) }
{
    let (number, rest) = head(after(line, b"o ")?)?;
    Some((number, answer_of(rest)?))
}

// What stands behind the object's number and a blank.
fn answer_of(bytes: &[u8]) -> Option<Answer>
    ensures { MatchOption result
        ((answer : AnAnswer) → AnswerFits answer → 32 ∷ bytes.now ≢ answer_text answer)
        (λ answer. AnswerFits answer × (32 ∷ bytes.now ≡ answer_text answer)) }
{
    if let Some(rest) = after(bytes, b"0x") {
        return Some(Answer::Placed(address(rest)?));
    }
    if bytes == b"zero".as_slice() {
        return Some(Answer::Zero);
    }
    Some(Answer::Missed(last(after(bytes, b"miss ")?)?))
}

// A journal line, with its number.
fn journal_of(line: &[u8]) -> Option<(u64, Line)>
    ensures { MatchOption result
        ((n : ℕ) (change : ALine) → ¬ Says line.now (Journal n change))
        (λ found. Says line.now (Journal found.0 found.1)) }
{
    let (number, rest) = head(after(line, b"j ")?)?;
    Some((number, change_of(rest)?))
}

// What stands behind the line's number and a blank.
fn change_of(bytes: &[u8]) -> Option<Line>
    ensures { MatchOption result
        ((change : ALine) → LineFits change → bytes.now ≢ journal_text change)
        (λ change. LineFits change × (bytes.now ≡ journal_text change)) }
{
    let (cycle, rest) = short_head(bytes)?;
    if let Some(change) = plain_change(cycle, rest) {
        return Some(change);
    }
    cache_change(cycle, rest)
}

// A line of a span, a miss or scavenged pages, by what stands behind its cycle and a blank.
fn plain_change(cycle: u32, bytes: &[u8]) -> Option<Line>
    ensures { MatchOption result
        (IsNoPlainChange bytes.now)
        (λ change. LineFits change × (decimal cycle ++ 32 ∷ bytes.now ≡ journal_text change)) }
{
    if let Some((page, pages, class)) = taken(bytes) {
        return Some(Line::Take {
            cycle,
            page,
            pages,
            class,
        });
    }
    if let Some((page, pages)) = run(bytes, b"give ") {
        return Some(Line::Give { cycle, page, pages });
    }
    if let Some((pages, class)) = missed(bytes) {
        return Some(Line::Miss {
            cycle,
            pages,
            class,
        });
    }
    let (page, pages) = run(bytes, b"scav ")?;
    Some(Line::Scav { cycle, page, pages })
}

// A line of a page cache, by what stands behind its cycle and a blank.
fn cache_change(cycle: u32, bytes: &[u8]) -> Option<Line>
    ensures { MatchOption result
        (IsNoCacheChange bytes.now)
        (λ change. LineFits change × (decimal cycle ++ 32 ∷ bytes.now ≡ journal_text change)) }
{
    if let Some((proc, page, pages, class)) = cut_out(bytes) {
        return Some(Line::Cut {
            cycle,
            proc,
            page,
            pages,
            class,
        });
    }
    if let Some((proc, page, pages)) = block(bytes, b"pull ") {
        return Some(Line::Pull {
            cycle,
            proc,
            page,
            pages,
        });
    }
    let (proc, page, pages) = block(bytes, b"drop ")?;
    Some(Line::Drop {
        cycle,
        proc,
        page,
        pages,
    })
}

// The pages of a Take line, and its span class.
fn taken(bytes: &[u8]) -> Option<(u32, u32, u8)>
    ensures { MatchOption result
        ((page : ℕ) (pages : ℕ) (class : ℕ) → ¬ IsTaken bytes.now page pages class)
        (λ found. IsTaken bytes.now found.0 found.1 found.2) }
{
    let (page, rest) = short_head(after(bytes, b"take ")?)?;
    let (pages, rest) = short_head(rest)?;
    Some((page, pages, byte_last(rest)?))
}

// The pages of a Miss line, and its span class.
fn missed(bytes: &[u8]) -> Option<(u32, u8)>
    ensures { MatchOption result
        ((pages : ℕ) (class : ℕ) → ¬ IsMissed bytes.now pages class)
        (λ found. IsMissed bytes.now found.0 found.1) }
{
    let (pages, rest) = short_head(after(bytes, b"miss ")?)?;
    Some((pages, byte_last(rest)?))
}

// The pages behind the word.
fn run(bytes: &[u8], word: &[u8]) -> Option<(u32, u32)>
    ensures { MatchOption result
        ((page : ℕ) (pages : ℕ) → ¬ IsRunOfPages word.now bytes.now page pages)
        (λ found. IsRunOfPages word.now bytes.now found.0 found.1) }
{
    let (page, rest) = short_head(after(bytes, word)?)?;
    Some((page, short_last(rest)?))
}

// The processor and the pages of a Cut line, and its span class.
fn cut_out(bytes: &[u8]) -> Option<(u32, u32, u32, u8)>
    ensures { MatchOption result
        ((proc : ℕ) (page : ℕ) (pages : ℕ) (class : ℕ) → ¬ IsCutOut bytes.now proc page pages class)
        (λ found. IsCutOut bytes.now found.0 found.1 found.2 found.3) }
{
    let (proc, rest) = short_head(after(bytes, b"cut ")?)?;
    let (page, rest) = short_head(rest)?;
    let (pages, rest) = short_head(rest)?;
    Some((proc, page, pages, byte_last(rest)?))
}

// The processor and the pages behind the word.
fn block(bytes: &[u8], word: &[u8]) -> Option<(u32, u32, u32)>
    ensures { MatchOption result
        ((proc : ℕ) (page : ℕ) (pages : ℕ) → ¬ IsBlock word.now bytes.now proc page pages)
        (λ found. IsBlock word.now bytes.now found.0 found.1 found.2) }
{
    let (proc, rest) = short_head(after(bytes, word)?)?;
    let (page, rest) = short_head(rest)?;
    Some((proc, page, short_last(rest)?))
}

// A sweep.
fn sweep_of(line: &[u8]) -> Option<SweepNote>
    ensures { MatchOption result ((note : ANote) → ¬ Says line.now (Sweep note)) (λ note. Says line.now (Sweep note)) }
{
    let (cycle, rest) = short_head(after(line, b"s ")?)?;
    let (page, rest) = short_head(rest)?;
    let (kept, rest) = short_head(rest)?;
    Some(SweepNote {
        cycle,
        page,
        kept,
        freed: short_last(rest)?,
    })
}

// The objects of a size class.
fn class_of(line: &[u8]) -> Option<Total>
    ensures { MatchOption result ((total : ATotal) → ¬ Says line.now (Class total)) (λ total. Says line.now (Class total)) }
{
    let (class, rest) = byte_head(after(line, b"t ")?)?;
    let (mallocs, rest) = head(rest)?;
    Some(Total {
        class,
        mallocs,
        frees: last(rest)?,
    })
}

// A bucket of the profile.
fn bucket_of(line: &[u8]) -> Option<Prof>
    ensures { MatchOption result ((prof : AProf) → ¬ Says line.now (Bucket prof)) (λ prof. Says line.now (Bucket prof)) }
{
    let (mark, rest) = short_head(after(line, b"p ")?)?;
    let (stack, rest) = short_head(rest)?;
    let (size, rest) = head(rest)?;
    let (allocs, rest) = head(rest)?;
    Some(Prof {
        mark,
        stack,
        size,
        allocs,
        frees: last(rest)?,
    })
}
