//! The lines of a trace as text, one at a time. Each has its line feed.

ghost use Rattle.std.specs.Prelude.{◌≡◌, [], ◌∷◌, ◌++◌};
ghost use Rattle.trace_reader.specs.Spelling.{alloc_line, form_of, gc_line, kind, line_for, heap_of, mark_line, title_line};

use text_line::TextLine;
use trace_reader::{Event, Header, Span};

/// Puts the first line together.
pub(crate) fn push_title_line(line: &mut TextLine, version: u8)
    requires { line.old ≡ [] }
    ensures { line.new ≡ title_line version ++ 10 ∷ [] }
{
    line.push(b"goheap ");
    line.push_short(u32::from(version));
    line.push(b"\n");
}

/// Puts the second line together.
pub(crate) fn push_heap_line(line: &mut TextLine, header: Header)
    requires { line.old ≡ [] }
    ensures { line.new ≡ line_for (heap_of header) ++ 10 ∷ [] }
{
    line.push(b"heap ");
    line.push_short(header.chunks);
    line.push(b" procs ");
    line.push_short(header.procs);
    line.push(b" rate ");
    line.push_decimal(header.rate);
    line.push(b" seed ");
    line.push_decimal(header.seed);
    line.push(b" goal ");
    line.push_short(header.goal);
    line.push(b"\n");
}

/// Puts the line of an event together.
pub(crate) fn push_alloc_line(line: &mut TextLine, event: Event)
    requires { line.old ≡ [] }
    ensures { line.new ≡ alloc_line (form_of event) ++ 10 ∷ [] }
{
    line.push(b"a ");
    line.push_short(u32::from(event.proc));
    line.push(b" ");
    line.push_decimal(event.size);
    line.push(kind_text(event.scan));
    line.push_short(event.stack);
    line.push(b"\n");
}

/// Puts the line of a mark end together.
pub(crate) fn push_gc_line(line: &mut TextLine, distance: u64)
    requires { line.old ≡ [] }
    ensures { line.new ≡ gc_line distance ++ 10 ∷ [] }
{
    line.push(b"gc ");
    line.push_decimal(distance);
    line.push(b"\n");
}

/// Puts the line of marks together.
pub(crate) fn push_mark_line(line: &mut TextLine, span: Span)
    requires { line.old ≡ [] }
    ensures { line.new ≡ mark_line span.lo span.hi ++ 10 ∷ [] }
{
    line.push(b"m ");
    line.push_short(span.lo);
    line.push(b" ");
    line.push_short(span.hi);
    line.push(b"\n");
}

// How a line says that an object has pointers, or has none.
fn kind_text(scan: bool) -> &'static [u8]
    ensures { result.now ≡ kind scan }
{
    if scan { b" s " } else { b" n " }
}
