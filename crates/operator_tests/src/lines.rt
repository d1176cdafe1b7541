//! Lines of a source.

ghost use Rattle.std.specs.Prelude.{◌≡◌, true};

use crate::things::{bytes_of, is_so, list_of};
use op_base::{List, NoMemory, Text};
use op_edges::{Line, LineReader, MemSource, Source, SureSource};
use std::alloc::Global;

/// For each line `0` where it is empty, `L` where it is long and `1` else; then `.` for the end,
/// `!` for a fault or `^` for the limit.
fn shapes<S: Source>(alloc: Global, source: &mut S) -> Result<Text, NoMemory> {
    let mut reader = LineReader::new(alloc)?;
    let mut text = Text::new(alloc);
    for _ in 0..9 {
        let line = reader.next(source)?;
        text.push(shape(&line))?;
        match line {
            Line::Whole(_) | Line::Long => {}
            Line::End | Line::Fault | Line::Limit => return Ok(text),
        }
    }
    Ok(text)
}

fn shape(line: &Line) -> char {
    match line {
        Line::Whole(bytes) => if bytes.is_empty() { '0' } else { '1' },
        Line::Long => 'L',
        Line::End => '.',
        Line::Fault => '!',
        Line::Limit => '^',
    }
}

/// Whether the lines of a text have these shapes.
fn are_shaped(alloc: Global, text: &str, wanted: &str) -> Result<bool, NoMemory> {
    let found = shapes(alloc, &mut SureSource::new(bytes_of(alloc, text)?))?;
    Ok(found.as_str() == wanted)
}

/// Whether a second read that fails ends the lines.
fn ends_at_a_fault(alloc: Global) -> Result<bool, NoMemory> {
    let mut source = MemSource::new(bytes_of(alloc, "a\nb")?, list_of(alloc, 2)?);
    Ok(shapes(alloc, &mut source)?.as_str() == "1!")
}

/// A line of so many bytes, and one more line.
fn two_lines(alloc: Global, size: usize) -> Result<List<u8>, NoMemory> {
    let mut bytes = vec![in alloc; b'x'; size]?;
    bytes.extend_from_slice(b"\ny\n")?;
    Ok(List::from_vec(bytes))
}

/// Whether a line of so many bytes, and one more line, have these shapes.
fn are_shaped_at(alloc: Global, size: usize, wanted: &str) -> Result<bool, NoMemory> {
    let found = shapes(alloc, &mut SureSource::new(two_lines(alloc, size)?))?;
    Ok(found.as_str() == wanted)
}

#[test]
fn lines_come_in_order(rt: HostRuntime) {
    assert!(rt; is_so(are_shaped(rt.alloc(), "a\n\nbc", "101.")));
    assert!(rt;
        is_so(are_shaped(rt.alloc(), "", ".")),
        "nothing has no line"
    );
    assert!(rt;
        is_so(ends_at_a_fault(rt.alloc())),
        "a fault before the end"
    );
    assert!(rt; is_so(are_shaped_at(rt.alloc(), 1_048_576, "11.")));
    assert!(rt; is_so(are_shaped_at(rt.alloc(), 1_048_577, "L1.")));
}
