use debugger::{LineInput, Reading};
use texts::put_all;
use words::Sink;

/// An input each of whose lines is put into a sink, behind `> `, before it is handed out. The end of the input is no line.
pub(crate) struct Echoed<I, S> {
    pub input: I,
    pub sink: S,
}

impl<I: LineInput, S: Sink> LineInput for Echoed<I, S> {
    ghost gives = { λ s reading t. I.gives s.input reading t.input };

    fn read_line(&mut self) -> Reading {
        let reading = self.input.read_line();
        echo(&reading, &mut self.sink);
        reading
    }
}

/// Puts a line that was read. What can't be put is left out.
fn echo<S: Sink>(reading: &Reading, sink: &mut S) {
    match reading {
        Reading::Line(line) => put_typed(line, sink),
        Reading::Last(line) if !line.is_empty() => put_typed(line, sink),
        Reading::Last(_) | Reading::Failed => {}
    }
}

fn put_typed<S: Sink>(line: &[u8], sink: &mut S) {
    let _ = put_all(sink, &[b"> ", line, b"\n"]);
}
