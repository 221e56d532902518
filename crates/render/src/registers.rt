ghost use Rattle.std.specs.Prelude.{◌≡◌, ◌++◌, codes, decimal};
ghost use Rattle.texts.specs.Puts.{Puts};
ghost use Rattle.render.specs.Registers as spec;

use crate::entries::cause_text;
use arrayvec::ArrayString;
use disassembler::{Symbols, register_name};
use itoa::Buffer;
use texts::{hexadecimal, put_all};
use words::{Addr, Reg, Regs, Sink, SinkFault, Status};

/// Puts the registers of a hart, four on a line, and then a line of its pc, with its name, and its status.
pub fn put_registers<S: Sink>(
    names: &Symbols<'_>,
    regs: &Regs,
    pc: Addr,
    status: Status,
    sink: &mut S,
) -> Result<(), SinkFault>
    ensures { Puts (S.state sink.old) (S.state sink.new) (spec.registers_lines names.now regs.now pc status) result }
{
    put_values(regs, sink)?;
    put_progress(names, pc, status, sink)
}

fn put_values<S: Sink>(regs: &Regs, sink: &mut S) -> Result<(), SinkFault>
    ensures { Puts (S.state sink.old) (S.state sink.new) (spec.registers_text regs.now 32) result }
{
    for number in 0..32 {
        put_register(regs, Reg::new(number), sink)?;
    }
    Ok(())
}

fn put_register<S: Sink>(regs: &Regs, reg: Reg, sink: &mut S) -> Result<(), SinkFault>
    ensures { Puts (S.state sink.old) (S.state sink.new) (spec.register_text regs.now reg) result }
{
    let after = if reg.index() % 4 == 3 { "\n" } else { " " };
    put_all(
        sink,
        &[
            register_name(reg).as_bytes(),
            b"=0x",
            &hexadecimal(regs.read(reg)),
            after.as_bytes(),
        ],
    )
}

fn put_progress<S: Sink>(
    names: &Symbols<'_>,
    pc: Addr,
    status: Status,
    sink: &mut S,
) -> Result<(), SinkFault>
    ensures { Puts (S.state sink.old) (S.state sink.new) (spec.progress_line names.now pc status) result }
{
    put_all(
        sink,
        &[
            b"pc=0x",
            &hexadecimal(pc.value()),
            names.label(pc).as_bytes(),
            b" ",
            status_text(status).as_str().as_bytes(),
            b"\n",
        ],
    )
}

/// Whether a hart runs, or how it ended: `running`, `exit A` or `trap N NAME`.
pub fn status_text(status: Status) -> ArrayString<40>
    ensures { result.bytes ≡ spec.status_text status }
{
    match status {
        Status::Running => running(),
        Status::Exited(value) => exited(value),
        Status::Stopped(cause, _) => cause_text(cause),
    }
}

fn running() -> ArrayString<40>
    ensures { result.bytes ≡ codes "running" }
{
    let mut text = ArrayString::new();
    text.push_str("running");
    text
}

fn exited(value: u32) -> ArrayString<40>
    ensures { result.bytes ≡ codes "exit " ++ decimal value }
{
    let mut digits = Buffer::new();
    let mut text = ArrayString::new();
    text.push_str("exit ");
    text.push_str(digits.format(value));
    text
}
