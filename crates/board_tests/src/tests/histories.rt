//! Histories of a few choices, as text, and read again.
use crate::tests::claims::{equal, holds};
use reference::Breaking;
use schedule::{
    Choice, History, Name, ScheduleFault, Sort, put_history, read, written_choices_are_read,
};
use std::alloc::{AllocError, Global};
use std::test::Fail;
use words::{BlockNo, HartId, Taken};

const TEXT: &str = "core 1\n\
    core 1\n\
    core 1\n\
    evict 0 0x00002000\n\
    deliver get 7 0xffffffe0\n\
    core 1\n";

fn note(history: &mut History, choice: Choice, times: usize) -> Result<(), AllocError> {
    history.make_room()?;
    history.note(choice, times);
    Ok(())
}

/// Notes the choices of the text, the first two at once.
fn note_all(history: &mut History) -> Result<(), AllocError> {
    note(history, Choice::Core(HartId::new(1)), 2)?;
    note(history, Choice::Core(HartId::new(1)), 1)?;
    note(
        history,
        Choice::Evict(HartId::new(0), BlockNo::new(0x100)),
        1,
    )?;
    let name = Name {
        sort: Sort::Get,
        hart: HartId::new(7),
        block: BlockNo::new(0x07ff_ffff),
    };
    note(history, Choice::Deliver(name), 1)?;
    note(history, Choice::Core(HartId::new(1)), 1)
}

fn noted(alloc: Global) -> Result<History, AllocError> {
    let mut history = History::new(alloc);
    note_all(&mut history)?;
    Ok(history)
}

/// The choices of the text, one by one.
fn noted_from_text(alloc: Global) -> Result<History, ScheduleFault> {
    let mut history = History::new(alloc);
    for choice in &read(alloc, TEXT)? {
        note(&mut history, *choice, 1)?;
    }
    Ok(history)
}

fn put(alloc: Global, history: &History) -> Taken {
    let mut sink = Taken {
        bytes: Vec::new(alloc),
        failed: 0,
    };
    let _ = put_history(&mut sink, history);
    sink
}

#[test]
fn history_is_a_schedule(rt: HostRuntime) -> Result<(), Fail> {
    written_choices_are_read();
    let sink = put(rt.alloc(), &noted(rt.alloc())?);
    holds(
        &rt,
        sink.failed > 0 || sink.bytes.as_slice() == TEXT.as_bytes(),
    );
    Ok(())
}

#[test]
fn schedule_is_a_history(rt: HostRuntime) -> Result<(), Fail> {
    match noted_from_text(rt.alloc()) {
        Ok(history) => {
            let sink = put(rt.alloc(), &history);
            holds(
                &rt,
                sink.failed > 0 || sink.bytes.as_slice() == TEXT.as_bytes(),
            );
        }
        Err(fault) => equal(&rt, &fault, &ScheduleFault::NoMemory),
    }
    Ok(())
}

#[test]
fn failed_put_is_told(rt: HostRuntime) -> Result<(), Fail> {
    let history = noted(rt.alloc())?;
    let mut sink = Breaking::new(rt.alloc(), 3);
    holds(&rt, put_history(&mut sink, &history).is_err());
    equal(&rt, &sink.failed, &1);
    Ok(())
}
