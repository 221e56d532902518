//! The text of each fault of a schedule, a run and a session.

use crate::tests::claims::{equal, equal_text};
use debugger::ConsoleFault;
use debugger::commands::DebugFault;
use schedule::{Halt, ScheduleFault, Unseen};
use std::alloc::AllocError;
use std::fmt::Display;
use std::process::Abort;
use words::SinkFault;

/// Asserts that a fault has this text.
fn check_text<F: Display>(
    rt: &(impl Abort + AllocGlobal),
    fault: &F,
    text: &str,
) -> Result<(), AllocError> {
    equal_text(rt, fault.to_string(rt.alloc())?.as_str(), text);
    Ok(())
}

#[test]
fn faults_of_a_command_have_their_numbers(rt: HostRuntime) -> Result<(), AllocError> {
    for (fault, text) in [
        (DebugFault::Unknown, "1 Unknown"),
        (DebugFault::NoHart, "2 NoHart"),
        (DebugFault::Address, "3 Address"),
        (DebugFault::Stopped, "4 Stopped"),
        (DebugFault::Limit, "5 Limit"),
        (DebugFault::from(AllocError), "6 NoMemory"),
        (DebugFault::from(SinkFault), "7 Device"),
    ] {
        equal(&rt, &fault.text(), &text);
        check_text(&rt, &fault, text)?;
    }
    Ok(())
}

#[test]
fn other_faults_have_their_texts(rt: HostRuntime) -> Result<(), AllocError> {
    check_text(&rt, &ConsoleFault::Unreadable, "a line could not be read")?;
    check_text(&rt, &ConsoleFault::Unwritten, "a text could not be put")?;
    check_text(&rt, &ScheduleFault::Line(3), "line 3 spells no choice")?;
    check_text(&rt, &ScheduleFault::from(AllocError), "no memory")?;
    check_text(&rt, &Halt::from(AllocError), "no memory")?;
    check_text(&rt, &Halt::Untold, "an observer could not tell of a moment")?;
    check_text(&rt, &Unseen, "an observer could not tell of a moment")
}
