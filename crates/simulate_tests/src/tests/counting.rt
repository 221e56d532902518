//! Counts behind the report that cannot be put.
use super::calls::file_of;
use super::checks::check_each_put;
use crate::tests::claims::holds;
use reference::COMMITS;
use std::test::Fail;

#[test]
fn each_put_of_counts_is_refused(rt: HostRuntime) -> Result<(), Fail> {
    let file = file_of(rt.alloc(), &COMMITS)?;
    for form in ["--stats=table", "--stats=csv"] {
        let text = check_each_put(&rt, &["logtm", "run", "f", form], &file, 180);
        holds(&rt, text.starts_with(b"hart 0: exit 0\n"));
    }
    Ok(())
}
