use crate::tests::claims::{equal, equal_items};
use std::test::Fail;
use texts::{hexadecimal, put_all};
use words::{SinkFault, Taken};

#[test]
fn a_word_has_eight_digits(rt: HostRuntime) -> Result<(), Fail> {
    equal(&rt, &hexadecimal(0x0bad_cafe), &*b"0badcafe");
    equal(&rt, &hexadecimal(0x1234_5678), &*b"12345678");
    equal(&rt, &hexadecimal(9), &*b"00000009");
    Ok(())
}

#[test]
fn pieces_are_put_in_order(rt: HostRuntime) -> Result<(), Fail> {
    let mut sink = Taken {
        bytes: Vec::new(rt.alloc()),
        failed: 0,
    };
    match put_all(&mut sink, &[b"one", b"", b" two"]) {
        Ok(()) => equal_items(&rt, &sink.bytes[..], b"one two"),
        Err(fault) => {
            equal(&rt, &fault, &SinkFault);
            equal(&rt, &sink.failed, &1);
        }
    }
    Ok(())
}
