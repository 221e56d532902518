//! The page of a program that stores 7 to 0x2000 in a transaction, and exits: the store misses, and its hart asks the directory for the block.
use super::booted::booted;
use super::refusing::Refusing;
use crate::tests::claims::{equal, equal_at, holds, holds_at};
use disassembler::Symbols;
use machine::Silent;
use pages::put_page;
use reference::COMMITS;
use schedule::{Halt, Turns};
use std::alloc::Global;
use std::process::Abort;
use std::str;
use words::{Addr, Sink, Taken};

/// Before the first step the hart has its number, the number of harts and its stack. It begins its transaction and has 7 in a register; its store asks for the block; the request, the grant and the hart's answer arrive; and the store
/// is made, with a record of the block.
const LINES: &str =
    r#"sets:16,ways:4,harts:1,addresses:["00002000",],first:{harts:[{id:0,pc:"00001000",status:"running",next:"tbegin 20",regs:[0,0,126976,0,0,0,0,0,0,0,0,1,0,0,0,0,0,0,0,0,0,0,0,0,0,0,0,0,0,0,0,0,],lines:[]},],flights:[],words:["00000000","00000000",]},
moments:[
{entry:`0 0x00001000 00000a0b tbegin 20
`,step:"core",hart:{id:0,pc:"00001004",status:"running",next:"lui t0, 0x2",tx:{depth:1,records:0,stamp:"0.0",overflow:false,cycle:false,aborting:false},regs:[0,0,126976,0,0,0,0,0,0,0,0,1,0,0,0,0,0,0,0,0,0,0,0,0,0,0,0,0,0,0,0,0,],lines:[]},flights:[],words:["00000000","00000000",]},
{entry:`0 0x00001004 000022b7 lui t0, 0x2 | t0=0x00002000
`,step:"core",hart:{id:0,pc:"00001008",status:"running",next:"addi t1, zero, 7",tx:{depth:1,records:0,stamp:"0.0",overflow:false,cycle:false,aborting:false},regs:[0,0,126976,0,0,8192,0,0,0,0,0,1,0,0,0,0,0,0,0,0,0,0,0,0,0,0,0,0,0,0,0,0,],lines:[]},flights:[],words:["00000000","00000000",]},
{entry:`0 0x00001008 00700313 addi t1, zero, 7 | t1=0x00000007
`,step:"core",hart:{id:0,pc:"0000100c",status:"running",next:"sw t1, 0(t0)",tx:{depth:1,records:0,stamp:"0.0",overflow:false,cycle:false,aborting:false},regs:[0,0,126976,0,0,8192,7,0,0,0,0,1,0,0,0,0,0,0,0,0,0,0,0,0,0,0,0,0,0,0,0,0,],lines:[]},flights:[],words:["00000000","00000000",]},
{step:"core",hart:{id:0,pc:"0000100c",status:"running",next:"sw t1, 0(t0)",waits:"00002000",tx:{depth:1,records:0,stamp:"0.0",overflow:false,cycle:false,aborting:false},regs:[0,0,126976,0,0,8192,7,0,0,0,0,1,0,0,0,0,0,0,0,0,0,0,0,0,0,0,0,0,0,0,0,0,],lines:[]},flights:[[0,"get 0 0x00002000 write stamp 0.0"],],words:["00000000","00000000",]},
{step:"deliver",arrival:0,directory:"00002000 owner none sharers - busy 0 M",flights:[[1,"grant 0 0x00002000 M expect - content 0x00000000"],],words:["00000000","00000000",]},
{step:"deliver",arrival:1,directory:"00002000 owner none sharers - busy 0 M",hart:{id:0,pc:"0000100c",status:"running",next:"sw t1, 0(t0)",tx:{depth:1,records:0,stamp:"0.0",overflow:false,cycle:false,aborting:false},regs:[0,0,126976,0,0,8192,7,0,0,0,0,1,0,0,0,0,0,0,0,0,0,0,0,0,0,0,0,0,0,0,0,0,],lines:["00002000 M ---",]},flights:[[2,"done 0 0x00002000 ok content -"],],words:["00000000","00000000",]},
{step:"deliver",arrival:2,directory:"00002000 owned 0 sharers - busy -",flights:[],words:["00000000","00000000",]},
{entry:`0 0x0000100c 0062a023 sw t1, 0(t0) | store 4 0x00002000=0x00000007
`,step:"core",hart:{id:0,pc:"00001010",status:"running",next:"tcommit",tx:{depth:1,records:1,stamp:"0.0",overflow:false,cycle:false,aborting:false},regs:[0,0,126976,0,0,8192,7,0,0,0,0,1,0,0,0,0,0,0,0,0,0,0,0,0,0,0,0,0,0,0,0,0,],lines:["00002000 M -w-",]},flights:[],words:["00000007","00000000",]},
{entry:`0 0x00001010 0000100b tcommit
`,step:"core",hart:{id:0,pc:"00001014",status:"running",next:"addi a7, zero, 93",regs:[0,0,126976,0,0,8192,7,0,0,0,0,1,0,0,0,0,0,0,0,0,0,0,0,0,0,0,0,0,0,0,0,0,],lines:["00002000 M ---",]},flights:[],words:["00000007","00000007",]},
]};
</script>
"#;

/// Puts the page of a program's first steps into a sink, with the word at 0x2000.
fn paged<S: Sink>(
    rt: &(impl Abort + AllocGlobal),
    text: &[u32],
    steps: u32,
    sink: &mut S,
) -> Result<(), Halt> {
    let mut machine = booted(rt, text, 1);
    let words = [Addr::new(0x2000)];
    put_page(
        rt.alloc(),
        &Symbols::none(rt.alloc()),
        &mut machine,
        &[],
        steps,
        &mut Turns,
        &words,
        sink,
        &mut Silent,
    )
}

/// A sink in memory.
fn taken(alloc: Global) -> Taken {
    Taken {
        bytes: Vec::new(alloc),
        failed: 0,
    }
}

#[test]
fn each_moment_has_a_line(rt: HostRuntime) {
    let mut sink = taken(rt.alloc());
    match paged(&rt, &COMMITS, 9, &mut sink) {
        Ok(()) => {
            let text = str::from_utf8(&sink.bytes).expect(&rt, "text");
            holds_at(&rt, text.contains(LINES), &text);
            holds(&rt, text.starts_with("<!DOCTYPE html>\n"));
            holds(&rt, text.ends_with("</script>\n</body>\n</html>\n"));
        }
        Err(Halt::NoMemory) => equal(&rt, &sink.failed, &0),
        Err(Halt::Untold) => equal(&rt, &sink.failed, &1),
    }
}

#[test]
fn each_put_that_is_refused_is_told(rt: HostRuntime) {
    // Nine lines have more than 40 pieces each, of which some are longer where there is a hart with its 32 registers.
    for left in 0..400 {
        let mut sink = Refusing { left, failed: 0 };
        let put = paged(&rt, &COMMITS, 9, &mut sink);
        if put != Err(Halt::NoMemory) {
            equal_at(&rt, &put, &Err(Halt::Untold), &left);
            equal(&rt, &sink.failed, &1);
        }
    }
    let mut sink = Refusing {
        left: 4000,
        failed: 0,
    };
    if paged(&rt, &COMMITS, 9, &mut sink) != Err(Halt::NoMemory) {
        equal(&rt, &sink.failed, &0);
    }
}
