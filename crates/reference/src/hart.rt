ghost use Rattle.std.specs.Prelude.{◌≡◌, ◌≢◌, ◌<◌, ◌≤◌, ◌+◌, ◌%◌, ◌^◌, ℕ, Some, None, true, OnOk, OnErr, IfSome, length};
ghost use Rattle.std.specs.Option.{option_map};
ghost use Rattle.words.specs.Bytes.{bytes_in, number_at};
ghost use Rattle.flat.specs.State.{has_read, has_written};
ghost use Rattle.flat.specs.Causes.{depth_of};
ghost use Rattle.flat.specs.Effects.{put_by, load_by, store_by, write_by, loaded_by, retire_of, tx_put, tx_got, mem_put, mem_by, tx_by, status_by, output_by, hart_after};
ghost use Rattle.flat.specs.Steps.{hart_aborted};
ghost use Rattle.loader.specs.Memory.{mem_of};
ghost use Rattle.reference.specs.States.{tx_of, hart_of, view_of, FitsIn, Fits, HasRoom, stores_after};

use crate::overlay::Overlay;
use loader::{cut_to, lay};
use std::alloc::{AllocError, Global};
use table::{Act, Effect, MemoryAct, extend_load, finish_store, write_register, write_to};
use words::{AbortCause, Access, Addr, Entry, HartId, LOG_RECORDS, Reg, Regs, Status, Width};

/// How many stores an undo log holds, and so how far they are counted.
pub(crate) const MOST_STORES: u8 = LOG_RECORDS as u8;

/// A running transaction.
#[derive(Debug, Drop)]
pub struct Transaction {
    pub checkpoint: Regs,
    pub abort_pc: Addr,
    pub depth: u8,
    pub stores: u8,
    pub overlay: Overlay,
}

/// A hart, and what its running transaction did.
#[derive(Debug, Drop)]
pub struct Hart {
    pub regs: Regs,
    pub pc: Addr,
    pub output: Vec<u8>,
    pub status: Status,
    pub tx: Option<Transaction>,
}

/// A store outside transactions, if there is one.
fn put_plain(memory: &mut [u8], m: &MemoryAct, value: Option<u32>)
    requires { FitsIn (length memory.old) m.now }
    ensures { (a : ℕ) → mem_of memory.new a ≡ mem_put (mem_of memory.old) m.now value a }
{
    if let Some(value) = value {
        lay(memory, m.addr.index(), m.width, value);
    }
}

/// One store more, if there is one.
fn counted(stores: u8, value: Option<u32>) -> u8
    ensures { result ≡ stores_after stores value }
{
    match value {
        Some(_) if stores < MOST_STORES => stores + 1,
        Some(_) => MOST_STORES,
        None => stores,
    }
}

impl Transaction {
    /// A load or a store in the transaction.
    fn access(&mut self, m: &MemoryAct, value: Option<u32>) -> Result<(), AllocError>
        requires { m.now.addr % bytes_in m.now.width ≡ 0 }
        ensures ok { OnOk result ((size : ℕ) → m.now.addr + bytes_in m.now.width ≤ size → tx_of size self.new ≡ tx_put (tx_got (tx_of size self.old) m.now m.now.load) m.now value) }
        ensures err { OnErr result ((size : ℕ) → tx_of size self.new ≡ tx_of size self.old) }
    {
        self.overlay.note(m, value)?;
        self.stores = counted(self.stores, value);
        Ok(())
    }
}

// What the hart sees, and what an effect reads and writes there.
impl Hart {
    fn byte(&self, memory: &[u8], address: usize) -> u8
        requires { address < length memory.now }
        ensures { result ≡ view_of memory.now self.now address }
    {
        match &self.tx {
            Some(tx) => match tx.overlay.byte(address) {
                Some(byte) => byte,
                None => memory[address],
            },
            None => memory[address],
        }
    }

    /// The number that stands at an address.
    pub fn number(&self, memory: &[u8], address: usize, width: Width) -> u32
        requires { address + bytes_in width ≤ length memory.now }
        ensures value { result ≡ number_at (view_of memory.now self.now) address width }
        ensures bound { result < 256 ^ bytes_in width }
    {
        let low = u32::from(self.byte(memory, address));
        match width {
            Width::Byte => low,
            Width::Half => low + 256 * u32::from(self.byte(memory, address + 1)),
            Width::Word => {
                low + 256 * u32::from(self.byte(memory, address + 1))
                    + 65536 * u32::from(self.byte(memory, address + 2))
                    + 16777216 * u32::from(self.byte(memory, address + 3))
            }
        }
    }

    /// What an access stores, if it does.
    fn put(&self, memory: &[u8], m: &MemoryAct) -> Option<u32>
        requires { FitsIn (length memory.now) m.now }
        ensures { result ≡ put_by (view_of memory.now self.now) m.now }
    {
        match &m.store {
            Some(store) => {
                let old = self.number(memory, m.addr.index(), m.width);
                Some(cut_to(m.width, finish_store(*store, old)))
            }
            None => None,
        }
    }

    /// The register that an access writes.
    fn loaded(&self, memory: &[u8], m: &MemoryAct) -> Option<(Reg, u32)>
        requires { FitsIn (length memory.now) m.now }
        ensures { result ≡ loaded_by (view_of memory.now self.now) m.now }
    {
        match &m.load {
            Some(load) => {
                let number = self.number(memory, m.addr.index(), m.width);
                write_to(load.rd, extend_load(load.signed, m.width, number))
            }
            None => None,
        }
    }

    /// The register that an effect writes.
    fn written(&self, memory: &[u8], effect: &Effect) -> Option<(Reg, u32)>
        requires { Fits (length memory.now) effect.now.act }
        ensures { result ≡ write_by (view_of memory.now self.now) effect.now effect.now.act }
    {
        match &effect.act {
            Act::Memory(m) if m.load.is_some() => self.loaded(memory, m),
            _ => effect.write,
        }
    }

    /// The load that an entry shows.
    fn load_of(&self, memory: &[u8], act: &Act) -> Option<Access>
        requires { Fits (length memory.now) act.now }
        ensures { result ≡ load_by (view_of memory.now self.now) act.now }
    {
        match act {
            Act::Memory(m) => match &m.load {
                Some(_) => Some(Access {
                    addr: m.addr,
                    width: m.width,
                    value: self.number(memory, m.addr.index(), m.width),
                }),
                None => None,
            },
            _ => None,
        }
    }

    /// The store that an entry shows.
    fn store_of(&self, memory: &[u8], act: &Act) -> Option<Access>
        requires { Fits (length memory.now) act.now }
        ensures { result ≡ store_by (view_of memory.now self.now) act.now }
    {
        match act {
            Act::Memory(m) => match self.put(memory, m) {
                Some(value) => Some(Access {
                    addr: m.addr,
                    width: m.width,
                    value,
                }),
                None => None,
            },
            _ => None,
        }
    }

    /// The entry of an effect of the word at the hart's pc.
    pub fn entry(&self, memory: &[u8], hart: HartId, word: u32, effect: &Effect) -> Entry
        requires { Fits (length memory.now) effect.now.act }
        ensures { result ≡ retire_of (view_of memory.now self.now) hart (hart_of (length memory.now) self.now) word effect.now }
    {
        Entry::Retire {
            hart,
            pc: self.pc,
            word,
            write: self.written(memory, effect),
            load: self.load_of(memory, &effect.act),
            store: self.store_of(memory, &effect.act),
        }
    }
}

// What an effect does.
impl Hart {
    /// A load or a store.
    fn access(&mut self, memory: &mut [u8], m: &MemoryAct) -> Result<(), AllocError>
        requires { FitsIn (length memory.old) m.now }
        ensures tx { OnOk result (hart_of (length memory.old) self.new ≡ record (hart_of (length memory.old) self.old) { tx = tx_by (view_of memory.old self.old) (hart_of (length memory.old) self.old) (hart_of (length memory.old) self.old).tx (Act.Memory m.now) }) }
        ensures memory { OnOk result ((a : ℕ) → mem_of memory.new a ≡ mem_by (view_of memory.old self.old) (hart_of (length memory.old) self.old).tx (mem_of memory.old) (Act.Memory m.now) a) }
        ensures err { OnErr result ((hart_of (length memory.old) self.new ≡ hart_of (length memory.old) self.old) × (memory.new ≡ memory.old)) }
    {
        let value = self.put(memory, m);
        match &mut self.tx {
            Some(tx) => tx.access(m, value),
            None => {
                put_plain(memory, m, value);
                Ok(())
            }
        }
    }

    /// A transaction begins, or goes one deeper.
    fn begin(&mut self, alloc: Global, abort_pc: Addr)
        requires { depth_of (option_map (tx_of 0) self.old.tx) ≢ 255 }
        ensures { (view : ℕ → ℕ) (size : ℕ) → hart_of size self.new ≡ record (hart_of size self.old) { tx = tx_by view (hart_of size self.old) (hart_of size self.old).tx (Act.Begin abort_pc) } }
    {
        match &mut self.tx {
            Some(tx) => tx.depth += 1,
            None => {
                self.tx = Some(Transaction {
                    checkpoint: self.regs,
                    abort_pc,
                    depth: 1,
                    stores: 0,
                    overlay: Overlay::new(alloc),
                });
            }
        }
    }

    /// A transaction ends, or goes one less deep.
    fn commit(&mut self, memory: &mut [u8])
        ensures tx { (view : ℕ → ℕ) → hart_of (length memory.old) self.new ≡ record (hart_of (length memory.old) self.old) { tx = tx_by view (hart_of (length memory.old) self.old) (hart_of (length memory.old) self.old).tx Act.Commit } }
        ensures memory { (view : ℕ → ℕ) (a : ℕ) → mem_of memory.new a ≡ mem_by view (hart_of (length memory.old) self.old).tx (mem_of memory.old) Act.Commit a }
    {
        match &mut self.tx {
            Some(tx) if tx.depth == 1 => {
                tx.overlay.publish(memory);
                self.tx = None;
            }
            Some(tx) => tx.depth = tx.depth.saturating_sub(1),
            None => {}
        }
    }

    /// A call of the environment.
    fn call(&mut self) -> Result<(), AllocError>
        requires { self.old.status ≡ Status.Running }
        ensures ok { OnOk result ((size : ℕ) → hart_of size self.new ≡ record (hart_of size self.old) { output = output_by self.old.output.items self.old.regs Act.Call; status = status_by self.old.regs Act.Call }) }
        ensures err { OnErr result ((size : ℕ) → hart_of size self.new ≡ hart_of size self.old) }
    {
        let value = self.regs.read(Reg::new(10));
        if self.regs.read(Reg::new(17)) == 93 {
            self.status = Status::Exited(value);
        } else {
            self.output.push((value % 256) as u8)?;
        }
        Ok(())
    }

    /// Does what an act does beside registers and pc.
    fn act(&mut self, alloc: Global, memory: &mut [u8], act: &Act) -> Result<(), AllocError>
        requires running { self.old.status ≡ Status.Running }
        requires fits { Fits (length memory.old) act.now }
        requires room { HasRoom self.old.tx act.now }
        ensures hart { OnOk result (hart_of (length memory.old) self.new ≡ record (hart_of (length memory.old) self.old) {
          output = output_by self.old.output.items self.old.regs act.now;
          status = status_by self.old.regs act.now;
          tx = tx_by (view_of memory.old self.old) (hart_of (length memory.old) self.old) (hart_of (length memory.old) self.old).tx act.now;
        }) }
        ensures memory { OnOk result ((a : ℕ) → mem_of memory.new a ≡ mem_by (view_of memory.old self.old) (hart_of (length memory.old) self.old).tx (mem_of memory.old) act.now a) }
        ensures err { OnErr result ((hart_of (length memory.old) self.new ≡ hart_of (length memory.old) self.old) × (memory.new ≡ memory.old)) }
    {
        match act {
            Act::Memory(m) => self.access(memory, m),
            Act::Begin(abort_pc) => {
                self.begin(alloc, *abort_pc);
                Ok(())
            }
            Act::Commit => {
                self.commit(memory);
                Ok(())
            }
            Act::Call => self.call(),
            Act::Nothing | Act::Conditional(..) | Act::Abort | Act::Break => Ok(()),
        }
    }

    /// Retires an instruction with this effect. It fails only if memory runs out: then nothing changed.
    pub fn retire(
        &mut self,
        alloc: Global,
        memory: &mut [u8],
        effect: &Effect,
    ) -> Result<(), AllocError>
        requires running { self.old.status ≡ Status.Running }
        requires fits { Fits (length memory.old) effect.now.act }
        requires room { HasRoom self.old.tx effect.now.act }
        ensures hart { OnOk result (hart_of (length memory.old) self.new ≡ hart_after (view_of memory.old self.old) (hart_of (length memory.old) self.old) effect.now) }
        ensures memory { OnOk result ((a : ℕ) → mem_of memory.new a ≡ mem_by (view_of memory.old self.old) (hart_of (length memory.old) self.old).tx (mem_of memory.old) effect.now.act a) }
        ensures err { OnErr result ((hart_of (length memory.old) self.new ≡ hart_of (length memory.old) self.old) × (memory.new ≡ memory.old)) }
    {
        let write = self.written(memory, effect);
        self.act(alloc, memory, &effect.act)?;
        self.pc = effect.next;
        write_register(&mut self.regs, write);
        Ok(())
    }

    /// Takes a running transaction back.
    pub fn abort(&mut self, cause: AbortCause)
        requires { self.old.status ≡ Status.Running }
        ensures { (size : ℕ) → IfSome (hart_of size self.old).tx (λ t. hart_of size self.new ≡ hart_aborted (hart_of size self.old) cause t) }
    {
        if let Some(tx) = &self.tx {
            self.regs = tx.checkpoint;
            self.pc = tx.abort_pc;
            if let AbortCause::Trapped(trap, pc) = cause {
                self.status = Status::Stopped(trap, pc);
            }
            self.tx = None;
        }
    }

    /// Whether its transaction has read the block.
    pub fn has_read(&self, block: usize) -> bool
        ensures { (size : ℕ) → result ≡ has_read (hart_of size self.now).tx block }
    {
        match &self.tx {
            Some(tx) => tx.overlay.has_read(block),
            None => false,
        }
    }

    /// Whether its transaction has written the block.
    pub fn has_written(&self, block: usize) -> bool
        ensures { (size : ℕ) → result ≡ has_written (hart_of size self.now).tx block }
    {
        match &self.tx {
            Some(tx) => tx.overlay.has_written(block),
            None => false,
        }
    }
}
