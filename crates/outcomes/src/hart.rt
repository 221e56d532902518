ghost use Rattle.std.specs.Prelude.{◌≡◌, ◌≢◌, ◌<◌, ◌≤◌, ◌+◌, ◌%◌, ◌^◌, ◌&&◌, ◌||◌, ℕ, List, Some, None, true, OnOk, OnErr, IfOk, IfSome, IfNone, MatchOption, length};
ghost use Rattle.std.specs.Option.{option_map};
ghost use Rattle.words.specs.Bytes.{bytes_in, number_at};
ghost use Rattle.flat.specs.State.{has_read, has_written};
ghost use Rattle.flat.specs.Causes.{depth_of};
ghost use Rattle.flat.specs.Effects.{put_by, load_by, store_by, write_by, loaded_by, retire_of, tx_put, tx_got, mem_put, mem_by, tx_by, status_by, output_by, hart_after};
ghost use Rattle.outcomes.specs.Harts.{mem_at, tx_of, hart_of, view_of, FitsIn, Fits, HasRoom, stores_after};

use crate::memory::Memory;
use crate::overlay::Overlay;
use loader::cut_to;
use std::alloc::{AllocError, Global};
use table::{Act, Effect, MemoryAct, extend_load, finish_store, write_register, write_to};
use words::{AbortCause, Access, Addr, Entry, HartId, LOG_RECORDS, Reg, Regs, Status, Width};

/// How many stores an undo log holds, and so how far they are counted.
pub(crate) const MOST_STORES: u8 = LOG_RECORDS as u8;

/// A running transaction.
#[derive(Drop, PartialEq, Eq, Hash)]
pub struct Transaction {
    pub checkpoint: Regs,
    pub abort_pc: u32,
    pub depth: u8,
    pub stores: u8,
    pub overlay: Overlay,
}

/// A hart, and what its running transaction did.
#[derive(Drop, PartialEq, Eq)]
#[derive_where(Hash)]
pub struct Hart {
    pub regs: Regs,
    pub pc: u32,
    pub output: Vec<u8>,
    #[derive_where(skip(Hash))]
    pub status: Status,
    pub tx: Option<Transaction>,
}

/// One store more, if there is one.
fn counted(stores: u8, value: Option<u32>) -> u8
    ensures { result ≡ stores_after stores value }
{
    match value {
        Some(_) if stores < MOST_STORES => stores + 1,
        Some(_) => MOST_STORES,
        None => stores,
    }
}

impl Transaction {
    /// A load or a store in the transaction. It fails only if memory runs out.
    fn access(&mut self, m: &MemoryAct, value: Option<u32>) -> Result<(), AllocError>
        requires { m.now.addr % bytes_in m.now.width ≡ 0 }
        ensures { OnOk result ((size : ℕ) → m.now.addr + bytes_in m.now.width ≤ size → tx_of size self.new ≡ tx_put (tx_got (tx_of size self.old) m.now m.now.load) m.now value) }
    {
        self.overlay.note(m, value)?;
        self.stores = counted(self.stores, value);
        Ok(())
    }

    /// A copy of the transaction in memory of its own. It fails only if memory runs out.
    fn copy(&self) -> Result<Transaction, AllocError>
        ensures { IfOk result (λ t. (size : ℕ) → tx_of size t ≡ tx_of size self.now) }
    {
        Ok(Transaction {
            checkpoint: self.checkpoint,
            abort_pc: self.abort_pc,
            depth: self.depth,
            stores: self.stores,
            overlay: self.overlay.copy()?,
        })
    }
}

fn copy_transaction(tx: &Option<Transaction>) -> Result<Option<Transaction>, AllocError>
    ensures { IfOk result (λ t. (size : ℕ) → option_map (tx_of size) t ≡ option_map (tx_of size) tx.now) }
{
    match tx {
        Some(tx) => Ok(Some(tx.copy()?)),
        None => Ok(None),
    }
}

// What the hart sees, and what an effect reads and writes there.
impl Hart {
    /// A copy of the hart in memory of its own. It fails only if memory runs out.
    pub fn copy(&self, alloc: Global) -> Result<Hart, AllocError>
        ensures { IfOk result (λ h. (size : ℕ) → hart_of size h ≡ hart_of size self.now) }
    {
        Ok(Hart {
            regs: self.regs,
            pc: self.pc,
            output: Vec::from_slice(alloc, &self.output)?,
            status: self.status,
            tx: copy_transaction(&self.tx)?,
        })
    }

    fn byte(&self, image: &[u8], memory: &Memory, address: usize) -> u8
        requires { address < length image.now }
        ensures { result ≡ view_of image.now memory.now self.now address }
    {
        match &self.tx {
            Some(tx) => match tx.overlay.byte(address) {
                Some(byte) => byte,
                None => memory.byte(image, address),
            },
            None => memory.byte(image, address),
        }
    }

    /// The number that stands at an address.
    pub fn number(&self, image: &[u8], memory: &Memory, address: usize, width: Width) -> u32
        requires { address + bytes_in width ≤ length image.now }
        ensures value { result ≡ number_at (view_of image.now memory.now self.now) address width }
        ensures bound { result < 256 ^ bytes_in width }
    {
        let low = u32::from(self.byte(image, memory, address));
        match width {
            Width::Byte => low,
            Width::Half => low + 256 * u32::from(self.byte(image, memory, address + 1)),
            Width::Word => {
                low + 256 * u32::from(self.byte(image, memory, address + 1))
                    + 65536 * u32::from(self.byte(image, memory, address + 2))
                    + 16777216 * u32::from(self.byte(image, memory, address + 3))
            }
        }
    }

    /// What an access stores, if it does.
    fn put(&self, image: &[u8], memory: &Memory, m: &MemoryAct) -> Option<u32>
        requires { FitsIn (length image.now) m.now }
        ensures { result ≡ put_by (view_of image.now memory.now self.now) m.now }
    {
        match &m.store {
            Some(store) => {
                let old = self.number(image, memory, m.addr.index(), m.width);
                Some(cut_to(m.width, finish_store(*store, old)))
            }
            None => None,
        }
    }

    /// The register that an access writes.
    fn loaded(&self, image: &[u8], memory: &Memory, m: &MemoryAct) -> Option<(Reg, u32)>
        requires { FitsIn (length image.now) m.now }
        ensures { result ≡ loaded_by (view_of image.now memory.now self.now) m.now }
    {
        match &m.load {
            Some(load) => {
                let number = self.number(image, memory, m.addr.index(), m.width);
                write_to(load.rd, extend_load(load.signed, m.width, number))
            }
            None => None,
        }
    }

    /// The register that an effect writes.
    fn written(&self, image: &[u8], memory: &Memory, effect: &Effect) -> Option<(Reg, u32)>
        requires { Fits (length image.now) effect.now.act }
        ensures { result ≡ write_by (view_of image.now memory.now self.now) effect.now effect.now.act }
    {
        match &effect.act {
            Act::Memory(m) if m.load.is_some() => self.loaded(image, memory, m),
            _ => effect.write,
        }
    }

    /// The load that an entry shows.
    fn load_of(&self, image: &[u8], memory: &Memory, act: &Act) -> Option<Access>
        requires { Fits (length image.now) act.now }
        ensures { result ≡ load_by (view_of image.now memory.now self.now) act.now }
    {
        match act {
            Act::Memory(m) => match &m.load {
                Some(_) => Some(Access {
                    addr: m.addr,
                    width: m.width,
                    value: self.number(image, memory, m.addr.index(), m.width),
                }),
                None => None,
            },
            _ => None,
        }
    }

    /// The store that an entry shows.
    fn store_of(&self, image: &[u8], memory: &Memory, act: &Act) -> Option<Access>
        requires { Fits (length image.now) act.now }
        ensures { result ≡ store_by (view_of image.now memory.now self.now) act.now }
    {
        match act {
            Act::Memory(m) => match self.put(image, memory, m) {
                Some(value) => Some(Access {
                    addr: m.addr,
                    width: m.width,
                    value,
                }),
                None => None,
            },
            _ => None,
        }
    }

    /// The entry of an effect of the word at the hart's pc.
    pub fn entry(
        &self,
        image: &[u8],
        memory: &Memory,
        hart: HartId,
        word: u32,
        effect: &Effect,
    ) -> Entry
        requires { Fits (length image.now) effect.now.act }
        ensures { result ≡ retire_of (view_of image.now memory.now self.now) hart (hart_of (length image.now) self.now) word effect.now }
    {
        Entry::Retire {
            hart,
            pc: Addr::new(self.pc),
            word,
            write: self.written(image, memory, effect),
            load: self.load_of(image, memory, &effect.act),
            store: self.store_of(image, memory, &effect.act),
        }
    }
}

/// A store outside transactions, if there is one. It fails only if memory runs out.
fn put_plain(
    memory: &mut Memory,
    image: &[u8],
    m: &MemoryAct,
    value: Option<u32>,
) -> Result<(), AllocError>
    requires { FitsIn (length image.now) m.now }
    ensures { OnOk result ((a : ℕ) → mem_at image.now memory.new a ≡ mem_put (mem_at image.now memory.old) m.now value a) }
{
    if let Some(value) = value {
        memory.lay(image, m.addr.index(), m.width, value)?;
    }
    Ok(())
}

// What an effect does. Each fails only if memory runs out.
impl Hart {
    /// A load or a store.
    fn access(&mut self, image: &[u8], memory: &mut Memory, m: &MemoryAct) -> Result<(), AllocError>
        requires { FitsIn (length image.now) m.now }
        ensures tx { OnOk result (hart_of (length image.now) self.new ≡ record (hart_of (length image.now) self.old) { tx = tx_by (view_of image.now memory.old self.old) (hart_of (length image.now) self.old) (hart_of (length image.now) self.old).tx (Act.Memory m.now) }) }
        ensures memory { OnOk result ((a : ℕ) → mem_at image.now memory.new a ≡ mem_by (view_of image.now memory.old self.old) (hart_of (length image.now) self.old).tx (mem_at image.now memory.old) (Act.Memory m.now) a) }
    {
        let value = self.put(image, memory, m);
        match &mut self.tx {
            Some(tx) => tx.access(m, value),
            None => put_plain(memory, image, m, value),
        }
    }

    /// A transaction begins, or goes one deeper.
    fn begin(&mut self, alloc: Global, abort_pc: Addr)
        requires { depth_of (option_map (tx_of 0) self.old.tx) ≢ 255 }
        ensures { (view : ℕ → ℕ) (size : ℕ) → hart_of size self.new ≡ record (hart_of size self.old) { tx = tx_by view (hart_of size self.old) (hart_of size self.old).tx (Act.Begin abort_pc) } }
    {
        match &mut self.tx {
            Some(tx) => tx.depth += 1,
            None => {
                self.tx = Some(Transaction {
                    checkpoint: self.regs,
                    abort_pc: abort_pc.value(),
                    depth: 1,
                    stores: 0,
                    overlay: Overlay::new(alloc),
                });
            }
        }
    }

    /// A transaction ends, or goes one less deep.
    fn commit(&mut self, image: &[u8], memory: &mut Memory) -> Result<(), AllocError>
        ensures tx { OnOk result ((view : ℕ → ℕ) → hart_of (length image.now) self.new ≡ record (hart_of (length image.now) self.old) { tx = tx_by view (hart_of (length image.now) self.old) (hart_of (length image.now) self.old).tx Act.Commit }) }
        ensures memory { OnOk result ((view : ℕ → ℕ) (a : ℕ) → mem_at image.now memory.new a ≡ mem_by view (hart_of (length image.now) self.old).tx (mem_at image.now memory.old) Act.Commit a) }
    {
        match &mut self.tx {
            Some(tx) if tx.depth == 1 => {
                tx.overlay.publish(memory, image)?;
                self.tx = None;
            }
            Some(tx) => tx.depth = tx.depth.saturating_sub(1),
            None => {}
        }
        Ok(())
    }

    /// A call of the environment.
    fn call(&mut self) -> Result<(), AllocError>
        requires { self.old.status ≡ Status.Running }
        ensures { OnOk result ((size : ℕ) → hart_of size self.new ≡ record (hart_of size self.old) { output = output_by self.old.output.items self.old.regs Act.Call; status = status_by self.old.regs Act.Call }) }
    {
        let value = self.regs.read(Reg::new(10));
        if self.regs.read(Reg::new(17)) == 93 {
            self.status = Status::Exited(value);
        } else {
            self.output.push((value % 256) as u8)?;
        }
        Ok(())
    }

    /// Does what an act does beside registers and pc.
    fn act(
        &mut self,
        alloc: Global,
        image: &[u8],
        memory: &mut Memory,
        act: &Act,
    ) -> Result<(), AllocError>
        requires running { self.old.status ≡ Status.Running }
        requires fits { Fits (length image.now) act.now }
        requires room { HasRoom self.old.tx act.now }
        ensures hart { OnOk result (hart_of (length image.now) self.new ≡ record (hart_of (length image.now) self.old) {
          output = output_by self.old.output.items self.old.regs act.now;
          status = status_by self.old.regs act.now;
          tx = tx_by (view_of image.now memory.old self.old) (hart_of (length image.now) self.old) (hart_of (length image.now) self.old).tx act.now;
        }) }
        ensures memory { OnOk result ((a : ℕ) → mem_at image.now memory.new a ≡ mem_by (view_of image.now memory.old self.old) (hart_of (length image.now) self.old).tx (mem_at image.now memory.old) act.now a) }
    {
        match act {
            Act::Memory(m) => self.access(image, memory, m),
            Act::Begin(abort_pc) => {
                self.begin(alloc, *abort_pc);
                Ok(())
            }
            Act::Commit => self.commit(image, memory),
            Act::Call => self.call(),
            Act::Nothing | Act::Conditional(_, _) | Act::Abort | Act::Break => Ok(()),
        }
    }

    /// Retires an instruction with this effect.
    pub fn retire(
        &mut self,
        alloc: Global,
        image: &[u8],
        memory: &mut Memory,
        effect: &Effect,
    ) -> Result<(), AllocError>
        requires running { self.old.status ≡ Status.Running }
        requires fits { Fits (length image.now) effect.now.act }
        requires room { HasRoom self.old.tx effect.now.act }
        ensures hart { OnOk result (hart_of (length image.now) self.new ≡ hart_after (view_of image.now memory.old self.old) (hart_of (length image.now) self.old) effect.now) }
        ensures memory { OnOk result ((a : ℕ) → mem_at image.now memory.new a ≡ mem_by (view_of image.now memory.old self.old) (hart_of (length image.now) self.old).tx (mem_at image.now memory.old) effect.now.act a) }
    {
        let write = self.written(image, memory, effect);
        self.act(alloc, image, memory, &effect.act)?;
        self.pc = effect.next.value();
        write_register(&mut self.regs, write);
        Ok(())
    }
}

// What its transaction did.
impl Hart {
    /// Whether its transaction has read the block.
    pub fn has_read(&self, block: usize) -> bool
        ensures { (size : ℕ) → result ≡ has_read (hart_of size self.now).tx block }
    {
        match &self.tx {
            Some(tx) => tx.overlay.has_read(block),
            None => false,
        }
    }

    /// Whether its transaction has written the block.
    pub fn has_written(&self, block: usize) -> bool
        ensures { (size : ℕ) → result ≡ has_written (hart_of size self.now).tx block }
    {
        match &self.tx {
            Some(tx) => tx.overlay.has_written(block),
            None => false,
        }
    }

    /// Whether its transaction stands against another hart's access to the block.
    pub fn stands_against(&self, block: usize, stores: bool) -> bool
        ensures { (size : ℕ) → result ≡ (has_written (hart_of size self.now).tx block || (stores && has_read (hart_of size self.now).tx block)) }
    {
        self.has_written(block) || (stores && self.has_read(block))
    }
}
