ghost use Rattle.std.specs.Prelude.{◌≡◌};
ghost use Rattle.debugger.specs.Manual.{help_text};

/// What the debugger's commands are and do, a line each.
pub fn help() -> &'static str
    ensures { result.now ≡ help_text }
{
    "\
Words are parted by one space. Numbers are decimal, or hexadecimal behind 0x.
H is a hart's number from 0, A the address of a word, B that of a word of text, as pcs are, N a number of turns.
SORT is get, put, done, grant, forward, putack, ack or nack. Each line of messages begins with SORT H A.
core, evict and deliver show what the step did or sent, done if nothing of these, nothing if it can't be made now.
refused 1 to 4: no command is spelled so, no such hart, nothing at such an address, no hart runs. Then nothing was done.
refused 5: the N turns were taken (of step 1000000), or 16 breakpoints are set. refused 6: memory ran out after the turns before.
step              takes turns until a hart does something, and shows it
run N             takes turns until no hart runs, or one is at a breakpoint; N at most
run               the same, 1000000 turns at most
break B           sets a breakpoint, or clears it
core H            makes one step of hart H's core
evict H A         hart H gives up its line of A's block
deliver SORT H A  the message of this sort from hart H, or to it, about A's block arrives
regs H            hart H's registers, pc and status
word A            the word as it is if all transactions abort
raw A             the word as it stands in place
view H A          the word as hart H sees it
line H A          hart H's line of A's block: its state M, E or S, and its marks r (read), w (written) and x (filled after an overflow)
dir A             the directory's entry of A's block
dirs              the directory's entries of all blocks in use
tx H              hart H's transaction
log A             a word of the undo logs; hart H's begins 4096 * (H + 1) bytes below the end of memory
dis B             the word of text as an instruction
messages          the messages in flight, the oldest first; held where their block is busy
harts             each hart's pc and status, how deep it is in a transaction, and the blocks that it waits for and has reserved
help              these lines
quit              ends
#                 begins a comment
"
}
