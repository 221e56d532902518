ghost use Rattle.std.specs.Prelude.{◌≡◌, IfOk, OnOk, OnErr, IsSomeAnd, None};
ghost use Rattle.words.specs.declared.entry.Step.TheVariants.{Deliver};
ghost use Rattle.machine.specs.Mail.{in_flight};
ghost use Rattle.machine.specs.Making.{MakesStep};
ghost use Rattle.machine.specs.Sorts.{IsGet, IsPut, IsDone, IsGrant, IsForward, IsPutAck, IsAck, IsNack};

use crate::machine::Machine;
use crate::mail::{answer, answer_done, answer_forward, answer_get, take};
use directory::Request;
use hart::Granted;
use std::alloc::AllocError;
use words::{Entry, HARTS, Message};

/// Messages that arrive. Each kind has an arm of its own, in which its hart's answer is sent before paths meet: where several meet in one answer, that is put
/// together in memory.
impl<const SETS: usize, const WAYS: usize> Machine<SETS, WAYS> {
    ghost use Rattle.machine.specs.States.{shown, geometry};

    /// The message with a number arrives. A message that is held stays in flight.
    ///
    /// It is too large to be inlined at more than one place, so each place that calls it has a number of its own, and so code of its own.
    pub(crate) fn deliver<const PLACE: usize>(
        &mut self,
        number: u64,
    ) -> Result<Option<Entry>, AllocError>
        ensures steps { IfOk result (λ e. MakesStep (geometry SETS WAYS) self.old (Deliver number) e self.new) }
        ensures err { OnErr result (self.new ≡ self.old) }
    {
        let Some(message) = self.net.peek(number) else {
            return Ok(None);
        };
        match message {
            Message::Grant { .. } => self.grant_arrives(number),
            Message::Forward { .. } => return Ok(self.forward_arrives(number)),
            Message::PutAck { .. } => self.put_ack_arrives(number),
            Message::Ack { .. } => self.ack_arrives(number),
            Message::Nack { .. } => self.nack_arrives(number),
            Message::Get { .. } => self.get_arrives(number)?,
            Message::Put { .. } => self.put_arrives(number),
            Message::Done { .. } => self.done_arrives(number),
        }
        Ok(None)
    }

    /// A grant arrives at a hart. One for no hart stays in flight.
    #[inline(always)]
    fn grant_arrives(&mut self, number: u64)
        requires { IsSomeAnd (in_flight self.old.flights number) IsGrant }
        ensures { MakesStep (geometry SETS WAYS) self.old (Deliver number) None self.new }
    {
        let Some(
            &Message::Grant {
                to,
                block,
                give,
                content,
                expect,
            },
        ) = self.net.peek(number)
        else {
            unreachable!()
        };
        let i = to.index();
        if i >= self.seats.len() {
            return;
        }
        let granted = Granted {
            give,
            content,
            expect,
        };
        let settled = self.seats[i].hart.on_grant(block, &granted);
        answer_done(&mut self.net, number, to, settled);
    }

    /// An acknowledgement arrives at a hart. One for no hart stays in flight.
    #[inline(always)]
    fn ack_arrives(&mut self, number: u64)
        requires { IsSomeAnd (in_flight self.old.flights number) IsAck }
        ensures { MakesStep (geometry SETS WAYS) self.old (Deliver number) None self.new }
    {
        let Some(
            &Message::Ack {
                from,
                to,
                block,
                content,
            },
        ) = self.net.peek(number)
        else {
            unreachable!()
        };
        let i = to.index();
        if i >= self.seats.len() {
            return;
        }
        let settled = self.seats[i].hart.on_ack(block, from, &content);
        answer_done(&mut self.net, number, to, settled);
    }

    /// A refusal arrives at a hart. One for no hart stays in flight.
    #[inline(always)]
    fn nack_arrives(&mut self, number: u64)
        requires { IsSomeAnd (in_flight self.old.flights number) IsNack }
        ensures { MakesStep (geometry SETS WAYS) self.old (Deliver number) None self.new }
    {
        let Some(
            &Message::Nack {
                from,
                to,
                block,
                stamp,
            },
        ) = self.net.peek(number)
        else {
            unreachable!()
        };
        let i = to.index();
        if i >= self.seats.len() {
            return;
        }
        let settled = self.seats[i].hart.on_nack(block, from, stamp);
        answer_done(&mut self.net, number, to, settled);
    }

    /// A forwarded request arrives at a hart. One for no hart stays in flight.
    #[inline(always)]
    fn forward_arrives(&mut self, number: u64) -> Option<Entry>
        requires { IsSomeAnd (in_flight self.old.flights number) IsForward }
        ensures { MakesStep (geometry SETS WAYS) self.old (Deliver number) result self.new }
    {
        let Some(
            &Message::Forward {
                to,
                block,
                kind,
                requester,
                stamp,
            },
        ) = self.net.peek(number)
        else {
            unreachable!()
        };
        let i = to.index();
        if i >= self.seats.len() {
            return None;
        }
        let reply = self.seats[i].hart.on_forward(block, kind, stamp);
        answer_forward(&mut self.net, number, to, requester, block, reply)
    }

    /// The acknowledgement of a Put arrives at a hart. One for no hart stays in flight.
    #[inline(always)]
    fn put_ack_arrives(&mut self, number: u64)
        requires { IsSomeAnd (in_flight self.old.flights number) IsPutAck }
        ensures { MakesStep (geometry SETS WAYS) self.old (Deliver number) None self.new }
    {
        let Some(&Message::PutAck { to, block }) = self.net.peek(number) else {
            unreachable!()
        };
        let i = to.index();
        if i >= self.seats.len() {
            return;
        }
        self.seats[i].hart.on_put_ack(block);
        take(&mut self.net, number);
    }

    /// A request arrives at the directory. One that has to wait stays in flight. It fails only if memory runs out.
    #[inline(always)]
    fn get_arrives(&mut self, number: u64) -> Result<(), AllocError>
        requires { IsSomeAnd (in_flight self.old.flights number) IsGet }
        ensures steps { OnOk result (MakesStep (geometry SETS WAYS) self.old (Deliver number) None self.new) }
        ensures err { OnErr result (self.new ≡ self.old) }
    {
        let Some(
            &Message::Get {
                from,
                block,
                kind,
                stamp,
            },
        ) = self.net.peek(number)
        else {
            unreachable!()
        };
        let request = Request {
            requester: from,
            block,
            kind,
            stamp,
        };
        self.net.reserve(HARTS)?;
        if let Some(given) = self.directory.get(&request)? {
            let content = self.directory.memory(block);
            let harts = self.directory.harts();
            answer_get(&mut self.net, number, &request, &given, content, harts);
        }
        Ok(())
    }

    /// A block that a hart gives up arrives at the directory. One that has to wait stays in flight.
    #[inline(always)]
    fn put_arrives(&mut self, number: u64)
        requires { IsSomeAnd (in_flight self.old.flights number) IsPut }
        ensures { MakesStep (geometry SETS WAYS) self.old (Deliver number) None self.new }
    {
        let Some(
            &Message::Put {
                from,
                block,
                content,
                marked,
            },
        ) = self.net.peek(number)
        else {
            unreachable!()
        };
        if self.directory.put(from, block, &content, marked) {
            answer(&mut self.net, number, Message::PutAck { to: from, block });
        }
    }

    /// The end of a request arrives at the directory.
    #[inline(always)]
    fn done_arrives(&mut self, number: u64)
        requires { IsSomeAnd (in_flight self.old.flights number) IsDone }
        ensures { MakesStep (geometry SETS WAYS) self.old (Deliver number) None self.new }
    {
        let Some(
            &Message::Done {
                from,
                block,
                ok,
                content,
            },
        ) = self.net.peek(number)
        else {
            unreachable!()
        };
        self.directory.done(from, block, ok, &content);
        take(&mut self.net, number);
    }
}
