//! A text on its way out, chunk after chunk.

ghost use Rattle.std.specs.Prelude.{◌≡◌, ◌≤◌, ◌<◌, ◌+◌, ◌^◌, ℕ, [], false, length, IfOk, OnOk};
ghost use Rattle.std.specs.Result.{is_err};
ghost use Rattle.cwr_record.specs.Lines.{line_of};
ghost use Rattle.cwr_record.specs.Acknowledgement as table;
ghost use Rattle.cwr_acknowledgement.specs.Acknowledgement.{FitsFault, ack_record, message_record, ended};
ghost use Rattle.cwr_acknowledgement.specs.Outgoing.{IsPut, size_of};

use crate::ack_item::AckItem;
use crate::ack_line_writer::{ACK_LEN, AckLineWriter, MESSAGE_LEN};
use crate::places::put_ended;
use byte_streams::{Sink, WriteStopped, write_out};
use cwr_call::Fault;
use cwr_field::Memory;
use std::alloc::Allocator;
use std::marker::Model;

/// How many more bytes are made ready at once.
const STEP: usize = 4096;

/// A text on its way into a sink, line by line.
///
/// Lines are held in a buffer until there is no room for the next one. Then what is held is written out, and the buffer
/// is filled from its front again.
#[derive(Drop)]
pub(crate) struct Outgoing<A: Allocator> {
    /// The bytes that are held, and behind them bytes that are ready to be overwritten.
    bytes: Vec<u8, A>,
    /// How many bytes are held.
    end: usize,
    /// How many bytes were written out.
    sent: u64,
}

impl<A: Allocator> Model for Outgoing<A> {
    ghost use Rattle.std.specs.Prelude.{◌≤◌, take, vec_len, vec_capacity};
    ghost use Rattle.cwr_acknowledgement.specs.Outgoing.{OutgoingState};

    ghost Value = { OutgoingState };

    ghost view = { λ o. record {
      held = take o.end o.bytes.items;
      sent = o.sent;
      ready = vec_len o.bytes;
      capacity = vec_capacity o.bytes;
    } };

    ghost invariant = { λ o. (o.end ≤ vec_len o.bytes) × (187 ≤ vec_capacity o.bytes) };
}

impl<A: Allocator + Copy> Outgoing<A> {
    /// A text of which nothing was put so far. It is written out in chunks of up to `capacity` bytes, at least 187.
    ///
    /// All its memory is asked for here. No later call asks for any.
    pub(crate) fn new(alloc: A, capacity: usize) -> Result<Outgoing<A>, Memory>
        requires { 187 ≤ capacity }
        ensures held { IfOk result (λ o. o.held ≡ []) }
        ensures sent { IfOk result (λ o. o.sent ≡ 0) }
    {
        Ok(Outgoing {
            bytes: Vec::with_capacity(alloc, capacity)?,
            end: 0,
            sent: 0,
        })
    }
}

impl<A: Allocator> Outgoing<A> {
    /// Puts a line, with its end. Where there is no room for it, what is held is written out first.
    pub(crate) fn put_line<W: Sink>(
        &mut self,
        writer: &mut W,
        line: &[u8],
    ) -> Result<(), WriteStopped>
        requires works { W.has_failed writer.old ≡ false }
        requires short { length line.now ≤ 185 }
        requires size { size_of self.old + 187 < 2 ^ 63 }
        ensures put { IsPut result (W.taken writer.old) (W.taken writer.new) self.old self.new 1 (ended line.now) }
        ensures fails { W.has_failed writer.new ≡ is_err result }
    {
        self.make_room(writer, line.len() + 2)?;
        let end = self.end + line.len() + 2;
        put_ended(&mut self.bytes[self.end..end], line);
        self.end = end;
        Ok(())
    }

    /// Puts the ACK line of an item, as transaction `index` of its file (from 0), with its end.
    #[inline(always)]
    pub(crate) fn put_ack<W: Sink>(
        &mut self,
        writer: &mut W,
        form: &mut AckLineWriter,
        index: u32,
        item: &AckItem,
    ) -> Result<(), WriteStopped>
        requires works { W.has_failed writer.old ≡ false }
        requires size { size_of self.old + 187 < 2 ^ 63 }
        ensures put { IsPut result (W.taken writer.old) (W.taken writer.new) self.old self.new 1
            (ended (line_of table.ack (ack_record form.old.stamp form.old.header index item.now))) }
        ensures fails { W.has_failed writer.new ≡ is_err result }
        ensures same { form.new ≡ form.old }
    {
        self.make_room(writer, ACK_LEN)?;
        let end = self.end + ACK_LEN;
        form.fill_ack(&mut self.bytes[self.end..end], index, item);
        self.end = end;
        Ok(())
    }

    /// Puts the MSG line of a fault, as record `detail` of transaction `index` (both from 0), with its end.
    ///
    /// `writer` is where the text is written when the buffer is full, `form` makes the line, and `fault` is the fault.
    #[inline(always)]
    pub(crate) fn put_message<W: Sink>(
        &mut self,
        writer: &mut W,
        form: &mut AckLineWriter,
        index: u32,
        detail: u32,
        fault: &Fault,
    ) -> Result<(), WriteStopped>
        requires works { W.has_failed writer.old ≡ false }
        requires size { size_of self.old + 187 < 2 ^ 63 }
        requires fits { FitsFault fault.now }
        ensures put { IsPut result (W.taken writer.old) (W.taken writer.new) self.old self.new 1
            (ended (line_of table.message (message_record index detail fault.now))) }
        ensures fails { W.has_failed writer.new ≡ is_err result }
        ensures same { form.new ≡ form.old }
    {
        self.make_room(writer, MESSAGE_LEN)?;
        let end = self.end + MESSAGE_LEN;
        form.fill_message(&mut self.bytes[self.end..end], index, detail, fault);
        self.end = end;
        Ok(())
    }

    /// Ensures that `needed` more bytes are ready. Where there is no room for them, what is held is written out.
    #[inline(always)]
    fn make_room<W: Sink>(&mut self, writer: &mut W, needed: usize) -> Result<(), WriteStopped>
        requires works { W.has_failed writer.old ≡ false }
        requires size { size_of self.old < 2 ^ 63 }
        requires needed { needed ≤ 187 }
        ensures put { IsPut result (W.taken writer.old) (W.taken writer.new) self.old self.new 0 [] }
        ensures ready { OnOk result (length self.new.held + needed ≤ self.new.ready) }
        ensures fails { W.has_failed writer.new ≡ is_err result }
    {
        if self.bytes.len() - self.end < needed {
            self.make_more_room(writer, needed)?;
        }
        Ok(())
    }

    /// Makes `needed` more bytes ready. Where there is no room for them, what is held is written out first.
    fn make_more_room<W: Sink>(&mut self, writer: &mut W, needed: usize) -> Result<(), WriteStopped>
        requires works { W.has_failed writer.old ≡ false }
        requires size { size_of self.old < 2 ^ 63 }
        requires needed { needed ≤ 187 }
        ensures put { IsPut result (W.taken writer.old) (W.taken writer.new) self.old self.new 0 [] }
        ensures ready { OnOk result (length self.new.held + needed ≤ self.new.ready) }
        ensures fails { W.has_failed writer.new ≡ is_err result }
    {
        if needed <= self.bytes.capacity() - self.end {
            self.make_ready();
            return Ok(());
        }
        self.write_held(writer)?;
        self.make_ready();
        Ok(())
    }

    /// Makes more bytes ready behind what is held, up to the capacity of the buffer.
    fn make_ready(&mut self)
        ensures held { self.new.held ≡ self.old.held }
        ensures sent { self.new.sent ≡ self.old.sent }
        ensures ready { (needed : ℕ) → needed ≤ 187 → length self.old.held + needed ≤ self.old.capacity → length self.new.held + needed ≤ self.new.ready }
    {
        let ready = self.bytes.capacity().min(self.end + STEP);
        if self.bytes.len() < ready {
            let Ok(()) = self.bytes.resize(ready, b' ') else {
                unreachable!()
            };
        }
    }

    /// Writes out what is held.
    pub(crate) fn write_held<W: Sink>(&mut self, writer: &mut W) -> Result<(), WriteStopped>
        requires works { W.has_failed writer.old ≡ false }
        requires size { size_of self.old < 2 ^ 63 }
        ensures put { IsPut result (W.taken writer.old) (W.taken writer.new) self.old self.new 0 [] }
        ensures none_left { OnOk result (self.new.held ≡ []) }
        ensures room { OnOk result (187 ≤ self.new.capacity) }
        ensures fails { W.has_failed writer.new ≡ is_err result }
    {
        match write_out(writer, &self.bytes[..self.end]) {
            Ok(()) => {
                self.sent += self.end as u64;
                self.end = 0;
                Ok(())
            }
            Err(cut) => Err(WriteStopped {
                sent: self.sent + cut.sent,
            }),
        }
    }

    /// What is held, where nothing was written out before.
    pub(crate) fn into_held(self) -> Vec<u8, A>
        ensures { result.items ≡ self.held }
    {
        let Outgoing {
            mut bytes,
            end,
            sent: _,
        } = self;
        bytes.truncate(end);
        bytes
    }
}
