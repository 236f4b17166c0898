ghost use Rattle.std.specs.Prelude.{◌≡◌, ℕ, ◌+◌, ◌-◌, ◌<◌, ◌≤◌, List, [], ◌++◌, length, map};
ghost use Rattle.std.specs.Prelude.{Ok, IfOk};
ghost use Rattle.std.specs.Option.{option_copied};
ghost use Rattle.edge_traits.specs.Causes.{Rose};
ghost use Rattle.httparse.specs.Grammar.{RequestHead};
ghost use Rattle.httparse.specs.Spans.{name_and_value};
ghost use Rattle.http_wire.specs.Buffers.{unused_bytes};
ghost use Rattle.http_wire.specs.Heads.{IsSmall, first_value};
ghost use Rattle.http_wire.specs.Messages.{RequestMessage, IsSpelled, spelling};
ghost use Rattle.http_wire.specs.Messages.{body_size, closes_after};
ghost use Rattle.http_wire.specs.declared.limits.TheConstants.{HEAD_LIMIT, BODY_LIMIT, ANSWER_ROOM};
ghost use Rattle.http_wire.specs.declared.taken.Taken.TheVariants as taken;

use crate::answer_buffer::AnswerBuffer;
use crate::bodies::{BodyRead, read_body};
use crate::buffer::HeadBuffer;
use crate::found::Found;
use crate::message_fault::MessageFault;
use crate::skipping::Dropped;
use crate::taken::Taken;
use edge_traits::Source;
use httparse::spans::RequestSpans;
use std::alloc::{AllocError, Global};

/// The input of a link, from which one message after another is taken, and room for an answer. Its memory is taken once
/// for the link's life.
#[derive(Drop)]
pub struct Inbox {
    buffer: HeadBuffer,
    used: usize,
    answer: AnswerBuffer,
    ghost within: { used ≤ length (unused_bytes buffer) },
}

impl Inbox {
    ghost use Rattle.http_wire.specs.HeldAnswers.{SameInput, answer_in};
    ghost use Rattle.http_wire.specs.Taken.{waiting, head_bytes, AreSpansOf, IsHeadOf};
    ghost use Rattle.http_wire.specs.Taken.{Takes, Holds};

    /// An inbox of which nothing was taken, with an empty answer.
    ///
    /// # Errors
    ///
    /// `AllocError` where there is no memory for its rooms.
    pub fn new(alloc: Global) -> Result<Inbox, AllocError>
        ensures waiting { IfOk result (λ inbox. waiting inbox ≡ []) }
        ensures answer { IfOk result (λ inbox. answer_in inbox ≡ []) }
    {
        Ok(Inbox {
            buffer: HeadBuffer::new(alloc)?,
            used: 0,
            answer: AnswerBuffer::new(alloc)?,
        })
    }

    /// Takes the message at the front of the input, or finds why there is none.
    pub fn take<S: Source>(&mut self, alloc: Global, source: &mut S) -> Taken
        ensures taken { Takes (waiting self.old) (S.left source.old) self.new (S.left source.new)
            result }
        ensures beside { S.beside source.new ≡ S.beside source.old }
        ensures names { S.names source.new ≡ S.names source.old }
        ensures later { S.faults source.old ≤ S.faults source.new }
        ensures fault { result ≡ taken.Fault → Rose (S.faults source.old) (S.faults source.new) }

        // What still waits after an answer that gives no message.
        ensures held { Holds (waiting self.old) (S.left source.old) self.new (S.left source.new)
            result }

        // The answer stays.
        ensures answer { answer_in self.new ≡ answer_in self.old }

        // No more is read ahead than a head may have.
        ensures room { length (waiting self.new) ≤ HEAD_LIMIT }

        // A whole message that was read already is taken without the source.
        ensures unread { (m : RequestMessage) (rest : List ℕ) → IsSpelled m
            → waiting self.old ≡ spelling m ++ rest → source.new ≡ source.old }
    {
        self.buffer.skip(self.used);
        self.used = 0;
        match self.buffer.read_head(source) {
            Found::Head(spans) => self.take_message(alloc, source, spans),
            Found::End => Taken::End,
            Found::Cut => Taken::Cut {
                rest: self.buffer.unused().len() as u64,
            },
            Found::BadHead => Taken::Refused(MessageFault::BadHead),
            Found::HeadTooLong => Taken::Refused(MessageFault::HeadTooLong),
            Found::Fault => Taken::Fault,
        }
    }

    /// The method of the message that was taken last.
    pub fn method_of(&self, spans: RequestSpans) -> &str
        requires { AreSpansOf self.now spans }
        ensures { (h : RequestHead) → IsHeadOf self.now spans h → result.now ≡ h.method }
    {
        self.buffer.method_of(spans)
    }

    /// The target of the message that was taken last.
    pub fn target_of(&self, spans: RequestSpans) -> &str
        requires { AreSpansOf self.now spans }
        ensures { (h : RequestHead) → IsHeadOf self.now spans h → result.now ≡ h.target }
    {
        self.buffer.target_of(spans)
    }

    /// The value of the first field of that name, of the message that was taken last.
    pub fn value_of(&self, spans: RequestSpans, name: &[u8]) -> Option<&[u8]>
        requires { AreSpansOf self.now spans }
        ensures { (h : RequestHead) → IsHeadOf self.now spans h
            → option_copied result ≡ first_value name.now (map name_and_value h.fields) }
    {
        self.buffer.value_of(spans, name)
    }

    /// Whether the link ends after the answer to the message that was taken last.
    pub fn closes(&self, spans: RequestSpans) -> bool
        requires { AreSpansOf self.now spans }
        ensures { (h : RequestHead) → IsHeadOf self.now spans h → result ≡ closes_after h }
    {
        self.buffer.closes(spans)
    }

    /// The answer: the pieces that were added since it was emptied.
    pub fn answer(&self) -> &[u8]
        ensures value { result.now ≡ answer_in self.now }
        ensures room { length result.now ≤ ANSWER_ROOM }
    {
        self.answer.as_slice()
    }

    /// Empties the answer.
    pub fn clear_answer(&mut self)
        ensures answer { answer_in self.new ≡ [] }
        ensures input { SameInput self.old self.new }
    {
        self.answer.clear();
    }

    /// Puts a piece behind the answer.
    pub fn add_answer(&mut self, piece: &[u8])
        requires { length (answer_in self.old) + length piece.now ≤ ANSWER_ROOM }
        ensures answer { answer_in self.new ≡ answer_in self.old ++ piece.now }
        ensures input { SameInput self.old self.new }
    {
        self.answer.push(piece);
    }

    // Takes the message whose head was found.
    fn take_message<S: Source>(
        &mut self,
        alloc: Global,
        source: &mut S,
        spans: RequestSpans,
    ) -> Taken
        requires spans { AreSpansOf self.old spans }
        requires unused { waiting self.old ≡ head_bytes self.old }
        ensures taken { (h : RequestHead) → IsHeadOf self.old spans h → IsSmall h
            → Takes (head_bytes self.old) (S.left source.old) self.new (S.left source.new) result }
        ensures held { (h : RequestHead) → IsHeadOf self.old spans h → IsSmall h
            → Holds (head_bytes self.old) (S.left source.old) self.new (S.left source.new) result }
        ensures beside { S.beside source.new ≡ S.beside source.old }
        ensures names { S.names source.new ≡ S.names source.old }
        ensures later { S.faults source.old ≤ S.faults source.new }
        ensures fault { result ≡ taken.Fault → Rose (S.faults source.old) (S.faults source.new) }
        ensures answer { answer_in self.new ≡ answer_in self.old }
        ensures unread { (h : RequestHead) → IsHeadOf self.old spans h
            → (m : RequestMessage) (rest : List ℕ) → IsSpelled m
            → head_bytes self.old ≡ spelling m ++ rest → source.new ≡ source.old }
    {
        let size = match self.buffer.size_of(spans) {
            Ok(size) => size as usize,
            Err(fault) => return Taken::Refused(fault),
        };
        let unused = self.buffer.unused();
        let count = unused.len();
        let front = &unused[spans.len..];
        if size <= front.len() {
            self.used = spans.len + size;
            return match Vec::from_slice(alloc, &front[..size]) {
                Ok(body) => Taken::Message { spans, body },
                Err(_) => Taken::Skipped {
                    close: self.closes(spans),
                },
            };
        }
        match read_body(alloc, source, front, size) {
            BodyRead::Whole(body) => {
                self.used = count;
                Taken::Message { spans, body }
            }
            BodyRead::Cut(came) => Taken::Cut {
                rest: (spans.len + came) as u64,
            },
            BodyRead::Fault => Taken::Fault,
            BodyRead::NoMemory => self.skip_message(source, spans, size),
        }
    }

    // Reads and drops the body of the message whose head was found, which lies behind what was read.
    fn skip_message<S: Source>(&mut self, source: &mut S, spans: RequestSpans, size: usize) -> Taken
        requires within { AreSpansOf self.old spans }
        requires behind { length (head_bytes self.old) - spans.len < size }
        requires bound { size ≤ BODY_LIMIT }
        ensures taken { (h : RequestHead) → IsHeadOf self.old spans h → IsSmall h
            → Ok size ≡ body_size h
            → Takes (head_bytes self.old) (S.left source.old) self.new (S.left source.new) result }
        ensures held { (h : RequestHead) → IsHeadOf self.old spans h → IsSmall h
            → Ok size ≡ body_size h
            → Holds (head_bytes self.old) (S.left source.old) self.new (S.left source.new) result }
        ensures beside { S.beside source.new ≡ S.beside source.old }
        ensures names { S.names source.new ≡ S.names source.old }
        ensures later { S.faults source.old ≤ S.faults source.new }
        ensures fault { result ≡ taken.Fault → Rose (S.faults source.old) (S.faults source.new) }
        ensures answer { answer_in self.new ≡ answer_in self.old }
    {
        let close = self.closes(spans);
        let count = self.buffer.unused().len();
        self.used = 0;
        match self.buffer.skip_behind(source, size - (count - spans.len)) {
            Dropped::Full => Taken::Skipped { close },
            Dropped::Cut(came) => Taken::Cut {
                rest: (count + came) as u64,
            },
            Dropped::Fault => Taken::Fault,
        }
    }
}
