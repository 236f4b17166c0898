ghost use Rattle.std.specs.Prelude.{◌≡◌, ℕ, ◌≤◌, List, [], length, drop, map};
ghost use Rattle.std.specs.Prelude.{IfOk, IfErr, IsUtf8};
ghost use Rattle.std.specs.Option.{option_copied};
ghost use Rattle.std.specs.Io.KnownBytes.{Keeps, prepend_known};
ghost use Rattle.edge_traits.specs.Causes.{Rose};
ghost use Rattle.httparse.specs.Grammar.{RequestHead, ReadsRequest};
ghost use Rattle.httparse.specs.Spans.{name_and_value};
ghost use Rattle.http_wire.specs.Heads.{first_value};
ghost use Rattle.http_wire.specs.Messages.{body_size, closes_after, IsSizeFault};
ghost use Rattle.http_wire.specs.Found.{IsFound};
ghost use Rattle.http_wire.specs.Skipping.{IsDropped};
ghost use Rattle.http_wire.specs.declared.skipping.Dropped.TheVariants as dropped;
ghost use Rattle.http_wire.specs.declared.limits.TheConstants.{HEAD_LIMIT, FIELD_LIMIT, BODY_LIMIT};

use crate::closing::closes;
use crate::fields::first_value;
use crate::found::Found;
use crate::limits::{FIELD_LIMIT, HEAD_LIMIT};
use crate::message_fault::MessageFault;
use crate::reading::find_head;
use crate::sizes::size_of;
use crate::skipping::{Dropped, drop_bytes};
use edge_traits::Source;
use httparse::spans::{EMPTY_HEADER_SPAN, HeaderSpan, RequestSpans};
use std::alloc::{AllocError, Global};

/// The bytes of a link that were read and not used yet, with room for the longest head. It is made once for a link,
/// and no later call takes memory.
#[derive(Drop)]
pub struct HeadBuffer {
    bytes: Vec<u8>,
    headers: Vec<HeaderSpan>,
    start: usize,
    end: usize,
    ghost room: { length bytes.items ≡ HEAD_LIMIT },
    ghost header_room: { length headers.items ≡ FIELD_LIMIT },
    ghost ordered: { start ≤ end },
    ghost within: { end ≤ length bytes.items },
}

impl HeadBuffer {
    ghost use Rattle.http_wire.specs.Buffers.{unused_bytes, header_spans, AreSpansIn, IsHeadIn};

    /// A buffer without unused bytes.
    ///
    /// # Errors
    ///
    /// `AllocError` where there is no memory for it.
    pub fn new(alloc: Global) -> Result<HeadBuffer, AllocError>
        ensures { IfOk result (λ b. unused_bytes b ≡ []) }
    {
        Ok(HeadBuffer {
            bytes: vec![in alloc; 0; HEAD_LIMIT]?,
            headers: vec![in alloc; EMPTY_HEADER_SPAN; FIELD_LIMIT]?,
            start: 0,
            end: 0,
        })
    }

    /// The bytes that were read and not used yet.
    pub fn unused(&self) -> &[u8]
        ensures value { result.now ≡ unused_bytes self.now }
        ensures room { length result.now ≤ HEAD_LIMIT }
    {
        &self.bytes[self.start..self.end]
    }

    /// Finds what stands at the front of the input: of the unused bytes, and then of what the source has left. It reads
    /// only while the unused bytes do not decide that, and no byte is lost, whatever it finds.
    pub fn read_head<S: Source>(&mut self, source: &mut S) -> Found
        ensures kept { Keeps (prepend_known (unused_bytes self.old) (S.left source.old))
            (prepend_known (unused_bytes self.new) (S.left source.new)) }
        ensures found { IsFound (unused_bytes self.new) (header_spans self.new) (S.left source.new)
            result }
        ensures beside { S.beside source.new ≡ S.beside source.old }
        ensures names { S.names source.new ≡ S.names source.old }
        ensures later { S.faults source.old ≤ S.faults source.new }
        ensures fault { result ≡ Found.Fault → Rose (S.faults source.old) (S.faults source.new) }

        // A whole head that is there already is found without the source.
        ensures unread { (h : RequestHead) (rest : List ℕ)
            → ReadsRequest (unused_bytes self.old) h rest
            → (source.new ≡ source.old) × (unused_bytes self.new ≡ unused_bytes self.old) }
    {
        let search = find_head(
            source,
            &mut self.bytes,
            &mut self.headers,
            self.start,
            self.end,
        );
        self.start = search.start;
        self.end = search.end;
        search.found
    }

    /// The value of a found head's first field of that name, in any case, without the white space around it.
    pub fn value_of(&self, spans: RequestSpans, name: &[u8]) -> Option<&[u8]>
        requires { AreSpansIn self.now spans }
        ensures { (h : RequestHead) → IsHeadIn self.now spans h
            → option_copied result ≡ first_value name.now (map name_and_value h.fields) }
    {
        first_value(self.unused(), &self.headers[..spans.headers], name)
    }

    /// The method of a found head.
    pub fn method_of(&self, spans: RequestSpans) -> &str
        requires { AreSpansIn self.now spans }
        ensures { (h : RequestHead) → IsHeadIn self.now spans h
            → result.now ≡ h.method }
    {
        text_of(spans.method.of(self.unused()))
    }

    /// The target of a found head.
    pub fn target_of(&self, spans: RequestSpans) -> &str
        requires { AreSpansIn self.now spans }
        ensures { (h : RequestHead) → IsHeadIn self.now spans h
            → result.now ≡ h.target }
    {
        text_of(spans.path.of(self.unused()))
    }

    /// Whether the link ends after the answer to a found head.
    pub fn closes(&self, spans: RequestSpans) -> bool
        requires { AreSpansIn self.now spans }
        ensures { (h : RequestHead) → IsHeadIn self.now spans h
            → result ≡ closes_after h }
    {
        closes(spans.version, self.unused(), &self.headers[..spans.headers])
    }

    /// How many bytes of a body a found head says that follow it.
    pub fn size_of(&self, spans: RequestSpans) -> Result<u64, MessageFault>
        requires { AreSpansIn self.now spans }
        ensures size { (h : RequestHead) → IsHeadIn self.now spans h
            → result ≡ body_size h }
        ensures kind { IfErr result IsSizeFault }
        ensures bound { IfOk result (λ n. n ≤ BODY_LIMIT) }
    {
        size_of(self.unused(), &self.headers[..spans.headers])
    }

    /// Uses the first `count` unused bytes.
    pub fn skip(&mut self, count: usize)
        requires { count ≤ length (unused_bytes self.old) }
        ensures { unused_bytes self.new ≡ drop count (unused_bytes self.old) }
    {
        self.start += count;
    }

    /// Uses all unused bytes, and reads and drops so many that follow them.
    pub fn skip_behind<S: Source>(&mut self, source: &mut S, count: usize) -> Dropped
        ensures none { unused_bytes self.new ≡ [] }
        ensures dropped { IsDropped (S.left source.old) (S.left source.new) count result }
        ensures beside { S.beside source.new ≡ S.beside source.old }
        ensures names { S.names source.new ≡ S.names source.old }
        ensures later { S.faults source.old ≤ S.faults source.new }
        ensures fault { result ≡ dropped.Fault → Rose (S.faults source.old) (S.faults source.new) }
    {
        self.start = 0;
        self.end = 0;
        drop_bytes(source, &mut self.bytes, count)
    }
}

// Bytes as a text, where they are one.
fn text_of(bytes: &[u8]) -> &str
    ensures { IsUtf8 bytes.now → result.now ≡ bytes.now }
{
    str::from_utf8(bytes).unwrap_or("")
}
