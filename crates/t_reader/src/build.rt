//! The nodes of the data read so far.

ghost use Rattle.std.specs.Prelude.{◌≢◌, AllPairs, ◌≡◌, ◌<◌, ◌≤◌, ◌+◌, ◌*◌, ◌^◌, ◌++◌, ◌∷◌, [], List, ℕ, length, vec_len, codes, OnOk, IfOk, OnSome, IfErr, IfSome, IfNone, Some, map, false, slice_range, take, ◌-◌};
ghost use Rattle.std.specs.Char.{to_ascii_lowercase};
ghost use Rattle.t_base.specs.Texts.{with_text};
ghost use Rattle.t_base.specs.declared.basics.Span.{Span};
ghost use Rattle.t_reader.specs.Grammar.{unescaped, inner};
ghost use Rattle.t_reader.specs.Tokens.{IsLexeme};
ghost use Rattle.t_reader.specs.Unit.{children, string_length, IsWholeDatum};

use crate::fault::ReadFault;
use crate::token::Atom;
use crate::unit::{Datum, Node};
use std::alloc::Global;
use t_base::{Bytes, Memory, Names, Span};

/// What a list has behind its items.
#[derive(Clone, Copy)]
pub enum Tail {
    Nothing,
    Dot,
    Datum,
}

/// An open list or a quote mark that waits for its datum.
#[derive(Clone, Copy)]
pub enum Frame {
    /// The items from `first` on are the list's.
    List {
        open: Span,
        first: usize,
        tail: Tail,
    },
    /// The node `word` is the symbol `quote`.
    Quote {
        mark: Span,
        word: u32,
    },
}

/// The nodes, and the data whose parent isn't there yet.
#[derive(Drop)]
pub struct Build {
    pub alloc: Global,
    pub names: Names,
    pub nodes: Vec<Node>,
    pub items: Vec<u32>,
    pub frames: Vec<Frame>,
    pub folded: Vec<u8>,
}

impl Build {
    ghost use Rattle.t_reader.specs.Unit.{node, IsValue, fixed_names};
    ghost use Rattle.t_reader.specs.Build.{weight, KeepsRest, KeepsNodes, Grows, HasTree, quoted_as, last_frame, tail_ended, KeepsBelow, Chains, Delivers, Reached, AddsNode, Stands, HoldAll, IsWell, bulk, names_with};
    ghost use Rattle.t_reader.specs.Grammar.{Tree, Before, symbol, atom_value, TakesDatum, IsSound, close_kind, dot_kind, single, in_list, after_mark, outside, none, Forms, Form, more, to, listed, dotted};
    ghost use Rattle.t_reader.specs.Steps.{put, closed, with_dot};

    /// Before the first token: no data, and the names `setter`, `contents` and `set-contents`. The only error is the want of memory.
    pub fn new(alloc: Global) -> Result<Self, ReadFault>
        ensures weight { IfOk result (λ b. weight b ≤ 3) }
        ensures reached { IfOk result (λ b. (text : List ℕ) → Reached text (outside none) b) }
        ensures names { IfOk result (λ b. b.names ≡ fixed_names) }
        ensures well { IfOk result (λ b. IsWell [] b) }
        ensures bulk { IfOk result (λ b. bulk b ≤ 31) }
        ensures memory { IfErr result (λ e. e ≡ ReadFault.Memory) }
    {
        let mut names = Names::new(alloc);
        names.intern(b"setter")?;
        names.intern(b"contents")?;
        names.intern(b"set-contents")?;
        Ok(Build {
            alloc,
            names,
            nodes: Vec::new(alloc),
            items: Vec::new(alloc),
            frames: Vec::new(alloc),
            folded: Vec::new(alloc),
        })
    }

    fn add_node(&mut self, span: Span, datum: Datum) -> Result<u32, ReadFault>
        requires { weight self.old < 2 ^ 23 }
        ensures weight { OnOk result (weight self.new ≡ weight self.old + 1) }
        ensures bulk { OnOk result (bulk self.new ≡ bulk self.old + string_length datum) }
        ensures place { IfOk result (λ k. k ≡ length self.old.nodes.items) }
        ensures nodes { OnOk result (self.new.nodes.items ≡ self.old.nodes.items ++ node span datum ∷ []) }
        ensures rest { KeepsRest self.old self.new }
        ensures memory { IfErr result (λ e. e ≡ ReadFault.Memory) }
    {
        let place = self.nodes.len() as u32;
        self.nodes.push(Node { span, datum })?;
        Ok(place)
    }

    /// The symbol of the bytes, with its letters folded to lower case.
    fn symbol(&mut self, bytes: &[u8]) -> Result<Datum, ReadFault>
        requires { weight self.old < 2 ^ 23 }
        ensures weight { OnOk result (weight self.new ≤ weight self.old + 1) }
        ensures names { OnOk result (self.new.names ≡ with_text self.old.names (map to_ascii_lowercase bytes.now)) }
        ensures distinct { OnOk result (AllPairs (λ x y. x ≢ y) self.new.names) }
        ensures bulk { OnOk result (bulk self.new ≤ bulk self.old + length bytes.now) }
        ensures value { IfOk result (λ d. IsValue self.new.names d (symbol (map to_ascii_lowercase bytes.now))) }
        ensures grows { OnOk result (Grows self.old self.new) }
        ensures rest { KeepsNodes self.old self.new }
        ensures memory { IfErr result (λ e. e ≡ ReadFault.Memory) }
    {
        fold(&mut self.folded, bytes)?;
        let name = self.names.intern(self.folded.as_slice())?;
        Ok(Datum::Sym(name))
    }

    fn atom(&mut self, atom: Atom, bytes: &[u8]) -> Result<Datum, ReadFault>
        requires { weight self.old < 2 ^ 23 }
        ensures weight { OnOk result (weight self.new ≤ weight self.old + 1) }
        ensures names { OnOk result (self.new.names ≡ names_with self.old.names atom bytes.now) }
        ensures distinct { AllPairs (λ x y. x ≢ y) self.old.names → OnOk result (AllPairs (λ x y. x ≢ y) self.new.names) }
        ensures bulk { IfOk result (λ d. bulk self.new + string_length d ≤ bulk self.old + length bytes.now) }
        ensures value { IfOk result (λ d. IsValue self.new.names d (atom_value bytes.now atom)) }
        ensures grows { OnOk result (Grows self.old self.new) }
        ensures rest { KeepsNodes self.old self.new }
        ensures memory { IfErr result (λ e. e ≡ ReadFault.Memory) }
    {
        match atom {
            Atom::Fix(v) => Ok(Datum::Fix(v)),
            Atom::Char(c) => Ok(Datum::Char(c)),
            Atom::Nil => Ok(Datum::Nil),
            Atom::True => Ok(Datum::True),
            Atom::Str => {
                let text = string_of(self.alloc, bytes)?;
                Ok(Datum::Str(text))
            }
            Atom::Sym => {
                let symbol = self.symbol(bytes)?;
                Ok(symbol)
            }
        }
    }

    /// Adds the datum of an atom with this span and these bytes, and ends the quote marks that wait for it. The only error is the want of
    /// memory.
    pub fn add_atom(&mut self, atom: Atom, span: Span, bytes: &[u8]) -> Result<(), ReadFault>
        requires { weight self.old + 5 ≤ 2 ^ 23 }
        ensures weight { OnOk result (weight self.new ≤ weight self.old + 5) }
        ensures names { OnOk result (self.new.names ≡ names_with self.old.names atom bytes.now) }
        ensures bulk { OnOk result (bulk self.new ≤ bulk self.old + length bytes.now) }
        ensures well { IsWell [] self.old → IsLexeme atom bytes.now → OnOk result (IsWell [] self.new) }
        ensures reached { (text : List ℕ) (b : Before) → Reached text b self.old → TakesDatum b → IsSound b → slice_range text span.start span.end ≡ bytes.now → OnOk result (Reached text (put b (single atom span)) self.new) }
        ensures memory { IfErr result (λ e. e ≡ ReadFault.Memory) }
    {
        let datum = self.atom(atom, bytes)?;
        let node = self.add_node(span, datum)?;
        self.add_datum(node, span.end)?;
        Ok(())
    }

    /// Opens a list, whose parenthesis has this span. The only error is the want of memory.
    pub fn open(&mut self, span: Span) -> Result<(), ReadFault>
        ensures weight { OnOk result (weight self.new ≤ weight self.old + 5) }
        ensures names { OnOk result (self.new.names ≡ self.old.names) }
        ensures bulk { OnOk result (bulk self.new ≤ bulk self.old) }
        ensures well { IsWell [] self.old → OnOk result (IsWell [] self.new) }
        ensures reached { (text : List ℕ) (b : Before) → Reached text b self.old → OnOk result (Reached text (in_list b span none) self.new) }
        ensures memory { IfErr result (λ e. e ≡ ReadFault.Memory) }
    {
        let first = self.items.len();
        self.frames.push(Frame::List {
            open: span,
            first,
            tail: Tail::Nothing,
        })?;
        Ok(())
    }

    /// A quote mark with this span waits for its datum. The only error is the want of memory.
    pub fn quote(&mut self, span: Span) -> Result<(), ReadFault>
        requires { weight self.old + 5 ≤ 2 ^ 23 }
        ensures weight { OnOk result (weight self.new ≤ weight self.old + 5) }
        ensures names { OnOk result (self.new.names ≡ with_text self.old.names (codes "quote")) }
        ensures bulk { OnOk result (bulk self.new ≤ bulk self.old) }
        ensures well { IsWell [] self.old → OnOk result (IsWell [] self.new) }
        ensures reached { (text : List ℕ) (b : Before) → Reached text b self.old → OnOk result (Reached text (after_mark b span) self.new) }
        ensures memory { IfErr result (λ e. e ≡ ReadFault.Memory) }
    {
        let datum = self.symbol(b"quote")?;
        let word = self.add_node(span, datum)?;
        self.frames.push(Frame::Quote { mark: span, word })?;
        Ok(())
    }

    /// `(quote d)` for a datum whose quote mark waits.
    fn quoted(&mut self, span: Span, word: u32, node: u32) -> Result<u32, ReadFault>
        requires { weight self.old + 3 ≤ 2 ^ 23 }
        ensures weight { OnOk result (weight self.new ≡ weight self.old + 3) }
        ensures bulk { OnOk result (bulk self.new ≡ bulk self.old) }
        ensures well { IsWell (word ∷ node ∷ []) self.old → IfOk result (λ k. IsWell (k ∷ []) self.new) }
        ensures rest { KeepsRest self.old self.new }
        ensures grows { OnOk result (Grows self.old self.new) }
        ensures tree { (w t : Tree) → HasTree self.old word w → HasTree self.old node t → IfOk result (λ k. HasTree self.new k (quoted_as span w t)) }
        ensures memory { IfErr result (λ e. e ≡ ReadFault.Memory) }
    {
        let nil = self.add_node(span, Datum::Nil)?;
        let tail = self.add_node(
            span,
            Datum::Pair {
                head: node,
                tail: nil,
            },
        )?;
        let pair = self.add_node(span, Datum::Pair { head: word, tail })?;
        Ok(pair)
    }

    /// The mark and the word of the last frame, if it is a quote mark that waits.
    fn waiting(&self) -> Option<(Span, u32)>
        ensures found { IfSome result (λ p. last_frame self.now.frames.items ≡ Some (Frame.Quote p.0 p.1)) }
        ensures none { IfNone result ((m : Span) (w : ℕ) → last_frame self.now.frames.items ≡ Some (Frame.Quote m w) → ⊥) }
        ensures some { OnSome result (0 < vec_len self.now.frames) }
    {
        match self.frames.last() {
            Some(Frame::Quote { mark, word }) => Some((*mark, *word)),
            _ => None,
        }
    }

    /// The datum behind a dot has come.
    fn end_tail(&mut self) -> Result<(), ReadFault>
        ensures weight { OnOk result (weight self.new ≡ weight self.old) }
        ensures bulk { OnOk result (bulk self.new ≡ bulk self.old) }
        ensures frames { OnOk result (self.new.frames.items ≡ tail_ended self.old.frames.items) }
        ensures rest { KeepsBelow self.old self.new }
        ensures memory { IfErr result (λ e. e ≡ ReadFault.Memory) }
    {
        if let Some(
            Frame::List {
                open,
                first,
                tail: Tail::Dot,
            },
        ) = self.frames.last().copied()
        {
            self.frames.pop();
            self.frames.push(Frame::List {
                open,
                first,
                tail: Tail::Datum,
            })?;
        }
        Ok(())
    }

    /// A datum that has ended, and with it the quote marks that waited for it.
    fn add_datum(&mut self, node: u32, end: u32) -> Result<(), ReadFault>
        requires { weight self.old + 2 ≤ 2 ^ 23 }
        ensures weight { OnOk result (weight self.new ≤ weight self.old + 2) }
        ensures names { OnOk result (self.new.names ≡ self.old.names) }
        ensures bulk { OnOk result (bulk self.new ≤ bulk self.old) }
        ensures well { IsWell (node ∷ []) self.old → OnOk result (IsWell [] self.new) }
        ensures reached { (text : List ℕ) (target : Before) → Delivers text target self.old node end → OnOk result (Reached text target self.new) }
        ensures memory { IfErr result (λ e. e ≡ ReadFault.Memory) }
    {
        let mut node = node;
        'marks: while let Some((mark, word)) = self.waiting() {
            self.frames.pop();
            node = self.quoted(
                Span {
                    start: mark.start,
                    end,
                },
                word,
                node,
            )?;
        }
        self.end_tail()?;
        self.items.push(node)?;
        Ok(())
    }

    /// The pairs of a list of the items from `first` on, with what stands behind them.
    fn add_pairs(&mut self, span: Span, first: usize, tail: u32) -> Result<u32, ReadFault>
        requires { weight self.old ≤ 2 ^ 23 }
        ensures weight { OnOk result (weight self.new ≤ weight self.old) }
        ensures names { OnOk result (self.new.names ≡ self.old.names) }
        ensures bulk { OnOk result (bulk self.new ≤ bulk self.old) }
        ensures well { IsWell (tail ∷ []) self.old → IfOk result (λ k. IsWell (k ∷ []) self.new) }
        ensures pairs { (text : List ℕ) (below : List ℕ) (t : Tree) → Chains text span below first t self.old tail → IfOk result (λ k. HasTree self.new k t × (self.new.items.items ≡ below)) }
        ensures grows { OnOk result (Grows self.old self.new) }
        ensures frames { OnOk result (self.new.frames.items ≡ self.old.frames.items) }
        ensures memory { IfErr result (λ e. e ≡ ReadFault.Memory) }
    {
        let mut tail = tail;
        'pairs: while self.items.len() > first {
            if let Some(head) = self.items.pop() {
                tail = self.add_node(span, Datum::Pair { head, tail })?;
            }
        }
        Ok(tail)
    }

    /// The node behind the last item of a list with no dot.
    fn nil(&mut self, span: Span) -> Result<u32, ReadFault>
        requires { weight self.old < 2 ^ 23 }
        ensures weight { OnOk result (weight self.new ≤ weight self.old + 1) }
        ensures bulk { OnOk result (bulk self.new ≡ bulk self.old) }
        ensures adds { IfOk result (λ k. AddsNode self.old self.new k span Datum.Nil) }
        ensures memory { IfErr result (λ e. e ≡ ReadFault.Memory) }
    {
        let nil = self.add_node(span, Datum::Nil)?;
        Ok(nil)
    }

    /// Ends a list with no dot.
    fn close_list(&mut self, span: Span, first: usize) -> Result<(), ReadFault>
        requires room { weight self.old < 2 ^ 23 - 2 }
        ensures weight { OnOk result (weight self.new ≤ weight self.old + 3) }
        ensures names { OnOk result (self.new.names ≡ self.old.names) }
        ensures bulk { OnOk result (bulk self.new ≤ bulk self.old) }
        ensures well { IsWell [] self.old → OnOk result (IsWell [] self.new) }
        ensures reached { (text : List ℕ) (b : Before) (fs : Forms) (below mine : List ℕ) → Stands text self.old.names self.old.nodes.items b below self.old.frames.items → TakesDatum b → IsSound b → length below ≡ first → self.old.items.items ≡ below ++ mine → HoldAll text self.old.names self.old.nodes.items mine fs → (o c : Span) → span ≡ to o c → OnOk result (Reached text (put b (listed o fs c)) self.new) }
        ensures memory { IfErr result (λ e. e ≡ ReadFault.Memory) }
    {
        let last = self.nil(span)?;
        let node = self.add_pairs(span, first, last)?;
        self.add_datum(node, span.end)?;
        Ok(())
    }

    /// Ends a list whose last item stands behind a dot.
    fn close_dotted(&mut self, span: Span, first: usize) -> Result<(), ReadFault>
        requires room { weight self.old < 2 ^ 23 - 2 }
        ensures weight { OnOk result (weight self.new ≤ weight self.old + 3) }
        ensures names { OnOk result (self.new.names ≡ self.old.names) }
        ensures bulk { OnOk result (bulk self.new ≤ bulk self.old) }
        ensures well { IsWell [] self.old → OnOk result (IsWell [] self.new) }
        ensures reached { (text : List ℕ) (b : Before) (fs : Forms) (g t : Form) (below mine : List ℕ) → Stands text self.old.names self.old.nodes.items b below self.old.frames.items → TakesDatum b → IsSound b → length below ≡ first → self.old.items.items ≡ below ++ mine → HoldAll text self.old.names self.old.nodes.items mine (more (more fs g) t) → (o d c : Span) → span ≡ to o c → OnOk result (Reached text (put b (dotted o fs g d t c)) self.new) }
        ensures memory { IfErr result (λ e. e ≡ ReadFault.Memory) }
    {
        if let Some(last) = self.items.pop() {
            let node = self.add_pairs(span, first, last)?;
            self.add_datum(node, span.end)?;
        }
        Ok(())
    }

    /// Ends the last list, which has no dot or a datum behind it.
    pub fn close(
        &mut self,
        open: Span,
        close: Span,
        first: usize,
        tail: Tail,
    ) -> Result<(), ReadFault>
        requires room { weight self.old ≤ 2 ^ 23 }
        requires last { last_frame self.old.frames.items ≡ Some (Frame.List «open» first tail) }
        ensures weight { OnOk result (weight self.new ≤ weight self.old) }
        ensures names { OnOk result (self.new.names ≡ self.old.names) }
        ensures bulk { OnOk result (bulk self.new ≤ bulk self.old) }
        ensures well { IsWell [] self.old → OnOk result (IsWell [] self.new) }
        ensures reached { (text : List ℕ) (b : Before) → Reached text b self.old → IsSound b → close_kind b ≡ None → OnOk result (Reached text (closed b close) self.new) }
        ensures memory { IfErr result (λ e. e ≡ ReadFault.Memory) }
    {
        self.frames.pop();
        let span = Span {
            start: open.start,
            end: close.end,
        };
        match tail {
            Tail::Datum => self.close_dotted(span, first),
            _ => self.close_list(span, first),
        }
    }

    /// The last list's parenthesis and first place, if a dot may follow its items.
    pub fn list_for_dot(&self) -> Option<(Span, usize)>
        ensures found { IfSome result (λ p. last_frame self.now.frames.items ≡ Some (Frame.List p.0 p.1 Tail.Nothing)) }
        ensures more { IfSome result (λ p. p.1 < length self.now.items.items) }
        ensures none { IfNone result ((o : Span) (first : ℕ) → last_frame self.now.frames.items ≡ Some (Frame.List o first Tail.Nothing) → first < length self.now.items.items → ⊥) }
    {
        match self.frames.last() {
            Some(
                Frame::List {
                    open,
                    first,
                    tail: Tail::Nothing,
                },
            ) => {
                if self.items.len() > *first {
                    Some((*open, *first))
                } else {
                    None
                }
            }
            _ => None,
        }
    }

    /// A dot behind the items of the last list.
    pub fn dot(&mut self, open: Span, first: usize) -> Result<(), ReadFault>
        requires { last_frame self.old.frames.items ≡ Some (Frame.List «open» first Tail.Nothing) }
        ensures weight { OnOk result (weight self.new ≡ weight self.old) }
        ensures names { OnOk result (self.new.names ≡ self.old.names) }
        ensures bulk { OnOk result (bulk self.new ≤ bulk self.old) }
        ensures well { IsWell [] self.old → OnOk result (IsWell [] self.new) }
        ensures reached { (text : List ℕ) (b : Before) (s : Span) → Reached text b self.old → dot_kind b ≡ None → OnOk result (Reached text (with_dot b s) self.new) }
        ensures memory { IfErr result (λ e. e ≡ ReadFault.Memory) }
    {
        self.frames.pop();
        self.frames.push(Frame::List {
            open,
            first,
            tail: Tail::Dot,
        })?;
        Ok(())
    }
}

/// The bytes with their letters folded to lower case.
fn fold(folded: &mut Vec<u8>, bytes: &[u8]) -> Result<(), ReadFault>
    ensures folded { OnOk result (folded.new.items ≡ map to_ascii_lowercase bytes.now) }
    ensures memory { IfErr result (λ e. e ≡ ReadFault.Memory) }
{
    folded.clear();
    for b in bytes {
        folded.push(b.to_ascii_lowercase())?;
    }
    Ok(())
}

/// The bytes of a string that stands in the text with its marks.
fn string_of(alloc: Global, bytes: &[u8]) -> Result<Bytes, Memory>
    ensures { IfOk result (λ s. s ≡ unescaped false (inner bytes.now)) }
{
    unescaped(alloc, inner(bytes))
}

/// The bytes between the quote marks.
fn inner(bytes: &[u8]) -> &[u8]
    ensures { result.now ≡ inner bytes.now }
{
    match bytes {
        [] => bytes,
        [_, more @ ..] => &more[..more.len().saturating_sub(1)],
    }
}

/// The bytes without the backslashes before quote marks and backslashes.
fn unescaped(alloc: Global, bytes: &[u8]) -> Result<Bytes, Memory>
    ensures { IfOk result (λ s. s ≡ unescaped false bytes.now) }
{
    let mut content = Vec::new(alloc);
    let mut escaped = false;
    let mut rest = bytes;
    while let [b, more @ ..] = rest {
        if !escaped && *b == b'\\' {
            escaped = true;
        } else {
            content.push(*b)?;
            escaped = false;
        }
        rest = more;
    }
    Ok(Bytes::from_vec(content))
}
